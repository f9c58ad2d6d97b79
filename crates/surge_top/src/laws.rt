//! The laws of the answer: what its status stands for, and what of a job it depends on. No function
//! here does anything: each contract is a law.
ghost use Rattle.std.specs.Prelude.{◌≡◌, ℕ, List, true, false, Some, None, Ok, Err};
ghost use Rattle.case_model.specs.FirstFault.{first_fault};
ghost use Rattle.case_model.specs.declared.cases.Case.{Case};
ghost use Rattle.case_model.specs.declared.meshes.Mesh.{Mesh};
ghost use Rattle.case_model.specs.Search.{Refusal};
ghost use Rattle.command_words.specs.declared.job.Command.TheVariants.{Check, Mesh as MeshCommand};
ghost use Rattle.command_words.specs.declared.job.Command.TheVariants.{Rounds, Run, Upgrade};
ghost use Rattle.command_words.specs.declared.job.Job.{Job};
ghost use Rattle.command_words.specs.CommandLine.{job_of};
ghost use Rattle.netfile.specs.Verdict.{verdict};
ghost use Rattle.regions.specs.Layouts.{layout_of};
ghost use Rattle.scheme.specs.Laws.{meaning_of};
ghost use Rattle.surge_top.specs.Answer.{Says, answer, are_read, computes, text_for, unread};
ghost use Rattle.surge_top.specs.Answer.{usage};

/// The law of the answer's status: 2 for refused words, which have the usage line; 1 for a refused
/// text; 3 for `rounds`, `run` and a drill where a place of the accepted case is Bad up to the last
/// step; and 0 else. What words answer that have no input read hangs on no input.
pub fn statuses_have_their_causes()
    ensures words { (words : List (List ℕ)) (bytes : List ℕ) →
        job_of words ≡ None → answer words bytes ≡ usage }
    ensures unread { (words : List (List ℕ)) (bytes : List ℕ) →
        are_read words ≡ false → answer words bytes ≡ unread words }
    ensures refused { (words : List (List ℕ)) (bytes : List ℕ) (job : Job) (r : Refusal) →
        job_of words ≡ Some job → verdict (text_for job bytes) ≡ Err r →
        (answer words bytes).status ≡ 1 }
    ensures checked { (words : List (List ℕ)) (bytes : List ℕ) (job : Job) (case : Case)
        (mesh : Mesh) →
        Says words bytes job case mesh → job.command ≡ Check → (answer words bytes).status ≡ 0 }
    ensures cut { (words : List (List ℕ)) (bytes : List ℕ) (job : Job) (case : Case) (mesh : Mesh) →
        Says words bytes job case mesh → job.command ≡ MeshCommand →
        (answer words bytes).status ≡ 0 }
    ensures range { (words : List (List ℕ)) (bytes : List ℕ) (job : Job) (case : Case) (mesh : Mesh)
        (fault : ℕ × ℕ) → Says words bytes job case mesh → computes job.command ≡ true →
        first_fault (meaning_of case mesh) case.steps ≡ Some fault →
        (answer words bytes).status ≡ 3 }
    ensures done { (words : List (List ℕ)) (bytes : List ℕ) (job : Job) (case : Case)
        (mesh : Mesh) →
        Says words bytes job case mesh → computes job.command ≡ true →
        first_fault (meaning_of case mesh) case.steps ≡ None → (answer words bytes).status ≡ 0 }
    ensures upgraded { (words : List (List ℕ)) (bytes : List ℕ) (job : Job) (case : Case)
        (mesh : Mesh) →
        Says words bytes job case mesh → job.command ≡ Upgrade → (answer words bytes).status ≡ 0 }
{}

/// The law of options: jobs of one command and number have one answer, whatever workers, slots and
/// windows they name; only `mesh` prints the scheme of its window, and its answer is the same for
/// all windows with one scheme. And `run` has the answer of `rounds`.
pub fn answers_are_of_their_commands()
    ensures options { (words others : List (List ℕ)) (bytes : List ℕ) (job other : Job) →
        job_of words ≡ Some job → job_of others ≡ Some other →
        other.command ≡ job.command → other.number ≡ job.number →
        (job.command ≡ MeshCommand → other.window ≡ job.window) →
        answer others bytes ≡ answer words bytes }
    ensures runs { (words others : List (List ℕ)) (bytes : List ℕ) (job other : Job) →
        job_of words ≡ Some job → job_of others ≡ Some other →
        job.command ≡ Rounds → other.command ≡ Run →
        answer others bytes ≡ answer words bytes }
    ensures schemes { (words others : List (List ℕ)) (bytes : List ℕ) (job other : Job)
        (case : Case) (mesh : Mesh) →
        Says words bytes job case mesh → Says others bytes other case mesh →
        job.command ≡ MeshCommand → other.command ≡ MeshCommand →
        layout_of case.steps mesh other.window ≡ layout_of case.steps mesh job.window →
        answer others bytes ≡ answer words bytes }
{}
