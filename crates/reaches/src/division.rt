//! Courant division of a case: its mesh, or its first refusal.
ghost use Rattle.std.specs.Prelude.{◌≡◌, ◌*◌, ◌+◌, ◌/◌, ◌≤◌, ℕ, Err, IfOk, length};
ghost use Rattle.case_model.specs.Mesh.{IsMesh, IsNumbered};
ghost use Rattle.case_model.specs.Limits.{IsRead};
ghost use Rattle.case_model.specs.Sets.{AreEmpty, IsFirst};
ghost use Rattle.case_model.specs.Bounds.{LeastOrNone};
ghost use Rattle.case_model.specs.Division.{AreEnds, mesh_of, place_base};
ghost use Rattle.case_model.specs.Refusals.{part_rules, passes, is_too_large as is_too_large_of};
ghost use Rattle.case_model.specs.Refusals.{sample_count as sample_count_of};
ghost use Rattle.case_model.specs.declared.cases.TheConstants.{MOST_PROBES};
ghost use Rattle.reaches.specs.Decided.{AreDecided};

use crate::ends::all_ends;
use crate::meshing::pipe_meshes;
use crate::nodes::nodes_refusal;
use crate::pipes::{Decided, decide_pipes, pipes_refusal};
use crate::probes::probes_refusal;
use crate::refusal::{Refusal, lesser};
use case_model::{Case, CaseFault, End, List, Mesh};
use std::alloc::Global;

/// The mesh of a case: its pipes in reaches of one time step, with wave speeds adjusted within the
/// tolerance. `Refused` is the first refusal of the division. Takes memory for the mesh, and for what
/// it decides of each pipe.
/// Wylie and Streeter, Fluid Transients in Systems, complex systems in the method of characteristics.
pub fn divide(alloc: Global, case: &Case) -> Result<Mesh, CaseFault>
    requires { IsRead case.now }
    ensures mesh { IfOk result (λ mesh. mesh ≡ mesh_of case.now) }
    ensures accepted { IfOk result (λ mesh. AreEmpty (passes case.now)) }
    ensures pipes { IfOk result (λ mesh. length mesh.pipes ≡ length case.now.pipes) }
    ensures good { IfOk result (λ mesh. IsMesh mesh) }
    ensures numbered { IfOk result (λ mesh. IsNumbered mesh) }
    ensures refused { (number line : ℕ) → result ≡ Err (CaseFault.Refused number line) →
        IsFirst (passes case.now) line number }
{
    let ends = all_ends(alloc, case)?;
    let decisions = decide_pipes(alloc, case)?;
    let decided = Decided {
        case,
        pipes: &decisions,
    };
    if let Some(refusal) = parts_refusal(&decided, &ends) {
        return Err(CaseFault::Refused {
            number: refusal.number,
            line: refusal.line,
        });
    }
    let (pipes, places) = pipe_meshes(alloc, &decided)?;
    if is_too_large(case, places) {
        return Err(CaseFault::Refused {
            number: 10,
            line: 0,
        });
    }
    Ok(Mesh {
        pipes: List::over(pipes),
        ends: List::over(ends),
        places,
    })
}

// The least refusal of single pipes, nodes and probes, if any.
#[tactic(auto, unfolding(case_model::specs::Refusals::part_rules))]
fn parts_refusal(decided: &Decided, ends: &[List<End>]) -> Option<Refusal>
    requires read { IsRead decided.now.case.now }
    requires decided { AreDecided decided.now.case.now decided.now.pipes.now }
    requires ends { AreEnds decided.now.case.now ends.now }
    ensures { LeastOrNone (part_rules decided.now.case.now) result }
{
    let of_pipes_and_nodes = lesser(pipes_refusal(decided), nodes_refusal(decided, ends));
    lesser(of_pipes_and_nodes, probes_refusal(decided))
}

// Whether a case has too many places or samples.
fn is_too_large(case: &Case, places: u64) -> bool
    requires read { IsRead case.now }
    requires places { places ≡ place_base case.now (length case.now.pipes) }
    ensures { result ≡ is_too_large_of case.now }
{
    places > 400_000 || sample_count(case) > 4_000_000
}

// How many samples a case asks for.
#[tactic(auto, unfolding(case_model::specs::Refusals::sample_count))]
fn sample_count(case: &Case) -> u64
    requires { IsRead case.now }
    ensures { result ≡ sample_count_of case.now }
{
    samples(
        case.probes.as_slice().len() as u64,
        case.steps / case.every + 1,
    )
}

fn samples(probes: u64, each: u64) -> u64
    requires probes_in { probes ≤ MOST_PROBES }
    requires each_in { each ≤ 100_000_001 }
    ensures { result ≡ probes * each }
{
    probes * each
}
