//! Laws of written numbers and lines.
ghost use Rattle.std.specs.Prelude.{◌≡◌, ◌≤◌, ℕ, ℤ, unsigned_abs, List, All, Ok, true};
ghost use Rattle.std.specs.List.{flat_map, list_all};
ghost use Rattle.fixed_num.specs.Decimal.{number_of};
ghost use Rattle.fixed_num.specs.Written.{written};
ghost use Rattle.case_model.specs.declared.cases.Case.{Case};
ghost use Rattle.case_lines.specs.Texts.{lines_of};
ghost use Rattle.surge_io.specs.Fields.{line_of};
ghost use Rattle.case_writing.specs.CaseText.{case_text};
ghost use Rattle.round_trip.specs.Lines.{case_lines};
ghost use Rattle.round_trip.specs.Plain.{is_number_byte, is_plain, IsPlainLine};
ghost use Rattle.round_trip.specs.Writable.{IsWritable};

/// The law of written numbers: with whatever places, a number of up to 10^18 reads as itself, and
/// each has digits, a hyphen and a point alone, so that it is one field of its line.
pub fn numbers_read_back()
    ensures back { (places : ℕ) (x : ℤ) → unsigned_abs x ≤ 1_000_000_000_000_000_000 →
        number_of places (written places x) ≡ Ok x }
    ensures bytes { (places : ℕ) (x : ℤ) → list_all is_number_byte (written places x) ≡ true }
    ensures plain { (places : ℕ) (x : ℤ) → is_plain (written places x) ≡ true }
{}

/// The law of written lines: the text of lines of plain fields has just these lines and fields, and
/// so has the written text of a case those of the case.
pub fn written_lines_are_its_fields()
    ensures any { (lines : List (List (List ℕ))) → All IsPlainLine lines →
        lines_of (flat_map line_of lines) ≡ lines }
    ensures text { (case : Case) → case_text case ≡ flat_map line_of (case_lines case) }
    ensures plain { (case : Case) → IsWritable case → All IsPlainLine (case_lines case) }
    ensures lines { (case : Case) → IsWritable case → lines_of (case_text case) ≡ case_lines case }
{}
