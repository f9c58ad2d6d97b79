//! The first pass over a text: the least rule that its lines break.
ghost use Rattle.std.specs.Prelude.{◌≡◌, ◌≤◌, ℕ, Err, IfOk, length};
ghost use Rattle.case_model.specs.Sets.{IsEmpty, IsLeast};
ghost use Rattle.case_lines.specs.Texts.{lines_of};
ghost use Rattle.case_rules.specs.Among.{line_rules};
ghost use Rattle.case_rules.specs.Tallies.{IsTally};

use crate::judging::judge;
use crate::tally::Tally;
use case_lines::next_line;
use case_model::CaseFault;
use std::alloc::Global;

/// Whether the lines of a text break no rule, by their tally. `Refused` is the least rule that they
/// break, by line and then by number.
pub fn judge_lines(alloc: Global, bytes: &[u8], tally: &Tally) -> Result<(), CaseFault>
    requires short { length bytes.now ≤ 8_388_608 }
    requires tally { IsTally tally.now (lines_of bytes.now) }
    ensures kept { IfOk result (λ u. IsEmpty (line_rules (lines_of bytes.now))) }
    ensures refused { (number line : ℕ) → result ≡ Err (CaseFault.Refused number line) →
        IsLeast (line_rules (lines_of bytes.now)) line number }
{
    let mut before = 0u32;
    let mut rest = bytes;
    'lines: while let Some((line, others)) = next_line(alloc, rest)? {
        if let Some(number) = judge(tally, before, &line) {
            let line = before + 1;
            return Err(CaseFault::Refused { number, line });
        }
        before += 1;
        rest = others;
    }
    if before == 0 {
        return Err(CaseFault::Refused { number: 1, line: 1 });
    }
    Ok(())
}
