//! The reader of the case text.
ghost use Rattle.std.specs.Prelude.{◌≡◌, Ok, Err, IfOk, IfErr, IfSome};
ghost use Rattle.case_model.specs.Accepted.{IsAccepted};
ghost use Rattle.netfile.specs.Verdict.{verdict, refusal_in};

use crate::building::case_of;
use case_model::{Case, CaseFault, Mesh};
use case_rules::{judge_counts, judge_lines, tally_lines};
use reaches::divide;
use std::alloc::Global;

/// The most bytes of a case text.
pub const MOST_BYTES: usize = 8_388_608;

/// The case that a text means, and its mesh.
/// `Refused` is the first refusal of the text: that of its lines, else of its counts, else of the
/// division of its case, each the least by line and then by number.
pub fn read_case(alloc: Global, bytes: &[u8]) -> Result<(Case, Mesh), CaseFault>
    ensures accepted { IfOk result (λ r. verdict bytes.now ≡ Ok (r.0, r.1)) }
    ensures fulfilled { IfOk result (λ r. IsAccepted r.0 r.1) }
    ensures refused { IfErr result
        (λ fault. IfSome (refusal_in fault) (λ r. verdict bytes.now ≡ Err r)) }
{
    if bytes.len() > MOST_BYTES {
        return Err(CaseFault::Refused {
            number: 10,
            line: 0,
        });
    }
    let tally = tally_lines(alloc, bytes)?;
    judge_lines(alloc, bytes, &tally)?;
    judge_counts(&tally)?;
    let case = case_of(alloc, bytes, &tally)?;
    let mesh = divide(alloc, &case)?;
    Ok((case, mesh))
}
