//! Why a case text or a case is refused.
ghost use Rattle.std.specs.Prelude.{◌≡◌};
ghost use Rattle.case_model.specs.declared.fault.CaseFault.TheVariants.{Memory};

use std::alloc::AllocError;
use thiserror::Error;

/// Why a case isn't accepted.
#[derive(Clone, Copy, Debug, PartialEq, Eq, Error)]
pub enum CaseFault {
    /// The least rule that is broken, by line and then by number.
    #[error("refused {number} line {line}")]
    Refused { number: u8, line: u32 },
    /// Want of memory.
    #[error("out of memory")]
    Memory,
}

impl From<AllocError> for CaseFault {
    ghost from_gives = { λ _ fault. fault ≡ Memory };

    fn from(_fault: AllocError) -> CaseFault {
        CaseFault::Memory
    }
}
