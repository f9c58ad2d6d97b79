//! Reading a source to its end.
ghost use Rattle.std.specs.Prelude.{◌≡◌, ℕ, ◌+◌, ◌≤◌, List, length, IfOk, IfSome, IsErrOf};
ghost use Rattle.surge_io.specs.Bytes.{HasRead, IsReading};
ghost use Rattle.surge_io.specs.Faults.{Rose};
ghost use Rattle.surge_io.specs.Readings.{HasFailed, HasTaken, WasRead};
ghost use Rattle.surge_io.specs.declared.reading.ReadFault.TheVariants.{Memory, Failed};

use super::sources::{Failed, Source};
use std::alloc::{AllocError, Global};
use thiserror::Error;

/// Why a source wasn't read to its end: want of memory, or a read that failed.
#[derive(Clone, Copy, Debug, PartialEq, Eq, Error)]
pub enum ReadFault {
    #[error("out of memory")]
    Memory,
    #[error("the source failed")]
    Failed,
}

/// How many bytes one read asks for at most.
const PIECE: usize = 4096;

/// Reads `src` to its end, and no further than `limit` + 1 bytes: more than `limit` bytes say that
/// the input is too long. The bytes are those that were taken from the source, and it gave no
/// others. `Failed` comes only where the source's count of faults rose in this call, and `Memory`
/// for want of memory; then too no more than `limit` + 1 bytes were taken.
pub fn whole<S: Source>(alloc: Global, src: &mut S, limit: usize) -> Result<Vec<u8>, ReadFault>
    requires { limit ≤ 16_777_216 }
    ensures taken { IfOk result (λ v. WasRead S.gives limit src.old v.items src.new) }
    ensures bytes { IfOk result (λ v. IfSome (S.left src.old) (IsReading limit v.items)) }
    ensures rest { IfOk result (λ v. HasRead (S.left src.old) (S.left src.new) v.items) }

    // Where reading was given up.
    ensures starved { IsErrOf result ReadFault.Memory → (taken : List ℕ)
        × (length taken ≤ limit + 1)
        × HasTaken S.gives src.old taken src.new × HasRead (S.left src.old) (S.left src.new) taken }
    ensures failed { IsErrOf result ReadFault.Failed → (taken : List ℕ) × (length taken ≤ limit)
        × HasFailed S.gives src.old taken src.new
        × HasRead (S.left src.old) (S.left src.new) taken }
    ensures cause { IsErrOf result ReadFault.Failed → Rose (S.faults src.old) (S.faults src.new) }
    ensures later { S.faults src.old ≤ S.faults src.new }
{
    let mut bytes = Vec::new(alloc);
    let mut piece = [0u8; PIECE];
    while bytes.len() <= limit {
        let wanted = PIECE.min(limit + 1 - bytes.len());
        let count = src.read(&mut piece[..wanted])?;
        if count == 0 {
            return Ok(bytes);
        }
        bytes.extend_from_slice(&piece[..count])?;
    }
    Ok(bytes)
}

impl From<AllocError> for ReadFault {
    ghost from_gives = { λ _ fault. fault ≡ Memory };

    fn from(_fault: AllocError) -> ReadFault {
        ReadFault::Memory
    }
}

impl From<Failed> for ReadFault {
    ghost from_gives = { λ _ fault. fault ≡ Failed };

    fn from(_fault: Failed) -> ReadFault {
        ReadFault::Failed
    }
}
