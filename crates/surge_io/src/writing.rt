//! Writing all of a run of bytes.
ghost use Rattle.surge_io.specs.Writings.{IsWritten};

use super::sinks::Sink;
use super::sources::Failed;

/// Writes all of `bytes`, in as many writes as the sink wants.
/// `Failed` comes only where the sink's count of faults rose in this call, and then a first part
/// was appended.
pub fn put<K: Sink>(out: &mut K, bytes: &[u8]) -> Result<(), Failed>
    ensures { IsWritten K.held K.faults result out.old out.new bytes.now }
{
    let mut done = 0;
    while done < bytes.len() {
        let count = out.write(&bytes[done..])?;
        if count == 0 {
            return Err(Failed);
        }
        done += count;
    }
    Ok(())
}
