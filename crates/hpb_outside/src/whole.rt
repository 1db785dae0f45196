//! Bytes that are written whole.
ghost use Rattle.hpb_outside.specs.Faults.{HasCause};
ghost use Rattle.hpb_outside.specs.Writes.{Writes};

use crate::{Failed, Sink};

/// Writes the bytes, piece by piece. It fails with `Failed` where a write fails or takes nothing; a front of the bytes
/// is then written.
pub fn write_whole<K: Sink>(sink: &mut K, bytes: &[u8]) -> Result<(), Failed>
    ensures writes { Writes (K.written sink.old) (K.written sink.new) result bytes.now }
    ensures cause { HasCause (K.faults sink.old) (K.faults sink.new) result }
{
    let mut rest = bytes;
    while !rest.is_empty() {
        let count = sink.write(rest)?;
        if count == 0 {
            return Err(Failed);
        }
        let (_, after) = rest.split_at(count);
        rest = after;
    }
    Ok(())
}
