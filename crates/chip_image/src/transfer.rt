//! Bytes that are read whole.
ghost use Rattle.std.specs.Prelude.{◌≡◌, length};
ghost use Rattle.chip_image.specs.Transfer.{RoseOnlyAt, TakesWhole};

use crate::fault::ImageFault;
use hpb_outside::{Failed, Source};

/// Fills the buffer from the source. It fails with `Cut` where the source ends before, or with `ReadFault`.
pub fn read_whole<S: Source>(source: &mut S, buf: &mut [u8]) -> Result<(), ImageFault>
    ensures bytes { TakesWhole (S.left source.old) (S.left source.new) buf.new result }
    ensures len { length buf.new ≡ length buf.old }
    ensures cause { RoseOnlyAt (S.faults source.old) (S.faults source.new) ImageFault.ReadFault result }
{
    let mut filled = 0;
    while filled < buf.len() {
        match source.read(&mut buf[filled..]) {
            Ok(0) => return Err(ImageFault::Cut),
            Ok(count) => filled += count,
            Err(Failed) => return Err(ImageFault::ReadFault),
        }
    }
    Ok(())
}
