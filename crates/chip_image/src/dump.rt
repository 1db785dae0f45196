//! Writing an image.
ghost use Rattle.std.specs.Prelude.{◌≡◌, ◌<◌, ◌∷◌, ◌++◌, Err, length};
ghost use Rattle.flash_pages.specs.Chip.{IsWithinLimits, Written, page_at};
ghost use Rattle.chip_image.specs.declared.version.Version.TheVariants as version;
ghost use Rattle.chip_image.specs.Image.{image_of, magic, page_bytes, shape_bytes, spare_bytes};
ghost use Rattle.hpb_outside.specs.Writes.{Writes};
ghost use Rattle.chip_image.specs.Transfer.{RoseOnlyAt};

use crate::fault::DumpFault;
use crate::version::{Version, shape_bytes};
use byteorder::{BigEndian, ByteOrder};
use flash_pages::{Flash, Geometry, PageView, Spare};
use hpb_outside::{Sink, write_whole};

/// Writes the image of the chip, in version 2. It takes no memory. After a fault a front of the image was written.
pub fn dump_image<F: Flash, K: Sink>(flash: &mut F, sink: &mut K) -> Result<(), DumpFault>
    requires limits { IsWithinLimits (F.geometry flash.old) }
    ensures writes { Writes (K.written sink.old) (K.written sink.new) result
        (image_of version.Two (F.geometry flash.old) (F.pages flash.old)) }
    ensures pages { F.pages flash.new ≡ F.pages flash.old }
    ensures geometry { F.geometry flash.new ≡ F.geometry flash.old }
    ensures sink_faults { RoseOnlyAt (K.faults sink.old) (K.faults sink.new) DumpFault.WriteFault result }
    ensures chip_faults { RoseOnlyAt (F.faults flash.old) (F.faults flash.new) DumpFault.ChipFault result }
{
    let geometry = flash.geometry();
    write_head(sink, geometry)?;
    for page in 0..geometry.blocks * geometry.pages {
        dump_page(flash, sink, page)?;
    }
    Ok(())
}

/// Writes what stands before the pages.
fn write_head<K: Sink>(sink: &mut K, geometry: Geometry) -> Result<(), DumpFault>
    ensures writes { Writes (K.written sink.old) (K.written sink.new) result
        (magic version.Two ++ shape_bytes geometry) }
    ensures cause { RoseOnlyAt (K.faults sink.old) (K.faults sink.new) DumpFault.WriteFault result }
    ensures fault { result ≡ Err DumpFault.ChipFault → ⊥ }
{
    write(sink, &Version::Two.magic())?;
    write(sink, &shape_bytes(geometry))
}

/// Writes a page of the image.
fn dump_page<F: Flash, K: Sink>(flash: &mut F, sink: &mut K, page: u32) -> Result<(), DumpFault>
    requires page { page < length (F.pages flash.old) }
    ensures writes { Writes (K.written sink.old) (K.written sink.new) result
        (page_bytes version.Two (page_at (F.pages flash.old) page)) }
    ensures pages { F.pages flash.new ≡ F.pages flash.old }
    ensures geometry { F.geometry flash.new ≡ F.geometry flash.old }
    ensures sink_faults { RoseOnlyAt (K.faults sink.old) (K.faults sink.new) DumpFault.WriteFault result }
    ensures chip_faults { RoseOnlyAt (F.faults flash.old) (F.faults flash.new) DumpFault.ChipFault result }
{
    if flash.read(page).is_err() {
        return Err(DumpFault::ChipFault);
    }
    match flash.shown() {
        PageView::Erased => write(sink, &[0x00]),
        PageView::Written { bytes, spare } => write_page(sink, spare, bytes),
    }
}

/// Writes a written page.
fn write_page<K: Sink>(sink: &mut K, spare: Spare, block: &[u8]) -> Result<(), DumpFault>
    ensures writes { Writes (K.written sink.old) (K.written sink.new) result
        (page_bytes version.Two (Written block.now spare)) }
    ensures cause { RoseOnlyAt (K.faults sink.old) (K.faults sink.new) DumpFault.WriteFault result }
    ensures fault { result ≡ Err DumpFault.ChipFault → ⊥ }
{
    write(sink, &head_of(spare))?;
    write(sink, block)
}

/// The bytes of a written page before its block.
fn head_of(spare: Spare) -> [u8; 14]
    ensures { result ≡ 1 ∷ spare_bytes version.Two spare }
{
    let mut bytes = [0; 14];
    bytes[0] = 0x01;
    bytes[1] = spare.lun;
    BigEndian::write_u32(&mut bytes[2..6], spare.lba);
    BigEndian::write_u64(&mut bytes[6..], spare.seq);
    bytes
}

/// Writes the bytes.
fn write<K: Sink>(sink: &mut K, bytes: &[u8]) -> Result<(), DumpFault>
    ensures writes { Writes (K.written sink.old) (K.written sink.new) result bytes.now }
    ensures cause { RoseOnlyAt (K.faults sink.old) (K.faults sink.new) DumpFault.WriteFault result }
    ensures fault { result ≡ Err DumpFault.ChipFault → ⊥ }
{
    match write_whole(sink, bytes) {
        Ok(()) => Ok(()),
        Err(_) => Err(DumpFault::WriteFault),
    }
}
