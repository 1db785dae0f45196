//! Reading an image.
ghost use Rattle.std.specs.Prelude.{◌≡◌, ◌*◌, ◌<◌, ◌≤◌, ◌+◌, ◌++◌, [], List, length, take};
ghost use Rattle.flash_pages.specs.Chip.{IsWithinLimits, Page, Written};
ghost use Rattle.flash_pages.specs.declared.chip.Geometry.{Geometry};
ghost use Rattle.byteorder.specs.Endian.{big_bytes};
ghost use Rattle.chip_image.specs.declared.version.Version.{Version};
ghost use Rattle.chip_image.specs.Image.{shape_bytes, spare_bytes};
ghost use Rattle.chip_image.specs.Load.{AreLaid, IsOfVersion, Loads, page_room};
ghost use Rattle.chip_image.specs.Steps.{IsPut, LaysPage, PutsPage, ReadsShape, ReadsVersion};
ghost use Rattle.chip_image.specs.Transfer.{RoseOnlyAt};

use crate::fault::ImageFault;
use crate::transfer::read_whole;
use crate::version::{Version, shape_bytes};
use byteorder::{BigEndian, ByteOrder};
use flash_pages::{BLOCK_BYTES, Flash, Geometry, PageView, Spare};
use hpb_outside::Source;

/// The bytes of a written page behind its first one, at most.
const PAGE_ROOM: usize = 13 + BLOCK_BYTES;

/// Reads one image of either version, and programs its written pages in order. It takes exactly the bytes of the image
/// where it succeeds; after a fault the pages before that place are programmed. It takes no memory.
///
/// A fault is told as soon as the bytes that show it have come: `Magic` and `Shape` after eight bytes each, `PageKind`
/// after the first byte of a page, `Taken` after its last. `Cut` comes exactly where the source ends within the image.
pub fn load_image<S: Source, F: Flash>(source: &mut S, flash: &mut F) -> Result<(), ImageFault>
    requires limits { IsWithinLimits (F.geometry flash.old) }
    ensures loads { Loads (F.geometry flash.old) (F.pages flash.old) (F.pages flash.new) (S.left source.old)
        (S.left source.new) result }
    ensures geometry { F.geometry flash.new ≡ F.geometry flash.old }
    ensures source_faults { RoseOnlyAt (S.faults source.old) (S.faults source.new) ImageFault.ReadFault result }
    ensures chip_faults { RoseOnlyAt (F.faults flash.old) (F.faults flash.new) ImageFault.ChipFault result }
{
    let geometry = flash.geometry();
    let version = read_version(source)?;
    read_shape(source, geometry)?;
    let mut room = [0; PAGE_ROOM];
    for page in 0..geometry.blocks * geometry.pages {
        load_page(source, flash, version, page, &mut room)?;
    }
    Ok(())
}

/// Reads the magic word.
fn read_version<S: Source>(source: &mut S) -> Result<Version, ImageFault>
    ensures reads { ReadsVersion (S.left source.old) (S.left source.new) result }
    ensures cause { RoseOnlyAt (S.faults source.old) (S.faults source.new) ImageFault.ReadFault result }
{
    let mut word = [0; 8];
    read_whole(source, &mut word)?;
    if word == Version::One.magic() {
        return Ok(Version::One);
    }
    if word == Version::Two.magic() {
        return Ok(Version::Two);
    }
    Err(ImageFault::Magic)
}

/// Reads the two numbers, which have to be those of the chip.
fn read_shape<S: Source>(source: &mut S, geometry: Geometry) -> Result<(), ImageFault>
    ensures reads { (version : Version) → ReadsShape geometry version (S.left source.old) (S.left source.new) result }
    ensures cause { RoseOnlyAt (S.faults source.old) (S.faults source.new) ImageFault.ReadFault result }
{
    let mut numbers = [0; 8];
    read_whole(source, &mut numbers)?;
    if numbers == shape_bytes(geometry) {
        Ok(())
    } else {
        Err(ImageFault::Shape)
    }
}

/// Reads a page by the room, and programs it where it is written.
fn load_page<S: Source, F: Flash>(
    source: &mut S,
    flash: &mut F,
    version: Version,
    page: u32,
    room: &mut [u8; PAGE_ROOM],
) -> Result<(), ImageFault>
    requires page { page < length (F.pages flash.old) }
    ensures lays { (geometry : Geometry) (old pages : List Page) → length pages ≡ page
        → AreLaid old pages (F.pages flash.old)
        → LaysPage geometry version old pages (F.pages flash.new) (S.left source.old) (S.left source.new) result }
    ensures geometry { F.geometry flash.new ≡ F.geometry flash.old }
    ensures source_faults { RoseOnlyAt (S.faults source.old) (S.faults source.new) ImageFault.ReadFault result }
    ensures chip_faults { RoseOnlyAt (F.faults flash.old) (F.faults flash.new) ImageFault.ChipFault result }
{
    let mut kind = [0];
    read_whole(source, &mut kind)?;
    match kind[0] {
        0x00 => Ok(()),
        0x01 => load_written(source, flash, version, page, room),
        _ => Err(ImageFault::PageKind),
    }
}

/// Reads the rest of a written page into the room, and programs it.
fn load_written<S: Source, F: Flash>(
    source: &mut S,
    flash: &mut F,
    version: Version,
    page: u32,
    room: &mut [u8; PAGE_ROOM],
) -> Result<(), ImageFault>
    requires page { page < length (F.pages flash.old) }
    ensures lays { PutsPage version page (F.pages flash.old) (F.pages flash.new) (S.left source.old) (S.left source.new)
        result }
    ensures geometry { F.geometry flash.new ≡ F.geometry flash.old }
    ensures source_faults { RoseOnlyAt (S.faults source.old) (S.faults source.new) ImageFault.ReadFault result }
    ensures chip_faults { RoseOnlyAt (F.faults flash.old) (F.faults flash.new) ImageFault.ChipFault result }
{
    let count = version.spare_bytes();
    let bytes = &mut room[..count + BLOCK_BYTES];
    read_whole(source, bytes)?;
    let (spare, block) = bytes.split_at(count);
    put_page(flash, page, block, spare_of(version, spare))
}

/// Programs a page that is erased.
fn put_page<F: Flash>(
    flash: &mut F,
    page: u32,
    block: &[u8],
    spare: Spare,
) -> Result<(), ImageFault>
    requires page { page < length (F.pages flash.old) }
    requires block { length block.now ≡ 4096 }
    ensures puts { IsPut page block.now spare (F.pages flash.old) (F.pages flash.new) result }
    ensures geometry { F.geometry flash.new ≡ F.geometry flash.old }
    ensures chip_faults { RoseOnlyAt (F.faults flash.old) (F.faults flash.new) ImageFault.ChipFault result }
{
    if flash.read(page).is_err() {
        return Err(ImageFault::ChipFault);
    }
    if !matches!(flash.shown(), PageView::Erased) {
        return Err(ImageFault::Taken);
    }
    match flash.program(page, block, spare) {
        Ok(()) => Ok(()),
        Err(_) => Err(ImageFault::ChipFault),
    }
}

/// The spare area that these bytes are.
fn spare_of(version: Version, bytes: &[u8]) -> Spare
    requires len { length bytes.now + 4096 ≡ page_room version }
    ensures bytes { spare_bytes version result ≡ bytes.now }
    ensures lun { IsOfVersion version (Written [] result) }
{
    match version {
        Version::One => {
            let (lba, seq) = place_of(bytes);
            Spare { lun: 0, lba, seq }
        }
        Version::Two => {
            let (lba, seq) = place_of(&bytes[1..]);
            Spare {
                lun: bytes[0],
                lba,
                seq,
            }
        }
    }
}

/// The block and the sequence number that these bytes are.
fn place_of(bytes: &[u8]) -> (u32, u64)
    requires len { length bytes.now ≡ 12 }
    ensures { big_bytes 4 result.0 ++ big_bytes 8 result.1 ≡ bytes.now }
{
    let (lba, seq) = bytes.split_at(4);
    (BigEndian::read_u32(lba), BigEndian::read_u64(seq))
}
