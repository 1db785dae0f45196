//! Images that are written and loaded.
use super::*;
use flash_pages::{BLOCK_BYTES, Flash, Geometry, MemFlash};
use hpb_outside::{MemSink, MemSource};
use std::alloc::Global;
use std::test::*;

/// A chip of eight pages.
const SHAPE: Geometry = Geometry {
    blocks: 4,
    pages: 2,
};

/// The pages of an image: which byte a page has in its block, its LBA and its sequence number, where it isn't erased.
const PAGES: [Option<u8>; 8] = [Some(7), None, Some(9), None, None, None, None, Some(1)];

/// An erased chip, of which the call with this number fails.
fn chip_of(alloc: Global, call: u64) -> Result<MemFlash, Fail> {
    if !SHAPE.is_within_limits() {
        return Err(Fail::new("no chip"));
    }
    Ok(MemFlash::new(alloc, SHAPE, vec![in alloc; call]?)?)
}

/// The bytes of an image with these pages.
fn image_of(alloc: Global, magic: &str, blocks: u8) -> Result<Vec<u8>, Fail> {
    let mut bytes = magic.as_bytes().to_vec(alloc)?;
    bytes.extend_from_slice(&[0, 0, 0, blocks, 0, 0, 0, 2])?;
    for page in PAGES {
        let Some(byte) = page else {
            bytes.push(0x00)?;
            continue;
        };
        bytes.push(0x01)?;
        if magic == "UFSHPBI2" {
            bytes.push(0)?;
        }
        bytes.extend_from_slice(&[0, 0, 0, byte, 0, 0, 0, 0, 0, 0, 0, byte])?;
        bytes.extend_from_slice(&[byte; BLOCK_BYTES])?;
    }
    Ok(bytes)
}

/// Loads bytes into a chip, from a source whose read with this number fails.
fn load(
    alloc: Global,
    bytes: &[u8],
    read: u64,
    flash: &mut MemFlash,
) -> Result<Result<(), ImageFault>, Fail> {
    let mut source = MemSource::new(bytes.to_vec(alloc)?, Vec::new(alloc), vec![in alloc; read]?);
    if !flash.geometry().is_within_limits() {
        return Err(Fail::new("no chip"));
    }
    Ok(load_image(&mut source, flash))
}

/// Writes the image of a chip to a sink of so many bytes.
fn dump(
    alloc: Global,
    room: usize,
    flash: &mut MemFlash,
) -> Result<(Result<(), DumpFault>, MemSink), Fail> {
    let mut sink = MemSink::new(alloc, room, Vec::new(alloc))?;
    if !flash.geometry().is_within_limits() {
        return Err(Fail::new("no chip"));
    }
    let written = dump_image(flash, &mut sink);
    Ok((written, sink))
}

#[test]
fn images_are_read_back(rt: HostRuntime) -> Result<(), Fail> {
    one_chip();
    let wanted = image_of(rt.alloc(), "UFSHPBI2", 4)?;
    for magic in ["UFSHPBI1", "UFSHPBI2"] {
        let mut flash = chip_of(rt.alloc(), 0)?;
        let bytes = image_of(rt.alloc(), magic, 4)?;
        assert_eq!(rt; load(rt.alloc(), &bytes, 0, &mut flash)?, Ok(()), "{magic}");
        let (written, sink) = dump(rt.alloc(), 40_000, &mut flash)?;
        assert_eq!(rt; written, Ok(()), "{magic}");
        assert!(rt; sink.bytes() == wanted.as_slice(), "{magic}");
        // Each written page is taken now.
        assert_eq!(rt;
            load(rt.alloc(), &bytes, 0, &mut flash)?,
            Err(ImageFault::Taken),
            "{magic}"
        );
        let (written, sink) = dump(rt.alloc(), 100, &mut flash)?;
        assert_eq!(rt; written, Err(DumpFault::WriteFault), "{magic}");
        assert!(rt; sink.bytes() == wanted.get(..100).unwrap_or(&[]), "{magic}");
    }
    let mut flash = chip_of(rt.alloc(), 3)?;
    let (written, sink) = dump(rt.alloc(), 40_000, &mut flash)?;
    assert_eq!(rt; written, Err(DumpFault::ChipFault));
    assert_eq!(rt;
        sink.bytes(),
        b"UFSHPBI2\x00\x00\x00\x04\x00\x00\x00\x02\x00\x00".as_slice()
    );
    Ok(())
}

#[test]
fn images_are_refused(rt: HostRuntime) -> Result<(), Fail> {
    let image = image_of(rt.alloc(), "UFSHPBI2", 4)?;
    // A byte of the image that is another, a read or a call of the chip that fails, and why the image is refused.
    for (place, byte, read, call, fault) in [
        (7, b'3', 0, 0, ImageFault::Magic),
        (11, 5, 0, 0, ImageFault::Shape),
        (15, 3, 0, 0, ImageFault::Shape),
        (16, 2, 0, 0, ImageFault::PageKind),
        (0, b'U', 1, 0, ImageFault::ReadFault),
        (0, b'U', 4, 0, ImageFault::ReadFault),
        (0, b'U', 0, 1, ImageFault::ChipFault),
        (0, b'U', 0, 2, ImageFault::ChipFault),
        (0, b'U', 0, 4, ImageFault::ChipFault),
    ] {
        let mut flash = chip_of(rt.alloc(), call)?;
        let mut bytes = image.to_vec(rt.alloc())?;
        if let Some(there) = bytes.get_mut(place) {
            *there = byte;
        }
        assert_eq!(rt;
            load(rt.alloc(), &bytes, read, &mut flash)?,
            Err(fault),
            "{place} {read} {call}"
        );
    }
    for cut in [
        0,
        1,
        7,
        8,
        15,
        16,
        17,
        18,
        30,
        4125,
        4126,
        4127,
        8237,
        8238,
        8242,
        image.len().saturating_sub(1),
    ] {
        let mut flash = chip_of(rt.alloc(), 0)?;
        let front = image.get(..cut).unwrap_or(&[]);
        assert_eq!(rt;
            load(rt.alloc(), front, 0, &mut flash)?,
            Err(ImageFault::Cut),
            "{cut}"
        );
        // The first page is programmed where it had come whole.
        let (_, sink) = dump(rt.alloc(), 40_000, &mut flash)?;
        let kind = sink.bytes().get(16).copied();
        assert_eq!(rt; kind, Some(u8::from(cut >= 4126)), "{cut}");
    }
    Ok(())
}
