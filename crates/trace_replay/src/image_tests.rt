//! Images before the lines of a run, and behind those of `snap`.
use super::*;
use crate::chip_tests::{ROWS, SMALL, script_of};
use crate::tests::{ASKED, GIVEN, Outside, Put, READ_BACK, run_words};
use flash_pages::{BLOCK_BYTES, Geometry};
use std::alloc::Global;
use std::process::Abort;
use std::test::Fail;

/// A chip of eight erase blocks of four pages.
const CHIP: Geometry = Geometry {
    blocks: 8,
    pages: 4,
};

/// The words that name the chip, behind each command that takes an image.
const COMMANDS: [(&str, &str); 3] = [
    ("replay", "replay --blocks 8 --pages 4 --image"),
    ("snap", "snap --blocks 8 --pages 4 --image"),
    ("drive", "drive --blocks 8 --pages 4 --image"),
];

/// What is written of a page.
fn put_on(pages: &[Put], page: u32) -> Option<Put> {
    for put in pages {
        if put.0 == page {
            return Some(*put);
        }
    }
    None
}

/// The image of a chip on which these pages are written, each with a block of this byte.
fn image_of(alloc: Global, chip: Geometry, pages: &[Put], byte: u8) -> Result<Vec<u8>, Fail> {
    let mut image = b"UFSHPBI2".to_vec(alloc)?;
    image.extend_from_slice(&chip.blocks.to_be_bytes())?;
    image.extend_from_slice(&chip.pages.to_be_bytes())?;
    for page in 0..chip.blocks.saturating_mul(chip.pages) {
        let Some((_, lun, lba, seq)) = put_on(pages, page) else {
            image.push(0x00)?;
            continue;
        };
        image.extend_from_slice(&[0x01, lun])?;
        image.extend_from_slice(&lba.to_be_bytes())?;
        image.extend_from_slice(&seq.to_be_bytes())?;
        image.extend_from_slice(&[byte; BLOCK_BYTES])?;
    }
    Ok(image)
}

/// An image and the text behind it.
fn joined(mut image: Vec<u8>, text: &[u8]) -> Result<Vec<u8>, Fail> {
    image.extend_from_slice(text)?;
    Ok(image)
}

#[test]
fn a_chip_that_an_image_leaves_is_served_as_any(rt: HostRuntime) -> Result<(), Fail> {
    for (name, pages, tables, counts) in ROWS {
        let script = script_of(rt.alloc(), tables, counts)?;
        let image = image_of(rt.alloc(), SMALL, pages, 0x11)?;
        let mut outside = Outside::faultless(rt.alloc());
        outside.chip = SMALL;
        let ran = run_words(
            rt.alloc(),
            "replay --image --blocks 4 --pages 2",
            &joined(image, &script.trace)?,
            outside,
        )?;
        assert!(rt; ran.is_end(Status::Done, &script.printed), "{name}");
    }
    Ok(())
}

#[test]
fn a_snap_is_a_replay_and_then_the_image(rt: HostRuntime) -> Result<(), Fail> {
    let written = script_of(rt.alloc(), &[&ASKED, &GIVEN], "T=35,0,0,0,0")?;
    let image = image_of(rt.alloc(), CHIP, &[(0, 0, 0, 0)], 0xA5)?;
    let mut printed = written.printed.clone()?;
    printed.extend_from_slice(&image)?;
    let ran = run_words(
        rt.alloc(),
        "snap --blocks 8 --pages 4",
        &written.trace,
        Outside::faultless(rt.alloc()),
    )?;
    assert!(rt; ran.is_end(Status::Done, &printed), "the snap");
    let read = script_of(rt.alloc(), &[&READ_BACK], "T=34,1,0,0,0")?;
    let ran = run_words(
        rt.alloc(),
        "replay --image --blocks 8 --pages 4",
        &joined(image, &read.trace)?,
        Outside::faultless(rt.alloc()),
    )?;
    assert!(rt;
        ran.is_end(Status::Done, &read.printed),
        "the replay from its image"
    );
    Ok(())
}

/// The front of an image that isn't taken: how many of its bytes come, the place and the byte that stands there
/// instead, and the number of the fault.
const REFUSED: [(usize, usize, u8, u8); 6] = [
    (8, 7, b'3', 1),
    (16, 11, 9, 2),
    (17, 16, 2, 3),
    (7, 0, b'X', 4),
    (15, 0, b'U', 4),
    (4126, 16, 1, 4),
];

#[test]
fn an_image_that_is_not_taken_is_told(rt: HostRuntime) -> Result<(), Fail> {
    for (len, place, byte, number) in REFUSED {
        let mut image = image_of(rt.alloc(), CHIP, &[(0, 0, 0, 0)], 0xA5)?;
        image.truncate(len);
        if let Some(at) = image.get_mut(place) {
            *at = byte;
        }
        let text = [
            b'E',
            b' ',
            b'i',
            b'm',
            b'a',
            b'g',
            b'e',
            b' ',
            b'0' | number,
            b'\n',
        ];
        for (name, words) in COMMANDS {
            let ran = run_words(rt.alloc(), words, &image, Outside::faultless(rt.alloc()))?;
            assert!(rt;
                ran.is_end(Status::BadImage(number), &text),
                "{name}: {len} bytes"
            );
        }
    }
    Ok(())
}

#[test]
fn a_chip_that_fails_under_an_image_is_told(rt: HostRuntime) -> Result<(), Fail> {
    let image = image_of(rt.alloc(), CHIP, &[(0, 0, 0, 0)], 0xA5)?;
    // The first two calls load the page. The third one writes it, where there is no line.
    for (call, name, words, printed) in [
        (
            1,
            "replay, read",
            "replay --image --blocks 8 --pages 4",
            "E chip\n",
        ),
        (
            2,
            "drive, program",
            "drive --image --blocks 8 --pages 4",
            "E chip\n",
        ),
        (2, "snap, program", "snap --image --blocks 8 --pages 4", ""),
        (
            3,
            "snap, written",
            "snap --blocks 8 --pages 4 --image",
            "T steps=0 lookups=0 entries=0 moved=0 erased=0\nUFSHPBI2\0\0\0\u{8}\0\0\0\u{4}",
        ),
    ] {
        let mut outside = Outside::faultless(rt.alloc());
        outside.calls.push(call)?;
        let ran = run_words(rt.alloc(), words, &image, outside)?;
        assert!(rt; ran.is_end(Status::ChipFault, printed.as_bytes()), "{name}");
    }
    Ok(())
}
