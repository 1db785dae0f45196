//! Runs over chips that are made by hand: chips that no device leaves behind, and sound ones at the edge.
use super::*;
use crate::tests::{ASKED, GIVEN, Outside, Put, READ_BACK, Script, pages_of, run_words};
use flash_pages::Geometry;
use std::alloc::Global;
use std::process::Abort;
use std::test::Fail;

/// A chip of four erase blocks of two pages, and the words that name it.
pub const SMALL: Geometry = Geometry {
    blocks: 4,
    pages: 2,
};

const SMALL_WORDS: &str = "replay --blocks 4 --pages 2";

/// TEST UNIT READY, and its answer where the chip is none that a device leaves behind.
const UNREADY: [(&str, &str); 2] = [
    ("U 01000001 z z z z z z z", ""),
    (
        "D",
        "< 21000001 00000102 00000014 z z z z z 00127000 04000000 000a0000 00004400 z",
    ),
];

/// The data of a write for which there is no sequence number.
const NO_NUMBER: [(&str, &str); 2] = [
    ("U 02000002 z 00001000 z 00001000 z z z 22s", ""),
    (
        "D",
        "< 21000002 00000102 00000014 z z z z z 00127000 07000000 000a0000 00002700 z",
    ),
];

/// A row over the small chip: its name, the pages that are written, its tables, and what is counted.
pub type Row = (
    &'static str,
    &'static [Put],
    &'static [&'static [(&'static str, &'static str)]],
    &'static str,
);

pub const ROWS: [Row; 2] = [
    (
        "a number twice",
        &[(0, 0, 0, 5), (1, 0, 0, 5)],
        &[&UNREADY],
        "T=9,0,0,0,0",
    ),
    (
        "the last number but one",
        &[(0, 0, 0, 0x3FFF_FFFF_FFFF_FFFE)],
        &[&ASKED, &GIVEN, &ASKED, &NO_NUMBER, &READ_BACK],
        "T=15,1,0,0,0",
    ),
];

/// A script of tables.
pub fn script_of(
    alloc: Global,
    tables: &[&[(&'static str, &'static str)]],
    counts: &str,
) -> Result<Script, Fail> {
    let mut script = Script::new(alloc);
    for lines in tables.iter().copied() {
        script.add(lines)?;
    }
    script.end(counts)?;
    Ok(script)
}

#[test]
fn rows_over_other_chips_are_printed_byte_for_byte(rt: HostRuntime) -> Result<(), Fail> {
    for (name, pages, tables, counts) in ROWS {
        let script = script_of(rt.alloc(), tables, counts)?;
        let mut outside = Outside::over(rt.alloc(), pages)?;
        outside.chip = SMALL;
        let ran = run_words(rt.alloc(), SMALL_WORDS, &script.trace, outside)?;
        assert!(rt; ran.is_end(Status::Done, &script.printed), "{name}");
    }
    Ok(())
}

/// Chips of eight erase blocks of four pages, under a unit of 20 blocks, that no device leaves behind.
const FOREIGN: [(&str, &[Put]); 8] = [
    ("a block past the unit", &[(0, 0, 20, 0)]),
    ("another unit", &[(0, 1, 0, 0)]),
    (
        "a number that is too large",
        &[(0, 0, 0, 0x4000_0000_0000_0000)],
    ),
    ("a number twice", &[(0, 0, 0, 5), (1, 0, 0, 5)]),
    (
        "a number twice in two erase blocks",
        &[
            (0, 0, 3, 5),
            (1, 0, 0, 1),
            (2, 0, 1, 2),
            (3, 0, 2, 3),
            (4, 0, 3, 5),
        ],
    ),
    ("a page behind an erased one", &[(0, 0, 0, 0), (2, 0, 1, 1)]),
    (
        "an erase block whose first page is erased",
        &[(29, 0, 0, 0)],
    ),
    (
        "two erase blocks partly written",
        &[(0, 0, 0, 0), (4, 0, 1, 1)],
    ),
];

/// What a host sends to such a chip: commands of each kind, while the chip is scanned and after it, the collector, and
/// a reset. Each task ends alike.
const SENT: [(&str, &str); 13] = [
    ("C 3", ""),
    ("U 01000001 z z z z z z z", ""),
    ("S 32", ""),
    (
        "S 1",
        "< 21000001 00000102 00000014 z z z z z 00127000 04000000 000a0000 00004400 z",
    ),
    ("U 01400002 z z 00001000 28000000 z 01000000 z", ""),
    ("U 01200003 z z 00001000 2a000000 z 01000000 z", ""),
    ("U 01400004 z z 00000010 f9010000 z 10000000 z", ""),
    ("U 01400005 z z 00001000 f8000000 z z 00000100", ""),
    (
        "D",
        "< 21200002 00000102 00000014 00001000 z z z z 00127000 04000000 000a0000 00004400 z / \
         < 21200003 00000102 00000014 00001000 z z z z 00127000 04000000 000a0000 00004400 z / \
         < 21200004 00000102 00000014 00000010 z z z z 00127000 04000000 000a0000 00004400 z / \
         < 21200005 00000102 00000014 00001000 z z z z 00127000 04000000 000a0000 00004400 z",
    ),
    ("C 999999", ""),
    ("R", "R"),
    ("U 01000001 z z z z z z z", ""),
    (
        "D",
        "< 21000001 00000102 00000014 z z z z z 00127000 04000000 000a0000 00004400 z",
    ),
];

/// The pages of a chip of which two are erased, and each full erase block has two current pages. Where the last page
/// but one has LBA 0, one erase block has one.
fn crowded(alloc: Global, lba: u32) -> Result<Vec<Put>, Fail> {
    let mut pages = Vec::new(alloc);
    for page in 0..30u32 {
        let own = page / 4 * 2 + page % 2;
        let named = if page == 28 { lba } else { own };
        pages.push((page, 0, named, u64::from(page)))?;
    }
    Ok(pages)
}

/// Whether all is answered as over a chip that no device leaves behind, and the chip comes back as it was.
fn is_left_alone(alloc: Global, pages: &[Put]) -> Result<bool, Fail> {
    let script = script_of(alloc, &[&SENT], "T=70,0,0,0,0")?;
    let outside = Outside::over(alloc, pages)?;
    let words = "replay --blocks 8 --pages 4";
    let mut ran = run_words(alloc, words, &script.trace, outside)?;
    let mut untouched = run_words(alloc, words, &[], Outside::over(alloc, pages)?)?;
    let before = pages_of(alloc, &mut untouched.chip, 32)?;
    Ok(ran.is_end(Status::Done, &script.printed) && pages_of(alloc, &mut ran.chip, 32)? == before)
}

#[test]
fn chips_that_no_device_leaves_behind_are_left_alone(rt: HostRuntime) -> Result<(), Fail> {
    for (name, pages) in FOREIGN {
        assert!(rt; is_left_alone(rt.alloc(), pages)?, "{name}");
    }
    let too_few_erased = crowded(rt.alloc(), 14)?;
    assert!(rt; is_left_alone(rt.alloc(), &too_few_erased)?);
    Ok(())
}

/// Over the same chip with one current page less a write goes on: its collector moves the one block of that erase
/// block.
const MOVED: [(&str, &str); 4] = [
    ("U 01200002 z z 00001000 2a000000 00130000 01000000 z", ""),
    ("D", "< 31000002 z z z 00001000 z z z"),
    ("U 02000002 z 00001000 z 00001000 z z z block", ""),
    ("D", "M 1 / < 21000002 z z z z z z z"),
];

#[test]
fn a_chip_with_just_enough_room_is_served(rt: HostRuntime) -> Result<(), Fail> {
    let script = script_of(rt.alloc(), &[&MOVED], "T=38,0,0,1,1")?;
    let outside = Outside::over(rt.alloc(), &crowded(rt.alloc(), 0)?)?;
    let words = "replay --blocks 8 --pages 4";
    let ran = run_words(rt.alloc(), words, &script.trace, outside)?;
    assert!(rt; ran.is_end(Status::Done, &script.printed));
    Ok(())
}
