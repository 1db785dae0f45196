//! Calls of a device over a chip in memory: what is answered to each UPIU, and what each step sends.
use super::*;
use bench::{Bench, read_by_entry, transfer};
use flash_pages::{BLOCK_BYTES, ChipOp, Flash, Geometry, MemFlash, PageView, Spare};
use lines::{block, drain, run};
use region_state::{Mode, Shape};
use scripts::*;
use setups::Setup;
use std::alloc::Global;
use std::process::Abort;
use std::test::Fail;
use upiu_wire::UpiuBuf;

mod bench;
mod lines;
mod runs;
mod scripts;
mod setups;

/// A device of one unit of 20 blocks, whose regions and subregions are large, over an erased chip of 32 pages that was
/// scanned. Its host decides what it holds.
const SCANNED: Setup = Setup {
    geometry: Geometry {
        blocks: 8,
        pages: 4,
    },
    written: 0,
    apart: 0,
    seq: 0,
    fail_at: [0; 3],
    shape: LARGE,
    luns: 1,
    is_scanned: true,
};

const LARGE: Shape = Shape {
    units: 20,
    region_exp: 13,
    sub_exp: 13,
    held: 4,
    mode: Mode::Host,
};

/// The same before the scan.
const UNSCANNED: Setup = Setup {
    is_scanned: false,
    ..SCANNED
};

/// The same over a foreign chip: two of its pages have the same block with the same sequence number.
const FOREIGN: Setup = Setup {
    written: 2,
    seq: 5,
    ..SCANNED
};

/// The same over a chip whose first 20 pages have a block each, before the scan.
const NUMBERED: Setup = Setup {
    written: 20,
    apart: 1,
    ..UNSCANNED
};

/// A device of a unit of two blocks over a chip of eight pages, of which the first is written, before the scan.
const SMALL: Setup = Setup {
    geometry: Geometry {
        blocks: 4,
        pages: 2,
    },
    written: 1,
    shape: Shape { units: 2, ..LARGE },
    ..UNSCANNED
};

/// Devices, and the calls of each with what they tell and send.
const CASES: [(Setup, &str, &str); 15] = [
    (UNSCANNED, REFUSALS, "# 0 0 0 0 0"),
    (SCANNED, REFUSALS, "# 32 0 0 0 0"),
    (FOREIGN, REFUSALS, "# 32 0 0 0 0"),
    (
        Setup {
            // the first call after the scan
            fail_at: [37, 0, 0],
            ..FOREIGN
        },
        UNSERVED,
        "",
    ),
    (
        Setup {
            fail_at: [37, 0, 0],
            ..SCANNED
        },
        FIFTH_CALL,
        "",
    ),
    (SCANNED, WRITTEN, MOVED),
    (
        Setup {
            shape: Shape {
                region_exp: 6,
                sub_exp: 4,
                held: 1,
                mode: Mode::Device,
                ..LARGE
            },
            ..SCANNED
        },
        HINTED,
        "",
    ),
    (
        Setup {
            shape: Shape { units: 10, ..LARGE },
            luns: 2,
            ..SCANNED
        },
        TWO_UNITS,
        "",
    ),
    (
        Setup {
            shape: Shape {
                units: 19,
                region_exp: 6,
                sub_exp: 4,
                ..LARGE
            },
            ..UNSCANNED
        },
        LISTED,
        "",
    ),
    (
        Setup {
            geometry: Geometry {
                blocks: 16,
                pages: 64,
            },
            shape: Shape {
                units: 600,
                ..LARGE
            },
            ..SCANNED
        },
        LISTED_IN_PIECES,
        "",
    ),
    (UNSCANNED, RESET_IN_THE_SCAN, ""),
    (
        Setup {
            fail_at: [1, 2, 4],
            ..UNSCANNED
        },
        UNREAD,
        "",
    ),
    (
        Setup {
            written: 2,
            seq: 5,
            ..SMALL
        },
        FIRST_ON_A_FOREIGN,
        "",
    ),
    (
        Setup {
            seq: 0x3FFF_FFFF_FFFF_FFFE,
            ..SMALL
        },
        LAST_NUMBER,
        "",
    ),
    (
        Setup {
            seq: 0x3FFF_FFFF_FFFF_FFFF,
            ..SMALL
        },
        NO_NUMBER_LEFT,
        "",
    ),
];

/// Makes a device, and the calls of these lines and then of those.
fn check(
    rt: &impl Abort,
    alloc: Global,
    setup: &Setup,
    lines: &str,
    more: &str,
) -> Result<(), Fail> {
    run(rt, alloc, &mut setup.bench(alloc)?, lines, more)
}

/// Makes the calls of each paragraph, over a device of its own.
fn check_each(rt: &impl Abort, alloc: Global, paragraphs: &str) -> Result<(), Fail> {
    for lines in paragraphs.split("\n\n") {
        check(rt, alloc, &SCANNED, lines, "")?;
    }
    Ok(())
}

/// Makes the calls of each case.
fn check_cases(rt: &impl Abort, alloc: Global) -> Result<(), Fail> {
    for (setup, lines, more) in &CASES {
        check(rt, alloc, setup, lines, more)?;
    }
    Ok(())
}

/// Makes calls where each of these calls of the chip fails in turn, and then those of the next paragraph, or of all of
/// them where none is left.
fn check_failures(
    rt: &impl Abort,
    alloc: Global,
    setup: &Setup,
    (first, end): (u64, u64),
    lines: &str,
    paragraphs: &str,
) -> Result<(), Fail> {
    let mut rest = paragraphs.split("\n\n");
    for fail_at in first..end {
        let more = rest.next().unwrap_or(paragraphs);
        let setup = setup.failing(fail_at);
        check(rt, alloc, &setup, lines, more)?;
    }
    Ok(())
}

#[test]
fn each_line_is_answered(rt: HostRuntime) -> Result<(), Fail> {
    check_each(&rt, rt.alloc(), SCRIPTS)
}

#[test]
fn each_line_of_another_device_is_answered(rt: HostRuntime) -> Result<(), Fail> {
    check_cases(&rt, rt.alloc())
}

#[test]
fn a_page_that_could_not_be_scanned_is_read_next(rt: HostRuntime) -> Result<(), Fail> {
    // 40 calls write the pages
    check_failures(&rt, rt.alloc(), &NUMBERED, (41, 61), UNREAD_PAGE, PAGES)
}

#[test]
fn a_call_that_fails_for_a_write_ends_it(rt: HostRuntime) -> Result<(), Fail> {
    // the scan and the writes before make 60 calls
    check_failures(
        &rt,
        rt.alloc(),
        &SCANNED,
        (61, 65),
        WRITTEN,
        FAILED_FOR_A_WRITE,
    )
}

#[test]
fn a_call_that_fails_for_the_collector_ends_no_task(rt: HostRuntime) -> Result<(), Fail> {
    // the scan and five writes make 37 calls
    check_failures(
        &rt,
        rt.alloc(),
        &SCANNED,
        (38, 45),
        FOUR_BLOCKS,
        FAILED_FOR_THE_COLLECTOR,
    )
}
