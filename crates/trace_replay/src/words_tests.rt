//! The words of the command line: what `run` says of those in form, of the others, and of numbers outside their limits.
use super::*;
use crate::tests::{Outside, Ran, run_words, text_of};
use std::alloc::Global;
use std::process::Abort;
use std::test::Fail;

/// Runs words over a text, where nothing fails.
fn run_over(alloc: Global, words: &str, text: &str) -> Result<Ran, Fail> {
    run_words(
        alloc,
        words,
        &text_of(alloc, text)?,
        Outside::faultless(alloc),
    )
}

/// Words in form.
const SERVED: [&str; 11] = [
    "replay --blocks 8 --pages 4",
    "replay --blocks=8 --pages=4 --",
    "replay --blocks 8 --pages 4 --units 20",
    "replay --blocks 8 --pages 4 --region 19",
    "replay --blocks 8 --pages 4 --held 32",
    "replay --mode host --held 1 --sub 3 --region 3 --units 1 --pages 4 --blocks 8",
    "drive --blocks 8 --pages 4",
    "drive --plain --blocks 8 --pages 4",
    "drive --blocks 8 --answers --pages 4",
    "drive --mode host --held 1 --answers --sub 3 --region 3 --plain --units 1 --pages 4 --blocks 8",
    "show",
];

/// Words that aren't in form.
const OTHERS: [&str; 10] = [
    "",
    "replays",
    "show --mode host",
    "replay 8",
    "replay --blocks= --pages=4",
    "replay --size 8",
    "replay --held 4 --held 5",
    "replay --mode Host",
    "replay --blocks 8 --pages 4 --plain",
    "drive --blocks 8 --answers --pages 4 --answers",
];

/// Words with a number outside its limits, or of another chip than the one of 8 erase blocks of 4 pages.
const OUTSIDE: [&str; 24] = [
    // Another chip.
    "replay",
    "replay --blocks 8",
    "replay --pages 4",
    "replay --blocks 8 --pages 5",
    "replay --blocks 3 --pages 4",
    "replay --blocks 0 --pages 0",
    "replay --blocks 999999999 --pages 999999999",
    // Another unit than the chip can hold.
    "replay --blocks 8 --pages 4 --units 0",
    "replay --blocks 8 --pages 4 --units 21",
    "replay --blocks 8 --pages 4 --units 999999999",
    // Regions.
    "replay --blocks 8 --pages 4 --region 20",
    "replay --blocks 8 --pages 4 --region 7",
    "replay --blocks 8 --pages 4 --sub 11",
    "replay --blocks 8 --pages 4 --sub 2",
    "replay --blocks 8 --pages 4 --sub 9 --region 8",
    "replay --blocks 8 --pages 4 --held 0",
    "replay --blocks 8 --pages 4 --held 33",
    // A multiple of 256 more than a number within its limits.
    "replay --blocks 8 --pages 4 --region 266",
    "replay --blocks 8 --pages 4 --sub 264",
    "replay --blocks 8 --pages 4 --held 260",
    "replay --blocks 8 --pages 4 --held 999999999",
    // The same of a drive.
    "drive --answers",
    "drive --blocks 8 --pages 4 --units 21 --plain",
    "drive --blocks 8 --pages 4 --region 7",
];

#[test]
fn words_are_served_or_refused(rt: HostRuntime) -> Result<(), Fail> {
    let counts = text_of(rt.alloc(), "T=0,0,0,0,0 /")?;
    for words in SERVED {
        let ran = run_over(rt.alloc(), words, "")?;
        let shown = ran.is_end(Status::Done, b"");
        assert!(rt; shown || ran.is_end(Status::Done, &counts), "{words}");
    }
    for words in OTHERS {
        assert!(rt;
            run_over(rt.alloc(), words, "D")?.is_end(Status::Usage, b"E usage\n"),
            "{words}"
        );
    }
    for words in OUTSIDE {
        assert!(rt;
            run_over(rt.alloc(), words, "D")?.is_end(Status::Geometry, b"E geometry\n"),
            "{words}"
        );
    }
    Ok(())
}

#[test]
fn the_unit_has_the_named_blocks(rt: HostRuntime) -> Result<(), Fail> {
    // Block 19 is read, or it is past the unit's last one and the read is answered at once. The last line has the
    // counts.
    let read = "U 01400001 z z 00001000 28000000 00130000 01000000 z";
    for (words, lines) in [
        ("replay --blocks 8 --pages 4", 2),
        ("replay --blocks 8 --pages 4 --units 20", 2),
        ("replay --blocks 8 --pages 4 --units 19", 3),
    ] {
        let ran = run_over(rt.alloc(), words, read)?;
        assert!(rt; ran.status == Status::Done, "{words}");
        let printed = ran.printed.iter().filter(|byte| **byte == b'\n').count();
        assert_eq!(rt; printed, lines, "{words}");
    }
    Ok(())
}
