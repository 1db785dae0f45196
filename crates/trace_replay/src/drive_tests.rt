//! Whole drives by their text: tables of lines, each with what is printed of them.
use super::*;
use crate::tests::{Outside, run_words};
use std::alloc::Global;
use std::process::Abort;
use std::test::Fail;

/// A line that is printed: this text, or a block that was written by a line of a drive, or one that was never written.
#[derive(Clone, Copy)]
enum Shown {
    Text(&'static str),
    Block { lba: u32, seed: u32 },
    Zeros(u32),
}

/// The words of a drive, its lines, and what is printed of them.
type Row = (&'static str, &'static str, &'static [Shown]);

/// The same block is read five times, each time to its end.
const FIVE_READS: &str =
    "write 0 2 1\nread 0 1\ndrain\nread 0 1\ndrain\nread 0 1\ndrain\nread 0 1\ndrain\nread 0 1\ndrain\n";

/// A block of the first write.
const FIRST: Shown = Shown::Block { lba: 0, seed: 1 };

/// Answers alone.
const ANSWERS: [Row; 9] = [
    // The fourth read brings a hint, so the fifth goes out with an entry.
    (
        "drive --blocks 8 --pages 4 --region 6 --sub 4 --held 1 --answers",
        FIVE_READS,
        &[
            Shown::Text("A 1 good"),
            Shown::Text("A 2 good"),
            FIRST,
            Shown::Text("A 3 good"),
            FIRST,
            Shown::Text("A 4 good"),
            FIRST,
            Shown::Text("A 5 good"),
            FIRST,
            Shown::Text("A 6 good"),
            FIRST,
            Shown::Text("T steps=48 lookups=4 entries=1 moved=0 erased=0"),
        ],
    ),
    (
        "drive --answers --blocks 8 --pages 4 --region 6 --sub 4 --held 1 --plain",
        FIVE_READS,
        &[
            Shown::Text("A 1 good"),
            Shown::Text("A 2 good"),
            FIRST,
            Shown::Text("A 3 good"),
            FIRST,
            Shown::Text("A 4 good"),
            FIRST,
            Shown::Text("A 5 good"),
            FIRST,
            Shown::Text("A 6 good"),
            FIRST,
            Shown::Text("T steps=46 lookups=5 entries=0 moved=0 erased=0"),
        ],
    ),
    // A block of a full erase block is moved.
    (
        "drive --blocks 8 --pages 4 --answers",
        "write 0 4 1\ndrain\nwrite 0 1 2\ndrain\ncollect 2",
        &[
            Shown::Text("A 1 good"),
            Shown::Text("A 2 good"),
            Shown::Text("T steps=41 lookups=0 entries=0 moved=1 erased=0"),
        ],
    ),
    // A reset after the write's last step, and one before it.
    (
        "drive --blocks 8 --pages 4 --answers",
        "write 0 1 1\nsteps 35\nreset\nread 0 1",
        &[
            Shown::Text("A 1 good"),
            Shown::Text("A 2 good"),
            FIRST,
            Shown::Text("T steps=69 lookups=1 entries=0 moved=0 erased=0"),
        ],
    ),
    (
        "drive --blocks 8 --pages 4 --answers",
        "write 0 1 1\nsteps 34\nreset\nread 0 1",
        &[
            Shown::Text("A 1 cut"),
            Shown::Text("A 2 good"),
            FIRST,
            Shown::Text("T steps=68 lookups=1 entries=0 moved=0 erased=0"),
        ],
    ),
    // Requests out of range take a number.
    (
        "drive --blocks 8 --pages 4 --answers",
        "read 20 1\nwrite 19 2 1\nlun 1\nread 0 1\nlun 0\nread 19 1",
        &[
            Shown::Text("A 1 range"),
            Shown::Text("A 2 range"),
            Shown::Text("A 3 range"),
            Shown::Text("A 4 good"),
            Shown::Zeros(19),
            Shown::Text("T steps=34 lookups=1 entries=0 moved=0 erased=0"),
        ],
    ),
    // No line asks for anything.
    (
        "drive --blocks 8 --pages 4 --answers",
        "# nothing\n\nlun 3\ndrain",
        &[Shown::Text("T steps=0 lookups=0 entries=0 moved=0 erased=0")],
    ),
    // A line that is none, behind one that was served.
    (
        "drive --blocks 8 --pages 4 --answers",
        "read 20 1\nreads 0 1\nread 20 1",
        &[Shown::Text("A 1 range"), Shown::Text("E line 2")],
    ),
    (
        "drive --blocks 8 --pages 4",
        "read 20 1\nU 00",
        &[Shown::Text("A 1 range"), Shown::Text("E line 2")],
    ),
];

/// Adds a line that is printed.
fn push_shown(alloc: Global, text: &mut Vec<u8>, shown: Shown) -> Result<(), Fail> {
    match shown {
        Shown::Text(line) => text.extend_from_slice(line.as_bytes())?,
        Shown::Block { lba, seed } => push_block(alloc, text, lba, Some(seed))?,
        Shown::Zeros(lba) => push_block(alloc, text, lba, None)?,
    }
    text.push(b'\n')?;
    Ok(())
}

/// Adds a block that a read got, without the end of its line. Byte j of one that was written is the sum of 31 times the
/// seed, 7 times the LBA, and j, modulo 256.
fn push_block(alloc: Global, text: &mut Vec<u8>, lba: u32, seed: Option<u32>) -> Result<(), Fail> {
    let head = format!(in alloc; "B {lba} ")?;
    text.extend_from_slice(head.as_bytes())?;
    for place in 0..4096_u64 {
        let byte = match seed {
            Some(seed) => (31 * u64::from(seed) + 7 * u64::from(lba) + place) % 256,
            None => 0,
        };
        let digits = format!(in alloc; "{byte:02x}")?;
        text.extend_from_slice(digits.as_bytes())?;
    }
    Ok(())
}

/// All that is to be printed.
fn text_of(alloc: Global, lines: &[Shown]) -> Result<Vec<u8>, Fail> {
    let mut text = Vec::new(alloc);
    for line in lines {
        push_shown(alloc, &mut text, *line)?;
    }
    Ok(text)
}

#[test]
fn answers_are_printed(rt: HostRuntime) -> Result<(), Fail> {
    for (words, lines, printed) in ANSWERS {
        let ran = run_words(
            rt.alloc(),
            words,
            lines.as_bytes(),
            Outside::faultless(rt.alloc()),
        )?;
        let expected = text_of(rt.alloc(), printed)?;
        assert!(rt; ran.printed == expected, "{words}: {lines}");
    }
    Ok(())
}

#[test]
fn a_seed_has_one_summary(rt: HostRuntime) -> Result<(), Fail> {
    let words = "gen --seed 7 --blocks 8 --pages 4";
    let first = run_words(rt.alloc(), words, b"R\n", Outside::faultless(rt.alloc()))?;
    let again = run_words(rt.alloc(), words, b"", Outside::faultless(rt.alloc()))?;
    assert!(rt; first.is_end(Status::Done, &again.printed), "{words}");
    assert!(rt;
        first.printed.starts_with(b"G lines=2000 reads="),
        "{words}"
    );
    Ok(())
}
