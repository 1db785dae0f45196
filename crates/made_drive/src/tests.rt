//! Lines and counts beside those that another program made by the same rule, and the tally of a small text.
ghost use Rattle.std.specs.Prelude.{◌≤◌};

use super::*;
use hpb_outside::{Source, write_whole};
use std::alloc::Global;
use std::process::Abort;
use std::test::Fail;
use trace_text::{DriveLine, LineReader, parse_drive};

/// What a source gives in reads of 7 bytes.
fn text_of(alloc: Global, seed: u32, units: u32, lines: u32) -> Result<Vec<u8>, Fail>
    requires { 1 ≤ units }
{
    let mut source = MadeSource::new(seed, units, lines);
    let mut text = Vec::new(alloc);
    for _ in 0..1000 {
        let mut room = [0; 7];
        let count = source.read(&mut room)?;
        text.extend_from_slice(&room[..count])?;
    }
    Ok(text)
}

#[test]
fn first_lines(rt: HostRuntime) -> Result<(), Fail> {
    let text = text_of(rt.alloc(), 7, 3904, 14)?;
    let lines =
        b"write 1998 5 146\nread 3365 3\nsteps 18\nread 3405 4\nsteps 19\ncollect 3\nwrite 230 7 36\n\
        write 2851 8 218\ncollect 1\nread 2657 3\nread 2261 7\nread 586 5\nread 1235 1\nwrite 2580 8 30\n";
    assert_eq!(rt; text.as_slice(), lines.as_slice());
    Ok(())
}

#[test]
fn lines_of_small_units(rt: HostRuntime) -> Result<(), Fail> {
    let text = text_of(rt.alloc(), u32::MAX, 1, 6)?;
    let lines = b"write 0 1 94\nwrite 0 1 63\nread 0 1\nwrite 0 1 221\nsteps 32\nread 0 1\n";
    assert_eq!(rt; text.as_slice(), lines.as_slice());
    let text = text_of(rt.alloc(), u32::MAX, 9, 9)?;
    let lines =
        b"write 8 1 94\nwrite 2 1 63\nread 8 1\nwrite 3 1 221\nsteps 32\nread 4 5\nwrite 1 3 22\nwrite 2 3 0\n\
        drain\n";
    assert_eq!(rt; text.as_slice(), lines.as_slice());
    Ok(())
}

#[test]
fn lines_are_parsed(rt: HostRuntime) -> Result<(), Fail> {
    let mut source = MadeSource::new(7, 3904, 2);
    let mut reader = LineReader::new(rt.alloc())?;
    let first = reader.next_line(&mut source)?.ok_or("no line")?;
    let write = DriveLine::Write {
        lba: 1998,
        n: 5,
        seed: 146,
    };
    assert_eq!(rt; parse_drive(first), Some(write));
    let second = reader.next_line(&mut source)?.ok_or("no line")?;
    let read = DriveLine::Read { lba: 3365, n: 3 };
    assert_eq!(rt; parse_drive(second), Some(read));
    assert!(rt; reader.next_line(&mut source)?.is_none());
    Ok(())
}

#[test]
fn requests_are_counted(rt: HostRuntime) {
    assert!(rt; made_counts(7, 3904, 2000) == (959, 655));
    assert!(rt; made_counts(7, 3904, 20) == (8, 6));
    assert!(rt; made_counts(7, 3904, 0) == (0, 0));
}

#[test]
fn answers_are_counted(rt: HostRuntime) -> Result<(), Fail> {
    let mut tally = Tally::new();
    for part in [
        "A 1 good\nB 7 676f6f64\nA 2 cut\nA 3 check 5 24 0",
        "0\nA 4 status 28\nA 5 range\nA 6 go",
        "od\nB good\nA 7 cut\nA 8 cut\nT steps=3 lookups=0 entries=0 moved=0 erased=0\nA 9 good",
    ] {
        write_whole(&mut tally, part.as_bytes())?;
    }
    assert_eq!(rt; tally.good(), 2);
    assert_eq!(rt; tally.cut(), 3);
    Ok(())
}
