//! Whole runs over bytes and a chip in memory: cuts and faults in mid-stream, lines that are refused, and limits.
use super::*;
use crate::texts::push_words;
use flash_pages::{BLOCK_BYTES, Flash, Geometry, MemFlash, PageView, Spare};
use hpb_outside::{MemSink, MemSource};
use std::alloc::Global;
use std::process::Abort;
use std::test::Fail;

/// A chip whose unit has 20 blocks, and the words that name it.
const CHIP: Geometry = Geometry {
    blocks: 8,
    pages: 4,
};

pub const REPLAY: &str = "replay --blocks 8 --pages 4";

/// More than any of these runs prints.
const ROOM: usize = 4_000_000;

/// A write is asked for its data.
pub const ASKED: [(&str, &str); 2] = [
    ("U 01200002 z z 00001000 2a000000 z 01000000 z", ""),
    ("D", "< 31000002 z z z 00001000 z z z"),
];

/// The data of a write, which is answered GOOD.
pub const GIVEN: [(&str, &str); 2] = [
    ("U 02000002 z 00001000 z 00001000 z z z block", ""),
    ("D", "< 21000002 z z z z z z z"),
];

/// A block that was written is read.
pub const READ_BACK: [(&str, &str); 2] = [
    ("U 01400003 z z 00001000 28000000 z 01000000 z", ""),
    (
        "D",
        "< 22000003 z 00001000 z 00001000 z z z block / < 21000003 z z z z z z z",
    ),
];

/// A trace, what it prints, and where each of its lines and of their outputs ends.
#[derive(Drop)]
pub struct Script {
    pub trace: Vec<u8>,
    pub printed: Vec<u8>,
    trace_ends: Vec<u64>,
    printed_ends: Vec<usize>,
}

impl Script {
    pub fn new(alloc: Global) -> Script {
        Script {
            trace: Vec::new(alloc),
            printed: Vec::new(alloc),
            trace_ends: Vec::new(alloc),
            printed_ends: Vec::new(alloc),
        }
    }

    /// Adds lines, each with what is printed for it. That of a UPIU begins with the UPIU.
    pub fn add(&mut self, lines: &[(&str, &str)]) -> Result<(), Fail> {
        for (line, answers) in lines.iter().copied() {
            push_words(&mut self.trace, line)?;
            self.trace.push(b'\n')?;
            if let Some(upiu) = line.strip_prefix("U ") {
                push_words(&mut self.printed, ">")?;
                push_words(&mut self.printed, upiu)?;
                self.printed.push(b'\n')?;
            }
            if !answers.is_empty() {
                push_words(&mut self.printed, answers)?;
                self.printed.push(b'\n')?;
            }
            self.trace_ends.push(self.trace.len() as u64)?;
            self.printed_ends.push(self.printed.len())?;
        }
        Ok(())
    }

    /// Adds the line with these counts that ends a trace which was taken whole.
    pub fn end(&mut self, counts: &str) -> Result<(), Fail> {
        push_words(&mut self.printed, counts)?;
        self.printed.push(b'\n')?;
        Ok(())
    }

    /// What the lines before the one with this number print.
    fn printed_before(&self, number: usize) -> &[u8] {
        if number < 2 {
            return &[];
        }
        match self.printed_ends.get(number - 2) {
            Some(end) => self.printed.get(..*end).unwrap_or(&[]),
            None => &self.printed,
        }
    }
}

/// A block written and read back.
fn one_block(alloc: Global) -> Result<Script, Fail> {
    let mut script = Script::new(alloc);
    script.add(&ASKED)?;
    script.add(&GIVEN)?;
    script.add(&READ_BACK)?;
    Ok(script)
}

/// The same as a whole trace.
fn whole_block(alloc: Global) -> Result<Script, Fail> {
    let mut script = one_block(alloc)?;
    script.end("T=37,1,0,0,0")?;
    Ok(script)
}

/// A page of a chip that is made by hand: its number, and the logical unit, the LBA and the sequence number in its
/// spare area. Its block is bytes 11h.
pub type Put = (u32, u8, u32, u64);

/// What a run meets: its chip and the pages of it that are written, where reads end early, and which calls fail, by
/// their numbers from 1. To write a page takes two calls of the chip.
#[derive(Drop)]
pub struct Outside {
    pub chip: Geometry,
    pages: Vec<Put>,
    cuts: Vec<u64>,
    reads: Vec<u64>,
    writes: Vec<u64>,
    pub calls: Vec<u64>,
    room: usize,
}

impl Outside {
    /// Nothing fails, and there is room for all.
    pub fn faultless(alloc: Global) -> Outside {
        Outside {
            chip: CHIP,
            pages: Vec::new(alloc),
            cuts: Vec::new(alloc),
            reads: Vec::new(alloc),
            writes: Vec::new(alloc),
            calls: Vec::new(alloc),
            room: ROOM,
        }
    }

    /// The same over a chip on which these pages are written.
    pub fn over(alloc: Global, pages: &[Put]) -> Result<Outside, Fail> {
        let mut outside = Outside::faultless(alloc);
        outside.pages.extend_from_slice(pages)?;
        Ok(outside)
    }
}

/// How a run ended, what it printed, and the chip that it handed back.
#[derive(Drop)]
pub struct Ran {
    pub status: Status,
    pub printed: Vec<u8>,
    pub chip: MemFlash,
}

impl Ran {
    /// Whether the run ended so, and printed this and no more.
    pub fn is_end(&self, status: Status, printed: &[u8]) -> bool {
        self.status == status && self.printed.as_slice() == printed
    }
}

/// The text of words.
pub fn text_of(alloc: Global, words: &str) -> Result<Vec<u8>, Fail> {
    let mut text = Vec::new(alloc);
    push_words(&mut text, words)?;
    Ok(text)
}

/// Words that a blank parts; two blanks have an empty word between them.
pub fn words_of(alloc: Global, text: &str) -> Result<Vec<String>, Fail> {
    let mut words = Vec::new(alloc);
    if text.is_empty() {
        return Ok(words);
    }
    for word in text.split(' ') {
        words.push(String::from_str(alloc, word)?)?;
    }
    Ok(words)
}

/// What a page of a chip shows: its first byte and its spare area, where it is written.
pub type Shown = Option<(Option<u8>, Spare)>;

/// Reads a page of a chip.
fn show(flash: &mut MemFlash, page: u32) -> Result<Shown, Fail> {
    let geometry = flash.geometry();
    if !geometry.is_within_limits() || page >= geometry.blocks * geometry.pages {
        return Err(Fail::new("no page"));
    }
    flash.read(page)?;
    match flash.shown() {
        PageView::Erased => Ok(None),
        PageView::Written { bytes, spare } => Ok(Some((bytes.first().copied(), spare))),
    }
}

/// Each of so many pages of a chip.
pub fn pages_of(alloc: Global, flash: &mut MemFlash, count: u32) -> Result<Vec<Shown>, Fail> {
    let mut pages = Vec::new(alloc);
    for page in 0..count {
        pages.push(show(flash, page)?)?;
    }
    Ok(pages)
}

/// Writes a page of a chip, where it is erased.
fn put(flash: &mut MemFlash, (page, lun, lba, seq): Put) -> Result<(), Fail> {
    let geometry = flash.geometry();
    if !geometry.is_within_limits() || page >= geometry.blocks * geometry.pages {
        return Err(Fail::new("no page"));
    }
    flash.read(page)?;
    if let PageView::Erased = flash.shown() {
        flash.program(page, &[0x11; BLOCK_BYTES], Spare { lun, lba, seq })?;
    }
    Ok(())
}

/// A chip on which these pages are written.
fn made_chip(
    alloc: Global,
    chip: Geometry,
    pages: &[Put],
    calls: Vec<u64>,
) -> Result<MemFlash, Fail> {
    if !chip.is_within_limits() {
        return Err(Fail::new("a chip outside its limits"));
    }
    let mut flash = MemFlash::new(alloc, chip, calls)?;
    for page in pages {
        put(&mut flash, *page)?;
    }
    Ok(flash)
}

/// Runs these words over a text and a chip.
pub fn run_words(alloc: Global, words: &str, text: &[u8], outside: Outside) -> Result<Ran, Fail> {
    let names = words_of(alloc, words)?;
    let Outside {
        chip,
        pages,
        cuts,
        reads,
        writes,
        calls,
        room,
    } = outside;
    let flash = made_chip(alloc, chip, &pages, calls)?;
    let mut source = MemSource::new(text.to_vec(alloc)?, cuts, reads);
    let mut sink = MemSink::new(alloc, room, writes)?;
    let outcome = run(alloc, &names, &mut source, &mut sink, flash);
    Ok(Ran {
        status: outcome.status,
        printed: sink.bytes().to_vec(alloc)?,
        chip: outcome.flash,
    })
}

pub fn replay(alloc: Global, trace: &[u8], outside: Outside) -> Result<Ran, Fail> {
    run_words(alloc, REPLAY, trace, outside)
}

/// Replays a script, and tells whether all of it was printed.
fn is_printed(alloc: Global, script: &Script, outside: Outside) -> Result<bool, Fail> {
    let ran = replay(alloc, &script.trace, outside)?;
    Ok(ran.is_end(Status::Done, &script.printed))
}

/// So many places, evenly apart.
fn places(alloc: Global, first: u64, step: u64, count: usize) -> Result<Vec<u64>, Fail> {
    let mut found = Vec::new(alloc);
    let mut next = first;
    for _place in 0..count {
        found.push(next)?;
        next = next.saturating_add(step);
    }
    Ok(found)
}

#[test]
fn cuts_of_the_source_change_nothing(rt: HostRuntime) -> Result<(), Fail> {
    let script = whole_block(rt.alloc())?;
    // Bytes that come one by one at first, and cuts that together stand at each place of the trace.
    for (first, step, count) in [
        (1, 1, 300),
        (1, 5, 1700),
        (2, 5, 1700),
        (3, 5, 1700),
        (4, 5, 1700),
        (5, 5, 1700),
        (67, 67, 126),
        (1000, 1000, 9),
    ] {
        let outside = Outside {
            cuts: places(rt.alloc(), first, step, count)?,
            ..Outside::faultless(rt.alloc())
        };
        assert!(rt;
            is_printed(rt.alloc(), &script, outside)?,
            "from {first} on, {step} apart"
        );
    }
    Ok(())
}

/// A list of one number.
fn only(alloc: Global, number: u64) -> Result<Vec<u64>, Fail> {
    let mut list = Vec::new(alloc);
    list.push(number)?;
    Ok(list)
}

/// Replays a script, of which each read gives one line. The read and the write with these numbers fail.
fn replay_by_lines(alloc: Global, script: &Script, read: u64, write: u64) -> Result<Ran, Fail> {
    let outside = Outside {
        cuts: script.trace_ends.clone()?,
        reads: only(alloc, read)?,
        writes: only(alloc, write)?,
        ..Outside::faultless(alloc)
    };
    replay(alloc, &script.trace, outside)
}

#[test]
fn a_fault_ends_a_replay_behind_what_was_printed(rt: HostRuntime) -> Result<(), Fail> {
    let script = whole_block(rt.alloc())?;
    // The seventh read gives no line, and there is no eighth. Each write takes what one line prints, the last one the
    // counts.
    for (call, read, write) in [
        (1, Status::ReadFault, Status::WriteFault),
        (2, Status::ReadFault, Status::WriteFault),
        (3, Status::ReadFault, Status::WriteFault),
        (4, Status::ReadFault, Status::WriteFault),
        (5, Status::ReadFault, Status::WriteFault),
        (6, Status::ReadFault, Status::WriteFault),
        (7, Status::ReadFault, Status::WriteFault),
        (8, Status::Done, Status::Done),
    ] {
        let printed = script.printed_before(call);
        let ran = replay_by_lines(rt.alloc(), &script, call as u64, 0)?;
        assert!(rt; ran.is_end(read, printed), "read {call}");
        let ran = replay_by_lines(rt.alloc(), &script, 0, call as u64)?;
        assert!(rt; ran.is_end(write, printed), "write {call}");
    }
    for room in [0, 1, 66, 67, 68, 134, 8000, 16_000] {
        let outside = Outside {
            room,
            ..Outside::faultless(rt.alloc())
        };
        let ran = replay(rt.alloc(), &script.trace, outside)?;
        let printed = script.printed.get(..room).unwrap_or(&[]);
        assert!(rt; ran.is_end(Status::WriteFault, printed), "room for {room}");
    }
    Ok(())
}

/// Words, a text, the numbers of the read and of the write that fails, how the run ends, and what it prints.
const FAULTS: [(&str, &str, u64, u64, Status, &str); 8] = [
    ("show", "D / D / D", 9, 9, Status::Done, "D / D / D / "),
    ("show", "D / D / D", 1, 9, Status::ReadFault, ""),
    ("show", "D / D / D", 2, 9, Status::ReadFault, "D / "),
    ("show", "D / D / D", 9, 2, Status::WriteFault, "D / "),
    // The last line, which says why a run ended, is written too.
    ("show", "D / X", 9, 2, Status::WriteFault, "D / "),
    (REPLAY, "D / X", 9, 1, Status::WriteFault, ""),
    ("shows", "", 9, 1, Status::WriteFault, ""),
    ("replay", "", 9, 1, Status::WriteFault, ""),
];

#[test]
fn a_fault_ends_each_command(rt: HostRuntime) -> Result<(), Fail> {
    for (words, text, read, write, status, printed) in FAULTS {
        let outside = Outside {
            cuts: places(rt.alloc(), 2, 2, 9)?,
            reads: only(rt.alloc(), read)?,
            writes: only(rt.alloc(), write)?,
            ..Outside::faultless(rt.alloc())
        };
        let text = text_of(rt.alloc(), text)?;
        let ran = run_words(rt.alloc(), words, &text, outside)?;
        let printed = text_of(rt.alloc(), printed)?;
        assert!(rt;
            ran.is_end(status, &printed),
            "{words}, read {read}, write {write}"
        );
    }
    Ok(())
}

#[test]
fn other_lines_are_refused_behind_what_was_served(rt: HostRuntime) -> Result<(), Fail> {
    for line in [
        "U 0",
        "U 0g",
        "S",
        "S 1234567",
        "C",
        "C 1234567",
        "R\r",
        "r",
        "M 0",
        "X",
        "d",
        "D\r",
    ] {
        let mut script = one_block(rt.alloc())?;
        script.add(&[("# comment", ""), ("", "")])?;
        push_words(&mut script.trace, line)?;
        script.printed.extend_from_slice(b"E line 9\n")?;
        let ran = replay(rt.alloc(), &script.trace, Outside::faultless(rt.alloc()))?;
        assert!(rt; ran.is_end(Status::BadLine(9), &script.printed), "{line}");
    }
    Ok(())
}

/// Texts, how they are shown, and how that ends.
const SHOWN: [(&str, Status, &str); 3] = [
    (
        "U 01400001 z z 00001000 28000000 00050000 01000000 z / ! read / \
         < 21000004 z 00000014 z z z z z 00128010 01000100 00000002 z z / \
         < 3F000000 00000100 z 05000000 z z z z / D",
        Status::Done,
        "COMMAND lun=0 tag=1 exp=4096 READ lba=5 n=1\n! read\n\
         RESPONSE lun=0 tag=4 status=00 resid=0 hint op=1 lun=0 act=0:2 inact=\n\
         REJECT lun=0 tag=0 reason=5\nD\n",
    ),
    ("D / > 0", Status::BadLine(2), "D\nE line 2\n"),
    ("< / < 0g / D", Status::BadLine(2), "BAD 1\nE line 2\n"),
];

#[test]
fn texts_are_shown(rt: HostRuntime) -> Result<(), Fail> {
    for (text, status, printed) in SHOWN {
        let text = text_of(rt.alloc(), text)?;
        let ran = run_words(rt.alloc(), "show", &text, Outside::faultless(rt.alloc()))?;
        assert!(rt; ran.is_end(status, printed.as_bytes()), "{printed}");
    }
    Ok(())
}

/// A trace of this many comments.
fn comments(alloc: Global, count: usize) -> Result<Vec<u8>, Fail> {
    let mut trace = Vec::new(alloc);
    for _line in 0..count {
        trace.extend_from_slice(b"#\n")?;
    }
    Ok(trace)
}

#[test]
fn lines_have_limits(rt: HostRuntime) -> Result<(), Fail> {
    let mut trace = comments(rt.alloc(), 1_000_000)?;
    let ran = replay(rt.alloc(), &trace, Outside::faultless(rt.alloc()))?;
    let counts = text_of(rt.alloc(), "T=0,0,0,0,0 /")?;
    assert!(rt; ran.is_end(Status::Done, &counts));
    trace.push(b'#')?;
    let ran = replay(rt.alloc(), &trace, Outside::faultless(rt.alloc()))?;
    assert!(rt; ran.is_end(Status::LongTrace, b"E long\n"));
    for (size, status) in [(131_200, Status::Done), (131_201, Status::BadLine(1))] {
        let line = vec![in rt.alloc(); b'#'; size]?;
        let ran = replay(rt.alloc(), &line, Outside::faultless(rt.alloc()))?;
        assert_eq!(rt; ran.status, status, "{size} bytes");
        let ran = run_words(rt.alloc(), "show", &line, Outside::faultless(rt.alloc()))?;
        assert_eq!(rt; ran.status, status, "{size} bytes");
    }
    Ok(())
}
