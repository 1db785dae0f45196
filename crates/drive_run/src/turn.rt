//! One line of a drive after another.
ghost use Rattle.std.specs.Prelude.{◌≡◌, ◌⊎◌, ◌<◌, ◌≤◌, IsTrue, false, length, IfOk, []};
ghost use Rattle.std.specs.Io.KnownBytes.{IsAtEnd, prepend_known};
ghost use Rattle.trace_text.specs.Lines.{IsWithinLine};
ghost use Rattle.run_output.specs.Writes.{WritesAll};
ghost use Rattle.drive_run.specs.Moments.{Stands};
ghost use Rattle.drive_run.specs.Run.{SinkFaults, SourceFaults, TurnIs};

use crate::desk::Desk;
use crate::line::{Served, serve};
use flash_pages::Flash;
use hpb_link::Link;
use hpb_outside::{Failed, NoMemory, Sink, Source};
use run_output::write_before_read;
use std::alloc::Global;
use trace_text::{LineFault, LineReader, parse_drive};

/// What a drive reads and writes with. It takes all its memory when it is made.
#[derive(Drop)]
pub struct Buffers {
    pub(crate) reader: LineReader,
    pub(crate) desk: Desk,
}

impl Buffers {
    /// Empty buffers.
    pub fn new(alloc: Global) -> Result<Buffers, NoMemory>
        ensures reader { IfOk result (λ buffers. buffers.reader ≡ record { held = []; ended = false }) }
        ensures output { IfOk result (λ buffers. buffers.desk.output ≡ []) }
    {
        let reader = LineReader::new(alloc)?;
        let desk = Desk::new(alloc)?;
        Ok(Buffers { reader, desk })
    }
}

/// What one line of a drive came to.
#[derive(Clone, Copy, Debug, PartialEq, Eq)]
pub(crate) enum Turn {
    /// It was served.
    Served,
    /// There is no memory for its request.
    Starved,
    /// There was none: the drive is at its end.
    Ended,
    /// It isn't one that a drive can have.
    Bad,
    /// The source failed.
    Unread,
    /// The sink failed, or took nothing.
    Unwritten,
}

/// Reads one line and serves it. What was gathered is written before the source is asked for more.
pub(crate) fn take_turn<S: Source, K: Sink, F: Flash>(
    alloc: Global,
    link: &mut Link<F>,
    only: bool,
    buffers: &mut Buffers,
    source: &mut S,
    sink: &mut K,
) -> Turn
    requires at_end { IsTrue buffers.old.reader.ended → IsAtEnd (S.left source.old) }
    requires stands { Stands link.old }
    requires few { link.old.count < 1000000 }
    ensures turn { TurnIs only link.old link.new
        (prepend_known buffers.old.reader.held (S.left source.old))
        (prepend_known buffers.new.reader.held (S.left source.new))
        (K.written sink.old) (K.written sink.new) buffers.old.desk.output buffers.new.desk.output result }
    ensures at_end { IsTrue buffers.new.reader.ended → IsAtEnd (S.left source.new) }
    // The source is asked only once all that was gathered is written.
    ensures asked { (source.new ≡ source.old)
        ⊎ WritesAll (K.written sink.old) (K.written sink.new) buffers.old.desk.output }
    ensures unread { result ≡ Turn.Unread → IsWithinLine buffers.new.reader.held
        × (length buffers.new.reader.held ≤ 131200) }
    ensures source_faults { SourceFaults (S.faults source.old) (S.faults source.new) result }
    ensures sink_faults { SinkFaults (K.faults sink.old) (K.faults sink.new) result }
{
    let Buffers { reader, desk } = buffers;
    if write_before_read(reader, &mut desk.output, sink).is_err() {
        return Turn::Unwritten;
    }
    let parsed = match reader.next_line(source) {
        Ok(Some(line)) => parse_drive(line),
        Ok(None) => return Turn::Ended,
        Err(LineFault::TooLong) => return Turn::Bad,
        Err(LineFault::ReadFault) => return Turn::Unread,
    };
    let Some(line) = parsed else {
        return Turn::Bad;
    };
    match serve(alloc, link, line, only, desk, sink) {
        Ok(Served::Whole) => Turn::Served,
        Ok(Served::NoMemory) => Turn::Starved,
        Err(Failed) => Turn::Unwritten,
    }
}
