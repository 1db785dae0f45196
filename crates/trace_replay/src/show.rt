ghost use Rattle.std.specs.Prelude.{IsTrue, false, ◌≡◌, ◌≤◌, ◌⊎◌, [], length};
ghost use Rattle.std.specs.Io.KnownBytes.{IsAtEnd, prepend_known};
ghost use Rattle.trace_text.specs.Lines.{IsWithinLine};
ghost use Rattle.run_output.specs.Ends.{SinkEnds, SinkFaults, SourceEnds, SourceFaults};
ghost use Rattle.run_output.specs.Writes.{WritesAll};
ghost use Rattle.trace_replay.specs.Showing.{ShowIs, ShowTurnIs};

use crate::program::LINES;
use crate::replay::Buffers;
use hpb_outside::{Sink, Source};
use run_output::{Status, Turn, end_long, finish, make_room, refuse_line, write_before_read};
use trace_text::LineFault;

/// Shows the lines of a text to its end, or to what ends it before.
pub(crate) fn show<S: Source, K: Sink>(
    buffers: &mut Buffers,
    source: &mut S,
    sink: &mut K,
) -> Status
    requires begun { buffers.old.reader ≡ record { held = []; ended = false } }
    requires fresh { buffers.old.output ≡ [] }
    ensures show { ShowIs
        (prepend_known buffers.old.reader.held (S.left source.old)) (S.left source.new)
        (K.written sink.old) (K.written sink.new) 1000000 result }
    ensures source_faults { SourceEnds (S.faults source.old) (S.faults source.new) result }
    ensures sink_faults { SinkEnds (K.faults sink.old) (K.faults sink.new) result }
{
    for number in 0..LINES {
        match show_line(buffers, source, sink) {
            Turn::Served => {}
            Turn::Ended => return finish(&mut buffers.output, sink, Status::Done),
            Turn::Unread => return Status::ReadFault,
            Turn::Unwritten => return Status::WriteFault,
            Turn::Bad => return refuse_line(&mut buffers.output, sink, number + 1),
        }
    }
    end_long(&mut buffers.reader, &mut buffers.output, source, sink)
}

/// Reads one line and shows it. What was gathered is written before the source is asked for more.
fn show_line<S: Source, K: Sink>(buffers: &mut Buffers, source: &mut S, sink: &mut K) -> Turn
    requires { IsTrue buffers.old.reader.ended → IsAtEnd (S.left source.old) }
    ensures turn { ShowTurnIs
        (prepend_known buffers.old.reader.held (S.left source.old))
        (prepend_known buffers.new.reader.held (S.left source.new))
        (K.written sink.old) (K.written sink.new) buffers.old.output buffers.new.output result }
    ensures at_end { IsTrue buffers.new.reader.ended → IsAtEnd (S.left source.new) }
    // The source is asked only once all that was gathered is written.
    ensures asked { (source.new ≡ source.old) ⊎ WritesAll (K.written sink.old) (K.written sink.new) buffers.old.output }
    ensures unread { result ≡ Turn.Unread → IsWithinLine buffers.new.reader.held
        × (length buffers.new.reader.held ≤ 131200) }
    ensures source_faults { SourceFaults (S.faults source.old) (S.faults source.new) result }
    ensures sink_faults { SinkFaults (K.faults sink.old) (K.faults sink.new) result }
{
    if write_before_read(&buffers.reader, &mut buffers.output, sink).is_err() {
        return Turn::Unwritten;
    }
    if make_room(&mut buffers.output, sink).is_err() {
        return Turn::Unwritten;
    }
    match buffers.reader.next_line(source) {
        Ok(Some(line)) => {
            if buffers.output.push_shown(line, &mut buffers.room) {
                Turn::Served
            } else {
                Turn::Bad
            }
        }
        Ok(None) => Turn::Ended,
        Err(LineFault::TooLong) => Turn::Bad,
        Err(LineFault::ReadFault) => Turn::Unread,
    }
}
