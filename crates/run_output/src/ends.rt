ghost use Rattle.std.specs.Prelude.{IsTrue, ◌≡◌, []};
ghost use Rattle.std.specs.Io.KnownBytes.{IsAtEnd, prepend_known};
ghost use Rattle.run_output.specs.Ends.{EndsLong, Finishes, SinkEnds, SourceEnds};
ghost use Rattle.run_output.specs.Texts.{bad_line_text};

use crate::gather::make_room;
use crate::output::Output;
use crate::status::Status;
use hpb_outside::{Failed, Sink, Source};
use itoa::Buffer;
use trace_text::LineReader;

/// Writes what was gathered, and ends with this status.
pub fn finish<K: Sink>(output: &mut Output, sink: &mut K, status: Status) -> Status
    ensures ends { Finishes (K.written sink.old) (K.written sink.new) output.old []
        (K.faults sink.old) (K.faults sink.new) status result }
{
    match output.flush(sink) {
        Ok(()) => status,
        Err(Failed) => Status::WriteFault,
    }
}

/// Ends at a line that the trace can't have.
pub fn refuse_line<K: Sink>(output: &mut Output, sink: &mut K, number: u32) -> Status
    ensures ends { Finishes (K.written sink.old) (K.written sink.new) output.old (bad_line_text number)
        (K.faults sink.old) (K.faults sink.new) (Status.BadLine number) result }
{
    if make_room(output, sink).is_err() {
        return Status::WriteFault;
    }
    let mut buffer = Buffer::new();
    output.push_text(b"E line ");
    output.push_text(buffer.format(number).as_bytes());
    output.push_text(b"\n");
    finish(output, sink, Status::BadLine(number))
}

/// Ends after the last line that a trace may have.
pub fn end_long<S: Source, K: Sink>(
    reader: &mut LineReader,
    output: &mut Output,
    source: &mut S,
    sink: &mut K,
) -> Status
    requires { IsTrue reader.old.ended → IsAtEnd (S.left source.old) }
    ensures ends { EndsLong (K.written sink.old) (K.written sink.new) output.old
        (prepend_known reader.old.held (S.left source.old)) (S.left source.new) result }
    ensures written { result ≡ Status.Done → output.new ≡ [] }
    ensures source_faults { SourceEnds (S.faults source.old) (S.faults source.new) result }
    ensures sink_faults { SinkEnds (K.faults sink.old) (K.faults sink.new) result }
{
    if output.flush(sink).is_err() {
        return Status::WriteFault;
    }
    match reader.has_more(source) {
        Ok(false) => Status::Done,
        Ok(true) => {
            output.push_text(b"E long\n");
            finish(output, sink, Status::LongTrace)
        }
        Err(Failed) => Status::ReadFault,
    }
}
