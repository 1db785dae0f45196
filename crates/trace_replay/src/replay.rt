ghost use Rattle.std.specs.Prelude.{IsTrue, false, ◌≡◌, ◌<◌, ◌≤◌, ◌⊎◌, length, [], None, Some, IfOk};
ghost use Rattle.flat_unit.specs.Trace.{Upiu, Steps, Collect, Drain, ResetLine};
ghost use Rattle.trace_text.specs.Grammar.{line_said, room_taken};
ghost use Rattle.trace_replay.specs.Moments.{Serves};
ghost use Rattle.std.specs.Io.KnownBytes.{IsAtEnd, prepend_known};
ghost use Rattle.run_output.specs.Ends.{SinkFaults, SourceFaults};
ghost use Rattle.trace_replay.specs.Run.{TurnIs};
ghost use Rattle.run_output.specs.Writes.{Grows, WritesAll};
ghost use Rattle.hpb_outside.specs.Faults.{HasCause};
ghost use Rattle.trace_text.specs.Lines.{IsWithinLine};

use flash_pages::Flash;
use flat_unit::Event;
use hpb_device::{Device, Sent, Waits};
use hpb_outside::{Failed, NoMemory, Sink, Source};
use run_output::{Output, Turn, make_room, push_failed, push_moved, push_step, write_before_read};
use std::alloc::Global;
use trace_text::{Line, LineFault, LineReader, parse_line};
use upiu_wire::UpiuBuf;

/// The room for the UPIU of a line.
const ROOM_BYTES: usize = 65_600;

/// What a replay reads into and writes from. It takes all its memory when it is made.
#[derive(Drop)]
pub(crate) struct Buffers {
    pub reader: LineReader,
    pub room: Vec<u8>,
    pub upiu: UpiuBuf,
    pub output: Output,
    ghost whole: { length room.items ≡ 65600 },
}

impl Buffers {
    /// Empty buffers.
    pub(crate) fn new(alloc: Global) -> Result<Buffers, NoMemory>
        ensures reader { IfOk result (λ buffers. buffers.reader ≡ record { held = []; ended = false }) }
        ensures output { IfOk result (λ buffers. buffers.output ≡ []) }
    {
        let reader = LineReader::new(alloc)?;
        let room = vec![in alloc; 0; ROOM_BYTES]?;
        let output = Output::new(alloc)?;
        Ok(Buffers {
            reader,
            room,
            upiu: UpiuBuf::new(),
            output,
        })
    }
}

/// Steps until nothing can go on without the host.
fn drain<K: Sink, F: Flash>(
    device: &mut Device<F>,
    upiu: &mut UpiuBuf,
    output: &mut Output,
    sink: &mut K,
) -> Result<(), Failed>
    ensures serves { Serves Drain device.old device.new (K.written sink.old) (K.written sink.new) output.old output.new
        result }
    ensures grows { Grows (K.written sink.old) (K.written sink.new) }
    ensures cause { HasCause (K.faults sink.old) (K.faults sink.new) result }
{
    'steps: while let Waits::Step = device.waits() {
        make_room(output, sink)?;
        let stepped = device.step(upiu);
        push_step(stepped, upiu, output);
    }
    Ok(())
}

/// Makes so many steps. Behind the first one where nothing is to be done, no other would do anything.
fn make_steps<K: Sink, F: Flash>(
    device: &mut Device<F>,
    count: u32,
    upiu: &mut UpiuBuf,
    output: &mut Output,
    sink: &mut K,
) -> Result<(), Failed>
    ensures serves { Serves (Steps count) device.old device.new (K.written sink.old) (K.written sink.new) output.old
        output.new result }
    ensures grows { Grows (K.written sink.old) (K.written sink.new) }
    ensures cause { HasCause (K.faults sink.old) (K.faults sink.new) result }
{
    for _step in 0..count {
        make_room(output, sink)?;
        let stepped = device.step(upiu);
        if stepped.idle {
            return Ok(());
        }
        push_step(stepped, upiu, output);
    }
    Ok(())
}

/// Makes so many calls of the collector. Behind the first one with nothing to do, no other would do anything.
fn collect<K: Sink, F: Flash>(
    device: &mut Device<F>,
    count: u32,
    output: &mut Output,
    sink: &mut K,
) -> Result<(), Failed>
    ensures serves { Serves (Collect count) device.old device.new (K.written sink.old) (K.written sink.new) output.old
        output.new result }
    ensures grows { Grows (K.written sink.old) (K.written sink.new) }
    ensures cause { HasCause (K.faults sink.old) (K.faults sink.new) result }
{
    for _call in 0..count {
        make_room(output, sink)?;
        let stepped = device.collect();
        if stepped.idle {
            return Ok(());
        }
        push_failed(stepped.failed, output);
        push_moved(stepped.moved, output);
    }
    Ok(())
}

/// Drops all tasks of the device, which then scans its chip anew.
fn reset<K: Sink, F: Flash>(
    device: &mut Device<F>,
    output: &mut Output,
    sink: &mut K,
) -> Result<(), Failed>
    ensures serves { Serves ResetLine device.old device.new (K.written sink.old) (K.written sink.new) output.old
        output.new result }
    ensures grows { Grows (K.written sink.old) (K.written sink.new) }
    ensures cause { HasCause (K.faults sink.old) (K.faults sink.new) result }
{
    make_room(output, sink)?;
    device.reset();
    output.push_event(&Event::Reset);
    Ok(())
}

/// Hands the device a UPIU of the host.
fn receive<K: Sink, F: Flash>(
    device: &mut Device<F>,
    bytes: &[u8],
    upiu: &mut UpiuBuf,
    output: &mut Output,
    sink: &mut K,
) -> Result<(), Failed>
    requires { length bytes.now ≤ 65568 }
    ensures serves { Serves (Upiu bytes.now) device.old device.new (K.written sink.old) (K.written sink.new) output.old
        output.new result }
    ensures grows { Grows (K.written sink.old) (K.written sink.new) }
    ensures cause { HasCause (K.faults sink.old) (K.faults sink.new) result }
{
    make_room(output, sink)?;
    let sent = device.receive(bytes, upiu);
    output.push_upiu(b'>', bytes);
    if let Sent::Upiu = sent {
        output.push_upiu(b'<', upiu.bytes());
    }
    Ok(())
}

/// Serves a line, whose UPIU stands at the front of the room.
fn serve<K: Sink, F: Flash>(
    device: &mut Device<F>,
    line: Line,
    buffers: &mut Buffers,
    sink: &mut K,
) -> Result<(), Failed>
    requires { room_taken line ≤ 65568 }
    ensures serves { Serves (line_said buffers.old.room.items line) device.old device.new (K.written sink.old)
        (K.written sink.new) buffers.old.output buffers.new.output result }
    ensures reader { buffers.new.reader ≡ buffers.old.reader }
    ensures grows { Grows (K.written sink.old) (K.written sink.new) }
    ensures cause { HasCause (K.faults sink.old) (K.faults sink.new) result }
{
    let Buffers {
        room,
        upiu,
        output,
        ..
    } = buffers;
    match line {
        Line::Upiu(count) => receive(device, &room[..count], upiu, output, sink),
        Line::Steps(count) => make_steps(device, count, upiu, output, sink),
        Line::Collect(count) => collect(device, count, output, sink),
        Line::Drain => drain(device, upiu, output, sink),
        Line::Reset => reset(device, output, sink),
        Line::Blank => Ok(()),
    }
}

/// Reads one line and serves it. What was gathered is written before the source is asked for more.
pub(crate) fn take_turn<S: Source, K: Sink, F: Flash>(
    device: &mut Device<F>,
    buffers: &mut Buffers,
    source: &mut S,
    sink: &mut K,
) -> Turn
    requires { IsTrue buffers.old.reader.ended → IsAtEnd (S.left source.old) }
    ensures turn { TurnIs device.old device.new
        (prepend_known buffers.old.reader.held (S.left source.old))
        (prepend_known buffers.new.reader.held (S.left source.new))
        (K.written sink.old) (K.written sink.new) buffers.old.output buffers.new.output result }
    ensures at_end { IsTrue buffers.new.reader.ended → IsAtEnd (S.left source.new) }
    // The source is asked only once all that was gathered is written.
    ensures asked { (source.new ≡ source.old) ⊎ WritesAll (K.written sink.old) (K.written sink.new) buffers.old.output }
    ensures unread { result ≡ Turn.Unread → IsWithinLine buffers.new.reader.held
        × (length buffers.new.reader.held ≤ 131200) }
    ensures source_faults { SourceFaults (S.faults source.old) (S.faults source.new) result }
    ensures sink_faults { SinkFaults (K.faults sink.old) (K.faults sink.new) result }
{
    if write_before_read(&buffers.reader, &mut buffers.output, sink).is_err() {
        return Turn::Unwritten;
    }
    let parsed = match buffers.reader.next_line(source) {
        Ok(Some(line)) => parse_line(line, &mut buffers.room),
        Ok(None) => return Turn::Ended,
        Err(LineFault::TooLong) => return Turn::Bad,
        Err(LineFault::ReadFault) => return Turn::Unread,
    };
    let Some(line) = parsed else {
        return Turn::Bad;
    };
    match serve(device, line, buffers, sink) {
        Ok(()) => Turn::Served,
        Err(Failed) => Turn::Unwritten,
    }
}
