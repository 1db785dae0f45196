//! Text that is gathered and written, and how a run ends.
use super::*;
use flash_pages::ChipOp;
use flat_unit::Event;
use hpb_device::{Counts, Stepped};
use hpb_outside::{Failed, MemSink, MemSource, write_whole};
use std::alloc::Global;
use std::test::Fail;
use trace_text::{Ending, LineReader};
use upiu_wire::UpiuBuf;

/// A sink with much room. The write with this number fails, counted from 1.
fn sink_of(alloc: Global, write: u64) -> Result<MemSink, Fail> {
    let fail_at = vec![in alloc; write]?;
    Ok(MemSink::new(alloc, 140_000, fail_at)?)
}

/// A source of this text. The read with this number fails, counted from 1.
fn source_of(alloc: Global, text: &str, read: u64) -> Result<MemSource, Fail> {
    let bytes = text.as_bytes().to_vec(alloc)?;
    let fail_at = vec![in alloc; read]?;
    Ok(MemSource::new(bytes, Vec::new(alloc), fail_at))
}

#[test]
fn lines_that_are_gathered(rt: HostRuntime) -> Result<(), Fail> {
    let bytes = [0x00, 0xAB, 0x10].as_slice();
    let mut sink = sink_of(rt.alloc(), 0)?;
    let mut output = Output::new(rt.alloc())?;
    output.push_upiu(b'>', bytes);
    output.flush(&mut sink)?;
    output.push_event(&Event::Reset);
    output.flush(&mut sink)?;
    output.push_ending(9, Ending::Status(0x28));
    output.flush(&mut sink)?;
    output.push_block(70, bytes);
    output.flush(&mut sink)?;
    let mut room = vec![in rt.alloc(); 0; 65_600]?;
    assert!(rt; output.push_shown(b"M 5", &mut room));
    output.flush(&mut sink)?;
    assert!(rt; !output.push_shown(b"> 0g", &mut room));
    output.flush(&mut sink)?;
    output.push_text(b"E usage\n");
    output.push_counts(Counts {
        steps: 12,
        entries: 7,
        ..Counts::ZERO
    });
    output.flush(&mut sink)?;
    let text = "> 00ab10\nR\nA 9 status 28\nB 70 00ab10\nM 5\nE usage\n\
        T steps=12 lookups=0 entries=7 moved=0 erased=0\n";
    assert_eq!(rt; sink.bytes(), text.as_bytes());
    Ok(())
}

/// Writes the lines of a step, which has a NOP IN in its room.
fn step_of(alloc: Global, stepped: Stepped) -> Result<MemSink, Fail> {
    let mut upiu = UpiuBuf::new();
    upiu.put_nop_in(5);
    let mut sink = sink_of(alloc, 0)?;
    let mut output = Output::new(alloc)?;
    push_step(stepped, &upiu, &mut output);
    output.flush(&mut sink)?;
    Ok(sink)
}

#[test]
fn lines_of_steps(rt: HostRuntime) -> Result<(), Fail> {
    for (failed, moved, sent, text) in [
        (None, None, false, ""),
        (
            Some(ChipOp::Program),
            Some((0, 12)),
            false,
            "! program\nM 12\n",
        ),
        (
            Some(ChipOp::Erase),
            Some((3, 12)),
            true,
            "! erase\nM 3:12\n\
            < 2000000500000000000000000000000000000000000000000000000000000000\n",
        ),
    ] {
        let stepped = Stepped {
            idle: false,
            failed,
            moved,
            sent,
        };
        let sink = step_of(rt.alloc(), stepped)?;
        assert_eq!(rt; sink.bytes(), text.as_bytes());
    }
    Ok(())
}

#[test]
fn text_is_written_in_time(rt: HostRuntime) -> Result<(), Fail> {
    // The next line is held, or the source is asked for it.
    for (text, written) in [("D\nR\n", ""), ("D\nR", "H on\n")] {
        let mut source = source_of(rt.alloc(), text, 0)?;
        let mut sink = sink_of(rt.alloc(), 0)?;
        let mut reader = LineReader::new(rt.alloc())?;
        let mut output = Output::new(rt.alloc())?;
        output.push_text(b"H on\n");
        assert!(rt; reader.next_line(&mut source)?.is_some());
        write_before_read(&reader, &mut output, &mut sink)?;
        assert_eq!(rt; sink.bytes(), written.as_bytes());
    }
    // There is room for one more call, or there isn't.
    for (count, written) in [(122_624, 0), (122_625, 122_625)] {
        let mut sink = sink_of(rt.alloc(), 0)?;
        let mut output = Output::new(rt.alloc())?;
        let text = vec![in rt.alloc(); b'#'; count]?;
        output.push_text(&text);
        make_room(&mut output, &mut sink)?;
        assert_eq!(rt; sink.bytes().len(), written);
    }
    Ok(())
}

#[test]
fn text_that_finds_no_room(rt: HostRuntime) -> Result<(), Fail> {
    let mut sink = MemSink::new(rt.alloc(), 3, Vec::new(rt.alloc()))?;
    assert_eq!(rt; write_whole(&mut sink, b"E usage\n"), Err(Failed));
    assert_eq!(rt; sink.bytes(), b"E u".as_slice());
    Ok(())
}

#[test]
fn ends_of_runs(rt: HostRuntime) -> Result<(), Fail> {
    for (write, status, text) in [
        (0, Status::BadLine(7), "R\nE line 7\n"),
        (1, Status::WriteFault, ""),
    ] {
        let mut sink = sink_of(rt.alloc(), write)?;
        let mut output = Output::new(rt.alloc())?;
        output.push_text(b"R\n");
        assert_eq!(rt; refuse_line(&mut output, &mut sink, 7), status);
        assert_eq!(rt; sink.bytes(), text.as_bytes());
    }
    for (text, read, write, status, written) in [
        ("", 0, 0, Status::Done, "R\n"),
        ("\n", 0, 0, Status::LongTrace, "R\nE long\n"),
        ("\n", 1, 0, Status::ReadFault, "R\n"),
        ("\n", 0, 1, Status::WriteFault, ""),
        ("\n", 0, 2, Status::WriteFault, "R\n"),
    ] {
        let mut source = source_of(rt.alloc(), text, read)?;
        let mut sink = sink_of(rt.alloc(), write)?;
        let mut reader = LineReader::new(rt.alloc())?;
        let mut output = Output::new(rt.alloc())?;
        output.push_text(b"R\n");
        let ended = end_long(&mut reader, &mut output, &mut source, &mut sink);
        assert_eq!(rt; ended, status);
        assert_eq!(rt; sink.bytes(), written.as_bytes());
    }
    Ok(())
}

#[test]
fn numbers_of_statuses(rt: HostRuntime) {
    for (status, number) in [
        (Status::Done, 0),
        (Status::BadLine(7), 1),
        (Status::Usage, 2),
        (Status::ReadFault, 3),
        (Status::WriteFault, 4),
        (Status::Memory, 5),
        (Status::Geometry, 6),
        (Status::LongTrace, 7),
        (Status::ChipFault, 8),
        (Status::BadImage(3), 9),
        (Status::BadCapture(32, 2), 10),
    ] {
        assert_eq!(rt; status.number(), number);
    }
}
