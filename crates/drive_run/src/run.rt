//! A whole drive.
ghost use Rattle.std.specs.Prelude.{◌≡◌, false, []};
ghost use Rattle.std.specs.Io.KnownBytes.{prepend_known};
ghost use Rattle.drive_rules.specs.Cuts.{CutDrain};
ghost use Rattle.drive_rules.specs.Lines.{Drive, DrainsTo, drive_begun};
ghost use Rattle.hpb_device.specs.Standing.{sizes_of};
ghost use Rattle.hpb_link.specs.Stands.{AtDrive};
ghost use Rattle.replay_standing.specs.Standing.{AreCountsOf};
ghost use Rattle.run_output.specs.Ends.{SinkEnds, SourceEnds};
ghost use Rattle.drive_run.specs.Moments.{Stands};
ghost use Rattle.drive_run.specs.Run.{DriveEnds, DriveIs};

use crate::drain::drain;
use crate::turn::{Buffers, Turn, take_turn};
use flash_pages::Flash;
use hpb_link::Link;
use hpb_outside::{Sink, Source};
use run_output::{Status, end_long, finish, make_room, refuse_line};
use std::alloc::Global;

/// The lines that a drive has at most.
const LINES: u32 = 1_000_000;

/// Runs the lines of a drive to its end, or to what ends it before. Both ends begin with nothing open. With `only`,
/// answers alone are printed, and the counts.
pub fn drive<S: Source, K: Sink, F: Flash>(
    alloc: Global,
    link: &mut Link<F>,
    only: bool,
    buffers: &mut Buffers,
    source: &mut S,
    sink: &mut K,
) -> Status
    requires begun { AtDrive link.old.device link.old (drive_begun link.old.driver) }
    requires unread { buffers.old.reader ≡ record { held = []; ended = false } }
    requires fresh { buffers.old.desk.output ≡ [] }
    ensures run { DriveIs (sizes_of link.old.device) link.old.driver only (AtDrive link.old.device link.new)
        (λ d. AreCountsOf link.old.device d.progress)
        (prepend_known buffers.old.reader.held (S.left source.old)) (S.left source.new)
        (K.written sink.old) (K.written sink.new) 1000000 result }
    ensures source_faults { SourceEnds (S.faults source.old) (S.faults source.new) result }
    ensures sink_faults { SinkEnds (K.faults sink.old) (K.faults sink.new) result }
{
    for number in 0..LINES {
        match take_turn(alloc, link, only, buffers, source, sink) {
            Turn::Served => {}
            Turn::Starved => return finish(&mut buffers.desk.output, sink, Status::Memory),
            Turn::Ended => return end_of_drive(link, only, buffers, sink),
            Turn::Unread => return Status::ReadFault,
            Turn::Unwritten => return Status::WriteFault,
            Turn::Bad => return refuse_line(&mut buffers.desk.output, sink, number + 1),
        }
    }
    match end_long(&mut buffers.reader, &mut buffers.desk.output, source, sink) {
        Status::Done => end_of_drive(link, only, buffers, sink),
        status => status,
    }
}

/// Ends a drive that was taken whole with a drain, and with what the device has counted.
fn end_of_drive<K: Sink, F: Flash>(
    link: &mut Link<F>,
    only: bool,
    buffers: &mut Buffers,
    sink: &mut K,
) -> Status
    requires { Stands link.old }
    ensures ends { DriveEnds only link.old link.new (K.written sink.old) (K.written sink.new)
        buffers.old.desk.output (K.faults sink.old) (K.faults sink.new) result }
    ensures reader { buffers.new.reader ≡ buffers.old.reader }
{
    let desk = &mut buffers.desk;
    if drain(link, only, desk, sink).is_err() || make_room(&mut desk.output, sink).is_err() {
        return Status::WriteFault;
    }
    desk.output.push_counts(link.counts());
    finish(&mut desk.output, sink, Status::Done)
}
