//! A replay whose chip is written as an image.
ghost use Rattle.std.specs.Prelude.{◌≡◌, ◌↔◌, IsTrue, ⊤};
ghost use Rattle.chip_image.specs.Image.{image_of};
ghost use Rattle.chip_image.specs.declared.version.Version.TheVariants as version;
ghost use Rattle.flash_pages.specs.Chip.{IsWithinLimits};
ghost use Rattle.region_state.specs.declared.shape.Shape.{Shape};
ghost use Rattle.command_words.specs.Options.{cut_shape};
ghost use Rattle.run_output.specs.Ends.{SinkEnds, SourceEnds};
ghost use Rattle.trace_replay.specs.Beginning.{IsServedBy};
ghost use Rattle.trace_replay.specs.Programs.{SnapServes};
ghost use Rattle.trace_replay.specs.Run.{ProgramIs, WritesImage};

use crate::program::run_replay;
use chip_image::{DumpFault, dump_image};
use command_words::Replayed;
use flash_pages::Flash;
use hpb_outside::{Sink, Source};
use run_output::{Outcome, Status};
use std::alloc::Global;

/// Replays a trace, and then writes the image of the chip.
pub(crate) fn run_snap<S: Source, K: Sink, F: Flash>(
    alloc: Global,
    replayed: Replayed,
    source: &mut S,
    sink: &mut K,
    flash: F,
) -> Outcome<F>
    ensures run { (unit : Shape) → replayed.named.unit ≡ cut_shape unit
        → ProgramIs ⊤ (IsServedBy replayed.named.chip unit (F.geometry flash))
        ((source.new ≡ source.old) × (F.pages result.flash ≡ F.pages flash))
        (SnapServes unit replayed.image (F.geometry flash) (F.pages flash) (F.pages result.flash) (F.faults flash)
        (F.faults result.flash) (S.left source.old) (S.left source.new) (K.written sink.old) (K.written sink.new))
        (K.written sink.old) (K.written sink.new) result.status }
    ensures geometry { F.geometry result.flash ≡ F.geometry flash }
    ensures source_faults { SourceEnds (S.faults source.old) (S.faults source.new) result.status }
    ensures sink_faults { SinkEnds (K.faults sink.old) (K.faults sink.new) result.status }
{
    let mut outcome = run_replay(alloc, replayed, false, source, sink, flash);
    if is_done(outcome.status) {
        outcome.status = write_image(&mut outcome.flash, sink);
    }
    outcome
}

/// Whether a run was read to its end.
pub(crate) fn is_done(status: Status) -> bool
    ensures { IsTrue result ↔ status ≡ Status.Done }
{
    matches!(status, Status::Done)
}

/// Writes the image of the chip.
fn write_image<K: Sink, F: Flash>(flash: &mut F, sink: &mut K) -> Status
    requires { IsWithinLimits (F.geometry flash.old) }
    ensures writes { WritesImage (image_of version.Two (F.geometry flash.old) (F.pages flash.old))
        (F.faults flash.old) (F.faults flash.new) (K.written sink.old) (K.written sink.new) result }
    ensures pages { F.pages flash.new ≡ F.pages flash.old }
    ensures geometry { F.geometry flash.new ≡ F.geometry flash.old }
    ensures sink_faults { SinkEnds (K.faults sink.old) (K.faults sink.new) result }
{
    match dump_image(flash, sink) {
        Ok(()) => Status::Done,
        Err(DumpFault::WriteFault) => Status::WriteFault,
        Err(DumpFault::ChipFault) => Status::ChipFault,
    }
}
