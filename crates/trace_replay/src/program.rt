ghost use Rattle.std.specs.Prelude.{false, true, ◌≡◌, ◌≤◌, ◌⊎◌, ⊤, ℕ, List, [], None, map, string_bytes};
ghost use Rattle.std.specs.Io.KnownBytes.{Appends, prepend_known};
ghost use Rattle.flash_pages.specs.Chip.{IsWithinLimits, Page};
ghost use Rattle.flash_pages.specs.declared.chip.Geometry.{Geometry};
ghost use Rattle.flat_unit.specs.Reads.{ReadsAllowed, ReadsEndGood};
ghost use Rattle.region_state.specs.declared.shape.Shape.{Shape};
ghost use Rattle.hpb_device.specs.Begun.{IsBegun};
ghost use Rattle.hpb_device.specs.Counted.{CountsStand};
ghost use Rattle.hpb_device.specs.Counts.{no_counts};
ghost use Rattle.hpb_device.specs.Lists.{ListsStand};
ghost use Rattle.hpb_device.specs.Regions.{HintsStand};
ghost use Rattle.hpb_device.specs.Standing.{sizes_of};
ghost use Rattle.hpb_outside.specs.Writes.{AppendsFront};
ghost use Rattle.replay_standing.specs.Standing.{AreCountsOf, Standing};
ghost use Rattle.replay_standing.specs.Transcript.{IsChipOf, SendsUnready, sizes_on, unit_on};
ghost use Rattle.driver_caches.specs.Machine.{machine_begun};
ghost use Rattle.command_words.specs.Options.{cut_shape};
ghost use Rattle.command_words.specs.Words.{IsDrive, IsGen, IsReplay, IsShow, IsSnap, has_image, is_plain};
ghost use Rattle.command_words.specs.Words.{named_unit, only_answers};
ghost use Rattle.run_output.specs.Ends.{CountsFault, Finishes, SinkEnds, SourceEnds};
ghost use Rattle.run_output.specs.Texts.{counts_text};
ghost use Rattle.trace_replay.specs.Beginning.{IsFresh, IsServedBy};
ghost use Rattle.trace_replay.specs.ByText.{is_shown_line, is_trace_line};
ghost use Rattle.trace_replay.specs.FlatAnswers.{AnswersFlat};
ghost use Rattle.trace_replay.specs.Headline.{DrainsAll, EndsByText, Tells};
ghost use Rattle.trace_replay.specs.Programs.{DriveProgramIs, GenProgramIs, IsPlanned, ReplayProgramIs, ReplayServes};
ghost use Rattle.trace_replay.specs.Programs.{SnapProgramIs};
ghost use Rattle.trace_replay.specs.Run.{ProgramIs, RunIs};
ghost use Rattle.trace_replay.specs.Serving.{Found, ServesIfAny};
ghost use Rattle.trace_replay.specs.Showing.{ShowProgramIs};

use crate::driving::run_drive;
use crate::image::{load_first, refused_image};
use crate::made::run_gen;
use crate::replay::{Buffers, take_turn};
use crate::show::show;
use crate::snap::run_snap;
use command_words::{Command, Replayed, WordsFault, command_of};
use flash_pages::Flash;
use hpb_device::Device;
use hpb_outside::{Failed, NewFault, Sink, Source, write_whole};
use run_output::{Outcome, Output, Status, Turn, end_long, finish, make_room, refuse_line};
use std::alloc::Global;

/// The lines that a trace has at most.
pub(crate) const LINES: u32 = 1_000_000;

/// Runs a command over a source, and prints to a sink. The words are those after the program's name.
///
/// `replay` replays a trace against a device with one logical unit over the chip, whatever it holds, and prints the
/// transcript and what was counted. `snap` does the same, and then writes the image of the chip. `drive` reads
/// requests, steps and resets in place of a trace: a driver of its own makes UPIUs of them, and the ends of the
/// requests are printed too. `gen` makes the lines of a drive from a seed, and prints a summary alone. The options
/// name the chip and the unit, and the chip has to be the named one. With `--image` the source begins with an image,
/// which is loaded onto the chip before the first line. `show` prints one line for each line of a transcript, and
/// leaves the chip alone.
pub fn run<S: Source, K: Sink, F: Flash>(
    alloc: Global,
    words: &[String],
    source: &mut S,
    sink: &mut K,
    flash: F,
) -> Outcome<F>
    // What was read and written, why the run ended, and what is known of the events and of the chip that is handed
    // back.
    ensures run { ¬ IsShow (map string_bytes words.now) → ¬ IsSnap (map string_bytes words.now)
        → ¬ IsDrive (map string_bytes words.now) → ¬ IsGen (map string_bytes words.now)
        → ReplayProgramIs (map string_bytes words.now) (F.geometry flash) (F.pages flash) (F.pages result.flash)
        (F.faults flash) (F.faults result.flash) ((source.new ≡ source.old) × (F.pages result.flash ≡ F.pages flash))
        (S.left source.old) (S.left source.new) (K.written sink.old) (K.written sink.new) result.status }
    // The same, and the image of the chip that is handed back.
    ensures snap { IsSnap (map string_bytes words.now)
        → SnapProgramIs (map string_bytes words.now) (F.geometry flash) (F.pages flash) (F.pages result.flash)
        (F.faults flash) (F.faults result.flash) ((source.new ≡ source.old) × (F.pages result.flash ≡ F.pages flash))
        (S.left source.old) (S.left source.new) (K.written sink.old) (K.written sink.new) result.status }
    // The same of a drive, with all that it said.
    ensures drive { IsDrive (map string_bytes words.now)
        → DriveProgramIs (map string_bytes words.now) (F.geometry flash) (F.pages flash) (F.pages result.flash)
        (F.faults flash) (F.faults result.flash) ((source.new ≡ source.old) × (F.pages result.flash ≡ F.pages flash))
        (S.left source.old) (S.left source.new) (K.written sink.old) (K.written sink.new) result.status }
    // What is printed of a drive that a seed makes. Nothing is read.
    ensures generated { IsGen (map string_bytes words.now)
        → GenProgramIs (map string_bytes words.now) (F.geometry flash) (F.pages flash) (F.pages result.flash)
        (F.faults flash) (F.faults result.flash) (F.pages result.flash ≡ F.pages flash)
        (K.written sink.old) (K.written sink.new) result.status }
    ensures unread { IsGen (map string_bytes words.now) → source.new ≡ source.old }
    // What is shown of each line, and why the run ended.
    ensures show { IsShow (map string_bytes words.now) → ShowProgramIs
        (S.left source.old) (S.left source.new) (K.written sink.old) (K.written sink.new) 1000000 result.status }
    ensures untouched { IsShow (map string_bytes words.now) → result.flash ≡ flash }
    ensures geometry { F.geometry result.flash ≡ F.geometry flash }
    ensures source_faults { SourceEnds (S.faults source.old) (S.faults source.new) result.status }
    ensures sink_faults { SinkEnds (K.faults sink.old) (K.faults sink.new) result.status }
    // The headline: each block that a read carries was allowed just before it, and over a sound chip each RESPONSE that
    // ends a read is GOOD or stands directly behind a read of the chip that failed. With `--image` the chip is the one
    // that the image left.
    ensures reads_allowed { IsPlanned (map string_bytes words.now) (F.geometry flash)
        → ServesIfAny (has_image (map string_bytes words.now)) true (F.geometry flash) (F.pages flash)
        (F.pages result.flash) (S.left source.old) (S.left source.new) (K.written sink.old) (K.written sink.new)
        (λ chip _ status. IsChipOf (named_unit (map string_bytes words.now)) (F.geometry flash) chip
        → Tells status (K.written sink.old) (K.written sink.new)
        (ReadsAllowed (sizes_on (named_unit (map string_bytes words.now)) (F.geometry flash))
        (unit_on (named_unit (map string_bytes words.now)) chip))) result.status }
    ensures reads_good { IsPlanned (map string_bytes words.now) (F.geometry flash)
        → ServesIfAny (has_image (map string_bytes words.now)) true (F.geometry flash) (F.pages flash)
        (F.pages result.flash) (S.left source.old) (S.left source.new) (K.written sink.old) (K.written sink.new)
        (λ chip _ status. IsChipOf (named_unit (map string_bytes words.now)) (F.geometry flash) chip
        → Tells status (K.written sink.old) (K.written sink.new)
        (ReadsEndGood (sizes_on (named_unit (map string_bytes words.now)) (F.geometry flash)))) result.status }
    // Over any other chip each UPIU of a step tells that the chip is none of the device's, or could not be read.
    ensures unready { IsPlanned (map string_bytes words.now) (F.geometry flash)
        → ServesIfAny (has_image (map string_bytes words.now)) true (F.geometry flash) (F.pages flash)
        (F.pages result.flash) (S.left source.old) (S.left source.new) (K.written sink.old) (K.written sink.new)
        (λ chip _ status. ¬ IsChipOf (named_unit (map string_bytes words.now)) (F.geometry flash) chip
        → Tells status (K.written sink.old) (K.written sink.new)
        (SendsUnready (sizes_on (named_unit (map string_bytes words.now)) (F.geometry flash)))) result.status }
    // After a `D` line no read is kept, but behind a task that waits for data.
    ensures drained { IsReplay (map string_bytes words.now) → result.status ≡ Status.Done
        → Found (has_image (map string_bytes words.now)) (F.geometry flash) (F.pages flash) (S.left source.old)
        (λ _ left. DrainsAll (sizes_on (named_unit (map string_bytes words.now)) (F.geometry flash))
        left (S.left source.new) (K.written sink.old) (K.written sink.new)) }
    // A drive over a sound chip that was read to its end: where each answer is GOOD, the blocks of each read are those
    // of a plain list of blocks to which the lines are applied one after another, with HPB and without; and where no
    // call of the chip failed, each request is answered GOOD, is cut by a reset, or is a write that finds no sequence
    // number left.
    ensures flat_answers { IsDrive (map string_bytes words.now) → result.status ≡ Status.Done
        → Found (has_image (map string_bytes words.now)) (F.geometry flash) (F.pages flash) (S.left source.old)
        (λ chip left. IsChipOf (named_unit (map string_bytes words.now)) (F.geometry flash) chip
        → AnswersFlat (sizes_on (named_unit (map string_bytes words.now)) (F.geometry flash))
        (unit_on (named_unit (map string_bytes words.now)) chip)
        (machine_begun (is_plain (map string_bytes words.now)) (named_unit (map string_bytes words.now)) 1)
        (only_answers (map string_bytes words.now))
        left (S.left source.new) (K.written sink.old) (K.written sink.new)) }
    // Where no call of the source or the sink failed, the status is a function of the text alone, which follows the
    // image where there is one.
    ensures by_text { IsPlanned (map string_bytes words.now) (F.geometry flash)
        → ServesIfAny (has_image (map string_bytes words.now)) true (F.geometry flash) (F.pages flash)
        (F.pages result.flash) (S.left source.old) (S.left source.new) (K.written sink.old) (K.written sink.new)
        (λ _ left. EndsByText is_trace_line left (S.faults source.old) (S.faults source.new) (K.faults sink.old)
        (K.faults sink.new)) result.status }
    ensures shown_by_text { IsShow (map string_bytes words.now)
        → EndsByText is_shown_line (S.left source.old) (S.faults source.old) (S.faults source.new) (K.faults sink.old)
        (K.faults sink.new) result.status }
{
    run_command(alloc, words, source, sink, flash)
}

/// Runs the command that the words name.
fn run_command<S: Source, K: Sink, F: Flash>(
    alloc: Global,
    words: &[String],
    source: &mut S,
    sink: &mut K,
    flash: F,
) -> Outcome<F>
    // What was read and written, why the run ended, and what is known of the events and of the chip that is handed
    // back.
    ensures run { ¬ IsShow (map string_bytes words.now) → ¬ IsSnap (map string_bytes words.now)
        → ¬ IsDrive (map string_bytes words.now) → ¬ IsGen (map string_bytes words.now)
        → ReplayProgramIs (map string_bytes words.now) (F.geometry flash) (F.pages flash) (F.pages result.flash)
        (F.faults flash) (F.faults result.flash) ((source.new ≡ source.old) × (F.pages result.flash ≡ F.pages flash))
        (S.left source.old) (S.left source.new) (K.written sink.old) (K.written sink.new) result.status }
    // The same, and the image of the chip that is handed back.
    ensures snap { IsSnap (map string_bytes words.now)
        → SnapProgramIs (map string_bytes words.now) (F.geometry flash) (F.pages flash) (F.pages result.flash)
        (F.faults flash) (F.faults result.flash) ((source.new ≡ source.old) × (F.pages result.flash ≡ F.pages flash))
        (S.left source.old) (S.left source.new) (K.written sink.old) (K.written sink.new) result.status }
    // The same of a drive, with all that it said.
    ensures drive { IsDrive (map string_bytes words.now)
        → DriveProgramIs (map string_bytes words.now) (F.geometry flash) (F.pages flash) (F.pages result.flash)
        (F.faults flash) (F.faults result.flash) ((source.new ≡ source.old) × (F.pages result.flash ≡ F.pages flash))
        (S.left source.old) (S.left source.new) (K.written sink.old) (K.written sink.new) result.status }
    // What is printed of a drive that a seed makes. Nothing is read.
    ensures generated { IsGen (map string_bytes words.now)
        → GenProgramIs (map string_bytes words.now) (F.geometry flash) (F.pages flash) (F.pages result.flash)
        (F.faults flash) (F.faults result.flash) (F.pages result.flash ≡ F.pages flash)
        (K.written sink.old) (K.written sink.new) result.status }
    ensures unread { IsGen (map string_bytes words.now) → source.new ≡ source.old }
    // What is shown of each line, and why the run ended.
    ensures show { IsShow (map string_bytes words.now) → ShowProgramIs
        (S.left source.old) (S.left source.new) (K.written sink.old) (K.written sink.new) 1000000 result.status }
    ensures untouched { IsShow (map string_bytes words.now) → result.flash ≡ flash }
    ensures geometry { F.geometry result.flash ≡ F.geometry flash }
    ensures source_faults { SourceEnds (S.faults source.old) (S.faults source.new) result.status }
    ensures sink_faults { SinkEnds (K.faults sink.old) (K.faults sink.new) result.status }
{
    match command_of(alloc, words) {
        Ok(Command::Replay(replayed)) => run_replay(alloc, replayed, true, source, sink, flash),
        Ok(Command::Snap(replayed)) => run_snap(alloc, replayed, source, sink, flash),
        Ok(Command::Drive(driven)) => run_drive(alloc, driven, source, sink, flash),
        Ok(Command::Gen(generated)) => run_gen(alloc, generated, sink, flash),
        Ok(Command::Show) => {
            let status = run_show(alloc, source, sink);
            Outcome { status, flash }
        }
        Err(WordsFault::Usage) => refused(sink, Status::Usage, b"E usage\n", flash),
        Err(WordsFault::Memory) => {
            let status = Status::Memory;
            Outcome { status, flash }
        }
    }
}

/// Replays a trace against a device over the chip, which has to be the named one. That the chip failed while an image
/// was loaded is told in the text only where `tells_chip` is set.
pub(crate) fn run_replay<S: Source, K: Sink, F: Flash>(
    alloc: Global,
    replayed: Replayed,
    tells_chip: bool,
    source: &mut S,
    sink: &mut K,
    flash: F,
) -> Outcome<F>
    ensures run { (unit : Shape) → replayed.named.unit ≡ cut_shape unit
        → ProgramIs ⊤ (IsServedBy replayed.named.chip unit (F.geometry flash))
        ((source.new ≡ source.old) × (F.pages result.flash ≡ F.pages flash))
        (ReplayServes unit replayed.image tells_chip (F.geometry flash) (F.pages flash) (F.pages result.flash)
        (F.faults flash) (F.faults result.flash) (S.left source.old) (S.left source.new) (K.written sink.old)
        (K.written sink.new)) (K.written sink.old) (K.written sink.new) result.status }
    ensures limits { result.status ≡ Status.Done → IsWithinLimits (F.geometry flash) }
    ensures geometry { F.geometry result.flash ≡ F.geometry flash }
    ensures source_faults { SourceEnds (S.faults source.old) (S.faults source.new) result.status }
    ensures sink_faults { SinkEnds (K.faults sink.old) (K.faults sink.new) result.status }
{
    let Replayed { named, image } = replayed;
    if flash.geometry() != named.chip {
        return refused(sink, Status::Geometry, b"E geometry\n", flash);
    }
    let device = match Device::new(alloc, flash, named.unit, 1) {
        Ok(device) => device,
        Err((flash, NewFault::Geometry)) => {
            return refused(sink, Status::Geometry, b"E geometry\n", flash);
        }
        Err((flash, NewFault::Memory)) => {
            return Outcome {
                status: Status::Memory,
                flash,
            };
        }
    };
    let Ok(buffers) = Buffers::new(alloc) else {
        return Outcome {
            status: Status::Memory,
            flash: device.into_flash(),
        };
    };
    replay_over(device, buffers, image, tells_chip, source, sink)
}

/// Replays a trace against a device, behind an image where one stands before the lines.
fn replay_over<S: Source, K: Sink, F: Flash>(
    mut device: Device<F>,
    mut buffers: Buffers,
    imaged: bool,
    tells_chip: bool,
    source: &mut S,
    sink: &mut K,
) -> Outcome<F>
    requires begun { IsBegun device }
    requires some_page { 1 ≤ device.store.geometry.pages }
    requires unread { buffers.reader ≡ record { held = []; ended = false } }
    requires fresh { buffers.output ≡ [] }
    ensures run { (unit : Shape) (geometry : Geometry) (pages : List Page) (faults : ℕ)
        → IsFresh device unit geometry pages faults
        → ReplayServes unit imaged tells_chip geometry pages (F.pages result.flash) faults (F.faults result.flash)
        (S.left source.old) (S.left source.new) (K.written sink.old) (K.written sink.new) result.status }
    ensures geometry { F.geometry result.flash ≡ device.store.geometry }
    ensures source_faults { SourceEnds (S.faults source.old) (S.faults source.new) result.status }
    ensures sink_faults { SinkEnds (K.faults sink.old) (K.faults sink.new) result.status }
{
    match load_first(&mut device, imaged, source) {
        Ok(()) => {
            let status = replay(&mut device, &mut buffers, source, sink);
            Outcome {
                status,
                flash: device.into_flash(),
            }
        }
        Err(fault) => refused_image(fault, tells_chip, sink, device.into_flash()),
    }
}

/// Shows the lines of a text.
fn run_show<S: Source, K: Sink>(alloc: Global, source: &mut S, sink: &mut K) -> Status
    ensures show { ShowProgramIs
        (S.left source.old) (S.left source.new) (K.written sink.old) (K.written sink.new) 1000000 result }
    ensures source_faults { SourceEnds (S.faults source.old) (S.faults source.new) result }
    ensures sink_faults { SinkEnds (K.faults sink.old) (K.faults sink.new) result }
{
    let Ok(mut buffers) = Buffers::new(alloc) else {
        return Status::Memory;
    };
    show(&mut buffers, source, sink)
}

/// The outcome where no line is read.
pub(crate) fn refused<K: Sink, F: Flash>(
    sink: &mut K,
    status: Status,
    text: &[u8],
    flash: F,
) -> Outcome<F>
    ensures refused { ((result.status ≡ status) × Appends (K.written sink.old) (K.written sink.new) text.now
        × (K.faults sink.new ≡ K.faults sink.old))
        ⊎ ((result.status ≡ Status.WriteFault) × AppendsFront (K.written sink.old) (K.written sink.new) text.now
        × CountsFault (K.faults sink.old) (K.faults sink.new)) }
    ensures flash { result.flash ≡ flash }
{
    match write_whole(sink, text) {
        Ok(()) => Outcome { status, flash },
        Err(Failed) => Outcome {
            status: Status::WriteFault,
            flash,
        },
    }
}

/// Replays the lines of a trace to its end, or to what ends it before.
fn replay<S: Source, K: Sink, F: Flash>(
    device: &mut Device<F>,
    buffers: &mut Buffers,
    source: &mut S,
    sink: &mut K,
) -> Status
    requires begun { device.old.tasks ≡ [] }
    requires uncounted { device.old.counts ≡ no_counts }
    requires hints { HintsStand device.old [] }
    requires fetched { ListsStand device.old [] }
    requires counted { CountsStand device.old [] }
    requires scanned { device.old.store.scanned ≡ 0 }
    requires some_page { 1 ≤ device.old.store.geometry.pages }
    requires unread { buffers.old.reader ≡ record { held = []; ended = false } }
    requires fresh { buffers.old.output ≡ [] }
    ensures run { RunIs (sizes_of device.old) (Standing device.old device.new) (AreCountsOf device.old)
        (prepend_known buffers.old.reader.held (S.left source.old)) (S.left source.new)
        (K.written sink.old) (K.written sink.new) 1000000 result }
    ensures source_faults { SourceEnds (S.faults source.old) (S.faults source.new) result }
    ensures sink_faults { SinkEnds (K.faults sink.old) (K.faults sink.new) result }
{
    for number in 0..LINES {
        match take_turn(device, buffers, source, sink) {
            Turn::Served => {}
            Turn::Ended => return end_of_trace(device, &mut buffers.output, sink),
            Turn::Unread => return Status::ReadFault,
            Turn::Unwritten => return Status::WriteFault,
            Turn::Bad => return refuse_line(&mut buffers.output, sink, number + 1),
        }
    }
    match end_long(&mut buffers.reader, &mut buffers.output, source, sink) {
        Status::Done => end_of_trace(device, &mut buffers.output, sink),
        status => status,
    }
}

/// Ends a trace that was taken whole with what the device has counted.
fn end_of_trace<K: Sink, F: Flash>(device: &Device<F>, output: &mut Output, sink: &mut K) -> Status
    ensures ends { Finishes (K.written sink.old) (K.written sink.new) output.old (counts_text device.now.counts)
        (K.faults sink.old) (K.faults sink.new)
        Status.Done result }
{
    if make_room(output, sink).is_err() {
        return Status::WriteFault;
    }
    output.push_counts(device.counts());
    finish(output, sink, Status::Done)
}
