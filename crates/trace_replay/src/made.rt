//! A drive of lines that a seed makes.
ghost use Rattle.std.specs.Prelude.{◌≡◌, ◌+◌, ◌≤◌, ◌⊎◌, ◌++◌, ⊤, [], ℕ, List, length, decimal};
ghost use Rattle.flash_pages.specs.Chip.{Page};
ghost use Rattle.flash_pages.specs.declared.chip.Geometry as declared;
ghost use Rattle.hpb_link.specs.Stands.{AtDrive};
ghost use Rattle.drive_rules.specs.Lines.{drive_begun};
ghost use Rattle.made_drive.specs.Counts.{reads_in, writes_in};
ghost use Rattle.made_drive.specs.Generator.{made_lines};
ghost use Rattle.made_drive.specs.Scan.{scanned};
ghost use Rattle.region_state.specs.declared.shape.Shape.{Shape};
ghost use Rattle.run_output.specs.Ends.{Finishes, SinkEnds};
ghost use Rattle.run_output.specs.Texts.{counts_text};
ghost use Rattle.command_words.specs.Options.{cut_shape};
ghost use Rattle.trace_replay.specs.Beginning.{IsFresh, IsServedBy, link_begun};
ghost use Rattle.trace_replay.specs.Making.{MadeIs, summary_line};
ghost use Rattle.trace_replay.specs.Run.{ProgramIs};

use crate::driving::link_of;
use crate::program::refused;
use crate::snap::is_done;
use command_words::Generated;
use drive_run::{Buffers, drive};
use flash_pages::Flash;
use hpb_device::Device;
use hpb_link::Link;
use hpb_outside::{NewFault, Sink};
use itoa::Buffer;
use made_drive::{MadeSource, Tally, made_counts};
use run_output::{Outcome, Output, Status, finish};
use std::alloc::Global;

/// The lines that are made.
const LINES: u32 = 2_000;

/// Runs a drive that the seed makes over the chip, which has to be the named one, and prints a summary.
pub(crate) fn run_gen<K: Sink, F: Flash>(
    alloc: Global,
    generated: Generated,
    sink: &mut K,
    flash: F,
) -> Outcome<F>
    ensures run { (unit : Shape) → generated.named.unit ≡ cut_shape unit
        → ProgramIs ⊤ (IsServedBy generated.named.chip unit (F.geometry flash)) (F.pages result.flash ≡ F.pages flash)
        (MadeIs unit generated.plain generated.seed (F.geometry flash) (F.pages flash) (F.pages result.flash)
        (F.faults flash) (F.faults result.flash) (K.written sink.old) (K.written sink.new))
        (K.written sink.old) (K.written sink.new) result.status }
    ensures geometry { F.geometry result.flash ≡ F.geometry flash }
    ensures reads { result.status ≡ Status.ReadFault → ⊥ }
    ensures sink_faults { SinkEnds (K.faults sink.old) (K.faults sink.new) result.status }
{
    let named = generated.named;
    if flash.geometry() != named.chip {
        return refused(sink, Status::Geometry, b"E geometry\n", flash);
    }
    let device = match Device::new(alloc, flash, named.unit, 1) {
        Ok(device) => device,
        Err((flash, NewFault::Geometry)) => {
            return refused(sink, Status::Geometry, b"E geometry\n", flash);
        }
        Err((flash, NewFault::Memory)) => {
            return Outcome {
                status: Status::Memory,
                flash,
            };
        }
    };
    match link_of(alloc, device, named.unit, generated.plain) {
        Ok(link) => make_drive(alloc, link, generated, sink),
        Err(device) => Outcome {
            status: Status::Memory,
            flash: device.into_flash(),
        },
    }
}

/// Drives two ends of which neither has anything open by the lines that the seed makes.
fn make_drive<K: Sink, F: Flash>(
    alloc: Global,
    mut link: Link<F>,
    generated: Generated,
    sink: &mut K,
) -> Outcome<F>
    requires begun { AtDrive link.device link (drive_begun link.driver) }
    requires link { link ≡ link_begun link.device generated.plain link.device.shape }
    requires units { 1 ≤ generated.named.unit.units }
    ensures run { (unit : Shape) (geometry : declared.Geometry) (pages : List Page) (faults : ℕ)
        → generated.named.unit ≡ unit → IsFresh link.device unit geometry pages faults
        → ((result.status ≡ Status.Memory) × (K.written sink.new ≡ K.written sink.old) × (F.pages result.flash ≡ pages))
        ⊎ MadeIs unit generated.plain generated.seed geometry pages (F.pages result.flash) faults
        (F.faults result.flash) (K.written sink.old) (K.written sink.new) result.status }
    ensures geometry { F.geometry result.flash ≡ link.device.store.geometry }
    ensures reads { result.status ≡ Status.ReadFault → ⊥ }
    ensures sink_faults { SinkEnds (K.faults sink.old) (K.faults sink.new) result.status }
{
    let Ok(mut buffers) = Buffers::new(alloc) else {
        return Outcome {
            status: Status::Memory,
            flash: link.into_flash(),
        };
    };
    let Ok(output) = Output::new(alloc) else {
        return Outcome {
            status: Status::Memory,
            flash: link.into_flash(),
        };
    };
    let units = generated.named.unit.units;
    let mut source = MadeSource::new(generated.seed, units, LINES);
    let mut tally = Tally::new();
    let ended = drive(
        alloc,
        &mut link,
        true,
        &mut buffers,
        &mut source,
        &mut tally,
    );
    if is_done(ended) {
        let status = summarize(&link, generated, &tally, output, sink);
        return Outcome {
            status,
            flash: link.into_flash(),
        };
    }
    Outcome {
        status: ended,
        flash: link.into_flash(),
    }
}

/// Prints how a drive went.
fn summarize<K: Sink, F: Flash>(
    link: &Link<F>,
    generated: Generated,
    tally: &Tally,
    mut output: Output,
    sink: &mut K,
) -> Status
    requires fresh { output ≡ [] }
    requires units { 1 ≤ generated.named.unit.units }
    ensures ends { Finishes (K.written sink.old) (K.written sink.new) [] (summary_line
        (reads_in (made_lines generated.named.unit.units generated.seed 2000))
        (writes_in (made_lines generated.named.unit.units generated.seed 2000))
        (scanned tally.now).good (scanned tally.now).cut ++ counts_text link.now.device.counts)
        (K.faults sink.old) (K.faults sink.new) Status.Done result }
{
    let (reads, writes) = made_counts(generated.seed, generated.named.unit.units, LINES);
    push_summary(&mut output, reads, writes, tally.good(), tally.cut());
    output.push_counts(link.counts());
    finish(&mut output, sink, Status::Done)
}

/// Adds the first line of a summary to nothing.
fn push_summary(output: &mut Output, reads: u32, writes: u32, good: u32, cut: u32)
    requires { output.old ≡ [] }
    ensures text { output.new ≡ summary_line reads writes good cut }
    ensures few { length output.new ≤ 100 }
{
    push_number(output, b"G lines=2000 reads=", reads);
    push_number(output, b" writes=", writes);
    push_number(output, b" good=", good);
    push_number(output, b" cut=", cut);
    output.push_text(b"\n");
}

/// Adds a name and a number behind it.
fn push_number(output: &mut Output, name: &[u8], number: u32)
    requires { length output.old + (length name.now + 10) ≤ 262144 }
    ensures text { output.new ≡ output.old ++ name.now ++ decimal number }
    ensures few { length output.new ≤ length output.old + length name.now + 10 }
{
    let mut buffer = Buffer::new();
    output.push_text(name);
    output.push_text(buffer.format(number).as_bytes());
}
