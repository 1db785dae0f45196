//! What the lines of a drive do.
ghost use Rattle.std.specs.Prelude.{◌≡◌, ◌≤◌, ◌<◌, ◌+◌, ◌*◌, ◌++◌, ℕ, length, map, IfOk};
ghost use Rattle.hpb_outside.specs.Faults.{HasCause};
ghost use Rattle.flat_unit.specs.Sizes.{Sizes};
ghost use Rattle.drive_rules.specs.Lines.{CollectsTo, pattern_bytes};
ghost use Rattle.drive_rules.specs.Said.{Happened};
ghost use Rattle.drive_rules.specs.Text.{said_line};
ghost use Rattle.flat_unit.specs.declared.event.Event.TheVariants.{Reset};
ghost use Rattle.hpb_driver.specs.State.{HasBytes};
ghost use Rattle.run_output.specs.Writes.{Grows};
ghost use Rattle.drive_run.specs.Moments.{Adds, Plays, Stands, cut_text, submitted_text};
ghost use Rattle.drive_run.specs.Play.{Asks, CutCollects, CutReset, Resets, Serves};

use crate::answer::push_ending;
use crate::desk::Desk;
use crate::drain::{drain, free_tags, make_steps};
use crate::exchange::exchange;
use crate::pattern::pattern;
use driver_laws::Request;
use flash_pages::Flash;
use flat_unit::Event;
use hpb_link::{Link, Submitted, Ticket};
use hpb_outside::{Failed, Sink};
use run_output::{Output, make_room, push_failed, push_moved};
use std::alloc::Global;
use trace_text::{DriveLine, Ending};

/// How far a line was served.
#[derive(Clone, Copy, Debug, PartialEq, Eq)]
pub(crate) enum Served {
    /// To its end.
    Whole,
    /// There is no memory for its request.
    NoMemory,
}

/// Makes a request under the next number. Where all tags are in use, a drain is made first.
fn make_request<K: Sink, F: Flash>(
    link: &mut Link<F>,
    request: Request,
    only: bool,
    desk: &mut Desk,
    sink: &mut K,
) -> Result<Served, Failed>
    requires stands { Stands link.old }
    requires bytes { HasBytes request }
    requires few { link.old.count < 1000000 }
    ensures asks { Asks request only link.old link.new (K.written sink.old) (K.written sink.new)
        desk.old.output desk.new.output result }
    ensures grows { Grows (K.written sink.old) (K.written sink.new) }
    ensures cause { HasCause (K.faults sink.old) (K.faults sink.new) result }
{
    free_tags(link, only, desk, sink)?;
    let submitted = link.submit(request);
    match submitted {
        Submitted::Memory => return Ok(Served::NoMemory),
        _ => push_submitted(submitted, link.count(), &mut desk.output, sink)?,
    }
    exchange(link, only, desk, sink)?;
    Ok(Served::Whole)
}

/// Adds the line of a request that is out of range.
fn push_submitted<K: Sink>(
    submitted: Submitted,
    number: u32,
    output: &mut Output,
    sink: &mut K,
) -> Result<(), Failed>
    ensures text { Adds (submitted_text submitted number) (K.written sink.old) (K.written sink.new) output.old
        output.new result }
    ensures grows { Grows (K.written sink.old) (K.written sink.new) }
    ensures cause { HasCause (K.faults sink.old) (K.faults sink.new) result }
{
    match submitted {
        Submitted::Range => push_ending(number, Ending::Range, output, sink),
        _ => Ok(()),
    }
}

/// Makes a request to write blocks with the bytes that the seed makes.
fn make_write<K: Sink, F: Flash>(
    alloc: Global,
    link: &mut Link<F>,
    lba: u32,
    n: u32,
    seed: u32,
    only: bool,
    desk: &mut Desk,
    sink: &mut K,
) -> Result<Served, Failed>
    requires stands { Stands link.old }
    requires few { link.old.count < 1000000 }
    ensures serves { Serves (DriveLine.Write lba n seed) only link.old link.new (K.written sink.old)
        (K.written sink.new) desk.old.output desk.new.output result }
    ensures grows { Grows (K.written sink.old) (K.written sink.new) }
    ensures cause { HasCause (K.faults sink.old) (K.faults sink.new) result }
{
    let lun = link.lun();
    let Ok(bytes) = pattern(alloc, lba, n, seed) else {
        free_tags(link, only, desk, sink)?;
        return Ok(Served::NoMemory);
    };
    let whole = Request::Write { lun, lba, n, bytes };
    make_request(link, whole, only, desk, sink)
}

/// Makes so many calls of the collector.
fn collect<K: Sink, F: Flash>(
    link: &mut Link<F>,
    count: u32,
    only: bool,
    output: &mut Output,
    sink: &mut K,
) -> Result<(), Failed>
    ensures plays { Plays (λ s. CollectsTo s count) (CutCollects count) only link.old link.new
        (K.written sink.old) (K.written sink.new) output.old output.new result }
    ensures grows { Grows (K.written sink.old) (K.written sink.new) }
    ensures cause { HasCause (K.faults sink.old) (K.faults sink.new) result }
{
    for _call in 0..count {
        make_room(output, sink)?;
        let stepped = link.collect();
        if !only {
            push_failed(stepped.failed, output);
            push_moved(stepped.moved, output);
        }
    }
    Ok(())
}

/// Resets the device, and then the driver, which cuts the requests that are open.
fn reset<K: Sink, F: Flash>(
    link: &mut Link<F>,
    only: bool,
    desk: &mut Desk,
    sink: &mut K,
) -> Result<(), Failed>
    ensures plays { Plays Resets CutReset only link.old link.new (K.written sink.old) (K.written sink.new)
        desk.old.output desk.new.output result }
    ensures grows { Grows (K.written sink.old) (K.written sink.new) }
    ensures cause { HasCause (K.faults sink.old) (K.faults sink.new) result }
{
    make_room(&mut desk.output, sink)?;
    link.reset(&mut desk.cut);
    push_reset(only, &mut desk.output);
    push_cut(&desk.cut, &mut desk.output, sink)
}

/// Adds the line of a reset, where not answers alone are printed.
fn push_reset(only: bool, output: &mut Output)
    requires room { length output.old + 139520 ≤ 262144 }
    ensures text { output.new ≡ output.old ++ said_line only (Happened Reset) }
{
    if !only {
        output.push_event(&Event::Reset);
    }
}

/// Adds the lines of the requests that were cut.
fn push_cut<K: Sink>(tickets: &[Ticket], output: &mut Output, sink: &mut K) -> Result<(), Failed>
    ensures text { Adds (cut_text tickets.now) (K.written sink.old) (K.written sink.new) output.old output.new result }
    ensures grows { Grows (K.written sink.old) (K.written sink.new) }
    ensures cause { HasCause (K.faults sink.old) (K.faults sink.new) result }
{
    for place in 0..tickets.len() {
        push_ending(tickets[place].number, Ending::Cut, output, sink)?;
    }
    Ok(())
}

/// Serves a line.
pub(crate) fn serve<K: Sink, F: Flash>(
    alloc: Global,
    link: &mut Link<F>,
    line: DriveLine,
    only: bool,
    desk: &mut Desk,
    sink: &mut K,
) -> Result<Served, Failed>
    requires stands { Stands link.old }
    requires few { link.old.count < 1000000 }
    ensures serves { Serves line only link.old link.new (K.written sink.old) (K.written sink.new)
        desk.old.output desk.new.output result }
    ensures grows { Grows (K.written sink.old) (K.written sink.new) }
    ensures cause { HasCause (K.faults sink.old) (K.faults sink.new) result }
{
    match line {
        DriveLine::Read { lba, n } => {
            let lun = link.lun();
            return make_request(link, Request::Read { lun, lba, n }, only, desk, sink);
        }
        DriveLine::Write { lba, n, seed } => {
            return make_write(alloc, link, lba, n, seed, only, desk, sink);
        }
        DriveLine::Steps(count) => make_steps(link, count, only, desk, sink)?,
        DriveLine::Collect(count) => collect(link, count, only, &mut desk.output, sink)?,
        DriveLine::Drain => drain(link, only, desk, sink)?,
        DriveLine::Reset => reset(link, only, desk, sink)?,
        DriveLine::Lun(lun) => link.choose(lun),
        DriveLine::Blank => {}
    }
    Ok(Served::Whole)
}
