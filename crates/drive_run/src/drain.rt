//! Steps of the device, and drains.
ghost use Rattle.std.specs.Prelude.{◌≡◌, ◌<◌, length, OnOk};
ghost use Rattle.hpb_outside.specs.Faults.{HasCause};
ghost use Rattle.drive_rules.specs.Cuts.{CutDrain, CutPass, CutSteps};
ghost use Rattle.drive_rules.specs.Lines.{DrainsTo, DriveSteps, FreesTags, Passes};
ghost use Rattle.run_output.specs.Writes.{Grows};
ghost use Rattle.drive_run.specs.Moments.{Plays, Stands};

use crate::desk::Desk;
use crate::exchange::{exchange, make_step};
use flash_pages::Flash;
use hpb_link::Link;
use hpb_outside::{Failed, Sink};

/// The commands that are open at most.
const TAGS: u32 = 32;

/// Makes so many steps of the device, each with an exchange behind it.
pub(crate) fn make_steps<K: Sink, F: Flash>(
    link: &mut Link<F>,
    count: u32,
    only: bool,
    desk: &mut Desk,
    sink: &mut K,
) -> Result<(), Failed>
    ensures plays { Plays (λ s. DriveSteps s count) (λ s. CutSteps s count) only link.old link.new
        (K.written sink.old) (K.written sink.new) desk.old.output desk.new.output result }
    ensures grows { Grows (K.written sink.old) (K.written sink.new) }
    ensures cause { HasCause (K.faults sink.old) (K.faults sink.new) result }
{
    for _step in 0..count {
        make_step(link, only, desk, sink)?;
    }
    Ok(())
}

/// A pass of a drain: an exchange, and then steps, while the driver is held, until no tag is in use.
fn pass<K: Sink, F: Flash>(
    link: &mut Link<F>,
    only: bool,
    desk: &mut Desk,
    sink: &mut K,
) -> Result<(), Failed>
    requires { Stands link.old }
    ensures plays { Plays Passes CutPass only link.old link.new (K.written sink.old) (K.written sink.new)
        desk.old.output desk.new.output result }
    ensures grows { Grows (K.written sink.old) (K.written sink.new) }
    ensures cause { HasCause (K.faults sink.old) (K.faults sink.new) result }
{
    exchange(link, only, desk, sink)?;
    link.hold(true);
    while link.tags_used() > 0 {
        make_step(link, only, desk, sink)?;
    }
    link.hold(false);
    Ok(())
}

/// A drain, which has two passes.
pub(crate) fn drain<K: Sink, F: Flash>(
    link: &mut Link<F>,
    only: bool,
    desk: &mut Desk,
    sink: &mut K,
) -> Result<(), Failed>
    requires { Stands link.old }
    ensures plays { Plays DrainsTo CutDrain only link.old link.new (K.written sink.old) (K.written sink.new)
        desk.old.output desk.new.output result }
    ensures grows { Grows (K.written sink.old) (K.written sink.new) }
    ensures cause { HasCause (K.faults sink.old) (K.faults sink.new) result }
{
    pass(link, only, desk, sink)?;
    pass(link, only, desk, sink)
}

/// Makes a drain where all tags are in use, so that one is free.
pub(crate) fn free_tags<K: Sink, F: Flash>(
    link: &mut Link<F>,
    only: bool,
    desk: &mut Desk,
    sink: &mut K,
) -> Result<(), Failed>
    requires { Stands link.old }
    ensures plays { Plays FreesTags CutDrain only link.old link.new (K.written sink.old) (K.written sink.new)
        desk.old.output desk.new.output result }
    ensures free { OnOk result (length link.new.driver.opens < 32) }
    ensures count { OnOk result (link.new.count ≡ link.old.count) }
    ensures grows { Grows (K.written sink.old) (K.written sink.new) }
    ensures cause { HasCause (K.faults sink.old) (K.faults sink.new) result }
{
    if link.tags_used() >= TAGS {
        return drain(link, only, desk, sink);
    }
    Ok(())
}
