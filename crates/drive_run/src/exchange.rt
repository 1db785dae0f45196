//! What both ends do until the driver has nothing to send.
ghost use Rattle.std.specs.Prelude.{◌≡◌, ◌≢◌, ◌≤◌, ◌<◌, ◌+◌, ◌++◌, length, flat_map, [], OnOk};
ghost use Rattle.hpb_outside.specs.Faults.{HasCause};
ghost use Rattle.driver_laws.specs.Commands.{Nothing, next_of};
ghost use Rattle.flat_unit.specs.Replays.{events_of};
ghost use Rattle.hpb_device.specs.Left.{steps_left};
ghost use Rattle.hpb_device.specs.Standing.{group_of, sizes_of};
ghost use Rattle.hpb_device.specs.State.{DeviceState};
ghost use Rattle.drive_rules.specs.Cuts.{CutExchange, CutStep};
ghost use Rattle.drive_rules.specs.Held.{AllOut};
ghost use Rattle.drive_rules.specs.Lines.{Drive, DriveStep, Exchanges};
ghost use Rattle.drive_rules.specs.Said.{Happened};
ghost use Rattle.drive_rules.specs.Text.{said_line};
ghost use Rattle.flat_unit.specs.declared.event.Event.TheVariants.{Host};
ghost use Rattle.hpb_link.specs.Stands.{AtDrive};
ghost use Rattle.hpb_driver.specs.State.{to_send};
ghost use Rattle.run_output.specs.Writes.{Grows};
ghost use Rattle.drive_run.specs.Moments.{AddsNoSteps, LeavesFewer, Plays, events_text};

use crate::answer::push_end;
use crate::desk::Desk;
use flash_pages::Flash;
use hpb_device::Stepped;
use hpb_link::Link;
use hpb_outside::{Failed, Sink};
use run_output::{Output, make_room, push_step};
use upiu_wire::UpiuBuf;

/// Adds the line of a UPIU of the driver, where not answers alone are printed.
fn push_sent(only: bool, upiu: &UpiuBuf, output: &mut Output)
    requires room { length output.old + 139520 ≤ 262144 }
    ensures text { output.new ≡ output.old ++ said_line only (Happened (Host upiu.now)) }
{
    if !only {
        output.push_upiu(b'>', upiu.bytes());
    }
}

/// Adds the lines of a step, where not answers alone are printed.
fn push_stepped(only: bool, stepped: Stepped, upiu: &UpiuBuf, output: &mut Output)
    requires room { length output.old + 139520 ≤ 262144 }
    ensures text { output.new ≡ output.old ++ events_text only (events_of (group_of stepped upiu.now)) }
{
    if !only {
        push_step(stepped, upiu, output);
    }
}

/// An exchange: the driver sends until it has nothing to send, and the device gets it all.
pub(crate) fn exchange<K: Sink, F: Flash>(
    link: &mut Link<F>,
    only: bool,
    desk: &mut Desk,
    sink: &mut K,
) -> Result<(), Failed>
    ensures plays { Plays Exchanges CutExchange only link.old link.new (K.written sink.old) (K.written sink.new)
        desk.old.output desk.new.output result }
    ensures steps { AddsNoSteps link.old link.new }
    ensures grows { Grows (K.written sink.old) (K.written sink.new) }
    ensures cause { HasCause (K.faults sink.old) (K.faults sink.new) result }
{
    while link.send(&mut desk.upiu, &mut desk.reply) {
        make_room(&mut desk.output, sink)?;
        push_sent(only, &desk.upiu, &mut desk.output);
    }
    Ok(())
}

/// Makes a step of the device, hands the driver what it sends, and makes an exchange.
pub(crate) fn make_step<K: Sink, F: Flash>(
    link: &mut Link<F>,
    only: bool,
    desk: &mut Desk,
    sink: &mut K,
) -> Result<(), Failed>
    ensures plays { Plays DriveStep CutStep only link.old link.new (K.written sink.old) (K.written sink.new)
        desk.old.output desk.new.output result }
    ensures fewer { OnOk result (LeavesFewer link.old link.new) }
    ensures grows { Grows (K.written sink.old) (K.written sink.new) }
    ensures cause { HasCause (K.faults sink.old) (K.faults sink.new) result }
{
    make_room(&mut desk.output, sink)?;
    let (stepped, ended) = link.step(&mut desk.upiu);
    push_stepped(only, stepped, &desk.upiu, &mut desk.output);
    push_end(&ended, &mut desk.output, sink)?;
    exchange(link, only, desk, sink)
}
