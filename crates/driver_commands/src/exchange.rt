//! What a driver sends for its open commands, and what the device's UPIUs make of them.
ghost use Rattle.std.specs.Prelude.{◌≡◌, ◌+◌, ◌<◌, ◌≤◌, Some, true, length, slice_set, vec_capacity, vec_len};
ghost use Rattle.std.specs.List.{find};
ghost use Rattle.upiu_wire.specs.Upiu.{upiu_at};
ghost use Rattle.driver_laws.specs.Commands.{OpenCommand, after_next, has, next_of, upiu_of_next};
ghost use Rattle.driver_laws.specs.Deliver.{delivered, delivered_to, is_in_phase, taken, with_asked, with_got};
ghost use Rattle.driver_caches.specs.Machine.{caches_by};
ghost use Rattle.driver_commands.specs.Calls.{HasTaken, IsAt, IsDelivered, IsSent};
ghost use Rattle.driver_commands.specs.Open.{gets, gives, sizes_in, sizes_of};
ghost use Rattle.driver_commands.specs.Places.{IsFirstAt};
ghost use Rattle.driver_commands.specs.State.{IsReady};

use crate::open::OpenCommand;
use crate::queue::{first_owing, first_waiting, first_with_tag};
use crate::units::limits_of;
use driver_caches::mark_response;
use driver_laws::{Done, DriverFault};
use host_map_cache::Cache;
use hpb_cdb::Limits;
use region_state::Shape;
use upiu_wire::{Kind, UpiuBuf, UpiuView};

/// Writes the UPIU that is sent next, and answers whether there was one (JESD220): the next DATA OUT of the first
/// command that owes the device data, of a block at most, or else the COMMAND of the first command that hasn't gone
/// out. It goes through the open commands at most twice, and copies the bytes of one piece.
pub fn send_next(commands: &mut Vec<OpenCommand>, limits: Limits, out: &mut UpiuBuf) -> bool
    ensures items { commands.new.items ≡ after_next (sizes_in limits) commands.old.items (next_of commands.old.items) }
    ensures sent { IsSent (upiu_of_next (sizes_in limits) (next_of commands.old.items)) result out.old out.new }
    ensures count { length commands.new.items ≡ length commands.old.items }
    ensures room { vec_capacity commands.new ≡ vec_capacity commands.old }
{
    if let Some(place) = first_owing(commands) {
        let command = &mut commands[place];
        command.put_piece(out);
        return true;
    }
    if let Some(place) = first_waiting(commands) {
        let command = &mut commands[place];
        command.put_begin(limits, out);
        return true;
    }
    false
}

/// A piece of data came for the command at a place.
fn take_data(commands: &mut Vec<OpenCommand>, place: usize, segment: &[u8])
    requires inside { place < vec_len commands.old }
    requires fits { (o : OpenCommand) → IsAt o commands.old.items place
        → length o.got + length segment.now ≤ gets o.command }
    ensures items { (o : OpenCommand) → IsAt o commands.old.items place
        → commands.new.items ≡ slice_set commands.old.items place (with_got segment.now o) }
    ensures count { length commands.new.items ≡ length commands.old.items }
    ensures room { vec_capacity commands.new ≡ vec_capacity commands.old }
{
    let command = &mut commands[place];
    command.take(segment);
}

/// The device asks for so many more bytes of the data of the command at a place.
fn ask_data(commands: &mut Vec<OpenCommand>, place: usize, count: u32)
    requires inside { place < vec_len commands.old }
    requires fits { (o : OpenCommand) → IsAt o commands.old.items place → o.asked + count ≤ gives o.command }
    ensures items { (o : OpenCommand) → IsAt o commands.old.items place
        → commands.new.items ≡ slice_set commands.old.items place (with_asked (o.asked + count) o) }
    ensures count { length commands.new.items ≡ length commands.old.items }
    ensures room { vec_capacity commands.new ≡ vec_capacity commands.old }
{
    let command = &mut commands[place];
    command.ask(count);
}

/// A RESPONSE ends the command at a place: first its own effect on the caches, then the hint of the segment.
fn end_command(
    commands: &mut Vec<OpenCommand>,
    caches: &mut [Cache],
    list: &mut Vec<u8>,
    place: usize,
    shape: Shape,
    view: &UpiuView<'_>,
) -> Option<Done>
    requires first { IsFirstAt (has (upiu_at view.now).tag) commands.old.items place }
    requires phase { (o : OpenCommand) → IsAt o commands.old.items place
        → is_in_phase (sizes_of shape) o (upiu_at view.now) ≡ true }
    requires kind { (upiu_at view.now).kind ≡ Kind.Response }
    requires ready { IsReady shape commands.old.items caches.old (vec_capacity list.old) }
    ensures taken { (o : OpenCommand) → IsAt o commands.old.items place
        → taken (upiu_at view.now).kind commands.old.items o (upiu_at view.now)
        ≡ record { opens = commands.new.items; done = result } }
    ensures caches { (o : OpenCommand) → IsAt o commands.old.items place
        → caches.new ≡ caches_by (upiu_at view.now).kind (Some o) (upiu_at view.now) caches.old }
    ensures ready { IsReady shape commands.new.items caches.new (vec_capacity list.new) }
    ensures count { length commands.new.items ≤ length commands.old.items }
    ensures room { vec_capacity commands.new ≡ vec_capacity commands.old }
{
    let command = commands.remove(place);
    let good = view.status() == 0x00;
    mark_response(
        caches,
        command.lun(),
        command.command(),
        command.got(),
        good,
        view.segment(),
    );
    if command.is_load() {
        *list = command.into_list();
        None
    } else {
        command.end(view)
    }
}

/// What a UPIU makes of the commands, of which the one at a place has its tag and may be answered by it now.
fn take_upiu(
    commands: &mut Vec<OpenCommand>,
    caches: &mut [Cache],
    list: &mut Vec<u8>,
    place: usize,
    shape: Shape,
    view: &UpiuView<'_>,
) -> Option<Done>
    requires first { IsFirstAt (has (upiu_at view.now).tag) commands.old.items place }
    requires phase { (o : OpenCommand) → IsAt o commands.old.items place
        → is_in_phase (sizes_of shape) o (upiu_at view.now) ≡ true }
    requires ready { IsReady shape commands.old.items caches.old (vec_capacity list.old) }
    ensures taken { (o : OpenCommand) → IsAt o commands.old.items place
        → taken (upiu_at view.now).kind commands.old.items o (upiu_at view.now)
        ≡ record { opens = commands.new.items; done = result } }
    ensures caches { (o : OpenCommand) → IsAt o commands.old.items place
        → caches.new ≡ caches_by (upiu_at view.now).kind (Some o) (upiu_at view.now) caches.old }
    ensures ready { IsReady shape commands.new.items caches.new (vec_capacity list.new) }
    ensures count { length commands.new.items ≤ length commands.old.items }
    ensures room { vec_capacity commands.new ≡ vec_capacity commands.old }
{
    match view.kind() {
        Kind::DataIn => {
            take_data(commands, place, view.segment());
            None
        }
        Kind::ReadyToTransfer => {
            ask_data(commands, place, view.count());
            None
        }
        Kind::Response => end_command(commands, caches, list, place, shape, view),
        _ => None,
    }
}

/// Takes a UPIU of the device for the command with its tag.
fn take_for_tag(
    commands: &mut Vec<OpenCommand>,
    caches: &mut [Cache],
    list: &mut Vec<u8>,
    shape: Shape,
    view: &UpiuView<'_>,
) -> Result<Option<Done>, DriverFault>
    requires ready { IsReady shape commands.old.items caches.old (vec_capacity list.old) }
    ensures delivered { let upiu = upiu_at view.now in
        IsDelivered (delivered_to (sizes_of shape) commands.old.items upiu (find (has upiu.tag) commands.old.items))
        commands.old.items commands.new.items result }
    ensures caches { let upiu = upiu_at view.now in
        HasTaken (delivered_to (sizes_of shape) commands.old.items upiu (find (has upiu.tag) commands.old.items)) upiu
        commands.old.items caches.old caches.new }
    ensures ready { IsReady shape commands.new.items caches.new (vec_capacity list.new) }
    ensures count { length commands.new.items ≤ length commands.old.items }
    ensures room { vec_capacity commands.new ≡ vec_capacity commands.old }
{
    let Some(place) = first_with_tag(commands, view.tag()) else {
        return Err(DriverFault::UnknownTag);
    };
    if !commands[place].is_in_phase(limits_of(shape), view) {
        return Err(DriverFault::Phase);
    }
    Ok(take_upiu(commands, caches, list, place, shape, view))
}

/// Takes the bytes of a UPIU of the device (JESD220): the next DATA IN of a command, a READY TO TRANSFER, which asks
/// for more of its data, or the RESPONSE that ends it, by its status (SAM) and its sense (SPC). A NOP IN changes
/// nothing. It answers the caller's request that ended, if one did. Bytes that aren't taken are a fault and change
/// nothing.
///
/// A RESPONSE with status GOOD may bring the caches entries and a hint. The memory of a list of entries that ended,
/// GOOD or not, goes to `list`.
///
/// It goes through the open commands once. A DATA IN copies its segment, a RESPONSE moves the commands behind its own
/// up by one place, and one of a list of entries copies these to the cache.
pub fn deliver_to(
    commands: &mut Vec<OpenCommand>,
    caches: &mut [Cache],
    list: &mut Vec<u8>,
    shape: Shape,
    bytes: &[u8],
) -> Result<Option<Done>, DriverFault>
    requires ready { IsReady shape commands.old.items caches.old (vec_capacity list.old) }
    ensures delivered { IsDelivered (delivered (sizes_of shape) commands.old.items bytes.now) commands.old.items
        commands.new.items result }
    ensures caches { HasTaken (delivered (sizes_of shape) commands.old.items bytes.now) (upiu_at bytes.now)
        commands.old.items caches.old caches.new }
    ensures ready { IsReady shape commands.new.items caches.new (vec_capacity list.new) }
    ensures count { length commands.new.items ≤ length commands.old.items }
    ensures room { vec_capacity commands.new ≡ vec_capacity commands.old }
{
    match UpiuView::parse(bytes) {
        Ok(view) => match view.kind() {
            Kind::NopIn => Ok(None),
            _ => take_for_tag(commands, caches, list, shape, &view),
        },
        Err(fault) => Err(DriverFault::Wire(fault)),
    }
}
