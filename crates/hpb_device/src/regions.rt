// What a device makes of the regions of its logical units. The rules are this project's own.
ghost use Rattle.std.specs.Prelude.{◌≡◌, ◌+◌, ◌≤◌, ℕ, IfOk, IfSome, fold, map, replicate};
ghost use Rattle.std.specs.List.{range_with_len};
ghost use Rattle.hpb_sense.specs.Sense.{IsHint};
ghost use Rattle.region_state.specs.Machine.{Machine, after_change, after_reset, start};
ghost use Rattle.region_state.specs.Shape.{IsWithinLimits};
ghost use Rattle.flat_unit.specs.Hints.{after_good, after_take, hint_of, hint_segment};
ghost use Rattle.hpb_device.specs.Limits.{limits_of};
ghost use Rattle.hpb_device.specs.Regions.{AreRegions, IsMovedWithin, IsOfUnits, IsProgressWithin, regions_after};
ghost use Rattle.hpb_device.specs.Regions.{regions_at, regions_moved, segment_told, with_regions};
ghost use Rattle.hpb_device.specs.Task.{IsServed};

use crate::advance::{Internal, Progress};
use crate::reply::Reply;
use crate::task::Task;
use flash_store::Moved;
use hint_issuer::take;
use hpb_cdb::Cdb;
use hpb_outside::NewFault;
use hpb_sense::Hint;
use region_state::{Regions, Shape};
use std::alloc::Global;

/// The regions of so many logical units of this shape, of which their hosts hold none. It takes all their memory.
pub fn new_regions(alloc: Global, shape: Shape, luns: u8) -> Result<Vec<Regions>, NewFault>
    requires { IsWithinLimits shape }
    ensures regions { IfOk result (λ made. made.items ≡ replicate luns (start shape)) }
    ensures shapes { IfOk result (λ made. map (λ (m : Machine). m.shape) made.items ≡ replicate luns shape) }
{
    let Ok(mut made) = Vec::with_capacity(alloc, usize::from(luns)) else {
        return Err(NewFault::Memory);
    };
    for _ in 0..luns {
        made.push(Regions::new(alloc, shape)?).unwrap();
    }
    Ok(made)
}

/// Counts a change of each of these blocks.
fn change(regions: &mut Regions, lba: u32, n: u16)
    requires limits { IsWithinLimits regions.old.shape }
    requires range { lba + n ≤ regions.old.shape.units }
    ensures new { regions.new ≡ fold after_change regions.old (range_with_len lba n) }
    ensures shape { regions.new.shape ≡ regions.old.shape }
{
    for block in lba..lba + u32::from(n) {
        regions.changed(block);
    }
}

/// Takes in a command that succeeded.
fn take_in(regions: &mut Regions, command: Cdb)
    requires limits { IsWithinLimits regions.old.shape }
    requires served { IsServed (limits_of regions.old.shape) command }
    ensures new { regions.new ≡ after_good regions.old command }
    ensures shape { regions.new.shape ≡ regions.old.shape }
{
    match command {
        Cdb::Read { lba, n } => regions.read(lba, u32::from(n), true),
        Cdb::HpbRead { lba, n, .. } => regions.read(lba, u32::from(n), false),
        Cdb::Write { lba, n } => change(regions, lba, n),
        Cdb::ReadBuffer { region, sub, .. } => regions.loaded(region, sub),
        Cdb::InactOne { region } => regions.inactivate(region),
        Cdb::InactAll => regions.inactivate_all(),
        _ => {}
    }
}

/// Takes in a command that succeeded, and takes the hint of its RESPONSE, where something is to be told.
fn take_good(machines: &mut Vec<Regions>, task: Task) -> Option<Hint>
    requires { (shape : Shape) × (luns : ℕ) × AreRegions shape luns machines.old.items × IsOfUnits shape luns task }
    ensures regions { (shape : Shape) → machines.new.items
        ≡ with_regions shape machines.old.items task.lun (λ m. after_take (after_good m task.command)) }
    ensures hint { (shape : Shape)
        → result ≡ hint_of (after_good (regions_at shape machines.old.items task.lun) task.command) task.lun }
    ensures writable { IfSome result IsHint }
    ensures shapes { map (λ (m : Machine). m.shape) machines.new.items
        ≡ map (λ (m : Machine). m.shape) machines.old.items }
{
    let regions = &mut machines[usize::from(task.lun)];
    take_in(regions, task.command);
    take(regions, task.lun)
}

/// Counts a page that the collector programmed anew as a change of its block.
pub fn take_moved(machines: &mut Vec<Regions>, moved: Moved)
    requires { (shape : Shape) × (luns : ℕ) × AreRegions shape luns machines.old.items
        × IsMovedWithin shape luns moved }
    ensures regions { (shape : Shape) → machines.new.items ≡ regions_moved shape machines.old.items moved }
    ensures shapes { map (λ (m : Machine). m.shape) machines.new.items
        ≡ map (λ (m : Machine). m.shape) machines.old.items }
{
    if let Moved::Page(lun, lba) = moved {
        machines[usize::from(lun)].changed(lba);
    }
}

/// Takes in what a step came to, and takes the hint of its RESPONSE, where that is GOOD and something is to be told.
pub fn take_progress(machines: &mut Vec<Regions>, task: Task, progress: Progress) -> Option<Hint>
    requires { (shape : Shape) × (luns : ℕ) × AreRegions shape luns machines.old.items × IsOfUnits shape luns task
        × IsProgressWithin shape luns progress }
    ensures regions { (shape : Shape) → machines.new.items ≡ regions_after shape machines.old.items task progress }
    ensures segment { (shape : Shape) → hint_segment result ≡ segment_told shape machines.old.items task progress }
    ensures writable { IfSome result IsHint }
    ensures shapes { map (λ (m : Machine). m.shape) machines.new.items
        ≡ map (λ (m : Machine). m.shape) machines.old.items }
{
    match progress {
        Progress::Ended(Reply::Good { .. }) => take_good(machines, task),
        Progress::Silent(Internal::Collected(moved), _) => {
            take_moved(machines, moved);
            None
        }
        _ => None,
    }
}

/// Forgets all regions of each unit, which its host is to be told.
pub fn reset_all(machines: &mut Vec<Regions>)
    ensures regions { machines.new.items ≡ map after_reset machines.old.items }
    ensures shapes { map (λ (m : Machine). m.shape) machines.new.items
        ≡ map (λ (m : Machine). m.shape) machines.old.items }
{
    for regions in machines.iter_mut() {
        regions.reset();
    }
}
