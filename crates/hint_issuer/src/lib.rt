//! The hint of a RESPONSE: what a device tells its host of the regions of a logical unit. When it tells what is this
//! project's own.
#![tactic(auto)]

ghost use Rattle.std.specs.Prelude.{◌≡◌, map, take, drop, IfSome};
ghost use Rattle.hpb_sense.specs.Sense.{IsHint};
ghost use Rattle.region_state.specs.Machine.{due, after_told};
ghost use Rattle.region_state.specs.Shape.{place_of};
ghost use Rattle.flat_unit.specs.Hints.{has_nothing, hint_of, after_take};

use arrayvec::ArrayVec;
use hpb_sense::Hint;
use region_state::Regions;

#[cfg(test)]
mod tests;

/// The operation of a hint that tells of subregions and regions.
const UPDATE: u8 = 1;

/// The operation of a hint that makes the host forget all.
const RESET: u8 = 2;

/// Takes the first two subregions that are due, or as many as there are, in order of their numbers.
fn take_active(regions: &mut Regions) -> ArrayVec<(u16, u16), 2>
    ensures places { result.items ≡ map (place_of regions.old.shape) (take 2 (due regions.old)) }
    ensures told { regions.new ≡ after_told 2 regions.old }
    ensures shape { regions.new.shape ≡ regions.old.shape }
{
    let mut active = ArrayVec::new();
    let Some(first) = regions.take_active() else {
        return active;
    };
    active.push(first);
    let Some(second) = regions.take_active() else {
        return active;
    };
    active.push(second);
    active
}

/// Takes the first two regions that the host is to give up, or as many as there are, in the order in which they were
/// dropped.
fn take_gone(regions: &mut Regions) -> ArrayVec<u16, 2>
    ensures regions { result.items ≡ take 2 regions.old.gone }
    ensures told { regions.new ≡ record regions.old { gone = drop 2 regions.old.gone } }
{
    let mut inactive = ArrayVec::new();
    let Some(first) = regions.take_gone() else {
        return inactive;
    };
    inactive.push(first);
    let Some(second) = regions.take_gone() else {
        return inactive;
    };
    inactive.push(second);
    inactive
}

/// Whether the hint tells of no subregion and no region.
fn has_nothing(hint: &Hint) -> bool
    ensures { result ≡ has_nothing hint.now }
{
    hint.active.is_empty() && hint.inactive.is_empty()
}

/// Takes the hint that a GOOD RESPONSE of logical unit `lun` is to carry, or none where there is nothing to tell. What
/// it tells is taken away from what is to be told.
///
/// That the host is to forget all is told first and alone. Else the hint has the first two subregions that are due, and
/// the first two regions that the host is to give up.
///
/// It costs what two calls each of `Regions::take_active` and `take_gone` do: where nothing is to be told, always the
/// same.
#[tactic(auto, unfolding(flat_unit::specs::Hints::hint_of, flat_unit::specs::Hints::after_take))]
pub fn take(regions: &mut Regions, lun: u8) -> Option<Hint>
    ensures hint { result ≡ hint_of regions.old lun }
    ensures writable { IfSome result IsHint }
    ensures told { regions.new ≡ after_take regions.old }
    ensures shape { regions.new.shape ≡ regions.old.shape }
{
    if regions.take_news() {
        return Some(Hint {
            op: RESET,
            lun,
            active: ArrayVec::new(),
            inactive: ArrayVec::new(),
        });
    }
    let hint = Hint {
        op: UPDATE,
        lun,
        active: take_active(regions),
        inactive: take_gone(regions),
    };
    if has_nothing(&hint) { None } else { Some(hint) }
}
