//! Lists of regions, none of which stands in them twice, and lists of subregions.
ghost use Rattle.std.specs.Prelude.{◌≡◌, ◌-◌, ◌<◌, ◌≤◌, length, fold, map, IfSome};
ghost use Rattle.std.specs.Prelude.{vec_len, vec_capacity, slice_range};
ghost use Rattle.std.specs.List.{list_any, position_from, range_with_len};
ghost use Rattle.region_state.specs.Lists.{without, to_front, each_within};
ghost use Rattle.region_state.specs.Subregion.{read_counted, is_due, unloaded};

use crate::subregion::Subregion;

/// Takes a region out of the list.
pub fn remove(list: &mut Vec<u16>, region: u16)
    ensures items { list.new.items ≡ without region list.old.items }
    ensures capacity { vec_capacity list.new ≡ vec_capacity list.old }
{
    list.retain(|other| *other != region);
}

/// Puts a region first, where it is in the list.
pub fn bring_to_front(list: &mut Vec<u16>, region: u16)
    requires { vec_len list.old ≤ vec_capacity list.old }
    ensures items { list.new.items ≡ to_front list.old.items region }
    ensures len { vec_len list.new ≤ vec_len list.old }
    ensures capacity { vec_capacity list.old ≤ vec_capacity list.new }
{
    if list.contains(&region) {
        remove(list, region);
        list.insert(0, region).unwrap();
    }
}

/// Puts each region of a range first that is in the list, the lowest number first.
pub fn touch(list: &mut Vec<u16>, first: u16, end: u16)
    requires { vec_len list.old ≤ vec_capacity list.old }
    ensures items { list.new.items ≡ fold to_front list.old.items (range_with_len first (end - first)) }
    ensures capacity { vec_capacity list.old ≤ vec_capacity list.new }
{
    for region in first..end {
        bring_to_front(list, region);
    }
}

/// Counts a read of each subregion.
fn count_each_read(subregions: &mut [Subregion])
    ensures { subregions.new ≡ map read_counted subregions.old }
{
    for subregion in subregions.iter_mut() {
        *subregion = subregion.read_counted();
    }
}

/// Whether one of the subregions is due.
fn has_due(subregions: &[Subregion]) -> bool
    ensures { result ≡ list_any is_due subregions.now }
{
    subregions.iter().any(|subregion| subregion.is_due())
}

/// Counts a read of each subregion of a range, and answers whether one of them is due now.
pub fn count_reads(subregions: &mut [Subregion], first: usize, end: usize) -> bool
    requires order { first ≤ end }
    requires end { end ≤ length subregions.old }
    ensures counted { subregions.new ≡ each_within read_counted first end subregions.old }
    ensures due { result ≡ list_any is_due (map read_counted (slice_range subregions.old first end)) }
{
    let touched = &mut subregions[first..end];
    count_each_read(touched);
    has_due(touched)
}

/// Forgets the subregions of a range, which may pass the end of the list.
pub fn forget(subregions: &mut [Subregion], first: usize, end: usize)
    requires order { first ≤ end }
    requires start { first ≤ length subregions.old }
    ensures { subregions.new ≡ each_within (λ _. unloaded) first end subregions.old }
{
    let end = end.min(subregions.len());
    subregions[first..end].fill(Subregion::UNLOADED);
}

/// The first subregion that is due, by its number in the unit.
pub fn first_due(subregions: &[Subregion]) -> Option<usize>
    ensures first { result ≡ position_from is_due 0 subregions.now }
    ensures bound { IfSome result (λ number. number < length subregions.now) }
{
    subregions.iter().position(|subregion| subregion.is_due())
}
