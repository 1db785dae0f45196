//! How a read goes out: plainly, or with entries of the cache.
#![tactic(auto)]

ghost use Rattle.std.specs.Prelude.{◌≡◌, ◌≤◌, ◌<◌, ◌+◌, ◌^◌, IsTrue, Some, map, is_some};
ghost use Rattle.std.specs.List.{range_with_len};
ghost use Rattle.host_map_cache.specs.Cache.{covers, entry_of};
ghost use Rattle.read_planner.specs.Plans.{IsPlan};

mod choice;

use arrayvec::ArrayVec;
pub use choice::Plan;
use host_map_cache::Cache;

/// The plan of a read of the blocks `lba` to `lba + n - 1`. `pair` says that two tags are free, and `id` names the list
/// that a prefetch makes.
///
/// It asks the cache for the entry of each block, up to the first that isn't covered, and for a prefetch once more.
/// It takes no memory.
pub fn plan(cache: &Cache, lba: u32, n: u32, pair: bool, id: u8) -> Plan
    requires { lba + n ≤ cache.now.shape.units }
    ensures { IsPlan cache.now lba n pair id result }
{
    if n > 255 || !cache.covers(lba, n) {
        return Plan::Plain;
    }
    if n < 2 || !pair {
        return Plan::Single(entry_in(cache, lba));
    }
    Plan::Prefetch(id, entries_of(cache, lba, n))
}

/// The entry of a block that is covered.
fn entry_in(cache: &Cache, lba: u32) -> u64
    requires inside { lba < cache.now.shape.units }
    requires covered { IsTrue (is_some (entry_of cache.now lba)) }
    ensures { Some result ≡ entry_of cache.now lba }
{
    cache.entry(lba).unwrap()
}

/// The entries of blocks that are covered, in order.
fn entries_of(cache: &Cache, lba: u32, n: u32) -> ArrayVec<u64, 255>
    requires inside { lba + n ≤ cache.now.shape.units }
    requires small { lba + n < 2 ^ 32 }
    requires few { n ≤ 255 }
    requires covered { IsTrue (covers cache.now lba n) }
    ensures { map Some result.items ≡ map (entry_of cache.now) (range_with_len lba n) }
{
    let mut entries = ArrayVec::new();
    for place in 0..n {
        entries.push(entry_in(cache, lba + place));
    }
    entries
}

#[cfg(test)]
mod tests;
