//! How a read goes out.
ghost use Rattle.std.specs.Prelude.{◌≡◌, slice_get};
ghost use Rattle.driver_caches.specs.Effects.{AllHaveBlocks};
ghost use Rattle.driver_caches.specs.Machine.{way_by_cache};
ghost use Rattle.driver_caches.specs.Ways.{IsListFor, way_of_plan};

use host_map_cache::Cache;
use read_planner::{Plan, plan};

/// How a read of `n` blocks from `lba` on of a unit goes out: by the unit's cache, and plainly where it has none.
/// `pair` says that two tags are free, and `id` names the list that a prefetch makes. It costs one `plan`.
pub fn plan_read(caches: &[Cache], lun: u8, lba: u32, n: u32, pair: bool, id: u8) -> Plan
    requires { AllHaveBlocks lba n caches.now }
    ensures way { way_of_plan result ≡ way_by_cache (slice_get caches.now lun) lba n pair id }
    ensures listed { IsListFor pair n result }
{
    let unit = usize::from(lun);
    if unit < caches.len() {
        plan(&caches[unit], lba, n, pair, id)
    } else {
        Plan::Plain
    }
}
