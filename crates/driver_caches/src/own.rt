//! Which command of its own a driver sends next: of a region that was given up, or of a subregion that is wanted.
ghost use Rattle.std.specs.Prelude.{◌≡◌, ◌≤◌, IfSome, IsTrue, length};
ghost use Rattle.host_map_cache.specs.Shapes.{is_present};
ghost use Rattle.driver_caches.specs.Machine.{evicted_from, wanted_from};
ghost use Rattle.driver_caches.specs.Effects.{shapes_of};
ghost use Rattle.driver_caches.specs.Own.{IsFirstOf, IsNextWant, IsPicked, IsPresentLoad, IsTold, load_of};

use host_map_cache::Cache;

/// Takes the next subregion to load out of a cache: the first want that is still asked for, with those before it, which
/// are stale. From now on none of its blocks counts as written. It costs one `issued` of the cache for each of them.
pub fn next_want(cache: &mut Cache) -> Option<(u16, u16)>
    ensures after { IsNextWant cache.old result cache.new }
    ensures shape { cache.new.shape ≡ cache.old.shape }
    ensures present { IfSome result (λ want. IsTrue (is_present cache.new.shape want.0 want.1)) }
{
    while let Some((region, sub)) = cache.first_want() {
        cache.take_want();
        if cache.issued(region, sub) {
            return Some((region, sub));
        }
    }
    None
}

/// The lowest unit whose cache has given a region up, and that region. It costs a step for each cache.
fn first_evicted(caches: &[Cache]) -> Option<(usize, u16)>
    ensures { IsFirstOf caches.now result }
{
    for unit in 0..caches.len() {
        if let Some(region) = caches[unit].first_evicted() {
            return Some((unit, region));
        }
    }
    None
}

/// Takes the first region that was given up out of the caches, that of the lowest unit that has one: the unit and the
/// region. There are 8 units at most. It costs a step for each cache.
pub fn take_evicted(caches: &mut [Cache]) -> Option<(u8, u16)>
    requires { length caches.old ≤ 8 }
    ensures after { IsTold (evicted_from 0 caches.old) caches.old result caches.new }
    ensures shapes { shapes_of caches.new ≡ shapes_of caches.old }
{
    let (unit, region) = first_evicted(caches)?;
    let cache = &mut caches[unit];
    cache.take_evicted();
    Some((unit as u8, region))
}

/// Takes the next subregion to load out of the caches, that of the lowest unit that has one: the unit, the region and
/// the subregion. The wants before it, which are stale, are dropped: those of its unit and all those of lower units.
/// There are 8 units at most. It costs one `next_want` for each of these units.
pub fn take_want(caches: &mut [Cache]) -> Option<(u8, u16, u16)>
    requires { length caches.old ≤ 8 }
    ensures after { IsPicked caches.old (wanted_from 0 caches.old) (load_of result) caches.new }
    ensures shapes { shapes_of caches.new ≡ shapes_of caches.old }
    ensures present { IsPresentLoad caches.old (load_of result) }
{
    for unit in 0..caches.len() {
        let cache = &mut caches[unit];
        if let Some((region, sub)) = next_want(cache) {
            return Some((unit as u8, region, sub));
        }
    }
    None
}
