//! What requests, answers and a reset do to the caches of the units, of which unit `n` has the one at place `n`. A unit
//! with no cache is passed over.
ghost use Rattle.std.specs.Prelude.{◌≡◌, ◌≤◌, ◌+◌, map};
ghost use Rattle.host_map_cache.specs.Cache.{CacheState, lapsed, loaded, unloaded, written};
ghost use Rattle.driver_caches.specs.Machine.{change_cache, load_ends, with_hint};
ghost use Rattle.driver_caches.specs.Effects.{AllHaveBlocks, AllHaveEntries, AllHaveSub, LoadsThere, LoadsWhole};
ghost use Rattle.driver_caches.specs.Effects.{read_once, responded, shapes_of};

use host_map_cache::Cache;
use hpb_cdb::Cdb;
use hpb_sense::{Sense, read_sense};

/// A write of `n` blocks from `lba` on of a unit went out: its cache doesn't cover them until their entries are read
/// anew. It costs one `wrote` of the cache.
pub fn mark_written(caches: &mut [Cache], lun: u8, lba: u32, n: u32)
    requires { AllHaveBlocks lba n caches.old }
    ensures after { caches.new ≡ change_cache lun (λ (c : CacheState). written c lba n) caches.old }
    ensures shapes { shapes_of caches.new ≡ shapes_of caches.old }
{
    let unit = usize::from(lun);
    if unit < caches.len() {
        let cache = &mut caches[unit];
        cache.wrote(lba, n);
    }
}

/// The entries of a subregion of a unit came, 8 bytes for each of its blocks. Where the unit's cache asked for them it
/// keeps them. It costs one `loaded` of the cache.
pub fn mark_loaded(caches: &mut [Cache], lun: u8, region: u16, sub: u16, bytes: &[u8])
    requires there { AllHaveSub region sub caches.old }
    requires whole { AllHaveEntries region sub bytes.now caches.old }
    ensures after { caches.new ≡ change_cache lun (λ (c : CacheState). loaded c region sub bytes.now) caches.old }
    ensures shapes { shapes_of caches.new ≡ shapes_of caches.old }
{
    let unit = usize::from(lun);
    if unit < caches.len() {
        let cache = &mut caches[unit];
        cache.loaded(region, sub, bytes);
    }
}

/// The entries of a subregion of a unit don't come. It costs one `unloaded` of the cache.
pub fn mark_unloaded(caches: &mut [Cache], lun: u8, region: u16, sub: u16)
    requires { AllHaveSub region sub caches.old }
    ensures after { caches.new ≡ change_cache lun (λ (c : CacheState). unloaded c region sub) caches.old }
    ensures shapes { shapes_of caches.new ≡ shapes_of caches.old }
{
    let unit = usize::from(lun);
    if unit < caches.len() {
        let cache = &mut caches[unit];
        cache.unloaded(region, sub);
    }
}

/// A read of `n` blocks from `lba` on of a unit went out, plainly or with entries. It costs one `touch` of the unit's
/// cache, and where it went out plainly one `plain_read` before it.
pub fn mark_read(caches: &mut [Cache], lun: u8, lba: u32, n: u32, plain: bool)
    requires { AllHaveBlocks lba n caches.old }
    ensures after { caches.new ≡ change_cache lun (read_once plain lba n) caches.old }
    ensures shapes { shapes_of caches.new ≡ shapes_of caches.old }
{
    let unit = usize::from(lun);
    if unit < caches.len() {
        let cache = &mut caches[unit];
        read_by(cache, lba, n, plain);
    }
}

/// A read of blocks of the unit of this cache went out.
fn read_by(cache: &mut Cache, lba: u32, n: u32, plain: bool)
    requires { lba + n ≤ cache.old.shape.units }
    ensures after { cache.new ≡ read_once plain lba n cache.old }
    ensures shape { cache.new.shape ≡ cache.old.shape }
{
    if plain {
        cache.plain_read(lba, n);
        cache.touch(lba, n);
    } else {
        cache.touch(lba, n);
    }
}

/// Takes what the segment of a RESPONSE that is GOOD says: a hint goes to the cache of the unit that it names, and any
/// other segment changes nothing. It costs one `hint` of the cache.
pub fn take_hint(caches: &mut [Cache], segment: &[u8])
    ensures after { caches.new ≡ with_hint segment.now caches.old }
    ensures shapes { shapes_of caches.new ≡ shapes_of caches.old }
{
    if let Some(Sense::Hint(hint)) = read_sense(segment) {
        let unit = usize::from(hint.lun);
        if unit < caches.len() {
            let cache = &mut caches[unit];
            cache.hint(&hint);
        }
    }
}

/// A command ended, GOOD or not, and `got` is what it got. Where it was READ BUFFER, the entries of its subregion came,
/// or they don't come; any other command changes nothing. It costs one `mark_loaded` or `mark_unloaded`.
pub fn mark_ended(caches: &mut [Cache], lun: u8, command: Cdb, got: &[u8], good: bool)
    requires there { LoadsThere command caches.old }
    requires whole { LoadsWhole good command got.now caches.old }
    ensures after { caches.new ≡ change_cache lun (load_ends good got.now command) caches.old }
    ensures shapes { shapes_of caches.new ≡ shapes_of caches.old }
{
    if let Cdb::ReadBuffer { region, sub, .. } = command {
        if good {
            mark_loaded(caches, lun, region, sub, got);
        } else {
            mark_unloaded(caches, lun, region, sub);
        }
    }
}

/// A RESPONSE ended a command: first `mark_ended`, and where it is GOOD then `take_hint` of its segment. It costs both.
pub fn mark_response(
    caches: &mut [Cache],
    lun: u8,
    command: Cdb,
    got: &[u8],
    good: bool,
    segment: &[u8],
)
    requires there { LoadsThere command caches.old }
    requires whole { LoadsWhole good command got.now caches.old }
    ensures after { caches.new ≡ responded good lun command got.now segment.now caches.old }
    ensures shapes { shapes_of caches.new ≡ shapes_of caches.old }
{
    mark_ended(caches, lun, command, got, good);
    if good {
        take_hint(caches, segment);
    }
}

/// The driver was reset: no cache asks for what it asked for, and nothing is to be loaded or told. It costs one `lapse`
/// for each cache.
pub fn lapse_all(caches: &mut [Cache])
    ensures after { caches.new ≡ map lapsed caches.old }
    ensures shapes { shapes_of caches.new ≡ shapes_of caches.old }
{
    for unit in 0..caches.len() {
        let cache = &mut caches[unit];
        cache.lapse();
    }
}
