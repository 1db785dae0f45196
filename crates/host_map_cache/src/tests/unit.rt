//! The calls of `Cache` as values, so that a table can list them.
ghost use Rattle.std.specs.Prelude.{◌≡◌, IsTrue};
ghost use Rattle.host_map_cache.specs.Cache.{sub_length};
ghost use Rattle.host_map_cache.specs.Shapes.{is_present};
ghost use Rattle.region_state.specs.Shape.{IsWithinLimits};

use crate::Cache;
use arrayvec::ArrayVec;
use hpb_outside::NewFault;
use hpb_sense::Hint;
use region_state::Shape;
use std::alloc::Global;
use std::process::Abort;

/// A call of `Cache`, with its arguments.
#[derive(Clone, Copy, Debug)]
pub enum Call {
    /// The operation, two subregions to load and a region to give up.
    Hint(u8, (u16, u16), (u16, u16), Option<u16>),
    PlainRead(u32, u32),
    Touch(u32, u32),
    Wrote(u32, u32),
    Issued(u16, u16),
    /// The entries are the numbers 2^56 * byte + place in the subregion.
    Loaded(u16, u16, u8),
    Unloaded(u16, u16),
    TakeWant,
    TakeEvicted,
    DropAll,
    Lapse,
}

/// The cache of a unit, and its shape.
#[derive(Drop)]
pub struct Unit {
    shape: Shape,
    cache: Cache,
    ghost limits: { IsWithinLimits shape },
    ghost same: { cache.shape ≡ shape },
}

impl Unit {
    pub fn new(alloc: Global, shape: Shape) -> Result<Unit, NewFault> {
        match Cache::new(alloc, shape) {
            Ok(cache) => Ok(Unit { shape, cache }),
            Err(fault) => Err(fault),
        }
    }

    fn hint(&mut self, op: u8, first: (u16, u16), second: (u16, u16), gone: Option<u16>) {
        let mut active = ArrayVec::new();
        active.push(first);
        active.push(second);
        let mut inactive = ArrayVec::new();
        if let Some(region) = gone {
            inactive.push(region);
        }
        self.cache.hint(&Hint {
            op,
            lun: 0,
            active,
            inactive,
        });
    }

    fn plain_read(&mut self, rt: &impl Abort, lba: u32, n: u32) {
        assert!(rt; lba <= self.shape.units && n <= self.shape.units - lba);
        self.cache.plain_read(lba, n);
    }

    fn touch(&mut self, rt: &impl Abort, lba: u32, n: u32) {
        assert!(rt; lba <= self.shape.units && n <= self.shape.units - lba);
        self.cache.touch(lba, n);
    }

    fn wrote(&mut self, rt: &impl Abort, lba: u32, n: u32) {
        assert!(rt; lba <= self.shape.units && n <= self.shape.units - lba);
        self.cache.wrote(lba, n);
    }

    fn issued(&mut self, rt: &impl Abort, region: u16, sub: u16) -> bool {
        present_blocks(rt, self.shape, region, sub);
        self.cache.issued(region, sub)
    }

    fn loaded(&mut self, rt: &impl Abort, region: u16, sub: u16, byte: u8) {
        let blocks = present_blocks(rt, self.shape, region, sub);
        assert!(rt; blocks <= 2);
        let bytes = [byte, 0, 0, 0, 0, 0, 0, 0, byte, 0, 0, 0, 0, 0, 0, 1];
        self.cache
            .loaded(region, sub, &bytes[..8 * blocks as usize]);
    }

    fn unloaded(&mut self, rt: &impl Abort, region: u16, sub: u16) {
        present_blocks(rt, self.shape, region, sub);
        self.cache.unloaded(region, sub);
    }

    fn take_want(&mut self) {
        if self.cache.first_want().is_some() {
            self.cache.take_want();
        }
    }

    fn take_evicted(&mut self) {
        if self.cache.first_evicted().is_some() {
            self.cache.take_evicted();
        }
    }

    /// Makes a call, whose arguments have to be of the unit, and gives its answer.
    pub fn call(&mut self, rt: &impl Abort, call: Call) -> bool {
        match call {
            Call::Hint(op, first, second, gone) => self.hint(op, first, second, gone),
            Call::PlainRead(lba, n) => self.plain_read(rt, lba, n),
            Call::Touch(lba, n) => self.touch(rt, lba, n),
            Call::Wrote(lba, n) => self.wrote(rt, lba, n),
            Call::Issued(region, sub) => return self.issued(rt, region, sub),
            Call::Loaded(region, sub, byte) => self.loaded(rt, region, sub, byte),
            Call::Unloaded(region, sub) => self.unloaded(rt, region, sub),
            Call::TakeWant => self.take_want(),
            Call::TakeEvicted => self.take_evicted(),
            Call::DropAll => self.cache.drop_all(),
            Call::Lapse => self.cache.lapse(),
        }
        false
    }

    /// What comes first of the subregions to load and of the regions that were given up.
    pub fn firsts(&self) -> (Option<(u16, u16)>, Option<u16>) {
        (self.cache.first_want(), self.cache.first_evicted())
    }

    pub fn covers(&self, rt: &impl Abort, lba: u32, n: u32) -> bool {
        assert!(rt; lba <= self.shape.units && n <= self.shape.units - lba);
        self.cache.covers(lba, n)
    }

    pub fn entry(&self, rt: &impl Abort, lba: u32) -> Option<u64> {
        assert!(rt; lba < self.shape.units);
        self.cache.entry(lba)
    }
}

/// The blocks of a subregion, which has to lie in the unit.
fn present_blocks(rt: &impl Abort, shape: Shape, region: u16, sub: u16) -> u32
    requires { IsWithinLimits shape }
    ensures present { IsTrue (is_present shape region sub) }
    ensures blocks { result ≡ sub_length shape region sub }
{
    let region_blocks = 1 << (shape.region_exp - 3);
    let sub_blocks = 1 << (shape.sub_exp - 3);
    let offset = u64::from(sub) * sub_blocks;
    assert!(rt; offset < region_blocks);
    let first = u64::from(region) * region_blocks + offset;
    assert!(rt; first < u64::from(shape.units));
    sub_blocks.min(u64::from(shape.units) - first) as u32
}
