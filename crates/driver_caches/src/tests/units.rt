//! The calls of the crate as values, over the caches of two units of one shape.
ghost use Rattle.std.specs.Prelude.{◌≡◌, ◌≤◌, ◌+◌, ◌*◌, IsTrue, [], ◌∷◌, length};
ghost use Rattle.host_map_cache.specs.Cache.{sub_length};
ghost use Rattle.host_map_cache.specs.Shapes.{is_present};
ghost use Rattle.region_state.specs.Shape.{IsWithinLimits};
ghost use Rattle.driver_caches.specs.Effects.{AllHaveBlocks, AllHaveEntries, AllHaveSub, LoadsWhole, shapes_of};

use crate::{
    lapse_all, mark_ended, mark_loaded, mark_read, mark_response, mark_unloaded, mark_written,
    next_want, plan_read, take_evicted, take_hint, take_want,
};
use host_map_cache::Cache;
use hpb_cdb::Cdb;
use hpb_outside::NewFault;
use read_planner::Plan;
use region_state::Shape;
use std::alloc::Global;
use std::process::Abort;

/// A call, of a unit. Regions have one subregion.
#[derive(Clone, Copy, Debug)]
pub enum Call {
    /// A hint to load a region.
    Hint(u8, u16),
    /// Four plain reads of a block.
    Heat(u8, u32),
    /// A write from a block on of as many.
    Wrote(u8, u32, u32),
    /// The entries of a region came. Their numbers are 256 times the unit plus the place.
    Loaded(u8, u16),
    Unloaded(u8, u16),
    /// READ BUFFER of the first region ended, GOOD or not.
    Ended(u8, bool),
    /// SYNCHRONIZE CACHE ended GOOD.
    Synced(u8),
    /// READ BUFFER of the first region ended, GOOD or not, with a hint to load a region of the second unit.
    Response(u8, bool, u16),
    NextWant(u8),
    TakeWant,
    TakeEvicted,
    Lapse,
}

/// What a call answers.
#[derive(Clone, Copy, Debug, PartialEq, Eq)]
pub enum Answer {
    No,
    /// A region of a unit was given up.
    Tell(u8, u16),
    /// A region of a unit is to be loaded.
    Load(u8, u16),
}

/// The segment of a hint to load the first subregion of a region.
fn hint_of(unit: u8, region: u16) -> [u8; 20] {
    let [high, low] = region.to_be_bytes();
    [
        0, 18, 0x80, 0x10, 1, unit, 1, 0, high, low, 0, 0, 0, 0, 0, 0, 0, 0, 0, 0,
    ]
}

/// The entries of a region of two blocks.
fn entries_of(unit: u8) -> [u8; 16] {
    [0, 0, 0, 0, 0, 0, unit, 0, 0, 0, 0, 0, 0, 0, unit, 1]
}

/// The caches of two units, and the shape of both.
#[derive(Drop)]
pub struct Units {
    shape: Shape,
    caches: [Cache; 2],
    ghost limits: { IsWithinLimits shape },
    ghost same: { shapes_of caches ≡ shape ∷ shape ∷ [] },
}

impl Units {
    pub fn new(alloc: Global, shape: Shape) -> Result<Units, NewFault> {
        match (Cache::new(alloc, shape), Cache::new(alloc, shape)) {
            (Ok(first), Ok(second)) => Ok(Units {
                shape,
                caches: [first, second],
            }),
            (Err(fault), _) | (_, Err(fault)) => Err(fault),
        }
    }

    fn read(&mut self, rt: &impl Abort, unit: u8, lba: u32, plain: bool) {
        assert!(rt; lba < self.shape.units);
        have_blocks(self.shape, &self.caches, lba, 1);
        mark_read(&mut self.caches, unit, lba, 1, plain);
    }

    fn heat(&mut self, rt: &impl Abort, unit: u8, lba: u32) {
        self.read(rt, unit, lba, true);
        self.read(rt, unit, lba, true);
        self.read(rt, unit, lba, true);
        self.read(rt, unit, lba, false);
        self.read(rt, unit, lba, true);
    }

    fn wrote(&mut self, rt: &impl Abort, unit: u8, lba: u32, n: u32) {
        assert!(rt; lba <= self.shape.units && n <= self.shape.units - lba);
        have_blocks(self.shape, &self.caches, lba, n);
        mark_written(&mut self.caches, unit, lba, n);
    }

    fn loaded(&mut self, rt: &impl Abort, unit: u8, region: u16) {
        let bytes = entries_of(unit);
        let blocks = present_blocks(rt, self.shape, region);
        assert!(rt; bytes.len() == 8 * blocks as usize);
        have_region(self.shape, &self.caches, region);
        have_entries(self.shape, &self.caches, region, &bytes, true);
        mark_loaded(&mut self.caches, unit, region, 0, &bytes);
    }

    fn unloaded(&mut self, rt: &impl Abort, unit: u8, region: u16) {
        present_blocks(rt, self.shape, region);
        have_region(self.shape, &self.caches, region);
        mark_unloaded(&mut self.caches, unit, region, 0);
    }

    fn ended(&mut self, rt: &impl Abort, unit: u8, good: bool) {
        let got = entries_of(unit);
        let blocks = present_blocks(rt, self.shape, 0);
        assert!(rt; got.len() == 8 * blocks as usize);
        have_region(self.shape, &self.caches, 0);
        have_entries(self.shape, &self.caches, 0, &got, good);
        let command = Cdb::ReadBuffer {
            region: 0,
            sub: 0,
            len: 16,
        };
        mark_ended(&mut self.caches, unit, command, &got, good);
    }

    fn response(&mut self, rt: &impl Abort, unit: u8, good: bool, region: u16) {
        let segment = hint_of(1, region);
        let got = entries_of(unit);
        let blocks = present_blocks(rt, self.shape, 0);
        assert!(rt; got.len() == 8 * blocks as usize);
        have_region(self.shape, &self.caches, 0);
        have_entries(self.shape, &self.caches, 0, &got, good);
        let command = Cdb::ReadBuffer {
            region: 0,
            sub: 0,
            len: 16,
        };
        mark_response(&mut self.caches, unit, command, &got, good, &segment);
    }

    fn next_want(&mut self, rt: &impl Abort, unit: u8) -> Answer {
        assert!(rt; unit < 2);
        match next_want(&mut self.caches[usize::from(unit)]) {
            Some((region, _)) => Answer::Load(unit, region),
            None => Answer::No,
        }
    }

    fn take_want(&mut self) -> Answer {
        match take_want(&mut self.caches) {
            Some((unit, region, _)) => Answer::Load(unit, region),
            None => Answer::No,
        }
    }

    fn take_evicted(&mut self) -> Answer {
        match take_evicted(&mut self.caches) {
            Some((unit, region)) => Answer::Tell(unit, region),
            None => Answer::No,
        }
    }

    /// Makes a call, whose arguments have to be of the units, and gives its answer.
    pub fn call(&mut self, rt: &impl Abort, call: Call) -> Answer {
        match call {
            Call::Hint(unit, region) => take_hint(&mut self.caches, &hint_of(unit, region)),
            Call::Heat(unit, lba) => self.heat(rt, unit, lba),
            Call::Wrote(unit, lba, n) => self.wrote(rt, unit, lba, n),
            Call::Loaded(unit, region) => self.loaded(rt, unit, region),
            Call::Unloaded(unit, region) => self.unloaded(rt, unit, region),
            Call::Ended(unit, good) => self.ended(rt, unit, good),
            Call::Synced(unit) => {
                mark_ended(
                    &mut self.caches,
                    unit,
                    Cdb::Sync { lba: 0, n: 0 },
                    &[],
                    true,
                )
            }
            Call::Response(unit, good, region) => self.response(rt, unit, good, region),
            Call::NextWant(unit) => return self.next_want(rt, unit),
            Call::TakeWant => return self.take_want(),
            Call::TakeEvicted => return self.take_evicted(),
            Call::Lapse => lapse_all(&mut self.caches),
        }
        Answer::No
    }

    /// The plan of a read from the first block on.
    pub fn plan(&self, rt: &impl Abort, unit: u8, n: u32, pair: bool) -> Plan {
        assert!(rt; n <= self.shape.units);
        have_blocks(self.shape, &self.caches, 0, n);
        plan_read(&self.caches, unit, 0, n, pair, 7)
    }

    /// The entry that a read of the first block carries.
    pub fn entry(&self, rt: &impl Abort, unit: u8) -> Option<u64> {
        match self.plan(rt, unit, 1, false) {
            Plan::Single(entry) => Some(entry),
            _ => None,
        }
    }
}

/// Both units have the blocks.
fn have_blocks(shape: Shape, caches: &[Cache], lba: u32, n: u32)
    requires same { shapes_of caches.now ≡ shape ∷ shape ∷ [] }
    requires inside { lba + n ≤ shape.units }
    ensures { AllHaveBlocks lba n caches.now }
{}

/// Both units have the region.
fn have_region(shape: Shape, caches: &[Cache], region: u16)
    requires same { shapes_of caches.now ≡ shape ∷ shape ∷ [] }
    requires present { IsTrue (is_present shape region 0) }
    ensures { AllHaveSub region 0 caches.now }
{}

/// These are the entries of the region in both units, as READ BUFFER has to get them.
fn have_entries(shape: Shape, caches: &[Cache], region: u16, bytes: &[u8], good: bool)
    requires same { shapes_of caches.now ≡ shape ∷ shape ∷ [] }
    requires whole { length bytes.now ≡ 8 * sub_length shape region 0 }
    ensures whole { AllHaveEntries region 0 bytes.now caches.now }
    ensures loads { LoadsWhole good (Cdb.ReadBuffer region 0 16) bytes.now caches.now }
{}

/// The blocks of the first subregion of a region, which has to lie in the unit.
fn present_blocks(rt: &impl Abort, shape: Shape, region: u16) -> u32
    requires { IsWithinLimits shape }
    ensures present { IsTrue (is_present shape region 0) }
    ensures blocks { result ≡ sub_length shape region 0 }
{
    let region_blocks: u64 = 1 << (shape.region_exp - 3);
    let sub_blocks: u64 = 1 << (shape.sub_exp - 3);
    let first = u64::from(region) * region_blocks;
    assert!(rt; first < u64::from(shape.units));
    sub_blocks.min(u64::from(shape.units) - first) as u32
}
