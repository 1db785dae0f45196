//! The calls of `Regions` as values, so that a table can list them.
ghost use Rattle.std.specs.Prelude.{◌≡◌};
ghost use Rattle.region_state.specs.Shape.{IsWithinLimits};

use crate::{Regions, Shape};
use hpb_outside::NewFault;
use std::alloc::Global;
use std::process::Abort;

/// A call of `Regions`, with its arguments.
#[derive(Clone, Copy, Debug)]
pub enum Call {
    Read(u32, u32, bool),
    Changed(u32),
    Loaded(u16, u16),
    Inactivate(u16),
    InactivateAll,
    Reset,
    TakeActive,
    TakeGone,
    TakeNews,
}

/// What a call answers.
#[derive(Clone, Copy, Debug, PartialEq, Eq)]
pub enum Answer {
    Nothing,
    Active(Option<(u16, u16)>),
    Gone(Option<u16>),
    News(bool),
}

impl Answer {
    /// Whether it tells the host something.
    pub fn tells(self) -> bool {
        match self {
            Answer::Nothing => false,
            Answer::Active(active) => active.is_some(),
            Answer::Gone(gone) => gone.is_some(),
            Answer::News(news) => news,
        }
    }
}

/// The regions of a unit, and its shape.
#[derive(Drop)]
pub struct Unit {
    shape: Shape,
    regions: Regions,
    ghost limits: { IsWithinLimits shape },
    ghost same: { regions.shape ≡ shape },
}

impl Unit {
    pub fn new(alloc: Global, shape: Shape) -> Result<Unit, NewFault> {
        match Regions::new(alloc, shape) {
            Ok(regions) => Ok(Unit { shape, regions }),
            Err(fault) => Err(fault),
        }
    }

    fn read(&mut self, rt: &impl Abort, lba: u32, n: u32, plain: bool) {
        assert!(rt; lba <= self.shape.units && n <= self.shape.units - lba);
        self.regions.read(lba, n, plain);
    }

    fn changed(&mut self, rt: &impl Abort, lba: u32) {
        assert!(rt; lba < self.shape.units);
        self.regions.changed(lba);
    }

    fn loaded(&mut self, rt: &impl Abort, region: u16, sub: u16) {
        let shape = self.shape;
        assert!(rt; u32::from(sub) < shape.per_region());
        let first = u64::from(region) * (1 << (shape.region_exp - 3));
        let block = first + u64::from(sub) * (1 << (shape.sub_exp - 3));
        assert!(rt; block < u64::from(shape.units));
        self.regions.loaded(region, sub);
    }

    fn inactivate(&mut self, rt: &impl Abort, region: u16) {
        let shape = self.shape;
        let block = u64::from(region) * (1 << (shape.region_exp - 3));
        assert!(rt; block < u64::from(shape.units));
        self.regions.inactivate(region);
    }

    /// Makes a call, whose arguments have to be of the unit.
    pub fn call(&mut self, rt: &impl Abort, call: Call) -> Answer {
        match call {
            Call::Read(lba, n, plain) => self.read(rt, lba, n, plain),
            Call::Changed(lba) => self.changed(rt, lba),
            Call::Loaded(region, sub) => self.loaded(rt, region, sub),
            Call::Inactivate(region) => self.inactivate(rt, region),
            Call::InactivateAll => self.regions.inactivate_all(),
            Call::Reset => self.regions.reset(),
            Call::TakeActive => return Answer::Active(self.regions.take_active()),
            Call::TakeGone => return Answer::Gone(self.regions.take_gone()),
            Call::TakeNews => return Answer::News(self.regions.take_news()),
        }
        Answer::Nothing
    }

    /// Makes a call so many times.
    pub fn repeat(&mut self, rt: &impl Abort, times: u8, call: Call) {
        for _ in 0..times {
            self.call(rt, call);
        }
    }
}
