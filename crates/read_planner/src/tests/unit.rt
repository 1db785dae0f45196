//! A cache with the shape of its unit.
ghost use Rattle.std.specs.Prelude.{◌≡◌};
ghost use Rattle.region_state.specs.Shape.{IsWithinLimits};

use crate::{Plan, plan};
use arrayvec::ArrayVec;
use host_map_cache::Cache;
use hpb_outside::NewFault;
use hpb_sense::Hint;
use region_state::Shape;
use std::alloc::{AllocError, Global};
use std::process::Abort;

/// The cache of a unit, and its shape.
#[derive(Drop)]
pub struct Unit {
    alloc: Global,
    shape: Shape,
    cache: Cache,
    ghost limits: { IsWithinLimits shape },
    ghost same: { cache.shape ≡ shape },
}

impl Unit {
    pub fn new(alloc: Global, shape: Shape) -> Result<Unit, NewFault> {
        match Cache::new(alloc, shape) {
            Ok(cache) => Ok(Unit {
                alloc,
                shape,
                cache,
            }),
            Err(fault) => Err(fault),
        }
    }

    /// A hint to load the first subregion of a region.
    pub fn hint(&mut self, region: u16) {
        let mut active = ArrayVec::new();
        active.push((region, 0));
        self.cache.hint(&Hint {
            op: 1,
            lun: 0,
            active,
            inactive: ArrayVec::new(),
        });
    }

    /// Loads the first subregion of a region after a hint: the entry of each block is its number.
    pub fn load(&mut self, rt: &impl Abort, region: u16) -> Result<(), AllocError> {
        self.hint(region);
        let shape = self.shape;
        assert!(rt;
            3 <= shape.sub_exp && shape.sub_exp <= shape.region_exp && shape.region_exp <= 19
        );
        let region_blocks: u32 = 1 << (shape.region_exp - 3);
        let sub_blocks: u32 = 1 << (shape.sub_exp - 3);
        let first = u64::from(region) * u64::from(region_blocks);
        assert!(rt; first < u64::from(shape.units));
        let blocks = sub_blocks.min(shape.units - first as u32);
        let bytes = numbers(self.alloc, first as u32, blocks)?;
        assert!(rt; bytes.len() == 8 * blocks as usize);
        assert!(rt; self.cache.issued(region, 0));
        self.cache.loaded(region, 0, &bytes);
        Ok(())
    }

    pub fn wrote(&mut self, rt: &impl Abort, lba: u32) {
        assert!(rt; lba < self.shape.units);
        self.cache.wrote(lba, 1);
    }

    pub fn plan(&self, rt: &impl Abort, lba: u32, n: u32, pair: bool) -> Plan {
        assert!(rt; lba <= self.shape.units && n <= self.shape.units - lba);
        plan(&self.cache, lba, n, pair, 7)
    }
}

/// Numbers of 8 bytes.
fn numbers(alloc: Global, first: u32, count: u32) -> Result<Vec<u8>, AllocError> {
    let mut bytes = Vec::new(alloc);
    for number in first..first.saturating_add(count) {
        bytes.extend_from_slice(&u64::from(number).to_be_bytes())?;
    }
    Ok(bytes)
}
