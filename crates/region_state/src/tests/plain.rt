//! What a device keeps of its regions, by other means: when each region was last used and when it was dropped.
use super::unit::{Answer, Call};
use crate::{Mode, Shape};
use std::alloc::{AllocError, Global};

/// Moments are counted from 1 on.
#[derive(Drop)]
pub struct Plain {
    shape: Shape,
    region_blocks: u32,
    sub_blocks: u32,
    moment: u64,
    /// When the host last used each region, 0 where it doesn't hold it.
    used: Vec<u64>,
    /// When each region was dropped, 0 where it isn't to be told.
    dropped: Vec<u64>,
    /// Whether each subregion is loaded, and its count.
    subregions: Vec<(bool, u8)>,
    news: bool,
}

/// The place of the least moment.
fn first_moment(moments: &[u64]) -> Option<usize> {
    let mut first = None;
    let mut least = u64::MAX;
    for (place, moment) in moments.iter().enumerate() {
        if 0 < *moment && *moment < least {
            least = *moment;
            first = Some(place);
        }
    }
    first
}

/// How many moments there are.
fn moment_count(moments: &[u64]) -> usize {
    moments.iter().filter(|moment| **moment > 0).count()
}

/// A number below another one, 0 where that is 0.
fn random_below(seed: &mut u64, limit: u32) -> u32 {
    *seed = seed
        .wrapping_mul(6_364_136_223_846_793_005)
        .wrapping_add(1_442_695_040_888_963_407);
    u32::try_from(*seed >> 33)
        .unwrap_or(0)
        .checked_rem(limit)
        .unwrap_or(0)
}

/// A number of two bytes.
fn narrow(number: u32) -> u16 {
    u16::try_from(number).unwrap_or(u16::MAX)
}

/// A moment or a subregion of a list takes another value.
fn put<T: Copy>(list: &mut [T], place: usize, value: T) {
    if let Some(item) = list.get_mut(place) {
        *item = value;
    }
}

impl Plain {
    /// The shape has regions and subregions of so many blocks.
    pub fn new(
        alloc: Global,
        shape: Shape,
        region_blocks: u32,
        sub_blocks: u32,
    ) -> Result<Plain, AllocError> {
        Ok(Plain {
            shape,
            region_blocks,
            sub_blocks,
            moment: 0,
            used: vec![in alloc; 0; 200]?,
            dropped: vec![in alloc; 0; 200]?,
            subregions: vec![in alloc; (false, 0); 200]?,
            news: false,
        })
    }

    fn region_of(&self, lba: u32) -> u32 {
        lba.checked_div(self.region_blocks).unwrap_or(0)
    }

    fn subregion_of(&self, lba: u32) -> u32 {
        lba.checked_div(self.sub_blocks).unwrap_or(0)
    }

    fn next_moment(&mut self) -> u64 {
        self.moment = self.moment.saturating_add(1);
        self.moment
    }

    /// Counts at a subregion, if it is loaded or isn't, as is asked.
    fn count(&mut self, number: usize, is_loaded: bool) {
        let limit = if is_loaded { 8 } else { 4 };
        if let Some((loaded, count)) = self.subregions.get(number).copied() {
            if loaded == is_loaded && count < limit {
                put(&mut self.subregions, number, (loaded, count + 1));
            }
        }
    }

    /// Takes in a read of a block, the first one that is read of its region, of its subregion, or neither.
    fn read_block(&mut self, lba: u32, is_first: bool, plain: bool) {
        let region = self.region_of(lba);
        if is_first || self.region_of(lba.saturating_sub(1)) != region {
            if self.used.get(region as usize).copied().unwrap_or(0) > 0 {
                let moment = self.next_moment();
                put(&mut self.used, region as usize, moment);
            }
        }
        let number = self.subregion_of(lba);
        if plain && (is_first || self.subregion_of(lba.saturating_sub(1)) != number) {
            self.count(number as usize, false);
        }
    }

    fn read(&mut self, lba: u32, n: u32, plain: bool) {
        for block in lba..lba.saturating_add(n) {
            self.read_block(block, block == lba, plain);
        }
    }

    fn forget(&mut self, region: u32) {
        for block in 0..self.shape.units {
            if self.region_of(block) == region {
                let number = self.subregion_of(block);
                put(&mut self.subregions, number as usize, (false, 0));
            }
        }
    }

    fn loaded(&mut self, region: u32, sub: u32) {
        let is_held = self.used.get(region as usize).copied().unwrap_or(0) > 0;
        if !is_held && moment_count(&self.used) == usize::from(self.shape.held) {
            if let Some(last) = first_moment(&self.used) {
                let moment = self.next_moment();
                put(&mut self.used, last, 0);
                put(&mut self.dropped, last, moment);
                self.forget(u32::try_from(last).unwrap_or(0));
            }
        }
        let moment = self.next_moment();
        put(&mut self.used, region as usize, moment);
        put(&mut self.dropped, region as usize, 0);
        let block = region
            .saturating_mul(self.region_blocks)
            .saturating_add(sub.saturating_mul(self.sub_blocks));
        let number = self.subregion_of(block);
        put(&mut self.subregions, number as usize, (true, 0));
    }

    fn inactivate(&mut self, region: u32) {
        put(&mut self.used, region as usize, 0);
        put(&mut self.dropped, region as usize, 0);
        self.forget(region);
    }

    fn inactivate_all(&mut self) {
        for region in 0..200 {
            self.inactivate(region);
        }
    }

    fn take_active(&mut self) -> Option<(u16, u16)> {
        if self.shape.mode == Mode::Host {
            return None;
        }
        for block in 0..self.shape.units {
            let number = self.subregion_of(block);
            let subregion = self.subregions.get(number as usize).copied();
            if subregion == Some((false, 4)) || subregion == Some((true, 8)) {
                put(
                    &mut self.subregions,
                    number as usize,
                    (subregion == Some((true, 8)), 0),
                );
                let region = self.region_of(block);
                let sub = self.subregion_of(block.saturating_sub(region.saturating_mul(
                    self.region_blocks,
                )));
                return Some((narrow(region), narrow(sub)));
            }
        }
        None
    }

    fn take_gone(&mut self) -> Option<u16> {
        let first = first_moment(&self.dropped)?;
        put(&mut self.dropped, first, 0);
        u16::try_from(first).ok()
    }

    fn take_news(&mut self) -> bool {
        let news = self.news;
        self.news = false;
        news
    }

    /// The answer of a call.
    pub fn call(&mut self, call: Call) -> Answer {
        match call {
            Call::Read(lba, n, plain) => self.read(lba, n, plain),
            Call::Changed(lba) => {
                let number = self.subregion_of(lba);
                self.count(number as usize, true);
            }
            Call::Loaded(region, sub) => self.loaded(u32::from(region), u32::from(sub)),
            Call::Inactivate(region) => self.inactivate(u32::from(region)),
            Call::InactivateAll => self.inactivate_all(),
            Call::Reset => {
                self.inactivate_all();
                self.news = true;
            }
            Call::TakeActive => return Answer::Active(self.take_active()),
            Call::TakeGone => return Answer::Gone(self.take_gone()),
            Call::TakeNews => return Answer::News(self.take_news()),
        }
        Answer::Nothing
    }

    /// Some call whose arguments are of the unit. Most are reads and changes.
    pub fn random_call(&self, seed: &mut u64) -> Call {
        let lba = random_below(seed, self.shape.units);
        let region = self.region_of(lba);
        let sub = self.subregion_of(lba.saturating_sub(region.saturating_mul(self.region_blocks)));
        match random_below(seed, 200) {
            0..80 => {
                let n = random_below(seed, 20).min(self.shape.units.saturating_sub(lba));
                Call::Read(lba, n, random_below(seed, 4) > 0)
            }
            80..140 => Call::Changed(lba),
            140..170 => Call::Loaded(narrow(region), narrow(sub)),
            170..178 => Call::Inactivate(narrow(region)),
            178 => Call::InactivateAll,
            179 => Call::Reset,
            180..187 => Call::TakeActive,
            187..194 => Call::TakeGone,
            _ => Call::TakeNews,
        }
    }
}
