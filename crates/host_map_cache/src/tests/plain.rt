//! What a host keeps of a unit, by other means: lists of pairs that are walked block by block.
use super::unit::Call;
use region_state::{Mode, Shape};
use std::alloc::{AllocError, Global};

/// The state of a block's subregion.
#[derive(Clone, Copy, Debug, PartialEq, Eq)]
enum State {
    Unused,
    Invalid,
    Issued,
    Valid,
}

/// What is kept of a block.
#[derive(Clone, Copy, Debug)]
struct Block {
    state: State,
    entry: u64,
    dirty: bool,
}

/// A block of which nothing is known.
const UNKNOWN: Block = Block {
    state: State::Unused,
    entry: 0,
    dirty: false,
};

/// A region and its blocks.
#[derive(Drop)]
struct Kept {
    region: u16,
    blocks: Vec<Block>,
}

/// The most recent region comes first. A region has at most 4 blocks.
#[derive(Drop)]
pub struct Plain {
    alloc: Global,
    shape: Shape,
    region_blocks: u32,
    sub_blocks: u32,
    held: Vec<Kept>,
    wants: Vec<(u16, u16)>,
    evicted: Vec<u16>,
    heat: Vec<u8>,
}

/// A number below another one, 0 where that is 0.
fn random_below(seed: &mut u64, limit: u32) -> u32 {
    *seed = seed
        .wrapping_mul(6_364_136_223_846_793_005)
        .wrapping_add(1_442_695_040_888_963_407);
    u32::try_from(*seed >> 33)
        .unwrap_or(0)
        .checked_rem(limit)
        .unwrap_or(0)
}

/// A number of two bytes.
fn narrow(number: u32) -> u16 {
    u16::try_from(number).unwrap_or(u16::MAX)
}

fn set_dirty(blocks: &mut [Block], place: usize) {
    if let Some(block) = blocks.get_mut(place) {
        block.dirty = true;
    }
}

fn lapse_blocks(blocks: &mut [Block]) {
    for block in blocks.iter_mut() {
        *block = changed(*block, 0, Call::Lapse);
    }
}

/// Takes an item out of a list.
fn take_out<T: Copy>(list: &mut Vec<T>, place: usize) {
    if place < list.len() {
        list.remove(place);
    }
}

impl Plain {
    /// The shape has regions and subregions of so many blocks.
    pub fn new(
        alloc: Global,
        shape: Shape,
        region_blocks: u32,
        sub_blocks: u32,
    ) -> Result<Plain, AllocError> {
        Ok(Plain {
            alloc,
            shape,
            region_blocks,
            sub_blocks,
            held: Vec::new(alloc),
            wants: Vec::new(alloc),
            evicted: Vec::new(alloc),
            heat: vec![in alloc; 0; 200]?,
        })
    }

    /// The region and the subregion of a block, and its place in the region.
    fn places_of(&self, lba: u32) -> (u16, u16, usize) {
        let region = lba.checked_div(self.region_blocks).unwrap_or(0);
        let place = lba.checked_rem(self.region_blocks).unwrap_or(0);
        let sub = place.checked_div(self.sub_blocks).unwrap_or(0);
        (narrow(region), narrow(sub), place as usize)
    }

    /// The place of a region in the list.
    fn place(&self, region: u16) -> Option<usize> {
        for (place, kept) in self.held.iter().enumerate() {
            if kept.region == region {
                return Some(place);
            }
        }
        None
    }

    /// What is kept of the first block of a subregion.
    fn state(&self, region: u16, sub: u16) -> State {
        let Some(place) = self.place(region) else {
            return State::Unused;
        };
        let first = u32::from(sub).saturating_mul(self.sub_blocks) as usize;
        match self.held.get(place) {
            Some(kept) => kept.blocks.get(first).copied().unwrap_or(UNKNOWN).state,
            None => State::Unused,
        }
    }

    /// Changes each block of a subregion, where its region is held.
    fn change(&mut self, region: u16, sub: u16, call: Call) {
        let Some(place) = self.place(region) else {
            return;
        };
        let first = u32::from(sub).saturating_mul(self.sub_blocks);
        if let Some(kept) = self.held.get_mut(place) {
            for (number, block) in kept.blocks.iter_mut().enumerate() {
                let number = u32::try_from(number).unwrap_or(0);
                if first <= number && number < first.saturating_add(self.sub_blocks) {
                    *block = changed(*block, number.saturating_sub(first), call);
                }
            }
        }
    }

    fn is_present(&self, region: u16, sub: u16) -> bool {
        let offset = u32::from(sub).saturating_mul(self.sub_blocks);
        let first = u32::from(region).saturating_mul(self.region_blocks);
        offset < self.region_blocks && first.saturating_add(offset) < self.shape.units
    }

    fn give_up(&mut self, region: u16) {
        let place = self.place(region).unwrap_or(usize::MAX);
        if place < self.held.len() {
            self.held.remove(place);
        }
    }

    fn give_up_last(&mut self) -> Result<(), AllocError> {
        if let Some(last) = self.held.pop() {
            if self.shape.mode == Mode::Host {
                self.evicted.push(last.region)?;
            }
        }
        Ok(())
    }

    fn hold(&mut self, region: u16) -> Result<(), AllocError> {
        if self.place(region).is_some() {
            return Ok(());
        }
        self.evicted.retain(|other| *other != region);
        if self.held.len() == usize::from(self.shape.held) {
            self.give_up_last()?;
        }
        let blocks = vec![in self.alloc; UNKNOWN; 4]?;
        self.held.insert(0, Kept { region, blocks })?;
        Ok(())
    }

    fn activate(&mut self, region: u16, sub: u16) -> Result<(), AllocError> {
        if self.is_present(region, sub) && self.state(region, sub) != State::Issued {
            self.hold(region)?;
            self.change(region, sub, Call::TakeWant);
            if !self.wants.contains(&(region, sub)) {
                self.wants.push((region, sub))?;
            }
        }
        Ok(())
    }

    /// One plain read of a subregion.
    fn warm(&mut self, region: u16, sub: u16) -> Result<(), AllocError> {
        if self.state(region, sub) == State::Issued {
            return Ok(());
        }
        // At most 4 subregions are in a region.
        let number = usize::from(region)
            .saturating_mul(4)
            .saturating_add(usize::from(sub));
        let heat = self
            .heat
            .get(number)
            .copied()
            .unwrap_or(0)
            .saturating_add(1);
        if let Some(kept) = self.heat.get_mut(number) {
            *kept = heat % 4;
        }
        if heat == 4 {
            self.activate(region, sub)?;
        }
        Ok(())
    }

    fn plain_read(&mut self, lba: u32, n: u32) -> Result<(), AllocError> {
        let mut last = None;
        for block in lba..lba.saturating_add(n) {
            let (region, sub, _) = self.places_of(block);
            if last != Some((region, sub)) {
                self.warm(region, sub)?;
            }
            last = Some((region, sub));
        }
        Ok(())
    }

    fn bring_to_front(&mut self, place: usize) -> Result<(), AllocError> {
        if place < self.held.len() {
            let kept = self.held.remove(place);
            self.held.insert(0, kept)?;
        }
        Ok(())
    }

    fn touch(&mut self, lba: u32, n: u32) -> Result<(), AllocError> {
        for block in lba..lba.saturating_add(n) {
            let (region, _, _) = self.places_of(block);
            if let Some(place) = self.place(region) {
                self.bring_to_front(place)?;
            }
        }
        Ok(())
    }

    fn wrote(&mut self, lba: u32, n: u32) {
        for block in lba..lba.saturating_add(n) {
            let (region, _, number) = self.places_of(block);
            let place = self.place(region).unwrap_or(usize::MAX);
            if let Some(kept) = self.held.get_mut(place) {
                set_dirty(&mut kept.blocks, number);
            }
        }
    }

    fn hint(
        &mut self,
        op: u8,
        first: (u16, u16),
        second: (u16, u16),
        gone: Option<u16>,
    ) -> Result<(), AllocError> {
        if op == 2 {
            self.drop_all();
        }
        if op == 1 {
            if let Some(region) = gone {
                self.give_up(region);
            }
            self.activate(first.0, first.1)?;
            self.activate(second.0, second.1)?;
        }
        Ok(())
    }

    fn drop_all(&mut self) {
        self.held.clear();
        self.wants.clear();
        self.evicted.clear();
    }

    fn lapse(&mut self) {
        for kept in self.held.iter_mut() {
            lapse_blocks(&mut kept.blocks);
        }
        self.wants.clear();
        self.evicted.clear();
    }

    /// The answer of a call.
    pub fn call(&mut self, call: Call) -> Result<bool, AllocError> {
        match call {
            Call::Hint(op, first, second, gone) => self.hint(op, first, second, gone)?,
            Call::PlainRead(lba, n) if self.shape.mode == Mode::Host => self.plain_read(lba, n)?,
            Call::PlainRead(_, _) => {}
            Call::Touch(lba, n) => self.touch(lba, n)?,
            Call::Wrote(lba, n) => self.wrote(lba, n),
            Call::Issued(region, sub) => {
                let is_issued = self.state(region, sub) == State::Issued;
                self.change(region, sub, call);
                return Ok(is_issued);
            }
            Call::Loaded(region, sub, _) => self.change(region, sub, call),
            Call::Unloaded(region, sub) => self.change(region, sub, call),
            Call::TakeWant => take_out(&mut self.wants, 0),
            Call::TakeEvicted => take_out(&mut self.evicted, 0),
            Call::DropAll => self.drop_all(),
            Call::Lapse => self.lapse(),
        }
        Ok(false)
    }

    /// What comes first of the subregions to load and of the regions that were given up.
    pub fn firsts(&self) -> (Option<(u16, u16)>, Option<u16>) {
        (self.wants.first().copied(), self.evicted.first().copied())
    }

    pub fn entry(&self, lba: u32) -> Option<u64> {
        let (region, _, number) = self.places_of(lba);
        let kept = self.held.get(self.place(region)?)?;
        let block = kept.blocks.get(number).copied()?;
        if block.state == State::Valid && !block.dirty {
            Some(block.entry)
        } else {
            None
        }
    }

    /// Some call whose arguments are of the unit, but for those of a hint.
    pub fn random_call(&self, seed: &mut u64) -> Call {
        let lba = random_below(seed, self.shape.units);
        let n = random_below(seed, 7).min(self.shape.units.saturating_sub(lba));
        let (mut region, mut sub, _) = self.places_of(lba);
        if random_below(seed, 2) == 0 {
            (region, sub) = self.wants.first().copied().unwrap_or((region, sub));
        }
        let kind = random_below(seed, 200);
        match kind {
            0..24 => self.random_hint(seed),
            24..64 => Call::PlainRead(lba, n),
            64..74 => Call::Touch(lba, n),
            74..84 => Call::Wrote(lba, n),
            84..104 => Call::Issued(region, sub),
            104..166 => Call::Loaded(region, sub, kind as u8),
            166..172 => Call::Unloaded(region, sub),
            172..186 => Call::TakeWant,
            186..198 => Call::TakeEvicted,
            198 => Call::DropAll,
            _ => Call::Lapse,
        }
    }

    /// Most hints tell something, and some name what isn't there.
    fn random_hint(&self, seed: &mut u64) -> Call {
        let op = [1, 1, 1, 1, 1, 1, 1, 1, 1, 1, 1, 1, 1, 1, 0, 3];
        let regions = self
            .shape
            .units
            .checked_div(self.region_blocks)
            .unwrap_or(0);
        let first = (
            random_below(seed, regions.saturating_add(2)),
            random_below(seed, 3),
        );
        let second = (
            random_below(seed, regions.saturating_add(2)),
            random_below(seed, 3),
        );
        let gone = if random_below(seed, 4) == 0 {
            Some(narrow(random_below(seed, regions.saturating_add(2))))
        } else {
            None
        };
        let place = random_below(seed, 17) as usize;
        Call::Hint(
            op.get(place).copied().unwrap_or(2),
            (narrow(first.0), narrow(first.1)),
            (narrow(second.0), narrow(second.1)),
            gone,
        )
    }
}

/// A block after a call on its subregion, where it has this place. TakeWant stands for asking.
fn changed(block: Block, place: u32, call: Call) -> Block {
    let mut new = block;
    match (call, block.state) {
        (Call::TakeWant, _) => new.state = State::Issued,
        (Call::Issued(_, _), State::Issued) => new.dirty = false,
        (Call::Loaded(_, _, byte), State::Issued) => {
            new.state = State::Valid;
            new.entry = u64::from(byte)
                .wrapping_mul(1 << 56)
                .wrapping_add(u64::from(place));
        }
        (Call::Unloaded(_, _), State::Issued) => new.state = State::Invalid,
        (Call::Lapse, State::Issued) => new.state = State::Invalid,
        _ => {}
    }
    new
}
