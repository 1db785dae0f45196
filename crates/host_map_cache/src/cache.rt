//! The cache of one unit.
ghost use Rattle.region_state.specs.Shape.{IsWithinLimits};
ghost use Rattle.std.specs.Prelude.{◌≡◌, ◌≢◌, ◌<◌, ◌≤◌, ◌+◌, ◌*◌, ◌/◌, ◌%◌, ◌^◌, IsTrue, IsOk, IfOk, ◌↔◌, ◌&&◌};
ghost use Rattle.std.specs.Prelude.{slice_get, drop, length, true, nat_eq};
ghost use Rattle.std.specs.Prelude.{IfSome, not, filter, fold};
ghost use Rattle.std.specs.VecDeque.{deque_capacity};
ghost use Rattle.std.specs.List.{list_any};
ghost use Rattle.std.specs.Map.{remove_entry};
ghost use Rattle.host_map_cache.specs.Shapes.{is_present, region_blocks};
ghost use Rattle.host_map_cache.specs.Regions.{is_issued};
ghost use Rattle.host_map_cache.specs.Cache.{empty_cache, claimed, asked, heated, activated, hinted, plainly_read};
ghost use Rattle.host_map_cache.specs.Cache.{issued, loaded, unloaded, written, touched, covers, entry_of, dropped};
ghost use Rattle.host_map_cache.specs.Cache.{lapsed, state_of, sub_length, with_held, without};

use crate::slots::{Slots, SubregionState};
use hpb_outside::NewFault;
use hpb_sense::Hint;
use region_state::{Mode, Shape};
use std::alloc::{AllocError, Global};
use std::collections::VecDeque;
use std::marker::Model;

/// What the host keeps of a unit's map: the entries of some regions, the most recent one first, which of them may be
/// used, which subregions are to be loaded, and which regions were given up and not told yet.
///
/// Blocks have 4096 bytes. A region is named by its number in the unit, a subregion by its region and its number there,
/// all from 0 on. All memory is taken by `new`. Below, a look-up is a walk over the held regions, of which there are
/// 32 at most, from the most recent one on.
#[derive(Drop)]
pub struct Cache {
    shape: Shape,
    region_blocks: u32,
    sub_blocks: u32,
    slots: Slots,
    wants: VecDeque<(u16, u16)>,
    evicted: VecDeque<u16>,
    heat: Vec<u8>,
}

impl Model for Cache {
    ghost use Rattle.std.specs.VecDeque.{deque_capacity};
    ghost use Rattle.host_map_cache.specs.Cache.{CacheState, IsCache};

    ghost Value = { CacheState };

    ghost view = { λ c. record {
      shape = c.shape;
      held = c.slots.regions;
      wants = c.wants.items;
      evicted = c.evicted.items;
      heat = c.heat.items;
    } };

    ghost invariant = { λ c.
        IsCache c.shape c.region_blocks c.sub_blocks c.slots c.heat.items c.wants.items c.evicted.items
        (deque_capacity c.wants) (deque_capacity c.evicted) };
}

impl Cache {
    /// A cache that holds nothing.
    ///
    /// It takes all its memory here: for each region that may be held and each block of a region that lies in the unit
    /// 8 bytes and a bit, and a byte for each subregion of that region; two bytes for each region of the unit, and five
    /// for each of its subregions. It writes all of these bytes but those of the lists.
    ///
    /// The fault is `Geometry` exactly where the shape is outside its limits (`Shape::is_within_limits`), else
    /// `Memory`.
    pub fn new(alloc: Global, shape: Shape) -> Result<Cache, NewFault>
        ensures made { IfOk result (λ cache. cache ≡ empty_cache shape) }
        ensures geometry { result ≡ Err NewFault.Geometry → ¬ IsWithinLimits shape }
        ensures limits { result ≢ Err NewFault.Geometry → IsWithinLimits shape }
    {
        if !shape.is_within_limits() {
            return Err(NewFault::Geometry);
        }
        match Cache::with_memory(alloc, shape) {
            Ok(cache) => Ok(cache),
            Err(_) => Err(NewFault::Memory),
        }
    }

    fn with_memory(alloc: Global, shape: Shape) -> Result<Cache, AllocError>
        requires { IsWithinLimits shape }
        ensures { IfOk result (λ cache. cache ≡ empty_cache shape) }
    {
        let region_blocks: u32 = 1 << (shape.region_exp - 3);
        let sub_blocks: u32 = 1 << (shape.sub_exp - 3);
        let blocks = shape.units.min(region_blocks);
        let subregions = (blocks - 1) / sub_blocks + 1;
        let last = shape.units - 1;
        let unit_subregions = usize::from(shape.subregion_of(last)) + 1;
        let unit_regions = usize::from(shape.region_of(last)) + 1;
        Ok(Cache {
            shape,
            region_blocks,
            sub_blocks,
            slots: Slots::new(alloc, shape.held, subregions as usize, blocks as usize)?,
            wants: VecDeque::with_capacity(alloc, unit_subregions)?,
            evicted: VecDeque::with_capacity(alloc, unit_regions)?,
            heat: vec![in alloc; 0; unit_subregions]?,
        })
    }

    /// A plain read of `n` blocks from `lba` on went out. Where the host chooses the regions, each subregion that it
    /// touches and that isn't asked for gets warmer, lowest first. At the fourth read it is cold again and is asked
    /// for, as in `hint`.
    ///
    /// It costs one look-up for each of these subregions, and for one that is asked for as much as in `hint`.
    #[tactic(auto, unfolding(crate::specs::Cache::plainly_read))]
    pub fn plain_read(&mut self, lba: u32, n: u32)
        requires { lba + n ≤ self.old.shape.units }
        ensures after { self.new ≡ plainly_read self.old lba n }
        ensures shape { self.new.shape ≡ self.old.shape }
    {
        if let Mode::Host = self.shape.mode {
            if n > 0 {
                let first = lba / self.sub_blocks;
                let last = (lba + n - 1) / self.sub_blocks;
                for number in first..last + 1 {
                    self.heat_up(number);
                }
            }
        }
    }

    /// One plain read of a subregion, by its number in the unit.
    fn heat_up(&mut self, number: u32)
        requires { number < length self.old.heat }
        ensures after { self.new ≡ heated self.old number }
        ensures shape { self.new.shape ≡ self.old.shape }
        ensures heat { length self.new.heat ≡ length self.old.heat }
    {
        let first = number * self.sub_blocks;
        let region = (first / self.region_blocks) as u16;
        let sub = (first % self.region_blocks / self.sub_blocks) as u16;
        if self.slots.state(region, sub as usize) == SubregionState::Issued {
            return;
        }
        let heat = self.heat[number as usize] as u32 + 1;
        if heat < 4 {
            self.heat[number as usize] = heat as u8;
        } else {
            self.heat[number as usize] = 0;
            self.activate(region, sub);
        }
    }

    /// A hint of the device: operation 2 drops all, and operation 1 gives its inactive regions up and then asks for its
    /// active subregions, in order. A subregion outside the unit or asked for already is passed over. Else its region
    /// becomes the most recent one, where it wasn't held, and the last one is given up where there is no room.
    ///
    /// It costs a few look-ups for each of these, at most four, and for a subregion that is asked for a walk over those
    /// that are to be loaded. A region that wasn't held costs one write of all its entries, 8 bytes a block, and a walk
    /// over those that are to be told.
    #[tactic(auto, unfolding(crate::specs::Cache::hinted))]
    pub fn hint(&mut self, hint: &Hint)
        ensures after { self.new ≡ hinted self.old hint.now }
        ensures shape { self.new.shape ≡ self.old.shape }
    {
        match hint.op {
            2 => self.drop_all(),
            1 => {
                self.give_up_each(hint.inactive.as_slice());
                self.activate_each(hint.active.as_slice());
            }
            _ => {}
        }
    }

    /// Gives regions up, where they are held.
    fn give_up_each(&mut self, regions: &[u16])
        ensures after { self.new ≡ without self.old regions.now }
        ensures shape { self.new.shape ≡ self.old.shape }
    {
        for region in regions {
            self.give_up(*region);
        }
    }

    /// Gives a region up, where it is held.
    fn give_up(&mut self, region: u16)
        ensures { self.new ≡ with_held self.old (remove_entry (nat_eq region) self.old.held) }
    {
        self.slots.remove(region);
    }

    /// Asks for subregions, in order.
    fn activate_each(&mut self, pairs: &[(u16, u16)])
        ensures after { self.new ≡ fold activated self.old pairs.now }
        ensures shape { self.new.shape ≡ self.old.shape }
    {
        for pair in pairs {
            self.activate(pair.0, pair.1);
        }
    }

    /// Asks for a subregion, where it is present and wasn't asked for.
    #[tactic(auto, unfolding(crate::specs::Cache::activated))]
    fn activate(&mut self, region: u16, sub: u16)
        ensures after { self.new ≡ activated self.old (region, sub) }
        ensures shape { self.new.shape ≡ self.old.shape }
        ensures heat { length self.new.heat ≡ length self.old.heat }
    {
        if !self.is_present(region, sub)
            || self.slots.state(region, sub as usize) == SubregionState::Issued
        {
            return;
        }
        self.hold(region);
        self.ask(region, sub);
    }

    /// Holds a region as the most recent one, where it isn't held.
    fn hold(&mut self, region: u16)
        requires { region * region_blocks self.old.shape < self.old.shape.units }
        ensures { self.new ≡ claimed self.old region }
    {
        if self.slots.get(region).is_some() {
            return;
        }
        remove(&mut self.evicted, region);
        let last = self.slots.claim(region);
        if let (Some(last), Mode::Host) = (last, self.shape.mode) {
            self.evicted.push_back(last).unwrap();
        }
    }

    /// Asks for a present subregion.
    fn ask(&mut self, region: u16, sub: u16)
        requires { IsTrue (is_present self.old.shape region sub) }
        ensures { self.new ≡ asked self.old region sub }
    {
        let is_wanted = self.is_wanted(region, sub);
        self.slots
            .set_state(region, sub as usize, SubregionState::Issued);
        if !is_wanted {
            self.wants.push_back((region, sub)).unwrap();
        }
    }

    /// Whether a subregion stands among those to load.
    fn is_wanted(&self, region: u16, sub: u16) -> bool
        ensures { result ≡ list_any (λ want. nat_eq want.0 region && nat_eq want.1 sub) self.now.wants }
    {
        self.wants
            .iter()
            .any(|want| want.0 == region && want.1 == sub)
    }

    /// The entry of a block, where it is covered. It costs one look-up.
    pub fn entry(&self, lba: u32) -> Option<u64>
        requires { lba < self.now.shape.units }
        ensures { result ≡ entry_of self.now lba }
    {
        let place = lba % self.region_blocks;
        self.slots.entry(
            (lba / self.region_blocks) as u16,
            (place / self.sub_blocks) as usize,
            place as usize,
        )
    }

    /// Whether each block of a range is in a Valid subregion and wasn't written since, and there is one. It costs one
    /// look-up for each block.
    pub fn covers(&self, lba: u32, n: u32) -> bool
        requires { lba + n ≤ self.now.shape.units }
        ensures answer { result ≡ covers self.now lba n }
        ensures small { lba + n < 2 ^ 32 }
    {
        let _shape = &self.shape;
        for block in lba..lba + n {
            if self.entry(block).is_none() {
                return false;
            }
        }
        n > 0
    }

    /// A read of `n` blocks from `lba` on went out: each region that it touches and that is held becomes the most
    /// recent one, lowest number first. It costs one look-up for each.
    pub fn touch(&mut self, lba: u32, n: u32)
        requires { lba + n ≤ self.old.shape.units }
        ensures { self.new ≡ touched self.old lba n }
    {
        if n > 0 {
            let first = lba / self.region_blocks;
            let last = (lba + n - 1) / self.region_blocks;
            for region in first..last + 1 {
                self.slots.to_front(region as u16);
            }
        }
    }

    /// A write of `n` blocks from `lba` on went out: these blocks aren't covered until the entries of their subregion
    /// are read anew, by `issued` and then `loaded`. It costs a walk over the held regions and over the blocks.
    pub fn wrote(&mut self, lba: u32, n: u32)
        requires { lba + n ≤ self.old.shape.units }
        ensures { self.new ≡ written self.old lba n }
    {
        self.slots.mark_written(self.region_blocks, lba, n);
    }

    /// The entries of a subregion are about to be read: whether it was asked for. If so, none of its blocks counts as
    /// written from now on. It costs two look-ups, and a walk over what is known of its blocks.
    pub fn issued(&mut self, region: u16, sub: u16) -> bool
        requires { IsTrue (is_present self.old.shape region sub) }
        ensures answer { result ≡ is_issued (state_of self.old region sub) }
        ensures after { self.new ≡ issued self.old region sub }
    {
        let is_issued = self.slots.state(region, sub as usize) == SubregionState::Issued;
        if is_issued {
            let from = sub as u32 * self.sub_blocks;
            let until = from + self.sub_length(region, sub);
            self.slots
                .set_dirty(region, from as usize, until as usize, false);
        }
        is_issued
    }

    /// The entries of a subregion have come, 8 bytes for each of its blocks inside the unit. Where it was asked for
    /// they are kept, and it is Valid; a block that was written since `issued` stays so. It costs three look-ups, and a
    /// write for each block.
    pub fn loaded(&mut self, region: u16, sub: u16, bytes: &[u8])
        requires present { IsTrue (is_present self.old.shape region sub) }
        requires whole { length bytes.now ≡ 8 * sub_length self.old.shape region sub }
        ensures { self.new ≡ loaded self.old region sub bytes.now }
    {
        if self.slots.state(region, sub as usize) == SubregionState::Issued {
            let from = sub as u32 * self.sub_blocks;
            self.slots.load(region, from as usize, bytes);
            self.slots
                .set_state(region, sub as usize, SubregionState::Valid);
        }
    }

    /// The entries of a subregion don't come. Where it was asked for it is Invalid. It costs two look-ups.
    pub fn unloaded(&mut self, region: u16, sub: u16)
        requires { IsTrue (is_present self.old.shape region sub) }
        ensures { self.new ≡ unloaded self.old region sub }
    {
        if self.slots.state(region, sub as usize) == SubregionState::Issued {
            self.slots
                .set_state(region, sub as usize, SubregionState::Invalid);
        }
    }

    /// The first subregion to load, in the order in which they were asked for. It costs the same for every cache.
    pub fn first_want(&self) -> Option<(u16, u16)>
        ensures first { result ≡ slice_get self.now.wants 0 }
        ensures present { IfSome result (λ want. IsTrue (is_present self.now.shape want.0 want.1)) }
    {
        self.wants.front().copied()
    }

    /// The first region that was given up and not told yet. There is none where the device chooses the regions. It
    /// costs the same for every cache.
    pub fn first_evicted(&self) -> Option<u16>
        ensures first { result ≡ slice_get self.now.evicted 0 }
        ensures present { IfSome result (λ region. region * region_blocks self.now.shape < self.now.shape.units) }
    {
        self.evicted.front().copied()
    }

    /// Removes the first subregion to load, which `first_want` gave. It costs the same for every cache.
    pub fn take_want(&mut self)
        requires { 0 < length self.old.wants }
        ensures { self.new ≡ record self.old { wants = drop 1 self.old.wants } }
    {
        self.wants.pop_front();
    }

    /// Removes the first region that was given up, which `first_evicted` gave. It costs the same for every cache.
    pub fn take_evicted(&mut self)
        requires { 0 < length self.old.evicted }
        ensures { self.new ≡ record self.old { evicted = drop 1 self.old.evicted } }
    {
        self.evicted.pop_front();
    }

    /// Forgets all but how warm the subregions are. It costs a walk over what is to be loaded and told.
    pub fn drop_all(&mut self)
        ensures { self.new ≡ dropped self.old }
    {
        self.slots.clear();
        self.wants.clear();
        self.evicted.clear();
    }

    /// The driver was reset: what was asked for doesn't come and is Invalid, and nothing is to be loaded or told. It
    /// costs a walk over the held regions' subregions.
    pub fn lapse(&mut self)
        ensures { self.new ≡ lapsed self.old }
    {
        self.slots.lapse();
        self.wants.clear();
        self.evicted.clear();
    }

    /// Whether a subregion has a block of the unit.
    fn is_present(&self, region: u16, sub: u16) -> bool
        ensures { result ≡ is_present self.now.shape region sub }
    {
        let offset = sub as u64 * self.sub_blocks as u64;
        offset < self.region_blocks as u64
            && region as u64 * self.region_blocks as u64 + offset < self.shape.units as u64
    }

    /// The blocks of a subregion inside the unit.
    fn sub_length(&self, region: u16, sub: u16) -> u32
        requires { IsTrue (is_present self.now.shape region sub) }
        ensures { result ≡ sub_length self.now.shape region sub }
    {
        let first = region as u32 * self.region_blocks + sub as u32 * self.sub_blocks;
        self.sub_blocks.min(self.shape.units - first)
    }
}

/// Takes a region out of a list.
fn remove(list: &mut VecDeque<u16>, region: u16)
    ensures items { list.new.items ≡ filter (λ other. not (nat_eq region other)) list.old.items }
    ensures capacity { deque_capacity list.new ≡ deque_capacity list.old }
{
    list.retain(|other| *other != region);
}
