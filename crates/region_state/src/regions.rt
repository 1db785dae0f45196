ghost use Rattle.std.specs.Prelude.{◌≡◌, ◌≢◌, ◌+◌, ◌<◌, ◌≤◌, false, IfOk, length, drop, slice_get};
ghost use Rattle.std.specs.Option.{option_map};
ghost use Rattle.region_state.specs.Lists.{has};
ghost use Rattle.region_state.specs.Shape.{IsWithinLimits, HasRegion, HasSubregion, place_of};
ghost use Rattle.region_state.specs.Machine.{start, after_read, after_change, with_room, after_load};
ghost use Rattle.region_state.specs.Machine.{after_inactivation, after_all_inactive, after_reset, due, after_told};

use crate::lists::{count_reads, first_due, forget, remove, touch};
use crate::shape::{Mode, Shape};
use crate::subregion::Subregion;
use hpb_outside::NewFault;
use std::alloc::{AllocError, Global};
use std::marker::Model;

/// The regions of a logical unit: which of them its host holds, how often their subregions were read or changed, and
/// what the host is to be told. All of these rules are this project's own.
///
/// Blocks have 4096 bytes. A region is named by its number in the unit, a subregion by its region and its number there,
/// all from 0 on.
#[derive(Drop)]
pub struct Regions {
    shape: Shape,
    /// The regions that the host holds, the most recent one first.
    held: Vec<u16>,
    /// All subregions, each at its number in the unit.
    subregions: Vec<Subregion>,
    /// The regions that the host is to give up, in the order in which they were dropped.
    gone: Vec<u16>,
    /// Whether the host is to forget all.
    news: bool,
    /// Where it is false, the host is to load no subregion, so that none need be searched.
    may_be_due: bool,
}

impl Model for Regions {
    ghost use Rattle.std.specs.Prelude.{vec_capacity};
    ghost use Rattle.region_state.specs.Machine.{Machine};
    ghost use Rattle.region_state.specs.Kept.{IsKept};

    ghost Value = { Machine };

    ghost view = { λ r. record {
      shape = r.shape;
      held = r.held.items;
      subregions = r.subregions.items;
      gone = r.gone.items;
      news = r.news;
    } };

    ghost invariant = { λ r.
        IsKept r.shape r.held.items r.subregions.items r.gone.items r.may_be_due
        (vec_capacity r.held) (vec_capacity r.gone) };
}

impl Regions {
    /// A unit of which the host holds nothing.
    ///
    /// It takes all its memory here: two bytes for each region, each subregion and each region that may be held. The
    /// fault is `Geometry` exactly where the shape is outside its limits (`Shape::is_within_limits`), else `Memory`.
    pub fn new(alloc: Global, shape: Shape) -> Result<Regions, NewFault>
        ensures made { IfOk result (λ regions. regions ≡ start shape) }
        ensures geometry { result ≡ Err NewFault.Geometry → ¬ IsWithinLimits shape }
        ensures limits { result ≢ Err NewFault.Geometry → IsWithinLimits shape }
    {
        if !shape.is_within_limits() {
            return Err(NewFault::Geometry);
        }
        match Regions::with_memory(alloc, shape) {
            Ok(regions) => Ok(regions),
            Err(_) => Err(NewFault::Memory),
        }
    }

    fn with_memory(alloc: Global, shape: Shape) -> Result<Regions, AllocError>
        requires { IsWithinLimits shape }
        ensures { IfOk result (λ regions. regions ≡ start shape) }
    {
        let last = shape.units - 1;
        let subregions = usize::from(shape.subregion_of(last)) + 1;
        let regions = usize::from(shape.region_of(last)) + 1;
        Ok(Regions {
            shape,
            held: Vec::with_capacity(alloc, usize::from(shape.held))?,
            subregions: vec![in alloc; Subregion::UNLOADED; subregions]?,
            gone: Vec::with_capacity(alloc, regions)?,
            news: false,
            may_be_due: false,
        })
    }

    /// Takes in a read of `n` blocks from block `lba` on, `plain` where it had no entry of the map. A read of no block
    /// changes nothing.
    ///
    /// The regions that it touches and the host holds become the most recent ones, the highest number first. A plain
    /// read counts at each subregion that it touches and the host hasn't loaded: at the fourth that one is due.
    ///
    /// It goes over the regions that it touches, for each over those that are held (at most 32), and where it is plain
    /// over the subregions that it touches.
    #[tactic(auto, unfolding(crate::specs::Machine::after_read))]
    pub fn read(&mut self, lba: u32, n: u32, plain: bool)
        requires { lba + n ≤ self.old.shape.units }
        ensures new { self.new ≡ after_read self.old lba n plain }
        ensures shape { self.new.shape ≡ self.old.shape }
    {
        if n == 0 {
            return;
        }
        let shape = self.shape;
        let last = lba + n - 1;
        touch(
            &mut self.held,
            shape.region_of(lba),
            shape.region_of(last) + 1,
        );
        if plain {
            let first = usize::from(shape.subregion_of(lba));
            let end = usize::from(shape.subregion_of(last)) + 1;
            self.may_be_due |= count_reads(&mut self.subregions, first, end);
        }
    }

    /// Takes in that block `lba` was written, or moved to another page.
    ///
    /// It counts at the block's subregion, where the host has loaded that: at the eighth change it is due again. The
    /// cost is the same for each block.
    #[tactic(auto, unfolding(crate::specs::Machine::after_change))]
    pub fn changed(&mut self, lba: u32)
        requires { lba < self.old.shape.units }
        ensures new { self.new ≡ after_change self.old lba }
        ensures shape { self.new.shape ≡ self.old.shape }
    {
        let number = usize::from(self.shape.subregion_of(lba));
        let counted = self.subregions[number].write_counted();
        self.subregions[number] = counted;
        self.may_be_due |= counted.is_due();
    }

    /// Makes room for a region among those that are held: where it isn't held and as many are as may be, the least
    /// recent one is dropped, its subregions are forgotten, and the host is to be told.
    #[tactic(auto, unfolding(crate::specs::Machine::with_room))]
    fn make_room(&mut self, region: u16)
        ensures new { self.new ≡ with_room self.old region }
        ensures shape { self.new.shape ≡ self.old.shape }
        ensures news { self.new.news ≡ self.old.news }
        ensures room { has region self.new.held ≡ false → length self.new.held < self.new.shape.held }
    {
        if self.held.contains(&region) {
            return;
        }
        if self.held.len() < usize::from(self.shape.held) {
            return;
        }
        if let Some(last) = self.held.pop() {
            let first = self.shape.number_of(last, 0) as usize;
            forget(
                &mut self.subregions,
                first,
                first + self.shape.per_region() as usize,
            );
            self.gone.push(last).unwrap();
        }
    }

    /// Takes in that the host loaded a subregion. Its region is the most recent one then. Where that is one region too
    /// many the least recent one is dropped, which the host is to give up.
    ///
    /// It goes over the regions that are held and those to give up, and over the subregions of the one that is dropped.
    #[tactic(auto, unfolding(crate::specs::Machine::after_load))]
    pub fn loaded(&mut self, region: u16, sub: u16)
        requires { HasSubregion self.old.shape region sub }
        ensures new { self.new ≡ after_load self.old region sub }
        ensures shape { self.new.shape ≡ self.old.shape }
    {
        self.make_room(region);
        remove(&mut self.held, region);
        self.held.insert(0, region).unwrap();
        remove(&mut self.gone, region);
        let number = self.shape.number_of(region, sub) as usize;
        self.subregions[number] = Subregion::LOADED;
    }

    /// Takes in that the host gave a region up: it isn't held, none of its subregions is loaded or counted, and there
    /// is nothing to tell of it.
    ///
    /// It goes over the regions that are held and those to give up, and over the subregions of the region.
    #[tactic(auto, unfolding(crate::specs::Machine::after_inactivation))]
    pub fn inactivate(&mut self, region: u16)
        requires { HasRegion self.old.shape region }
        ensures new { self.new ≡ after_inactivation self.old region }
        ensures shape { self.new.shape ≡ self.old.shape }
    {
        remove(&mut self.held, region);
        remove(&mut self.gone, region);
        let first = self.shape.number_of(region, 0) as usize;
        forget(
            &mut self.subregions,
            first,
            first + self.shape.per_region() as usize,
        );
    }

    /// Takes in that the host gave all regions up. It goes over all subregions.
    #[tactic(auto, unfolding(crate::specs::Machine::after_all_inactive))]
    pub fn inactivate_all(&mut self)
        ensures new { self.new ≡ after_all_inactive self.old }
        ensures shape { self.new.shape ≡ self.old.shape }
    {
        self.held.clear();
        self.gone.clear();
        self.subregions.fill(Subregion::UNLOADED);
        self.may_be_due = false;
    }

    /// Forgets all, and the host is to be told so. It goes over all subregions.
    #[tactic(auto, unfolding(crate::specs::Machine::after_reset, crate::specs::Machine::after_all_inactive))]
    pub fn reset(&mut self)
        ensures new { self.new ≡ after_reset self.old }
        ensures shape { self.new.shape ≡ self.old.shape }
    {
        self.inactivate_all();
        self.news = true;
    }

    /// Whether the host is to forget all. It is told so once.
    pub fn take_news(&mut self) -> bool
        ensures news { result ≡ self.old.news }
        ensures told { self.new ≡ record self.old { news = false } }
        ensures shape { self.new.shape ≡ self.old.shape }
    {
        let news = self.news;
        self.news = false;
        news
    }

    /// The first subregion that is due, as its region and its number there: the host is to load it. It is told so once,
    /// and the subregion's count is back at 0 then. In mode `Host` none ever is.
    ///
    /// It goes over the subregions up to the first that is due, and over none where none became due since a call found
    /// none.
    #[tactic(auto, unfolding(crate::specs::Machine::after_told, crate::specs::Machine::due))]
    pub fn take_active(&mut self) -> Option<(u16, u16)>
        ensures first { result ≡ option_map (place_of self.old.shape) (slice_get (due self.old) 0) }
        ensures told { self.new ≡ after_told 1 self.old }
        ensures shape { self.new.shape ≡ self.old.shape }
    {
        match self.shape.mode {
            Mode::Host => None,
            Mode::Device => {
                if !self.may_be_due {
                    return None;
                }
                let Some(number) = first_due(&self.subregions) else {
                    self.may_be_due = false;
                    return None;
                };
                self.subregions[number] = self.subregions[number].recounted();
                Some(self.shape.place_of(number as u32))
            }
        }
    }

    /// The first region that the host is to give up. It is told so once. It goes over those that are left to tell.
    pub fn take_gone(&mut self) -> Option<u16>
        ensures first { result ≡ slice_get self.old.gone 0 }
        ensures told { self.new ≡ record self.old { gone = drop 1 self.old.gone } }
        ensures shape { self.new.shape ≡ self.old.shape }
    {
        if self.gone.is_empty() {
            return None;
        }
        Some(self.gone.remove(0))
    }
}
