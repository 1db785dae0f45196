//! Which page of a chip is written next, and which block is erased next.
#![tactic(auto)]

mod blocks;
mod laws;

ghost use Rattle.std.specs.Prelude.{◌≡◌, ◌⊎◌, ◌+◌, ◌*◌, ◌<◌, ◌≤◌, ◌↔◌, None, Some, IfOk, IfNone, IfSome, IsNone};
ghost use Rattle.std.specs.Prelude.{IsTrue, length, replicate, slice_index, slice_set};
ghost use Rattle.std.specs.Option.{option_and_then};
ghost use Rattle.flash_pages.specs.Chip.{IsWithinLimits};
ghost use Rattle.page_validity.specs.ValidPages.{valid_count, next_valid};
ghost use Rattle.block_collector.specs.Room.{erased_pages, frontier, open_block, one_more_written, HasOnePartly};
ghost use Rattle.block_collector.specs.Room.{HasSpare, IsChoice};

use blocks::{choice, first_erased, first_partly_written, has_one_partly, has_spare};
use flash_pages::Geometry;
use hpb_outside::NoMemory;
pub use laws::{room_law, victim_law};
use page_validity::Validity;
use std::alloc::Global;
use std::marker::Model;

/// The room of a chip: how many pages of each block are written, and the block that is collected.
#[derive(Drop)]
pub struct Collector {
    geometry: Geometry,
    written: Vec<u32>,
    erased: u32,
    victim: Option<u32>,
}

impl Model for Collector {
    ghost use Rattle.std.specs.Prelude.{◌≡◌, ◌<◌};
    ghost use Rattle.std.specs.Option.{ForSome};
    ghost use Rattle.block_collector.specs.Room.{Room, IsRoom, erased_pages};

    ghost Value = { Room };

    ghost view = { λ c. record { geometry = c.geometry; written = c.written.items; victim = c.victim } };

    ghost invariant = { λ c. IsRoom c.geometry c.written.items
        × (c.erased ≡ erased_pages c.geometry.pages c.written.items)
        × ForSome c.victim (λ block. block < c.geometry.blocks) };
}

impl Collector {
    /// Each block is erased. It takes all its memory here.
    pub fn new(alloc: Global, geometry: Geometry) -> Result<Collector, NoMemory>
        requires { IsWithinLimits geometry }
        ensures { IfOk result (λ collector. collector ≡ record {
          geometry = geometry;
          written = replicate geometry.blocks 0;
          victim = None;
        }) }
    {
        let written = vec![in alloc; 0; geometry.blocks as usize]?;
        Ok(Collector {
            geometry,
            written,
            erased: geometry.blocks * geometry.pages,
            victim: None,
        })
    }

    /// How many pages are erased.
    pub fn erased(&self) -> u32
        ensures { result ≡ erased_pages self.now.geometry.pages self.now.written }
    {
        self.erased
    }

    /// Whether a block's worth of erased pages is left after one is programmed.
    pub fn may_host_program(&self) -> bool
        ensures { IsTrue result
            ↔ (self.now.geometry.pages + 1 ≤ erased_pages self.now.geometry.pages self.now.written) }
    {
        self.erased >= self.geometry.pages + 1
    }

    /// The block that is written next.
    fn open_block(&self) -> Option<u32>
        ensures block { result ≡ open_block self.now.geometry.pages self.now.written }
        ensures in_range { IfSome result (λ block. block < self.now.geometry.blocks) }
        ensures room { IfSome result (λ block. slice_index self.now.written block < self.now.geometry.pages) }
        ensures some { IfSome result (λ _. 0 < erased_pages self.now.geometry.pages self.now.written) }
        ensures none { IfNone result (erased_pages self.now.geometry.pages self.now.written ≡ 0) }
    {
        match first_partly_written(&self.written, self.geometry.pages) {
            Some(block) => Some(block),
            None => first_erased(&self.written),
        }
    }

    /// The page that is written next.
    pub fn frontier(&self) -> Option<u32>
        ensures page { result ≡ frontier self.now.geometry.pages self.now.written }
        ensures none { IsNone result ↔ (erased_pages self.now.geometry.pages self.now.written ≡ 0) }
        ensures in_range { IfSome result (λ page. page < self.now.geometry.blocks * self.now.geometry.pages) }
    {
        match self.open_block() {
            Some(block) => Some(block * self.geometry.pages + self.written[block as usize]),
            None => None,
        }
    }

    /// The page at the frontier was programmed.
    pub fn programmed(&mut self)
        requires { 0 < erased_pages self.old.geometry.pages self.old.written }
        ensures written { self.new
            ≡ record self.old { written = one_more_written self.old.geometry.pages self.old.written } }
        ensures erased { erased_pages self.old.geometry.pages self.old.written
            ≡ erased_pages self.new.geometry.pages self.new.written + 1 }
    {
        if let Some(block) = self.open_block() {
            self.written[block as usize] += 1;
            self.erased -= 1;
        }
    }

    /// A full block was erased; none is held.
    pub fn erased_block(&mut self, block: u32)
        requires in_range { block < self.old.geometry.blocks }
        requires full { slice_index self.old.written block ≡ self.old.geometry.pages }
        ensures { self.new ≡ record self.old { written = slice_set self.old.written block 0; victim = None } }
    {
        self.written[block as usize] = 0;
        self.erased += self.geometry.pages;
        self.victim = None;
    }

    /// This many pages of a block were found written.
    pub fn found(&mut self, block: u32, written: u32)
        requires in_range { block < self.old.geometry.blocks }
        requires erased { slice_index self.old.written block ≡ 0 }
        requires most { written ≤ self.old.geometry.pages }
        ensures { self.new ≡ record self.old { written = slice_set self.old.written block written } }
    {
        self.written[block as usize] = written;
        self.erased -= written;
    }

    /// Whether at most one block is partly written.
    pub fn has_one_partly(&self) -> bool
        ensures { IsTrue result ↔ HasOnePartly self.now.geometry.pages self.now.written }
    {
        has_one_partly(&self.written, self.geometry.pages)
    }

    /// Whether there is room to go on: a block's worth of erased pages, or a full block with fewer valid pages than are
    /// erased.
    pub fn has_room(&self, valid: &Validity) -> bool
        requires { valid.now.geometry ≡ self.now.geometry }
        ensures { IsTrue result ↔ ((self.now.geometry.pages ≤ erased_pages self.now.geometry.pages self.now.written)
            ⊎ HasSpare self.now.geometry.pages self.now.written (valid_count self.now.geometry.pages valid.now.valid)
            (erased_pages self.now.geometry.pages self.now.written)) }
    {
        self.erased >= self.geometry.pages
            || has_spare(&self.written, self.geometry.pages, self.erased, valid)
    }

    /// The block that is held.
    pub fn victim(&self) -> Option<u32>
        ensures { result ≡ self.now.victim }
    {
        self.victim
    }

    /// Chooses a victim, and holds it.
    pub fn choose(&mut self, valid: &Validity) -> Option<u32>
        requires { valid.now.geometry ≡ self.old.geometry }
        ensures choice { IsChoice self.old.geometry.pages self.old.written
            (valid_count self.old.geometry.pages valid.now.valid) result }
        ensures held { self.new ≡ record self.old { victim = result } }
    {
        let victim = choice(&self.written, self.geometry.pages, valid);
        self.victim = victim;
        victim
    }

    /// The first valid page of the block that is held.
    pub fn next_copy(&self, valid: &Validity) -> Option<u32>
        requires { valid.now.geometry ≡ self.now.geometry }
        ensures { result
            ≡ option_and_then (λ block. next_valid self.now.geometry.pages valid.now.valid block 0) self.now.victim }
    {
        match self.victim {
            Some(block) => valid.next_in(block, 0),
            None => None,
        }
    }

    /// Forgets all that was written, and the block that is held.
    pub fn clear(&mut self)
        ensures { self.new ≡ record self.old { written = replicate (length self.old.written) 0; victim = None } }
    {
        self.written.fill(0);
        self.erased = self.geometry.blocks * self.geometry.pages;
        self.victim = None;
    }
}

#[cfg(test)]
mod tests;
