//! The held regions, in slots that are all made at the start.
ghost use Rattle.std.specs.Prelude.{◌≡◌, ◌<◌, ◌≤◌, ◌+◌, ◌-◌, ◌/◌, ◌%◌, [], ◌∷◌, false, None, Some, IfSome, IfOk};
ghost use Rattle.std.specs.Prelude.{map, length, take, replicate, slice_get, option_map, nat_eq};
ghost use Rattle.std.specs.Map.Iter.{deref_pair};
ghost use Rattle.std.specs.Option.{option_map_or, option_and_then};
ghost use Rattle.std.specs.List.{find, IsDistinct};
ghost use Rattle.std.specs.Map.{keys_of, lookup, remove_entry};
ghost use Rattle.lru.specs.LruCache.{promoted};
ghost use Rattle.host_map_cache.specs.Regions.{HasSizes, region_in, blank, changed, state_in, entry_in, entries_of};
ghost use Rattle.host_map_cache.specs.Regions.{with_state, with_dirty, with_entries};
ghost use Rattle.host_map_cache.specs.Regions.{lapsed_state, lapsed_region, marked_region};

use crate::bits::Bits;
use byteorder::{BigEndian, ByteOrder};
use lru::LruCache;
use std::alloc::{AllocError, Global};
use std::marker::Model;
use std::num::NonZeroUsize;

/// What the host knows of a subregion's entries.
#[derive(Copy, Clone, PartialEq, Eq, Drop)]
pub enum SubregionState {
    /// They weren't asked for since the region is held.
    Unused,
    /// They were asked for, and didn't come.
    Invalid,
    /// They are asked for.
    Issued,
    /// They are here.
    Valid,
}

impl SubregionState {
    /// The state after what was asked for doesn't come.
    fn lapsed(self) -> SubregionState
        ensures { result ≡ lapsed_state self }
    {
        match self {
            SubregionState::Issued => SubregionState::Invalid,
            state => state,
        }
    }
}

/// Room for one region: its number in the unit, and what is known of its subregions and blocks.
///
/// A block has 4096 bytes. Subregions and blocks are named by their places in the region, from 0 on.
#[derive(Drop)]
pub(crate) struct Slot {
    region: u16,
    /// One for each subregion.
    states: Vec<SubregionState>,
    /// One for each block: the 8 bytes that the device gave, the highest first.
    entries: Vec<u64>,
    /// One for each block: whether it was written since its entry was asked for.
    dirty: Bits,
}

/// The held regions, the most recent first, each in a slot that is made at the start.
///
/// A slot never leaves the list: it is moved there, and written in place.
#[derive(Drop)]
pub(crate) struct Slots {
    /// The slots under the keys from 0 on, in the order of use. The first `used` hold a region, the others hold none.
    slots: LruCache<u8, Slot>,
    used: u8,
    /// How many slots there are.
    room: u8,
    /// How many subregions and blocks each slot has room for.
    subregions: usize,
    blocks: usize,
}

impl Model for Slots {
    ghost use Rattle.host_map_cache.specs.Regions.{Held, regions_in, AreSlots};

    ghost Value = { Held };

    ghost view = { λ s. record {
      regions = regions_in s.used s.slots.entries;
      room = s.room;
      subregions = s.subregions;
      blocks = s.blocks;
    } };

    ghost invariant = { λ s. AreSlots s.used s.room s.subregions s.blocks s.slots.entries };
}

impl Slots {
    /// `room` slots that hold no region, each with room for so many subregions and blocks.
    ///
    /// It takes all memory here, and writes it: for each slot a byte for each subregion, and 8 bytes and a bit for each
    /// block. No other call takes memory.
    pub(crate) fn new(
        alloc: Global,
        room: u8,
        subregions: usize,
        blocks: usize,
    ) -> Result<Slots, AllocError>
        requires { 0 < room }
        ensures { IfOk result (λ slots. slots ≡ record {
          regions = [];
          room = room;
          subregions = subregions;
          blocks = blocks;
        }) }
    {
        let cap = NonZeroUsize::new(usize::from(room)).unwrap();
        let mut slots = LruCache::new(alloc, cap)?;
        for key in 0..room {
            let slot = Slot::new(alloc, subregions, blocks)?;
            slots.put(key, slot)?;
        }
        Ok(Slots {
            slots,
            used: 0,
            room,
            subregions,
            blocks,
        })
    }

    /// Gives up what was asked for and hasn't come: each Issued subregion becomes Invalid.
    ///
    /// The cost is one look-up for each slot, and one for each of its subregions.
    pub(crate) fn lapse(&mut self)
        ensures { self.new ≡ record self.old {
          regions = map (λ held. (held.0, lapsed_region held.1)) self.old.regions;
        } }
    {
        // `len` says that the keys differ.
        let _len = self.slots.len();
        for key in 0..self.room {
            if let Some(slot) = self.slots.peek_mut(&key) {
                slot.lapse();
            }
        }
    }

    /// Makes the `n` blocks of the unit from block `lba` on dirty, in each held region. A region of the unit has
    /// `region_blocks` blocks.
    ///
    /// The cost is one look-up for each slot, and in each region that of the words of 64 bits that the range touches.
    pub(crate) fn mark_written(&mut self, region_blocks: u32, lba: u32, n: u32)
        ensures { self.new ≡ record self.old {
          regions = map (marked_region region_blocks lba n) self.old.regions;
        } }
    {
        // `len` says that the keys differ.
        let _len = self.slots.len();
        for key in 0..self.room {
            if let Some(slot) = self.slots.peek_mut(&key) {
                slot.mark_written(region_blocks, lba, n);
            }
        }
    }

    /// The slot of a region, where it is held.
    ///
    /// It goes over the held regions, the most recent first, as each call below that names a region does. Those that
    /// change something then look up one key.
    pub(crate) fn get(&self, region: u16) -> Option<&Slot>
        ensures found { option_map (λ slot. region_in slot.now) result ≡ lookup (nat_eq region) self.now.regions }
        ensures sized { IfSome result (λ slot. HasSizes self.now.subregions self.now.blocks (region_in slot.now)) }
    {
        match find_slot(&self.slots, self.used as usize, region) {
            Some((_, slot)) => Some(slot),
            None => None,
        }
    }

    /// Makes a region the most recent, where it is held. The others keep their order.
    pub(crate) fn to_front(&mut self, region: u16)
        ensures { self.new ≡ record self.old { regions = promoted (nat_eq region) self.old.regions } }
    {
        if let Some((key, _)) = find_slot(&self.slots, self.used as usize, region) {
            let key = *key;
            self.slots.promote(&key);
        }
    }

    /// Gives a region up, where it is held. Its slot is free for another one.
    pub(crate) fn remove(&mut self, region: u16)
        ensures { self.new ≡ record self.old { regions = remove_entry (nat_eq region) self.old.regions } }
    {
        if let Some((key, _)) = find_slot(&self.slots, self.used as usize, region) {
            let key = *key;
            self.slots.demote(&key);
            self.used -= 1;
        }
    }

    /// Sets the state of a subregion, where its region is held.
    pub(crate) fn set_state(&mut self, region: u16, sub: usize, state: SubregionState)
        requires { sub < self.old.subregions }
        ensures { self.new ≡ record self.old { regions = changed region (with_state sub state) self.old.regions } }
    {
        if let Some((key, _)) = find_slot(&self.slots, self.used as usize, region) {
            let key = *key;
            if let Some(slot) = self.slots.peek_mut(&key) {
                slot.set_state(sub, state);
            }
        }
    }

    /// Sets or clears the dirty bits of a region's blocks from `from` up to `until`, where it is held.
    ///
    /// The cost is that of the words of 64 bits that the range touches.
    pub(crate) fn set_dirty(&mut self, region: u16, from: usize, until: usize, dirty: bool)
        requires order { from ≤ until }
        requires inside { until ≤ self.old.blocks }
        ensures { self.new ≡ record self.old {
          regions = changed region (with_dirty from until dirty) self.old.regions;
        } }
    {
        if let Some((key, _)) = find_slot(&self.slots, self.used as usize, region) {
            let key = *key;
            if let Some(slot) = self.slots.peek_mut(&key) {
                slot.set_dirty(from, until, dirty);
            }
        }
    }

    /// Takes in the entries that the bytes spell, 8 bytes each, for a region's blocks from `from` on, where it is held.
    ///
    /// The cost is that of the bytes.
    pub(crate) fn load(&mut self, region: u16, from: usize, bytes: &[u8])
        requires whole { length bytes.now % 8 ≡ 0 }
        requires inside { from + length bytes.now / 8 ≤ self.old.blocks }
        ensures { self.new ≡ record self.old {
          regions = changed region (with_entries from bytes.now) self.old.regions;
        } }
    {
        if let Some((key, _)) = find_slot(&self.slots, self.used as usize, region) {
            let key = *key;
            if let Some(slot) = self.slots.peek_mut(&key) {
                slot.load(from, bytes);
            }
        }
    }

    /// Holds a region as the most recent one, with nothing known of it. Where every slot is used, the last region is
    /// given up, and answered.
    ///
    /// It writes the whole slot: the cost is that of a region's subregions and blocks.
    pub(crate) fn claim(&mut self, region: u16) -> Option<u16>
        ensures regions { self.new ≡ record self.old {
          regions = (region, blank self.old.subregions self.old.blocks) ∷ take (self.old.room - 1) self.old.regions;
        } }
        ensures given_up { result ≡ option_map (λ e. e.0) (slice_get self.old.regions (self.old.room - 1)) }
    {
        // `len` says that the keys differ.
        let _len = self.slots.len();
        let (key, last) = match self.slots.peek_lru() {
            Some((key, slot)) => (*key, slot.region),
            None => return None,
        };
        let Some(slot) = self.slots.peek_mut(&key) else {
            return None;
        };
        slot.renew(region);
        self.slots.promote(&key);
        if self.used == self.room {
            return Some(last);
        }
        self.used += 1;
        None
    }

    /// The state of a subregion, which is Unused where its region isn't held.
    pub(crate) fn state(&self, region: u16, sub: usize) -> SubregionState
        requires { sub < self.now.subregions }
        ensures { result ≡
            option_map_or (state_in sub) (lookup (nat_eq region) self.now.regions) SubregionState.Unused }
    {
        match self.get(region) {
            Some(slot) => slot.states[sub],
            None => SubregionState::Unused,
        }
    }

    /// The entry of a block, where its region is held, its subregion is Valid and it isn't dirty.
    pub(crate) fn entry(&self, region: u16, sub: usize, place: usize) -> Option<u64>
        requires sub { sub < self.now.subregions }
        requires place { place < self.now.blocks }
        ensures { result ≡ option_and_then (entry_in sub place) (lookup (nat_eq region) self.now.regions) }
    {
        match self.get(region) {
            Some(slot) => slot.entry(sub, place),
            None => None,
        }
    }

    /// Gives every region up, at the same cost for any number of them.
    pub(crate) fn clear(&mut self)
        ensures { self.new ≡ record self.old { regions = [] } }
    {
        self.used = 0;
    }
}

impl Slot {
    /// A slot of which nothing is known, with room for so many subregions and blocks. It takes and writes that memory.
    fn new(alloc: Global, subregions: usize, blocks: usize) -> Result<Slot, AllocError>
        ensures { IfOk result (λ slot. region_in slot ≡ blank subregions blocks) }
    {
        let states = vec![in alloc; SubregionState::Unused; subregions]?;
        let entries = vec![in alloc; 0; blocks]?;
        let dirty = Bits::new(alloc, blocks)?;
        Ok(Slot {
            region: 0,
            states,
            entries,
            dirty,
        })
    }

    /// Makes dirty those of the unit's `n` blocks from block `lba` on that the region has.
    fn mark_written(&mut self, region_blocks: u32, lba: u32, n: u32)
        ensures region { self.new.region ≡ self.old.region }
        ensures content { region_in self.new ≡
            (marked_region region_blocks lba n (self.old.region, region_in self.old)).1 }
    {
        let first = self.region as u64 * region_blocks as u64;
        let blocks = self.dirty.len();
        let from = blocks.min((lba as u64).saturating_sub(first) as usize);
        let until = blocks.min((lba as u64 + n as u64).saturating_sub(first) as usize);
        self.set_dirty(from, until, true);
    }

    /// The entry of a block, where its subregion is Valid and it isn't dirty.
    fn entry(&self, sub: usize, place: usize) -> Option<u64>
        requires sub { sub < length self.now.states.items }
        requires place { place < length self.now.entries.items }
        requires dirty { place < length self.now.dirty }
        ensures { result ≡ entry_in sub place (region_in self.now) }
    {
        match self.states[sub] {
            SubregionState::Valid if !self.dirty.get(place) => Some(self.entries[place]),
            _ => None,
        }
    }

    fn set_state(&mut self, sub: usize, state: SubregionState)
        requires { sub < length self.old.states.items }
        ensures region { self.new.region ≡ self.old.region }
        ensures content { region_in self.new ≡ with_state sub state (region_in self.old) }
    {
        self.states[sub] = state;
    }

    fn set_dirty(&mut self, from: usize, until: usize, dirty: bool)
        requires order { from ≤ until }
        requires inside { until ≤ length self.old.dirty }
        ensures region { self.new.region ≡ self.old.region }
        ensures content { region_in self.new ≡ with_dirty from until dirty (region_in self.old) }
    {
        self.dirty.fill(from, until, dirty);
    }

    /// Takes entries in, from a block on.
    fn load(&mut self, from: usize, bytes: &[u8])
        requires whole { length bytes.now % 8 ≡ 0 }
        requires inside { from + length bytes.now / 8 ≤ length self.old.entries.items }
        ensures region { self.new.region ≡ self.old.region }
        ensures content { region_in self.new ≡ with_entries from bytes.now (region_in self.old) }
    {
        let until = from + bytes.len() / 8;
        read_entries(bytes, &mut self.entries[from..until]);
    }

    /// Gives up what was asked for and hasn't come.
    fn lapse(&mut self)
        ensures region { self.new.region ≡ self.old.region }
        ensures content { region_in self.new ≡ lapsed_region (region_in self.old) }
    {
        for index in 0..self.states.len() {
            self.states[index] = self.states[index].lapsed();
        }
    }

    /// Makes the slot that of another region, of which nothing is known.
    fn renew(&mut self, region: u16)
        ensures region { self.new.region ≡ region }
        ensures content { region_in self.new ≡ record {
          states = replicate (length self.old.states.items) SubregionState.Unused;
          entries = replicate (length self.old.entries.items) 0;
          dirty = replicate (length self.old.dirty) false;
        } }
    {
        self.region = region;
        self.states.fill(SubregionState::Unused);
        self.entries.fill(0);
        let blocks = self.dirty.len();
        self.dirty.fill(0, blocks, false);
    }
}

/// Reads as many entries as there is room for, 8 bytes each, the highest first.
fn read_entries(bytes: &[u8], entries: &mut [u64])
    requires whole { length bytes.now % 8 ≡ 0 }
    requires room { length entries.old ≡ length bytes.now / 8 }
    ensures { entries.new ≡ entries_of bytes.now }
{
    BigEndian::read_u64_into(bytes, entries);
}

/// The key and the slot of a region, among the first `used` slots, which it goes over in their order.
fn find_slot(slots: &LruCache<u8, Slot>, used: usize, region: u16) -> Option<(&u8, &Slot)>
    ensures found { option_map deref_pair result ≡
        find (λ e. nat_eq region e.1.region) (take used slots.now.entries) }
    ensures apart { IsDistinct nat_eq (keys_of slots.now.entries) }
{
    // `len` says that the keys differ.
    let _len = slots.len();
    slots
        .iter()
        .take(used)
        .find(|(_, slot)| slot.region == region)
}
