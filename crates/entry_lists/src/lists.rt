ghost use Rattle.std.specs.Prelude.{◌≡◌, ◌+◌, ◌*◌, ◌<◌, ◌≤◌, Some, None, IfOk, length, replicate};
ghost use Rattle.entry_lists.specs.Lists.{place_of, with_list, entry_for};

use crate::slot::{Slot, entry_of_first};
use std::alloc::{AllocError, Global};
use std::marker::Model;

/// How many read ids a logical unit has that a list is kept for: those from 1 to 127.
const READ_IDS: usize = 127;

/// The lists of entries that a host prefetched: for each logical unit and each read id from 1 to 127 at most one.
///
/// A list is made for the blocks of its unit from an LBA on, and has 8 bytes for each of at most 255 blocks. Logical
/// units and blocks are counted from 0.
#[derive(Drop)]
pub struct EntryLists {
    /// The lists of each unit in turn, by read id.
    slots: Vec<Slot>,
}

impl Model for EntryLists {
    ghost use Rattle.std.specs.Prelude.{List, Option};
    ghost use Rattle.entry_lists.specs.Lists.{EntryList};

    ghost Value = { List (Option EntryList) };

    ghost view = { λ lists. lists.slots.items };
}

impl EntryLists {
    /// No list, for this many logical units.
    ///
    /// It takes all its memory here: about 260 KB for each unit.
    pub fn new(alloc: Global, luns: u8) -> Result<EntryLists, AllocError>
        ensures { IfOk result (λ lists. lists ≡ replicate (127 * luns) None) }
    {
        let places = READ_IDS * usize::from(luns);
        let slots = empty_slots(alloc, places)?;
        Ok(EntryLists { slots })
    }

    /// Keeps the list of a unit and read id, which was made for block `lba` on, in place of an older one. It copies the
    /// bytes, and nothing else.
    pub fn keep(&mut self, lun: u8, id: u8, lba: u32, bytes: &[u8])
        requires unit { 127 * lun + 127 ≤ length self.old }
        requires some_id { 0 < id }
        requires id { id ≤ 127 }
        requires few { length bytes.now ≤ 2040 }
        ensures list { self.new ≡ with_list self.old lun id (Some (record { lba = lba; bytes = bytes.now })) }
        ensures count { length self.new ≡ length self.old }
    {
        self.slots[place_of(lun, id)].keep(lba, bytes);
    }

    /// Forgets the list of a unit and read id, where there is one. Read id 0 has none.
    pub fn remove(&mut self, lun: u8, id: u8)
        requires unit { 127 * lun + 127 ≤ length self.old }
        requires id { id ≤ 127 }
        ensures list { self.new ≡ with_list self.old lun id None }
        ensures count { length self.new ≡ length self.old }
    {
        if id != 0 {
            self.slots[place_of(lun, id)].remove();
        }
    }

    /// Forgets each list. It goes over all places, and touches no entry.
    pub fn clear(&mut self)
        ensures list { self.new ≡ replicate (length self.old) None }
        ensures count { length self.new ≡ length self.old }
    {
        remove_each(&mut self.slots);
    }

    /// The entry of block `k` of a read from block `lba` on, with this read id and with `entry` in its CDB.
    ///
    /// Where the list of its unit and id was made for that LBA, it is entry `k` there, or none past the list's end.
    /// Else it is the entry in the CDB for block 0, and none for the others. The cost is the same for each block.
    pub fn entry(&self, lun: u8, id: u8, lba: u32, entry: u64, k: u32) -> Option<u64>
        requires unit { 127 * lun + 127 ≤ length self.now }
        requires id { id ≤ 127 }
        ensures { result ≡ entry_for self.now lun id lba entry k }
    {
        if id == 0 {
            entry_of_first(entry, k)
        } else {
            self.slots[place_of(lun, id)].entry(lba, entry, k)
        }
    }
}

/// The place of a list.
fn place_of(lun: u8, id: u8) -> usize
    requires { 0 < id }
    ensures { result ≡ place_of lun id }
{
    READ_IDS * usize::from(lun) + usize::from(id) - 1
}

/// This many places, all empty.
fn empty_slots(alloc: Global, places: usize) -> Result<Vec<Slot>, AllocError>
    requires { places ≤ 32385 }
    ensures { IfOk result (λ slots. slots.items ≡ replicate places None) }
{
    let mut slots = Vec::with_capacity(alloc, places)?;
    for _ in 0..places {
        slots.push(Slot::new())?;
    }
    Ok(slots)
}

/// Forgets each list.
fn remove_each(slots: &mut [Slot])
    ensures { slots.new ≡ replicate (length slots.old) None }
{
    for slot in slots.iter_mut() {
        slot.remove();
    }
}
