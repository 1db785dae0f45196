//! The place of one list.
ghost use Rattle.std.specs.Prelude.{◌≡◌, ◌==◌, ◌≤◌, Some, None, length, if◌then◌else◌};
ghost use Rattle.entry_lists.specs.Lists.{entry_by, entry_in};

use byteorder::{BigEndian, ByteOrder};
use std::marker::Model;

/// The most bytes of a list, which has 8 for each entry.
const LIST_BYTES: usize = 2040;

/// The place of a list, which may be empty.
#[derive(Drop)]
pub struct Slot {
    is_kept: bool,
    /// The first block that the list was made for.
    lba: u32,
    /// The bytes of the list, and then what older ones left.
    bytes: [u8; LIST_BYTES],
    len: usize,
}

impl Model for Slot {
    ghost use Rattle.std.specs.Prelude.{◌≤◌, Option, Some, None, take, if◌then◌else◌};
    ghost use Rattle.entry_lists.specs.Lists.{EntryList};

    ghost Value = { Option EntryList };

    ghost view = { λ slot.
        if slot.is_kept then Some (record { lba = slot.lba; bytes = take slot.len slot.bytes }) else None };

    ghost invariant = { λ slot. slot.len ≤ 2040 };
}

impl Slot {
    /// A place with no list.
    pub fn new() -> Slot
        ensures { result ≡ None }
    {
        Slot {
            is_kept: false,
            lba: 0,
            bytes: [0; LIST_BYTES],
            len: 0,
        }
    }

    /// Keeps a list, which was made for block `lba` on, in place of an older one. It copies the bytes.
    pub fn keep(&mut self, lba: u32, bytes: &[u8])
        requires { length bytes.now ≤ 2040 }
        ensures { self.new ≡ Some (record { lba = lba; bytes = bytes.now }) }
    {
        self.is_kept = true;
        self.lba = lba;
        self.bytes[..bytes.len()].copy_from_slice(bytes);
        self.len = bytes.len();
    }

    /// Forgets the list.
    pub fn remove(&mut self)
        ensures { self.new ≡ None }
    {
        self.is_kept = false;
    }

    /// The entry of block `k` of a read from block `lba` on, whose CDB has `entry`.
    pub fn entry(&self, lba: u32, entry: u64, k: u32) -> Option<u64>
        ensures { result ≡ entry_by self.now lba entry k }
    {
        if self.is_kept && self.lba == lba {
            entry_in(&self.bytes[..self.len], k)
        } else {
            entry_of_first(entry, k)
        }
    }
}

/// Entry `k` of a list, where all its bytes are there.
fn entry_in(bytes: &[u8], k: u32) -> Option<u64>
    ensures { result ≡ entry_in bytes.now k }
{
    let start = 8 * k as usize;
    if start + 8 <= bytes.len() {
        Some(BigEndian::read_u64(&bytes[start..start + 8]))
    } else {
        None
    }
}

/// The entry of block `k` of a read that has no list: the one in its CDB is for the first block.
pub fn entry_of_first(entry: u64, k: u32) -> Option<u64>
    ensures { result ≡ (if k == 0 then Some entry else None) }
{
    if k == 0 { Some(entry) } else { None }
}
