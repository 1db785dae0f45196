ghost use Rattle.std.specs.Prelude.{◌≡◌, ◌⊎◌, ◌+◌, ◌*◌, ◌^◌, ◌<◌, ◌≤◌, ◌↔◌, IsTrue, true, false, None, Some, length};
ghost use Rattle.std.specs.Prelude.{slice_index, slice_set, nat_lt, nat_eq, ◌&&◌, max, if◌then◌else◌, All, IfOk};
ghost use Rattle.hpb_outside.specs.Faults.{raised};
ghost use Rattle.flash_pages.specs.Place.{IsPlace, index_of};
ghost use Rattle.flash_pages.specs.Sound.{ChipOk};
ghost use Rattle.flash_store.specs.Index.{HasShape, IsIndexed};
ghost use Rattle.flash_store.specs.Scan.{IsTallied, IsScanned, IsScannedTo, IsGood, IsFollowed, noted, is_newer, seen};
ghost use Rattle.flash_store.specs.Scan.{spare_at};

use crate::tables::{Index, make_valid};
use flash_pages::{Flash, Geometry, PageView, Spare};
use hpb_outside::NoMemory;
use std::alloc::Global;

/// The first sequence number that no program has.
pub const SEQ_END: u64 = 1 << 62;

/// What is noted of a block of a logical unit while the chip is scanned.
#[derive(Clone, Copy)]
pub struct Newest {
    /// One more than its greatest sequence number, 0 where it has no page.
    pub rank: u64,
    /// Whether two pages have that number.
    pub doubled: bool,
}

/// What is noted of a block of which no page was read.
pub const NOTHING: Newest = Newest {
    rank: 0,
    doubled: false,
};

/// A scan of the chip.
#[derive(Drop)]
pub struct Tally {
    /// What is noted of each block of all logical units.
    pub newest: Vec<Newest>,
    /// How many pages were read.
    pub scanned: u32,
    /// How many written pages the erase block has whose pages are being read.
    pub here: u32,
    /// Whether nothing was found that a sound chip doesn't have.
    pub sound: bool,
}

impl Tally {
    /// A scan that isn't begun, for so many blocks of all logical units. It takes its memory here.
    pub fn new(alloc: Global, blocks: u32) -> Result<Tally, NoMemory>
        ensures { IfOk result (λ tally. length tally.newest.items ≡ blocks) }
    {
        let newest = vec![in alloc; NOTHING; blocks as usize]?;
        Ok(Tally {
            newest,
            scanned: 0,
            here: 0,
            sound: true,
        })
    }
}

/// Begins to scan the chip.
pub fn begin_scan<F: Flash>(flash: &F, index: &mut Index, tally: &mut Tally)
    requires shape { HasShape (F.geometry flash.now) index.old }
    requires whole { length tally.old.newest.items ≡ index.old.luns * index.old.units }
    ensures tallied { IsTallied (F.geometry flash.now) (F.pages flash.now) index.new tally.new }
    ensures scanned { tally.new.scanned ≡ 0 }
    ensures units { (index.new.luns ≡ index.old.luns) × (index.new.units ≡ index.old.units) }
    ensures victim { index.new.collector.victim ≡ None }
    ensures lookups { index.new.map.lookups ≡ index.old.map.lookups }
{
    index.map.clear();
    index.validity.clear();
    index.collector.clear();
    index.next_seq = 0;
    tally.newest.fill(NOTHING);
    tally.scanned = 0;
    tally.here = 0;
    tally.sound = true;
}

/// Notes another page of a block, and says whether it is as new as those before it.
fn note(newest: &mut Newest, rank: u64) -> bool
    ensures newer { result ≡ is_newer newest.old rank }
    ensures noted { newest.new ≡ noted newest.old rank }
{
    if rank < newest.rank {
        return false;
    }
    newest.doubled = rank == newest.rank;
    newest.rank = rank;
    true
}

/// Whether a store of these units writes such a spare area.
fn is_good(index: &Index, spare: Spare) -> bool
    ensures { IsTrue result ↔ IsGood index.now.luns index.now.units spare }
{
    spare.lun < index.luns && spare.lba < index.units && spare.seq < SEQ_END
}

/// Takes in a page that was read, with what its spare area says.
fn take_in<F: Flash>(flash: &F, index: &mut Index, newest: &mut [Newest], page: u32, spare: Spare)
    requires page { page < length (F.pages flash.now) }
    requires good { IsGood index.old.luns index.old.units spare }
    requires shown { spare_at (F.pages flash.now) page ≡ Some spare }
    requires shape { HasShape (F.geometry flash.now) index.old }
    requires whole { length newest.old ≡ index.old.luns * index.old.units }
    requires follows { IsFollowed (seen (F.pages flash.now) page) index.old newest.old }
    ensures follows { IsFollowed (seen (F.pages flash.now) (page + 1)) index.new newest.new }
    ensures shape { HasShape (F.geometry flash.now) index.new }
    ensures whole { length newest.new ≡ length newest.old }
    ensures collector { index.new.collector ≡ index.old.collector }
    ensures lookups { (index.new.map.lookups ≡ index.old.map.lookups)
        ⊎ (index.new.map.lookups ≡ raised index.old.map.lookups) }
    ensures units { (index.new.luns ≡ index.old.luns) × (index.new.units ≡ index.old.units) }
{
    let key = index.key(spare.lun, spare.lba);
    let rank = spare.seq + 1;
    index.next_seq = index.next_seq.max(rank);
    if note(&mut newest[key as usize], rank) {
        let old = index.map.set(key, page);
        make_valid(&mut index.validity, page, old);
    }
}

/// Takes in the shown page, which is the next one of the scan.
pub fn scan_page<F: Flash>(flash: &F, geometry: Geometry, index: &mut Index, tally: &mut Tally)
    requires geometry { F.geometry flash.now ≡ geometry }
    requires shown { F.shown_page flash.now ≡ Some tally.old.scanned }
    requires more { tally.old.scanned < geometry.blocks * geometry.pages }
    requires tallied { IsTallied geometry (F.pages flash.now) index.old tally.old }
    ensures tallied { IsTallied geometry (F.pages flash.now) index.new tally.new }
    ensures scanned { tally.new.scanned ≡ tally.old.scanned + 1 }
    ensures lookups { (index.new.map.lookups ≡ index.old.map.lookups)
        ⊎ (index.new.map.lookups ≡ raised index.old.map.lookups) }
    ensures units { (index.new.luns ≡ index.old.luns) × (index.new.units ≡ index.old.units) }
    ensures victim { index.new.collector.victim ≡ index.old.collector.victim }
{
    let page = tally.scanned;
    tally.scanned = page + 1;
    if !tally.sound {
        return;
    }
    let block = page / geometry.pages;
    let inside = page % geometry.pages;
    match flash.shown() {
        PageView::Erased => end_page(flash, geometry, index, tally, block, inside + 1),
        PageView::Written { spare, .. } => {
            if !is_good(index, spare) || tally.here != inside {
                tally.sound = false;
                return;
            }
            tally.here += 1;
            take_in(flash, index, &mut tally.newest, page, spare);
            end_page(flash, geometry, index, tally, block, inside + 1);
        }
    }
}

/// Counts the written pages of a block whose last page was read.
fn end_page<F: Flash>(
    flash: &F,
    geometry: Geometry,
    index: &mut Index,
    tally: &mut Tally,
    block: u32,
    inside: u32,
)
    requires shape { HasShape geometry index.old }
    requires chip { length (F.pages flash.now) ≡ geometry.blocks * geometry.pages }
    requires block { block < geometry.blocks }
    requires inside { inside ≤ geometry.pages }
    requires scanned { IsScannedTo geometry (F.pages flash.now) index.old tally.old block inside }
    ensures scanned { IsScanned geometry (F.pages flash.now) index.new tally.new }
    ensures shape { HasShape geometry index.new }
    ensures tally { tally.new ≡ record tally.old { here = tally.new.here } }
    ensures map { index.new.map ≡ index.old.map }
    ensures units { (index.new.luns ≡ index.old.luns) × (index.new.units ≡ index.old.units) }
    ensures victim { index.new.collector.victim ≡ index.old.collector.victim }
{
    if inside == geometry.pages {
        index.collector.found(block, tally.here);
        tally.here = 0;
    }
}

/// Whether no block has two pages with its greatest number.
fn none_doubled(newest: &[Newest]) -> bool
    ensures { IsTrue result ↔ All (λ one. one.doubled ≡ false) newest.now }
{
    for one in newest {
        if one.doubled {
            return false;
        }
    }
    true
}

/// Whether the chip that was scanned whole is sound.
pub fn is_sound<F: Flash>(flash: &F, index: &Index, tally: &Tally) -> bool
    requires tallied { IsTallied (F.geometry flash.now) (F.pages flash.now) index.now tally.now }
    requires whole { tally.now.scanned ≡ (F.geometry flash.now).blocks * (F.geometry flash.now).pages }
    ensures sound { IsTrue result ↔ ChipOk (F.geometry flash.now) index.now.luns index.now.units (F.pages flash.now) }
    ensures indexed { IsTrue result → IsIndexed (F.geometry flash.now) (F.pages flash.now) index.now }
{
    if !tally.sound {
        return false;
    }
    if !none_doubled(&tally.newest) {
        return false;
    }
    if !index.collector.has_one_partly() {
        return false;
    }
    index.collector.has_room(&index.validity)
}
