ghost use Rattle.std.specs.Prelude.{◌≡◌, ◌+◌, ◌*◌, ◌^◌, ◌<◌, false, true, length, None, Some, IfOk, IfSome, OnOk};
ghost use Rattle.std.specs.Prelude.{OnErr, is_ok, if◌then◌else◌};
ghost use Rattle.std.specs.Option.{ForSome};
ghost use Rattle.hpb_outside.specs.Faults.{raised, HasCause};
ghost use Rattle.flash_pages.specs.Chip.{page_at, is_erased, erased_count, erase_block};
ghost use Rattle.flash_pages.specs.Place.{IsPlace, index_of};
ghost use Rattle.flash_pages.specs.Sound.{ChipOk, IsFull};
ghost use Rattle.flash_pages.specs.Unit.{next_seq};
ghost use Rattle.page_validity.specs.ValidPages.{valid_count};
ghost use Rattle.block_collector.specs.Room.{IsChoice};
ghost use Rattle.collector_laws.specs.CollectStep.{buffered, first_current, programmed};
ghost use Rattle.flash_store.specs.Entries.{flags_after};
ghost use Rattle.flash_store.specs.Index.{CanServe, HasShape, IsIndexed, buffered_in};

use block_collector::Collector;
use flash_pages::{Flash, Geometry, PageView, Spare};
use hpb_outside::{Failed, NoMemory};
use page_map::PageMap;
use page_validity::Validity;
use std::alloc::Global;

/// What a store keeps of its chip in memory.
#[derive(Drop)]
pub struct Index {
    /// How many logical units there are.
    pub luns: u8,
    /// How many blocks each has.
    pub units: u32,
    /// The current page of each block.
    pub map: PageMap,
    /// The current pages.
    pub validity: Validity,
    /// The written pages of each erase block, and the victim.
    pub collector: Collector,
    /// The sequence number of the next program.
    pub next_seq: u64,
}

/// A page whose block the buffer holds, and what the block is.
#[derive(Clone, Copy)]
pub struct Held {
    pub page: u32,
    pub lun: u8,
    pub lba: u32,
}

impl Index {
    /// An index of which nothing is known yet. It takes its memory here.
    pub fn new(alloc: Global, geometry: Geometry, luns: u8, units: u32) -> Result<Index, NoMemory>
        requires { CanServe geometry luns units }
        ensures shape { IfOk result (λ index. HasShape geometry index) }
        ensures units { IfOk result (λ index. (index.luns ≡ luns) × (index.units ≡ units)) }
        ensures lookups { IfOk result (λ index. index.map.lookups ≡ 0) }
    {
        let page_count = geometry.blocks * geometry.pages;
        let map = PageMap::new(alloc, u32::from(luns) * units, page_count)?;
        let validity = Validity::new(alloc, geometry)?;
        let collector = Collector::new(alloc, geometry)?;
        Ok(Index {
            luns,
            units,
            map,
            validity,
            collector,
            next_seq: 0,
        })
    }

    /// Where a block stands among those of all logical units.
    pub fn key(&self, lun: u8, lba: u32) -> u32
        requires lun { lun < self.now.luns }
        requires lba { lba < self.now.units }
        requires few { self.now.luns * self.now.units < 2 ^ 32 }
        ensures { result ≡ index_of self.now.units (record { lun = lun; lba = lba }) }
    {
        u32::from(lun) * self.units + lba
    }
}

/// Makes a page valid in the place of an old one, where there is one.
pub fn make_valid(validity: &mut Validity, page: u32, old: Option<u32>)
    requires page { page < length validity.old.valid }
    requires old { ForSome old (λ other. other < length validity.old.valid) }
    ensures { validity.new ≡ record validity.old { valid = flags_after validity.old.valid page old } }
{
    validity.mark(page);
    if let Some(other) = old {
        validity.unmark(other);
    }
}

/// Programs a block to the page that is written next.
pub fn program_block<F: Flash>(
    flash: &mut F,
    index: &mut Index,
    lun: u8,
    lba: u32,
    bytes: &[u8],
) -> Result<(), Failed>
    requires indexed { IsIndexed (F.geometry flash.old) (F.pages flash.old) index.old }
    requires sound { ChipOk (F.geometry flash.old) index.old.luns index.old.units (F.pages flash.old) }
    requires room { 0 < erased_count (F.pages flash.old) }
    requires place { IsPlace index.old.luns index.old.units (record { lun = lun; lba = lba }) }
    requires block { length bytes.now ≡ 4096 }
    requires limit { next_seq (F.pages flash.old) < 2 ^ 62 }
    ensures ok { OnOk result (F.pages flash.new
        ≡ programmed (F.geometry flash.old) (F.pages flash.old) (record { lun = lun; lba = lba }) bytes.now) }
    ensures err { OnErr result (F.pages flash.new ≡ F.pages flash.old) }
    ensures unchanged { OnErr result (index.new ≡ index.old) }
    ensures indexed { IsIndexed (F.geometry flash.new) (F.pages flash.new) index.new }
    ensures units { (index.new.luns ≡ index.old.luns) × (index.new.units ≡ index.old.units) }
    ensures victim { index.new.collector.victim ≡ index.old.collector.victim }
    ensures lookups { index.new.map.lookups
        ≡ (if is_ok result then raised index.old.map.lookups else index.old.map.lookups) }
    ensures geometry { F.geometry flash.new ≡ F.geometry flash.old }
    ensures calls { F.calls flash.new ≡ raised (F.calls flash.old) }
    ensures cause { HasCause (F.faults flash.old) (F.faults flash.new) result }
{
    let page = index.collector.frontier().unwrap();
    let key = index.key(lun, lba);
    let spare = Spare {
        lun,
        lba,
        seq: index.next_seq,
    };
    flash.program(page, bytes, spare)?;
    let old = index.map.set(key, page);
    make_valid(&mut index.validity, page, old);
    index.collector.programmed();
    index.next_seq += 1;
    Ok(())
}

/// Erases a full block that holds no current page.
pub fn erase_victim<F: Flash>(flash: &mut F, index: &mut Index, victim: u32) -> Result<(), Failed>
    requires indexed { IsIndexed (F.geometry flash.old) (F.pages flash.old) index.old }
    requires sound { ChipOk (F.geometry flash.old) index.old.luns index.old.units (F.pages flash.old) }
    requires in_range { victim < (F.geometry flash.old).blocks }
    requires full { IsFull (F.geometry flash.old) (F.pages flash.old) victim }
    requires copied { first_current (F.geometry flash.old) (F.pages flash.old) victim ≡ None }
    ensures ok { OnOk result
        (F.pages flash.new ≡ erase_block (F.pages flash.old) (F.geometry flash.old).pages victim) }
    ensures err { OnErr result (F.pages flash.new ≡ F.pages flash.old) }
    ensures unchanged { OnErr result (index.new ≡ index.old) }
    ensures indexed { IsIndexed (F.geometry flash.new) (F.pages flash.new) index.new }
    ensures units { (index.new.luns ≡ index.old.luns) × (index.new.units ≡ index.old.units) }
    ensures victim { OnOk result (index.new.collector.victim ≡ None) }
    ensures lookups { index.new.map.lookups ≡ index.old.map.lookups }
    ensures geometry { F.geometry flash.new ≡ F.geometry flash.old }
    ensures calls { F.calls flash.new ≡ raised (F.calls flash.old) }
    ensures cause { HasCause (F.faults flash.old) (F.faults flash.new) result }
{
    flash.erase(victim)?;
    index.collector.erased_block(victim);
    Ok(())
}

/// Copies the block of the shown page into the buffer.
pub fn hold_shown<F: Flash>(flash: &F, page: u32, buffer: &mut Vec<u8>) -> Held
    requires shown { F.shown_page flash.now ≡ Some page }
    requires written { is_erased (page_at (F.pages flash.now) page) ≡ false }
    requires size { length buffer.old.items ≡ 4096 }
    ensures held { buffered_in (Some result) buffer.new.items ≡ Some (buffered (F.pages flash.now) page) }
    ensures size { length buffer.new.items ≡ 4096 }
{
    match flash.shown() {
        PageView::Erased => unreachable!(),
        PageView::Written { bytes, spare } => {
            buffer.copy_from_slice(bytes);
            Held {
                page,
                lun: spare.lun,
                lba: spare.lba,
            }
        }
    }
}

/// The victim. Where none is held, one is chosen and held.
pub fn hold_victim(collector: &mut Collector, validity: &Validity) -> Option<u32>
    requires { validity.now.geometry ≡ collector.old.geometry }
    ensures held { collector.new ≡ record collector.old { victim = result } }
    ensures before { IfSome collector.old.victim (λ block. result ≡ Some block) }
    ensures chosen { collector.old.victim ≡ None → IsChoice collector.old.geometry.pages collector.old.written
        (valid_count collector.old.geometry.pages validity.now.valid) result }
{
    match collector.victim() {
        Some(block) => Some(block),
        None => collector.choose(validity),
    }
}
