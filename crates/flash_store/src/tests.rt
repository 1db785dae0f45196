//! A store over a chip in memory: scans of chips made by hand, entries, writes with the collector, calls that fail, and
//! resets.
ghost use Rattle.std.specs.Prelude.{◌≡◌};

use super::*;
use flash_pages::{BLOCK_BYTES, ChipOp, Flash, Geometry, MemFlash, PageView, Spare};
use hpb_outside::Failed;
use std::alloc::Global;
use std::test::Fail;

/// 32 pages, for two units of ten blocks each.
const CHIP: Geometry = Geometry {
    blocks: 8,
    pages: 4,
};

/// A store of two units of ten blocks, and the byte of which each block consists that was written last.
#[derive(Drop)]
struct Bench {
    store: Store<MemFlash>,
    last: [u8; 20],
    ghost luns: { store.luns ≡ 2 },
    ghost units: { store.units ≡ 10 },
}

/// A store over a chip, of which no page was read yet.
fn bench_over(alloc: Global, flash: MemFlash) -> Result<Bench, Fail> {
    match Store::new(alloc, flash, 2, 10) {
        Ok(store) => Ok(Bench {
            store,
            last: [0; 20],
        }),
        Err(_) => Err(Fail::new("no store")),
    }
}

/// A store over an erased chip that was scanned, whose call of the chip with this number fails.
fn scanned(alloc: Global, fail_at: u64) -> Result<Bench, Fail> {
    let flash = MemFlash::new(alloc, CHIP, vec![in alloc; fail_at]?)?;
    let mut bench = bench_over(alloc, flash)?;
    bench.scan()?;
    Ok(bench)
}

impl Bench {
    /// Scans the chip, and tells how many steps that took, those that failed among them.
    fn scan(&mut self) -> Result<u32, Fail> {
        for step in 0..100 {
            let Phase::Scanning = self.store.phase() else {
                return Ok(step);
            };
            let _step = self.store.scan_step();
        }
        Err(Fail::new("no end of the scan"))
    }

    /// Makes a step of a write of a block that consists of this byte.
    fn write(&mut self, key: u32, byte: u8) -> Result<Result<Wrote, StoreFault>, Fail> {
        if key >= 20 {
            return Err(Fail::new("no block"));
        }
        let Phase::Ready = self.store.phase() else {
            return Err(Fail::new("not ready"));
        };
        let step = self
            .store
            .write_step((key / 10) as u8, key % 10, &[byte; BLOCK_BYTES]);
        if step == Ok(Wrote::Done) {
            self.last[key as usize] = byte;
        }
        Ok(step)
    }

    /// Makes a step of the collector.
    fn collect(&mut self) -> Result<Moved, ChipOp> {
        self.store.collect_step()
    }

    /// The byte of which a block consists.
    fn read(&mut self, key: u32) -> Result<Result<Option<u8>, Failed>, Fail> {
        if key >= 20 {
            return Err(Fail::new("no block"));
        }
        let Phase::Ready = self.store.phase() else {
            return Err(Fail::new("not ready"));
        };
        match self.store.read_mapped((key / 10) as u8, key % 10) {
            Ok(block) => Ok(Ok(block.first().copied())),
            Err(failed) => Ok(Err(failed)),
        }
    }

    /// The entry of a block.
    fn entry(&mut self, key: u32) -> Result<u64, Fail> {
        if key >= 20 {
            return Err(Fail::new("no block"));
        }
        let Phase::Ready = self.store.phase() else {
            return Err(Fail::new("not ready"));
        };
        Ok(self.store.entry_of((key / 10) as u8, key % 10))
    }

    /// The byte of which a block consists, where it is read by this entry.
    fn read_by(&mut self, key: u32, entry: u64) -> Result<Result<Option<u8>, Failed>, Fail> {
        if key >= 20 {
            return Err(Fail::new("no block"));
        }
        let Phase::Ready = self.store.phase() else {
            return Err(Fail::new("not ready"));
        };
        match self.store.read_by_entry((key / 10) as u8, key % 10, entry) {
            Ok(Some(block)) => Ok(Ok(block.first().copied())),
            Ok(None) => Ok(Ok(None)),
            Err(failed) => Ok(Err(failed)),
        }
    }

    /// Whether each block is the one that was written last, read by its entry and without one.
    fn is_kept(&mut self) -> Result<bool, Fail> {
        for key in 0..20 {
            let last = self.last[key as usize];
            if self.read(key)? != Ok(Some(last)) {
                return Ok(false);
            }
            let entry = self.entry(key)?;
            if entry < u64::MAX && self.read_by(key, entry)? != Ok(Some(last)) {
                return Ok(false);
            }
        }
        Ok(true)
    }

    /// Makes so many steps of writes, one block after another of an order without pattern, and tells what each did.
    fn run(&mut self, alloc: Global, steps: u32) -> Result<Vec<Result<Wrote, StoreFault>>, Fail> {
        let mut made = Vec::new(alloc);
        let mut turn: u32 = 1;
        for _step in 0..steps {
            let step = self.write(turn / 65536 % 20, (turn / 256 % 256) as u8)?;
            if step == Ok(Wrote::Done) {
                turn = turn.wrapping_mul(1_103_515_245).wrapping_add(12_345);
            }
            made.push(step)?;
        }
        Ok(made)
    }
}

/// A written page of a chip that is made by hand: its number, the unit, the block and the sequence number.
type Put = (u32, u8, u32, u64);

/// What a page of a chip shows: the first byte, the unit, the block and the sequence number, where it is written.
type Shown = Option<(Option<u8>, u8, u32, u64)>;

/// Reads a page of a chip.
fn show(flash: &mut MemFlash, page: u32) -> Result<Shown, Fail> {
    let geometry = flash.geometry();
    if !geometry.is_within_limits() || page >= geometry.blocks * geometry.pages {
        return Err(Fail::new("no page"));
    }
    flash.read(page)?;
    match flash.shown() {
        PageView::Erased => Ok(None),
        PageView::Written { bytes, spare } => Ok(Some((
            bytes.first().copied(),
            spare.lun,
            spare.lba,
            spare.seq,
        ))),
    }
}

/// Writes a page where it is erased.
fn put(flash: &mut MemFlash, (page, lun, lba, seq): Put) -> Result<(), Fail> {
    let geometry = flash.geometry();
    if !geometry.is_within_limits() || page >= geometry.blocks * geometry.pages {
        return Err(Fail::new("no page"));
    }
    flash.read(page)?;
    if let PageView::Erased = flash.shown() {
        flash.program(
            page,
            &[(page % 256) as u8; BLOCK_BYTES],
            Spare { lun, lba, seq },
        )?;
    }
    Ok(())
}

/// Each page of a chip.
fn pages_of(alloc: Global, flash: &mut MemFlash) -> Result<Vec<Shown>, Fail> {
    let mut pages = Vec::new(alloc);
    for page in 0..32 {
        pages.push(show(flash, page)?)?;
    }
    Ok(pages)
}

/// A chip with these pages. So many of its first pages are then written, where they are erased: the first of each erase
/// block with a block of its own, and three with one that is overwritten in the next erase block.
fn chip(alloc: Global, puts: &[Put], full: u32) -> Result<MemFlash, Fail> {
    let mut flash = MemFlash::new(alloc, CHIP, Vec::new(alloc))?;
    for one in puts {
        put(&mut flash, *one)?;
    }
    for page in 0..full {
        let lba = if page % 4 == 0 { page / 4 } else { 9 };
        put(&mut flash, (page, 0, lba, u64::from(page)))?;
    }
    Ok(flash)
}

/// Chips made by hand: what is written first, how many pages are written then, and what the scan shows. Each that is
/// foreign has a sound one beside it.
const CHIPS: [(&[Put], u32, Phase); 16] = [
    // the unit and the block of a page
    (&[(0, 2, 0, 0)], 0, Phase::Foreign),
    (&[(0, 1, 0, 0)], 0, Phase::Ready),
    (&[(0, 0, 10, 0)], 0, Phase::Foreign),
    (&[(0, 0, 9, 0)], 0, Phase::Ready),
    // the last number
    (&[(0, 0, 0, 0x4000_0000_0000_0000)], 0, Phase::Foreign),
    (&[(0, 0, 0, 0x3FFF_FFFF_FFFF_FFFF)], 0, Phase::Ready),
    // a number twice: the greatest of its block, one that is not, and one of two blocks
    (&[(0, 0, 0, 5), (1, 0, 0, 5)], 0, Phase::Foreign),
    (&[(0, 0, 0, 5), (1, 0, 0, 5), (2, 0, 0, 6)], 0, Phase::Ready),
    (&[(0, 0, 0, 5), (1, 1, 0, 5)], 0, Phase::Ready),
    (
        &[(0, 0, 0, 6), (1, 0, 0, 5), (2, 0, 0, 6)],
        0,
        Phase::Foreign,
    ),
    // a page behind an erased one
    (&[(1, 0, 0, 0)], 0, Phase::Foreign),
    (&[(4, 0, 0, 0)], 0, Phase::Ready),
    // two blocks partly written
    (&[(4, 0, 5, 9)], 1, Phase::Foreign),
    (&[(4, 0, 5, 9)], 4, Phase::Ready),
    // one erased page, and a current page in each full block but for one
    (&[], 31, Phase::Foreign),
    (&[(0, 0, 9, 0)], 31, Phase::Ready),
];

#[test]
fn a_chip_is_foreign_exactly_where_it_is_not_sound(rt: HostRuntime) -> Result<(), Fail> {
    for (number, (puts, full, phase)) in CHIPS.iter().copied().enumerate() {
        let mut flash = chip(rt.alloc(), puts, full)?;
        let before = pages_of(rt.alloc(), &mut flash)?;
        let mut bench = bench_over(rt.alloc(), flash)?;
        assert_eq!(rt; bench.scan()?, 32, "{number}");
        assert_eq!(rt; bench.store.phase(), phase, "{number}");
        if phase == Phase::Foreign {
            assert_eq!(rt; bench.collect(), Ok(Moved::Idle), "{number}");
        }
        let mut flash = bench.store.into_flash();
        assert!(rt; pages_of(rt.alloc(), &mut flash)? == before, "{number}");
    }
    Ok(())
}

/// A read by an entry: the block and the entry, the byte of which the answer consists if there is one, and the counts
/// of the chip's calls, of look-ups and of hits after it.
type Read = (u32, u64, Option<u8>, u64, u64, u64);

/// The block that was written, to page 1; the one that was overwritten, on page 0 first and then on page 2; and the
/// block of the other unit that was never written. The scan made 32 calls.
const READS: [Read; 21] = [
    (1, 0, None, 35, 3, 0),
    (1, 1, Some(0x22), 36, 3, 1),
    (1, 2, None, 36, 3, 0),
    (1, 32, None, 35, 3, 0),
    (1, 0x1_0000_0001, None, 35, 3, 0),
    (1, 0x8000_0000_0000_0000, None, 35, 3, 0),
    (1, 0xFFFF_FFFF_FFFF_FFFF, None, 35, 3, 0),
    (2, 0, None, 35, 3, 0),
    (2, 1, None, 36, 3, 0),
    (2, 2, Some(0x33), 36, 3, 1),
    (2, 32, None, 35, 3, 0),
    (2, 0x1_0000_0002, None, 35, 3, 0),
    (2, 0x8000_0000_0000_0000, None, 35, 3, 0),
    (2, 0xFFFF_FFFF_FFFF_FFFF, None, 35, 3, 0),
    (12, 0, None, 35, 3, 0),
    (12, 1, None, 36, 3, 0),
    (12, 2, None, 36, 3, 0),
    (12, 32, None, 35, 3, 0),
    (12, 0x1_0000_0002, None, 35, 3, 0),
    (12, 0x8000_0000_0000_0000, None, 35, 3, 0),
    (12, 0xFFFF_FFFF_FFFF_FFFF, None, 35, 3, 0),
];

/// A store after three writes, whose call of the chip with this number fails.
fn written(alloc: Global, fail_at: u64) -> Result<Bench, Fail> {
    let mut bench = scanned(alloc, fail_at)?;
    for (key, byte) in [(2, 0x11), (1, 0x22), (2, 0x33)] {
        let _done = bench.write(key, byte)?;
    }
    Ok(bench)
}

/// What a read by an entry answers, and the counts of look-ups and of hits after it; and whether the chip failed in the
/// next call.
type Answer = (Result<Option<u8>, Failed>, u64, u64, bool);

/// Reads a block by an entry, and then one with a page, over a chip of which this call fails.
fn answer(alloc: Global, key: u32, entry: u64, fail_at: u64) -> Result<Answer, Fail> {
    let mut bench = written(alloc, fail_at)?;
    let read = bench.read_by(key, entry)?;
    let lookups = bench.store.lookups();
    let hits = bench.store.hits();
    let next = bench.read(1)?;
    Ok((read, lookups, hits, next == Err(Failed)))
}

#[test]
fn an_entry_is_honoured_where_it_names_the_current_page(rt: HostRuntime) -> Result<(), Fail> {
    for (key, entry, byte, calls, lookups, hits) in READS {
        // the chip fails in the next call, so this one was so many calls before it
        let found = answer(rt.alloc(), key, entry, calls.saturating_add(1))?;
        assert_eq!(rt; found, (Ok(byte), lookups, hits, true), "{key} {entry}");
    }
    Ok(())
}

#[test]
fn entries_are_the_numbers_of_current_pages(rt: HostRuntime) -> Result<(), Fail> {
    let mut bench = written(rt.alloc(), 36)?;
    let entries = [bench.entry(1)?, bench.entry(2)?, bench.entry(12)?];
    assert_eq!(rt; entries, [1, 2, u64::MAX]);
    assert_eq!(rt; bench.store.lookups(), 6);
    assert_eq!(rt; bench.read_by(2, 2)?, Err(Failed));
    assert_eq!(rt; bench.store.hits(), 0);
    assert_eq!(rt; bench.store.geometry(), CHIP);
    assert!(rt; can_serve(CHIP, 2, 10) && !can_serve(CHIP, 2, 11));
    Ok(())
}

/// What the collector does with an erase block of which the first page is current, where the call with this number
/// fails. The scan and the writes before made 37 calls.
const COLLECTED: [(u64, [Result<Moved, ChipOp>; 5]); 4] = [
    (
        0,
        [
            Ok(Moved::Read),
            Ok(Moved::Page(0, 0)),
            Ok(Moved::Erased(0)),
            Ok(Moved::Idle),
            Ok(Moved::Idle),
        ],
    ),
    (
        38,
        [
            Err(ChipOp::Read),
            Ok(Moved::Read),
            Ok(Moved::Page(0, 0)),
            Ok(Moved::Erased(0)),
            Ok(Moved::Idle),
        ],
    ),
    (
        39,
        [
            Ok(Moved::Read),
            Err(ChipOp::Program),
            Ok(Moved::Page(0, 0)),
            Ok(Moved::Erased(0)),
            Ok(Moved::Idle),
        ],
    ),
    (
        40,
        [
            Ok(Moved::Read),
            Ok(Moved::Page(0, 0)),
            Err(ChipOp::Erase),
            Ok(Moved::Erased(0)),
            Ok(Moved::Idle),
        ],
    ),
];

#[test]
fn a_page_that_is_copied_gets_a_new_entry(rt: HostRuntime) -> Result<(), Fail> {
    for (fail_at, moves) in COLLECTED {
        let mut bench = scanned(rt.alloc(), fail_at)?;
        for (key, byte) in [(0, 0x11), (1, 0x22), (1, 0x33), (1, 0x44), (1, 0x55)] {
            assert_eq!(rt; bench.write(key, byte)?, Ok(Wrote::Done), "{fail_at}");
        }
        assert_eq!(rt; bench.entry(0)?, 0, "{fail_at}");
        for moved in moves {
            assert_eq!(rt; bench.collect(), moved, "{fail_at}");
        }
        assert_eq!(rt; bench.read_by(0, 0)?, Ok(None), "{fail_at}");
        assert_eq!(rt; bench.entry(0)?, 5, "{fail_at}");
        assert_eq!(rt; bench.read_by(0, 5)?, Ok(Some(0x11)), "{fail_at}");
        assert!(rt; bench.is_kept()?, "{fail_at}");
    }
    Ok(())
}

#[test]
fn overwritten_blocks_are_kept(rt: HostRuntime) -> Result<(), Fail> {
    let mut bench = scanned(rt.alloc(), 0)?;
    let made = bench.run(rt.alloc(), 1_000_000)?;
    let mut written: u32 = 0;
    for step in made.iter().copied() {
        if step == Ok(Wrote::Done) {
            written = written.saturating_add(1);
        }
    }
    assert!(rt; written >= 100_000, "{written}");
    assert!(rt; bench.is_kept()?);
    Ok(())
}

#[test]
fn a_reset_after_each_call_keeps_the_blocks(rt: HostRuntime) -> Result<(), Fail> {
    for steps in 0..400 {
        let mut bench = scanned(rt.alloc(), 0)?;
        let _made = bench.run(rt.alloc(), steps)?;
        bench.store.reset();
        assert_eq!(rt; bench.scan()?, 32, "{steps}");
        assert!(rt; bench.is_kept()?, "{steps}");
    }
    Ok(())
}

/// What a step is, where its call of the chip fails.
fn failed(step: Result<Wrote, StoreFault>) -> Result<Wrote, StoreFault> {
    match step {
        Ok(Wrote::Collected(Moved::Read)) => Err(StoreFault::Failed(ChipOp::Read)),
        Ok(Wrote::Collected(Moved::Erased(_))) => Err(StoreFault::Failed(ChipOp::Erase)),
        _ => Err(StoreFault::Failed(ChipOp::Program)),
    }
}

#[test]
fn a_call_that_failed_is_made_again(rt: HostRuntime) -> Result<(), Fail> {
    // a page of the scan
    for fail_at in 1..33 {
        assert_eq!(rt;
            bench_scans(rt.alloc(), fail_at)?,
            (33, Phase::Ready),
            "{fail_at}"
        );
    }
    // a call of a write, or of the collector for it
    let whole = scanned(rt.alloc(), 0)?.run(rt.alloc(), 160)?;
    for place in 0..160 {
        let mut bench = scanned(rt.alloc(), place as u64 + 33)?;
        let made = bench.run(rt.alloc(), 161)?;
        for (number, step) in made.iter().copied().enumerate() {
            let before = if number > place { number - 1 } else { number };
            let Some(done) = whole.get(before).copied() else {
                return Err(Fail::new("too many steps"));
            };
            let expected = if number == place { failed(done) } else { done };
            assert_eq!(rt; step, expected, "{place} {number}");
        }
        assert!(rt; bench.is_kept()?, "{place}");
    }
    Ok(())
}

/// Scans an erased chip of which this call fails: how many steps it takes, and the phase then.
fn bench_scans(alloc: Global, fail_at: u64) -> Result<(u32, Phase), Fail> {
    let flash = MemFlash::new(alloc, CHIP, vec![in alloc; fail_at]?)?;
    let mut bench = bench_over(alloc, flash)?;
    let steps = bench.scan()?;
    Ok((steps, bench.store.phase()))
}
