//! Runs of many writes with the collector: blocks, entries and counts at the end, each call of the chip failing, and a
//! reset after each call.
use super::*;

/// A device of 20 blocks that are written in an order without pattern, what each block is, and how many pages are
/// erased.
#[derive(Drop)]
struct Run {
    bench: Bench,
    /// The byte of which each block consists that was programmed last.
    last: [u8; 20],
    /// Where the order stands: the write that is under way, or comes next.
    turn: u32,
    /// The most blocks of a write.
    most: u32,
    /// The blocks that came for this write, and those of them that were programmed.
    come: u8,
    programmed: u8,
    /// The erased pages.
    room: u64,
    /// The blocks that the host programmed in all, the pages that were moved and the erase blocks that were erased.
    made: [u64; 3],
}

/// What a call did: the call of the chip, and whether that failed.
type Made = Option<(ChipOp, bool)>;

impl Run {
    /// A run over an erased chip that was scanned, of whose calls this one fails.
    fn new(alloc: Global, most: u32, fail_at: u64) -> Result<Run, Fail> {
        let bench = SCANNED.failing(fail_at).bench(alloc)?;
        Ok(Run {
            bench,
            last: [0; 20],
            turn: 1,
            most,
            come: 0,
            programmed: 0,
            room: 32,
            made: [0; 3],
        })
    }

    /// The first block of the write, the number of its blocks, and the byte of which they consist.
    fn write(&self) -> (u8, u8, u8) {
        let n = if self.most > 1 && self.turn / 16_777_216 % 2 == 1 {
            2
        } else {
            1
        };
        (
            (self.turn / 65_536 % 19) as u8,
            n,
            (self.turn / 256 % 256) as u8,
        )
    }

    /// Makes a call of the device: a step where it needs one, else the data that it waits for, or the next write.
    fn call(&mut self) -> Result<Made, Fail> {
        let (lba, n, byte) = self.write();
        let is_refused = match self.bench.waits() {
            Waits::Step => return self.step(),
            Waits::Host => {
                let number = self.come;
                self.come = number.saturating_add(1);
                self.bench.data(number, byte)
            }
            Waits::Nothing => {
                let cdb = transfer(0x2A, lba, n);
                self.bench.command(2, 4096 * u32::from(n), cdb)
            }
        };
        if is_refused {
            return Err(Fail::new("refused"));
        }
        Ok(None)
    }

    /// Makes a step of the write.
    fn step(&mut self) -> Result<Made, Fail> {
        let stepped = self.bench.step();
        if stepped.sent {
            return self.answered(stepped);
        }
        if self.room > 4 {
            return self.program(stepped);
        }
        self.collected(stepped)
    }

    /// The device asked for data, or answered the write: with GOOD where all its blocks are programmed, and with
    /// 0Ch/00h where a call failed, after which it is made again.
    fn answered(&mut self, stepped: Stepped) -> Result<Made, Fail> {
        let (_, n, _) = self.write();
        let upiu = self.bench.upiu();
        let kind = upiu.first().copied();
        let status = upiu.get(7).copied();
        let sense = (
            upiu.get(36).copied(),
            upiu.get(46).copied(),
            upiu.get(47).copied(),
        );
        let is_bare = upiu.len() == 32;
        let is_whole = self.programmed == n && is_bare;
        if kind == Some(0x31) {
            let is_alone = stepped.failed.is_none() && stepped.moved.is_none();
            return self.told(is_alone, None);
        }
        if kind != Some(0x21) {
            return self.told(false, None);
        }
        self.come = 0;
        self.programmed = 0;
        if let Some(op) = stepped.failed {
            let is_failure = status == Some(2) && sense == (Some(3), Some(0x0C), Some(0));
            return self.told(is_failure, Some((op, true)));
        }
        self.turn = self.turn.wrapping_mul(1_103_515_245).wrapping_add(12_345);
        self.told(is_whole && status == Some(0), None)
    }

    /// The host's block was programmed, which is so wherever more than an erase block's worth of pages is erased.
    fn program(&mut self, stepped: Stepped) -> Result<Made, Fail> {
        let (lba, _, byte) = self.write();
        let key = lba.saturating_add(self.programmed);
        if key >= 20 {
            return Err(Fail::new("no block"));
        }
        self.last[key as usize] = byte;
        self.programmed = self.programmed.saturating_add(1);
        self.room = self.room.saturating_sub(1);
        self.made[0] = self.made[0].saturating_add(1);
        let is_alone = !stepped.idle && stepped.moved.is_none();
        self.told(is_alone, Some((ChipOp::Program, false)))
    }

    /// What the collector did in a step.
    fn collected(&mut self, stepped: Stepped) -> Result<Made, Fail> {
        let [_, _, _, _, erased] = self.bench.counts();
        if let Some(op) = stepped.failed {
            return self.told(!stepped.sent, Some((op, true)));
        }
        if stepped.idle {
            return self.told(stepped.moved.is_none(), None);
        }
        if let Some((lun, lba)) = stepped.moved {
            self.room = self.room.saturating_sub(1);
            self.made[1] = self.made[1].saturating_add(1);
            return self.told(lun == 0 && lba < 20, Some((ChipOp::Program, false)));
        }
        if erased != self.made[2] {
            self.room = self.room.saturating_add(4);
            self.made[2] = self.made[2].saturating_add(1);
            return self.told(true, Some((ChipOp::Erase, false)));
        }
        self.told(true, Some((ChipOp::Read, false)))
    }

    /// What a call did, if it was in order and the counts are.
    fn told(&self, is_ok: bool, made: Made) -> Result<Made, Fail> {
        let [_, _, _, moved, erased] = self.bench.counts();
        if is_ok && moved == self.made[1] && erased == self.made[2] {
            return Ok(made);
        }
        Err(Fail::new("out of order"))
    }

    /// Makes so many calls, of which each third may be one of the collector.
    fn calls(&mut self, count: u32, collects: bool) -> Result<(), Fail> {
        for number in 0..count {
            let _made = if collects && number % 3 == 2 {
                let stepped = self.bench.collect();
                self.collected(stepped)?
            } else {
                self.call()?
            };
        }
        Ok(())
    }

    /// Makes calls until one of them calls the chip, and tells that.
    fn chip_call(&mut self) -> Result<(ChipOp, bool), Fail> {
        for _call in 0..100 {
            if let Some(made) = self.call()? {
                return Ok(made);
            }
        }
        Err(Fail::new("no call of the chip"))
    }

    /// The entry of each block, where it isn't `u64::MAX`.
    fn entries(&mut self, alloc: Global) -> Result<[u64; 20], Fail> {
        let mut cdb = [0; 16];
        cdb[0] = 0xF9;
        cdb[1] = 1;
        cdb[8] = 160;
        let mut told = Vec::new(alloc);
        if self.bench.command(6, 160, cdb) {
            return Err(Fail::new("refused"));
        }
        drain(&mut self.bench, &mut told)?;
        let mut entries = [0; 20];
        for place in 0..160usize {
            let byte = told.get(32 + place).copied().unwrap_or(0);
            entries[place / 8] = entries[place / 8] << 8 | u64::from(byte);
        }
        Ok(entries)
    }

    /// Whether each block is the one that was programmed last, by READ(10) and by its entry, and whether that is
    /// counted exactly.
    fn is_kept(&mut self, alloc: Global) -> Result<bool, Fail> {
        let [steps, lookups, by_entry, moved, erased] = self.bench.counts();
        let entries = self.entries(alloc)?;
        // the blocks that were never written: both reads look them up, after a step for the entry
        let mut blank: u64 = 0;
        for lba in 0..20u8 {
            let last = self.last[lba as usize];
            let entry = entries[lba as usize];
            let read = block(alloc, &mut self.bench, transfer(0x28, lba, 1))?;
            let again = block(alloc, &mut self.bench, read_by_entry(lba, entry))?;
            if read != last || again != last || entry == u64::MAX && last != 0 {
                return Ok(false);
            }
            if entry == u64::MAX {
                blank = blank.saturating_add(1);
            }
        }
        // the list of entries and its answer, and each block and its answer
        let counts = [
            steps.saturating_add(82).saturating_add(blank),
            lookups.saturating_add(20).saturating_add(blank),
            by_entry.saturating_add(20).saturating_sub(blank),
            moved,
            erased,
        ];
        Ok(self.bench.counts() == counts)
    }

    /// Drops the write that is under way, by a reset, and tells whether each block is kept once the chip is scanned.
    fn is_kept_by_a_reset(&mut self, alloc: Global) -> Result<bool, Fail> {
        self.bench.reset();
        self.come = 0;
        self.programmed = 0;
        Ok(self.bench.scan()? == 32 && self.is_kept(alloc)?)
    }

    /// Whether many writes keep the blocks, alone or with calls of the collector between.
    fn is_kept_by_writes(&mut self, alloc: Global, collects: bool) -> Result<bool, Fail> {
        self.calls(20_000, collects)?;
        for _call in 0..100 {
            // the last write ends
            if self.bench.waits() == Waits::Nothing {
                break;
            }
            let _made = self.call()?;
        }
        if self.bench.waits() != Waits::Nothing {
            return Err(Fail::new("no end of the write"));
        }
        let [written, moved, erased] = self.made;
        let are_many = written > 2000 && moved > 2000 && erased > 1000;
        Ok(are_many && self.is_kept(alloc)? && self.is_kept_by_a_reset(alloc)?)
    }

    /// Whether a reset after so many calls keeps the blocks, and another one after more calls.
    fn is_kept_by_resets(&mut self, alloc: Global, count: u32) -> Result<bool, Fail> {
        self.calls(count, true)?;
        let is_kept = self.is_kept_by_a_reset(alloc)?;
        if count % 8 != 0 {
            return Ok(is_kept);
        }
        self.calls(60, true)?;
        Ok(is_kept && self.is_kept_by_a_reset(alloc)?)
    }

    /// Makes a hundred calls of the chip, some of each kind, and tells them.
    fn chip_calls(&mut self, alloc: Global) -> Result<Vec<ChipOp>, Fail> {
        let mut made = Vec::new(alloc);
        for _call in 0..100 {
            let (op, _) = self.chip_call()?;
            made.push(op)?;
        }
        let [_, moved, erased] = self.made;
        if moved == 0 || erased == 0 {
            return Err(Fail::new("too few calls"));
        }
        Ok(made)
    }

    /// Whether these calls of the chip are made, the one that fails, at this place, is made again, and the blocks are
    /// kept.
    fn is_kept_by_a_failure(
        &mut self,
        alloc: Global,
        calls: &[ChipOp],
        place: usize,
    ) -> Result<bool, Fail> {
        for (number, op) in calls.iter().copied().enumerate() {
            if number == place && self.chip_call()? != (op, true) {
                return Ok(false);
            }
            if self.chip_call()? != (op, false) {
                return Ok(false);
            }
        }
        self.is_kept_by_a_reset(alloc)
    }
}

/// Whether many writes keep the blocks.
fn writes_keep(alloc: Global, collects: bool) -> Result<bool, Fail> {
    Run::new(alloc, 2, 0)?.is_kept_by_writes(alloc, collects)
}

/// Whether a reset after so many calls keeps the blocks.
fn a_reset_keeps(alloc: Global, count: u32) -> Result<bool, Fail> {
    Run::new(alloc, 2, 0)?.is_kept_by_resets(alloc, count)
}

/// The calls of the chip where none fails.
fn whole_calls(alloc: Global) -> Result<Vec<ChipOp>, Fail> {
    Run::new(alloc, 1, 0)?.chip_calls(alloc)
}

/// Whether the blocks are kept where one of these calls of the chip fails.
fn a_failure_keeps(alloc: Global, calls: &[ChipOp], place: usize) -> Result<bool, Fail> {
    // the scan makes 32 calls
    let fail_at = (place as u64).saturating_add(33);
    Run::new(alloc, 1, fail_at)?.is_kept_by_a_failure(alloc, calls, place)
}

/// The first number of calls after which a reset doesn't keep the blocks.
fn lost_by_a_reset(alloc: Global) -> Result<Option<u32>, Fail> {
    for count in 0..400 {
        if !a_reset_keeps(alloc, count)? {
            return Ok(Some(count));
        }
    }
    Ok(None)
}

/// The first call of the chip whose failure doesn't keep the blocks.
fn lost_by_a_failure(alloc: Global) -> Result<Option<usize>, Fail> {
    let calls = whole_calls(alloc)?;
    for place in 0..100usize {
        if !a_failure_keeps(alloc, &calls, place)? {
            return Ok(Some(place));
        }
    }
    Ok(None)
}

#[test]
fn overwritten_blocks_are_kept(rt: HostRuntime) -> Result<(), Fail> {
    let kept = (
        writes_keep(rt.alloc(), false)?,
        writes_keep(rt.alloc(), true)?,
    );
    assert!(rt; kept == (true, true));
    Ok(())
}

#[test]
fn a_reset_after_each_call_keeps_the_blocks(rt: HostRuntime) -> Result<(), Fail> {
    let lost = lost_by_a_reset(rt.alloc())?;
    assert!(rt; lost.is_none(), "{lost:?}");
    Ok(())
}

#[test]
fn a_call_that_failed_for_a_write_is_made_again(rt: HostRuntime) -> Result<(), Fail> {
    let lost = lost_by_a_failure(rt.alloc())?;
    assert!(rt; lost.is_none(), "{lost:?}");
    Ok(())
}
