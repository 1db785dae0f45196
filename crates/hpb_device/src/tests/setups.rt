//! Chips in memory, and devices over them.
use super::*;

/// A chip, and the units of a device over it.
#[derive(Drop)]
pub struct Setup {
    pub geometry: Geometry,
    /// So many pages are written, from the first one on. The block of each is at an LBA so far from that of the page
    /// before, and its sequence number as much higher.
    pub written: u32,
    pub apart: u32,
    /// The first sequence number.
    pub seq: u64,
    /// The calls of the chip that fail. Each page that is written takes two.
    pub fail_at: [u64; 3],
    pub shape: Shape,
    pub luns: u8,
    /// Whether the chip is scanned.
    pub is_scanned: bool,
}

impl Setup {
    /// The same where this call of the chip fails.
    pub fn failing(&self, fail_at: u64) -> Setup {
        Setup {
            fail_at: [fail_at, 0, 0],
            ..*self
        }
    }

    /// The chip.
    fn chip(&self, alloc: Global) -> Result<MemFlash, Fail> {
        if !self.geometry.is_within_limits() {
            return Err(Fail::new("no chip"));
        }
        let fail_at = self.fail_at.to_vec(alloc)?;
        let mut flash = MemFlash::new(alloc, self.geometry, fail_at)?;
        for page in 0..self.written {
            let step = page.wrapping_mul(self.apart);
            let seq = self.seq.wrapping_add(u64::from(step));
            put(
                &mut flash,
                page,
                Spare {
                    lun: 0,
                    lba: step,
                    seq,
                },
            )?;
        }
        Ok(flash)
    }

    /// A device over it.
    pub fn bench(&self, alloc: Global) -> Result<Bench, Fail> {
        let mut bench = Bench::new(alloc, self.chip(alloc)?, self.shape, self.luns)?;
        if self.is_scanned {
            bench.scan()?;
        }
        Ok(bench)
    }
}

/// Writes an erased page with a block that consists of its number.
fn put(flash: &mut MemFlash, page: u32, spare: Spare) -> Result<(), Fail> {
    let geometry = flash.geometry();
    if !geometry.is_within_limits() || page >= geometry.blocks * geometry.pages {
        return Err(Fail::new("no page"));
    }
    flash.read(page)?;
    if let PageView::Erased = flash.shown() {
        flash.program(page, &[(page % 256) as u8; BLOCK_BYTES], spare)?;
    }
    Ok(())
}
