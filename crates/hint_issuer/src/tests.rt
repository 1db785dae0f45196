//! The hints of a unit, as the segments that carry them.
ghost use Rattle.std.specs.Prelude.{◌≡◌};
ghost use Rattle.region_state.specs.Shape.{IsWithinLimits};

use super::*;
use hpb_outside::NewFault;
use hpb_sense::{Sense, put_hint, read_sense};
use region_state::{Mode, Shape};
use std::alloc::Global;
use std::process::Abort;
use std::test::Fail;

/// A call of `Regions`.
#[derive(Clone, Copy, Debug)]
enum Call {
    /// Four plain reads of a block.
    FourReads(u32),
    Loaded(u16, u16),
    Reset,
}

/// The regions of a unit, and its shape.
#[derive(Drop)]
struct Unit {
    shape: Shape,
    regions: Regions,
    ghost limits: { IsWithinLimits shape },
    ghost same: { regions.shape ≡ shape },
}

impl Unit {
    fn new(alloc: Global, shape: Shape) -> Result<Unit, NewFault> {
        match Regions::new(alloc, shape) {
            Ok(regions) => Ok(Unit { shape, regions }),
            Err(fault) => Err(fault),
        }
    }

    fn read(&mut self, rt: &impl Abort, lba: u32) {
        assert!(rt; lba < self.shape.units);
        self.regions.read(lba, 1, true);
    }

    fn four_reads(&mut self, rt: &impl Abort, lba: u32) {
        for _ in 0..4 {
            self.read(rt, lba);
        }
    }

    fn loaded(&mut self, rt: &impl Abort, region: u16, sub: u16) {
        let shape = self.shape;
        assert!(rt; u32::from(sub) < shape.per_region());
        let first = u64::from(region) * (1 << (shape.region_exp - 3));
        let block = first + u64::from(sub) * (1 << (shape.sub_exp - 3));
        assert!(rt; block < u64::from(shape.units));
        self.regions.loaded(region, sub);
    }

    fn call(&mut self, rt: &impl Abort, call: Call) {
        match call {
            Call::FourReads(lba) => self.four_reads(rt, lba),
            Call::Loaded(region, sub) => self.loaded(rt, region, sub),
            Call::Reset => self.regions.reset(),
        }
    }

    fn calls(&mut self, rt: &impl Abort, calls: &[Call]) {
        for call in calls {
            self.call(rt, *call);
        }
    }

    /// The segment of the next hint.
    fn segment(&mut self) -> Option<[u8; 20]> {
        let mut bytes = [0xFF; 20];
        match take(&mut self.regions, 7) {
            Some(hint) => {
                put_hint(&hint, &mut bytes);
                Some(bytes)
            }
            None => None,
        }
    }
}

/// The 20 bytes of five words.
fn bytes_of(words: [u32; 5]) -> [u8; 20] {
    let mut segment = [0; 20];
    segment[..4].copy_from_slice(&words[0].to_be_bytes());
    segment[4..8].copy_from_slice(&words[1].to_be_bytes());
    segment[8..12].copy_from_slice(&words[2].to_be_bytes());
    segment[12..16].copy_from_slice(&words[3].to_be_bytes());
    segment[16..].copy_from_slice(&words[4].to_be_bytes());
    segment
}

/// Who decides which regions are held. Then calls, and the segments that are told after them, as words.
type Told = (Mode, &'static [Call], &'static [[u32; 5]]);

/// A load of the first subregion of region 0.
const LOAD_0: Call = Call::Loaded(0, 0);

/// The same of region 1.
const LOAD_1: Call = Call::Loaded(1, 0);

/// The same of region 2.
const LOAD_2: Call = Call::Loaded(2, 0);

/// Calls on a unit of 20 blocks, 8 in a region and 2 in a subregion, of which one region may be held.
const TOLD: [Told; 6] = [
    (Mode::Device, &[], &[]),
    (
        Mode::Device,
        &[Call::FourReads(4)],
        &[[0x0012_8010, 0x0107_0100, 0x0000_0002, 0, 0]],
    ),
    (Mode::Host, &[Call::FourReads(4)], &[]),
    (
        Mode::Host,
        &[LOAD_1, LOAD_0],
        &[[0x0012_8010, 0x0107_0001, 0, 0, 0x0001_0000]],
    ),
    // two of each, and a third subregion later
    (
        Mode::Device,
        &[
            LOAD_0,
            LOAD_1,
            LOAD_2,
            Call::FourReads(18),
            Call::FourReads(10),
            Call::FourReads(4),
        ],
        &[
            [
                0x0012_8010,
                0x0107_0202,
                0x0000_0002,
                0x0001_0001,
                0x0000_0001,
            ],
            [0x0012_8010, 0x0107_0100, 0x0002_0001, 0, 0],
        ],
    ),
    // a reset comes first, and alone
    (
        Mode::Device,
        &[LOAD_0, LOAD_1, Call::Reset, Call::FourReads(4)],
        &[
            [0x0012_8010, 0x0207_0000, 0, 0, 0],
            [0x0012_8010, 0x0107_0100, 0x0000_0002, 0, 0],
        ],
    ),
];

/// Checks that these segments are told and no other one after them, and that each is a hint.
fn check_told(rt: &impl Abort, unit: &mut Unit, segments: &[[u32; 5]]) {
    for words in segments {
        let bytes = bytes_of(*words);
        assert_eq!(rt; unit.segment(), Some(bytes), "{words:?}");
        assert!(rt;
            matches!(read_sense(&bytes), Some(Sense::Hint(_))),
            "{words:?}"
        );
    }
    assert_eq!(rt; unit.segment(), None, "after {segments:?}");
}

#[test]
fn segments_are_told(rt: HostRuntime) -> Result<(), Fail> {
    for (mode, calls, segments) in TOLD {
        let shape = Shape {
            units: 20,
            region_exp: 6,
            sub_exp: 4,
            held: 1,
            mode,
        };
        let mut unit = Unit::new(rt.alloc(), shape)?;
        unit.calls(&rt, calls);
        check_told(&rt, &mut unit, segments);
    }
    Ok(())
}
