//! The plans of reads of caches in which the entry of each block that was loaded is the block's number.
use crate::{Plan, plan};
use region_state::{Mode, Shape};
use std::alloc::AllocError;
use std::process::Abort;
use std::test::*;
use unit::Unit;

mod unit;

/// What happens before a read.
#[derive(Clone, Copy, Debug)]
enum Step {
    Nothing,
    /// A region is hinted.
    Hint(u16),
    /// A region is hinted, and its first subregion loaded.
    Load(u16),
    /// A block is written.
    Write(u32),
}

/// A plan, with as many entries as a list has.
#[derive(Clone, Copy, Debug, PartialEq, Eq)]
enum Way {
    Plain,
    Single(u64),
    Prefetch(u8, usize),
}

/// The way of a plan for a read from a block on. The entries of a list have to be the numbers of its blocks.
fn way_of(rt: &impl Abort, plan: Plan, lba: u32) -> Way {
    match plan {
        Plan::Plain => Way::Plain,
        Plan::Single(entry) => Way::Single(entry),
        Plan::Prefetch(id, entries) => {
            let mut block = u64::from(lba);
            for entry in entries.iter() {
                assert!(rt; *entry == block);
                block = block.saturating_add(1);
            }
            Way::Prefetch(id, entries.len())
        }
    }
}

/// A unit that holds one region of one subregion.
fn shape(units: u32, exp: u8) -> Shape {
    Shape {
        units,
        region_exp: exp,
        sub_exp: exp,
        held: 1,
        mode: Mode::Device,
    }
}

/// A step, and the plan of the read after it: of a block and as many, and whether two tags are free.
type Row = (Step, u32, u32, bool, Way);

/// 20 blocks in regions of two.
const SMALL: [Row; 13] = [
    (Step::Nothing, 0, 1, true, Way::Plain),
    (Step::Hint(0), 0, 1, true, Way::Plain),
    (Step::Load(0), 0, 2, true, Way::Prefetch(7, 2)),
    (Step::Nothing, 0, 2, false, Way::Single(0)),
    (Step::Nothing, 0, 1, true, Way::Single(0)),
    (Step::Nothing, 0, 0, true, Way::Plain),
    (Step::Nothing, 0, 3, true, Way::Plain),
    (Step::Nothing, 1, 2, true, Way::Plain),
    (Step::Nothing, 2, 1, true, Way::Plain),
    (Step::Write(0), 0, 1, true, Way::Plain),
    (Step::Nothing, 1, 1, true, Way::Single(1)),
    (Step::Nothing, 0, 2, true, Way::Plain),
    (Step::Hint(1), 1, 1, true, Way::Plain),
];

/// 300 blocks in regions of 256.
const LARGE: [Row; 6] = [
    (Step::Load(0), 0, 255, true, Way::Prefetch(7, 255)),
    (Step::Nothing, 1, 255, true, Way::Prefetch(7, 255)),
    (Step::Nothing, 0, 255, false, Way::Single(0)),
    (Step::Nothing, 0, 256, true, Way::Plain),
    (Step::Nothing, 0, 256, false, Way::Plain),
    (Step::Nothing, 255, 0, true, Way::Plain),
];

/// Makes the step of each row and compares the plan.
fn run(rt: &impl Abort, unit: &mut Unit, rows: &[Row]) -> Result<(), AllocError> {
    for (step, lba, n, pair, way) in rows {
        match *step {
            Step::Nothing => {}
            Step::Hint(region) => unit.hint(region),
            Step::Load(region) => unit.load(rt, region)?,
            Step::Write(lba) => unit.wrote(rt, lba),
        }
        let plan = unit.plan(rt, *lba, *n, *pair);
        assert!(rt; way_of(rt, plan, *lba) == *way, "{step:?} {lba} {n} {pair}");
    }
    Ok(())
}

#[test]
fn plans_by_what_is_covered(rt: HostRuntime) -> Result<(), Fail> {
    let mut small = Unit::new(rt.alloc(), shape(20, 4)).map_err(|_| AllocError)?;
    run(&rt, &mut small, &SMALL)?;
    let mut large = Unit::new(rt.alloc(), shape(300, 11)).map_err(|_| AllocError)?;
    run(&rt, &mut large, &LARGE)?;
    Ok(())
}
