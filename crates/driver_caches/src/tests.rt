//! Two units of one shape, whose caches are asked and told in turn: which of them a call reaches.
use read_planner::Plan;
use region_state::{Mode, Shape};
use std::alloc::AllocError;
use std::process::Abort;
use std::test::*;
use units::{Answer, Call, Units};

mod units;

/// 16 blocks in regions of two, each of one subregion.
fn shape(mode: Mode, held: u8) -> Shape {
    Shape {
        units: 16,
        region_exp: 4,
        sub_exp: 4,
        held,
        mode,
    }
}

/// A call, its answer, and the entry that a read of the first block of either unit carries after it.
type Row = (Call, Answer, [Option<u64>; 2]);

/// Region 2 of the first unit has no room once three are asked for, so its want is stale.
const LOADED: [Row; 15] = [
    (Call::Hint(1, 0), Answer::No, [None, None]),
    (Call::Hint(0, 2), Answer::No, [None, None]),
    (Call::Hint(0, 1), Answer::No, [None, None]),
    (Call::Hint(0, 0), Answer::No, [None, None]),
    (Call::Hint(2, 0), Answer::No, [None, None]),
    (Call::TakeWant, Answer::Load(0, 1), [None, None]),
    (Call::TakeWant, Answer::Load(0, 0), [None, None]),
    (Call::TakeWant, Answer::Load(1, 0), [None, None]),
    (Call::TakeWant, Answer::No, [None, None]),
    (Call::Loaded(1, 0), Answer::No, [None, Some(256)]),
    (Call::Loaded(2, 0), Answer::No, [None, Some(256)]),
    (Call::Loaded(0, 0), Answer::No, [Some(0), Some(256)]),
    (Call::Wrote(2, 0, 2), Answer::No, [Some(0), Some(256)]),
    (Call::Wrote(1, 0, 1), Answer::No, [Some(0), None]),
    (Call::Wrote(0, 1, 1), Answer::No, [Some(0), None]),
];

/// How loads end, and what their RESPONSEs hint of the second unit.
const ENDED: [Row; 14] = [
    (Call::Hint(0, 0), Answer::No, [None, None]),
    (Call::Hint(1, 0), Answer::No, [None, None]),
    (Call::TakeWant, Answer::Load(0, 0), [None, None]),
    (Call::Response(0, true, 3), Answer::No, [Some(0), None]),
    (Call::TakeWant, Answer::Load(1, 0), [Some(0), None]),
    (Call::Response(1, false, 4), Answer::No, [Some(0), None]),
    (Call::TakeWant, Answer::Load(1, 3), [Some(0), None]),
    (Call::TakeWant, Answer::No, [Some(0), None]),
    (Call::Hint(1, 0), Answer::No, [Some(0), None]),
    (Call::NextWant(1), Answer::Load(1, 0), [Some(0), None]),
    (Call::Unloaded(1, 0), Answer::No, [Some(0), None]),
    (Call::Hint(1, 0), Answer::No, [Some(0), None]),
    (Call::Ended(1, true), Answer::No, [Some(0), Some(256)]),
    (Call::Synced(1), Answer::No, [Some(0), Some(256)]),
];

/// With room for one region, the second that a unit holds takes the place of the first. The host chooses the regions.
const CHOSEN: [Row; 12] = [
    (Call::Heat(1, 0), Answer::No, [None, None]),
    (Call::Heat(1, 2), Answer::No, [None, None]),
    (Call::Heat(0, 0), Answer::No, [None, None]),
    (Call::Heat(0, 2), Answer::No, [None, None]),
    (Call::TakeEvicted, Answer::Tell(0, 0), [None, None]),
    (Call::TakeEvicted, Answer::Tell(1, 0), [None, None]),
    (Call::TakeEvicted, Answer::No, [None, None]),
    (Call::TakeWant, Answer::Load(0, 1), [None, None]),
    (Call::Heat(1, 4), Answer::No, [None, None]),
    (Call::Lapse, Answer::No, [None, None]),
    (Call::TakeEvicted, Answer::No, [None, None]),
    (Call::TakeWant, Answer::No, [None, None]),
];

/// Makes the call of each row, and compares what comes of it.
fn run(rt: &impl Abort, units: &mut Units, rows: &[Row]) {
    for (call, answer, entries) in rows {
        assert!(rt; units.call(rt, *call) == *answer, "{call:?}");
        assert!(rt; units.entry(rt, 0) == entries[0], "{call:?}");
        assert!(rt; units.entry(rt, 1) == entries[1], "{call:?}");
        assert!(rt; units.entry(rt, 2).is_none(), "{call:?}");
    }
}

#[test]
fn each_call_reaches_its_unit(rt: HostRuntime) -> Result<(), Fail> {
    let device = shape(Mode::Device, 2);
    let mut units = Units::new(rt.alloc(), device).map_err(|_| AllocError)?;
    run(&rt, &mut units, &LOADED);
    let mut units = Units::new(rt.alloc(), device).map_err(|_| AllocError)?;
    run(&rt, &mut units, &ENDED);
    assert!(rt; matches!(units.plan(&rt, 1, 2, true), Plan::Prefetch(7, _)));
    let mut units = Units::new(rt.alloc(), shape(Mode::Host, 1)).map_err(|_| AllocError)?;
    run(&rt, &mut units, &CHOSEN);
    Ok(())
}
