//! The cache by worked calls, and against a plain model of what each call makes of it.
use plain::Plain;
use region_state::{Mode, Shape};
use std::alloc::{AllocError, Global};
use std::process::Abort;
use std::test::*;
use unit::{Call, Unit};

mod plain;
mod unit;

/// 20 blocks in regions of two, each of one subregion.
fn small_shape(mode: Mode) -> Shape {
    Shape {
        units: 20,
        region_exp: 4,
        sub_exp: 4,
        held: 1,
        mode,
    }
}

/// A hint to load a subregion.
fn load(region: u16) -> Call {
    Call::Hint(1, (region, 0), (region, 0), None)
}

#[test]
fn covers_what_was_loaded_and_not_written(rt: HostRuntime) -> Result<(), Fail> {
    let mut unit = Unit::new(rt.alloc(), small_shape(Mode::Device)).map_err(|_| AllocError)?;
    // each call, its answer, the first subregion to load after it, and the entries of the first two blocks
    let rows = [
        (load(0), false, Some((0, 0)), None, None),
        (Call::Issued(0, 0), true, Some((0, 0)), None, None),
        (Call::Loaded(0, 0, 0), false, Some((0, 0)), Some(0), Some(1)),
        (Call::TakeWant, false, None, Some(0), Some(1)),
        (Call::Wrote(0, 1), false, None, None, Some(1)),
        (load(1), false, Some((1, 0)), None, None),
        (Call::Issued(0, 0), false, Some((1, 0)), None, None),
    ];
    for (call, answer, want, first, second) in rows {
        assert_eq!(rt; unit.call(&rt, call), answer, "{call:?}");
        assert_eq!(rt; unit.firsts(), (want, None), "{call:?}");
        assert_eq!(rt; unit.entry(&rt, 0), first, "{call:?}");
        assert_eq!(rt; unit.entry(&rt, 1), second, "{call:?}");
        assert_eq!(rt; unit.covers(&rt, 0, 1), first.is_some(), "{call:?}");
        assert_eq!(rt; unit.covers(&rt, 1, 1), second.is_some(), "{call:?}");
        assert!(rt; !unit.covers(&rt, 0, 0), "{call:?}");
    }
    Ok(())
}

#[test]
fn the_host_tells_what_it_gave_up(rt: HostRuntime) -> Result<(), Fail> {
    let mut unit = Unit::new(rt.alloc(), small_shape(Mode::Host)).map_err(|_| AllocError)?;
    for _ in 0..3 {
        unit.call(&rt, Call::PlainRead(0, 4));
    }
    assert_eq!(rt; unit.firsts(), (None, None));
    // each call, its answer, and what comes first of both lists after it
    let rows = [
        (Call::PlainRead(0, 4), false, Some((0, 0)), Some(0)),
        (Call::Issued(0, 0), false, Some((0, 0)), Some(0)),
        (Call::Issued(1, 0), true, Some((0, 0)), Some(0)),
        (Call::TakeEvicted, false, Some((0, 0)), None),
        (Call::TakeWant, false, Some((1, 0)), None),
        (Call::Lapse, false, None, None),
        (Call::Issued(1, 0), false, None, None),
    ];
    for (call, answer, want, evicted) in rows {
        assert_eq!(rt; unit.call(&rt, call), answer, "{call:?}");
        assert_eq!(rt; unit.firsts(), (want, evicted), "{call:?}");
    }
    Ok(())
}

/// Compares which ranges from a block on are covered. How many are.
fn same_ranges(rt: &impl Abort, unit: &Unit, plain: &Plain, lba: u32, units: u32) -> u32 {
    let mut covered: u32 = 0;
    let mut is_covered = true;
    assert!(rt; !unit.covers(rt, lba, 0));
    for n in 1..units.saturating_sub(lba).min(5).saturating_add(1) {
        let last = lba.saturating_add(n).saturating_sub(1);
        is_covered = is_covered && plain.entry(last).is_some();
        assert!(rt; unit.covers(rt, lba, n) == is_covered, "{lba} {n}");
        covered = covered.saturating_add(u32::from(is_covered));
    }
    covered
}

/// Makes a call of both, and compares all that they tell after it. How many ranges are covered then.
fn both(
    rt: &impl Abort,
    unit: &mut Unit,
    plain: &mut Plain,
    call: Call,
    units: u32,
) -> Result<u32, AllocError> {
    let answer = plain.call(call)?;
    assert!(rt; unit.call(rt, call) == answer, "{call:?}");
    assert!(rt; unit.firsts() == plain.firsts(), "{call:?}");
    let mut covered: u32 = 0;
    for lba in 0..units {
        assert!(rt; unit.entry(rt, lba) == plain.entry(lba), "{call:?} {lba}");
        covered = covered.saturating_add(same_ranges(rt, unit, plain, lba, units));
    }
    Ok(covered)
}

/// Makes random calls of both. How many ranges were covered, over all calls, and how often the lists had a first.
fn random_calls(
    rt: &impl Abort,
    unit: &mut Unit,
    plain: &mut Plain,
    seed: &mut u64,
    units: u32,
) -> Result<(u32, u32, u32), AllocError> {
    let mut covered: u32 = 0;
    let mut wanted: u32 = 0;
    let mut evicted: u32 = 0;
    for _ in 0..600 {
        let call = plain.random_call(seed);
        covered = covered.saturating_add(both(rt, unit, plain, call, units)?);
        let (want, region) = unit.firsts();
        wanted = wanted.saturating_add(u32::from(want.is_some()));
        evicted = evicted.saturating_add(u32::from(region.is_some()));
    }
    Ok((covered, wanted, evicted))
}

/// Units, the sizes of regions and subregions as exponents and in blocks, and how many regions are held. The last
/// three units end inside a subregion.
const SHAPES: [(u32, u8, u8, u32, u32, u8); 9] = [
    (20, 4, 4, 2, 2, 1),
    (20, 4, 4, 2, 2, 2),
    (20, 4, 4, 2, 2, 32),
    (20, 4, 3, 2, 1, 1),
    (20, 4, 3, 2, 1, 2),
    (20, 4, 3, 2, 1, 32),
    (19, 5, 4, 4, 2, 1),
    (19, 5, 4, 4, 2, 2),
    (19, 5, 4, 4, 2, 32),
];

/// 600 random calls on a unit of each shape.
fn random_calls_in(rt: &impl Abort, alloc: Global, mode: Mode) -> Result<(), Fail> {
    let mut seed = 1;
    for (units, region_exp, sub_exp, region_blocks, sub_blocks, held) in SHAPES {
        let shape = Shape {
            units,
            region_exp,
            sub_exp,
            held,
            mode,
        };
        let mut unit = Unit::new(alloc, shape).map_err(|_| AllocError)?;
        let mut plain = Plain::new(alloc, shape, region_blocks, sub_blocks)?;
        let (covered, wanted, evicted) = random_calls(rt, &mut unit, &mut plain, &mut seed, units)?;
        assert!(rt; covered > 20 && wanted > 50, "{shape:?} {covered} {wanted}");
        assert!(rt;
            (evicted > 20) == (mode == Mode::Host && held < 32),
            "{shape:?} {evicted}"
        );
    }
    Ok(())
}

#[test]
fn random_calls_have_the_answers_of_a_plain_model(rt: HostRuntime) -> Result<(), Fail> {
    random_calls_in(&rt, rt.alloc(), Mode::Device)?;
    random_calls_in(&rt, rt.alloc(), Mode::Host)
}
