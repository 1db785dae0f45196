//! Regions of units: by worked numbers, by worked calls, and against a plain model of what each call makes.
use super::*;
use plain::Plain;
use std::process::Abort;
use std::test::Fail;
use unit::{Answer, Call, Unit};

mod plain;
mod unit;

/// The largest unit, with regions of 128 blocks and subregions of 32.
const SHAPE: Shape = Shape {
    units: 65_488,
    region_exp: 10,
    sub_exp: 8,
    held: 4,
    mode: Mode::Device,
};

/// The exponents, a block, its region, its subregion in the unit and in the region, and the subregions of a region.
const PLACES: [(u8, u8, u32, u16, u32, u16, u32); 9] = [
    (10, 8, 0, 0, 0, 0, 4),
    (10, 8, 31, 0, 0, 0, 4),
    (10, 8, 32, 0, 1, 1, 4),
    (10, 8, 127, 0, 3, 3, 4),
    (10, 8, 128, 1, 4, 0, 4),
    (10, 8, 65_487, 511, 2046, 2, 4),
    (3, 3, 65_487, 65_487, 65_487, 0, 1),
    (19, 3, 65_487, 0, 65_487, 65_487, 65_536),
    (19, 19, 65_487, 0, 0, 0, 1),
];

#[test]
fn blocks_have_their_regions(rt: HostRuntime) {
    for (region_exp, sub_exp, lba, region, number, sub, per_region) in PLACES {
        let shape = Shape {
            region_exp,
            sub_exp,
            ..SHAPE
        };
        assert!(rt; shape.is_within_limits() && lba < shape.units);
        assert_eq!(rt;
            shape.region_of(lba),
            region,
            "{region_exp} {sub_exp} {lba}"
        );
        assert_eq!(rt;
            u32::from(shape.subregion_of(lba)),
            number,
            "{region_exp} {sub_exp} {lba}"
        );
        assert_eq!(rt; shape.per_region(), per_region, "{region_exp} {sub_exp}");
        assert_eq!(rt;
            shape.number_of(region, sub),
            number,
            "{region_exp} {sub_exp} {lba}"
        );
        let found = shape.subregion_of(lba);
        assert_eq!(rt;
            shape.place_of(u32::from(found)),
            (region, sub),
            "{region_exp} {sub_exp} {lba}"
        );
    }
}

#[test]
fn shapes_have_limits(rt: HostRuntime) {
    for (units, region_exp, sub_exp, held, is_within) in [
        (1, 3, 3, 1, true),
        (65_488, 19, 3, 32, true),
        (0, 10, 8, 4, false),
        (65_489, 10, 8, 4, false),
        (20, 10, 2, 4, false),
        (20, 8, 9, 4, false),
        (20, 20, 8, 4, false),
        (20, 10, 8, 0, false),
        (20, 10, 8, 33, false),
    ] {
        let shape = Shape {
            units,
            region_exp,
            sub_exp,
            held,
            mode: Mode::Host,
        };
        assert_eq!(rt; shape.is_within_limits(), is_within, "{shape:?}");
        assert_eq!(rt;
            Regions::new(rt.alloc(), shape).is_ok(),
            is_within,
            "{shape:?}"
        );
    }
}

/// The first subregion and the first region that are told, and whether the host is to forget all.
type Told = (Option<(u16, u16)>, Option<u16>, bool);

/// Nothing is told.
const NOTHING: Told = (None, None, false);

/// How many regions may be held, and who decides. Then calls, each so many times, and what is told after them.
type Worked = (u8, Mode, &'static [(u8, Call)], Told);

/// A plain read of block 4.
const READ: Call = Call::Read(4, 1, true);

/// A read of block 4 with an entry.
const ENTRY: Call = Call::Read(4, 1, false);

/// A change of block 18.
const CHANGE: Call = Call::Changed(18);

/// A load of the first subregion of region 0.
const LOAD_0: Call = Call::Loaded(0, 0);

/// The same of region 1.
const LOAD_1: Call = Call::Loaded(1, 0);

/// The same of region 2.
const LOAD_2: Call = Call::Loaded(2, 0);

/// A load of the subregion of block 18.
const LOAD_18: Call = Call::Loaded(2, 1);

/// Calls on a unit of 20 blocks, 8 in a region and 2 in a subregion.
const WORKED: [Worked; 14] = [
    (1, Mode::Device, &[(3, READ)], NOTHING),
    (1, Mode::Device, &[(4, READ)], (Some((0, 2)), None, false)),
    (1, Mode::Host, &[(4, READ)], NOTHING),
    (1, Mode::Device, &[(3, READ), (9, ENTRY)], NOTHING),
    (
        1,
        Mode::Device,
        &[(3, READ), (1, Call::Read(0, 20, true))],
        (Some((0, 2)), None, false),
    ),
    (
        1,
        Mode::Device,
        &[(2, READ), (1, Call::Loaded(0, 2)), (2, READ)],
        NOTHING,
    ),
    (1, Mode::Device, &[(8, CHANGE)], NOTHING),
    (1, Mode::Device, &[(1, LOAD_18), (7, CHANGE)], NOTHING),
    (
        1,
        Mode::Device,
        &[(1, LOAD_18), (7, CHANGE), (1, Call::Changed(19))],
        (Some((2, 1)), None, false),
    ),
    (
        1,
        Mode::Host,
        &[(1, LOAD_0), (1, LOAD_1)],
        (None, Some(0), false),
    ),
    (
        2,
        Mode::Device,
        &[(1, LOAD_0), (1, LOAD_1), (1, ENTRY), (1, LOAD_2)],
        (None, Some(1), false),
    ),
    (
        1,
        Mode::Device,
        &[(1, LOAD_0), (1, Call::Inactivate(0)), (1, LOAD_1)],
        NOTHING,
    ),
    (
        1,
        Mode::Device,
        &[
            (1, LOAD_0),
            (1, LOAD_1),
            (4, READ),
            (1, Call::InactivateAll),
        ],
        NOTHING,
    ),
    (
        1,
        Mode::Device,
        &[(1, LOAD_0), (1, LOAD_1), (4, READ), (1, Call::Reset)],
        (None, None, true),
    ),
];

/// What is told next.
fn told(unit: &mut Unit, rt: &impl Abort) -> [Answer; 3] {
    [
        unit.call(rt, Call::TakeActive),
        unit.call(rt, Call::TakeGone),
        unit.call(rt, Call::TakeNews),
    ]
}

/// Checks a row of the table. What is told is told once.
fn check_worked(rt: &impl Abort, unit: &mut Unit, (_, mode, calls, (active, gone, news)): Worked) {
    for (times, call) in calls {
        unit.repeat(rt, *times, *call);
    }
    let answers = [
        Answer::Active(active),
        Answer::Gone(gone),
        Answer::News(news),
    ];
    assert_eq!(rt; told(unit, rt), answers, "{mode:?} {calls:?}");
    let nothing = [
        Answer::Active(None),
        Answer::Gone(None),
        Answer::News(false),
    ];
    assert_eq!(rt; told(unit, rt), nothing, "{mode:?} {calls:?}");
}

#[test]
fn calls_have_their_answers(rt: HostRuntime) -> Result<(), Fail> {
    for row in WORKED {
        let (held, mode, _, _) = row;
        let shape = Shape {
            units: 20,
            region_exp: 6,
            sub_exp: 4,
            held,
            mode,
        };
        let mut unit = Unit::new(rt.alloc(), shape)?;
        check_worked(&rt, &mut unit, row);
    }
    Ok(())
}

/// Units: their blocks, the exponents, how many regions may be held, and the blocks of a region and of a subregion.
const SHAPES: [(u32, u8, u8, u8, Mode, u32, u32); 7] = [
    (21, 6, 4, 1, Mode::Device, 8, 2),
    (21, 6, 4, 2, Mode::Host, 8, 2),
    (61, 5, 5, 3, Mode::Device, 4, 4),
    (90, 3, 3, 32, Mode::Device, 1, 1),
    (200, 7, 3, 4, Mode::Device, 16, 1),
    (31, 19, 6, 1, Mode::Device, 65_536, 8),
    (1, 19, 3, 1, Mode::Device, 65_536, 1),
];

/// Makes a call of both, and compares their answers. Whether these tell something.
fn both(rt: &impl Abort, unit: &mut Unit, plain: &mut Plain, call: Call, round: u32) -> bool {
    let answer = plain.call(call);
    assert_eq!(rt; unit.call(rt, call), answer, "{round} {call:?}");
    answer.tells()
}

/// Makes 10,000 random calls of both. In turn what is to be told grows for 200 calls, and is asked for after each of
/// 200 calls. How many of these tell something.
fn random_calls(rt: &impl Abort, unit: &mut Unit, plain: &mut Plain, seed: &mut u64) -> u32 {
    let mut told: u32 = 0;
    for round in 0..10_000 {
        let call = plain.random_call(seed);
        both(rt, unit, plain, call, round);
        if round / 200 % 2 == 1 {
            let tells = [
                both(rt, unit, plain, Call::TakeActive, round),
                both(rt, unit, plain, Call::TakeGone, round),
                both(rt, unit, plain, Call::TakeNews, round),
            ];
            if tells != [false; 3] {
                told = told.saturating_add(1);
            }
        }
    }
    told
}

#[test]
fn random_calls_have_the_answers_of_a_plain_model(rt: HostRuntime) -> Result<(), Fail> {
    let mut seed = 1;
    for (units, region_exp, sub_exp, held, mode, region_blocks, sub_blocks) in SHAPES {
        let shape = Shape {
            units,
            region_exp,
            sub_exp,
            held,
            mode,
        };
        let mut unit = Unit::new(rt.alloc(), shape)?;
        let mut plain = Plain::new(rt.alloc(), shape, region_blocks, sub_blocks)?;
        let told = random_calls(&rt, &mut unit, &mut plain, &mut seed);
        assert!(rt; told > 50, "{shape:?} {told}");
    }
    Ok(())
}
