//! A driver by worked calls: what it sends for requests, hints and entries, and what hostile UPIUs of a device make of
//! it.
use super::*;
use driver_laws::DriverFault;
use host::{Call, Seen, call_of};
use hpb_cdb::Cdb;
use hpb_outside::NewFault;
use region_state::{Mode, Shape};
use std::alloc::Global;
use std::process::Abort;
use std::test::*;
use upiu_wire::WireFault;

mod host;

/// 16 blocks in regions of four, each of two subregions, of which a unit holds one.
fn shape(mode: Mode) -> Shape {
    Shape {
        units: 16,
        region_exp: 5,
        sub_exp: 4,
        held: 1,
        mode,
    }
}

/// The entry that eight bytes of a DATA IN are.
const ENTRY: u64 = 0x5A5A_5A5A_5A5A_5A5A;

/// ILLEGAL REQUEST 21h/00h in the fixed format.
const SENSE: &[u8] = &[
    0, 18, 0x70, 0, 5, 0, 0, 0, 0, 10, 0, 0, 0, 0, 0x21, 0, 0, 0, 0, 0,
];

/// A hint to load subregion 0 of region 0 of unit 0, and one for unit 1.
const HINT: &[u8] = &[
    0, 0x12, 0x80, 0x10, 1, 0, 1, 0, 0, 0, 0, 0, 0, 0, 0, 0, 0, 0, 0, 0,
];

const HINT_OF_1: &[u8] = &[
    0, 0x12, 0x80, 0x10, 1, 1, 1, 0, 0, 0, 0, 0, 0, 0, 0, 0, 0, 0, 0, 0,
];

const LOAD: Cdb = Cdb::ReadBuffer {
    region: 0,
    sub: 0,
    len: 16,
};

type Row = (Call, Seen);

/// A hint, the entries of its subregion, and reads by them.
const HINTED: &[Row] = &[
    (Call::Read(0, 0, 1), Seen::Taken(0)),
    (Call::Send, Seen::Command(0, 0, Cdb::Read { lba: 0, n: 1 })),
    (Call::Send, Seen::Nothing),
    (Call::Data(0, 0, 0, 4096), Seen::Nothing),
    (Call::End(0, 0, 0x00, HINT), Seen::Good(0, 4096)),
    // a command of its own waits until all else has gone out, and until it isn't held
    (Call::Hold(true), Seen::Nothing),
    (Call::Send, Seen::Nothing),
    (Call::Hold(false), Seen::Nothing),
    (Call::Read(0, 2, 1), Seen::Taken(0)),
    (Call::Send, Seen::Command(0, 0, Cdb::Read { lba: 2, n: 1 })),
    (Call::Send, Seen::Command(0, 1, LOAD)),
    (Call::End(0, 0, 0x02, SENSE), Seen::Check(0, (5, 0x21, 0))),
    // one READ BUFFER at a time
    (Call::Ready, Seen::Taken(0)),
    (Call::Send, Seen::Command(0, 0, Cdb::TestReady)),
    (Call::End(0, 0, 0x00, HINT_OF_1), Seen::Good(0, 0)),
    (Call::Send, Seen::Nothing),
    (Call::Data(0, 1, 0, 16), Seen::Nothing),
    (Call::End(0, 1, 0x00, &[]), Seen::Nothing),
    (Call::Send, Seen::Command(1, 0, LOAD)),
    (Call::End(1, 0, 0x08, &[]), Seen::Nothing),
    // a list before the read by it, under the first read id
    (Call::Read(0, 0, 2), Seen::Taken(1)),
    (
        Call::Send,
        Seen::Command(
            0,
            0,
            Cdb::Prefetch {
                lba: 0,
                id: 1,
                len: 16,
            },
        ),
    ),
    (
        Call::Send,
        Seen::Command(
            0,
            1,
            Cdb::HpbRead {
                lba: 0,
                entry: ENTRY,
                n: 2,
                id: 1,
            },
        ),
    ),
    (Call::Ask(0, 0, 0, 16), Seen::Nothing),
    (Call::Send, Seen::Out(0, 0, 0, 16)),
    (Call::End(0, 0, 0x00, &[]), Seen::Nothing),
    // a written block isn't covered, the one beside it is
    (Call::Write(0, 1, 1), Seen::Taken(0)),
    (Call::Send, Seen::Command(0, 0, Cdb::Write { lba: 1, n: 1 })),
    (Call::Read(0, 0, 2), Seen::Taken(2)),
    (Call::Send, Seen::Command(0, 2, Cdb::Read { lba: 0, n: 2 })),
    (Call::Read(0, 0, 1), Seen::Taken(3)),
    (
        Call::Send,
        Seen::Command(
            0,
            3,
            Cdb::HpbRead {
                lba: 0,
                entry: ENTRY,
                n: 1,
                id: 0,
            },
        ),
    ),
    (Call::Read(1, 0, 1), Seen::Taken(4)),
    (Call::Send, Seen::Command(1, 4, Cdb::Read { lba: 0, n: 1 })),
    // the requests in order of submission; the entries stay
    (Call::Reset, Seen::Tags(Some(1), Some(0), 5)),
    (Call::Send, Seen::Nothing),
    (Call::Read(0, 0, 1), Seen::Taken(0)),
    (
        Call::Send,
        Seen::Command(
            0,
            0,
            Cdb::HpbRead {
                lba: 0,
                entry: ENTRY,
                n: 1,
                id: 0,
            },
        ),
    ),
];

/// UPIUs that a device shouldn't send, each of which changes nothing.
const HOSTILE: &[Row] = &[
    (Call::Cut, Seen::Fault(DriverFault::Wire(WireFault::Short))),
    (Call::NopIn, Seen::Nothing),
    (Call::NopOut, Seen::Fault(DriverFault::UnknownTag)),
    (
        Call::End(0, 0, 0x00, &[]),
        Seen::Fault(DriverFault::UnknownTag),
    ),
    (Call::Read(1, 0, 1), Seen::Taken(0)),
    (Call::Write(1, 0, 2), Seen::Taken(1)),
    (Call::Send, Seen::Command(1, 0, Cdb::Read { lba: 0, n: 1 })),
    (Call::Send, Seen::Command(1, 1, Cdb::Write { lba: 0, n: 2 })),
    (Call::NopOut, Seen::Fault(DriverFault::Phase)),
    (Call::Data(0, 0, 0, 4096), Seen::Fault(DriverFault::Phase)),
    (Call::Data(1, 0, 4096, 1), Seen::Fault(DriverFault::Phase)),
    (Call::Data(1, 0, 0, 0), Seen::Fault(DriverFault::Phase)),
    (Call::Data(1, 1, 0, 1), Seen::Fault(DriverFault::Phase)),
    (Call::Ask(1, 0, 0, 4096), Seen::Fault(DriverFault::Phase)),
    (Call::Ask(1, 1, 4096, 4096), Seen::Fault(DriverFault::Phase)),
    (Call::Ask(1, 1, 0, 8193), Seen::Fault(DriverFault::Phase)),
    (Call::Ask(1, 1, 0, 0), Seen::Fault(DriverFault::Phase)),
    (Call::Ask(1, 1, 0, 8192), Seen::Nothing),
    (Call::End(1, 1, 0x00, &[]), Seen::Fault(DriverFault::Phase)),
    (Call::Send, Seen::Out(1, 1, 0, 4096)),
    (Call::End(1, 1, 0x00, &[]), Seen::Fault(DriverFault::Phase)),
    (Call::Send, Seen::Out(1, 1, 4096, 4096)),
    (Call::End(0, 1, 0x00, &[]), Seen::Fault(DriverFault::Phase)),
    (Call::End(1, 1, 0x00, &[]), Seen::Good(1, 0)),
    (Call::End(1, 0, 0x00, &[]), Seen::Fault(DriverFault::Phase)),
    (Call::Data(1, 0, 0, 4096), Seen::Nothing),
    (Call::End(1, 0, 0x00, &[]), Seen::Good(0, 4096)),
    (
        Call::End(1, 0, 0x00, &[]),
        Seen::Fault(DriverFault::UnknownTag),
    ),
];

/// Requests that aren't taken, and the two that go to unit 0.
const REQUESTED: &[Row] = &[
    (Call::Read(2, 0, 1), Seen::Refused(SubmitFault::Range)),
    (Call::Read(1, 16, 1), Seen::Refused(SubmitFault::Range)),
    (Call::Read(1, 0, 256), Seen::Refused(SubmitFault::Range)),
    (
        Call::Read(0, 0xFFFF_FFFF, 255),
        Seen::Refused(SubmitFault::Range),
    ),
    (Call::Write(0, 15, 2), Seen::Refused(SubmitFault::Range)),
    (Call::Sync, Seen::Taken(0)),
    (Call::Send, Seen::Command(0, 0, Cdb::Sync { lba: 0, n: 0 })),
    (Call::Read(1, 16, 0), Seen::Taken(1)),
];

/// Makes the call of each row.
fn run(rt: &impl Abort, alloc: Global, driver: &mut Driver, rows: &[Row]) -> Result<(), Fail> {
    for (call, seen) in rows {
        assert_eq!(rt; call_of(rt, alloc, driver, *call)?, *seen, "{call:?}");
    }
    Ok(())
}

#[test]
fn calls_have_these_answers(rt: HostRuntime) -> Result<(), Fail> {
    for rows in [HINTED, HOSTILE, REQUESTED] {
        let mut driver = Driver::new(rt.alloc(), shape(Mode::Device), false, 2)?;
        run(&rt, rt.alloc(), &mut driver, rows)?;
    }
    Ok(())
}

/// The entries of subregion 0 of unit 0 come.
const LOADED: &[Row] = &[
    (Call::Read(0, 0, 1), Seen::Taken(0)),
    (Call::Send, Seen::Command(0, 0, Cdb::Read { lba: 0, n: 1 })),
    (Call::Data(0, 0, 0, 4096), Seen::Nothing),
    (Call::End(0, 0, 0x00, HINT), Seen::Good(0, 4096)),
    (Call::Send, Seen::Command(0, 0, LOAD)),
    (Call::Data(0, 0, 0, 16), Seen::Nothing),
    (Call::End(0, 0, 0x00, &[]), Seen::Nothing),
];

/// Where one tag is free no list goes out before a read, and where none is no request is taken.
#[test]
fn tags_run_out(rt: HostRuntime) -> Result<(), Fail> {
    let mut driver = Driver::new(rt.alloc(), shape(Mode::Device), false, 1)?;
    run(&rt, rt.alloc(), &mut driver, LOADED)?;
    for tag in 0..31 {
        let rows = [
            (Call::Ready, Seen::Taken(tag)),
            (Call::Send, Seen::Command(0, tag, Cdb::TestReady)),
        ];
        run(&rt, rt.alloc(), &mut driver, &rows)?;
    }
    let command = Cdb::HpbRead {
        lba: 0,
        entry: ENTRY,
        n: 2,
        id: 0,
    };
    let rows = [
        (Call::Read(0, 0, 2), Seen::Taken(31)),
        (Call::Send, Seen::Command(0, 31, command)),
        (Call::Read(2, 0, 2), Seen::Refused(SubmitFault::Full)),
    ];
    run(&rt, rt.alloc(), &mut driver, &rows)?;
    assert_eq!(rt; driver.tags_used(), 32);
    Ok(())
}

/// A read of one block that goes out plainly, and ends.
fn plain_read(lba: u32) -> [Row; 4] {
    [
        (Call::Read(0, lba, 1), Seen::Taken(0)),
        (Call::Send, Seen::Command(0, 0, Cdb::Read { lba, n: 1 })),
        (Call::Data(0, 0, 0, 4096), Seen::Nothing),
        (Call::End(0, 0, 0x00, HINT), Seen::Good(0, 4096)),
    ]
}

/// Where the host chooses the regions, one that was given up is told before the next subregion is loaded.
#[test]
fn the_host_gives_a_region_up(rt: HostRuntime) -> Result<(), Fail> {
    let mut driver = Driver::new(rt.alloc(), shape(Mode::Host), true, 1)?;
    run(&rt, rt.alloc(), &mut driver, &plain_read(0))?;
    run(&rt, rt.alloc(), &mut driver, &[(Call::Send, Seen::Nothing)])?;
    let mut driver = Driver::new(rt.alloc(), shape(Mode::Host), false, 1)?;
    for lba in [0, 0, 0, 0, 4, 4, 4, 4] {
        let rows = [
            (Call::Read(0, lba, 1), Seen::Taken(0)),
            (Call::Send, Seen::Command(0, 0, Cdb::Read { lba, n: 1 })),
            (Call::Data(0, 0, 0, 4096), Seen::Nothing),
            (Call::End(0, 0, 0x00, &[]), Seen::Good(0, 4096)),
            (Call::Hold(lba == 0), Seen::Nothing),
        ];
        run(&rt, rt.alloc(), &mut driver, &rows)?;
    }
    let told = Cdb::InactOne { region: 0 };
    let load = Cdb::ReadBuffer {
        region: 1,
        sub: 0,
        len: 16,
    };
    let rows = [
        (Call::Send, Seen::Command(0, 0, told)),
        (Call::Send, Seen::Command(0, 1, load)),
        (Call::Send, Seen::Nothing),
    ];
    run(&rt, rt.alloc(), &mut driver, &rows)
}

#[test]
fn units_out_of_limits(rt: HostRuntime) {
    for (luns, units, held, fits) in [
        (1, 16, 1, true),
        (8, 8_186, 32, true),
        (0, 16, 1, false),
        (9, 16, 1, false),
        (8, 8_187, 1, false),
        (1, 0, 1, false),
        (1, 16, 33, false),
    ] {
        let mut shape = shape(Mode::Device);
        shape.units = units;
        shape.held = held;
        let refused = matches!(
            Driver::new(rt.alloc(), shape, false, luns),
            Err(NewFault::Geometry)
        );
        assert_eq!(rt; refused, !fits, "{luns} {units} {held}");
    }
}
