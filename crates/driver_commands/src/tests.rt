//! The open commands by worked calls: what is sent for them, and what UPIUs of a device make of them.
use super::*;
use driver_laws::{Answer, Done, DriverFault};
use region_state::{Mode, Shape};
use side::Side;
use std::process::Abort;
use std::test::Fail;
use upiu_wire::{Kind, UpiuBuf, UpiuView, WireFault};

mod side;

/// A call, or a UPIU of the device.
#[derive(Clone, Copy, Debug)]
enum Call {
    /// A caller reads so many blocks.
    Read(u16),
    /// A caller writes so many blocks.
    Write(u16),
    /// The driver reads the entries of a subregion.
    Load(u16, u16),
    Send,
    /// A DATA IN: its tag, its offset and the count of its bytes.
    Data(u8, u32, usize),
    /// A READY TO TRANSFER: its tag, its offset and its count.
    Ask(u8, u32, u32),
    /// A RESPONSE: its tag, its status and its segment.
    End(u8, u8, &'static [u8]),
    NopIn,
    /// The first 31 bytes of a NOP IN.
    Cut,
    /// A UPIU that no device sends.
    NopOut,
    Drop,
    FirstWant,
    Entry(u32),
}

/// What it answers.
#[derive(Clone, Copy, Debug, PartialEq, Eq)]
enum Seen {
    Nothing,
    /// A command was opened with this tag.
    Opened(u8),
    /// What went out: its kind, its tag, what it expects or where its data begin, and the bytes of its segment.
    Sent(Kind, u8, u32, usize),
    /// The tag, and how many bytes came.
    Good(u8, usize),
    /// The tag, and the sense key and codes.
    Check(u8, (u8, u8, u8)),
    /// The tag and the status.
    Status(u8, u8),
    Fault(DriverFault),
    Want(u16, u16),
    Entry(u64),
}

/// What was sent, if anything was.
fn seen_out(sent: bool, bytes: &[u8]) -> Seen {
    match UpiuView::parse(bytes) {
        Ok(view) if sent => Seen::Sent(view.kind(), view.tag(), view.first(), view.segment().len()),
        _ => Seen::Nothing,
    }
}

/// How a request ended, if one did.
fn seen_done(outcome: Result<Option<Done>, DriverFault>) -> Seen {
    match outcome {
        Ok(Some(Done { tag, answer })) => match answer {
            Answer::Good(bytes) => Seen::Good(tag, bytes.as_slice().len()),
            Answer::Check(sense) => Seen::Check(tag, (sense.key, sense.asc, sense.ascq)),
            Answer::Status(status) => Seen::Status(tag, status),
        },
        Ok(None) => Seen::Nothing,
        Err(fault) => Seen::Fault(fault),
    }
}

/// Writes a UPIU of the device.
fn put_from_device(rt: &impl Abort, call: Call, out: &mut UpiuBuf) {
    match call {
        Call::Data(tag, offset, count) => {
            assert!(rt; count <= 4096);
            out.put_data_in(0, tag, offset, &[0x5A; 4096][..count]);
        }
        Call::Ask(tag, offset, count) => out.put_rtt(0, tag, offset, count),
        Call::End(tag, status, segment) => {
            assert!(rt; segment.len() <= 4096);
            out.put_response(0, tag, status, 0, segment);
        }
        Call::NopOut => out.put_nop_out(0),
        _ => out.put_nop_in(0),
    }
}

/// Makes a call.
fn call_of(rt: &impl Abort, side: &mut Side, call: Call) -> Result<Seen, Fail> {
    let mut out = UpiuBuf::new();
    match call {
        Call::Read(n) => Ok(Seen::Opened(side.read(rt, n)?)),
        Call::Write(n) => Ok(Seen::Opened(side.write(rt, n)?)),
        Call::Load(region, sub) => Ok(Seen::Opened(side.load(rt, region, sub)?)),
        Call::Send => {
            let sent = side.send(&mut out);
            Ok(seen_out(sent, out.bytes()))
        }
        Call::Drop => {
            side.drop();
            Ok(Seen::Nothing)
        }
        Call::FirstWant => Ok(match side.first_want(rt) {
            Some((region, sub)) => Seen::Want(region, sub),
            None => Seen::Nothing,
        }),
        Call::Entry(lba) => Ok(match side.entry(rt, lba) {
            Some(entry) => Seen::Entry(entry),
            None => Seen::Nothing,
        }),
        _ => {
            put_from_device(rt, call, &mut out);
            let bytes = out.bytes();
            let end = if let Call::Cut = call {
                31.min(bytes.len())
            } else {
                bytes.len()
            };
            Ok(seen_done(side.deliver(&bytes[..end])))
        }
    }
}

/// ILLEGAL REQUEST 21h/00h in the fixed format.
const SENSE: &[u8] = &[
    0, 18, 0x70, 0, 5, 0, 0, 0, 0, 10, 0, 0, 0, 0, 0x21, 0, 0, 0, 0, 0,
];

/// A hint to load subregion 0 of region 0 of unit 0.
const HINT: &[u8] = &[
    0, 0x12, 0x80, 0x10, 1, 0, 1, 0, 0, 0, 0, 0, 0, 0, 0, 0, 0, 0, 0, 0,
];

/// A read and a write beside each other, faults, and what is told of the ends.
const MOVED: &[(Call, Seen)] = &[
    (Call::Send, Seen::Nothing),
    (Call::Read(1), Seen::Opened(0)),
    (Call::Write(2), Seen::Opened(1)),
    (Call::Send, Seen::Sent(Kind::Command, 0, 4096, 0)),
    (Call::Send, Seen::Sent(Kind::Command, 1, 8192, 0)),
    (Call::Send, Seen::Nothing),
    (Call::Read(1), Seen::Opened(2)),
    // data come before a COMMAND, and as many as were asked for
    (Call::Ask(1, 0, 4096), Seen::Nothing),
    (Call::Send, Seen::Sent(Kind::DataOut, 1, 0, 4096)),
    (Call::Send, Seen::Sent(Kind::Command, 2, 4096, 0)),
    (Call::Send, Seen::Nothing),
    (Call::Ask(1, 0, 4096), Seen::Fault(DriverFault::Phase)),
    (Call::Ask(1, 4096, 4096), Seen::Nothing),
    (Call::Send, Seen::Sent(Kind::DataOut, 1, 4096, 4096)),
    (Call::Data(1, 0, 4), Seen::Fault(DriverFault::Phase)),
    (Call::Data(0, 0, 2048), Seen::Nothing),
    (Call::Data(0, 0, 2048), Seen::Fault(DriverFault::Phase)),
    (Call::End(0, 0x00, &[]), Seen::Fault(DriverFault::Phase)),
    (Call::Data(0, 2048, 2048), Seen::Nothing),
    (Call::End(0, 0x00, &[]), Seen::Good(0, 4096)),
    (
        Call::End(0, 0x00, &[]),
        Seen::Fault(DriverFault::UnknownTag),
    ),
    // the tag that was given back
    (Call::Read(1), Seen::Opened(0)),
    (Call::End(1, 0x00, &[]), Seen::Good(1, 0)),
    (Call::End(2, 0x02, SENSE), Seen::Check(2, (5, 0x21, 0))),
    (Call::NopOut, Seen::Fault(DriverFault::Phase)),
    (Call::NopIn, Seen::Nothing),
    (Call::Cut, Seen::Fault(DriverFault::Wire(WireFault::Short))),
    (Call::End(0, 0x08, &[]), Seen::Status(0, 0x08)),
    (Call::Read(1), Seen::Opened(0)),
    (Call::Drop, Seen::Nothing),
    (Call::Send, Seen::Nothing),
    (
        Call::End(0, 0x08, &[]),
        Seen::Fault(DriverFault::UnknownTag),
    ),
];

/// A hint counts with GOOD alone, and so do the entries of a subregion.
const LOADED: &[(Call, Seen)] = &[
    (Call::Read(1), Seen::Opened(0)),
    (Call::Read(1), Seen::Opened(1)),
    (Call::End(0, 0x02, HINT), Seen::Status(0, 0x02)),
    (Call::FirstWant, Seen::Nothing),
    (Call::Data(1, 0, 4096), Seen::Nothing),
    (Call::End(1, 0x00, HINT), Seen::Good(1, 4096)),
    (Call::FirstWant, Seen::Want(0, 0)),
    (Call::Load(0, 0), Seen::Opened(0)),
    (Call::Send, Seen::Sent(Kind::Command, 0, 16, 0)),
    (Call::Data(0, 0, 16), Seen::Nothing),
    (Call::Entry(1), Seen::Nothing),
    (Call::End(0, 0x00, &[]), Seen::Nothing),
    (Call::Entry(1), Seen::Entry(0x5A5A_5A5A_5A5A_5A5A)),
    (Call::Load(0, 0), Seen::Opened(0)),
    (Call::Drop, Seen::Nothing),
    (Call::Load(0, 0), Seen::Opened(0)),
];

#[test]
fn calls_have_these_answers(rt: HostRuntime) -> Result<(), Fail> {
    let shape = Shape {
        units: 20,
        region_exp: 4,
        sub_exp: 4,
        held: 2,
        mode: Mode::Device,
    };
    for rows in [MOVED, LOADED] {
        let mut side = Side::new(rt.alloc(), shape)?;
        for (call, seen) in rows {
            assert_eq!(rt; call_of(&rt, &mut side, *call)?, *seen, "{call:?}");
        }
    }
    Ok(())
}

/// What callers asked for is listed, and so is what waits or owes data.
#[test]
fn the_open_commands_are_listed(rt: HostRuntime) -> Result<(), Fail> {
    let shape = Shape {
        units: 20,
        region_exp: 6,
        sub_exp: 4,
        held: 2,
        mode: Mode::Host,
    };
    let mut side = Side::new(rt.alloc(), shape)?;
    let mut out = UpiuBuf::new();
    side.read(&rt, 1)?;
    side.load(&rt, 0, 1)?;
    side.write(&rt, 1)?;
    assert_eq!(rt; side.listed(), (Some(0), None, true));
    side.send(&mut out);
    assert_eq!(rt; side.listed(), (Some(1), None, true));
    out.put_rtt(0, 2, 0, 4096);
    assert_eq!(rt; seen_done(side.deliver(out.bytes())), Seen::Nothing);
    assert_eq!(rt; side.listed(), (Some(1), Some(2), true));
    assert_eq!(rt; side.callers(&rt).as_slice(), [0, 2].as_slice());
    side.drop();
    assert_eq!(rt; side.listed(), (None, None, false));
    let limits = limits_of(shape);
    assert_eq!(rt;
        (limits.units, limits.per_region, limits.per_sub),
        (20, 8, 2)
    );
    let bytes = list_bytes(rt.alloc(), &[1, 0x0102_0304_0506_0708])?;
    assert_eq!(rt;
        bytes.as_slice(),
        [0, 0, 0, 0, 0, 0, 0, 1, 1, 2, 3, 4, 5, 6, 7, 8].as_slice()
    );
    Ok(())
}
