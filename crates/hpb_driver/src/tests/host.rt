//! A driver of two units by calls that can be written in a row, and what each answers.
ghost use Rattle.std.specs.Prelude.{IfOk, IfSome};
ghost use Rattle.hpb_driver.specs.State.{HasBytes};

use crate::{Driver, SubmitFault};
use driver_laws::{Answer, Done, DriverFault, Request};
use flat_unit::Bytes;
use hpb_cdb::{Cdb, Limits};
use std::alloc::Global;
use std::process::Abort;
use std::test::Fail;
use upiu_wire::{Kind, UpiuBuf, UpiuView};

/// A call, or a UPIU of the device.
#[derive(Clone, Copy, Debug)]
pub enum Call {
    /// A unit, an LBA and how many blocks.
    Read(u8, u32, u32),
    Write(u8, u32, u32),
    Sync,
    Ready,
    Send,
    Hold(bool),
    Reset,
    /// A DATA IN: its unit, its tag, its offset and the count of its bytes.
    Data(u8, u8, u32, usize),
    /// A READY TO TRANSFER: its unit, its tag, its offset and its count.
    Ask(u8, u8, u32, u32),
    /// A RESPONSE: its unit, its tag, its status and its segment.
    End(u8, u8, u8, &'static [u8]),
    NopIn,
    /// The first 31 bytes of a NOP IN.
    Cut,
    /// A UPIU that no device sends.
    NopOut,
}

/// What it answers.
#[derive(Clone, Copy, Debug, PartialEq, Eq)]
pub enum Seen {
    Nothing,
    /// The tag of a request that was taken.
    Taken(u8),
    Refused(SubmitFault),
    /// A COMMAND: its unit, its tag and its CDB.
    Command(u8, u8, Cdb),
    /// A DATA OUT: its unit, its tag, its offset and the count of its bytes.
    Out(u8, u8, u32, usize),
    /// The tag, and how many bytes came.
    Good(u8, usize),
    /// The tag, and the sense key and codes.
    Check(u8, (u8, u8, u8)),
    /// The tag and the status.
    Status(u8, u8),
    Fault(DriverFault),
    /// The first two tags of the requests that were cut, and how many there are.
    Tags(Option<u8>, Option<u8>, usize),
}

/// A request of `4096 * n` bytes 33h where it writes.
fn request_of(rt: &impl Abort, alloc: Global, call: Call) -> Result<Option<Request>, Fail>
    ensures { IfOk result (λ request. IfSome request HasBytes) }
{
    Ok(match call {
        Call::Read(lun, lba, n) => Some(Request::Read { lun, lba, n }),
        Call::Write(lun, lba, n) => {
            assert!(rt; n <= 256);
            let bytes = vec![in alloc; 0x33; 4096 * n as usize]?;
            Some(Request::Write {
                lun,
                lba,
                n,
                bytes: Bytes::new(bytes),
            })
        }
        Call::Sync => Some(Request::Sync),
        Call::Ready => Some(Request::Ready),
        _ => None,
    })
}

/// What was sent.
fn seen_out(bytes: &[u8]) -> Seen {
    let Ok(view) = UpiuView::parse(bytes) else {
        return Seen::Nothing;
    };
    match view.kind() {
        Kind::Command => match hpb_cdb::parse(view.cdb(), Limits::any()) {
            Ok(command) => Seen::Command(view.lun(), view.tag(), command),
            Err(_) => Seen::Nothing,
        },
        _ => Seen::Out(view.lun(), view.tag(), view.first(), view.segment().len()),
    }
}

/// How a request ended, if one did.
fn seen_done(outcome: Result<Option<Done>, DriverFault>) -> Seen {
    match outcome {
        Ok(Some(Done { tag, answer })) => match answer {
            Answer::Good(bytes) => Seen::Good(tag, bytes.as_slice().len()),
            Answer::Check(sense) => Seen::Check(tag, (sense.key, sense.asc, sense.ascq)),
            Answer::Status(status) => Seen::Status(tag, status),
        },
        Ok(None) => Seen::Nothing,
        Err(fault) => Seen::Fault(fault),
    }
}

/// Writes a UPIU of the device.
fn put_from_device(rt: &impl Abort, call: Call, out: &mut UpiuBuf) {
    match call {
        Call::Data(lun, tag, offset, count) => {
            assert!(rt; count <= 4096);
            out.put_data_in(lun, tag, offset, &[0x5A; 4096][..count]);
        }
        Call::Ask(lun, tag, offset, count) => out.put_rtt(lun, tag, offset, count),
        Call::End(lun, tag, status, segment) => {
            assert!(rt; segment.len() <= 4096);
            out.put_response(lun, tag, status, 0, segment);
        }
        Call::NopOut => out.put_nop_out(0),
        _ => out.put_nop_in(0),
    }
}

/// Hands the driver a UPIU of the device.
fn deliver(rt: &impl Abort, driver: &mut Driver, call: Call) -> Seen {
    let mut out = UpiuBuf::new();
    put_from_device(rt, call, &mut out);
    let bytes = out.bytes();
    let end = match call {
        Call::Cut => 31.min(bytes.len()),
        _ => bytes.len(),
    };
    seen_done(driver.deliver(&bytes[..end]))
}

/// Makes a call.
pub fn call_of(
    rt: &impl Abort,
    alloc: Global,
    driver: &mut Driver,
    call: Call,
) -> Result<Seen, Fail> {
    if let Some(request) = request_of(rt, alloc, call)? {
        return Ok(match driver.submit(request) {
            Ok(tag) => Seen::Taken(tag),
            Err((_, fault)) => Seen::Refused(fault),
        });
    }
    Ok(match call {
        Call::Send => {
            let mut out = UpiuBuf::new();
            if driver.next_upiu(&mut out) {
                seen_out(out.bytes())
            } else {
                Seen::Nothing
            }
        }
        Call::Hold(on) => {
            driver.hold(on);
            Seen::Nothing
        }
        Call::Reset => {
            let tags = driver.reset();
            let tags = tags.as_slice();
            Seen::Tags(tags.first().copied(), tags.get(1).copied(), tags.len())
        }
        _ => deliver(rt, driver, call),
    })
}
