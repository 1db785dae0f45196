ghost use Rattle.std.specs.Prelude.{◌≡◌, ◌<◌, IfSome};
ghost use Rattle.upiu_wire.specs.Upiu.{upiu_out};
ghost use Rattle.hpb_sense.specs.Sense.{IsHint};
ghost use Rattle.flat_unit.specs.Hints.{hint_segment};
ghost use Rattle.hpb_device.specs.Reply.{cause_sense, reply_upiu, told_upiu};

use hpb_sense::{FixedSense, Hint, put_fixed, put_hint};
use upiu_wire::UpiuBuf;

/// The status of a command that succeeded (SAM).
const GOOD: u8 = 0x00;

/// The status of a command that failed, whose sense data says why (SAM).
const CHECK_CONDITION: u8 = 0x02;

/// The status where no more tasks can be kept (SAM).
const TASK_SET_FULL: u8 = 0x28;

/// The bytes of a segment with fixed sense, or with a hint.
const SENSE_BYTES: usize = 20;

/// Why a command ends with CHECK CONDITION (SPC, sense data). Which code stands for which event is this project's own.
#[derive(Clone, Copy, Debug, PartialEq, Eq)]
pub enum Cause {
    ReadFailed,
    WriteFailed,
    UnknownOpcode,
    OutOfRange,
    InvalidField,
    NoSuchUnit,
    NoNumber,
    DataNotAsked,
    ChipFailed,
}

impl Cause {
    /// The sense key and the additional sense code.
    fn sense(self) -> FixedSense
        ensures value { result ≡ cause_sense self }
        ensures key { result.key < 16 }
    {
        let (key, asc) = match self {
            Cause::ReadFailed => (0x3, 0x11),
            Cause::WriteFailed => (0x3, 0x0C),
            Cause::UnknownOpcode => (0x5, 0x20),
            Cause::OutOfRange => (0x5, 0x21),
            Cause::InvalidField => (0x5, 0x24),
            Cause::NoSuchUnit => (0x5, 0x25),
            Cause::NoNumber => (0x7, 0x27),
            Cause::DataNotAsked => (0xB, 0x4B),
            Cause::ChipFailed => (0x4, 0x44),
        };
        FixedSense { key, asc, ascq: 0 }
    }
}

/// A UPIU that a device sends without data of a command.
#[derive(Clone, Copy, Debug, PartialEq, Eq)]
pub enum Reply {
    NopIn {
        tag: u8,
    },
    Reject {
        lun: u8,
        tag: u8,
        reason: u8,
    },
    Good {
        lun: u8,
        tag: u8,
        residual: u32,
    },
    TaskSetFull {
        lun: u8,
        tag: u8,
        residual: u32,
    },
    Check {
        lun: u8,
        tag: u8,
        residual: u32,
        cause: Cause,
    },
}

/// Writes the UPIU of a reply, with this hint where it is GOOD.
pub fn put_told(reply: Reply, hint: Option<Hint>, out: &mut UpiuBuf)
    requires { IfSome hint IsHint }
    ensures { out.new ≡ upiu_out (told_upiu (hint_segment hint) reply) }
{
    match (reply, hint) {
        (Reply::Good { lun, tag, residual }, Some(hint)) => {
            let mut segment = [0; SENSE_BYTES];
            put_hint(&hint, &mut segment);
            out.put_response(lun, tag, GOOD, residual, &segment);
        }
        _ => put_reply(reply, out),
    }
}

/// Writes the UPIU of a reply. GOOD has no hint.
pub fn put_reply(reply: Reply, out: &mut UpiuBuf)
    ensures { out.new ≡ upiu_out (reply_upiu reply) }
{
    match reply {
        Reply::NopIn { tag } => out.put_nop_in(tag),
        Reply::Reject { lun, tag, reason } => out.put_reject(lun, tag, reason),
        Reply::Good { lun, tag, residual } => out.put_response(lun, tag, GOOD, residual, &[]),
        Reply::TaskSetFull { lun, tag, residual } => {
            out.put_response(lun, tag, TASK_SET_FULL, residual, &[]);
        }
        Reply::Check {
            lun,
            tag,
            residual,
            cause,
        } => {
            let mut segment = [0; SENSE_BYTES];
            put_fixed(&cause.sense(), &mut segment);
            out.put_response(lun, tag, CHECK_CONDITION, residual, &segment);
        }
    }
}
