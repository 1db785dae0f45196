// What comes of the bytes of the host, by the tasks that are kept.
ghost use Rattle.std.specs.Prelude.{◌≡◌, ◌<◌, ◌==◌, ◌^◌, ℕ, List, [], ◌∷◌, length, IfOk, OnOk};
ghost use Rattle.std.specs.List.{list_any};
ghost use Rattle.std.specs.Bool.{OnTrue};
ghost use Rattle.flash_pages.specs.declared.chip.Geometry.{Geometry};
ghost use Rattle.hpb_cdb.specs.Cdb.{IsCdb};
ghost use Rattle.upiu_wire.specs.Upiu.{upiu_at};
ghost use Rattle.flat_unit.specs.Reply.{fault_rejection};
ghost use Rattle.flat_unit.specs.Task.{Task as Waiting};
ghost use Rattle.hpb_device.specs.Accept.{IsVerdict, IsBegun, IsNextPiece, IsCommandOf, IsJudged, IsDataVerdict};
ghost use Rattle.hpb_device.specs.Accept.{Follows, goes_on};
ghost use Rattle.hpb_device.specs.Keeps.{KeepsTasks};
ghost use Rattle.hpb_device.specs.Reply.{reply_upiu};
ghost use Rattle.hpb_device.specs.Sizes.{sizes};
ghost use Rattle.hpb_device.specs.Task.{IsQueue, IsServed, bytes_given};

use crate::queue::head_of;
use crate::reply::{Cause, Reply};
use crate::task::{TASKS, Task};
use hpb_cdb::{Cdb, CdbFault, Limits};
use upiu_wire::{Kind, UpiuView};

/// The reasons of a REJECT past those of the layout.
const KIND_NOT_SERVED: u8 = 7;

const TAG_IN_USE: u8 = 8;

const DATA_NOT_WAITED_FOR: u8 = 9;

/// What comes of the bytes of the host.
pub enum Verdict<'a> {
    /// The command is kept.
    Keep(Task),
    /// These are the next data of the head.
    Data(&'a [u8]),
    /// The bytes are answered at once, and nothing else changes.
    Answer(Reply),
    /// The data aren't as asked, which ends the head.
    End(Reply),
}

/// Judges bytes of the host. The tests stand in a fixed order, which is this project's own.
pub fn judge<'a>(limits: Limits, luns: u8, tasks: &[Task], bytes: &'a [u8]) -> Verdict<'a>
    requires limits { 0 < limits.per_sub }
    requires few_blocks { limits.units < 2 ^ 32 }
    requires queue { (held : List ℕ) × IsQueue luns limits held tasks.now }
    ensures verdict { IsVerdict limits luns tasks.now (upiu_at bytes.now) result }
    ensures follows { (geometry : Geometry) (held : List ℕ) (waiting : List Waiting) → KeepsTasks tasks.now held waiting
        → Follows (sizes luns limits geometry) waiting bytes.now result }
{
    match UpiuView::parse(bytes) {
        Err(fault) => Verdict::Answer(reject_bytes(bytes, fault.number())),
        Ok(view) => match view.kind() {
            Kind::NopOut => Verdict::Answer(Reply::NopIn { tag: view.tag() }),
            Kind::Command => match judge_command(limits, luns, tasks, &view) {
                Ok(task) => Verdict::Keep(task),
                Err(reply) => Verdict::Answer(reply),
            },
            Kind::DataOut => judge_data(limits, luns, tasks, &view),
            _ => Verdict::Answer(Reply::Reject {
                lun: view.lun(),
                tag: view.tag(),
                reason: KIND_NOT_SERVED,
            }),
        },
    }
}

/// The REJECT of bytes that are no UPIU.
fn reject_bytes(bytes: &[u8], reason: u8) -> Reply
    ensures { reply_upiu result ≡ fault_rejection bytes.now reason }
{
    match bytes {
        [_, _, lun, tag, ..] => Reply::Reject {
            lun: *lun,
            tag: *tag,
            reason,
        },
        _ => Reply::Reject {
            lun: 0,
            tag: 0,
            reason,
        },
    }
}

/// The task of a command, or what stands against it.
fn judge_command(
    limits: Limits,
    luns: u8,
    tasks: &[Task],
    view: &UpiuView<'_>,
) -> Result<Task, Reply>
    requires limits { 0 < limits.per_sub }
    requires few_blocks { limits.units < 2 ^ 32 }
    ensures room { OnOk result (length tasks.now < 32) }
    ensures first_fits { (upiu_at view.now).first < 2 ^ 32 }
    ensures begun { IfOk result (IsBegun limits luns (upiu_at view.now)) }
    ensures judged { (geometry : Geometry) (held : List ℕ) (waiting : List Waiting) → KeepsTasks tasks.now held waiting
        → IsJudged (sizes luns limits geometry) waiting (upiu_at view.now) result }
{
    let lun = view.lun();
    let tag = view.tag();
    let expected = view.expected();
    if is_in_use(tasks, tag) {
        return Err(Reply::Reject {
            lun,
            tag,
            reason: TAG_IN_USE,
        });
    }
    let check = |cause| Reply::Check {
        lun,
        tag,
        residual: expected,
        cause,
    };
    if lun >= luns {
        return Err(check(Cause::NoSuchUnit));
    }
    if tasks.len() >= TASKS {
        return Err(Reply::TaskSetFull {
            lun,
            tag,
            residual: expected,
        });
    }
    match command_of(limits, view.cdb()) {
        Err(cause) => Err(check(cause)),
        Ok(command) => {
            if expected < hpb_cdb::needed(&command, limits) {
                return Err(check(Cause::InvalidField));
            }
            let given = given(&command, limits);
            Ok(Task::new(lun, tag, command, expected, given))
        }
    }
}

/// Whether a task has this tag.
fn is_in_use(tasks: &[Task], tag: u8) -> bool
    ensures { result ≡ list_any (λ task. task.tag == tag) tasks.now }
{
    tasks.iter().any(|task| task.tag == tag)
}

/// The bytes that a command sends by DATA IN.
fn given(command: &Cdb, limits: Limits) -> u32
    requires { IsServed limits command.now }
    ensures { result ≡ bytes_given limits command.now }
{
    match command {
        Cdb::Write { .. } | Cdb::Prefetch { .. } => 0,
        _ => hpb_cdb::needed(command, limits),
    }
}

/// The command of a CDB, or why it is refused.
fn command_of(limits: Limits, cdb: &[u8]) -> Result<Cdb, Cause>
    requires bytes { length cdb.now ≡ 16 }
    requires limits { 0 < limits.per_sub }
    ensures command { IfOk result (IsCdb cdb.now limits) }
    ensures served { IfOk result (IsServed limits) }
    ensures command_of { (luns : ℕ) (geometry : Geometry) → IsCommandOf (sizes luns limits geometry) cdb.now result }
{
    match hpb_cdb::parse(cdb, limits) {
        Ok(command) => Ok(command),
        Err(CdbFault::Opcode) => Err(Cause::UnknownOpcode),
        Err(CdbFault::Field) => Err(Cause::InvalidField),
        Err(CdbFault::Range) => Err(Cause::OutOfRange),
    }
}

/// Whether a DATA OUT goes on where the data that have come end, within what was asked for.
fn goes_on(task: Task, view: &UpiuView<'_>) -> bool
    ensures value { result ≡ goes_on task (upiu_at view.now) }
    ensures piece { OnTrue result (IsNextPiece task (upiu_at view.now).segment) }
{
    let count = view.count();
    if view.offset() != task.come || count as usize != view.segment().len() {
        return false;
    }
    count != 0 && u64::from(task.come) + u64::from(count) <= u64::from(task.asked)
}

/// What comes of a DATA OUT.
fn judge_data<'a>(limits: Limits, luns: u8, tasks: &[Task], view: &UpiuView<'a>) -> Verdict<'a>
    requires { (held : List ℕ) × IsQueue luns limits held tasks.now }
    ensures verdict { IsVerdict limits luns tasks.now (upiu_at view.now) result }
    ensures follows { (held : List ℕ) (waiting : List Waiting) → KeepsTasks tasks.now held waiting
        → IsDataVerdict waiting (upiu_at view.now) result }
{
    let lun = view.lun();
    let tag = view.tag();
    let not_waited_for = Reply::Reject {
        lun,
        tag,
        reason: DATA_NOT_WAITED_FOR,
    };
    let Some(task) = head_of(tasks) else {
        return Verdict::Answer(not_waited_for);
    };
    if !task.waits_for_data() || task.lun != lun || task.tag != tag {
        return Verdict::Answer(not_waited_for);
    }
    if !goes_on(task, view) {
        return Verdict::End(Reply::Check {
            lun,
            tag,
            residual: task.expected - task.come,
            cause: Cause::DataNotAsked,
        });
    }
    Verdict::Data(view.segment())
}
