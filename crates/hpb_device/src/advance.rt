// One step of the first task.
ghost use Rattle.std.specs.Prelude.{◌≡◌, ◌+◌, ◌-◌, ◌*◌, ◌^◌, ◌<◌, ◌≤◌, ℕ, false, List, [], length, vec_capacity};
ghost use Rattle.std.specs.Prelude.{Option, Some, None};
ghost use Rattle.hpb_device.specs.Task.{AreProgrammed, IsTaskOk, HoldsData, bytes_given, bytes_taken, to_try};
ghost use Rattle.flash_store.specs.Store.{IsSame, IsStanding, StoreState, collecting};
ghost use Rattle.hpb_device.specs.Advance.{ReadsBlocks, ServesEntry, entries_of, first_block, Advances, AllTasks};
ghost use Rattle.hpb_device.specs.Advance.{WhereOver, check, op_of};
ghost use Rattle.hpb_device.specs.Left.{steps_of, wait_of};
ghost use Rattle.hpb_device.specs.StoreCounts.{CountsStep, raised_times};

use crate::reply::{Cause, Reply};
use crate::task::{BLOCK, BURST_BYTES, CAPACITY_BYTES, ENTRY_BYTES, Task, Work, work_of};
use byteorder::{BigEndian, ByteOrder};
use flash_pages::{BLOCK_BYTES, ChipOp, Flash};
use flash_store::{Moved, Phase, Store, StoreFault, Wrote};
use hpb_cdb::{Cdb, Limits};
use hpb_outside::Failed;
use upiu_wire::UpiuBuf;

const ENTRY: u32 = ENTRY_BYTES as u32;

/// What a step sent for a task that goes on: data by DATA IN, or READY TO TRANSFER.
#[derive(Clone, Copy, Debug, PartialEq, Eq)]
pub enum Transfer {
    /// A block that was looked up.
    LookedUp,
    /// A block that was read by its entry.
    ByEntry,
    /// Entries of a subregion.
    EntryList,
    /// The capacity of the unit.
    UnitCapacity,
    /// READY TO TRANSFER for the next data.
    Ready,
}

/// What a step did that sent nothing.
#[derive(Clone, Copy, Debug, PartialEq, Eq)]
pub enum Internal {
    /// The entry of the next block was tried, and isn't that of the block.
    Missed,
    /// A block was programmed.
    Programmed,
    /// The collector made a step, and the block is programmed later.
    Collected(Moved),
}

/// The call of the store in which a call of the chip failed.
#[derive(Clone, Copy, Debug, PartialEq, Eq)]
pub enum FailedCall {
    /// The read of a block that was looked up.
    MappedRead,
    /// The read of the page that an entry names.
    EntryRead,
    /// A step of a write: the program of its block, or a call of the collector's.
    WriteStep(ChipOp),
}

impl FailedCall {
    /// The call of the chip.
    pub fn op(self) -> ChipOp
        ensures { result ≡ op_of self }
    {
        match self {
            FailedCall::MappedRead | FailedCall::EntryRead => ChipOp::Read,
            FailedCall::WriteStep(op) => op,
        }
    }
}

/// What a step made of a command.
#[derive(Clone, Copy, Debug, PartialEq, Eq)]
pub enum Progress {
    /// A UPIU was sent, and the task goes on.
    Sends(Transfer, Task),
    /// Nothing was sent, and the task goes on.
    Silent(Internal, Task),
    /// The command is to be answered, and is no longer kept.
    Ended(Reply),
    /// A call of the chip failed, and the command is to be answered.
    Failed(FailedCall, Reply),
}

/// The answer to a command that succeeded.
fn good(task: Task) -> Reply
    requires { task.sent + task.come ≤ task.expected }
    ensures { result ≡ Reply.Good task.lun task.tag (task.expected - task.sent - task.come) }
{
    Reply::Good {
        lun: task.lun,
        tag: task.tag,
        residual: task.expected - task.sent - task.come,
    }
}

/// The answer to a command that failed.
pub fn check(task: Task, cause: Cause) -> Reply
    requires { task.sent + task.come ≤ task.expected }
    ensures { result ≡ check task cause }
{
    Reply::Check {
        lun: task.lun,
        tag: task.tag,
        residual: task.expected - task.sent - task.come,
        cause,
    }
}

/// One step of a command that doesn't wait for data, whose next block has this entry.
pub fn advance<F: Flash>(
    store: &mut Store<F>,
    held: &mut Vec<u8>,
    task: Task,
    entry: Option<u64>,
    limits: Limits,
    out: &mut UpiuBuf,
) -> Progress
    requires task { IsTaskOk store.old.luns limits task }
    requires units { limits.units ≡ store.old.units }
    requires some_block { 0 < limits.units }
    requires held { HoldsData held.old.items task }
    requires room { 32768 ≤ vec_capacity held.old }
    requires goes { task.come ≡ task.asked }
    requires ready { store.old.phase ≡ Phase.Ready }
    requires stands { IsStanding store.old }
    ensures advances { Advances limits store.old store.new held.old.items held.new.items task result out.new }
    ensures ok { AllTasks (IsTaskOk store.old.luns limits) result }
    ensures held { AllTasks (HoldsData held.new.items) result }
    ensures fewer { AllTasks (λ rest. steps_of limits store.old.geometry.pages (wait_of store.new) rest
        < steps_of limits store.old.geometry.pages (wait_of store.old) task) result }
    ensures same { IsSame store.old store.new }
    ensures over { WhereOver result (held.new.items ≡ held.old.items) }
    ensures entries { ServesEntry entry store.old task result }
    ensures calls { CountsStep store.old store.new entry task result }
    ensures room { vec_capacity held.old ≤ vec_capacity held.new }
{
    match work_of(task.command) {
        Work::ReadBlocks { lba, .. } => read(store, task, lba, entry, limits, out),
        Work::WriteBlocks { lba, n } => {
            if BLOCK * task.programmed < task.come {
                program(store, held, task, lba, n, limits)
            } else {
                ask(store, held, task, BLOCK * u32::from(n), limits, out)
            }
        }
        Work::TakeList { bytes } => ask(store, held, task, u32::from(bytes), limits, out),
        Work::ListEntries { region, sub, .. } => list(store, held, task, region, sub, limits, out),
        Work::TellCapacity => tell(task, limits, out),
        Work::AnswerOnly => Progress::Ended(good(task)),
    }
}

/// One step of a read: the next block is read by its entry, where that is to be tried, and else looked up.
fn read<F: Flash>(
    store: &mut Store<F>,
    task: Task,
    lba: u32,
    entry: Option<u64>,
    limits: Limits,
    out: &mut UpiuBuf,
) -> Progress
    requires task { IsTaskOk store.old.luns limits task }
    requires units { limits.units ≡ store.old.units }
    requires reads { ReadsBlocks task.command }
    requires first { first_block task.command ≡ lba }
    requires goes { task.come ≡ task.asked }
    requires ready { store.old.phase ≡ Phase.Ready }
    ensures advances { (held : List ℕ) → Advances limits store.old store.new held held task result out.new }
    ensures ok { AllTasks (IsTaskOk store.old.luns limits) result }
    ensures held { (held : List ℕ) → HoldsData held task → AllTasks (HoldsData held) result }
    ensures fewer { (pages wait : ℕ) → AllTasks
        (λ rest. steps_of limits pages wait rest < steps_of limits pages wait task) result }
    ensures kept { collecting store.new ≡ collecting store.old }
    ensures same { IsSame store.old store.new }
    ensures entries { ServesEntry entry store.old task result }
    ensures calls { CountsStep store.old store.new entry task result }
{
    match task.to_try(entry) {
        Some(entry) => try_entry(store, task, lba, entry, limits, out),
        None => show(store, task, lba, limits, out),
    }
}

/// Sends the next block of a read, whose place is looked up, or answers it.
fn show<F: Flash>(
    store: &mut Store<F>,
    task: Task,
    lba: u32,
    limits: Limits,
    out: &mut UpiuBuf,
) -> Progress
    requires task { IsTaskOk store.old.luns limits task }
    requires units { limits.units ≡ store.old.units }
    requires reads { ReadsBlocks task.command }
    requires first { first_block task.command ≡ lba }
    requires goes { task.come ≡ task.asked }
    requires ready { store.old.phase ≡ Phase.Ready }
    ensures advances { (held : List ℕ) → Advances limits store.old store.new held held task result out.new }
    ensures ok { AllTasks (IsTaskOk store.old.luns limits) result }
    ensures held { (held : List ℕ) → HoldsData held task → AllTasks (HoldsData held) result }
    ensures fewer { (pages wait : ℕ) → AllTasks
        (λ rest. steps_of limits pages wait rest < steps_of limits pages wait task) result }
    ensures kept { collecting store.new ≡ collecting store.old }
    ensures same { IsSame store.old store.new }
    ensures entries { (entry : Option ℕ) → to_try entry task ≡ None → ServesEntry entry store.old task result }
    ensures calls { (entry : Option ℕ) → CountsStep store.old store.new entry task result }
{
    if task.sent == task.given {
        return Progress::Ended(good(task));
    }
    match store.read_mapped(task.lun, lba + task.sent / BLOCK) {
        Ok(block) => {
            out.put_data_in(task.lun, task.tag, task.sent, block);
            Progress::Sends(Transfer::LookedUp, task.with_block())
        }
        Err(Failed) => Progress::Failed(FailedCall::MappedRead, check(task, Cause::ReadFailed)),
    }
}

/// Sends the next block of a read where this entry is the number of the block's current page.
fn try_entry<F: Flash>(
    store: &mut Store<F>,
    task: Task,
    lba: u32,
    entry: u64,
    limits: Limits,
    out: &mut UpiuBuf,
) -> Progress
    requires task { IsTaskOk store.old.luns limits task }
    requires units { limits.units ≡ store.old.units }
    requires reads { ReadsBlocks task.command }
    requires first { first_block task.command ≡ lba }
    requires more { task.sent < task.given }
    requires untried { task.tried ≡ false }
    requires ready { store.old.phase ≡ Phase.Ready }
    ensures advances { (held : List ℕ) → Advances limits store.old store.new held held task result out.new }
    ensures ok { AllTasks (IsTaskOk store.old.luns limits) result }
    ensures held { (held : List ℕ) → HoldsData held task → AllTasks (HoldsData held) result }
    ensures fewer { (pages wait : ℕ) → AllTasks
        (λ rest. steps_of limits pages wait rest < steps_of limits pages wait task) result }
    ensures kept { collecting store.new ≡ collecting store.old }
    ensures same { IsSame store.old store.new }
    ensures entries { to_try (Some entry) task ≡ Some entry → ServesEntry (Some entry) store.old task result }
    ensures calls { CountsStep store.old store.new (Some entry) task result }
{
    match store.read_by_entry(task.lun, lba + task.sent / BLOCK, entry) {
        Ok(Some(block)) => {
            out.put_data_in(task.lun, task.tag, task.sent, block);
            Progress::Sends(Transfer::ByEntry, task.with_block())
        }
        Ok(None) => Progress::Silent(
            Internal::Missed,
            Task {
                tried: true,
                ..task
            },
        ),
        Err(Failed) => Progress::Failed(FailedCall::EntryRead, check(task, Cause::ReadFailed)),
    }
}

/// Sends the next entries of READ BUFFER, or answers it.
fn list<F: Flash>(
    store: &mut Store<F>,
    held: &mut Vec<u8>,
    task: Task,
    region: u16,
    sub: u16,
    limits: Limits,
    out: &mut UpiuBuf,
) -> Progress
    requires task { IsTaskOk store.old.luns limits task }
    requires units { limits.units ≡ store.old.units }
    requires held { HoldsData held.old.items task }
    requires room { 32768 ≤ vec_capacity held.old }
    requires command { (len : ℕ) × (task.command ≡ Cdb.ReadBuffer region sub len) }
    requires goes { task.come ≡ task.asked }
    requires ready { store.old.phase ≡ Phase.Ready }
    ensures advances { Advances limits store.old store.new held.old.items held.new.items task result out.new }
    ensures ok { AllTasks (IsTaskOk store.old.luns limits) result }
    ensures held { AllTasks (HoldsData held.new.items) result }
    ensures fewer { (pages wait : ℕ) → AllTasks
        (λ rest. steps_of limits pages wait rest < steps_of limits pages wait task) result }
    ensures kept { collecting store.new ≡ collecting store.old }
    ensures same { IsSame store.old store.new }
    ensures over { WhereOver result (held.new.items ≡ held.old.items) }
    ensures entries { (entry : Option ℕ) → ServesEntry entry store.old task result }
    ensures calls { (entry : Option ℕ) → CountsStep store.old store.new entry task result }
    ensures room { vec_capacity held.old ≤ vec_capacity held.new }
{
    if task.sent == task.given {
        return Progress::Ended(good(task));
    }
    let count = (task.given - task.sent).min(BLOCK);
    let first = first_listed(region, sub, limits) + task.sent / ENTRY;
    let entries = count.div_ceil(ENTRY);
    push_entries(store, held, task.lun, first, entries);
    out.put_data_in(task.lun, task.tag, task.sent, &held[..count as usize]);
    held.clear();
    Progress::Sends(
        Transfer::EntryList,
        Task {
            sent: task.sent + count,
            ..task
        },
    )
}

/// The first block of a subregion.
fn first_listed(region: u16, sub: u16, limits: Limits) -> u32
    requires { region * limits.per_region + sub * limits.per_sub < 2 ^ 32 }
    ensures { result ≡ region * limits.per_region + sub * limits.per_sub }
{
    u32::from(region) * limits.per_region + u32::from(sub) * limits.per_sub
}

/// Puts the entries of blocks into an empty buffer.
fn push_entries<F: Flash>(store: &mut Store<F>, held: &mut Vec<u8>, lun: u8, first: u32, count: u32)
    requires lun { lun < store.old.luns }
    requires blocks { first + count ≤ store.old.units }
    requires few_blocks { store.old.units < 2 ^ 32 }
    requires empty { held.old.items ≡ [] }
    requires room { 8 * count ≤ vec_capacity held.old }
    requires ready { store.old.phase ≡ Phase.Ready }
    ensures entries { held.new.items ≡ entries_of store.old.pages lun first count }
    ensures room { vec_capacity held.old ≤ vec_capacity held.new }
    ensures kept { collecting store.new ≡ collecting store.old }
    ensures same { IsSame store.old store.new }
    ensures calls { (store.new.calls ≡ store.old.calls) × (store.new.faults ≡ store.old.faults) }
    ensures lookups { store.new.lookups ≡ raised_times count store.old.lookups }
    ensures hits { store.new.hits ≡ store.old.hits }
{
    for lba in first..first + count {
        held.extend_from_slice(&store.entry_of(lun, lba).to_be_bytes())
            .unwrap();
    }
}

/// Programs the next block of a WRITE(10), whose data have come, or lets the collector make a step first.
fn program<F: Flash>(
    store: &mut Store<F>,
    held: &[u8],
    task: Task,
    lba: u32,
    n: u16,
    limits: Limits,
) -> Progress
    requires task { IsTaskOk store.old.luns limits task }
    requires units { limits.units ≡ store.old.units }
    requires held { HoldsData held.now task }
    requires command { task.command ≡ Cdb.Write lba n }
    requires come { task.come ≡ task.asked }
    requires more { 4096 * task.programmed < task.come }
    requires ready { store.old.phase ≡ Phase.Ready }
    requires stands { IsStanding store.old }
    ensures advances { (out : List ℕ) → Advances limits store.old store.new held.now held.now task result out }
    ensures ok { AllTasks (IsTaskOk store.old.luns limits) result }
    ensures held { AllTasks (HoldsData held.now) result }
    ensures fewer { AllTasks (λ rest. steps_of limits store.old.geometry.pages (wait_of store.new) rest
        < steps_of limits store.old.geometry.pages (wait_of store.old) task) result }
    ensures same { IsSame store.old store.new }
    ensures entries { (entry : Option ℕ) → ServesEntry entry store.old task result }
    ensures calls { (entry : Option ℕ) → CountsStep store.old store.new entry task result }
{
    let start = BLOCK_BYTES * task.programmed as usize + held.len() - task.come as usize;
    let block = &held[start..start + BLOCK_BYTES];
    match store.write_step(task.lun, lba + task.programmed, block) {
        Ok(Wrote::Done) => Progress::Silent(
            Internal::Programmed,
            Task {
                programmed: task.programmed + 1,
                ..task
            },
        ),
        Ok(Wrote::Collected(moved)) => Progress::Silent(Internal::Collected(moved), task),
        Err(StoreFault::SeqEnd) => Progress::Ended(check(task, Cause::NoNumber)),
        Err(StoreFault::Failed(op)) => {
            Progress::Failed(FailedCall::WriteStep(op), check(task, Cause::WriteFailed))
        }
    }
}

/// Asks for the next data of a command that takes so many bytes, or answers it.
fn ask<F: Flash>(
    store: &Store<F>,
    held: &mut Vec<u8>,
    task: Task,
    bytes: u32,
    limits: Limits,
    out: &mut UpiuBuf,
) -> Progress
    requires task { IsTaskOk store.now.luns limits task }
    requires bytes { bytes_taken task.command ≡ bytes }
    requires gives { bytes_given limits task.command ≡ 0 }
    requires come { task.come ≡ task.asked }
    requires programmed { AreProgrammed task }
    ensures advances { Advances limits store.now store.now held.old.items held.new.items task result out.new }
    ensures ok { AllTasks (IsTaskOk store.now.luns limits) result }
    ensures fewer { (pages wait : ℕ) → AllTasks
        (λ rest. steps_of limits pages wait rest < steps_of limits pages wait task) result }
    ensures held { AllTasks (HoldsData held.new.items) result }
    ensures over { WhereOver result (held.new.items ≡ held.old.items) }
    ensures entries { (entry : Option ℕ) → ServesEntry entry store.now task result }
    ensures calls { (entry : Option ℕ) → CountsStep store.now store.now entry task result }
    ensures room { vec_capacity held.old ≤ vec_capacity held.new }
{
    let left = bytes - task.asked;
    if left == 0 {
        return Progress::Ended(good(task));
    }
    let count = left.min(BURST_BYTES as u32);
    held.clear();
    out.put_rtt(task.lun, task.tag, task.asked, count);
    Progress::Sends(
        Transfer::Ready,
        Task {
            asked: task.asked + count,
            ..task
        },
    )
}

/// Sends the capacity of a unit, or answers READ CAPACITY(10) (SBC).
fn tell(task: Task, limits: Limits, out: &mut UpiuBuf) -> Progress
    requires task { (luns : ℕ) × IsTaskOk luns limits task }
    requires some_block { 0 < limits.units }
    requires command { task.command ≡ Cdb.Capacity }
    requires goes { task.come ≡ task.asked }
    ensures advances { (store : StoreState) (held : List ℕ) → store.units ≡ limits.units
        → Advances limits store store held held task result out.new }
    ensures ok { (luns : ℕ) → IsTaskOk luns limits task → AllTasks (IsTaskOk luns limits) result }
    ensures held { (held : List ℕ) → HoldsData held task → AllTasks (HoldsData held) result }
    ensures fewer { (pages wait : ℕ) → AllTasks
        (λ rest. steps_of limits pages wait rest < steps_of limits pages wait task) result }
    ensures entries { (store : StoreState) (entry : Option ℕ) → ServesEntry entry store task result }
    ensures calls { (store : StoreState) (entry : Option ℕ) → CountsStep store store entry task result }
{
    if task.sent == CAPACITY_BYTES as u32 {
        return Progress::Ended(good(task));
    }
    let mut capacity = [0; CAPACITY_BYTES];
    BigEndian::write_u32(&mut capacity[..4], limits.units as u32 - 1);
    BigEndian::write_u32(&mut capacity[4..], BLOCK);
    out.put_data_in(task.lun, task.tag, task.sent, &capacity);
    Progress::Sends(
        Transfer::UnitCapacity,
        Task {
            sent: CAPACITY_BYTES as u32,
            ..task
        },
    )
}
