ghost use Rattle.std.specs.Prelude.{◌≡◌, ◌≢◌, ◌^◌, ◌≤◌, ◌↔◌, ◌<◌, ◌*◌, ◌⊎◌, ℕ, Bool, List, [], drop, length};
ghost use Rattle.std.specs.Prelude.{vec_capacity, None, IsTrue, IfOk, IfErr, IfSome, replicate, true, false};
ghost use Rattle.hpb_outside.specs.Faults.{Rose, raised};
ghost use Rattle.flash_pages.specs.Chip.{Page};
ghost use Rattle.flash_pages.specs.Place.{Place};
ghost use Rattle.flash_pages.specs.Unit.{next_seq};
ghost use Rattle.collector_laws.specs.Changes.{AreCollected};
ghost use Rattle.chip_image.specs.Load.{Loads};
ghost use Rattle.chip_image.specs.Transfer.{RoseOnlyAt};
ghost use Rattle.flash_store.specs.Store.{IsStanding};
ghost use Rattle.hpb_sense.specs.Sense.{IsHint};
ghost use Rattle.region_state.specs.Machine.{start};
ghost use Rattle.region_state.specs.Shape.{IsWithinLimits};
ghost use Rattle.upiu_wire.specs.Upiu.{Upiu};
ghost use Rattle.flat_unit.specs.declared.event.Event.TheVariants.{Host, Reset};
ghost use Rattle.flat_unit.specs.Hints.{hint_segment};
ghost use Rattle.flat_unit.specs.History.{History, ◌▹◌, followed_by};
ghost use Rattle.flat_unit.specs.Queue.{tasks_after};
ghost use Rattle.flat_unit.specs.Replays.{enough, events_of};
ghost use Rattle.flat_unit.specs.Sound.{answers_to};
ghost use Rattle.flat_unit.specs.Stands.{First};
ghost use Rattle.flat_unit.specs.Task.{Task as Waiting};
ghost use Rattle.hpb_device.specs.Limits.{limits_of};
ghost use Rattle.hpb_device.specs.Calls.{EndsUnread, Leaves, Stays, at_rest, moved_by, stepped};
ghost use Rattle.hpb_device.specs.Counts.{no_counts};
ghost use Rattle.hpb_device.specs.Left.{steps_left, unscanned};
ghost use Rattle.hpb_device.specs.State.{AtRest, IsIdle, IsNewFault};
ghost use Rattle.hpb_device.specs.Task.{HaveMovedLess};
ghost use Rattle.std.specs.Bool.{OnFalse};

use crate::accept::{Verdict, judge};
use crate::advance::{Internal, Progress, advance, check};
use crate::counts::Counts;
use crate::lists::{next_entry, step_list, unread_list};
use crate::queue::{end_head, head_of, keep_head};
use crate::regions::{new_regions, reset_all, take_moved, take_progress};
use crate::reply::{Cause, Reply, put_reply, put_told};
use crate::task::{BURST_BYTES, TASKS, Task};
use arrayvec::ArrayVec;
use chip_image::ImageFault;
use entry_lists::EntryLists;
use flash_pages::{ChipOp, Flash};
use flash_store::{Moved, Phase, Store, can_serve};
use hpb_cdb::Limits;
use hpb_outside::{Failed, NewFault, Source};
use hpb_sense::Hint;
use region_state::{Regions, Shape};
use std::alloc::Global;
use std::marker::Model;
use upiu_wire::UpiuBuf;

/// Whether a call of `receive` sent a UPIU.
#[derive(Clone, Copy, Debug, PartialEq, Eq)]
pub enum Sent {
    Nothing,
    Upiu,
}

/// What one step did.
#[derive(Clone, Copy, Debug, PartialEq, Eq)]
pub struct Stepped {
    /// Nothing was to be done.
    pub idle: bool,
    /// The call of the chip that failed.
    pub failed: Option<ChipOp>,
    /// The logical unit and the LBA of a block that the collector programmed anew.
    pub moved: Option<(u8, u32)>,
    /// A UPIU was sent.
    pub sent: bool,
}

impl Stepped {
    /// A step that had something to do.
    fn new(failed: Option<ChipOp>, moved: Option<(u8, u32)>, sent: bool) -> Stepped
        ensures { result ≡ stepped failed moved sent }
    {
        Stepped {
            idle: false,
            failed,
            moved,
            sent,
        }
    }

    /// A step with nothing to do.
    fn idle() -> Stepped
        ensures { result ≡ at_rest }
    {
        Stepped {
            idle: true,
            failed: None,
            moved: None,
            sent: false,
        }
    }
}

/// What a device needs to go on.
#[derive(Clone, Copy, Debug, PartialEq, Eq)]
pub enum Waits {
    /// A task: none is kept.
    Nothing,
    /// Data of the host, for the head task.
    Host,
    /// A step.
    Step,
}

/// A device over a flash chip.
#[derive(Drop)]
pub struct Device<F: Flash> {
    store: Store<F>,
    shape: Shape,
    luns: u8,
    regions: Vec<Regions>,
    lists: EntryLists,
    tasks: ArrayVec<Task, TASKS>,
    held: Vec<u8>,
    counts: Counts,
}

impl<F: Flash> Model for Device<F> {
    ghost use Rattle.std.specs.Prelude.{vec_capacity};
    ghost use Rattle.hpb_device.specs.State.{DeviceState, IsDevice};

    ghost Value = { DeviceState };

    ghost view = { λ d. record {
      store = d.store;
      shape = d.shape;
      regions = d.regions.items;
      lists = d.lists;
      tasks = d.tasks.items;
      held = d.held.items;
      counts = d.counts;
    } };

    ghost invariant = { λ d. IsDevice d.store d.shape d.luns d.regions.items d.lists d.tasks.items d.held.items
        (vec_capacity d.held) };
}

impl<F: Flash> Device<F> {
    ghost use Rattle.hpb_device.specs.Accept.{TakesPiece};
    ghost use Rattle.hpb_device.specs.Begun.{Begins, IsBegun};
    ghost use Rattle.hpb_device.specs.Calls.{Collects, GoesOn, LeavesFewer, Receives, Refuses, Scans, Steps, TakesData};
    ghost use Rattle.hpb_device.specs.Calls.{reset_of, uncollected_in};
    ghost use Rattle.hpb_device.specs.Counted.{CountsStand};
    ghost use Rattle.hpb_device.specs.Entries.{EntriesStand};
    ghost use Rattle.hpb_device.specs.Keeps.{KeepsTasks};
    ghost use Rattle.hpb_device.specs.Lists.{ListsStand};
    ghost use Rattle.hpb_device.specs.Listed.{ListingStands};
    ghost use Rattle.hpb_device.specs.Regions.{HintsStand, KeepsHistory};
    ghost use Rattle.hpb_device.specs.Standing.{DeviceStands, DeviceStandsForeign, sizes_of, answer_events, first_of};
    ghost use Rattle.hpb_device.specs.Standing.{group_of};
    ghost use Rattle.hpb_device.specs.State.{IsSound};
    ghost use Rattle.hpb_device.specs.Left.{KeepsNoWrite};

    /// A device of `luns` logical units, each of this shape, over a chip, which it begins to scan. It takes all its
    /// memory here.
    ///
    /// It fails, and hands the chip back, with `Geometry` where a number of the shape is outside its limits or the chip
    /// can't hold the units, and with `Memory` where there isn't enough memory.
    pub fn new(alloc: Global, flash: F, shape: Shape, luns: u8) -> Result<Device<F>, (F, NewFault)>
        ensures refused { IfErr result (λ refused. IsNewFault refused.1 (F.geometry flash) luns shape) }
        ensures begun { IfOk result (λ device. IsNewFault NewFault.Memory (F.geometry flash) luns shape) }

        ensures tasks { IfOk result (λ device. device.tasks ≡ []) }
        ensures regions { IfOk result (λ device. device.regions ≡ replicate luns (start shape)) }
        ensures lists { IfOk result (λ device. device.lists ≡ replicate (127 * luns) None) }
        ensures counts { IfOk result (λ device. device.counts ≡ no_counts) }
        ensures shape { IfOk result (λ device. device.shape ≡ shape) }
        ensures luns { IfOk result (λ device. device.store.luns ≡ luns) }
        ensures units { IfOk result (λ device. device.store.units ≡ shape.units) }
        ensures pages { IfOk result (λ device. device.store.pages ≡ F.pages flash) }
        ensures geometry { IfOk result (λ device. device.store.geometry ≡ F.geometry flash) }
        ensures faults { IfOk result (λ device. device.store.faults ≡ F.faults flash) }
        ensures calls { IfOk result (λ device. device.store.calls ≡ F.calls flash) }
        ensures lookups { IfOk result (λ device. device.store.lookups ≡ 0) }
        ensures hits { IfOk result (λ device. device.store.hits ≡ 0) }
        ensures phase { IfOk result (λ device. device.store.phase ≡ Phase.Scanning) }
        ensures scanned { IfOk result (λ device. device.store.scanned ≡ 0) }
        ensures stands { IfOk result (λ device. IsSound device → DeviceStands device (first_of device) []) }
        ensures foreign { IfOk result (λ device. ¬ IsSound device
            → DeviceStandsForeign device (F.pages flash) (first_of device) []) }
        ensures hints { IfOk result (λ device. HintsStand device []) }
        ensures fetched { IfOk result (λ device. ListsStand device []) }
        ensures counted { IfOk result (λ device. CountsStand device []) }
        ensures given_back { IfErr result (λ refused. refused.0 ≡ flash) }
        ensures begins { IfOk result (λ device. Begins device) }
    {
        if !shape.is_within_limits() || !can_serve(flash.geometry(), luns, shape.units) {
            return Err((flash, NewFault::Geometry));
        }
        let Ok(held) = Vec::with_capacity(alloc, BURST_BYTES) else {
            return Err((flash, NewFault::Memory));
        };
        let Ok(regions) = new_regions(alloc, shape, luns) else {
            return Err((flash, NewFault::Memory));
        };
        let Ok(lists) = EntryLists::new(alloc, luns) else {
            return Err((flash, NewFault::Memory));
        };
        let store = Store::new(alloc, flash, luns, shape.units)?;
        Ok(Device {
            store,
            shape,
            luns,
            regions,
            lists,
            tasks: ArrayVec::new(),
            held,
            counts: Counts::ZERO,
        })
    }

    /// Reads an image from the source onto the chip, as `load_image` does. Whatever comes of this, the device is then as
    /// `new` makes it over the chip that is left. It takes no memory.
    pub fn load<S: Source>(&mut self, source: &mut S) -> Result<(), ImageFault>
        requires begins { Begins self.old }
        ensures loads { Loads self.old.store.geometry self.old.store.pages self.new.store.pages (S.left source.old)
            (S.left source.new) result }
        ensures begun { IsBegun self.new }
        ensures shape { self.new.shape ≡ self.old.shape }
        ensures luns { self.new.store.luns ≡ self.old.store.luns }
        ensures units { self.new.store.units ≡ self.old.store.units }
        ensures geometry { self.new.store.geometry ≡ self.old.store.geometry }
        ensures source_faults { RoseOnlyAt (S.faults source.old) (S.faults source.new) ImageFault.ReadFault result }
        ensures chip_faults { RoseOnlyAt self.old.store.faults self.new.store.faults ImageFault.ChipFault result }
    {
        self.store.load(source)
    }

    /// Gives the chip back.
    pub fn into_flash(self) -> F
        ensures pages { F.pages result ≡ self.store.pages }
        ensures geometry { F.geometry result ≡ self.store.geometry }
        ensures faults { F.faults result ≡ self.store.faults }
        ensures calls { F.calls result ≡ self.store.calls }
    {
        self.store.into_flash()
    }

    /// Takes a UPIU of the host. What isn't kept is answered at once, by the UPIU in `out`.
    pub fn receive(&mut self, bytes: &[u8], out: &mut UpiuBuf) -> Sent
        ensures stands { (first : First) (e : History) → DeviceStands self.old first e
            → DeviceStands self.new first (followed_by (e ▹ Host bytes.now) (answer_events result out.new)) }
        ensures foreign { (chip : List Page) (first : First) (e : History) → DeviceStandsForeign self.old chip first e
            → DeviceStandsForeign self.new chip first
            (followed_by (e ▹ Host bytes.now) (answer_events result out.new)) }
        ensures answers { (tasks : List Waiting) → KeepsTasks self.old.tasks self.old.held tasks
            → answers_to (sizes_of self.old) true tasks bytes.now ≡ answer_events result out.new }
        ensures receives { Receives self.old self.new bytes.now result out.new }
        ensures entries { (e : History) → EntriesStand self.old e
            → EntriesStand self.new (followed_by (e ▹ Host bytes.now) (answer_events result out.new)) }
        ensures listings { (had : Place → Bool) (pages : ℕ) (first : First) (e : History)
            → DeviceStands self.old first e → ListingStands had pages self.old e
            → ListingStands had pages self.new (followed_by (e ▹ Host bytes.now) (answer_events result out.new)) }
        ensures hints { (e : History) → KeepsHistory self.old e → HintsStand self.old e
            → HintsStand self.new (followed_by (e ▹ Host bytes.now) (answer_events result out.new)) }
        ensures fetched { (e : History) → KeepsHistory self.old e → ListsStand self.old e
            → ListsStand self.new (followed_by (e ▹ Host bytes.now) (answer_events result out.new)) }
        ensures counted { (first : First) (e : History) → DeviceStands self.old first e → CountsStand self.old e
            → CountsStand self.new (followed_by (e ▹ Host bytes.now) (answer_events result out.new)) }
        ensures store { self.new.store ≡ self.old.store }
        ensures shape { self.new.shape ≡ self.old.shape }
        ensures regions { self.new.regions ≡ self.old.regions }
        ensures lists { self.new.lists ≡ self.old.lists }
        ensures counts { self.new.counts ≡ self.old.counts }
    {
        let limits = limits_of(self.shape);
        match judge(limits, self.luns, &self.tasks, bytes) {
            Verdict::Keep(task) => {
                self.tasks.push(task);
                Sent::Nothing
            }
            Verdict::Data(segment) => {
                self.take_data(segment);
                Sent::Nothing
            }
            Verdict::Answer(reply) => {
                put_reply(reply, out);
                Sent::Upiu
            }
            Verdict::End(reply) => {
                end_head(&mut self.tasks, &mut self.held);
                put_reply(reply, out);
                Sent::Upiu
            }
        }
    }

    /// Adds data that have come for the head.
    fn take_data(&mut self, segment: &[u8])
        requires { (upiu : Upiu) × TakesPiece self.old.tasks upiu segment.now }
        ensures taken { TakesData self.old self.new segment.now }
        ensures store { self.new.store ≡ self.old.store }
        ensures shape { self.new.shape ≡ self.old.shape }
        ensures regions { self.new.regions ≡ self.old.regions }
        ensures lists { self.new.lists ≡ self.old.lists }
        ensures counts { self.new.counts ≡ self.old.counts }
    {
        if let Some(task) = head_of(&self.tasks) {
            self.held.extend_from_slice(segment).unwrap();
            keep_head(&mut self.tasks, task.with_data(segment.len() as u32));
        }
    }

    /// One step. It makes at most one call of the chip and sends at most one UPIU, in `out`.
    ///
    /// While the chip is scanned a page is read; where the chip fails, the head task ends. On a foreign chip the head
    /// task ends. On a ready one the head task goes on.
    pub fn step(&mut self, out: &mut UpiuBuf) -> Stepped
        ensures stands { (first : First) (e : History) → DeviceStands self.old first e
            → DeviceStands self.new first (followed_by e (events_of (group_of result out.new))) }
        ensures foreign { (chip : List Page) (first : First) (e : History) → DeviceStandsForeign self.old chip first e
            → DeviceStandsForeign self.new chip first (followed_by e (events_of (group_of result out.new))) }
        ensures entries { (first : First) (e : History) → DeviceStands self.old first e → EntriesStand self.old e
            → EntriesStand self.new (followed_by e (events_of (group_of result out.new))) }
        ensures listings { (had : Place → Bool) (pages : ℕ) (first : First) (e : History)
            → DeviceStands self.old first e → ListingStands had pages self.old e
            → ListingStands had pages self.new (followed_by e (events_of (group_of result out.new))) }
        ensures hints { (e : History) → KeepsHistory self.old e → HintsStand self.old e
            → HintsStand self.new (followed_by e (events_of (group_of result out.new))) }
        ensures fetched { (e : History) → KeepsHistory self.old e → ListsStand self.old e
            → ListsStand self.new (followed_by e (events_of (group_of result out.new))) }
        ensures counted { (first : First) (e : History) → DeviceStands self.old first e → EntriesStand self.old e
            → ListsStand self.old e → CountsStand self.old e
            → CountsStand self.new (followed_by e (events_of (group_of result out.new))) }
        ensures idle { IsTrue result.idle ↔ IsIdle self.old }
        ensures nothing { IsTrue result.idle → result ≡ at_rest }
        ensures unchanged { IsTrue result.idle → self.new ≡ self.old }
        ensures looked { IsTrue result.idle → unscanned self.old ≡ 0 }
        ensures steps { Steps self.old self.new result out.new }
        ensures fewer { OnFalse result.idle (LeavesFewer self.old self.new result) }
        ensures shape { self.new.shape ≡ self.old.shape }
    {
        match self.store.phase() {
            Phase::Scanning => self.scan(out),
            Phase::Ready => self.advance_head(out),
            Phase::Foreign => self.refuse_head(out),
        }
    }

    /// Reads the next page of the scan.
    fn scan(&mut self, out: &mut UpiuBuf) -> Stepped
        requires scanning { self.old.store.phase ≡ Phase.Scanning }
        requires stands { IsStanding self.old.store }
        ensures scans { Scans self.old self.new result out.new }
        ensures fewer { LeavesFewer self.old self.new result }
        ensures shape { self.new.shape ≡ self.old.shape }
    {
        self.counts = self.counts.stepped();
        match self.store.scan_step() {
            Ok(_) => Stepped::new(None, None, false),
            Err(Failed) => {
                unread_list(&mut self.lists, &self.tasks);
                end_unread(&mut self.tasks, &mut self.held, Some(ChipOp::Read), out)
            }
        }
    }

    /// Goes on with the head on a ready chip.
    fn advance_head(&mut self, out: &mut UpiuBuf) -> Stepped
        requires ready { self.old.store.phase ≡ Phase.Ready }
        requires stands { IsStanding self.old.store }
        ensures idle { IsTrue result.idle ↔ AtRest self.old }
        ensures nothing { IsTrue result.idle → result ≡ at_rest }
        ensures unchanged { IsTrue result.idle → self.new ≡ self.old }
        ensures goes { OnFalse result.idle (GoesOn self.old self.new result out.new) }
        ensures fewer { OnFalse result.idle (steps_left self.new < steps_left self.old) }
        ensures shape { self.new.shape ≡ self.old.shape }
    {
        let Some(task) = head_of(&self.tasks) else {
            return Stepped::idle();
        };
        if task.waits_for_data() {
            return Stepped::idle();
        }
        let limits = limits_of(self.shape);
        let entry = next_entry(&self.lists, task);
        let progress = advance(&mut self.store, &mut self.held, task, entry, limits, out);
        step_list(&mut self.lists, task, progress, &self.held);
        let counts = self.counts.after(progress);
        self.counts = counts;
        let hint = take_progress(&mut self.regions, task, progress);
        leave(progress, hint, &mut self.tasks, &mut self.held, out)
    }

    /// Ends the head on a foreign chip.
    fn refuse_head(&mut self, out: &mut UpiuBuf) -> Stepped
        requires foreign { self.old.store.phase ≡ Phase.Foreign }
        requires stands { IsStanding self.old.store }
        ensures idle { IsTrue result.idle ↔ (self.old.tasks ≡ []) }
        ensures nothing { IsTrue result.idle → result ≡ at_rest }
        ensures unchanged { IsTrue result.idle → self.new ≡ self.old }
        ensures refuses { OnFalse result.idle (Refuses self.old self.new result out.new) }
        ensures fewer { OnFalse result.idle (steps_left self.new < steps_left self.old) }
        ensures shape { self.new.shape ≡ self.old.shape }
    {
        if self.tasks.is_empty() {
            return Stepped::idle();
        }
        self.counts = self.counts.stepped();
        unread_list(&mut self.lists, &self.tasks);
        end_unread(&mut self.tasks, &mut self.held, None, out)
    }

    /// One step of the collector, whether it is needed or not. It makes at most one call of the chip and sends nothing.
    ///
    /// It is idle while the chip is scanned, on a foreign chip, where no sequence number is left, and where each full
    /// erase block holds current pages alone.
    pub fn collect(&mut self) -> Stepped
        ensures stands { (first : First) (e : History) → DeviceStands self.old first e
            → DeviceStands self.new first (followed_by e (events_of (group_of result []))) }
        ensures foreign { (chip : List Page) (first : First) (e : History) → DeviceStandsForeign self.old chip first e
            → DeviceStandsForeign self.new chip first (followed_by e (events_of (group_of result []))) }
        ensures entries { (e : History) → EntriesStand self.old e
            → EntriesStand self.new (followed_by e (events_of (group_of result []))) }
        ensures listings { (had : Place → Bool) (pages : ℕ) (e : History) → ListingStands had pages self.old e
            → ListingStands had pages self.new (followed_by e (events_of (group_of result []))) }
        ensures hints { (e : History) → HintsStand self.old e
            → HintsStand self.new (followed_by e (events_of (group_of result []))) }
        ensures fetched { (e : History) → ListsStand self.old e
            → ListsStand self.new (followed_by e (events_of (group_of result []))) }
        ensures counted { (e : History) → CountsStand self.old e
            → CountsStand self.new (followed_by e (events_of (group_of result []))) }
        ensures nothing { IsTrue result.idle → result ≡ at_rest }
        ensures unready { self.old.store.phase ≢ Phase.Ready → IsTrue result.idle × (self.new ≡ self.old) }
        ensures sound { self.old.store.phase ≡ Phase.Ready → IsSound self.old }
        ensures unchanged { IsTrue result.idle → self.new ≡ self.old }
        ensures collects { Collects self.old self.new result }
        ensures fewer { OnFalse result.idle (result.failed ≡ None → uncollected_in self.new < uncollected_in self.old) }
        ensures most { self.old.store.phase ≡ Phase.Ready → uncollected_in self.old
            ≤ 2 * self.old.store.geometry.pages * (self.old.store.geometry.blocks * self.old.store.geometry.pages) }
        ensures none_left { self.old.store.phase ≡ Phase.Ready → uncollected_in self.old ≡ 0
            → (next_seq self.old.store.pages ≡ 2 ^ 62) ⊎ AreCollected self.old.store.geometry self.old.store.pages }
        ensures rests { IsTrue result.idle → self.old.store.phase ≡ Phase.Ready → uncollected_in self.old ≡ 0 }
        ensures over { self.old.store.phase ≡ Phase.Ready → result.failed ≡ None → uncollected_in self.new ≡ 0
            → (next_seq self.new.store.pages ≡ 2 ^ 62) ⊎ AreCollected self.new.store.geometry self.new.store.pages }
        ensures left { KeepsNoWrite self.old.tasks → steps_left self.new ≡ steps_left self.old }
        ensures shape { self.new.shape ≡ self.old.shape }
    {
        match self.store.phase() {
            Phase::Ready => {}
            _ => return Stepped::idle(),
        }
        match self.store.collect_step() {
            Ok(Moved::Idle) => Stepped::idle(),
            Ok(Moved::Read) => Stepped::new(None, None, false),
            Ok(Moved::Page(lun, lba)) => {
                self.counts = self.counts.after_moved(Moved::Page(lun, lba));
                take_moved(&mut self.regions, Moved::Page(lun, lba));
                Stepped::new(None, Some((lun, lba)), false)
            }
            Ok(Moved::Erased(block)) => {
                self.counts = self.counts.after_moved(Moved::Erased(block));
                Stepped::new(None, None, false)
            }
            Err(op) => Stepped::new(Some(op), None, false),
        }
    }

    /// Drops all tasks and all lists of entries, and begins to scan the chip anew. The chip and the counts stay.
    pub fn reset(&mut self)
        ensures reset { self.new ≡ reset_of self.old }
        ensures stands { (first : First) (e : History) → DeviceStands self.old first e
            → DeviceStands self.new first (e ▹ Reset) }
        ensures foreign { (chip : List Page) (first : First) (e : History) → DeviceStandsForeign self.old chip first e
            → DeviceStandsForeign self.new chip first (e ▹ Reset) }
        ensures entries { (e : History) → EntriesStand self.old e → EntriesStand self.new (e ▹ Reset) }
        ensures listings { (had : Place → Bool) (pages : ℕ) (e : History) → ListingStands had pages self.old e
            → ListingStands had pages self.new (e ▹ Reset) }
        ensures hints { (e : History) → HintsStand self.old e → HintsStand self.new (e ▹ Reset) }
        ensures fetched { (e : History) → ListsStand self.old e → ListsStand self.new (e ▹ Reset) }
        ensures counted { (e : History) → CountsStand self.old e → CountsStand self.new (e ▹ Reset) }
        ensures left { steps_left self.new ≡ self.old.store.geometry.blocks * self.old.store.geometry.pages }
    {
        reset_all(&mut self.regions);
        self.lists.clear();
        self.tasks.clear();
        self.held.clear();
        self.store.reset();
    }

    /// What was counted since the device was made.
    pub fn counts(&self) -> Counts
        ensures { result ≡ self.now.counts }
    {
        self.counts
    }

    /// What the device needs to go on.
    pub fn waits(&self) -> Waits
        ensures nothing { (result ≡ Waits.Nothing) ↔ (self.now.tasks ≡ []) }
        ensures rest { (result ≡ Waits.Step) ↔ ¬ AtRest self.now }
        ensures host { result ≡ Waits.Host → self.now.store.phase ≡ Phase.Ready }
        ensures left { result ≡ Waits.Step → 0 < steps_left self.now }
        ensures few { (first : First) (e : History) → DeviceStands self.now first e
            → steps_left self.now ≤ enough (sizes_of self.now) (tasks_after (sizes_of self.now) e) }
    {
        match head_of(&self.tasks) {
            None => Waits::Nothing,
            Some(task) => {
                if task.waits_for_data() {
                    Waits::Host
                } else {
                    Waits::Step
                }
            }
        }
    }
}

/// Leaves the tasks as a step of the first one has them, and answers it where it is over, with this hint where that is
/// GOOD.
fn leave(
    progress: Progress,
    hint: Option<Hint>,
    tasks: &mut ArrayVec<Task, TASKS>,
    held: &mut Vec<u8>,
    out: &mut UpiuBuf,
) -> Stepped
    requires some { 0 < length tasks.old.items }
    requires writable { IfSome hint IsHint }
    ensures leaves { Leaves progress (hint_segment hint) (drop 1 tasks.old.items) tasks.new.items held.new.items result
        out.new }
    ensures stays { Stays progress held.old.items held.new.items out.old out.new }
    ensures room { vec_capacity held.new ≡ vec_capacity held.old }
{
    match progress {
        Progress::Sends(_, rest) => {
            keep_head(tasks, rest);
            Stepped::new(None, None, true)
        }
        Progress::Silent(Internal::Collected(moved), rest) => {
            keep_head(tasks, rest);
            Stepped::new(None, place_moved(moved), false)
        }
        Progress::Silent(_, rest) => {
            keep_head(tasks, rest);
            Stepped::new(None, None, false)
        }
        Progress::Ended(reply) => {
            end_head(tasks, held);
            put_told(reply, hint, out);
            Stepped::new(None, None, true)
        }
        Progress::Failed(call, reply) => {
            end_head(tasks, held);
            put_reply(reply, out);
            Stepped::new(Some(call.op()), None, true)
        }
    }
}

/// Answers the head, if there is one, that the chip could not be read, and tells the call that failed.
fn end_unread(
    tasks: &mut ArrayVec<Task, TASKS>,
    held: &mut Vec<u8>,
    failed: Option<ChipOp>,
    out: &mut UpiuBuf,
) -> Stepped
    requires less { HaveMovedLess tasks.old.items }
    requires held { held.old.items ≡ [] }
    ensures ends { EndsUnread failed tasks.old.items tasks.new.items result out.new }
    ensures held { held.new.items ≡ [] }
    ensures room { vec_capacity held.new ≡ vec_capacity held.old }
{
    let Some(task) = head_of(tasks) else {
        return Stepped::new(failed, None, false);
    };
    end_head(tasks, held);
    put_reply(check(task, Cause::ChipFailed), out);
    Stepped::new(failed, None, true)
}

/// The logical unit and the LBA of the block that the collector programmed anew.
fn place_moved(moved: Moved) -> Option<(u8, u32)>
    ensures { result ≡ moved_by moved }
{
    match moved {
        Moved::Page(lun, lba) => Some((lun, lba)),
        _ => None,
    }
}

/// The limits within which a CDB is read, in blocks.
fn limits_of(shape: Shape) -> Limits
    requires { IsWithinLimits shape }
    ensures { result ≡ limits_of shape }
{
    Limits {
        units: u64::from(shape.units),
        per_region: 1 << (shape.region_exp - 3),
        per_sub: 1 << (shape.sub_exp - 3),
    }
}
