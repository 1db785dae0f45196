//! What holds of all histories. Each function does nothing: its contract is the law.
ghost use Rattle.std.specs.Prelude.{◌≡◌, ◌<◌, ◌≤◌, ◌+◌, ◌^◌, ℕ, Bool, true, IsTrue, List, [], ◌∷◌, Some, length, map};
ghost use Rattle.std.specs.Prelude.{slice_range};
ghost use Rattle.flash_pages.specs.Place.{Place};
ghost use Rattle.hpb_cdb.specs.Cdb.{needed_by};
ghost use Rattle.hpb_cdb.specs.declared.cdb.Cdb.{Cdb};
ghost use Rattle.hpb_cdb.specs.declared.cdb.Cdb.TheVariants.{Write};
ghost use Rattle.upiu_wire.specs.WireFault.{number_of, wire_fault_of};
ghost use Rattle.upiu_wire.specs.Written.{reject_upiu};
ghost use Rattle.upiu_wire.specs.declared.fault.WireFault.{WireFault};
ghost use Rattle.flat_unit.specs.declared.event.Event.{Event};
ghost use Rattle.flat_unit.specs.declared.event.Event.TheVariants.{Device};
ghost use Rattle.flat_unit.specs.Causes.{Caused};
ghost use Rattle.flat_unit.specs.Command.{needed};
ghost use Rattle.flat_unit.specs.Contents.{Block, Shown, candidates, is_among, leaving, offset_in, shown};
ghost use Rattle.flat_unit.specs.History.{History, ◌▹◌};
ghost use Rattle.flat_unit.specs.Laws.{NoneCut, ChangesNothing, FirstAlone, HaveRoom, IsRejectedFor, MovedAll};
ghost use Rattle.flat_unit.specs.Laws.{places_from, shown_by_first};
ghost use Rattle.flat_unit.specs.Print.{print};
ghost use Rattle.flat_unit.specs.Queue.{at_rest, tasks_after};
ghost use Rattle.flat_unit.specs.Reads.{DrainsReads, ReadsAllowed, ReadsEndGood, ReadsWait};
ghost use Rattle.flat_unit.specs.Replays.{Progress, Replays};
ghost use Rattle.flat_unit.specs.Reply.{fault_rejection, reply_of};
ghost use Rattle.flat_unit.specs.Sizes.{Sizes, limits_of};
ghost use Rattle.flat_unit.specs.Sound.{SoundSoFar};
ghost use Rattle.flat_unit.specs.Task.{Task};
ghost use Rattle.flat_unit.specs.Tasks.{IsQueue};
ghost use Rattle.flat_unit.specs.Trace.{Line};
ghost use Rattle.flat_unit.specs.Work.{ReadsBlocks, work_of};

/// No two kept tasks have one tag, those behind the first have moved nothing, and each is one that the unit has.
pub fn kept_tasks()
    ensures { (s : Sizes) (e : History) → IsQueue s (tasks_after s e) }
{}

/// Tasks end in order of acceptance: what the device sends ends the first task at most.
pub fn order_of_ends()
    ensures { (s : Sizes) (u : List Block) (e : History) (bytes : List ℕ)
        → SoundSoFar s u (e ▹ Device bytes) → FirstAlone (tasks_after s e) (leaving (tasks_after s e) (Device bytes)) }
{}

/// A task that is answered GOOD has moved all its bytes.
pub fn good_moves_all()
    ensures { (s : Sizes) (u : List Block) (e : History) (bytes : List ℕ) (task : Task)
        → SoundSoFar s u (e ▹ Device bytes)
        → leaving (tasks_after s e) (Device bytes) ≡ record { task = task; good = true } ∷ []
        → MovedAll s task }
{}

/// At each place some block is allowed.
pub fn some_block_is_allowed()
    ensures { (s : Sizes) (u : List Block) (e : History) (p : Place) → 0 < length (candidates s u e p) }
{}

/// After a write was answered GOOD each of its places has its block alone.
pub fn good_write_stands_alone()
    ensures { (s : Sizes) (u : List Block) (e : History) (bytes : List ℕ) (task : Task) (lba n : ℕ) (p : Place)
        → SoundSoFar s u (e ▹ Device bytes)
        → leaving (tasks_after s e) (Device bytes) ≡ record { task = task; good = true } ∷ []
        → task.command ≡ Write lba n → is_among task.lun lba n p ≡ true
        → candidates s u (e ▹ Device bytes) p ≡ slice_range task.come (offset_in s lba p) (offset_in s lba p + s.block)
        ∷ [] }
{}

/// What a read has shown stands alone.
pub fn shown_block_stands_alone()
    ensures { (s : Sizes) (u : List Block) (e : History) (x : Event) (w : Shown)
        → shown s (tasks_after s e) x ≡ Some w → candidates s u (e ▹ x) w.place ≡ w.block ∷ [] }
{}

/// Bytes of the host, collection, failed calls and what a query request does change no block.
pub fn other_events_change_no_block()
    ensures { (s : Sizes) (u : List Block) (e : History) (x : Event) (p : Place)
        → ChangesNothing x → candidates s u (e ▹ x) p ≡ candidates s u e p }
{}

/// The bytes that a command gives and takes are those that it needs.
pub fn given_and_taken()
    ensures { (s : Sizes) (command : Cdb) → s.block ≡ 4096 → needed s command ≡ needed_by (limits_of s) command }
{}

/// Two different histories have different texts.
pub fn texts_tell_histories()
    ensures { (e f : History) → HaveRoom e → HaveRoom f → print e ≡ print f → e ≡ f }
{}

/// A READ(10) or HPB READ that is answered GOOD has sent exactly its blocks, in order.
pub fn good_read_is_in_order()
    ensures { (s : Sizes) (u : List Block) (e : History) (bytes : List ℕ) (task : Task) (lba n : ℕ)
        → 0 < s.block → s.block < 2 ^ 16 → SoundSoFar s u (e ▹ Device bytes)
        → leaving (tasks_after s e) (Device bytes) ≡ record { task = task; good = true } ∷ []
        → work_of task.command ≡ ReadsBlocks lba n
        → map (λ (w : Shown). w.place) (shown_by_first s e) ≡ places_from task.lun lba n }
{}

/// Each DATA IN of a read carries a block that is allowed at its place just before it.
pub fn reads_are_allowed()
    ensures { (s : Sizes) (u : List Block) (e : History) → SoundSoFar s u e → ReadsAllowed s u e }
{}

/// Each RESPONSE that ends a READ(10) or HPB READ is GOOD, unless a failed read of the chip stands directly before it.
pub fn reads_end_good()
    ensures { (s : Sizes) (u : List Block) (next : ℕ) (e : History)
        → SoundSoFar s u e → Caused s ⊥ next e → ReadsEndGood s e }
{}

/// Once nothing can go on without the host, no read is kept but behind a task that waits for data.
pub fn drained_reads_are_over()
    ensures { (s : Sizes) (u : List Block) (e : History)
        → SoundSoFar s u e → IsTrue (at_rest (tasks_after s e)) → ReadsWait (tasks_after s e) }
{}

/// After each drain of a trace no read goes on.
pub fn each_drain_ends_reads()
    ensures { (s : Sizes) (u : List Block) (lines : List Line) (p now : Progress)
        → Replays s lines p now → SoundSoFar s u now.events → DrainsReads s lines p now }
{}

/// Bytes that are no UPIU are answered by REJECT with the number of the first condition that they break, and a
/// REJECT with one of these six numbers answers nothing else.
pub fn rejects_what_is_no_upiu()
    ensures all { (s : Sizes) (on : Bool) (tasks : List Task) (bytes : List ℕ) (fault : WireFault)
        → wire_fault_of bytes ≡ Some fault
        → reply_of s on tasks bytes ≡ Some (fault_rejection bytes (number_of fault)) }
    ensures only { (s : Sizes) (on : Bool) (tasks : List Task) (bytes : List ℕ) (lun tag reason : ℕ)
        → reason ≤ 6 → reply_of s on tasks bytes ≡ Some (reject_upiu lun tag reason) → IsRejectedFor bytes reason }
{}

/// Where no write was cut, each place has one block.
pub fn one_block_where_none_is_cut()
    ensures { (s : Sizes) (u : List Block) (e : History) (p : Place) → NoneCut s e → length (candidates s u e p) ≡ 1 }
{}
