//! What holds of all drives. Each function does nothing: its contract is the law.
ghost use Rattle.std.specs.Prelude.{◌≡◌, ◌++◌, ℕ, List, []};
ghost use Rattle.flat_unit.specs.declared.event.Event.TheVariants.{Device};
ghost use Rattle.flat_unit.specs.Causes.{Caused, failures};
ghost use Rattle.flat_unit.specs.Contents.{Block};
ghost use Rattle.flat_unit.specs.History.{◌▹◌};
ghost use Rattle.flat_unit.specs.Sizes.{Sizes};
ghost use Rattle.flat_unit.specs.Sound.{SoundSoFar};
ghost use Rattle.driver_laws.specs.Deliver.{delivered};
ghost use Rattle.driver_laws.specs.Drive.{Turn, moment_after};
ghost use Rattle.driver_laws.specs.Fits.{AllGood, Fits, MayLead, Serves, numbers_answered, numbers_asked};
ghost use Rattle.driver_laws.specs.Flat.{flat_answers, flat_of};
ghost use Rattle.driver_laws.specs.Laws.{AllGoodOrCut, AreFlat, IsTaken, numbered};

/// The commands that a driver has sent are the tasks that its device keeps, in the same order, each at the same point.
/// The device owes no reply to them.
pub fn commands_are_tasks()
    ensures { (s : Sizes) (u : List Block) (turns : List Turn) → Serves s → MayLead s turns
        → SoundSoFar s u (moment_after s turns).events
        → Fits s (moment_after s turns).opens (moment_after s turns).events }
{}

/// A driver takes whatever its device sends next.
pub fn deliver_gives_no_fault()
    ensures { (s : Sizes) (u : List Block) (turns : List Turn) (bytes : List ℕ) → Serves s → MayLead s turns
        → SoundSoFar s u ((moment_after s turns).events ▹ Device bytes)
        → IsTaken (delivered s (moment_after s turns).opens bytes) }
{}

/// Requests end in order of submission: those that ended are the first that were asked for, the others are open.
pub fn requests_end_in_order()
    ensures { (s : Sizes) (u : List Block) (turns : List Turn) → Serves s → MayLead s turns
        → SoundSoFar s u (moment_after s turns).events
        → numbers_asked (moment_after s turns).asked
        ≡ numbers_answered (moment_after s turns).answers ++ numbers_asked (moment_after s turns).callers }
{}

/// Where each answer so far is GOOD, they are those of the flat unit to the first requests, whichever way each read
/// went out.
pub fn answers_are_flat()
    ensures { (s : Sizes) (u : List Block) (turns : List Turn) → Serves s → MayLead s turns
        → SoundSoFar s u (moment_after s turns).events → AllGood (moment_after s turns).answers
        → AreFlat s u (moment_after s turns) }
{}

/// Where no request is open any more, they are those to all requests.
pub fn all_answers_are_flat()
    ensures { (s : Sizes) (u : List Block) (turns : List Turn) → Serves s → MayLead s turns
        → SoundSoFar s u (moment_after s turns).events → AllGood (moment_after s turns).answers
        → (moment_after s turns).callers ≡ []
        → (moment_after s turns).answers ≡ flat_answers s (flat_of s u) (moment_after s turns).asked }
{}

/// Two drives of the same requests have the same answers, whatever went out for them, where each answer is GOOD and no
/// request is open any more.
pub fn same_requests_have_same_answers()
    ensures { (s : Sizes) (u : List Block) (one two : List Turn) → Serves s → MayLead s one → MayLead s two
        → SoundSoFar s u (moment_after s one).events → SoundSoFar s u (moment_after s two).events
        → AllGood (moment_after s one).answers → AllGood (moment_after s two).answers
        → (moment_after s one).callers ≡ [] → (moment_after s two).callers ≡ []
        → numbered (moment_after s one).asked ≡ numbered (moment_after s two).asked
        → (moment_after s one).answers ≡ (moment_after s two).answers }
{}

/// Where no call of the chip failed, each request that ended was answered GOOD or was cut by a reset, or was told that
/// no sequence number is left.
pub fn good_where_nothing_failed()
    ensures { (s : Sizes) (u : List Block) (next : ℕ) (turns : List Turn) → Serves s → MayLead s turns
        → SoundSoFar s u (moment_after s turns).events → Caused s ⊥ next (moment_after s turns).events
        → failures (moment_after s turns).events ≡ 0 → AllGoodOrCut (moment_after s turns).answers }
{}
