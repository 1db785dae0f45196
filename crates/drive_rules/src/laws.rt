//! What holds of all drives. Each function does nothing: its contract is the law.
ghost use Rattle.std.specs.Prelude.{◌≡◌, ℕ, Bool, true, false, List};
ghost use Rattle.region_state.specs.declared.shape.Shape.{Shape};
ghost use Rattle.flat_unit.specs.Causes.{Caused, failures};
ghost use Rattle.flat_unit.specs.Contents.{Block};
ghost use Rattle.flat_unit.specs.Sizes.{Sizes};
ghost use Rattle.flat_unit.specs.Sound.{SoundSoFar};
ghost use Rattle.driver_laws.specs.Fits.{Serves};
ghost use Rattle.driver_laws.specs.Flat.{flat_of};
ghost use Rattle.driver_laws.specs.Laws.{AllGoodOrCut};
ghost use Rattle.driver_caches.specs.Machine.{Machine, machine_begun};
ghost use Rattle.trace_text.specs.declared.drive.DriveLine.{DriveLine};
ghost use Rattle.drive_rules.specs.Cached.{HasShape};
ghost use Rattle.drive_rules.specs.FlatLines.{flat_given, outside_of, requests_of};
ghost use Rattle.drive_rules.specs.Lines.{Drive, Drives};
ghost use Rattle.drive_rules.specs.Tame.{IsGoodDrive};
ghost use Rattle.drive_rules.specs.Told.{IsTold};

/// Where each answer of a drive is GOOD, with or without caches, the answers are those of a flat unit to its lines, and
/// the requests out of range are those that the lines say.
pub fn drive_is_flat()
    ensures { (s : Sizes) (shape : Shape) (plain : Bool) (u : List Block) (lines : List DriveLine) (d : Drive)
        → Serves s → HasShape s shape → IsGoodDrive s u (machine_begun plain shape s.luns) lines d
        → (d.answers ≡ flat_given s (flat_of s u) (requests_of s 0 0 lines)) × (d.outside ≡ outside_of s 0 0 lines) }
{}

/// A drive with HPB and one without it give the same answers to the same lines, where each is GOOD.
pub fn hpb_changes_no_answer()
    ensures { (s : Sizes) (shape : Shape) (u : List Block) (lines : List DriveLine) (a b : Drive)
        → Serves s → HasShape s shape → IsGoodDrive s u (machine_begun true shape s.luns) lines a
        → IsGoodDrive s u (machine_begun false shape s.luns) lines b
        → (a.answers ≡ b.answers) × (a.outside ≡ b.outside) }
{}

/// Where no call of the chip failed, each request of a drive that was taken is answered GOOD or is cut by a reset, but
/// for writes that find the sequence numbers used up.
pub fn good_where_nothing_failed()
    ensures { (s : Sizes) (shape : Shape) (plain : Bool) (u : List Block) (next : ℕ) (lines : List DriveLine)
        (d : Drive) → Serves s → HasShape s shape → Drives s (machine_begun plain shape s.luns) lines d
        → SoundSoFar s u d.progress.events → Caused s ⊥ next d.progress.events → failures d.progress.events ≡ 0
        → AllGoodOrCut d.answers }
{}

/// What a drive says are its events, the ends of its requests and the numbers of those that were out of range, each in
/// order.
pub fn drives_are_told()
    ensures { (s : Sizes) (machine : Machine) (lines : List DriveLine) (d : Drive)
        → Drives s machine lines d → IsTold d }
{}
