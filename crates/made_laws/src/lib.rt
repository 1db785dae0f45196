//! How many requests of a drive come to their end. Each function does nothing: its contract is the law.
#![tactic(auto)]

ghost use Rattle.std.specs.Prelude.{◌≡◌, ◌+◌, ◌≤◌, ℕ, Bool, IsPermutation, List, [], length};
ghost use Rattle.std.specs.List.{range_with_len};
ghost use Rattle.region_state.specs.declared.shape.Shape.{Shape};
ghost use Rattle.flat_unit.specs.Sizes.{Sizes};
ghost use Rattle.driver_laws.specs.Fits.{numbers_answered};
ghost use Rattle.driver_caches.specs.Machine.{Machine, machine_begun};
ghost use Rattle.trace_text.specs.declared.drive.DriveLine.{DriveLine};
ghost use Rattle.drive_rules.specs.FlatLines.{requests_of};
ghost use Rattle.drive_rules.specs.Lines.{Drive, Drives};
ghost use Rattle.made_drive.specs.Answers.{cut_in, good_in};
ghost use Rattle.made_drive.specs.Counts.{reads_in, writes_in};
ghost use Rattle.made_drive.specs.Generator.{made_lines};
ghost use Rattle.made_laws.specs.Numbers.{numbers_of};
ghost use Rattle.made_laws.specs.Outcomes.{AllGoodOrCutAlone};

/// Each request of a drive that is in range comes to its end once, whatever the device does: the numbers of the answers
/// are those of these requests, in some order, so there are as many answers, and no caller waits.
pub fn each_request_is_answered()
    ensures numbers { (s : Sizes) (machine : Machine) (lines : List DriveLine) (last : Drive) → machine.opens ≡ []
        → Drives s machine lines last
        → IsPermutation (numbers_of (requests_of s 0 0 lines)) (numbers_answered last.answers) }
    ensures count { (s : Sizes) (machine : Machine) (lines : List DriveLine) (last : Drive) → machine.opens ≡ []
        → Drives s machine lines last → length last.answers ≡ length (requests_of s 0 0 lines) }
    ensures none_waits { (s : Sizes) (machine : Machine) (lines : List DriveLine) (last : Drive) → machine.opens ≡ []
        → Drives s machine lines last → last.callers ≡ [] }
{}

/// A drive that is made from a seed has as many answers as reads and writes, with caches and without: their numbers are
/// those from 1 on, each of them once, so no request is lost, and none is out of range.
pub fn each_made_request_is_answered()
    ensures numbers { (s : Sizes) (shape : Shape) (plain : Bool) (seed count : ℕ) (last : Drive) → 1 ≤ s.luns
        → 1 ≤ s.units → Drives s (machine_begun plain shape s.luns) (made_lines s.units seed count) last
        → IsPermutation
        (range_with_len 1 (reads_in (made_lines s.units seed count) + writes_in (made_lines s.units seed count)))
        (numbers_answered last.answers) }
    ensures count { (s : Sizes) (shape : Shape) (plain : Bool) (seed count : ℕ) (last : Drive) → 1 ≤ s.luns
        → 1 ≤ s.units → Drives s (machine_begun plain shape s.luns) (made_lines s.units seed count) last
        → length last.answers
        ≡ reads_in (made_lines s.units seed count) + writes_in (made_lines s.units seed count) }
{}

/// Where each answer is GOOD or cut, and no other, those that are GOOD and those that were cut are all.
pub fn good_and_cut_are_all()
    ensures any { (s : Sizes) (machine : Machine) (lines : List DriveLine) (last : Drive)
        → Drives s machine lines last → AllGoodOrCutAlone last.answers
        → good_in last.said + cut_in last.said ≡ length last.answers }
    ensures made { (s : Sizes) (shape : Shape) (plain : Bool) (seed count : ℕ) (last : Drive) → 1 ≤ s.luns
        → 1 ≤ s.units → Drives s (machine_begun plain shape s.luns) (made_lines s.units seed count) last
        → AllGoodOrCutAlone last.answers
        → good_in last.said + cut_in last.said
        ≡ reads_in (made_lines s.units seed count) + writes_in (made_lines s.units seed count) }
{}
