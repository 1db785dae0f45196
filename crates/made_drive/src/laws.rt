//! What the made text says, and what the tally of a drive's text is. Each function does nothing: its contract is the
//! law.
ghost use Rattle.std.specs.Prelude.{◌≡◌, ◌-◌, ◌^◌, ◌≤◌, ◌++◌, ℕ, List, Some, true, map, min};
ghost use Rattle.drive_rules.specs.Said.{Said};
ghost use Rattle.drive_rules.specs.Text.{said_text};
ghost use Rattle.trace_text.specs.Drives.{drive_line};
ghost use Rattle.trace_text.specs.Lines.{lines_of};
ghost use Rattle.trace_text.specs.Written.{counts_line};
ghost use Rattle.made_drive.specs.Answers.{cut_in, good_in};
ghost use Rattle.made_drive.specs.Generator.{made_lines};
ghost use Rattle.made_drive.specs.Scan.{scanned};
ghost use Rattle.made_drive.specs.Text.{lines_text};

/// The lines of the text that is made say the lines that were made.
pub fn made_lines_are_said()
    ensures { (units seed count : ℕ) → 1 ≤ units
        → map drive_line (lines_of (lines_text (made_lines units seed count)))
        ≡ map Some (made_lines units seed count) }
{}

/// The text of what a drive said, of answers alone, has as many good answers and as many that were cut as were said, up
/// to 2^32 - 1, and so has that text with the line of the device's counts behind it.
pub fn answers_are_tallied()
    ensures good { (said : List Said) → (scanned (said_text true said)).good ≡ min (good_in said) (2 ^ 32 - 1) }
    ensures cut { (said : List Said) → (scanned (said_text true said)).cut ≡ min (cut_in said) (2 ^ 32 - 1) }
    ensures good_at_end { (said : List Said) (counts : List ℕ)
        → (scanned (said_text true said ++ counts_line counts)).good ≡ min (good_in said) (2 ^ 32 - 1) }
    ensures cut_at_end { (said : List Said) (counts : List ℕ)
        → (scanned (said_text true said ++ counts_line counts)).cut ≡ min (cut_in said) (2 ^ 32 - 1) }
{}
