ghost use Rattle.std.specs.Prelude.{◌≡◌};
ghost use Rattle.hpb_outside.specs.Faults.{raised};
ghost use Rattle.hpb_device.specs.Counts.{counted, counted_moved, counted_step};

use crate::advance::{FailedCall, Internal, Progress, Transfer};
use flash_store::Moved;

/// What a device has counted since it was made. Each count stops at 2^64 - 1.
#[derive(Clone, Copy, Debug, PartialEq, Eq)]
pub struct Counts {
    /// Steps that weren't idle.
    pub steps: u64,
    /// Look-ups of blocks for READ(10) and HPB READ, also where the chip then failed.
    pub lookups: u64,
    /// Blocks that were read by an entry.
    pub entries: u64,
    /// Pages that the collector programmed anew.
    pub moved: u64,
    /// Erase blocks that were erased.
    pub erased: u64,
}

impl Counts {
    /// Nothing is counted yet.
    pub const ZERO: Counts = Counts {
        steps: 0,
        lookups: 0,
        entries: 0,
        moved: 0,
        erased: 0,
    };

    /// The counts after one more step.
    pub(crate) fn stepped(self) -> Counts
        ensures { result ≡ counted_step self }
    {
        Counts {
            steps: self.steps.saturating_add(1),
            ..self
        }
    }

    /// The counts after one more block was looked up.
    fn looked_up(self) -> Counts
        ensures { result ≡ record self { lookups = raised self.lookups } }
    {
        Counts {
            lookups: self.lookups.saturating_add(1),
            ..self
        }
    }

    /// The counts after a step of the collector.
    pub(crate) fn after_moved(self, moved: Moved) -> Counts
        ensures { result ≡ counted_moved self moved }
    {
        match moved {
            Moved::Idle | Moved::Read => self,
            Moved::Page(..) => Counts {
                moved: self.moved.saturating_add(1),
                ..self
            },
            Moved::Erased(_) => Counts {
                erased: self.erased.saturating_add(1),
                ..self
            },
        }
    }

    /// The counts after a step of the first task.
    pub(crate) fn after(self, progress: Progress) -> Counts
        ensures { result ≡ counted self progress }
    {
        let counts = self.stepped();
        match progress {
            Progress::Sends(Transfer::LookedUp, _) => counts.looked_up(),
            Progress::Failed(FailedCall::MappedRead, _) => counts.looked_up(),
            Progress::Sends(Transfer::ByEntry, _) => Counts {
                entries: counts.entries.saturating_add(1),
                ..counts
            },
            Progress::Silent(Internal::Collected(moved), _) => counts.after_moved(moved),
            _ => counts,
        }
    }
}
