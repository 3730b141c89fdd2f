ghost use Rattle.std.specs.Prelude.{◌≡◌};
ghost use Rattle.journal_replay.specs.Declined.{replay_fault};
ghost use Rattle.journal_replay.specs.Replayed.{fault_of_journal};
ghost use Rattle.journal_replay.specs.declared.fault.ReplayFault.TheVariants.{Memory};

use sand_base::{NoMemory, Refusal};
use sand_journal::JournalFault;

/// Why the changes of a journal weren't all carried out.
#[derive(Clone, Copy, Debug, PartialEq, Eq)]
pub enum ReplayFault {
    /// Memory was refused.
    Memory,
    /// The tape failed.
    Tape,
    /// A record is bad, or its change is one that the store doesn't take.
    Bad,
    /// The disk failed.
    Device,
    /// A page that the disk gave is not the one that was written.
    Damaged,
}

impl From<Refusal> for ReplayFault {
    ghost from_gives = { λ refusal why. why ≡ replay_fault refusal };

    fn from(why: Refusal) -> Self {
        match why {
            Refusal::Memory => ReplayFault::Memory,
            Refusal::Device => ReplayFault::Device,
            Refusal::Damaged { .. } => ReplayFault::Damaged,
            _ => ReplayFault::Bad,
        }
    }
}

impl From<JournalFault> for ReplayFault {
    ghost from_gives = { λ fault why. why ≡ fault_of_journal fault };

    fn from(why: JournalFault) -> Self {
        match why {
            JournalFault::Memory => ReplayFault::Memory,
            JournalFault::Failed => ReplayFault::Tape,
            JournalFault::Bad { .. } => ReplayFault::Bad,
        }
    }
}

impl From<NoMemory> for ReplayFault {
    ghost from_gives = { λ _ why. why ≡ Memory };

    fn from(_: NoMemory) -> Self {
        ReplayFault::Memory
    }
}
