ghost use Rattle.std.specs.Prelude.{◌≡◌, option_map};
ghost use Rattle.run_words.specs.Journal.{journal_beside};

use sand_base::{Label, NoMemory};
use std::alloc::AllocError;

/// What the words of the command line ask for.
#[derive(Drop)]
pub struct Words {
    /// The number of frames, 16 to 4,096.
    pub frames: u32,
    /// The name of the page file. With none the pages are kept in memory.
    pub store: Option<Label>,
    /// The number of the workload that runs in place of the script, 1 to 100,000.
    pub workload: Option<u32>,
}

/// What the words of a command line ask for that may name a journal.
#[derive(Drop)]
pub struct KeptWords {
    /// What they ask for beside it.
    pub words: Words,
    /// The name of the file in which accepted changes are kept.
    pub journal: Option<Label>,
}

impl KeptWords {
    /// The name of the journal of a script; None where no journal is named, and where a workload runs in place of the
    /// script.
    pub fn journal_of_script(&self) -> Option<&str>
        ensures { option_map (λ t. t.now) result ≡ journal_beside self.now.words.workload self.now.journal }
    {
        if self.words.workload.is_some() {
            return None;
        }
        match &self.journal {
            Some(name) => Some(name.as_str()),
            None => None,
        }
    }
}

/// Why the words ask for nothing.
#[derive(Clone, Copy, Debug, PartialEq, Eq)]
pub enum WordFault {
    /// Memory was refused.
    Memory,
    /// The command doesn't take the words.
    Usage,
}

impl From<AllocError> for WordFault {
    ghost use Rattle.std.specs.Prelude.{◌≡◌};
    ghost use Rattle.run_words.specs.declared.asked.WordFault.TheVariants.{Memory};

    ghost from_gives = { λ _ fault. fault ≡ Memory };

    fn from(_: AllocError) -> Self {
        WordFault::Memory
    }
}

impl From<NoMemory> for WordFault {
    ghost use Rattle.std.specs.Prelude.{◌≡◌};
    ghost use Rattle.run_words.specs.declared.asked.WordFault.TheVariants.{Memory};

    ghost from_gives = { λ _ fault. fault ≡ Memory };

    fn from(_: NoMemory) -> Self {
        WordFault::Memory
    }
}
