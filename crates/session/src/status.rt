ghost use Rattle.std.specs.Prelude.{◌≡◌};
ghost use Rattle.session.specs.Status.{status_code};

/// How a run ended.
#[derive(Clone, Copy, Debug, PartialEq, Eq)]
pub enum Status {
    /// The script was read to its end and no line was refused.
    Done,
    /// The script was read to its end and some line was refused.
    SomeRefused,
    /// The words of the command line are not accepted.
    Usage,
    /// The source of the script failed.
    ReadFault,
    /// The sink of the answers failed.
    WriteFault,
    /// The script has too many bytes.
    ScriptTooLong,
    /// Memory was refused before the first statement.
    NoMemory,
    /// The disk failed before the first statement.
    DiskNotStarted,
    /// The file of the journal failed.
    JournalFault,
    /// A record of the journal is bad, or its change is one that the store doesn't take.
    JournalBad,
    /// The disk failed in the replay.
    ReplayFault,
    /// A page that the disk gave in the replay is not the one that was written.
    ReplayDamaged,
}

impl Status {
    /// The number with which the program ends.
    pub fn code(self) -> u8
        ensures { result ≡ status_code self }
    {
        match self {
            Status::Done => 0,
            Status::SomeRefused => 1,
            Status::Usage => 2,
            Status::ReadFault => 3,
            Status::WriteFault => 4,
            Status::ScriptTooLong => 5,
            Status::NoMemory => 6,
            Status::DiskNotStarted => 7,
            Status::JournalFault => 8,
            Status::JournalBad => 9,
            Status::ReplayFault => 10,
            Status::ReplayDamaged => 11,
        }
    }
}
