ghost use Rattle.std.specs.Prelude.{◌≡◌};
ghost use Rattle.sand_base.specs.Refusal.{refusal_number, refusal_word};
ghost use Rattle.sand_base.specs.declared.refusal.Refusal.TheVariants.{Memory};

use crate::NoMemory;
use std::alloc::{AllocError, AllocFailed};

/// Why a statement was refused.
#[derive(Clone, Copy, Debug, PartialEq, Eq)]
pub enum Refusal {
    /// Memory was refused. It may come at any statement.
    Memory,
    /// The disk failed.
    Device,
    /// A page that the disk gave is not the one that was written: the page's number, and the SHA-256 digests
    /// of the page written and of the page read.
    Damaged {
        page: u64,
        kept: [u8; 32],
        read: [u8; 32],
    },
    /// A data file could not be read.
    File,
    /// The line has too many bytes.
    LineTooLong,
    /// The line is not of the grammar; the column, in bytes from 1, of its first fault.
    Syntax {
        column: u32,
    },
    /// A number or a length of the line is out of its range.
    Range,
    /// No relation has the name.
    UnknownRelation,
    /// The relation has no such column.
    UnknownColumn,
    /// The kind of a value or of a column is not the one that is asked.
    WrongKind,
    /// A relation or a column has the name already.
    NameTaken,
    /// As many relations are there as there may be.
    TooManyRelations,
    /// The column has no index.
    NoIndex,
    /// The column has an index already.
    IndexThere,
    /// The relation has no row with the id.
    NoSuchId,
    /// A record of a data file is not of the schema: its number and its leftmost bad column, both from 1.
    BadRecord {
        row: u32,
        column: u32,
    },
    /// The data file has too many bytes.
    FileTooLong,
    /// The row's encoding has too many bytes.
    TupleTooLong,
    /// The relation has given out all its ids.
    IdsSpent,
    /// A quadtree would have too many listings.
    IndexFull,
    /// No open cursor has the name.
    UnknownCursor,
    /// An open cursor has the name.
    CursorNameTaken,
    /// As many cursors are open as there may be.
    TooManyCursors,
    /// The plan has too many operators.
    PlanTooDeep,
}

impl Refusal {
    /// The number that a refused line prints.
    pub fn number(&self) -> u8
        ensures { result ≡ refusal_number self.now }
    {
        match self {
            Refusal::Memory => 1,
            Refusal::Device => 2,
            Refusal::Damaged { .. } => 3,
            Refusal::File => 4,
            Refusal::LineTooLong => 5,
            Refusal::Syntax { .. } => 6,
            Refusal::Range => 7,
            Refusal::UnknownRelation => 8,
            Refusal::UnknownColumn => 9,
            Refusal::WrongKind => 10,
            Refusal::NameTaken => 11,
            Refusal::TooManyRelations => 12,
            Refusal::NoIndex => 13,
            Refusal::IndexThere => 14,
            Refusal::NoSuchId => 15,
            Refusal::BadRecord { .. } => 16,
            Refusal::FileTooLong => 17,
            Refusal::TupleTooLong => 18,
            Refusal::IdsSpent => 19,
            Refusal::IndexFull => 20,
            Refusal::UnknownCursor => 21,
            Refusal::CursorNameTaken => 22,
            Refusal::TooManyCursors => 23,
            Refusal::PlanTooDeep => 25,
        }
    }

    /// The word that a refused line prints after the number.
    pub fn word(&self) -> &'static str
        ensures { result.now ≡ refusal_word self.now }
    {
        match self {
            Refusal::Memory => "Memory",
            Refusal::Device => "Device",
            Refusal::Damaged { .. } => "Damaged",
            Refusal::File => "File",
            Refusal::LineTooLong => "LineTooLong",
            Refusal::Syntax { .. } => "Syntax",
            Refusal::Range => "Range",
            Refusal::UnknownRelation => "UnknownRelation",
            Refusal::UnknownColumn => "UnknownColumn",
            Refusal::WrongKind => "WrongKind",
            Refusal::NameTaken => "NameTaken",
            Refusal::TooManyRelations => "TooManyRelations",
            Refusal::NoIndex => "NoIndex",
            Refusal::IndexThere => "IndexThere",
            Refusal::NoSuchId => "NoSuchId",
            Refusal::BadRecord { .. } => "BadRecord",
            Refusal::FileTooLong => "FileTooLong",
            Refusal::TupleTooLong => "TupleTooLong",
            Refusal::IdsSpent => "IdsSpent",
            Refusal::IndexFull => "IndexFull",
            Refusal::UnknownCursor => "UnknownCursor",
            Refusal::CursorNameTaken => "CursorNameTaken",
            Refusal::TooManyCursors => "TooManyCursors",
            Refusal::PlanTooDeep => "PlanTooDeep",
        }
    }
}

impl From<NoMemory> for Refusal {
    ghost from_gives = { λ _ why. why ≡ Memory };

    fn from(_: NoMemory) -> Self {
        Refusal::Memory
    }
}

impl From<AllocError> for Refusal {
    ghost from_gives = { λ _ why. why ≡ Memory };

    fn from(_: AllocError) -> Self {
        Refusal::Memory
    }
}

impl<T: Drop> From<AllocFailed<T>> for Refusal {
    ghost from_gives = { λ _ why. why ≡ Memory };

    fn from(_: AllocFailed<T>) -> Self {
        Refusal::Memory
    }
}
