// A journal read from its first record to its end.
ghost use Rattle.std.specs.Prelude.{◌≡◌, true, IfSome};

use sand_base::NoMemory;
use sand_journal::{Journal, JournalFault, MemTape, Tape};
use std::alloc::{AllocError, AllocFailed, Global};

/// Why a table doesn't hold.
#[derive(Drop)]
pub enum Trouble {
    /// Memory was short.
    Memory,
    /// What was tried by this number came out otherwise.
    Differs { tried: u32 },
}

impl From<NoMemory> for Trouble {
    fn from(_: NoMemory) -> Self {
        Trouble::Memory
    }
}

impl From<AllocError> for Trouble {
    fn from(_: AllocError) -> Self {
        Trouble::Memory
    }
}

impl<T: Drop> From<AllocFailed<T>> for Trouble {
    fn from(_: AllocFailed<T>) -> Self {
        Trouble::Memory
    }
}

/// How many records a file has, where they end, and the number of the bad one.
#[derive(Clone, Copy, PartialEq, Eq)]
pub struct Found {
    pub count: u32,
    pub end: u64,
    pub bad: u32,
}

/// A tape of these bytes, started. A call fails where the list has its number.
pub fn started(alloc: Global, bytes: Vec<u8>, fails: Vec<u64>) -> Option<MemTape>
    ensures { IfSome result (λ tape. tape.started ≡ true) }
{
    let mut tape = MemTape::new(alloc, bytes, fails);
    match tape.start("j") {
        Ok(()) => Some(tape),
        Err(_) => None,
    }
}

// Reads a journal to its end.
fn read_on(alloc: Global, journal: &mut Journal<MemTape>) -> Result<Found, NoMemory> {
    let mut count = 0u32;
    'records: for _ in 0..1_000u32 {
        match journal.next(alloc) {
            Ok(Some(change)) => {
                drop(change);
                count = count.saturating_add(1);
            }
            Ok(None) => break,
            Err(JournalFault::Bad { number }) => {
                return Ok(Found {
                    count,
                    end: journal.end(),
                    bad: number,
                });
            }
            Err(_) => return Err(NoMemory {}),
        }
    }
    Ok(Found {
        count,
        end: journal.end(),
        bad: 0,
    })
}

/// Reads the journal of a file.
pub fn read_all(alloc: Global, bytes: Vec<u8>) -> Result<Found, NoMemory> {
    let Some(tape) = started(alloc, bytes, Vec::new(alloc)) else {
        return Err(NoMemory {});
    };
    match Journal::open(tape) {
        Ok(mut journal) => read_on(alloc, &mut journal),
        Err(_) => Err(NoMemory {}),
    }
}
