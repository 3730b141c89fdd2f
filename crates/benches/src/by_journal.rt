// Records appended by a journal, and read again.
ghost use Rattle.std.specs.Prelude.{IfOk};
ghost use Rattle.sand_journal.specs.Images.{IsShort};
ghost use Rattle.sand_journal.specs.Journal.{IsReading, IsReady};
ghost use Rattle.benches.specs.Untold.{untold};

use crate::plain_tape::PlainTape;
use crate::sample::body;
use sand_journal::{Journal, JournalFault, Record, Tape};
use std::alloc::Global;

// The journal of a tape.
fn opened(mut tape: PlainTape) -> Result<Journal<PlainTape>, JournalFault>
    ensures { IfOk result (λ journal. IsReading untold journal) }
{
    tape.start("journal")?;
    match Journal::open(tape) {
        Ok(journal) => Ok(journal),
        Err((fault, _tape)) => Err(fault),
    }
}

// The journal of a new tape.
fn new_journal(alloc: Global) -> Result<Journal<PlainTape>, JournalFault>
    ensures { IfOk result (λ journal. IsReady untold journal) }
{
    let mut journal = opened(PlainTape::new(alloc))?;
    match journal.next(alloc)? {
        None => Ok(journal),
        Some(change) => {
            drop(change);
            Err(JournalFault::Bad { number: 1 })
        }
    }
}

// Reads a journal to its end, and says how many records that were.
fn read_on<T: Tape>(alloc: Global, journal: &mut Journal<T>) -> Result<u32, JournalFault> {
    'records: for count in 0..u32::MAX {
        match journal.next(alloc)? {
            Some(change) => drop(change),
            None => return Ok(count),
        }
    }
    Ok(u32::MAX)
}

// Appends a record so many times, where there is room.
fn append_all<T: Tape>(
    journal: &mut Journal<T>,
    entry: &Record,
    count: u32,
) -> Result<(), JournalFault>
    requires ready { IsReady T.seen journal.old }
    requires short { IsShort entry.now }
{
    'records: for _ in 0..count {
        if journal.end() > 1 << 40 {
            break;
        }
        journal.append(entry)?;
    }
    Ok(())
}

/// Appends so many records to a new tape.
pub fn append(alloc: Global, count: u32) -> Result<PlainTape, JournalFault> {
    let entry = Record::with_body(alloc, &body())?;
    let mut journal = new_journal(alloc)?;
    append_all(&mut journal, &entry, count)?;
    Ok(journal.into_tape())
}

/// Reads the records of a tape, and says how many they are.
pub fn read(alloc: Global, tape: PlainTape) -> Result<u32, JournalFault> {
    let mut journal = opened(tape)?;
    read_on(alloc, &mut journal)
}
