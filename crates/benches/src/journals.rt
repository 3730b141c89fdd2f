// Records appended by a journal, the same writes and syncs by hand, and records read again.
use crate::{by_hand, by_journal};
use sand_journal::JournalFault;
use std::alloc::Global;
use std::io;

// Prints why a run ended early.
fn tell_fault(rt: &impl Print, fault: JournalFault) -> io::Result<()> {
    match fault {
        JournalFault::Memory => rt.println("memory was short"),
        JournalFault::Failed => rt.println("the tape failed"),
        JournalFault::Bad { number } => rt.println(format_args!("record {number} is bad")),
    }
}

// How many bytes so many records have that a journal appends, over and over to a new tape.
fn appended(alloc: Global, count: u32, turns: u32) -> Result<usize, JournalFault> {
    let mut bytes = 0;
    for _ in 0..turns {
        bytes = by_journal::append(alloc, count)?.bytes().len();
    }
    Ok(bytes)
}

// How many bytes so many records have by hand, over and over on a new tape.
fn written(alloc: Global, count: u32, turns: u32) -> Result<usize, JournalFault> {
    let mut bytes = 0;
    for _ in 0..turns {
        bytes = by_hand::append(alloc, count)?.bytes().len();
    }
    Ok(bytes)
}

// Appends so many records, and says how many are read.
fn read(alloc: Global, count: u32) -> Result<u32, JournalFault> {
    by_journal::read(alloc, by_journal::append(alloc, count)?)
}

// What so many records come to: their bytes by a journal, whether they have the same by hand, and how many are read.
#[derive(Clone, Copy)]
struct Counts {
    bytes: usize,
    is_same: bool,
    read: u32,
}

// Does all three.
fn counted(alloc: Global, count: u32) -> Result<Counts, JournalFault> {
    let appended = by_journal::append(alloc, count)?;
    let written = by_hand::append(alloc, count)?;
    Ok(Counts {
        bytes: appended.bytes().len(),
        is_same: appended.bytes() == written.bytes(),
        read: by_journal::read(alloc, appended)?,
    })
}

// Prints how many bytes were written.
fn tell_bytes(rt: &impl Print, count: u32, came: Result<usize, JournalFault>) -> io::Result<()> {
    match came {
        Ok(bytes) => rt.println(format_args!("{count} records, {bytes} bytes")),
        Err(fault) => tell_fault(rt, fault),
    }
}

// Prints how many records were read.
fn tell_read(rt: &impl Print, came: Result<u32, JournalFault>) -> io::Result<()> {
    match came {
        Ok(count) => rt.println(format_args!("{count} records read")),
        Err(fault) => tell_fault(rt, fault),
    }
}

/// Appends so many records by a journal (`journal`) or without one (`hand`), so many times, or appends and reads them (`read`).
pub fn measure(
    rt: &(impl Print + AllocGlobal),
    word: &str,
    count: &str,
    turns: &str,
) -> io::Result<()> {
    let (count, turns) = (number(count), number(turns));
    match word {
        "journal" => tell_bytes(rt, count, appended(rt.alloc(), count, turns)),
        "hand" => tell_bytes(rt, count, written(rt.alloc(), count, turns)),
        "read" => tell_read(rt, read(rt.alloc(), count)),
        _ => rt.println("journal, hand or read"),
    }
}

// Prints what all three come to.
fn tell_counts(rt: &impl Print, count: u32, counts: Counts) -> io::Result<()> {
    let like = if counts.is_same { "the same" } else { "others" };
    rt.println(format_args!(
        "{count} records: {} bytes by a journal, {like} by hand, {} read",
        counts.bytes, counts.read
    ))
}

/// Does all three with 200 records.
pub fn tell_all(rt: &(impl Print + AllocGlobal)) -> io::Result<()> {
    match counted(rt.alloc(), 200) {
        Ok(counts) => tell_counts(rt, 200, counts),
        Err(fault) => tell_fault(rt, fault),
    }
}

// The number that a word writes, 0 where it writes none.
fn number(word: &str) -> u32 {
    word.parse().unwrap_or(0)
}
