// Files of drawn bytes.
use crate::byte_draws::Draws;
use crate::journal_reading::{Trouble, read_all};
use std::alloc::Global;

/// How many files, the records in them, and the bad records.
#[derive(Clone, Copy)]
pub struct Drawn {
    pub files: u32,
    pub records: u32,
    pub bad: u32,
}

// A byte that a file often has, or any.
fn byte(draws: &mut Draws) -> u8 {
    match draws.below(8) {
        0 => draws.byte(),
        1 | 2 | 3 => 1,
        _ => 0,
    }
}

// A file of at most 60 bytes, which begins with a whole record as often as not.
fn file(alloc: Global, draws: &mut Draws) -> Result<Vec<u8>, Trouble> {
    let mut bytes = Vec::new(alloc);
    if draws.below(2) == 0 {
        bytes.extend_from_slice(b"\x01\x00\x00\x00\x0b\x01index p.at")?;
    }
    let size = draws.below(40);
    for _ in 0..size {
        bytes.push(byte(draws))?;
    }
    Ok(bytes)
}

/// Reads so many files.
pub fn tried(alloc: Global) -> Result<Drawn, Trouble> {
    let mut draws = Draws::new(7);
    let mut drawn = Drawn {
        files: 0,
        records: 0,
        bad: 0,
    };
    for _ in 0..10_000u32 {
        let bytes = file(alloc, &mut draws)?;
        let found = read_all(alloc, bytes)?;
        drawn.files = drawn.files.saturating_add(1);
        drawn.records = drawn.records.saturating_add(found.count);
        if found.bad > 0 {
            drawn.bad = drawn.bad.saturating_add(1);
        }
    }
    Ok(drawn)
}
