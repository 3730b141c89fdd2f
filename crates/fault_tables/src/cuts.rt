// A data file that is cut after each of its bytes.
use crate::harness::{Answer, Case, Fault, answer_of};
use crate::trouble::{Trouble, agree};
use sand_base::NoMemory;
use std::alloc::Global;

/// Four records of eight bytes each. The last one's number is none.
const RECORDS: &[u8] = b"(1 1),5\n(2 2),6\n(3 3),7\n(4 4),x\n";

/// Loads the file, and inserts a row.
const SCRIPT: &str = "create p (at point, pop int)\nload p \"p.csv\"\ninsert p (9 9), 1\n";

/// What a load of the file's front answers.
#[derive(Clone, Copy)]
enum Load {
    /// So many rows.
    Rows(usize),
    /// The column of the record is bad.
    Bad { record: usize, column: u8 },
}

// What a load of the first bytes answers. A record is whole with its seventh byte, and its point with the fifth.
fn load_of(bytes: usize) -> Load {
    let before = bytes / 8;
    let record = before.saturating_add(1);
    match bytes % 8 {
        _ if bytes > 30 => Load::Bad {
            record: 4,
            column: 2,
        },
        0 => Load::Rows(before),
        1..=4 => Load::Bad { record, column: 1 },
        5 | 6 => Load::Bad { record, column: 2 },
        _ => Load::Rows(record),
    }
}

// The text of a run in which the load answers so. After a refusal no row is there, and no id was given out.
fn text_of(alloc: Global, load: Load) -> Result<String, Trouble> {
    let text = match load {
        Load::Rows(rows) => {
            let next = rows.saturating_add(1);
            format!(in alloc; "ok\nloaded {rows}\nid {next}\n")?
        }
        Load::Bad { record, column } => {
            format!(in alloc; "ok\nrefused 16 BadRecord {record} {column}\nid 1\n")?
        }
    };
    Ok(text)
}

// What comes of the first bytes of the file.
fn answer_to(alloc: Global, bytes: usize) -> Result<Answer, NoMemory> {
    let (front, _rest) = RECORDS.split_at(bytes.min(RECORDS.len()));
    let case = Case {
        words: &[],
        script: SCRIPT.as_bytes(),
        files: &[("p.csv", front)],
    };
    answer_of(alloc, &case, Fault::Nothing)
}

// Whether the first bytes of the file load as they should.
fn try_front(alloc: Global, bytes: usize) -> Result<(), Trouble> {
    let given = answer_to(alloc, bytes)?;
    let wanted = text_of(alloc, load_of(bytes))?;
    agree(alloc, bytes as u64, wanted.as_bytes(), given.text())
}

/// The number of fronts of the file that were loaded.
pub fn tried(alloc: Global) -> Result<u64, Trouble> {
    let fronts = RECORDS.len().saturating_add(1);
    for bytes in 0..fronts {
        try_front(alloc, bytes)?;
    }
    Ok(fronts as u64)
}
