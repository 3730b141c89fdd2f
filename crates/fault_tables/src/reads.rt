// The calls of the disk that rows cost.
use crate::disk::calls_in;
use crate::draws::{grid, points};
use crate::scripts::POINTS;
use crate::trouble::{Trouble, some};
use std::alloc::Global;

/// The most calls that a first row costs.
const MOST: u64 = 100;

// By how many calls of the disk these lines raise those of the lines before them.
fn calls(alloc: Global, before: &str, lines: &str, file: &[u8]) -> Result<u64, Trouble> {
    let without = calls_in(alloc, &[POINTS, before], file)?;
    let with = calls_in(alloc, &[POINTS, before, lines], file)?;
    Ok(with.saturating_sub(without))
}

/// The calls for all rows of a ranking of 5,001 points, which are some.
pub fn for_all_rows(alloc: Global) -> Result<u64, Trouble> {
    let file = points(alloc, 5_000)?;
    let opening = "open c = rank p.at from (1 1)\n";
    some(calls(alloc, opening, "next c 5001\n", file.as_bytes())?)
}

// The count, where it is small.
fn few(count: u64) -> Result<u64, Trouble> {
    if count > MOST {
        return Err(Trouble::Counted(count));
    }
    Ok(count)
}

/// The calls for the first row of a ranking of 20,001 points, with its `open`, which are few.
pub fn for_one_row(alloc: Global) -> Result<u64, Trouble> {
    let file = grid(alloc, 20_000)?;
    let lines = "open c = rank p.at from (1 1)\nnext c 1\n";
    few(calls(alloc, "", lines, file.as_bytes())?)
}
