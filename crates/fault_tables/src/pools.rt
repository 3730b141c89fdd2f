// Pools with stamps over a disk in memory: how many images are kept, and what a failing call of the disk leaves.
use crate::pool_rounds::Figures;
use crate::pool_trouble::Trouble;
use crate::{pool_faults, pool_rounds};
use std::io;

// Prints the figures of the rounds.
fn tell_rounds(rt: &impl Print, figures: &Figures) -> io::Result<()> {
    match figures.outside {
        None => rt.println(format_args!(
            "{} rounds: at most {} images kept, within bounds of at most {}; at the end {} images for {} pages: well",
            figures.rounds,
            figures.most_places,
            figures.most_bound,
            figures.last_places,
            figures.live
        )),
        Some(outside) => rt.println(format_args!(
            "{} rounds: {} images kept, and not from {} to {}",
            figures.rounds, outside.places, outside.least, outside.most
        )),
    }
}

// Prints that a table was not made.
fn tell_trouble(rt: &impl Print, table: &str, trouble: Trouble) -> io::Result<()> {
    match trouble {
        Trouble::Memory => rt.println(format_args!("{table}: memory was short")),
        Trouble::Refused => rt.println(format_args!("{table}: a call was refused twice")),
        Trouble::Missing => rt.println(format_args!("{table}: a page is missing")),
    }
}

/// Prints a line for each table of pools.
pub fn tell_all(rt: &(impl Print + AllocGlobal)) -> io::Result<()> {
    let alloc = rt.alloc();
    match pool_rounds::tried(alloc) {
        Ok(figures) => tell_rounds(rt, &figures)?,
        Err(trouble) => tell_trouble(rt, "rounds", trouble)?,
    }
    match pool_faults::tried(alloc) {
        Ok(counts) => rt.println(format_args!(
            "{} runs, in each of which one call of the disk failed: {} calls were refused and made again, {} runs ended otherwise",
            counts.runs, counts.refused, counts.otherwise
        )),
        Err(trouble) => tell_trouble(rt, "faults", trouble),
    }
}
