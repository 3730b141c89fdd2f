// What is kept in pages beside the same in memory, and what becomes of pools and trees whose disk fails.
use crate::pool_speed::Tally;
use crate::{bulk_cases, compared, pool_cases, pool_speed, timed, tree_cases};
use std::alloc::Global;
use std::io;

// What a word and a number of rows ask for.
fn counted(alloc: Global, word: &str, count: &str) -> Option<u64> {
    let part = timed::part_named(word)?;
    let rows = count.parse().ok()?;
    timed::made(alloc, part, rows).ok()
}

// What a word and a number of calls ask for of a pool.
fn tallied(alloc: Global, word: &str, count: &str) -> Option<Tally> {
    let part = pool_speed::part_named(word)?;
    let calls = count.parse().ok()?;
    pool_speed::made(alloc, part, calls).ok()
}

// Prints what was counted.
fn tell_count(rt: &impl Print, count: Option<u64>) -> io::Result<()> {
    match count {
        Some(count) => rt.println(format_args!("{count} calls")),
        None => rt.println("no such part, or memory was short"),
    }
}

/// Makes a tree, a file or searches of so many rows, or so many calls of a pool, as the word says.
pub fn measure(rt: &(impl Print + AllocGlobal), word: &str, count: &str) -> io::Result<()> {
    match tallied(rt.alloc(), word, count) {
        Some(tally) => rt.println(format_args!(
            "{} calls, and {} of the disk",
            tally.right, tally.disk_calls
        )),
        None => tell_count(rt, counted(rt.alloc(), word, count)),
    }
}

/// Prints how drawn calls compare, what small searches find, and what becomes of pools and of trees in them.
pub fn tell_all(rt: &(impl Print + AllocGlobal)) -> io::Result<()> {
    compared::tell_all(rt)?;
    pool_cases::tell(rt)?;
    tree_cases::tell(rt)?;
    bulk_cases::tell(rt)?;
    pool_speed::tell(rt)
}
