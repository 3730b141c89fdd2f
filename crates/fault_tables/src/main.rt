//! Whole runs, pools, R-trees and journals over streams, files, disks and tapes in memory: what becomes of them where a call of the outside fails.
//!
//! It prints what some runs wrote and how each ended. Then it makes each call of the disk, the script, the answers, the data file and the
//! journal's tape fail in turn, one run for each call, cuts a data file after each of its bytes, gives lines that are refused, and counts
//! what the disk is called for and what the script is asked for. Pools with stamps, R-trees beside plain lists, and journals stand behind them by
//! themselves. It prints a line for each table, with the number of runs, or the first difference. Above:
//! nothing. Below: `session`, whose `run_within` all runs go through; `page_pool`, `r_tree` and `sand_journal`. Read `src/harness.rt`, then
//! `src/outcomes.rt` and `src/scripts.rt`; `src/pools.rt`, `src/rtrees.rt` and `src/journals.rt`.
#![tactic(auto)]

mod asks;
mod byte_draws;
mod cuts;
mod disk;
mod draws;
mod harness;
mod journal_crashes;
mod journal_drawn;
mod journal_files;
mod journal_fronts;
mod journal_reading;
mod journals;
mod outcomes;
mod page_draws;
mod pool_faults;
mod pool_filled;
mod pool_kept;
mod pool_maps;
mod pool_rounds;
mod pool_trial;
mod pool_trouble;
mod pools;
mod reads;
mod refusals;
mod rtrees;
mod scripts;
mod streams;
mod tapes;
mod tree_courses;
mod tree_disk;
mod tree_draws;
mod tree_nodes;
mod tree_pool;
mod tree_trial;
mod trouble;

use disk::Taking;
use draws::{numbered_points, points};
use harness::Case;
use scripts::{
    BESIDE_CHANGES, CITIES, LOADING, LOADING_TEXT, PLANS, RANKING, TURNS, TURNS_TEXT, UNLOADED_TEXT,
};
use std::alloc::Global;
use std::{env, io, str};
use streams::{Stream, Wanted};
use trouble::{Difference, Trouble};

/// Bytes as they are printed.
pub(crate) fn text_of(bytes: &[u8]) -> &str {
    match str::from_utf8(bytes) {
        Ok(text) => text,
        Err(_) => "no text",
    }
}

// Prints where a text differs.
fn tell_difference(rt: &impl Print, table: &str, found: &Difference) -> io::Result<()> {
    let wanted = text_of(found.wanted.as_slice());
    let given = text_of(found.given.as_slice());
    rt.println(format_args!(
        "{table}: {} differs from byte {} on, wanted {wanted:?}, given {given:?}",
        found.tried, found.place
    ))
}

// Prints why a table does not hold.
fn tell_trouble(rt: &impl Print, table: &str, trouble: &Trouble) -> io::Result<()> {
    match trouble {
        Trouble::Memory => rt.println(format_args!("{table}: memory was short")),
        Trouble::Differs(found) => tell_difference(rt, table, found),
        Trouble::Ended { tried, status } => {
            rt.println(format_args!("{table}: {tried} ended with status {status}"))
        }
        Trouble::Counted(count) => rt.println(format_args!("{table}: they are {count}")),
    }
}

// Prints that all runs came out as they should, with their number where it is asked for.
fn tell(rt: &impl Print, shows: bool, table: &str, came: &Result<u64, Trouble>) -> io::Result<()> {
    match came {
        Ok(count) if shows => rt.println(format_args!("{table}: {count}, all well")),
        Ok(_) => rt.println(format_args!("{table}: all well")),
        Err(trouble) => tell_trouble(rt, table, trouble),
    }
}

// The runs over the cities in which a call of the stream fails.
fn turns(alloc: Global, stream: Stream) -> Result<u64, Trouble> {
    let case = Case {
        words: &[],
        script: TURNS.as_bytes(),
        files: &[("cities.csv", CITIES.as_bytes())],
    };
    streams::tried(alloc, &case, stream, TURNS_TEXT, Wanted::Front)
}

// The loads of the cities in which a call of the data file fails.
fn loads(alloc: Global) -> Result<u64, Trouble> {
    let case = Case {
        words: &[],
        script: LOADING.as_bytes(),
        files: &[("cities.csv", CITIES.as_bytes())],
    };
    let wanted = Wanted::Text(UNLOADED_TEXT);
    streams::tried(alloc, &case, Stream::Shelf, LOADING_TEXT, wanted)
}

// The rankings in which a call of the disk fails.
fn ranking(alloc: Global) -> Result<u64, Trouble> {
    let file = points(alloc, 5_000)?;
    disk::tried(alloc, &RANKING, file.as_bytes())
}

/// A table of runs in which a line, a data file or a stream is at fault.
#[derive(Clone, Copy)]
enum Table {
    Refusals,
    Fronts,
    Reads,
    Writes,
    Files,
    Tapes,
}

/// Each with its name.
static TABLES: [(&str, Table); 6] = [
    ("lines that are refused", Table::Refusals),
    ("fronts of a data file", Table::Fronts),
    ("reads of the script that fail", Table::Reads),
    ("writes that fail", Table::Writes),
    ("calls of a data file that fail", Table::Files),
    ("calls of a journal's tape that fail", Table::Tapes),
];

// The number of runs of a table.
fn counted(alloc: Global, table: Table) -> Result<u64, Trouble> {
    match table {
        Table::Refusals => refusals::tried(alloc),
        Table::Fronts => cuts::tried(alloc),
        Table::Reads => turns(alloc, Stream::Source),
        Table::Writes => turns(alloc, Stream::Sink),
        Table::Files => loads(alloc),
        Table::Tapes => tapes::tried(alloc),
    }
}

// Prints a line for each table.
fn tables(rt: &(impl Print + AllocGlobal)) -> io::Result<()> {
    for (name, table) in &TABLES {
        tell(rt, true, name, &counted(rt.alloc(), *table))?;
    }
    Ok(())
}

// The cursors over other plans in which a call of the disk fails.
fn plan(alloc: Global, taking: &Taking) -> Result<u64, Trouble> {
    let file = numbered_points(alloc, 1_200)?;
    disk::tried(alloc, taking, file.as_bytes())
}

// Prints a line for each of these.
fn plans(rt: &(impl Print + AllocGlobal), shows: bool, table: &[(&str, Taking)]) -> io::Result<()> {
    for (name, taking) in table {
        tell(rt, shows, name, &plan(rt.alloc(), taking))?;
    }
    Ok(())
}

// Prints a line for each table whose runs are as many as the calls of the disk, which are printed where they are asked for.
fn disk_tables(rt: &(impl Print + AllocGlobal), shows: bool) -> io::Result<()> {
    let ranked = "calls of the disk that fail in 41 rows of a ranking";
    tell(rt, shows, ranked, &ranking(rt.alloc()))?;
    plans(rt, shows, &PLANS)?;
    plans(rt, shows, &BESIDE_CHANGES)?;
    let all_rows = "calls of the disk for all rows of a ranking";
    tell(rt, shows, all_rows, &reads::for_all_rows(rt.alloc()))?;
    let one_row = "calls of the disk for the first row of a ranking";
    tell(rt, shows, one_row, &reads::for_one_row(rt.alloc()))
}

fn main(rt: HostRuntime) -> io::Result<()> {
    let shows = env::args(&rt)?.skip(1).next().is_some();
    outcomes::told(&rt)?;
    tables(&rt)?;
    disk_tables(&rt, shows)?;
    asks::told(&rt)?;
    pools::tell_all(&rt)?;
    rtrees::tell_all(&rt)?;
    journals::tell_all(&rt)
}
