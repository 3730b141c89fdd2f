// Journals over a tape in memory: each crash of a run of appends, each front of a file, and files of drawn bytes, read again.
use crate::journal_reading::Trouble;
use crate::{journal_crashes, journal_drawn, journal_fronts};
use std::io;

// Prints how a table came out.
fn tell(rt: &impl Print, table: &str, came: &Result<u32, Trouble>) -> io::Result<()> {
    match came {
        Ok(count) => rt.println(format_args!("{table}: {count}, all well")),
        Err(Trouble::Memory) => rt.println(format_args!("{table}: memory was short")),
        Err(Trouble::Differs { tried }) => rt.println(format_args!("{table}: {tried} differs")),
    }
}

/// Prints a line for each table of journals.
pub fn tell_all(rt: &(impl Print + AllocGlobal)) -> io::Result<()> {
    let alloc = rt.alloc();
    tell(
        rt,
        "images of runs in which a call of the tape fails",
        &journal_crashes::tried(alloc),
    )?;
    tell(rt, "fronts of files", &journal_fronts::tried(alloc))?;
    match journal_drawn::tried(alloc) {
        Ok(found) => rt.println(format_args!(
            "files of drawn bytes: {}, with {} records, {} of them end at a bad one",
            found.files, found.records, found.bad
        )),
        Err(_) => rt.println("files of drawn bytes: trouble"),
    }
}
