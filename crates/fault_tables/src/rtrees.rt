// R-trees in pages beside plain lists: drawn points, segments and rectangles come and leave, and what a tree lists is compared.
use crate::tree_courses::{Course, Outcome, refused_in_turn, run};
use crate::tree_trial::Kind;
use page_pool::PageFault;
use std::alloc::Global;
use std::io;

// The courses of 1,000 rows that come one by one, of which 900 leave.
static GROWN: [(&str, Kind); 5] = [
    ("drawn points", Kind::Points),
    ("one point", Kind::OnePoint),
    ("points on one line", Kind::OneLine),
    ("rectangles that cover all", Kind::Covering),
    ("points, segments and rectangles", Kind::Mixed),
];

// The lengths of lists from which trees are built: about where one node more, or one level more, is wanted.
const LENGTHS: [u32; 10] = [1, 126, 127, 191, 192, 321, 501, 8_064, 8_128, 13_000];

// The course of so many rows that are built, come and leave.
fn course(kind: Kind, built: u32, inserts: u32, removes: u32, every: u32) -> Course {
    Course {
        kind,
        built,
        inserts,
        removes,
        every,
        fails: 0,
    }
}

// Prints what a course came to.
fn tell(rt: &impl Print, name: &str, came: &Result<Outcome, PageFault>) -> io::Result<()> {
    match came {
        Ok(outcome) if outcome.same => rt.println(format_args!(
            "{name}: the same each time, {} nodes at most, height {} and at last {}",
            outcome.nodes, outcome.highest, outcome.height
        )),
        Ok(_) => rt.println(format_args!("{name}: the tree differs from the list")),
        Err(_) => rt.println(format_args!("{name}: memory was short")),
    }
}

// Trees that are grown row by row.
fn grown(rt: &(impl Print + AllocGlobal)) -> io::Result<()> {
    for (name, kind) in &GROWN {
        tell(rt, name, &run(rt.alloc(), course(*kind, 0, 1_000, 900, 50)))?;
    }
    Ok(())
}

// A tree built from a list of this length.
fn built(alloc: Global, length: u32) -> Result<Outcome, PageFault> {
    run(alloc, course(Kind::Mixed, length, 0, 0, 1))
}

// Trees that are built.
fn tell_built(rt: &(impl Print + AllocGlobal)) -> io::Result<()> {
    for length in &LENGTHS {
        match built(rt.alloc(), *length) {
            Ok(outcome) if outcome.same => rt.println(format_args!(
                "a list of {length}: the same, {} nodes, height {}",
                outcome.nodes, outcome.height
            ))?,
            _ => rt.println(format_args!("a list of {length}: differs"))?,
        }
    }
    Ok(())
}

// A tree that is built, grows, and falls from three levels to one.
fn fallen(rt: &(impl Print + AllocGlobal)) -> io::Result<()> {
    let came = run(rt.alloc(), course(Kind::Points, 13_000, 600, 13_560, 1_000));
    tell(rt, "a list of 13000 points, 600 more, and 40 left", &came)
}

// A tree whose disk refuses each call in turn.
fn refused(rt: &(impl Print + AllocGlobal)) -> io::Result<()> {
    match refused_in_turn(rt.alloc(), course(Kind::Points, 252, 4, 64, 100)) {
        Ok(Some(runs)) => rt.println(format_args!(
            "each of {runs} calls of the disk refused in turn leaves the tree of before each time"
        )),
        _ => rt.println(format_args!("a refused call changed a tree, or memory was short")),
    }
}

/// Prints a line for each course of an R-tree.
pub fn tell_all(rt: &(impl Print + AllocGlobal)) -> io::Result<()> {
    grown(rt)?;
    tell_built(rt)?;
    fallen(rt)?;
    refused(rt)
}
