// Lines that are not of the grammar, or out of its ranges.
use crate::disk::joined;
use crate::harness::{Answer, Case, Fault, answer_of};
use crate::trouble::{Trouble, agree};
use sand_base::NoMemory;
use std::alloc::Global;

/// A relation with two points.
const MADE: &str = "create p (at point)\nindex p.at\ninsert p (0 0)\ninsert p (3 4)\n";

/// What it prints.
const MADE_TEXT: &str = "ok\nok\nid 1\nid 2\n";

/// Lines, and what each of them prints.
static LINES: [(&str, &str); 10] = [
    ("close\n", "refused 6 Syntax 6\n"),
    ("show 1 scan\n", "refused 6 Syntax 12\n"),
    ("insert p (1 1) (2 2)\n", "refused 6 Syntax 16\n"),
    ("create q (at point,)\n", "refused 6 Syntax 20\n"),
    ("insert p \"x\n", "refused 6 Syntax 12\n"),
    ("\0\n", "refused 6 Syntax 1\n"),
    ("index p.at 65\n", "refused 7 Range\n"),
    ("next c 0\n", "refused 7 Range\n"),
    ("delete p -1\n", "refused 7 Range\n"),
    (
        "show 340282366920938463463374607431768211456 scan p\n",
        "refused 7 Range\n",
    ),
];

// What comes of a line after the relation is made.
fn answer_after_making(alloc: Global, line: &str) -> Result<Answer, NoMemory> {
    let script = joined(alloc, &[MADE, line])?;
    let case = Case {
        words: &[],
        script: script.as_bytes(),
        files: &[],
    };
    answer_of(alloc, &case, Fault::Nothing)
}

// Whether a line prints this refusal.
fn try_line(alloc: Global, number: u64, line: &str, refusal: &str) -> Result<(), Trouble> {
    let given = answer_after_making(alloc, line)?;
    let wanted = joined(alloc, &[MADE_TEXT, refusal])?;
    agree(alloc, number, wanted.as_bytes(), given.text())
}

/// The number of lines that were refused as they should be, each after the relation was made.
pub fn tried(alloc: Global) -> Result<u64, Trouble> {
    let mut count = 0u64;
    for (line, refusal) in &LINES {
        count = count.saturating_add(1);
        try_line(alloc, count, line, refusal)?;
    }
    Ok(count)
}
