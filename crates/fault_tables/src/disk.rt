// A cursor whose disk fails at one call.
use crate::harness::{Answer, Case, Fault, answer_of};
use crate::trouble::{Trouble, agree, ended, shared, some};
use sand_base::NoMemory;
use session::Status;
use std::alloc::Global;

/// The smallest pool.
const FRAMES: &[&str] = &["--frames", "16"];

/// The name of the data file.
const FILE: &str = "points.csv";

/// The line of a disk's fault.
const REFUSED: &[u8] = b"refused 2 Device\n";

/// What the output of a run lacks where a call of its struck lines fails.
#[derive(Clone, Copy)]
pub enum Lacking {
    /// Its last row, since one row fewer was taken.
    LastRow,
    /// The line of the change that was refused.
    Change,
}

/// Lines of a script in four parts: what makes the relations and their indexes, what opens the cursor and takes its first
/// rows, the lines in which a call fails, and what takes rows after them.
#[derive(Clone, Copy)]
pub struct Taking {
    pub made: &'static str,
    pub before: &'static str,
    pub struck: &'static str,
    pub after: &'static str,
    pub lacking: Lacking,
}

/// The parts as one script.
pub fn joined(alloc: Global, parts: &[&str]) -> Result<String, NoMemory> {
    let mut script = String::new(alloc);
    for part in parts {
        script.push_str(part)?;
    }
    Ok(script)
}

/// What comes of the parts, as one script, over the smallest pool and this data file.
pub fn answer_to(
    alloc: Global,
    parts: &[&str],
    file: &[u8],
    fault: Fault,
) -> Result<Answer, NoMemory> {
    let script = joined(alloc, parts)?;
    let case = Case {
        words: FRAMES,
        script: script.as_bytes(),
        files: &[(FILE, file)],
    };
    answer_of(alloc, &case, fault)
}

// The text without its last line.
fn without_last_line(text: &[u8]) -> &[u8] {
    let (lines, _feed) = text.split_at(text.len().saturating_sub(1));
    match lines.iter().rposition(|byte| *byte == b'\n') {
        Some(feed) => &text[..=feed],
        None => &[],
    }
}

// The text without its first line.
fn without_first_line(text: &[u8]) -> &[u8] {
    match text.iter().position(|byte| *byte == b'\n') {
        Some(feed) => &text[feed + 1..],
        None => &[],
    }
}

// The text with the line of a fault at the place, and without the line that is lacking.
fn refused_at(
    alloc: Global,
    text: &[u8],
    place: usize,
    lacking: Lacking,
) -> Result<Vec<u8>, NoMemory> {
    let (front, rest) = text.split_at(place.min(text.len()));
    let mut wanted = front.to_vec(alloc)?;
    wanted.extend_from_slice(REFUSED)?;
    wanted.extend_from_slice(match lacking {
        Lacking::LastRow => without_last_line(rest),
        Lacking::Change => without_first_line(rest),
    })?;
    Ok(wanted)
}

// The calls of the disk that fail: those behind the first ones, up to the last. The text before them has so many bytes.
#[derive(Clone, Copy)]
struct Struck {
    first: u64,
    last: u64,
    least: usize,
}

// Whether one line of the text is the fault's, and the others are those of the plain run.
fn is_struck_once(
    alloc: Global,
    plain: &[u8],
    lacking: Lacking,
    least: usize,
    call: u64,
    given: &[u8],
) -> Result<(), Trouble> {
    let place = shared(plain, given).max(least);
    let wanted = refused_at(alloc, plain, place, lacking)?;
    agree(alloc, call, wanted.as_slice(), given)
}

// One run in which a call of the struck lines fails.
fn try_call(
    alloc: Global,
    taking: &Taking,
    file: &[u8],
    plain: &[u8],
    least: usize,
    call: u64,
) -> Result<(), Trouble> {
    let parts = [taking.made, taking.before, taking.struck, taking.after];
    let given = answer_to(alloc, &parts, file, Fault::Disk(call))?;
    is_struck_once(alloc, plain, taking.lacking, least, call, given.text())?;
    ended(call, &given, Status::SomeRefused)
}

/// What comes of the parts without a fault.
pub fn undisturbed(alloc: Global, parts: &[&str], file: &[u8]) -> Result<Answer, Trouble> {
    let plain = answer_to(alloc, parts, file, Fault::Nothing)?;
    ended(0, &plain, Status::Done)?;
    Ok(plain)
}

/// The calls of the disk in the parts without a fault.
pub fn calls_in(alloc: Global, parts: &[&str], file: &[u8]) -> Result<u64, Trouble> {
    let plain = undisturbed(alloc, parts, file)?;
    Ok(plain.calls)
}

// Which calls of the disk are in the struck lines.
fn struck_calls(alloc: Global, taking: &Taking, file: &[u8]) -> Result<Struck, Trouble> {
    let parts = [taking.made, taking.before, taking.struck];
    let last = calls_in(alloc, &parts, file)?;
    let begun = undisturbed(alloc, &[taking.made, taking.before], file)?;
    Ok(Struck {
        first: begun.calls,
        last,
        least: begun.text().len(),
    })
}

// Has each of the calls fail in a run of its own; gives their number, which is above 0.
fn try_all(
    alloc: Global,
    taking: &Taking,
    file: &[u8],
    plain: &[u8],
    calls: Struck,
) -> Result<u64, Trouble> {
    for call in calls.first.saturating_add(1)..calls.last.saturating_add(1) {
        try_call(alloc, taking, file, plain, calls.least, call)?;
    }
    some(calls.last.saturating_sub(calls.first))
}

/// The number of calls of the disk in the struck lines, each of which was made to fail in a run of its own. There must be some.
pub fn tried(alloc: Global, taking: &Taking, file: &[u8]) -> Result<u64, Trouble> {
    let calls = struck_calls(alloc, taking, file)?;
    let parts = [taking.made, taking.before, taking.struck, taking.after];
    let plain = undisturbed(alloc, &parts, file)?;
    try_all(alloc, taking, file, plain.text(), calls)
}
