// Runs with a journal whose tape fails at one call, and a run over each image that a crash may then leave.
use crate::harness::{Case, Fault, answer_kept, answer_of};
use crate::trouble::{Trouble, agree, ended};
use sand_journal::MemTape;
use session::Status;
use std::alloc::Global;

/// The most calls that are tried.
const MOST: u64 = 1_000;

/// The images that are tried behind a run: with none of the writes since the last sync, with one, and with both.
const IMAGES: usize = 3;

/// The words of a run with a journal.
const WORDS: &[&str] = &["--journal", "p.sandj"];

/// A data file of three rows.
const FILES: &[(&str, &[u8])] = &[("three.csv", b"(5 6),1\n(7 8),2\n(9 9),3\n")];

/// Changes, each of which is accepted and prints one line.
const CHANGES: &str = "create p (at point, pop int)\n\
    insert p (3 4), 5\n\
    index p.at\n\
    create q (at point)\n\
    load p \"three.csv\"\n\
    rtree p.at\n\
    delete p 1\n\
    insert q (7 7)\n\
    index p.pop\n\
    insert p (9 9), 2\n";

/// What they left.
const SHOWN: &str = "show 9 scan p\n\
    show 9 scan q\n\
    blocks p.at\n\
    show 9 near p.at from (3 4)\n\
    show 9 pick p.pop = 2\n\
    insert p (1 1), 1\n";

// Where a text has this many lines behind it.
fn lines_end(text: &[u8], count: usize) -> usize {
    let mut seen = 0usize;
    for (at, byte) in text.iter().enumerate() {
        if seen == count {
            return at;
        }
        if *byte == b'\n' {
            seen = seen.saturating_add(1);
        }
    }
    text.len()
}

// The text behind its first lines.
fn behind(text: &[u8], count: usize) -> &[u8] {
    let (_front, rest) = text.split_at(lines_end(text, count).min(text.len()));
    rest
}

// What is shown behind the first of the changes.
fn shown_behind(alloc: Global, count: usize) -> Result<Vec<u8>, Trouble> {
    let changes = CHANGES.as_bytes();
    let (front, _rest) = changes.split_at(lines_end(changes, count).min(changes.len()));
    let mut script = front.to_vec(alloc)?;
    script.extend_from_slice(SHOWN.as_bytes())?;
    let case = Case {
        words: &[],
        script: script.as_slice(),
        files: FILES,
    };
    let given = answer_of(alloc, &case, Fault::Nothing)?;
    Ok(behind(given.text(), count).to_vec(alloc)?)
}

// A run over the image shows what is there behind so many changes, or behind one more.
fn is_kept(alloc: Global, call: u64, image: &[u8], told: usize) -> Result<(), Trouble> {
    let case = Case {
        words: WORDS,
        script: SHOWN.as_bytes(),
        files: FILES,
    };
    let (given, _tape) = answer_kept(alloc, &case, image, 0)?;
    let least = shown_behind(alloc, told)?;
    if given.text() == least.as_slice() {
        return Ok(());
    }
    let one_more = shown_behind(alloc, told.saturating_add(1))?;
    agree(alloc, call, one_more.as_slice(), given.text())
}

// So it is over each image that a crash may leave.
fn are_kept(alloc: Global, call: u64, tape: &MemTape, told: usize) -> Result<(), Trouble> {
    for writes in 0..IMAGES {
        let image = tape.image(alloc, writes)?;
        is_kept(alloc, call, image.as_slice(), told)?;
    }
    Ok(())
}

// Makes the changes with this call of the tape failing, and looks at what they leave. False where no call failed.
fn try_call(alloc: Global, call: u64) -> Result<bool, Trouble> {
    let case = Case {
        words: WORDS,
        script: CHANGES.as_bytes(),
        files: FILES,
    };
    let (given, tape) = answer_kept(alloc, &case, &[], call)?;
    let told = given.text().iter().filter(|byte| **byte == b'\n').count();
    are_kept(alloc, call, &tape, told)?;
    if given.status == Status::Done {
        return Ok(false);
    }
    ended(call, &given, Status::JournalFault)?;
    Ok(true)
}

/// The number of calls in a run with a journal, each of which was made to fail in a run of its own. Each image that a crash
/// may then leave has every change whose line was written, and one more at most.
pub fn tried(alloc: Global) -> Result<u64, Trouble> {
    for call in 1..MOST {
        if !try_call(alloc, call)? {
            return Ok(call.saturating_sub(1));
        }
    }
    Err(Trouble::Counted(MOST))
}
