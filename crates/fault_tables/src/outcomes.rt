// Whole runs whose texts and statuses were worked out by hand.
use crate::harness::{Answer, Case, Fault, answer_of, answer_within};
use crate::text_of;
use sand_base::{Limits, NoMemory};
use std::alloc::Global;
use std::io;

/// The script of one line.
const ONE_LINE: &str = "create p (at point)\n";

/// Runs by their names: the script, and the fault that comes in it.
static RUNS: [(&str, &str, Fault); 6] = [
    ("a script of no bytes", "", Fault::Nothing),
    (
        "a last line without its line feed",
        "create p (at point)",
        Fault::Nothing,
    ),
    (
        "a read that fails behind the first line",
        "create p (at point)\ninsert",
        Fault::Source(3),
    ),
    ("room for two bytes of the answer", ONE_LINE, Fault::Room(2)),
    ("a disk that doesn't start", ONE_LINE, Fault::Disk(1)),
    (
        "a disk that fails at its second call",
        "create p (at point)\ninsert p (1 1)\ninsert p (1 1)\n",
        Fault::Disk(2),
    ),
];

/// Words with which the script of one line is run.
static WORDS: [&[&str]; 8] = [
    &["--frames", "64"],
    &["--frames=4096"],
    &["--store", "db.pages"],
    &["--frames", "15"],
    &["--frames", "x"],
    &["--frames"],
    &["--speed", "3"],
    &["extra"],
];

/// Loads that are refused and one that isn't, and a row between them.
const LOADS: &str = "create p (at point, pop int)\n\
    load p \"p.csv\"\n\
    load p \"none.csv\"\n\
    insert p (9 9), 1\n\
    load p \"short.csv\"\n\
    load p \"good.csv\"\n\
    show 9 scan p\n";

/// The files of these loads.
const FILES: [(&str, &[u8]); 3] = [
    ("p.csv", b"(1 1),5\n(2 2),6\n(3 3),7\n(4 4),x\n"),
    ("short.csv", b"(1 1),5\n(2 2)\n"),
    ("good.csv", b"(1 1),5\n"),
];

/// Three points in a quadtree of one point a block.
const BLOCKS: &str = "create p (at point)\n\
    index p.at 1\n\
    insert p (1 1)\n\
    insert p (2 2)\n\
    insert p (3 3)\n\
    blocks p.at\n";

/// Three points of a relation.
const POINTS: &str = "create p (at point)\ninsert p (1 1)\ninsert p (2 2)\ninsert p (3 3)\n";

// A run of the script alone.
fn over(script: &[u8]) -> Case<'_> {
    Case {
        words: &[],
        script,
        files: &[],
    }
}

// Adds a line of so many bytes.
fn push_line(script: &mut Vec<u8>, bytes: usize) -> Result<(), NoMemory> {
    for _ in 0..bytes {
        script.push(b'x')?;
    }
    script.push(b'\n')?;
    Ok(())
}

// A line that is a byte too long, one that isn't, and one of the grammar.
fn long_lines(alloc: Global) -> Result<Answer, NoMemory> {
    let mut script = Vec::new(alloc);
    push_line(&mut script, 8193)?;
    push_line(&mut script, 8192)?;
    script.extend_from_slice(ONE_LINE.as_bytes())?;
    answer_of(alloc, &over(script.as_slice()), Fault::Nothing)
}

// The loads of the data files.
fn loads(alloc: Global) -> Result<Answer, NoMemory> {
    let case = Case {
        words: &[],
        script: LOADS.as_bytes(),
        files: &FILES,
    };
    answer_of(alloc, &case, Fault::Nothing)
}

// A quadtree that may have five listings.
fn few_listings(alloc: Global) -> Result<Answer, NoMemory> {
    let limits = Limits {
        ids: 10,
        listings: 5,
    };
    answer_within(alloc, limits, &over(BLOCKS.as_bytes()), Fault::Nothing)
}

// A relation that may give out two ids.
fn few_ids(alloc: Global) -> Result<Answer, NoMemory> {
    let limits = Limits {
        ids: 2,
        listings: 100,
    };
    answer_within(alloc, limits, &over(POINTS.as_bytes()), Fault::Nothing)
}

// Prints what a run wrote and the status with which it ended.
fn tell(rt: &impl Print, name: &str, came: &Result<Answer, NoMemory>) -> io::Result<()> {
    match came {
        Ok(answer) => {
            let text = text_of(answer.text());
            let status = answer.status.code();
            rt.println(format_args!("{name}: {text:?}, status {status}"))
        }
        Err(_) => rt.println(format_args!("{name}: memory was short")),
    }
}

/// A run that is more than a script.
#[derive(Clone, Copy)]
enum Special {
    LongLines,
    Loads,
    FewListings,
    FewIds,
}

/// Each with its name.
static SPECIALS: [(&str, Special); 4] = [
    ("lines of 8193 and of 8192 bytes", Special::LongLines),
    ("data files, loaded whole or not at all", Special::Loads),
    ("five listings at most", Special::FewListings),
    ("two ids at most", Special::FewIds),
];

// What comes of such a run.
fn answer_in(alloc: Global, run: Special) -> Result<Answer, NoMemory> {
    match run {
        Special::LongLines => long_lines(alloc),
        Special::Loads => loads(alloc),
        Special::FewListings => few_listings(alloc),
        Special::FewIds => few_ids(alloc),
    }
}

// Prints a line for a list of words.
fn tell_words(rt: &(impl Print + AllocGlobal), words: &[&str]) -> io::Result<()> {
    let case = Case {
        words: &*words,
        script: ONE_LINE.as_bytes(),
        files: &[],
    };
    rt.print(format_args!("the words {words:?} and "))?;
    let came = answer_of(rt.alloc(), &case, Fault::Nothing);
    tell(rt, "one line", &came)
}

// Prints a line for each run of a script.
fn scripts_told(rt: &(impl Print + AllocGlobal)) -> io::Result<()> {
    for (name, script, fault) in &RUNS {
        let came = answer_of(rt.alloc(), &over(script.as_bytes()), *fault);
        tell(rt, name, &came)?;
    }
    Ok(())
}

// Prints a line for each list of words.
fn words_told(rt: &(impl Print + AllocGlobal)) -> io::Result<()> {
    for words in &WORDS {
        tell_words(rt, words)?;
    }
    Ok(())
}

/// Prints a line for each run.
pub fn told(rt: &(impl Print + AllocGlobal)) -> io::Result<()> {
    scripts_told(rt)?;
    words_told(rt)?;
    for (name, run) in &SPECIALS {
        tell(rt, name, &answer_in(rt.alloc(), *run))?;
    }
    Ok(())
}
