// Which words are taken, by hand.
use run_words::{WordFault, read_kept_words, read_words};
use sand_base::{Label, NoMemory};
use std::alloc::Global;
use std::process::Abort;

fn labels_of(alloc: Global, words: &[&str]) -> Result<Vec<Label>, NoMemory> {
    let mut labels = Vec::new(alloc);
    for word in words {
        labels.push(Label::new(alloc, word)?)?;
    }
    Ok(labels)
}

// The frames, the length of the page file's name, and the workload.
fn ask(alloc: Global, words: &[&str]) -> Result<(u32, Option<usize>, Option<u32>), WordFault> {
    let labels = labels_of(alloc, words)?;
    let asked = read_words(alloc, &labels)?;
    let length = asked.store.as_ref().map(|name| name.as_str().len());
    Ok((asked.frames, length, asked.workload))
}

// The length of the name of a script's journal.
fn ask_for_journal(alloc: Global, words: &[&str]) -> Result<Option<usize>, WordFault> {
    let labels = labels_of(alloc, words)?;
    let asked = read_kept_words(alloc, &labels)?;
    Ok(asked.journal_of_script().map(|name| name.len()))
}

static TAKEN: [(&[&str], u32, Option<usize>, Option<u32>); 10] = [
    (&[], 256, None, None),
    (&["--frames", "64"], 64, None, None),
    (&["--frames=64"], 64, None, None),
    (&["--frames", "+64"], 64, None, None),
    (&["--frames", "0064"], 64, None, None),
    (&["--store", "db.pages"], 256, Some(8), None),
    (&["--store="], 256, Some(0), None),
    (
        &["--workload", "100000", "--frames", "16"],
        16,
        None,
        Some(100_000),
    ),
    (
        &["--workload=1", "--store", "p", "--frames=4096"],
        4096,
        Some(1),
        Some(1),
    ),
    (&["--"], 256, None, None),
];

static REFUSED: [&[&str]; 13] = [
    &["--frames", "15"],
    &["--frames", "4097"],
    &["--frames", "x"],
    &["--frames"],
    &["--frames", "64", "--frames", "64"],
    &["--fram", "64"],
    &["--workload", "0"],
    &["--workload", "100001"],
    &["--store", "-x"],
    &["--speed", "3"],
    &["extra"],
    &["--help"],
    &["-h"],
];

// Each list of words asks for what is told beside it.
fn are_taken(rt: &impl Abort, alloc: Global, cases: &[(&[&str], u32, Option<usize>, Option<u32>)]) {
    for (words, frames, store, workload) in cases {
        assert_eq!(rt;
            ask(alloc, words),
            Ok((*frames, *store, *workload)),
            "{words:?}"
        );
    }
}

fn are_refused(rt: &impl Abort, alloc: Global, cases: &[&[&str]]) {
    for words in cases {
        assert_eq!(rt; ask(alloc, words), Err(WordFault::Usage), "{words:?}");
    }
}

#[test]
fn the_command_decides_which_words_are_taken(rt: HostRuntime) {
    let alloc = rt.alloc();
    are_taken(&rt, alloc, &TAKEN);
    are_refused(&rt, alloc, &REFUSED);
}

#[test]
fn a_journal_is_named_beside_a_script_alone(rt: HostRuntime) {
    let alloc = rt.alloc();
    let both: &[&str] = &["--workload", "1", "--journal", "a.sandj"];
    assert_eq!(rt;
        ask_for_journal(alloc, &["--journal", "a.sandj"]),
        Ok(Some(7))
    );
    assert_eq!(rt; ask_for_journal(alloc, &["--frames", "64"]), Ok(None));
    assert_eq!(rt; ask_for_journal(alloc, both), Ok(None));
    assert_eq!(rt;
        ask_for_journal(alloc, &["--journal"]),
        Err(WordFault::Usage)
    );
    assert_eq!(rt;
        ask(alloc, &["--journal", "a.sandj"]),
        Err(WordFault::Usage)
    );
}
