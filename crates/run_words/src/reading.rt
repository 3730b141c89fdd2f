ghost use Rattle.std.specs.Prelude.{◌≡◌, ◌≢◌, [], Some, IfOk, IfErr, IfSome, codes, map, option_map};
ghost use Rattle.clap.specs.Words.{fault_of, first_value, found_of};
ghost use Rattle.run_words.specs.Command.{kept_app, sand_app};
ghost use Rattle.run_words.specs.Asked.{AreFoundIn, Asks, AsksKept, IsNumberIn, number, number_or};
ghost use Rattle.run_words.specs.declared.asked.WordFault.TheVariants as fault;

use crate::command::{kept_command, sand_command};
use crate::matching::match_words;
use crate::numbers::number_of;
use crate::{KeptWords, PLAIN_FRAMES, WordFault, Words};
use clap::ArgMatches;
use sand_base::{Label, NoMemory};
use std::alloc::{AllocError, Global};

// The words as texts.
fn texts_of<'a>(alloc: Global, words: &'a [Label]) -> Result<Vec<&'a str>, AllocError>
    ensures { IfOk result (λ texts. map (λ t. t.now) texts.items ≡ words.entry.now) }
{
    let mut texts = Vec::with_capacity(alloc, words.len())?;
    'words: for word in words {
        texts.push(word.as_str())?;
    }
    Ok(texts)
}

// The number of frames.
fn frames_of(matches: &ArgMatches) -> u32
    requires { (text : _) → first_value (found_of matches.now) (codes "frames") ≡ Some text → IsNumberIn 16 4096 text }
    ensures { result ≡ number_or PLAIN_FRAMES (first_value (found_of matches.now) (codes "frames")) }
{
    match matches.get_str("frames") {
        Some(text) => number_of(text),
        None => PLAIN_FRAMES,
    }
}

// The name that an option gives.
fn name_of(alloc: Global, matches: &ArgMatches, option: &str) -> Result<Option<Label>, NoMemory>
    ensures { IfOk result (λ name. name ≡ first_value (found_of matches.now) option.now) }
{
    match matches.get_str(option) {
        Some(text) => Ok(Some(Label::new(alloc, text)?)),
        None => Ok(None),
    }
}

// The number of the workload.
fn workload_of(matches: &ArgMatches) -> Option<u32>
    requires { (text : _) → first_value (found_of matches.now) (codes "workload") ≡ Some text → IsNumberIn 1 100000 text }
    ensures { result ≡ option_map number (first_value (found_of matches.now) (codes "workload")) }
{
    match matches.get_str("workload") {
        Some(text) => Some(number_of(text)),
        None => None,
    }
}

// What the matches ask for beside a journal.
fn words_of(alloc: Global, matches: &ArgMatches) -> Result<Words, NoMemory>
    requires frames { (text : _) → first_value (found_of matches.now) (codes "frames") ≡ Some text → IsNumberIn 16 4096 text }
    requires workload { (text : _) → first_value (found_of matches.now) (codes "workload") ≡ Some text → IsNumberIn 1 100000 text }
    ensures { IfOk result (AreFoundIn matches.now) }
{
    let store = name_of(alloc, matches, "store")?;
    Ok(Words {
        frames: frames_of(matches),
        store,
        workload: workload_of(matches),
    })
}

/// What the words of the command line, without the program's name, ask for. `Usage` comes exactly where the command doesn't
/// take them, unless memory is refused.
pub fn read_words(alloc: Global, words: &[Label]) -> Result<Words, WordFault>
    ensures asked { IfOk result (Asks words.now) }
    ensures refused { IfErr result (λ why. why ≡ fault.Usage → fault_of sand_app words.now ≢ []) }
{
    let texts = texts_of(alloc, words)?;
    let matches = match_words(sand_command(alloc)?, texts.as_slice())?;
    let asked = words_of(alloc, &matches)?;
    Ok(asked)
}

/// What the words of the command line, without the program's name, ask for, where they may name a journal. `Usage` comes
/// exactly where the command that takes one doesn't take them, unless memory is refused.
pub fn read_kept_words(alloc: Global, words: &[Label]) -> Result<KeptWords, WordFault>
    ensures asked { IfOk result (AsksKept words.now) }
    ensures refused { IfErr result (λ why. why ≡ fault.Usage → fault_of kept_app words.now ≢ []) }
{
    let texts = texts_of(alloc, words)?;
    let matches = match_words(kept_command(alloc)?, texts.as_slice())?;
    let journal = name_of(alloc, &matches, "journal")?;
    Ok(KeptWords {
        words: words_of(alloc, &matches)?,
        journal,
    })
}
