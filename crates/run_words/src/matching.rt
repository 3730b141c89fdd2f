// What the command makes of the words.
ghost use Rattle.std.specs.Prelude.{◌≡◌, ◌≢◌, ◌⊎◌, [], IfOk, IfErr, map};
ghost use Rattle.clap.specs.Words.{app_of, fault_of};
ghost use Rattle.run_words.specs.Command.{kept_app, sand_app};
ghost use Rattle.run_words.specs.Asked.{IsMatchedBy};
ghost use Rattle.run_words.specs.declared.asked.WordFault.TheVariants as fault;

use crate::WordFault;
use clap::error::ErrorKind;
use clap::{ArgMatches, Command};

// The matches of the words, if the command takes them; it is one of the two commands of the program.
pub(crate) fn match_words<'a>(
    command: Command<'a>,
    texts: &'a [&'a str],
) -> Result<ArgMatches<'a>, WordFault>
    requires one { (app_of command ≡ sand_app) ⊎ (app_of command ≡ kept_app) }
    ensures matched { IfOk result (IsMatchedBy (app_of command.entry) (map (λ t. t.now) texts.entry.now)) }
    ensures refused { IfErr result (λ why. why ≡ fault.Usage → fault_of (app_of command.entry) (map (λ t. t.now) texts.entry.now) ≢ []) }
{
    match command.try_get_matches_from(texts) {
        Ok(matches) => Ok(matches),
        Err(error) => match error.kind() {
            ErrorKind::OutOfMemory => Err(WordFault::Memory),
            _ => Err(WordFault::Usage),
        },
    }
}
