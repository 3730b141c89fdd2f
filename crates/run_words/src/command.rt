// The command: three options of one value each.
ghost use Rattle.std.specs.Prelude.{◌≡◌, Some, None, IfOk, codes, false};
ghost use Rattle.clap.specs.Words.{rule_of, app_of};
ghost use Rattle.clap.specs.declared.builder.value_parser.ValueParser.TheVariants as vp;
ghost use Rattle.run_words.specs.Command.{option_rule, bare_app, kept_app, sand_app};

use clap::builder::ValueParser;
use clap::{Arg, ArgAction, Command};
use std::alloc::{AllocError, Global};

// An option `--name TEXT`.
fn text_option<'a>(alloc: Global, name: &'a str) -> Arg<'a>
    ensures rule { rule_of result ≡ option_rule name.entry.now None }
    ensures local { result.global ≡ false }
{
    Arg::new(alloc, name).long(name).action(ArgAction::Set)
}

// An option `--name N`, from the least number to the most.
fn number_option<'a>(alloc: Global, name: &'a str, least: u64, most: u64) -> Arg<'a>
    ensures rule { rule_of result ≡ option_rule name.entry.now (Some (vp.Unsigned least most)) }
    ensures local { result.global ≡ false }
{
    text_option(alloc, name).value_parser(ValueParser::Unsigned(least, most))
}

// The command without options.
fn bare_command<'a>(alloc: Global) -> Command<'a>
    ensures { app_of result ≡ bare_app }
{
    Command::new(alloc, "sand")
        .no_binary_name(true)
        .disable_help_flag(true)
        .disable_version_flag(true)
}

// The command.
pub(crate) fn sand_command<'a>(alloc: Global) -> Result<Command<'a>, AllocError>
    ensures { IfOk result (λ command. app_of command ≡ sand_app) }
{
    let command = bare_command(alloc).arg(number_option(alloc, "frames", 16, 4096))?;
    let command = command.arg(text_option(alloc, "store"))?;
    command.arg(number_option(alloc, "workload", 1, 100_000))
}

// The command that also takes the name of a journal.
pub(crate) fn kept_command<'a>(alloc: Global) -> Result<Command<'a>, AllocError>
    ensures { IfOk result (λ command. app_of command ≡ kept_app) }
{
    sand_command(alloc)?.arg(text_option(alloc, "journal"))
}
