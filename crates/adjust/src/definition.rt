//! The command line as clap's definition, and what clap finds in the words.
ghost use Rattle.std.specs.Prelude.{◌≡◌, IfOk, true, false, MatchOption};
ghost use Rattle.clap.specs.Words.{app_of, found_of, rule_of, rows_of};
ghost use Rattle.adjust.specs.CommandLine.{are_taken, command_line, given};
ghost use Rattle.adjust.specs.CommandLine.{operand_rule, option_rule, words_of};
ghost use Rattle.adjust.specs.Options.{row_of};

use crate::options::{Form, OptionRow, rows};
use clap::error::ErrorKind;
use clap::{Arg, ArgAction, ArgMatches, Command};
use std::alloc::{AllocError, Global};

fn option_arg<'a>(alloc: Global, row: &OptionRow) -> Arg<'a>
    ensures rule { rule_of result ≡ option_rule (row_of row.now) }
    ensures local { result.global ≡ false }
{
    let action = match row.form {
        Form::Flag => ArgAction::SetTrue,
        _ => ArgAction::Set,
    };
    Arg::new(alloc, row.name).long(row.name).action(action)
}

fn operand<'a>(alloc: Global, name: &'static str) -> Arg<'a>
    ensures rule { rule_of result ≡ operand_rule name.now }
    ensures local { result.global ≡ false }
{
    Arg::new(alloc, name).action(ArgAction::Set)
}

fn definition<'a>(alloc: Global) -> Result<Command<'a>, AllocError>
    ensures { IfOk result (λ command. app_of command ≡ command_line) }
{
    let mut command = Command::new(alloc, "waitress-serve")
        .no_binary_name(true)
        .disable_help_flag(true);
    for row in rows() {
        command = command.arg(option_arg(alloc, row))?;
    }
    command
        .arg(operand(alloc, "APP"))?
        .arg(operand(alloc, "ARG"))
}

/// What clap finds in the words, or None where the command line has no place for one of them.
pub(crate) fn find_given<'a>(
    alloc: Global,
    words: &'a [String],
) -> Result<Option<ArgMatches<'a>>, AllocError>
    ensures { IfOk result (λ found. MatchOption found (are_taken (words_of words.entry.now) ≡ false)
        (λ matches. (are_taken (words_of words.entry.now) ≡ true)
        × (rows_of (found_of matches) ≡ given (words_of words.entry.now)))) }
{
    match definition(alloc)?.try_get_matches_from(words) {
        Ok(matches) => Ok(Some(matches)),
        Err(error) => match error.kind() {
            ErrorKind::OutOfMemory => Err(AllocError),
            _ => Ok(None),
        },
    }
}
