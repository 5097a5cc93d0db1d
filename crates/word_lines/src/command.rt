// The commands by which clap reads the words behind the first.
ghost use Rattle.std.specs.Prelude.{◌≡◌, false, true, map, string_bytes, IfOk};
ghost use Rattle.clap.specs.Words.{app_of, rule_of, is_simple, is_simple_and_free};
ghost use Rattle.word_lines.specs.Commands.{text_rule, number_rule, bare_app, app_for, Finds};

use crate::asked::Mode;
use clap::error::ErrorKind;
use clap::{Arg, ArgAction, ArgMatches, Command};
use std::alloc::{AllocError, Global};

// A word that may be anything.
fn text_argument<'a>(alloc: Global, id: &'a str, required: bool) -> Arg<'a>
    ensures rule { rule_of result ≡ text_rule required id.entry.now }
    ensures local { result.global ≡ false }
{
    Arg::new(alloc, id)
        .required(required)
        .action(ArgAction::Set)
}

// A number from 1 on. Clap lets a plus and leading zeros stand, so the text is read again.
fn number_argument<'a>(alloc: Global, id: &'a str, most: u32) -> Arg<'a>
    ensures rule { rule_of result ≡ number_rule id.entry.now most }
    ensures local { result.global ≡ false }
{
    Arg::new(alloc, id)
        .required(true)
        .action(ArgAction::Set)
        .value_parser(clap::value_parser!(u32).range(1..=i64::from(most)))
}

// A command without arguments, and without flags for help and version.
fn bare_command<'a>(alloc: Global, name: &'a str) -> Command<'a>
    ensures { app_of result ≡ bare_app name.entry.now }
{
    Command::new(alloc, name)
        .no_binary_name(true)
        .disable_help_flag(true)
        .disable_version_flag(true)
}

/// The command that reads the words behind a line's first.
pub(crate) fn command_of<'a>(alloc: Global, mode: Mode) -> Result<Command<'a>, AllocError>
    ensures { IfOk result (λ command. app_of command ≡ app_for mode) }
{
    match mode {
        Mode::Pipe => bare_command(alloc, "pipe").arg(text_argument(alloc, "settings", false)),
        Mode::Replay => bare_command(alloc, "replay")
            .arg(text_argument(alloc, "settings", true))?
            .arg(text_argument(alloc, "schedule", true)),
        Mode::Serve => bare_command(alloc, "serve").arg(text_argument(alloc, "settings", true)),
        Mode::Talk => bare_command(alloc, "talk")
            .arg(text_argument(alloc, "address", true))?
            .arg(number_argument(alloc, "port", 65_535))?
            .arg(text_argument(alloc, "script", true)),
        Mode::Drill => bare_command(alloc, "drill").arg(number_argument(alloc, "rounds", 100_000)),
    }
}

/// What a command finds in the words, or nothing where it refuses them.
pub(crate) fn found_in<'a>(
    command: Command<'a>,
    words: &'a [String],
) -> Result<Option<ArgMatches<'a>>, AllocError>
    requires simple { is_simple (app_of command) ≡ true }
    requires free { is_simple_and_free (app_of command) ≡ true }
    ensures { IfOk result (Finds (app_of command.entry) (map string_bytes words.now)) }
{
    match command.try_get_matches_from(words) {
        Ok(matches) => Ok(Some(matches)),
        Err(error) => {
            if error.kind() == ErrorKind::OutOfMemory {
                Err(AllocError)
            } else {
                Ok(None)
            }
        }
    }
}
