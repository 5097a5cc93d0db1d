// Reading the words that the program is started with.
ghost use Rattle.std.specs.Prelude.{◌≡◌, false, Some, map, option_map, string_bytes, IfOk};
ghost use Rattle.std.specs.List.{list_any};
ghost use Rattle.clap.specs.Matches.{first_value, found_of};
ghost use Rattle.word_lines.specs.Lines.{is_dashed, line_for, line_of};
ghost use Rattle.word_lines.specs.Views.{asked_line, pipe_found, replay_found, serve_found, talk_found, drill_found, line_found};

use crate::asked::{Asked, Mode};
use crate::command::{command_of, found_in};
use clap::ArgMatches;
use network_model::Place;
use std::alloc::{AllocError, Global};
use text_lines::{address, number_between};

// Whether a word begins with `-`.
fn is_dashed(word: &str) -> bool
    ensures { result ≡ is_dashed word.now }
{
    word.starts_with('-')
}

// Whether some word does.
fn any_dashed(words: &[String]) -> bool
    ensures { result ≡ list_any is_dashed (map string_bytes words.now) }
{
    words.iter().any(|word| is_dashed(word.as_str()))
}

// The pipe, with these settings if there are some.
fn pipe_asked(settings: Option<&str>) -> Asked<'_>
    ensures { asked_line result ≡ pipe_found (option_map (λ text. text.now) settings.entry) }
{
    match settings {
        Some(settings) => Asked::PipeWith { settings },
        None => Asked::Pipe,
    }
}

// The replay of these files.
fn replay_asked<'a>(settings: Option<&'a str>, schedule: Option<&'a str>) -> Option<Asked<'a>>
    ensures { option_map asked_line result ≡ replay_found (option_map (λ text. text.now) settings.entry) (option_map (λ text. text.now) schedule.entry) }
{
    let settings = settings?;
    let schedule = schedule?;
    Some(Asked::Replay { settings, schedule })
}

// The serving of a network with these settings.
fn serve_asked(settings: Option<&str>) -> Option<Asked<'_>>
    ensures { option_map asked_line result ≡ serve_found (option_map (λ text. text.now) settings.entry) }
{
    let settings = settings?;
    Some(Asked::Serve { settings })
}

// The talk of these words.
fn talk_asked<'a>(
    host: Option<&'a str>,
    port: Option<&'a str>,
    script: Option<&'a str>,
) -> Option<Asked<'a>>
    ensures { option_map asked_line result ≡ talk_found (option_map (λ text. text.now) host.entry) (option_map (λ text. text.now) port.entry) (option_map (λ text. text.now) script.entry) }
{
    let address = address(host?.as_bytes())?;
    let port = number_between(port?.as_bytes(), 1, 65_535)? as u16;
    let script = script?;
    Some(Asked::Talk {
        place: Place { address, port },
        script,
    })
}

// The drill of this word.
fn drill_asked(rounds: Option<&str>) -> Option<Asked<'_>>
    ensures { option_map asked_line result ≡ drill_found (option_map (λ text. text.now) rounds.entry) }
{
    let rounds = number_between(rounds?.as_bytes(), 1, 100_000)? as u32;
    Some(Asked::Drill { rounds })
}

// What the words that a line's command found ask for.
fn asked_of<'a>(mode: Mode, found: &ArgMatches<'a>) -> Option<Asked<'a>>
    ensures { option_map asked_line result ≡ line_found mode (first_value (found_of found.now)) }
{
    match mode {
        Mode::Pipe => Some(pipe_asked(found.get_str("settings"))),
        Mode::Replay => replay_asked(found.get_str("settings"), found.get_str("schedule")),
        Mode::Serve => serve_asked(found.get_str("settings")),
        Mode::Talk => talk_asked(
            found.get_str("address"),
            found.get_str("port"),
            found.get_str("script"),
        ),
        Mode::Drill => drill_asked(found.get_str("rounds")),
    }
}

// What the words behind a line's first ask for.
fn words_behind<'a>(
    alloc: Global,
    mode: Mode,
    words: &'a [String],
) -> Result<Option<Asked<'a>>, AllocError>
    requires { list_any is_dashed (map string_bytes words.now) ≡ false }
    ensures { IfOk result (λ asked. option_map asked_line asked ≡ line_for mode (map string_bytes words.now)) }
{
    let command = command_of(alloc, mode)?;
    let Some(found) = found_in(command, words)? else {
        return Ok(None);
    };
    Ok(asked_of(mode, &found))
}

/// What the words behind the program's name ask for, or nothing where they are none of its lines.
pub fn read_words<'a>(alloc: Global, words: &'a [String]) -> Result<Option<Asked<'a>>, AllocError>
    ensures { IfOk result (λ asked. option_map asked_line asked ≡ line_of (map string_bytes words.now)) }
{
    let [first, later @ ..] = words else {
        return Ok(None);
    };
    if any_dashed(later) {
        return Ok(None);
    }
    match first.as_str() {
        "pipe" => words_behind(alloc, Mode::Pipe, later),
        "replay" => words_behind(alloc, Mode::Replay, later),
        "serve" => words_behind(alloc, Mode::Serve, later),
        "talk" => words_behind(alloc, Mode::Talk, later),
        "drill" => words_behind(alloc, Mode::Drill, later),
        _ => Ok(None),
    }
}
