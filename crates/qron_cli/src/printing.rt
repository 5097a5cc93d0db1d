// What is printed to the pipe.
ghost use Rattle.std.specs.Prelude.{◌≡◌, ◌++◌, codes, map, string_bytes, IfOk, Some};
ghost use Rattle.std.specs.Fmt.{decimal};
ghost use Rattle.cqc_server.specs.InMemory.{shown_end};
ghost use Rattle.qron_cli.specs.Lines.{word_of, hex_or_dash, end_line, end_lines};
ghost use Rattle.qron_cli.specs.Printed.{Printed};
ghost use Rattle.qron_cli.specs.Statuses.{status_of};

use crate::complaint::Complaint;
use crate::house::House;
use crate::status::Outcome;
use cqc_server::{Actor, Shown, Told};
use hex::encode;
use qron_link::{Dice, MemLink, NotSent, send_link};
use session_model::Ending;
use std::alloc::{AllocError, Global};

/// How an ending is printed.
pub(crate) fn word_of(ending: &Ending) -> &'static str
    ensures { result.now ≡ word_of ending.now }
{
    match ending {
        Ending::Clean => "clean",
        Ending::Cut { .. } => "cut",
        Ending::ReadFault => "readfault",
        Ending::WriteFault => "writefault",
        Ending::Full { .. } => "full",
        Ending::Spent { .. } => "spent",
    }
}

// Bytes in hexadecimal, and `-` for none.
fn hex_or_dash(alloc: Global, bytes: &[u8]) -> Result<String, AllocError>
    ensures { IfOk result (λ text. string_bytes text ≡ hex_or_dash bytes.now) }
{
    if bytes.is_empty() {
        return String::from_str(alloc, "-");
    }
    encode(alloc, bytes)
}

// The line of a connection that has ended: its number, its ending, and what was written.
fn ended_line(
    alloc: Global,
    number: usize,
    ending: &Ending,
    written: &[u8],
) -> Result<String, AllocError>
    ensures { IfOk result (λ line. string_bytes line ≡ end_line number (Some (record { ending = ending.now; written = written.now }))) }
{
    let bytes = hex_or_dash(alloc, written)?;
    three_words(alloc, number, word_of(ending), bytes.as_str())
}

/// Adds a number.
pub(crate) fn push_number(text: &mut String, number: usize) -> Result<(), AllocError>
    ensures { IfOk result (λ _. string_bytes text.new ≡ string_bytes text.old ++ decimal number) }
{
    write!(text, "{number}")
}

/// Adds a blank and a word.
pub(crate) fn push_word(text: &mut String, word: &str) -> Result<(), AllocError>
    ensures { IfOk result (λ _. string_bytes text.new ≡ string_bytes text.old ++ codes " " ++ word.now) }
{
    text.push(' ')?;
    text.push_str(word)
}

// A line of a number and two words.
fn three_words(alloc: Global, number: usize, word: &str, last: &str) -> Result<String, AllocError>
    ensures { IfOk result (λ line. string_bytes line ≡ decimal number ++ codes " " ++ word.now ++ codes " " ++ last.now ++ codes "\n") }
{
    let mut line = String::new(alloc);
    push_number(&mut line, number)?;
    push_word(&mut line, word)?;
    push_word(&mut line, last)?;
    line.push('\n')?;
    Ok(line)
}

// The line of a connection, if it has ended.
fn end_line<D: Dice>(
    alloc: Global,
    number: usize,
    actor: &Actor<MemLink, D>,
) -> Result<String, AllocError>
    ensures { IfOk result (λ line. string_bytes line ≡ end_line number (shown_end (⟦<Actor<MemLink, D> as Shown>⟧.seen actor.now))) }
{
    match &actor.ending {
        None => Ok(String::new(alloc)),
        Some(ending) => ended_line(alloc, number, ending, actor.link.written()),
    }
}

/// The lines of connections that have ended, in order.
pub fn end_lines<D: Dice>(alloc: Global, actors: &[Actor<MemLink, D>]) -> Result<String, AllocError>
    ensures { IfOk result (λ text. string_bytes text ≡ end_lines 0 (map shown_end (map (⟦<Actor<MemLink, D> as Shown>⟧.seen) actors.now))) }
{
    let mut text = String::new(alloc);
    for (number, actor) in actors.iter().enumerate() {
        let Ok(line) = end_line(alloc, number, actor) else {
            return Err(AllocError);
        };
        if text.push_str(line.as_str()).is_err() {
            return Err(AllocError);
        }
    }
    Ok(text)
}

/// Prints a text behind work that is done. Where that fails it is a fault.
pub fn print<H: House>(house: &mut H, text: &str, done: Outcome) -> Outcome
    ensures printed { Printed text.now (status_of done) (⟦<H::Pipe as Told>⟧.seen (H.pipe_of house.old)) (⟦<H::Pipe as Told>⟧.seen (H.pipe_of house.new)) (status_of result) }
    ensures facts { H.facts house.new ≡ H.facts house.old }
    ensures posted { H.posted house.new ≡ H.posted house.old }
{
    match send_link(house.pipe(), text.as_bytes()) {
        Ok(()) => done,
        Err(NotSent) => Err(Complaint::Fault),
    }
}
