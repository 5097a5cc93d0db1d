// What one line adds to a schedule.
ghost use Rattle.std.specs.Prelude.{◌≡◌, ◌≤◌, map, option_map, IfOk, IfSome};
ghost use Rattle.text_lines.specs.Reading.{Takes};
ghost use Rattle.schedule.specs.Schedule.{below, turns_in, input_of, connection_line, turns_line, line_of, take_line};
ghost use Rattle.schedule.specs.Views.{plans};

use crate::plans::{Planned, Schedule, Why};
use std::alloc::{AllocError, Global};
use text_lines::{LineFault, content, hex_bytes, is_passed_over, number, number_between, words};

/// What comes of taking a line.
type Taken = Result<(), LineFault<Why>>;

/// The most connections of a schedule.
const MOST_CONNECTIONS: usize = 64;

/// The most turns of a schedule.
const MOST_TURNS: usize = 1_048_576;

/// The most bytes that a sink has room for.
const MOST_ROOM: u64 = 1_048_576;

// A number below `end`, of a node or a connection.
fn below(word: &[u8], end: usize) -> Option<u8>
    ensures { result ≡ below end word.now }
{
    let n = number(word, 255)?;
    if (n as usize) < end {
        Some(n as u8)
    } else {
        None
    }
}

// How many turns a line gives.
fn turns_in(word: &[u8]) -> Option<usize>
    ensures value { result ≡ turns_in word.now }
    ensures most { IfSome result (λ n. n ≤ 1_048_576) }
{
    let turns = number_between(word, 1, MOST_TURNS as u64)?;
    Some(turns as usize)
}

// The bytes of an input.
fn input_of(alloc: Global, word: &[u8]) -> Result<Option<Vec<u8>>, AllocError>
    ensures { IfOk result (λ bytes. option_map (λ list. list.items) bytes ≡ input_of word.now) }
{
    if word == b"-".as_slice() {
        return Ok(Some(Vec::new(alloc)));
    }
    hex_bytes(alloc, word)
}

// Adds the connection of a line's operands.
#[tactic(auto, unfolding(crate::specs::Schedule::connection_line))]
fn connection_line(alloc: Global, nodes: u8, schedule: &mut Schedule, operands: &[&[u8]]) -> Taken
    ensures { Takes result (plans schedule.new) (connection_line nodes (plans schedule.old) (map (λ word. word.now) operands.now)) }
{
    let [node, room, input] = operands else {
        return Err(LineFault::Refused(Why::Count));
    };
    let number_fault = LineFault::Refused(Why::Number);
    let node = below(node, nodes as usize).ok_or(number_fault)?;
    let room = number(room, MOST_ROOM).ok_or(number_fault)?;
    let bytes = input_of(alloc, input)?.ok_or(LineFault::Refused(Why::Hex))?;
    if schedule.plans.len() >= MOST_CONNECTIONS {
        return Err(LineFault::Refused(Why::Many));
    }
    schedule.plans.push(Planned {
        node,
        room: room as u32,
        bytes,
    })?;
    Ok(())
}

// Adds the turns of a line's operands.
#[tactic(auto, unfolding(crate::specs::Schedule::turns_line))]
fn turns_line(schedule: &mut Schedule, operands: &[&[u8]]) -> Taken
    ensures { Takes result (plans schedule.new) (turns_line (plans schedule.old) (map (λ word. word.now) operands.now)) }
{
    let [connection, count] = operands else {
        return Err(LineFault::Refused(Why::Count));
    };
    let number_fault = LineFault::Refused(Why::Number);
    let connection = below(connection, schedule.plans.len()).ok_or(number_fault)?;
    let count = turns_in(count).ok_or(number_fault)?;
    let turns = schedule.order.len() + count;
    if turns > MOST_TURNS {
        return Err(LineFault::Refused(Why::Many));
    }
    schedule.order.resize(turns, u16::from(connection))?;
    Ok(())
}

// Takes the words of a line.
fn take_words(alloc: Global, nodes: u8, schedule: &mut Schedule, words: &[&[u8]]) -> Taken
    ensures { Takes result (plans schedule.new) (line_of nodes (plans schedule.old) (map (λ word. word.now) words.now)) }
{
    let [word, operands @ ..] = words else {
        return Err(LineFault::Refused(Why::Word));
    };
    if *word == b"c".as_slice() {
        connection_line(alloc, nodes, schedule, operands)
    } else if *word == b"s".as_slice() {
        turns_line(schedule, operands)
    } else {
        Err(LineFault::Refused(Why::Word))
    }
}

/// Takes a line, with or without LF.
pub(crate) fn take_line(alloc: Global, nodes: u8, schedule: &mut Schedule, line: &[u8]) -> Taken
    ensures { Takes result (plans schedule.new) (take_line nodes (plans schedule.old) line.now) }
{
    let line = content(line);
    if is_passed_over(line) {
        return Ok(());
    }
    let words = words(alloc, line)?;
    take_words(alloc, nodes, schedule, words.as_slice())
}
