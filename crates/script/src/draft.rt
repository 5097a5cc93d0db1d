// What the lines of a script make, one after the other.
ghost use Rattle.std.specs.Prelude.{◌≡◌, ◌≤◌, nat_le, false, length, map};
ghost use Rattle.cqc_model.specs.Plan.{body_limit};
ghost use Rattle.text_lines.specs.Reading.{Takes};
ghost use Rattle.cqc_model.specs.Wire.{spell_command, message_body};
ghost use Rattle.script.specs.Commands.{command_in};
ghost use Rattle.script.specs.Drafts.{notify_last, is_hello};
ghost use Rattle.script.specs.Script.{send, app_line, hello_line, go_line, factory_line, command_line, verb_line, line_of, take_line};
ghost use Rattle.script.specs.Views.{draft_of};

use crate::fault::ScriptWhy;
use crate::operands::{command_in, id_in};
use crate::reader::Message;
use crate::verb::{Kind, Verb, verb_of};
use cqc_model::{Command, Head, Instr};
use std::alloc::Global;
use std::mem;
use text_lines::{LineFault, content, is_passed_over, number, words};

/// What the lines so far made: the application of the messages from here on, the commands that wait to be sent, and the messages.
#[derive(Drop)]
pub(crate) struct DraftScript {
    pub(crate) app: u16,
    pub(crate) pending: Vec<Command>,
    pub(crate) messages: Vec<Message>,
}

/// What comes of taking a line.
type Taken = Result<(), LineFault<ScriptWhy>>;

/// The most bytes of a message's body.
const BODY_LIMIT: usize = 65_536;

// How many bytes a command has.
fn size_of(command: &Command) -> usize
    ensures { result ≡ length (spell_command command.now) }
{
    match command.instr {
        Instr::Send(_) | Instr::Epr(_) => 12,
        Instr::RotX(_) | Instr::RotY(_) | Instr::RotZ(_) => 5,
        Instr::Cnot(_) | Instr::Cphase(_) => 6,
        _ => 4,
    }
}

// Whether commands fit a body.
fn fits(head: &Head, list: &[Command]) -> bool
    requires { is_hello head.now ≡ false }
    ensures { result ≡ nat_le (length (message_body head.now list.now)) body_limit }
{
    let mut size = match head {
        Head::Factory { .. } => 2,
        Head::Hello { .. } | Head::Commands { .. } => 0,
    };
    for command in list {
        size += size_of(command);
        if size > BODY_LIMIT {
            return false;
        }
    }
    true
}

// Sets NOTIFY on the last command.
fn notify_last(list: &mut Vec<Command>)
    ensures { list.new.items ≡ notify_last list.old.items }
{
    if let Some(last) = list.last_mut() {
        last.notify = true;
    }
}

// Sends the pending commands under a head.
fn send(alloc: Global, draft: &mut DraftScript, head: Head) -> Taken
    requires { is_hello head ≡ false }
    ensures { Takes result (draft_of draft.new) (send (draft_of draft.old) head draft.old.pending.items) }
{
    if draft.pending.is_empty() {
        return Err(LineFault::Refused(ScriptWhy::Nothing));
    }
    if !fits(&head, draft.pending.as_slice()) {
        return Err(LineFault::Refused(ScriptWhy::Long));
    }
    let list = mem::replace(&mut draft.pending, Vec::new(alloc));
    draft.messages.push(Message { head, list })?;
    Ok(())
}

// The application of the messages from here on.
#[tactic(auto, unfolding(crate::specs::Script::app_line))]
fn app_line(draft: &mut DraftScript, operands: &[&[u8]]) -> Taken
    ensures { Takes result (draft_of draft.new) (app_line (draft_of draft.old) (map (λ word. word.now) operands.now)) }
{
    let [app] = operands else {
        return Err(LineFault::Refused(ScriptWhy::Count));
    };
    draft.app = id_in(app)?;
    Ok(())
}

// A HELLO message.
fn hello_line(alloc: Global, draft: &mut DraftScript, operands: &[&[u8]]) -> Taken
    ensures { Takes result (draft_of draft.new) (hello_line (draft_of draft.old) (map (λ word. word.now) operands.now)) }
{
    let [] = operands else {
        return Err(LineFault::Refused(ScriptWhy::Count));
    };
    if !draft.pending.is_empty() {
        return Err(LineFault::Refused(ScriptWhy::Pending));
    }
    let head = Head::Hello { app: draft.app };
    let list = Vec::new(alloc);
    draft.messages.push(Message { head, list })?;
    Ok(())
}

// A COMMAND message.
fn go_line(alloc: Global, draft: &mut DraftScript, operands: &[&[u8]]) -> Taken
    ensures { Takes result (draft_of draft.new) (go_line (draft_of draft.old) (map (λ word. word.now) operands.now)) }
{
    let [] = operands else {
        return Err(LineFault::Refused(ScriptWhy::Count));
    };
    notify_last(&mut draft.pending);
    let head = Head::Commands { app: draft.app };
    send(alloc, draft, head)
}

// A FACTORY message.
#[tactic(auto, unfolding(crate::specs::Script::factory_line))]
fn factory_line(alloc: Global, draft: &mut DraftScript, operands: &[&[u8]]) -> Taken
    ensures { Takes result (draft_of draft.new) (factory_line (draft_of draft.old) (map (λ word. word.now) operands.now)) }
{
    let [repeats] = operands else {
        return Err(LineFault::Refused(ScriptWhy::Count));
    };
    let repeats = number(repeats, 255).ok_or(LineFault::Refused(ScriptWhy::Number))? as u8;
    let head = Head::Factory {
        app: draft.app,
        repeats,
        notify: true,
    };
    send(alloc, draft, head)
}

// One more command.
#[tactic(auto, unfolding(crate::specs::Script::command_line))]
fn command_line(draft: &mut DraftScript, kind: Kind, operands: &[&[u8]]) -> Taken
    ensures { Takes result (draft_of draft.new) (command_line (draft_of draft.old) (map (λ word. word.now) operands.now) (command_in kind (map (λ word. word.now) operands.now))) }
{
    let command = command_in(kind, operands)?;
    draft.pending.push(command)?;
    Ok(())
}

// Takes a verb with its operands.
fn verb_line(alloc: Global, draft: &mut DraftScript, verb: Verb, operands: &[&[u8]]) -> Taken
    ensures { Takes result (draft_of draft.new) (verb_line (draft_of draft.old) (map (λ word. word.now) operands.now) verb) }
{
    match verb {
        Verb::App => app_line(draft, operands),
        Verb::Hello => hello_line(alloc, draft, operands),
        Verb::Go => go_line(alloc, draft, operands),
        Verb::Factory => factory_line(alloc, draft, operands),
        Verb::Command(kind) => command_line(draft, kind, operands),
    }
}

// Takes the words of a line.
fn take_words(alloc: Global, draft: &mut DraftScript, words: &[&[u8]]) -> Taken
    ensures { Takes result (draft_of draft.new) (line_of (draft_of draft.old) (map (λ word. word.now) words.now)) }
{
    let [word, operands @ ..] = words else {
        return Err(LineFault::Refused(ScriptWhy::Word));
    };
    let verb = verb_of(word).ok_or(LineFault::Refused(ScriptWhy::Word))?;
    verb_line(alloc, draft, verb, operands)
}

/// Takes a line, with or without LF.
pub(crate) fn take_line(alloc: Global, draft: &mut DraftScript, line: &[u8]) -> Taken
    ensures { Takes result (draft_of draft.new) (take_line (draft_of draft.old) line.now) }
{
    let line = content(line);
    if is_passed_over(line) {
        return Ok(());
    }
    let words = words(alloc, line)?;
    take_words(alloc, draft, words.as_slice())
}
