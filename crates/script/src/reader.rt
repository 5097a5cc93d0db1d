// Reading a script, line by line.
ghost use Rattle.std.specs.Prelude.{◌≤◌, length};
ghost use Rattle.script.specs.Script.{script_of};
ghost use Rattle.script.specs.Views.{Gives};

use crate::draft::{DraftScript, take_line};
use crate::fault::{ScriptFault, ScriptWhy};
use cqc_model::{Command, Head};
use std::alloc::Global;
use text_lines::{LineFault, Lines};

/// A message to be sent: what it is, and its commands.
#[derive(Drop)]
pub struct Message {
    pub head: Head,
    pub list: Vec<Command>,
}

/// What a text says: messages, or a first refusal. Where memory was short, nothing is known of the text.
#[derive(Drop)]
pub enum ScriptRead {
    Read(Vec<Message>),
    Refused(ScriptFault),
    OutOfMemory,
}

/// The messages that a text says, or its first refusal.
pub fn read_script(alloc: Global, text: &[u8]) -> ScriptRead
    requires { length text.now ≤ 16_777_216 }
    ensures { Gives result (script_of text.now) }
{
    let mut draft = DraftScript {
        app: 0,
        pending: Vec::new(alloc),
        messages: Vec::new(alloc),
    };
    let mut number = 0;
    for line in Lines::of(text) {
        number += 1;
        match take_line(alloc, &mut draft, line) {
            Ok(()) => {}
            Err(LineFault::Refused(why)) => {
                return ScriptRead::Refused(ScriptFault { line: number, why });
            }
            Err(LineFault::OutOfMemory) => return ScriptRead::OutOfMemory,
        }
    }
    if !draft.pending.is_empty() {
        return ScriptRead::Refused(ScriptFault {
            line: number + 1,
            why: ScriptWhy::Pending,
        });
    }
    ScriptRead::Read(draft.messages)
}
