// One round of a command list, command by command.
ghost use Rattle.std.specs.Prelude.{◌≡◌, ◌≢◌, ◌≤◌, length, drop, replicate, IsOk};
ghost use Rattle.cqc_model.specs.declared.Instr.TheVariants.{Allocate};
ghost use Rattle.cqc_model.specs.Plan.{commands, unrolled, body_limit};
ghost use Rattle.cqc_program.specs.Rounds.{GoesOn};

use cqc_wire::{Command, Instr, command_at};

/// A command that is asked so many times.
#[derive(Clone, Copy, PartialEq, Eq, Debug, Drop)]
pub struct Copies {
    pub command: Command,
    pub times: u16,
}

/// How far the rounds of a body have come.
#[derive(Clone, Copy, PartialEq, Eq, Debug, Drop)]
pub struct Stand {
    /// How many rounds follow this one.
    pub rounds: u8,
    /// Where this round goes on behind what is asked.
    pub at: u32,
    /// What is asked next; None at the end.
    pub asked: Option<Copies>,
    /// Whether a NOTIFY counted so far.
    pub noticed: bool,
}

/// What a command asks: ALLOCATE asks NEW as often as its count says.
pub fn copies_of(command: Command) -> Copies
    ensures copies { unrolled command ≡ replicate result.times result.command }
    ensures allowed { result.command.instr ≢ Allocate }
{
    if command.instr == Instr::Allocate {
        let new = Command {
            qubit: 0,
            instr: Instr::New,
            ..command
        };
        return Copies {
            command: new,
            times: command.qubit,
        };
    }
    Copies { command, times: 1 }
}

/// Goes on to the next command of this round that asks for something, past ALLOCATEs with count 0.
pub fn next_in_round(body: &[u8], stand: Stand) -> Stand
    requires short { length body.now ≤ body_limit }
    requires within { stand.at ≤ length body.now }
    requires passed { IsOk (commands (drop stand.at body.now)) }
    ensures { GoesOn body.now stand result }
{
    let mut at = stand.at;
    let mut noticed = stand.noticed;
    while (at as usize) < body.len() {
        let step = command_at(body, at);
        at = step.next;
        noticed |= step.command.notify;
        let copies = copies_of(step.command);
        if copies.times > 0 {
            return Stand {
                at,
                noticed,
                asked: Some(copies),
                ..stand
            };
        }
    }
    Stand {
        at,
        noticed,
        asked: None,
        ..stand
    }
}
