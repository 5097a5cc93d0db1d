// A large valid input, made from a number.
ghost use Rattle.std.specs.Prelude.{◌≡◌, ◌≤◌, ◌++◌, length, IfOk};
ghost use Rattle.cqc_client.specs.Drill.{IsDrill, AddsRound, on_zero, first_list, second_list, spell_commands};

use cqc_wire::{Command, Head, Instr, Remote, write_message};
use std::alloc::{AllocError, Global};

/// What two connections send, and in which order they take their turns.
#[derive(Drop)]
pub struct DrillPlan {
    /// What the connection at the first node sends.
    pub first: Vec<u8>,
    /// What the connection at the second node sends.
    pub second: Vec<u8>,
    /// The connection of each turn: 0 is the first, 1 the second.
    pub order: Vec<u16>,
}

// Application 0 of the second node: port 8822 of 127.0.0.1.
const SECOND_NODE: Remote = Remote {
    app: 0,
    port: 8822,
    node: 0x7F00_0001,
};

// The step of an eighth of a turn.
const EIGHTH: u8 = 32;

// The connections in the order of their turns, in each round.
const TURNS: [u16; 7] = [0, 1, 0, 1, 0, 0, 1];

// The most commands of a message.
const MOST_COMMANDS: usize = 4;

// The most bytes of a message: a header, and commands of at most 12 bytes.
const MESSAGE_SIZE: usize = 8 + 12 * MOST_COMMANDS;

// A command on qubit 0, without options.
fn on_zero(instr: Instr) -> Command
    ensures { result ≡ on_zero instr }
{
    Command {
        qubit: 0,
        instr,
        notify: false,
        block: false,
    }
}

// The commands of the first connection in a round.
fn first_list(round: u32) -> [Command; 4]
    ensures { result ≡ first_list round }
{
    let step = (round % 8) as u8 * EIGHTH;
    [
        on_zero(Instr::Epr(SECOND_NODE)),
        on_zero(Instr::H),
        on_zero(Instr::RotZ(step)),
        on_zero(Instr::Measure),
    ]
}

// The commands of the second connection in each round.
fn second_list() -> [Command; 3]
    ensures { result ≡ second_list 0 }
{
    [
        on_zero(Instr::EprRecv),
        on_zero(Instr::H),
        on_zero(Instr::Measure),
    ]
}

// Adds commands as one message.
fn push_message(bytes: &mut Vec<u8>, list: &[Command]) -> Result<(), AllocError>
    requires { length list.now ≤ 4 }
    ensures { IfOk result (λ _. bytes.new.items ≡ bytes.old.items ++ spell_commands list.now) }
{
    let mut room = [0; MESSAGE_SIZE];
    let Ok(size) = write_message(&mut room, &Head::Commands { app: 0 }, list) else {
        unreachable!()
    };
    bytes.extend_from_slice(&room[..size])
}

// Adds a round.
fn add_round(plan: &mut DrillPlan, round: u32) -> Result<(), AllocError>
    ensures { IfOk result (λ _. AddsRound plan.old plan.new round) }
{
    push_message(&mut plan.first, &first_list(round))?;
    push_message(&mut plan.second, &second_list())?;
    plan.order.extend_from_slice(&TURNS)?;
    Ok(())
}

/// The drill of so many rounds. In each, the first connection makes a pair with the second node and turns its half, the second
/// takes the other half, and both measure.
pub fn drill(alloc: Global, rounds: u32) -> Result<DrillPlan, AllocError>
    requires least { 1 ≤ rounds }
    requires most { rounds ≤ 100_000 }
    ensures { IfOk result (λ plan. IsDrill plan rounds) }
{
    let mut plan = DrillPlan {
        first: Vec::new(alloc),
        second: Vec::new(alloc),
        order: Vec::new(alloc),
    };
    for round in 0..rounds {
        add_round(&mut plan, round)?;
    }
    Ok(plan)
}
