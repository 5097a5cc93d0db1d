// The operands of a line, in order.
ghost use Rattle.std.specs.Prelude.{◌≡◌, map};
ghost use Rattle.text_lines.specs.Reading.{◌or◌};
ghost use Rattle.script.specs.Commands.{command, alone_in, on_qubit_in, turn_in, both_in, transfer_in, command_in, turn, both, transfer, port_in, id_in};

use crate::fault::ScriptWhy;
use crate::verb::{Axis, Gate, Kind, Way};
use cqc_model::{Command, Instr, Remote};
use text_lines::{address, number, number_between};

// A command without options.
fn command(qubit: u16, instr: Instr) -> Command
    ensures { result ≡ command qubit instr }
{
    Command {
        qubit,
        instr,
        notify: false,
        block: false,
    }
}

/// A number of 16 bits.
pub(crate) fn id_in(word: &[u8]) -> Result<u16, ScriptWhy>
    ensures { result ≡ (id_in word.now or ScriptWhy.Number) }
{
    let id = number(word, 65_535).ok_or(ScriptWhy::Number)?;
    Ok(id as u16)
}

// A port.
fn port_in(word: &[u8]) -> Result<u16, ScriptWhy>
    ensures { result ≡ (port_in word.now or ScriptWhy.Number) }
{
    let port = number_between(word, 1, 65_535).ok_or(ScriptWhy::Number)?;
    Ok(port as u16)
}

fn turn(axis: Axis, step: u8) -> Instr
    ensures { result ≡ turn axis step }
{
    match axis {
        Axis::X => Instr::RotX(step),
        Axis::Y => Instr::RotY(step),
        Axis::Z => Instr::RotZ(step),
    }
}

fn both(gate: Gate, other: u16) -> Instr
    ensures { result ≡ both gate other }
{
    match gate {
        Gate::Cnot => Instr::Cnot(other),
        Gate::Cphase => Instr::Cphase(other),
    }
}

fn transfer(way: Way, remote: Remote) -> Instr
    ensures { result ≡ transfer way remote }
{
    match way {
        Way::Send => Instr::Send(remote),
        Way::Epr => Instr::Epr(remote),
    }
}

fn alone_in(instr: Instr, operands: &[&[u8]]) -> Result<Command, ScriptWhy>
    ensures { result ≡ alone_in instr (map (λ word. word.now) operands.now) }
{
    let [] = operands else {
        return Err(ScriptWhy::Count);
    };
    Ok(command(0, instr))
}

#[tactic(auto, unfolding(crate::specs::Commands::on_qubit_in))]
fn on_qubit_in(instr: Instr, operands: &[&[u8]]) -> Result<Command, ScriptWhy>
    ensures { result ≡ on_qubit_in instr (map (λ word. word.now) operands.now) }
{
    let [qubit] = operands else {
        return Err(ScriptWhy::Count);
    };
    Ok(command(id_in(qubit)?, instr))
}

#[tactic(auto, unfolding(crate::specs::Commands::turn_in))]
fn turn_in(axis: Axis, operands: &[&[u8]]) -> Result<Command, ScriptWhy>
    ensures { result ≡ turn_in axis (map (λ word. word.now) operands.now) }
{
    let [qubit, step] = operands else {
        return Err(ScriptWhy::Count);
    };
    let qubit = id_in(qubit)?;
    let step = number(step, 255).ok_or(ScriptWhy::Number)? as u8;
    Ok(command(qubit, turn(axis, step)))
}

#[tactic(auto, unfolding(crate::specs::Commands::both_in))]
fn both_in(gate: Gate, operands: &[&[u8]]) -> Result<Command, ScriptWhy>
    ensures { result ≡ both_in gate (map (λ word. word.now) operands.now) }
{
    let [qubit, other] = operands else {
        return Err(ScriptWhy::Count);
    };
    Ok(command(id_in(qubit)?, both(gate, id_in(other)?)))
}

#[tactic(auto, unfolding(crate::specs::Commands::transfer_in))]
fn transfer_in(way: Way, operands: &[&[u8]]) -> Result<Command, ScriptWhy>
    ensures { result ≡ transfer_in way (map (λ word. word.now) operands.now) }
{
    let [qubit, app, node, port] = operands else {
        return Err(ScriptWhy::Count);
    };
    let qubit = id_in(qubit)?;
    let app = id_in(app)?;
    let node = address(node).ok_or(ScriptWhy::Number)?;
    let port = port_in(port)?;
    Ok(command(qubit, transfer(way, Remote { app, port, node })))
}

/// The command of a kind, with these operands.
pub(crate) fn command_in(kind: Kind, operands: &[&[u8]]) -> Result<Command, ScriptWhy>
    ensures { result ≡ command_in kind (map (λ word. word.now) operands.now) }
{
    match kind {
        Kind::Alone(instr) => alone_in(instr, operands),
        Kind::OnQubit(instr) => on_qubit_in(instr, operands),
        Kind::Turn(axis) => turn_in(axis, operands),
        Kind::Both(gate) => both_in(gate, operands),
        Kind::Transfer(way) => transfer_in(way, operands),
        Kind::Allocate => on_qubit_in(Instr::Allocate, operands),
    }
}
