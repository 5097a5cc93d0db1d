// Messages to be sent.
ghost use Rattle.std.specs.Prelude.{◌≡◌, ◌+◌, ◌≤◌, length, MatchResult};
ghost use Rattle.cqc_model.specs.Wire.{instr_number, options_of, spell_header, spell_remote, spell_extra, spell_command, spell_list, head_kind, head_app, message_body, spell_message};
ghost use Rattle.cqc_model.specs.Ranges.{MayCarry};
ghost use Rattle.cqc_model.specs.Plan.{command_limit};
ghost use Rattle.cqc_wire.specs.Room.{WasPut, StandsInFront, HasNoRoom};

use crate::bytes::put;
use crate::commands::{BLOCK, COMMAND_SIZE, NOTIFY, size_of_command};
use crate::header::header_bytes;
use crate::{kind, number};
use cqc_model::{Command, Head, Instr, Remote};

// The bytes of a header.
const HEADER_SIZE: usize = 8;

// The bytes of a FACTORY in front of its commands: repeats (1), options (1).
const FACTORY_SIZE: usize = 2;

/// The room is shorter than the message, which has `need` bytes.
#[derive(Clone, Copy, PartialEq, Eq, Debug, Drop)]
pub struct NoRoom {
    pub need: u32,
}

// The number of an instruction.
fn number_of(instr: &Instr) -> u8
    ensures { result ≡ instr_number instr.now }
{
    match instr {
        Instr::I => number::I,
        Instr::New => number::NEW,
        Instr::Measure => number::MEASURE,
        Instr::MeasureInplace => number::MEASURE_INPLACE,
        Instr::Reset => number::RESET,
        Instr::Send(_) => number::SEND,
        Instr::Recv => number::RECV,
        Instr::Epr(_) => number::EPR,
        Instr::EprRecv => number::EPR_RECV,
        Instr::X => number::X,
        Instr::Z => number::Z,
        Instr::Y => number::Y,
        Instr::T => number::T,
        Instr::RotX(_) => number::ROT_X,
        Instr::RotY(_) => number::ROT_Y,
        Instr::RotZ(_) => number::ROT_Z,
        Instr::H => number::H,
        Instr::K => number::K,
        Instr::Cnot(_) => number::CNOT,
        Instr::Cphase(_) => number::CPHASE,
        Instr::Allocate => number::ALLOCATE,
        Instr::Release => number::RELEASE,
    }
}

// The byte of the options.
fn options_byte(notify: bool, block: bool) -> u8
    ensures { result ≡ options_of notify block }
{
    u8::from(notify) << NOTIFY | u8::from(block) << BLOCK
}

// The bytes of a remote application.
fn remote_bytes(remote: &Remote) -> [u8; 8]
    ensures { result ≡ spell_remote remote.now }
{
    let a = remote.app.to_be_bytes();
    let p = remote.port.to_be_bytes();
    let n = remote.node.to_be_bytes();
    [a[0], a[1], p[0], p[1], n[0], n[1], n[2], n[3]]
}

// Puts the extra header of an instruction at a place, and gives the place behind it.
fn put_extra(out: &mut [u8], at: usize, instr: &Instr) -> usize
    requires { at + length (spell_extra instr.now) ≤ length out.old }
    ensures { WasPut out.old out.new at (spell_extra instr.now) result }
{
    match instr {
        Instr::Send(remote) | Instr::Epr(remote) => put(out, at, &remote_bytes(remote)),
        Instr::RotX(step) | Instr::RotY(step) | Instr::RotZ(step) => put(out, at, &[*step]),
        Instr::Cnot(qubit) | Instr::Cphase(qubit) => put(out, at, &qubit.to_be_bytes()),
        Instr::I | Instr::New | Instr::Allocate | Instr::Release => at,
        Instr::Measure | Instr::MeasureInplace | Instr::Reset => at,
        Instr::Recv | Instr::EprRecv => at,
        Instr::X | Instr::Z | Instr::Y | Instr::T | Instr::H | Instr::K => at,
    }
}

// Puts a command at a place, and gives the place behind it.
fn put_command(out: &mut [u8], at: usize, command: &Command) -> usize
    requires { at + length (spell_command command.now) ≤ length out.old }
    ensures { WasPut out.old out.new at (spell_command command.now) result }
{
    let qubit = command.qubit.to_be_bytes();
    let options = options_byte(command.notify, command.block);
    let front = [qubit[0], qubit[1], number_of(&command.instr), options];
    let at = put(out, at, &front);
    put_extra(out, at, &command.instr)
}

// Puts commands at a place, and gives the place behind them.
fn put_list(out: &mut [u8], at: usize, list: &[Command]) -> usize
    requires { at + length (spell_list list.now) ≤ length out.old }
    ensures { WasPut out.old out.new at (spell_list list.now) result }
{
    let mut at = at;
    for command in list {
        at = put_command(out, at, command);
    }
    at
}

// The bytes of commands.
fn size_of_list(list: &[Command]) -> usize
    requires { length list.now ≤ command_limit }
    ensures { result ≡ length (spell_list list.now) }
{
    let mut size = 0;
    for command in list {
        size += size_of_command(number_of(&command.instr));
    }
    size
}

// The bytes behind the header of a message.
fn size_of_body(head: &Head, list: &[Command]) -> usize
    requires { length list.now ≤ command_limit }
    ensures { result ≡ length (message_body head.now list.now) }
{
    match head {
        Head::Hello { .. } => 0,
        Head::Commands { .. } => size_of_list(list),
        Head::Factory { .. } => FACTORY_SIZE + size_of_list(list),
    }
}

// The header of a message.
fn header_of_message(head: &Head, size: u32) -> [u8; HEADER_SIZE]
    ensures { result ≡ spell_header (head_kind head.now) (head_app head.now) size }
{
    match *head {
        Head::Hello { app } => header_bytes(kind::HELLO, app, size),
        Head::Commands { app } => header_bytes(kind::COMMAND, app, size),
        Head::Factory { app, .. } => header_bytes(kind::FACTORY, app, size),
    }
}

// Puts the body of a message at a place, and gives the place behind it.
fn put_message_body(out: &mut [u8], at: usize, head: &Head, list: &[Command]) -> usize
    requires room { at + length (message_body head.now list.now) ≤ length out.old }
    ensures { WasPut out.old out.new at (message_body head.now list.now) result }
{
    match *head {
        Head::Hello { .. } => at,
        Head::Commands { .. } => put_list(out, at, list),
        Head::Factory {
            repeats,
            notify,
            ..
        } => {
            let at = put(out, at, &[repeats, options_byte(notify, false)]);
            put_list(out, at, list)
        }
    }
}

/// Writes the bytes of a message to the front of `out`, and gives their number. The rest of `out` stays.
///
/// # Errors
/// `NoRoom` exactly where `out` is shorter than the message; then `out` is as before.
pub fn write_message(out: &mut [u8], head: &Head, list: &[Command]) -> Result<usize, NoRoom>
    requires few { length list.now ≤ command_limit }
    requires alone { MayCarry head.now list.now }
    ensures { MatchResult result (λ size. StandsInFront (spell_message head.now list.now) out.old out.new size)
        (λ e. HasNoRoom (spell_message head.now list.now) out.old out.new e) }
{
    let size = size_of_body(head, list);
    let need = HEADER_SIZE + size;
    if out.len() < need {
        return Err(NoRoom { need: need as u32 });
    }
    let at = put(out, 0, &header_of_message(head, size as u32));
    Ok(put_message_body(out, at, head, list))
}
