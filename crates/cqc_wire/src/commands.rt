// The command list of a body.
ghost use Rattle.std.specs.Prelude.{◌≡◌, ◌+◌, ◌<◌, ◌≤◌, ◌∷◌, length, drop, slice_index, not, IsOk, IsOkAnd, Ok, Err};
ghost use Rattle.cqc_model.specs.Plan.{commands, command_fault, command_of, command_size, extra_size, has_option, is_unknown, instr_of, remote_of, body_limit};
ghost use Rattle.cqc_wire.specs.Body.{command_count};

use crate::bytes::{long_number_at, number_at};
use crate::number;
use cqc_model::{BodyFault, Command, Instr, Remote};

/// The bytes of a command without its extra header: qubit (2), instruction (1), options (1).
pub(crate) const COMMAND_SIZE: usize = 4;

// The options, as bits.
pub(crate) const NOTIFY: u8 = 0;

const ACTION: u8 = 1;

pub(crate) const BLOCK: u8 = 2;

const IFTHEN: u8 = 3;

/// A command of a list, and the place behind it.
#[derive(Clone, Copy, PartialEq, Eq, Debug, Drop)]
pub struct Step {
    pub command: Command,
    pub next: u32,
}

/// The number of commands of a list, or its first fault, at the first byte of its command.
pub fn check_body(list: &[u8]) -> Result<u32, BodyFault>
    requires { length list.now ≤ body_limit }
    ensures { result ≡ command_count (commands list.now) }
{
    let mut at = 0;
    let mut count = 0;
    while at < list.len() {
        let front = list_from(list, at);
        if let Some(fault) = fault_in(front, at as u32) {
            return Err(fault);
        }
        at += size_of_command(front[2]);
        count += 1;
    }
    Ok(count)
}

/// The command that begins at a place of a list without faults, and the place behind it.
///
/// A walk from 0 on that goes from each `next` to the following comes to every command of the list.
pub fn command_at(list: &[u8], at: u32) -> Step
    requires short { length list.now ≤ body_limit }
    requires begins { at < length list.now }
    requires passed { IsOk (commands (drop at list.now)) }
    ensures command { IsOkAnd (commands (drop result.next list.now)) (λ others. commands (drop at list.now) ≡ Ok (result.command ∷ others)) }
    ensures forward { at < result.next }
    ensures within { result.next ≤ length list.now }
{
    let front = list_from(list, at as usize);
    let size = size_of_command(front[2]);
    Step {
        command: command_in(front),
        next: at + size as u32,
    }
}

// The list from a place on.
fn list_from(list: &[u8], at: usize) -> &[u8]
    requires { at ≤ length list.now }
    ensures { result.now ≡ drop at list.now }
{
    &list[at..]
}

// The fault of the command in front, which begins at a place of its list.
fn fault_in(front: &[u8], place: u32) -> Option<BodyFault>
    ensures { result ≡ command_fault place front.now }
{
    if front.len() < COMMAND_SIZE {
        return Some(BodyFault::Short { at: place });
    }
    let number = front[2];
    let options = front[3];
    if !is_known(number) || has_bit(options, ACTION) || has_bit(options, IFTHEN) {
        return Some(BodyFault::Unsupported { at: place });
    }
    if front.len() < size_of_command(number) {
        return Some(BodyFault::Short { at: place });
    }
    None
}

// The command in front, which has no fault.
fn command_in(front: &[u8]) -> Command
    requires begins { 4 ≤ length front.now }
    requires whole { command_size (slice_index front.now 2) ≤ length front.now }
    ensures { result ≡ command_of front.now }
{
    let options = front[3];
    Command {
        qubit: number_at(front, 0),
        instr: instr_in(front[2], &front[COMMAND_SIZE..]),
        notify: has_notify(options),
        block: has_bit(options, BLOCK),
    }
}

// Whether an instruction is known by its number.
fn is_known(number: u8) -> bool
    ensures { result ≡ not (is_unknown number) }
{
    extra_size_of(number).is_some()
}

// The bytes of an instruction's extra header: a rotation's step, another qubit, or a remote application.
fn extra_size_of(number: u8) -> Option<usize>
    ensures { result ≡ extra_size number }
{
    match number {
        number::I..=number::RESET | number::RECV | number::EPR_RECV => Some(0),
        number::X..=number::T | number::H | number::K => Some(0),
        number::ALLOCATE | number::RELEASE => Some(0),
        number::ROT_X..=number::ROT_Z => Some(1),
        number::CNOT | number::CPHASE => Some(2),
        number::SEND | number::EPR => Some(8),
        _ => None,
    }
}

// The bytes of a command with its extra header.
pub(crate) fn size_of_command(number: u8) -> usize
    ensures { result ≡ command_size number }
{
    extra_size_of(number).unwrap_or(0) + COMMAND_SIZE
}

/// Whether the option NOTIFY is set.
pub fn has_notify(options: u8) -> bool
    ensures { result ≡ has_option 0 options }
{
    has_bit(options, NOTIFY)
}

// Whether a bit is set.
fn has_bit(options: u8, bit: u8) -> bool
    requires { bit < 8 }
    ensures { result ≡ has_option bit options }
{
    (options >> bit) & 1 == 1
}

// The remote application of an extra header.
fn remote_in(extra: &[u8]) -> Remote
    requires { 8 ≤ length extra.now }
    ensures { result ≡ remote_of extra.now }
{
    Remote {
        app: number_at(extra, 0),
        port: number_at(extra, 2),
        node: long_number_at(extra, 4),
    }
}

// The instruction of a known number, with its extra header.
fn instr_in(number: u8, extra: &[u8]) -> Instr
    requires { command_size number ≤ 4 + length extra.now }
    ensures { result ≡ instr_of number extra.now }
{
    match number {
        number::NEW => Instr::New,
        number::MEASURE => Instr::Measure,
        number::MEASURE_INPLACE => Instr::MeasureInplace,
        number::RESET => Instr::Reset,
        number::SEND => Instr::Send(remote_in(extra)),
        number::RECV => Instr::Recv,
        number::EPR => Instr::Epr(remote_in(extra)),
        number::EPR_RECV => Instr::EprRecv,
        number::X => Instr::X,
        number::Z => Instr::Z,
        number::Y => Instr::Y,
        number::T => Instr::T,
        number::ROT_X => Instr::RotX(extra[0]),
        number::ROT_Y => Instr::RotY(extra[0]),
        number::ROT_Z => Instr::RotZ(extra[0]),
        number::H => Instr::H,
        number::K => Instr::K,
        number::CNOT => Instr::Cnot(number_at(extra, 0)),
        number::CPHASE => Instr::Cphase(number_at(extra, 0)),
        number::ALLOCATE => Instr::Allocate,
        number::RELEASE => Instr::Release,
        _ => Instr::I,
    }
}
