//! The preparation of a call's step on a board, by the kind of its instruction.
ghost use Rattle.std.specs.Prelude.{◌≡◌, ◌+◌, ◌<◌, ◌^◌, MatchOption};
ghost use Rattle.core_cells.specs.Cells.{IsUnprepared};
ghost use Rattle.core_cells.specs.Names.{AreThere};
ghost use Rattle.factored_core.specs.Changes.{Stands, IsPreparedStep};
ghost use Rattle.factored_core.specs.Ready.{HasCells, IsAllowedCall, IsOpen};

use crate::prepared::Prepared;
use crate::ranges::call_ranges;
use crate::{gates, measurements, new_qubits, transfers, two_qubit_gates};
use core_cells::{Board, held_node};
use network_model::{Call, Kind, kind_of};
use qron_link::Dice;
use virtual_node::{NodeCell, Shape};

/// Prepares the step of a call: each cell that it touches has its next value then, and no other. The values stay.
/// A word is drawn exactly where the step draws one, and it is the dice's next.
pub fn prepare<B: Board, D: Dice>(
    board: &mut B,
    shape: &Shape,
    call: &Call,
    dice: &mut D,
) -> Prepared
    requires stands { Stands shape.now (B.cells board.old) }
    requires has { HasCells shape.now call.now (B.cells board.old) }
    requires unprepared { IsUnprepared (B.cells board.old) }
    requires allowed { IsAllowedCall shape.now call.now }
    requires words { D.taken dice.old < 2 ^ 63 }
    ensures step { IsPreparedStep shape.now (B.cells board.old) (B.cells board.new) result }
    ensures there { AreThere (B.cells board.old) result.touched }
    ensures call { result.entry.call ≡ call.now }
    ensures word { MatchOption result.entry.word (D.taken dice.new ≡ D.taken dice.old)
        (λ w. (w ≡ D.word (D.key dice.old) (D.begun_seat dice.old) (D.begun_serial dice.old) (D.taken dice.old)) × (D.taken dice.new ≡ D.taken dice.old + 1)) }
    ensures key { D.key dice.new ≡ D.key dice.old }
    ensures seat { D.begun_seat dice.new ≡ D.begun_seat dice.old }
    ensures serial { D.begun_serial dice.new ≡ D.begun_serial dice.old }
{
    let own = own_node(board, shape, call);
    match kind_of(&call.command.instr) {
        Kind::Idle => gates::idle(board, shape, call, &own),
        Kind::Gate(gate) => gates::one(board, shape, call, &own, gate),
        Kind::Inexact => gates::inexact(board, shape, call, &own),
        Kind::Two(gate, id) => two_qubit_gates::two(board, shape, call, &own, gate, id),
        Kind::Measure(after, told) => {
            measurements::measure(board, shape, call, own, after, told, dice)
        }
        Kind::Make => new_qubits::make(board, shape, call, own),
        Kind::Pair(remote) => new_qubits::pair(board, shape, call, own, &remote),
        Kind::Send(remote) => transfers::send(board, shape, call, own, &remote),
        Kind::Receive(line) => transfers::receive(board, shape, call, own, line),
        // it comes one by one
        Kind::Unrolled => unreachable!(),
    }
}

/// The value of the call's own node, with which the board is open for the call.
fn own_node<B: Board>(board: &mut B, _shape: &Shape, call: &Call) -> NodeCell
    requires stands { Stands _shape.now (B.cells board.old) }
    requires has { HasCells _shape.now call.now (B.cells board.old) }
    requires unprepared { IsUnprepared (B.cells board.old) }
    requires allowed { IsAllowedCall _shape.now call.now }
    ensures same { B.cells board.new ≡ B.cells board.old }
    ensures open { IsOpen _shape.now call.now (B.cells board.new) result }
{
    call_ranges(call);
    let own = held_node(board, call.node);
    own.facts();
    own
}
