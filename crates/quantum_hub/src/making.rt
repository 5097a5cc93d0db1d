// The step of a call on a board of lifted cells.
ghost use Rattle.std.specs.Prelude.{◌≡◌, ◌≢◌, [], true, false};
ghost use Rattle.network_model.specs.declared.Line.{Line};
ghost use Rattle.virtual_node.specs.Node.{arrived_map};
ghost use Rattle.held_board.specs.Held.{held_cells};
ghost use Rattle.quantum_hub.specs.Steps.{IsOpenBoard, FitsMade, KeepsValues};

use crate::board::node_of_call;
use factored_core::prepare;
use held_board::HeldBoard;
use network_model::{Call, Entry, Line};
use qron_link::Dice;
use virtual_node::{Look, NodeCell, Shape};

/// What is made of a call on a board.
#[derive(Clone, Copy, PartialEq, Eq, Debug, Drop)]
pub(crate) enum Made {
    /// Its step is prepared, and this is its entry.
    Step(Entry),
    /// The awaited queue is empty.
    Empty,
    /// A cell that it needs isn't on the board.
    Missing,
}

/// Prepares a call's step, if its cells are on the board, and an awaited queue isn't empty.
pub(crate) fn make<D: Dice>(
    board: &mut HeldBoard,
    shape: &Shape,
    call: &Call,
    awaited: Option<Line>,
    dice: &mut D,
) -> Made
    requires { IsOpenBoard shape.now call.now (D.taken dice.old) (held_cells board.old) }
    ensures made { FitsMade shape.now call.now awaited (D.word (D.key dice.old) (D.begun_seat dice.old) (D.begun_serial dice.old) (D.taken dice.old)) (D.taken dice.old) (D.taken dice.new) (held_cells board.old) (held_cells board.new) result }
    ensures kept { KeepsValues shape.now (held_cells board.old) (held_cells board.new) }
    ensures begun { (D.key dice.new ≡ D.key dice.old) × (D.begun_seat dice.new ≡ D.begun_seat dice.old) × (D.begun_serial dice.new ≡ D.begun_serial dice.old) }
{
    let Some(own) = node_of_call(board, shape, call) else {
        return Made::Missing;
    };
    if awaits_in_vain(own, call, awaited) {
        return Made::Empty;
    }
    let prepared = prepare(board, shape, call, dice);
    Made::Step(prepared.entry())
}

// Whether a queue is awaited in which nothing waits.
fn awaits_in_vain(own: &NodeCell, call: &Call, awaited: Option<Line>) -> bool
    ensures empty { result ≡ true → (line : Line) × (awaited ≡ Some line) × (arrived_map own.now call.now.app line ≡ []) }
    ensures filled { result ≡ false → (line : Line) → awaited ≡ Some line → arrived_map own.now call.now.app line ≢ [] }
{
    match awaited {
        Some(line) => matches!(own.look(call.app, line), Look::Empty),
        None => false,
    }
}
