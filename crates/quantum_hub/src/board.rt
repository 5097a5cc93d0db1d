// Whether a board has the cells that a call's step may touch.
ghost use Rattle.std.specs.Prelude.{◌≡◌, ℕ, Some, IsSome, IfSome, true};
ghost use Rattle.core_cells.specs.Marks.{IsLeastListed};
ghost use Rattle.core_cells.specs.Cells.{HasHome};
ghost use Rattle.core_cells.specs.declared.cells.PoolPair.{PoolPair};
ghost use Rattle.factored_core.specs.Ready.{HasCells};
ghost use Rattle.held_board.specs.Held.{held_cells};

use factored_core::{Needs, call_needs};
use held_board::HeldBoard;
use network_model::Call;
use virtual_node::{NodeCell, Shape};

/// Lends the value of a call's own node to be read, where the board has all cells that its step may touch.
pub(crate) fn node_of_call<'a>(
    board: &'a HeldBoard,
    shape: &Shape,
    call: &Call,
) -> Option<&'a NodeCell>
    ensures { IfSome result (λ own. (has : HasCells shape.now call.now (held_cells board.now)) × (has.own.now ≡ own.now)) }
{
    let own = board.node_value(call.node)?;
    let needs = call_needs(shape, call, own);
    if has_free(board, &needs) && has_others(board, &needs) {
        Some(own)
    } else {
        None
    }
}

// Whether the pool is there where it is needed, and its least free slot where that is.
fn has_free(board: &HeldBoard, needs: &Needs) -> bool
    ensures pool { result ≡ true → needs.now.pool ≡ true → IsSome (held_cells board.now).pool }
    ensures free { result ≡ true → needs.now.slot ≡ true → (pool : PoolPair) (slot : ℕ) → (held_cells board.now).pool ≡ Some pool → IsLeastListed pool.now.slots slot → IsSome ((held_cells board.now).slot slot) }
{
    let Some(pool) = board.pool_value() else {
        return !needs.pool;
    };
    if !needs.slot {
        return true;
    }
    match pool.least_free_slot() {
        Some(slot) => board.has_slot(slot),
        None => true,
    }
}

// Whether the other node and the registers of the qubits are there, where they are needed.
fn has_others(board: &HeldBoard, needs: &Needs) -> bool
    ensures { result ≡ true
        → ((n : ℕ) → needs.now.other ≡ Some n → IsSome ((held_cells board.now).node n))
        × ((q : ℕ) → needs.now.first ≡ Some q → HasHome (held_cells board.now) q)
        × ((q : ℕ) → needs.now.second ≡ Some q → HasHome (held_cells board.now) q) }
{
    has_other(board, needs.other)
        && has_number(board, needs.first)
        && has_number(board, needs.second)
}

// Whether a node is there, where one is needed.
fn has_other(board: &HeldBoard, node: Option<u8>) -> bool
    ensures { result ≡ true → (n : ℕ) → node ≡ Some n → IsSome ((held_cells board.now).node n) }
{
    match node {
        Some(n) => board.has_node(n),
        None => true,
    }
}

// Whether a register lists a qubit number, where one is needed.
fn has_number(board: &HeldBoard, number: Option<u8>) -> bool
    ensures { result ≡ true → (q : ℕ) → number ≡ Some q → HasHome (held_cells board.now) q }
{
    match number {
        Some(q) => board.has_home(q),
        None => true,
    }
}
