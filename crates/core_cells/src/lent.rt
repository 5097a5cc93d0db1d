// What is done to one cell of a board.
ghost use Rattle.std.specs.Prelude.{◌≡◌, ℕ, [], ◌∷◌, Some, IsSome};
ghost use Rattle.core_cells.specs.Cells.{put_node, put_pool};
ghost use Rattle.core_cells.specs.Names.{AreThere, done_by, on_named};
ghost use Rattle.core_cells.specs.Nodes.{NodeValues};

use crate::board::Board;
use crate::cells::PoolPair;
use crate::names::{CellName, Ending};
use crate::pool::PoolCell;
use virtual_node::NodeCell;

/// A copy of a node's value.
pub fn held_node<B: Board>(board: &mut B, node: u8) -> NodeCell
    requires { IsSome ((B.cells board.old).node node) }
    ensures same { B.cells board.new ≡ B.cells board.old }
    ensures copied { (w : NodeValues) → (B.cells board.old).node node ≡ Some w → result ≡ w.now }
{
    board.node(node).value().copy()
}

/// Prepares a node's next value, the same as a cell.
pub fn prepare_node<B: Board>(board: &mut B, node: u8, cell: &NodeCell)
    requires { IsSome ((B.cells board.old).node node) }
    ensures { (w : NodeValues) → (B.cells board.old).node node ≡ Some w → B.cells board.new ≡ put_node (B.cells board.old) node (record w { next = Some cell.now }) }
{
    board.node(node).prepare(cell);
}

/// A copy of the pool's value.
pub fn held_pool<B: Board>(board: &mut B) -> PoolCell
    requires { IsSome (B.cells board.old).pool }
    ensures same { B.cells board.new ≡ B.cells board.old }
    ensures copied { (w : PoolPair) → (B.cells board.old).pool ≡ Some w → result ≡ w.now }
{
    board.pool().now.copy()
}

/// Prepares the pool's next value.
pub fn prepare_pool<B: Board>(board: &mut B, cell: PoolCell)
    requires { IsSome (B.cells board.old).pool }
    ensures { (w : PoolPair) → (B.cells board.old).pool ≡ Some w → B.cells board.new ≡ put_pool (B.cells board.old) (record w { next = Some cell }) }
{
    board.pool().next = Some(cell);
}

/// Ends what is prepared in a cell.
fn end<B: Board>(board: &mut B, name: CellName, ending: Ending)
    requires { AreThere (B.cells board.old) (Some name ∷ []) }
    ensures { B.cells board.new ≡ on_named (done_by ending) (Some name ∷ []) (B.cells board.old) }
{
    match name {
        CellName::Node(node) => board.node(node).end(ending),
        CellName::Pool => board.pool().end(ending),
        CellName::Slot(slot) => board.slot(slot).end(ending),
    }
}

/// Ends what is prepared in the cells that are named.
pub fn end_all<B: Board>(board: &mut B, names: &[Option<CellName>], ending: Ending)
    requires { AreThere (B.cells board.old) names.now }
    ensures { B.cells board.new ≡ on_named (done_by ending) names.now (B.cells board.old) }
{
    for name in names {
        if let Some(name) = *name {
            end(board, name, ending);
        }
    }
}
