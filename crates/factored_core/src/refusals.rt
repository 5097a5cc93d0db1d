//! Calls that cells of nodes refuse.
ghost use Rattle.std.specs.Prelude.{◌≡◌, None, Some, IsSome, IfSome, MatchOption};
ghost use Rattle.network_model.specs.Network.{Shape};
ghost use Rattle.core_cells.specs.Cells.{put_node};
ghost use Rattle.core_cells.specs.Nodes.{NodeValues};
ghost use Rattle.factored_core.specs.Changes.{IsPreparedStep};
ghost use Rattle.factored_core.specs.Ready.{IsRefusable};

use crate::prepared::Prepared;
use crate::transfers::in_nodes;
use core_cells::{Board, held_node, prepare_node};
use cqc_model::Fault;
use network_model::{Call, CoreReply};
use virtual_node::NodeCell;

/// A call that cells of nodes refuse: its own, and this other one where it was looked at.
pub(crate) fn refused<B: Board>(
    board: &mut B,
    call: &Call,
    own: &NodeCell,
    other: Option<u8>,
    fault: Fault,
) -> Prepared
    requires own { IsSome ((B.cells board.old).node call.now.node) }
    requires other { IfSome other (λ n. IsSome ((B.cells board.old).node n)) }
    ensures step { (shape : Shape) → IsRefusable shape call.now (B.cells board.old) own.now other fault → IsPreparedStep shape (B.cells board.old) (B.cells board.new) result }
    ensures call { result.entry.call ≡ call.now }
    ensures word { result.entry.word ≡ None }
{
    prepare_node(board, call.node, own);
    keep_node(board, other);
    in_nodes(call, CoreReply::Error(fault), other)
}

/// Prepares a node's own value, if a node is given.
fn keep_node<B: Board>(board: &mut B, node: Option<u8>)
    requires { IfSome node (λ n. IsSome ((B.cells board.old).node n)) }
    ensures { MatchOption node (B.cells board.new ≡ B.cells board.old)
        (λ n. (w : NodeValues) → (B.cells board.old).node n ≡ Some w → B.cells board.new ≡ put_node (B.cells board.old) n (record w { next = Some w.now })) }
{
    if let Some(number) = node {
        let cell = held_node(board, number);
        prepare_node(board, number, &cell);
    }
}
