//! Qubits that move between nodes: sendings and receipts.
ghost use Rattle.std.specs.Prelude.{◌≡◌, ◌<◌, None, Some, IsSome};
ghost use Rattle.network_model.specs.Kinds.{kind_of};
ghost use Rattle.network_model.specs.Step.{receipt_reply};
ghost use Rattle.network_model.specs.declared.Kind.TheVariants.{Send, Receive};
ghost use Rattle.qubit_handles.specs.Handle.{number_of};
ghost use Rattle.virtual_node.specs.Node.{load_of};
ghost use Rattle.core_cells.specs.Nodes.{NodeValues};
ghost use Rattle.factored_core.specs.Changes.{IsPreparedStep};
ghost use Rattle.factored_core.specs.Needs.{other_of};
ghost use Rattle.factored_core.specs.Ready.{IsOpen, IsReady};
ghost use Rattle.factored_core.specs.Replies.{in_nodes as in_nodes_is};

use crate::needs::other_at;
use crate::prepared::Prepared;
use crate::refusals::refused;
use core_cells::{Board, CellName, held_node, prepare_node};
use cqc_model::{Fault, Remote};
use epr_transfer::Taken;
use network_model::{Call, CoreReply, Line};
use virtual_node::{NodeCell, Shape};

/// A held qubit goes to the node at a remote place, where that is another node and has room.
pub(crate) fn send<B: Board>(
    board: &mut B,
    shape: &Shape,
    call: &Call,
    own: NodeCell,
    remote: &Remote,
) -> Prepared
    requires open { IsOpen shape.now call.now (B.cells board.old) own }
    requires kind { kind_of call.now.command.instr ≡ Send remote.now }
    ensures step { IsPreparedStep shape.now (B.cells board.old) (B.cells board.new) result }
    ensures call { result.entry.call ≡ call.now }
    ensures word { result.entry.word ≡ None }
{
    let Some(_number) = own.handles().find(call.app, call.command.qubit) else {
        return refused(board, call, &own, None, Fault::Unknown);
    };
    let Some(other) = other_at(shape, call.node, remote) else {
        return refused(board, call, &own, None, Fault::General);
    };
    let to = held_node(board, other);
    to.facts();
    if to.held() < shape.room() {
        sent(board, shape, call, own, other, to, remote)
    } else {
        refused(board, call, &own, Some(other), Fault::NoQubit)
    }
}

/// A held qubit becomes the last arrival of another node.
fn sent<B: Board>(
    board: &mut B,
    shape: &Shape,
    call: &Call,
    mut own: NodeCell,
    other: u8,
    mut to: NodeCell,
    remote: &Remote,
) -> Prepared
    requires ready { IsReady shape.now call.now (B.cells board.old) own }
    requires kind { kind_of call.now.command.instr ≡ Send remote.now }
    requires held { IsSome (number_of own.handles call.now.app call.now.command.qubit) }
    requires other { other_of shape.now call.now ≡ Some other }
    requires copied { (w : NodeValues) → (B.cells board.old).node other ≡ Some w → to ≡ w.now }
    requires room { load_of to < shape.now.room }
    ensures step { IsPreparedStep shape.now (B.cells board.old) (B.cells board.new) result }
    ensures call { result.entry.call ≡ call.now }
    ensures word { result.entry.word ≡ None }
{
    shape.facts();
    epr_transfer::send(&mut own, &mut to, call.app, call.command.qubit, remote.app);
    prepare_node(board, call.node, &own);
    prepare_node(board, other, &to);
    in_nodes(call, CoreReply::Silent, Some(other))
}

/// The first arrival of a queue, if there is one, becomes a held qubit.
pub(crate) fn receive<B: Board>(
    board: &mut B,
    shape: &Shape,
    call: &Call,
    mut own: NodeCell,
    line: Line,
) -> Prepared
    requires open { IsOpen shape.now call.now (B.cells board.old) own }
    requires kind { kind_of call.now.command.instr ≡ Receive line }
    ensures step { IsPreparedStep shape.now (B.cells board.old) (B.cells board.new) result }
    ensures call { result.entry.call ≡ call.now }
    ensures word { result.entry.word ≡ None }
{
    let Some(taken) = epr_transfer::receive(&mut own, call.app, line) else {
        return refused(board, call, &own, None, Fault::Timeout);
    };
    prepare_node(board, call.node, &own);
    in_nodes(call, received(line, &taken), None)
}

/// The reply to a receipt.
#[tactic(auto, unfolding(network_model::specs::Step::receipt_reply))]
fn received(line: Line, taken: &Taken) -> CoreReply
    ensures { result ≡ receipt_reply line taken.now.id taken.now.info }
{
    match (line, taken.info) {
        (Line::Pair, Some(info)) => CoreReply::Pair(taken.id, info),
        _ => CoreReply::Received(taken.id),
    }
}

/// A step that changes no more than the own node and another one, if there is one.
pub(crate) fn in_nodes(call: &Call, reply: CoreReply, other: Option<u8>) -> Prepared
    ensures { result ≡ in_nodes_is call.now reply other }
{
    let own = CellName::Node(call.node);
    let other = other.map(|node| CellName::Node(node));
    Prepared::of(call, None, reply, [Some(own), other, None, None])
}
