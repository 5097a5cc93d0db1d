//! Gates on one qubit, and what does nothing to it.
ghost use Rattle.std.specs.Prelude.{◌≡◌, None, Some};
ghost use Rattle.network_model.specs.Kinds.{kind_of};
ghost use Rattle.network_model.specs.declared.Kind.TheVariants.{Idle, Gate as OneGate, Inexact};
ghost use Rattle.qubit_handles.specs.Handle.{number_of};
ghost use Rattle.gate_kernels.specs.Gates.{HasEighths};
ghost use Rattle.core_cells.specs.Cells.{HasHome};
ghost use Rattle.factored_core.specs.Changes.{IsPreparedStep};
ghost use Rattle.factored_core.specs.Ready.{IsOpen, IsReady};
ghost use Rattle.factored_core.specs.Replies.{gate_reply as gate_reply_is, in_one_slot};

use crate::prepared::Prepared;
use crate::refusals::refused;
use crate::slots::{self, spot_of};
use amplitude_register::TooLarge;
use core_cells::{Board, CellName, prepare_node};
use cqc_model::Fault;
use gate_kernels::Gate;
use network_model::{Call, CoreReply};
use virtual_node::{NodeCell, Shape};

/// A gate on the call's own qubit, if that is held.
pub(crate) fn one<B: Board>(
    board: &mut B,
    shape: &Shape,
    call: &Call,
    own: &NodeCell,
    gate: Gate,
) -> Prepared
    requires open { IsOpen shape.now call.now (B.cells board.old) own.now }
    requires kind { kind_of call.now.command.instr ≡ OneGate gate }
    ensures step { IsPreparedStep shape.now (B.cells board.old) (B.cells board.new) result }
    ensures call { result.entry.call ≡ call.now }
    ensures word { result.entry.word ≡ None }
{
    match own.handles().find(call.app, call.command.qubit) {
        Some(number) => gated(board, shape, call, own, number, gate),
        None => refused(board, call, own, None, Fault::Unknown),
    }
}

/// A gate on a held qubit.
fn gated<B: Board>(
    board: &mut B,
    shape: &Shape,
    call: &Call,
    own: &NodeCell,
    number: u8,
    gate: Gate,
) -> Prepared
    requires ready { IsReady shape.now call.now (B.cells board.old) own.now }
    requires number { number_of own.now.handles call.now.app call.now.command.qubit ≡ Some number }
    requires home { HasHome (B.cells board.old) number }
    requires kind { kind_of call.now.command.instr ≡ OneGate gate }
    requires eighths { HasEighths gate }
    ensures step { IsPreparedStep shape.now (B.cells board.old) (B.cells board.new) result }
    ensures call { result.entry.call ≡ call.now }
    ensures word { result.entry.word ≡ None }
{
    shape.facts();
    let spot = spot_of(board, number);
    let gated = slots::gate(board, spot, gate);
    prepare_node(board, call.node, own);
    in_slot(call, None, gate_reply(&gated), spot.slot)
}

/// A rotation by no whole number of eighths of a turn is refused.
pub(crate) fn inexact<B: Board>(
    board: &mut B,
    shape: &Shape,
    call: &Call,
    own: &NodeCell,
) -> Prepared
    requires open { IsOpen shape.now call.now (B.cells board.old) own.now }
    requires kind { kind_of call.now.command.instr ≡ Inexact }
    ensures step { IsPreparedStep shape.now (B.cells board.old) (B.cells board.new) result }
    ensures call { result.entry.call ≡ call.now }
    ensures word { result.entry.word ≡ None }
{
    shape.facts();
    match own.handles().find(call.app, call.command.qubit) {
        Some(_) => refused(board, call, own, None, Fault::Unsupported),
        None => refused(board, call, own, None, Fault::Unknown),
    }
}

/// Nothing is done to the call's own qubit, if that is held.
pub(crate) fn idle<B: Board>(board: &mut B, shape: &Shape, call: &Call, own: &NodeCell) -> Prepared
    requires open { IsOpen shape.now call.now (B.cells board.old) own.now }
    requires kind { kind_of call.now.command.instr ≡ Idle }
    ensures step { IsPreparedStep shape.now (B.cells board.old) (B.cells board.new) result }
    ensures call { result.entry.call ≡ call.now }
    ensures word { result.entry.word ≡ None }
{
    match own.handles().find(call.app, call.command.qubit) {
        Some(number) => kept(board, shape, call, own, number),
        None => refused(board, call, own, None, Fault::Unknown),
    }
}

/// Nothing is done to a held qubit.
fn kept<B: Board>(board: &mut B, shape: &Shape, call: &Call, own: &NodeCell, number: u8) -> Prepared
    requires ready { IsReady shape.now call.now (B.cells board.old) own.now }
    requires number { number_of own.now.handles call.now.app call.now.command.qubit ≡ Some number }
    requires home { HasHome (B.cells board.old) number }
    requires kind { kind_of call.now.command.instr ≡ Idle }
    ensures step { IsPreparedStep shape.now (B.cells board.old) (B.cells board.new) result }
    ensures call { result.entry.call ≡ call.now }
    ensures word { result.entry.word ≡ None }
{
    shape.facts();
    let spot = spot_of(board, number);
    slots::keep(board, spot.slot);
    prepare_node(board, call.node, own);
    in_slot(call, None, CoreReply::Silent, spot.slot)
}

/// The reply to a gate on one qubit.
fn gate_reply(gated: &Result<(), TooLarge>) -> CoreReply
    ensures { result ≡ gate_reply_is gated.now }
{
    match gated {
        Ok(()) => CoreReply::Silent,
        Err(_) => CoreReply::Error(Fault::General),
    }
}

/// A step that changes no more than the own node and one slot.
pub(crate) fn in_slot(call: &Call, word: Option<u64>, reply: CoreReply, slot: u8) -> Prepared
    ensures { result ≡ in_one_slot call.now word reply slot }
{
    let own = CellName::Node(call.node);
    let home = CellName::Slot(slot);
    Prepared::of(call, word, reply, [Some(own), Some(home), None, None])
}
