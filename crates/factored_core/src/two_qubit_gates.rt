//! Gates on two qubits: of one register, and of two registers, which become one.
ghost use Rattle.std.specs.Prelude.{◌≡◌, ◌≢◌, ◌<◌, ◌≤◌, None, Some, IsSome};
ghost use Rattle.network_model.specs.Kinds.{kind_of};
ghost use Rattle.network_model.specs.declared.Kind.TheVariants.{Two as TwoGate};
ghost use Rattle.state_model.specs.declared.Two.{Two as TwoIs};
ghost use Rattle.core_cells.specs.Cells.{HasHome};
ghost use Rattle.core_cells.specs.Pool.{IsSlotFreed};
ghost use Rattle.core_cells.specs.declared.cells.PoolPair.{PoolPair};
ghost use Rattle.core_cells.specs.declared.cells.SlotCell.{SlotCell};
ghost use Rattle.register_merge.specs.Merging.{IsVerdict};
ghost use Rattle.register_merge.specs.declared.verdicts.Merge.TheVariants.{Fits};
ghost use Rattle.factored_core.specs.Changes.{IsPreparedStep};
ghost use Rattle.factored_core.specs.Ready.{IsOpen, IsReady};
ghost use Rattle.factored_core.specs.Pairs.{IsTwoCall, AreSpots, AreMergeable, IsTooBig};
ghost use Rattle.factored_core.specs.Replies.{in_one_slot, in_two_slots};

use crate::gates::in_slot;
use crate::pairs;
use crate::prepared::Prepared;
use crate::refusals::refused;
use crate::slots::{self, Spot, spot_of};
use core_cells::{Board, CellName, PoolCell, held_pool, prepare_node, prepare_pool};
use cqc_model::Fault;
use gate_kernels::Two;
use network_model::{Call, CoreReply};
use register_merge::Merge;
use virtual_node::{NodeCell, Shape};

/// A gate on the call's own qubit and the one under another id, if both are held and are two.
pub(crate) fn two<B: Board>(
    board: &mut B,
    shape: &Shape,
    call: &Call,
    own: &NodeCell,
    gate: Two,
    id: u16,
) -> Prepared
    requires open { IsOpen shape.now call.now (B.cells board.old) own.now }
    requires kind { kind_of call.now.command.instr ≡ TwoGate gate id }
    ensures step { IsPreparedStep shape.now (B.cells board.old) (B.cells board.new) result }
    ensures call { result.entry.call ≡ call.now }
    ensures word { result.entry.word ≡ None }
{
    let Some(first) = own.handles().find(call.app, call.command.qubit) else {
        return refused(board, call, own, None, Fault::Unknown);
    };
    let Some(second) = own.handles().find(call.app, id) else {
        return refused(board, call, own, None, Fault::Unknown);
    };
    if id == call.command.qubit {
        return refused(board, call, own, None, Fault::Unsupported);
    }
    both(board, shape, call, own, first, second, gate)
}

/// A gate on two qubits. Two registers become one, unless they are too many qubits or their product is too large.
fn both<B: Board>(
    board: &mut B,
    shape: &Shape,
    call: &Call,
    own: &NodeCell,
    first: u8,
    second: u8,
    gate: Two,
) -> Prepared
    requires ready { IsReady shape.now call.now (B.cells board.old) own.now }
    requires operands { IsTwoCall call.now own.now gate first second }
    requires first { HasHome (B.cells board.old) first }
    requires second { HasHome (B.cells board.old) second }
    ensures step { IsPreparedStep shape.now (B.cells board.old) (B.cells board.new) result }
    ensures call { result.entry.call ≡ call.now }
    ensures word { result.entry.word ≡ None }
{
    let one = spot_of(board, first);
    let two = spot_of(board, second);
    if one.slot == two.slot {
        return inside(board, shape, call, own, one, two.place, gate);
    }
    match pairs::verdict(board, one.slot, two.slot) {
        Merge::Fits => joined(board, shape, call, own, one, two, gate),
        _ => apart(board, shape, call, own, one, two),
    }
}

/// The gate where both qubits are in one register.
fn inside<B: Board>(
    board: &mut B,
    shape: &Shape,
    call: &Call,
    own: &NodeCell,
    one: Spot,
    other: u8,
    gate: Two,
) -> Prepared
    requires ready { IsReady shape.now call.now (B.cells board.old) own.now }
    requires spots { AreSpots call.now (B.cells board.old) own.now gate one (record { slot = one.slot; place = other }) }
    ensures step { IsPreparedStep shape.now (B.cells board.old) (B.cells board.new) result }
    ensures call { result.entry.call ≡ call.now }
    ensures word { result.entry.word ≡ None }
{
    shape.facts();
    pairs::gate(board, one.slot, one.place, other, gate);
    prepare_node(board, call.node, own);
    in_slot(call, None, CoreReply::Silent, one.slot)
}

/// The gate is refused: the two registers together would be too large.
fn apart<B: Board>(
    board: &mut B,
    shape: &Shape,
    call: &Call,
    own: &NodeCell,
    one: Spot,
    two: Spot,
) -> Prepared
    requires ready { IsReady shape.now call.now (B.cells board.old) own.now }
    requires spots { (gate : TwoIs) × AreSpots call.now (B.cells board.old) own.now gate one two }
    requires apart { one.slot ≢ two.slot }
    requires big { (x y : SlotCell) → (B.cells board.old).slot one.slot ≡ Some x → (B.cells board.old).slot two.slot ≡ Some y → IsTooBig x.register y.register }
    ensures step { IsPreparedStep shape.now (B.cells board.old) (B.cells board.new) result }
    ensures call { result.entry.call ≡ call.now }
    ensures word { result.entry.word ≡ None }
{
    shape.facts();
    slots::keep(board, one.slot);
    slots::keep(board, two.slot);
    prepare_node(board, call.node, own);
    in_both(
        call,
        CoreReply::Error(Fault::General),
        false,
        one.slot,
        two.slot,
    )
}

/// The gate where two registers become one, in the first qubit's slot. The other's slot is free then.
fn joined<B: Board>(
    board: &mut B,
    shape: &Shape,
    call: &Call,
    own: &NodeCell,
    one: Spot,
    two: Spot,
    gate: Two,
) -> Prepared
    requires ready { IsReady shape.now call.now (B.cells board.old) own.now }
    requires spots { AreSpots call.now (B.cells board.old) own.now gate one two }
    requires apart { one.slot ≢ two.slot }
    requires fits { (x y : SlotCell) → (B.cells board.old).slot one.slot ≡ Some x → (B.cells board.old).slot two.slot ≡ Some y → AreMergeable x.register y.register }
    ensures step { IsPreparedStep shape.now (B.cells board.old) (B.cells board.new) result }
    ensures call { result.entry.call ≡ call.now }
    ensures word { result.entry.word ≡ None }
{
    shape.facts();
    let count = slots::count(board, one.slot);
    let pool = freed(board, two.slot);
    pairs::merge(board, one.slot, two.slot);
    pairs::gate(board, one.slot, one.place, count + two.place, gate);
    slots::empty(board, two.slot);
    prepare_pool(board, pool);
    prepare_node(board, call.node, own);
    in_both(call, CoreReply::Silent, true, one.slot, two.slot)
}

/// The pool with one slot more.
fn freed<B: Board>(board: &mut B, slot: u8) -> PoolCell
    requires pool { IsSome (B.cells board.old).pool }
    requires slot { slot < 128 }
    ensures same { B.cells board.new ≡ B.cells board.old }
    ensures freed { (w : PoolPair) → (B.cells board.old).pool ≡ Some w → IsSlotFreed slot w.now result }
{
    let mut pool = held_pool(board);
    pool.free_slot(slot);
    pool
}

/// A step that changes no more than the own node, two slots, and the pool or not.
fn in_both(call: &Call, reply: CoreReply, pool: bool, one: u8, two: u8) -> Prepared
    ensures { result ≡ in_two_slots call.now reply pool one two }
{
    let own = CellName::Node(call.node);
    let pool = if pool { Some(CellName::Pool) } else { None };
    let touched = [
        Some(own),
        Some(CellName::Slot(one)),
        Some(CellName::Slot(two)),
        pool,
    ];
    Prepared::of(call, None, reply, touched)
}
