//! What is done to the registers of two slots at once, and gates on two qubits of one register.
ghost use Rattle.std.specs.Prelude.{◌≡◌, ◌≢◌, ◌<◌, Some, IsSome, length};
ghost use Rattle.core_cells.specs.declared.cells.SlotCell.{SlotCell as Cell};
ghost use Rattle.gate_kernels.specs.Twos.{source};
ghost use Rattle.register_merge.specs.Merging.{IsVerdict};
ghost use Rattle.factored_core.specs.Slots.{HasPrepared};
ghost use Rattle.factored_core.specs.Pairs.{ArePair, AreMergeable, IsJoined, IsTwoGated};

use core_cells::{Board, PairStep, SlotCell, on_two};
use gate_kernels::{Two, prepare_two};
use register_merge::{Merge, prepare_merge};

/// Asks whether two registers can be merged.
#[derive(Drop)]
struct Judge;

impl PairStep for Judge {
    ghost use Rattle.std.specs.Prelude.{◌≡◌};
    ghost use Rattle.register_merge.specs.Merging.{IsVerdict};
    ghost use Rattle.factored_core.specs.Pairs.{ArePair};

    type Answer = Merge;

    ghost can_run = { λ step x y. ArePair x y };

    ghost has_run = { λ step x y v w answer. (v ≡ x) × (w ≡ y) × IsVerdict answer x y };

    fn run(self, one: &mut SlotCell, two: &mut SlotCell) -> Merge {
        register_merge::verdict(&one.register, &two.register)
    }
}

/// Prepares the product of two registers in the first.
#[derive(Drop)]
struct Join;

impl PairStep for Join {
    ghost use Rattle.std.specs.Prelude.{◌≡◌};
    ghost use Rattle.factored_core.specs.Pairs.{AreMergeable, IsJoined};

    type Answer = ();

    ghost can_run = { λ step x y. AreMergeable x y };

    ghost has_run = { λ step x y v w answer. IsJoined y x v × (w ≡ y) };

    fn run(self, one: &mut SlotCell, two: &mut SlotCell) {
        prepare_merge(&mut one.register, &two.register);
        one.register.facts();
    }
}

/// Whether the registers of two slots can be merged.
pub(crate) fn verdict<B: Board>(board: &mut B, one: u8, two: u8) -> Merge
    requires there { (one ≢ two) × IsSome ((B.cells board.old).slot one) × IsSome ((B.cells board.old).slot two) }
    requires ready { (x y : Cell) → (B.cells board.old).slot one ≡ Some x → (B.cells board.old).slot two ≡ Some y → ArePair x.register y.register }
    ensures same { B.cells board.new ≡ B.cells board.old }
    ensures verdict { (x y : Cell) → (B.cells board.old).slot one ≡ Some x → (B.cells board.old).slot two ≡ Some y → IsVerdict result x.register y.register }
{
    on_two(board, one, two, Judge)
}

/// Prepares the product of the registers of two slots in the first.
pub(crate) fn merge<B: Board>(board: &mut B, one: u8, two: u8)
    requires there { (one ≢ two) × IsSome ((B.cells board.old).slot one) × IsSome ((B.cells board.old).slot two) }
    requires ready { (x y : Cell) → (B.cells board.old).slot one ≡ Some x → (B.cells board.old).slot two ≡ Some y → AreMergeable x.register y.register }
    ensures { (y : Cell) → (B.cells board.old).slot two ≡ Some y → HasPrepared (B.cells board.old) (B.cells board.new) one (IsJoined y.register) }
{
    on_two(board, one, two, Join)
}

/// Prepares what a gate makes of the qubits at two places of what is prepared in a slot, or of its value where
/// nothing is.
pub(crate) fn gate<B: Board>(board: &mut B, slot: u8, p: u8, q: u8, gate: Two)
    requires there { IsSome ((B.cells board.old).slot slot) }
    requires apart { p ≢ q }
    requires places { (w : Cell) → (B.cells board.old).slot slot ≡ Some w → (p < length (source w.register).qubits) × (q < length (source w.register).qubits) }
    ensures { HasPrepared (B.cells board.old) (B.cells board.new) slot (IsTwoGated gate p q) }
{
    let register = &mut board.slot(slot).register;
    prepare_two(register, p, q, gate);
    register.facts();
}
