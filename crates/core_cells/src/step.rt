// Steps over one slot of a board, and over two at once.
ghost use Rattle.std.specs.Prelude.{◌≡◌, ◌≢◌, ℕ, Some, IsSome};
ghost use Rattle.core_cells.specs.Cells.{put_slot};

use crate::board::Board;
use crate::cells::SlotCell;

/// What is done to a slot's register. A step brings its arguments, and answers.
pub trait SlotStep {
    ghost use Rattle.amplitude_register.specs.States.{RegisterState};

    type Answer;

    // what the register must be before, and what it is afterwards, with the answer
    ghost can_run: { Self → RegisterState → Type 0 };

    ghost has_run: { Self → RegisterState → RegisterState → Self.Answer → Type 0 };

    /// Does it.
    fn run(self, slot: &mut SlotCell) -> Self::Answer
        requires { can_run self slot.old.register }
        ensures { has_run self slot.old.register slot.new.register result };
}

/// What is done to two slots' registers at once.
pub trait PairStep {
    ghost use Rattle.amplitude_register.specs.States.{RegisterState};

    type Answer;

    // what the registers must be before, and what they are afterwards, with the answer
    ghost can_run: { Self → RegisterState → RegisterState → Type 0 };

    ghost has_run: { Self → RegisterState → RegisterState → RegisterState → RegisterState → Self.Answer → Type 0 };

    /// Does it.
    fn run(self, one: &mut SlotCell, two: &mut SlotCell) -> Self::Answer
        requires { can_run self one.old.register two.old.register }
        ensures { has_run self one.old.register two.old.register one.new.register two.new.register result };
}

/// Runs a step on one slot of the board.
pub fn on_slot<B: Board, S: SlotStep>(board: &mut B, slot: u8, step: S) -> S::Answer
    requires there { IsSome ((B.cells board.old).slot slot) }
    requires ready { (x : SlotCell) → (B.cells board.old).slot slot ≡ Some x → S.can_run step x.register }
    ensures { (x : SlotCell) → (B.cells board.old).slot slot ≡ Some x → (v : SlotCell) × S.has_run step x.register v.register result × (B.cells board.new ≡ put_slot (B.cells board.old) slot v) }
{
    step.run(board.slot(slot))
}

/// Runs a step on two slots of the board.
pub fn on_two<B: Board, S: PairStep>(board: &mut B, one: u8, two: u8, step: S) -> S::Answer
    requires there { (one ≢ two) × IsSome ((B.cells board.old).slot one) × IsSome ((B.cells board.old).slot two) }
    requires ready { (x y : SlotCell) → (B.cells board.old).slot one ≡ Some x → (B.cells board.old).slot two ≡ Some y → S.can_run step x.register y.register }
    ensures { (x y : SlotCell) → (B.cells board.old).slot one ≡ Some x → (B.cells board.old).slot two ≡ Some y → (v : SlotCell) × (w : SlotCell) × S.has_run step x.register y.register v.register w.register result × (B.cells board.new ≡ put_slot (put_slot (B.cells board.old) one v) two w) }
{
    let (a, b) = board.slots(one, two);
    step.run(a, b)
}
