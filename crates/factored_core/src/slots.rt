//! What is done to the registers in a board's slots.
ghost use Rattle.std.specs.Prelude.{◌≡◌, ◌≢◌, ◌<◌, ◌≤◌, ◌^◌, Some, IsSome, length, true, MatchResult, false, cond, unsigned_abs};
ghost use Rattle.state_model.specs.Row.{is_listed};
ghost use Rattle.state_model.specs.Amplitudes.{qubit_at, HasRows};
ghost use Rattle.amplitude_register.specs.States.{RegisterState, prepared, next_value, basis_state, pair_state, no_qubit};
ghost use Rattle.gate_kernels.specs.Gates.{HasEighths};
ghost use Rattle.core_cells.specs.Cells.{HasHome};
ghost use Rattle.core_cells.specs.declared.cells.SlotCell.{SlotCell};
ghost use Rattle.register_split.specs.Removal.{HasRowWith, IsTakenOut};
ghost use Rattle.factored_core.specs.Slots.{IsSpot, HasPrepared, IsSame, IsPreparedAs, IsGated, IsKeptFrom, IsSplit};

use amplitude_register::{Register, TooLarge};
use core_cells::Board;
use gate_kernels::{Gate, prepare_one};
use register_split::{Split, prepare_take_out};

/// Where a qubit is: its slot, and its place in the register there.
#[derive(Clone, Copy, PartialEq, Eq, Debug, Drop)]
pub(crate) struct Spot {
    pub(crate) slot: u8,
    pub(crate) place: u8,
}

/// Where a qubit is.
pub(crate) fn spot_of<B: Board>(board: &mut B, number: u8) -> Spot
    requires { HasHome (B.cells board.old) number }
    ensures same { B.cells board.new ≡ B.cells board.old }
    ensures spot { IsSpot (B.cells board.old) number result }
{
    let slot = board.home(number);
    let place = place_in(board, slot, number);
    Spot { slot, place }
}

/// The place of a qubit in the slot's register.
fn place_in<B: Board>(board: &mut B, slot: u8, number: u8) -> u8
    requires there { (w : SlotCell) × ((B.cells board.old).slot slot ≡ Some w) × (is_listed w.register.value.qubits number ≡ true) }
    ensures same { B.cells board.new ≡ B.cells board.old }
    ensures place { (w : SlotCell) → (B.cells board.old).slot slot ≡ Some w → (result < length w.register.value.qubits) × (qubit_at w.register.value result ≡ number) × HasRows w.register.value × (length w.register.value.qubits ≤ 12) }
{
    let register = &board.slot(slot).register;
    register.facts();
    let Some(place) = register.place_of(number) else {
        unreachable!()
    };
    place
}

/// How many qubits the slot's register has.
pub(crate) fn count<B: Board>(board: &mut B, slot: u8) -> u8
    requires there { IsSome ((B.cells board.old).slot slot) }
    ensures same { B.cells board.new ≡ B.cells board.old }
    ensures count { (w : SlotCell) → (B.cells board.old).slot slot ≡ Some w → result ≡ length w.register.value.qubits }
    ensures few { result ≤ 12 }
{
    let register = &board.slot(slot).register;
    register.facts();
    register.qubits().len() as u8
}

/// Prepares the slot's own value.
pub(crate) fn keep<B: Board>(board: &mut B, slot: u8)
    requires { IsSome ((B.cells board.old).slot slot) }
    ensures { HasPrepared (B.cells board.old) (B.cells board.new) slot IsSame }
{
    board.slot(slot).register.prepare_same();
}

/// Prepares one qubit in a basis state.
pub(crate) fn set<B: Board>(board: &mut B, slot: u8, number: u8, bit: bool)
    requires { IsSome ((B.cells board.old).slot slot) }
    ensures { HasPrepared (B.cells board.old) (B.cells board.new) slot (IsPreparedAs (basis_state number bit)) }
{
    board.slot(slot).register.prepare_basis(number, bit);
}

/// Prepares a register without qubits.
pub(crate) fn empty<B: Board>(board: &mut B, slot: u8)
    requires { IsSome ((B.cells board.old).slot slot) }
    ensures { HasPrepared (B.cells board.old) (B.cells board.new) slot (IsPreparedAs no_qubit) }
{
    board.slot(slot).register.prepare_none();
}

/// Prepares what a gate makes of the qubit at a spot; where that is too large, the slot's own value.
pub(crate) fn gate<B: Board>(board: &mut B, spot: Spot, gate: Gate) -> Result<(), TooLarge>
    requires spot { (w : SlotCell) × ((B.cells board.old).slot spot.slot ≡ Some w) × (spot.place < length w.register.value.qubits) }
    requires eighths { HasEighths gate }
    ensures { MatchResult result
        (λ _. HasPrepared (B.cells board.old) (B.cells board.new) spot.slot (IsGated gate spot.place))
        (λ _. HasPrepared (B.cells board.old) (B.cells board.new) spot.slot (IsKeptFrom gate spot.place)) }
{
    gate_or_same(&mut board.slot(spot.slot).register, spot.place, gate)
}

/// Prepares what a gate makes of the qubit at a place; where that is too large, the register's own value.
fn gate_or_same(register: &mut Register, place: u8, gate: Gate) -> Result<(), TooLarge>
    requires place { place < length register.old.value.qubits }
    requires eighths { HasEighths gate }
    ensures { MatchResult result (λ _. IsGated gate place register.old register.new) (λ _. IsKeptFrom gate place register.old register.new) }
{
    let gated = prepare_one(register, place, gate);
    if gated.is_err() {
        register.prepare_same();
    }
    register.facts();
    gated
}

/// The weights that decide the outcome of a measurement of the qubit at a spot.
pub(crate) fn weights<B: Board>(board: &mut B, spot: Spot) -> Split
    requires spot { (w : SlotCell) × ((B.cells board.old).slot spot.slot ≡ Some w) × (spot.place < length w.register.value.qubits) }
    ensures same { B.cells board.new ≡ B.cells board.old }
    ensures split { (w : SlotCell) → (B.cells board.old).slot spot.slot ≡ Some w → IsSplit spot.place w.register.value result }
    ensures one_x { unsigned_abs result.one.x < 2 ^ 60 }
    ensures one_y { unsigned_abs result.one.y < 2 ^ 60 }
    ensures whole_x { unsigned_abs result.whole.x < 2 ^ 60 }
    ensures whole_y { unsigned_abs result.whole.y < 2 ^ 60 }
{
    register_split::weights(&board.slot(spot.slot).register, spot.place)
}

/// Prepares what stays in the slot when the qubit at a spot is taken out with a bit. Some row with that bit isn't zero.
pub(crate) fn take_out<B: Board>(board: &mut B, spot: Spot, bit: bool)
    requires { (w : SlotCell) × ((B.cells board.old).slot spot.slot ≡ Some w) × (spot.place < length w.register.value.qubits) × HasRowWith spot.place bit w.register.value }
    ensures { HasPrepared (B.cells board.old) (B.cells board.new) spot.slot (IsTakenOut spot.place bit) }
{
    prepare_take_out(&mut board.slot(spot.slot).register, spot.place, bit);
}

/// Prepares two qubits in the sum of the rows in which they agree.
pub(crate) fn set_pair<B: Board>(board: &mut B, slot: u8, first: u8, second: u8)
    requires there { (w : SlotCell) × ((B.cells board.old).slot slot ≡ Some w) × (2 ≤ w.register.limit) }
    requires apart { first ≢ second }
    ensures { HasPrepared (B.cells board.old) (B.cells board.new) slot (IsPreparedAs (pair_state first second)) }
{
    board.slot(slot).register.prepare_pair(first, second);
}
