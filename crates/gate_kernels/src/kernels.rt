//! Gates by steps on the rows of a register: rows are exchanged, turned by eighths, or made into their sum and
//! difference. The other gates are such steps one after another, and are reduced and balanced once at the end.
ghost use Rattle.std.specs.Prelude.{◌≡◌, ◌≢◌, ◌<◌, ◌<ℤ◌, ◌^◌, pos, length, MatchResult};
ghost use Rattle.state_model.specs.CoefficientList.{total_weight};
ghost use Rattle.state_model.specs.Gate.{matrix};
ghost use Rattle.state_model.specs.Undo.{product, scale_of};
ghost use Rattle.state_model.specs.declared.Gate.TheVariants.{X, H, K, RotX, RotY, RotZ};
ghost use Rattle.amplitude_register.specs.States.{IsDraft, IsNextKept, next_value};
ghost use Rattle.gate_kernels.specs.Gates.{HasEighths, IsApplied, IsTooLarge, IsMade, drafting, preparing};

use amplitude_register::{Reduce, Register, TooLarge};
use state_model::Gate;

/// An eighth of a turn.
const EIGHTH: u8 = 1;

/// The eighths of a quarter of a turn, to the imaginary unit.
const QUARTER: u8 = 2;

/// The eighths of half a turn, to -1.
const HALF: u8 = 4;

/// The eighths of a quarter of a turn back, to the inverse of the imaginary unit.
const BACK: u8 = 6;

/// Prepares what a gate makes of the register's value, on the qubit at a place; eighths are at most 7.
/// TooLarge, with the least size of the result, exactly where that is 2^60 or more; then nothing is prepared.
pub fn prepare_one(reg: &mut Register, place: u8, gate: Gate) -> Result<(), TooLarge>
    requires place { place < length reg.old.value.qubits }
    requires eighths { HasEighths gate }
    ensures { MatchResult result (λ _. IsApplied gate place reg.old reg.new) (λ e. IsTooLarge gate place reg.old reg.new e.size) }
{
    reg.facts();
    match gate {
        Gate::H => reg.prepare_mixed(place),
        Gate::K => {
            mix_turned(reg, place);
            reg.seal(Reduce::Delta)
        }
        Gate::RotX(eighths) => {
            turn_mixed(reg, place, eighths);
            reg.seal(Reduce::Delta)
        }
        Gate::RotY(eighths) => {
            turn_mixed_turned(reg, place, eighths);
            reg.seal(Reduce::Delta)
        }
        Gate::I | Gate::X | Gate::Y | Gate::Z | Gate::T | Gate::RotZ(_) => {
            prepare_moved(reg, place, gate);
            Ok(())
        }
    }
}

/// Prepares what a gate makes that only moves, negates or turns rows; at the others a copy of the value.
fn prepare_moved(reg: &mut Register, place: u8, gate: Gate)
    requires place { place < length reg.old.value.qubits }
    requires eighths { HasEighths gate }
    ensures { scale_of gate ≡ 1 → IsApplied gate place reg.old reg.new }
{
    reg.facts();
    match gate {
        Gate::X => exchange(reg, place),
        Gate::Y => exchange_and_turn(reg, place),
        Gate::Z => turn(reg, place, HALF),
        Gate::T => turn(reg, place, EIGHTH),
        Gate::RotZ(eighths) => turn(reg, place, eighths),
        Gate::I | Gate::H | Gate::K | Gate::RotX(_) | Gate::RotY(_) => reg.prepare_same(),
    }
}

/// Prepares the value with the rows of each pair exchanged, as X does.
fn exchange(reg: &mut Register, place: u8)
    requires { place < length reg.old.value.qubits }
    ensures made { IsMade preparing (matrix X) 1 place reg.old reg.new }
    ensures kept { IsNextKept reg.new.next }
{
    reg.prepare_same();
    reg.exchange_rows(place);
    reg.facts();
}

/// Prepares the value with the rows exchanged and then negated where the bit is 1, as Y does up to a phase.
fn exchange_and_turn(reg: &mut Register, place: u8)
    requires { place < length reg.old.value.qubits }
    ensures made { IsMade preparing (product (matrix (RotZ 4)) (matrix X)) 1 place reg.old reg.new }
    ensures kept { IsNextKept reg.new.next }
{
    reg.facts();
    exchange(reg, place);
    reg.turn_rows(place, HALF);
    reg.facts();
}

/// Prepares the value with the rows turned where the bit is 1, as ROT_Z does.
fn turn(reg: &mut Register, place: u8, eighths: u8)
    requires place { place < length reg.old.value.qubits }
    requires eighths { eighths < 8 }
    ensures made { IsMade preparing (matrix (RotZ eighths)) 1 place reg.old reg.new }
    ensures kept { IsNextKept reg.new.next }
{
    reg.prepare_turned(place, eighths);
    reg.facts();
}

/// Drafts what K makes of the value: H between a turn back and a turn by a quarter.
fn mix_turned(reg: &mut Register, place: u8)
    requires { place < length reg.old.value.qubits }
    ensures { IsMade drafting (matrix K) 2 place reg.old reg.new }
{
    reg.facts();
    reg.begin_same();
    reg.turn_rows(place, BACK);
    reg.mix_rows(place);
    reg.turn_rows(place, QUARTER);
}

/// Drafts what ROT_X makes of the value: a turn between two H.
fn turn_mixed(reg: &mut Register, place: u8, eighths: u8)
    requires place { place < length reg.old.value.qubits }
    requires eighths { eighths < 8 }
    ensures { IsMade drafting (matrix (RotX eighths)) 4 place reg.old reg.new }
{
    reg.facts();
    reg.begin_mixed(place);
    reg.turn_rows(place, eighths);
    reg.mix_rows(place);
}

/// Drafts what ROT_Y makes of the value: ROT_X between a turn back and a turn by a quarter.
fn turn_mixed_turned(reg: &mut Register, place: u8, eighths: u8)
    requires place { place < length reg.old.value.qubits }
    requires eighths { eighths < 8 }
    ensures { IsMade drafting (matrix (RotY eighths)) 4 place reg.old reg.new }
{
    reg.facts();
    reg.begin_same();
    reg.turn_rows(place, BACK);
    reg.mix_rows(place);
    reg.turn_rows(place, eighths);
    reg.mix_rows(place);
    reg.turn_rows(place, QUARTER);
}
