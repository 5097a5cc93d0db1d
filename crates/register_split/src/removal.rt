//! The removal of a measured qubit from a register.
ghost use Rattle.std.specs.Prelude.{◌≡◌, ◌<◌, ◌≤◌, ◌+◌, ◌-◌, length, take, slice_index_or};
ghost use Rattle.state_model.specs.Row.{without};
ghost use Rattle.state_model.specs.CoefficientList.{total_weight};
ghost use Rattle.state_model.specs.Amplitudes.{qubit_at, AreDistinct};
ghost use Rattle.amplitude_register.specs.States.{draft, next_value, zeros};
ghost use Rattle.omega_ring.specs.Views.{weight_value};
ghost use Rattle.register_split.specs.Removal.{HasRowWith, IsTakenOut, IsDrafted};

use crate::rows::with_inserted;
use amplitude_register::{Reduce, Register};
use omega_ring::Weight;
use state_model::REGISTER_QUBITS;

/// Prepares what stays of the register's value when its qubit at a place is taken out with a bit: the other
/// qubits in their order, in the state of the rows with that bit. Some such row isn't zero. It can't be too large.
pub fn prepare_take_out(reg: &mut Register, place: u8, bit: bool)
    requires place { place < length reg.old.value.qubits }
    requires some { HasRowWith place bit reg.old.value }
    ensures { IsTakenOut place bit reg.old reg.new }
{
    reg.facts();
    draft_kept(reg, place, bit);
    let Ok(()) = reg.seal(Reduce::Full) else {
        unreachable!()
    };
}

/// Drafts the rows with the bit, with their weight.
fn draft_kept(reg: &mut Register, place: u8, bit: bool)
    requires place { place < length reg.old.value.qubits }
    ensures { IsDrafted place bit reg.old reg.new }
{
    begin_others(reg, place);
    let weight = copy_rows(reg, place, bit);
    reg.weigh(weight);
}

/// Opens a draft of zeros for the other qubits.
fn begin_others(reg: &mut Register, place: u8)
    requires place { place < length reg.old.value.qubits }
    ensures { reg.new ≡ record reg.old { next = draft (zeros (without reg.old.value.qubits (qubit_at reg.old.value place))) } }
{
    reg.facts();
    let rest = others(reg.qubits(), place);
    let count = reg.qubits().len() - 1;
    reg.begin(&rest[..count]);
}

/// The numbers but that at the place, at the front of a list.
fn others(qubits: &[u8], place: u8) -> [u8; REGISTER_QUBITS]
    requires place { place < length qubits.now }
    requires few { length qubits.now ≤ 12 }
    requires distinct { AreDistinct qubits.now }
    ensures { take (length qubits.now - 1) result ≡ without qubits.now (slice_index_or qubits.now place 0) }
{
    let mut rest = [0; REGISTER_QUBITS];
    for k in 0..qubits.len() - 1 {
        rest[k] = qubits[other_place(k, place)];
    }
    rest
}

/// Where the k-th of the others stands.
fn other_place(k: usize, place: u8) -> usize
    requires { k < 12 }
    ensures low { k < place → result ≡ k }
    ensures high { place ≤ k → result ≡ k + 1 }
    ensures below { result ≤ k + 1 }
{
    if k < place as usize { k } else { k + 1 }
}

/// Writes the rows with the bit into the draft, and gives their weight.
fn copy_rows(reg: &mut Register, place: u8, bit: bool) -> Weight
    requires place { place < length reg.old.value.qubits }
    requires open { reg.old.next ≡ draft (zeros (without reg.old.value.qubits (qubit_at reg.old.value place))) }
    ensures drafted { IsDrafted place bit reg.old reg.new }
    ensures weight { weight_value result ≡ total_weight (next_value reg.new.next).list }
{
    reg.facts();
    let mut weight = Weight { x: 0, y: 0 };
    for row in 0..reg.row_count() / 2 {
        let z = reg.coefficient(with_inserted(row, place, bit));
        weight = weight.plus(z.weight());
        reg.put(row, z);
    }
    weight
}
