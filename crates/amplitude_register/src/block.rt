//! What a register is made of.
ghost use Rattle.std.specs.Prelude.{◌≡◌, ◌^◌};
ghost use Rattle.state_model.specs.Coefficient.{scaled};
ghost use Rattle.omega_ring.specs.Views.{weight_value};
ghost use Rattle.omega_ring.specs.Range.{PartsBelow};
ghost use Rattle.amplitude_register.specs.declared.block.Stage.TheVariants.{Weighed};

use omega_ring::{Omega, Weight};
use state_model::REGISTER_QUBITS;

/// Qubit numbers and a coefficient for each row, at the front of a buffer, and the weight of all rows.
#[derive(Drop)]
pub(crate) struct Block {
    pub(crate) qubits: [u8; REGISTER_QUBITS],
    pub(crate) count: u8,
    pub(crate) rows: usize,
    pub(crate) weight: Weight,
    pub(crate) entries: Vec<Omega>,
}

impl Block {
    /// Takes on another block's qubits, number of rows and weight; the entries stay.
    pub(crate) fn take_head(&mut self, other: &Block)
        ensures { self.new ≡ record self.old { qubits = other.now.qubits; count = other.now.count; rows = other.now.rows; weight = other.now.weight } }
    {
        self.qubits = other.qubits;
        self.count = other.count;
        self.rows = other.rows;
        self.weight = other.weight;
    }
}

/// What the second block of a register holds.
#[derive(Clone, Copy, PartialEq, Eq, Debug, Drop)]
pub(crate) enum Stage {
    /// Nothing that counts.
    Empty,
    /// A draft whose weight isn't known.
    Open,
    /// A draft with its weight.
    Weighed,
    /// A prepared value.
    Prepared,
}

/// Twice the weight, where it is known.
pub(crate) fn next_weight(stage: Stage, weight: Weight) -> Weight
    requires { stage ≡ Weighed → PartsBelow (2 ^ 122) (weight_value weight) }
    ensures { stage ≡ Weighed → weight_value result ≡ scaled 2 (weight_value weight) }
{
    match stage {
        Stage::Weighed => weight.doubled(),
        _ => weight,
    }
}
