// The cells of the core, each with room for its next value.
ghost use Rattle.std.specs.Prelude.{◌≡◌, ◌≤◌, ℕ, None, Some, IfOk, is_some};
ghost use Rattle.state_model.specs.Row.{is_listed};
ghost use Rattle.network_model.specs.Network.{Shape, opening};
ghost use Rattle.network_model.specs.Factored.{FitsNode, FitsSlot};
ghost use Rattle.core_cells.specs.Cells.{empty_slot, register_of};
ghost use Rattle.core_cells.specs.Names.{done_by};
ghost use Rattle.virtual_node.specs.Node.{empty_node, held_map, arrived_map};

use crate::names::Ending;
use crate::pool::PoolCell;
use amplitude_register::Register;
use std::alloc::{AllocError, Global};
use std::marker::Model;
use virtual_node::NodeCell;

/// The cell of a node: what is held and waits there, and where a prepared step touches it, what it will be then.
#[derive(Drop)]
pub struct NodePair {
    value: NodeCell,
    // the next value, where one is prepared; its place stays, so that only what is there is copied
    next_value: NodeCell,
    is_prepared: bool,
}

impl Model for NodePair {
    ghost use Rattle.std.specs.Prelude.{cond, Some, None};
    ghost use Rattle.core_cells.specs.Nodes.{NodeValues};

    ghost Value = { NodeValues };

    ghost view = { λ p. record { now = p.value; next = cond p.is_prepared (Some p.next_value) None } };
}

/// The cell of the pool.
#[derive(Drop)]
pub struct PoolPair {
    /// What is free, and how many pairs were made.
    pub now: PoolCell,
    /// What it will be once the prepared step is finished, where that touches the pool.
    pub next: Option<PoolCell>,
}

/// The cell of a slot.
#[derive(Drop)]
pub struct SlotCell {
    /// The register of the group whose home the slot is, or one without qubits. It keeps its next value itself.
    pub register: Register,
}

impl NodePair {
    /// A node where nothing is held and nothing waits, and nothing is prepared. It fits a network in which nothing has
    /// been done.
    pub fn new() -> NodePair
        ensures empty { result ≡ record { now = empty_node; next = None } }
        ensures fits { (m : ℕ) → FitsNode opening m (held_map result.now) (arrived_map result.now) }
    {
        NodePair {
            value: NodeCell::new(),
            next_value: NodeCell::new(),
            is_prepared: false,
        }
    }

    /// What is held and waits at the node.
    pub fn value(&self) -> &NodeCell
        ensures { result.now ≡ self.now.now }
    {
        &self.value
    }

    /// Whether a next value is prepared.
    pub fn is_prepared(&self) -> bool
        ensures { result ≡ is_some self.now.next }
    {
        self.is_prepared
    }

    /// Prepares a next value, the same as a cell.
    pub fn prepare(&mut self, cell: &NodeCell)
        ensures { self.new ≡ record self.old { next = Some cell.now } }
    {
        self.next_value.copy_from(cell);
        self.is_prepared = true;
    }

    /// The prepared value is gone. Where it is to be settled, it was put in place.
    pub fn end(&mut self, ending: Ending)
        ensures { self.new ≡ (done_by ending).node self.old }
    {
        if self.is_prepared && ending == Ending::Settle {
            self.value.copy_from(&self.next_value);
        }
        self.is_prepared = false;
    }
}

impl PoolPair {
    /// The prepared value is gone. Where it is to be settled, it was put in place.
    pub fn end(&mut self, ending: Ending)
        ensures { self.new ≡ (done_by ending).pool self.old }
    {
        match (self.next.take(), ending) {
            (Some(value), Ending::Settle) => self.now = value,
            _ => {}
        }
    }
}

impl SlotCell {
    /// A slot whose register has no qubit, and room for at most `limit` of them (1 to 12). It fits a network with that
    /// limit in which nothing has been done.
    pub fn new(alloc: Global, limit: u8) -> Result<SlotCell, AllocError>
        requires some { 1 ≤ limit }
        requires most { limit ≤ 12 }
        ensures empty { IfOk result (λ c. c ≡ empty_slot limit) }
        ensures fits { IfOk result (λ c. (shape : Shape) (t : ℕ) → limit ≡ shape.limit → FitsSlot shape opening (λ q. 0) t (register_of c.register)) }
    {
        Ok(SlotCell {
            register: Register::new(alloc, limit)?,
        })
    }

    /// Draft and prepared value are gone. Where the latter is to be settled, it was put in place.
    pub fn end(&mut self, ending: Ending)
        ensures { self.new ≡ (done_by ending).slot self.old }
    {
        if ending == Ending::Settle && self.register.prepared().is_some() {
            self.register.flip();
        } else {
            self.register.forget();
        }
    }

    /// Whether the register lists a qubit number.
    pub fn has(&self, number: u8) -> bool
        ensures { result ≡ is_listed self.now.register.value.qubits number }
    {
        self.register.place_of(number).is_some()
    }
}
