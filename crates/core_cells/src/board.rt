// What lends cells.
ghost use Rattle.std.specs.Prelude.{◌≡◌, ◌≢◌, Option, Some, IsSome, true};
ghost use Rattle.std.specs.Borrow.{sem, Lends, LendsBoth};
ghost use Rattle.state_model.specs.Row.{is_listed};
ghost use Rattle.core_cells.specs.Cells.{Cells, Writes, ArePut, HasHome};

use crate::cells::{NodePair, PoolPair, SlotCell};

/// A board of cells. Afterwards a lent cell is as the borrower left it, and all others stay.
pub trait Board {
    ghost use Rattle.core_cells.specs.declared.cells.SlotCell.{SlotCell};
    ghost use Rattle.core_cells.specs.contracts.cells.NodePair.{the_row as node_row};
    ghost use Rattle.core_cells.specs.contracts.cells.PoolPair.{the_row as pool_row};
    ghost use Rattle.core_cells.specs.contracts.cells.SlotCell.{the_row as slot_row};

    // the cells that the board has
    ghost cells: { Self → Cells };

    // the board with another value of a cell
    ghost writes: { Writes Self };

    /// Lends a node's cell.
    fn node(&mut self, node: u8) -> &mut NodePair
        requires { IsSome ((cells self.old).node node) }
        ensures* writes_back { sem 𝓛 (Lends Self.row node_row self.entry result (writes.node self.old node)) }
        ensures value { (cells self.old).node node ≡ Some result.now };

    /// Lends the pool's cell.
    fn pool(&mut self) -> &mut PoolPair
        requires { IsSome (cells self.old).pool }
        ensures* writes_back { sem 𝓛 (Lends Self.row pool_row self.entry result (writes.pool self.old)) }
        ensures value { (cells self.old).pool ≡ Some result.now };

    /// Lends a slot's cell.
    fn slot(&mut self, slot: u8) -> &mut SlotCell
        requires { IsSome ((cells self.old).slot slot) }
        ensures* writes_back { sem 𝓛 (Lends Self.row slot_row self.entry result (writes.slot self.old slot)) }
        ensures value { (cells self.old).slot slot ≡ Some result.now };

    /// Lends two slots at once.
    fn slots(&mut self, one: u8, two: u8) -> (&mut SlotCell, &mut SlotCell)
        requires { (one ≢ two) × IsSome ((cells self.old).slot one) × IsSome ((cells self.old).slot two) }
        ensures* writes_back { sem 𝓛 (LendsBoth Self.row slot_row slot_row self.entry result (λ x y. writes.slot (writes.slot self.old one x) two y)) }
        ensures value { ((cells self.old).slot one ≡ Some result.0.now) × ((cells self.old).slot two ≡ Some result.1.now) };

    /// The slot whose register lists a qubit number.
    fn home(&mut self, number: u8) -> u8
        requires { HasHome (cells self.old) number }
        ensures same { self.new ≡ self.old }
        ensures home { (w : SlotCell) × ((cells self.old).slot result ≡ Some w) × (is_listed w.register.value.qubits number ≡ true) };

    // a cell is what was put, and all others stay
    ghost are_put: { ArePut cells writes };
}
