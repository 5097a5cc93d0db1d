// A board that owns the cells of some numbers.
ghost use Rattle.std.specs.Borrow.{sem};
ghost use Rattle.std.specs.Prelude.{◌≡◌, ◌≢◌, ◌<◌, ◌↔◌, ◌++◌, ◌∷◌, [], ℕ, IsTrue, IsSome, Some, None, is_some, length, slice_get, option_map};
ghost use Rattle.core_cells.specs.Cells.{HasHome};
ghost use Rattle.core_cells.specs.Nodes.{NodeValues};
ghost use Rattle.core_cells.specs.declared.cells.PoolPair.{PoolPair as PoolIs};
ghost use Rattle.held_board.specs.Seats.{place, cell_of, without_cell};
ghost use Rattle.held_board.specs.Held.{held_cells, HasNone, IsVacant};
ghost use Rattle.held_board.specs.HeldLends.{LendsSlot, LendsSlotSeats, LendsTwoSeats, LendsTwoCells};

use crate::seat::Seat;
use crate::seats::{Seats, place_of};
use cell_box::CellBox;
use core_cells::{Board, NodePair, PoolCell, PoolPair, SlotCell, two_of};
use std::marker::Model;
use std::ops::DerefMut;
use virtual_node::NodeCell;

/// At most three nodes, the pool or not, and at most three slots, each under its number.
#[derive(Drop)]
pub struct HeldBoard {
    nodes: Seats<CellBox<NodePair>>,
    pool: Seat<CellBox<PoolPair>>,
    slots: Seats<CellBox<SlotCell>>,
}

impl Model for HeldBoard {
    ghost use Rattle.held_board.specs.Held.{Held};

    ghost Value = { Held };

    ghost view = { λ b. record { nodes = b.nodes; pool = b.pool.cell; slots = b.slots } };
}

impl HeldBoard {
    /// It has no cell.
    pub fn new() -> HeldBoard
        ensures { result ≡ record { nodes = []; pool = None; slots = [] } }
    {
        HeldBoard {
            nodes: Seats::new(),
            pool: Seat {
                number: 0,
                cell: None,
            },
            slots: Seats::new(),
        }
    }

    /// Whether there is a place for a node.
    pub fn has_node_room(&self) -> bool
        ensures { IsTrue result ↔ (length self.now.nodes < 3) }
    {
        self.nodes.has_room()
    }

    /// Puts a node's cell under its number.
    pub fn put_node(&mut self, number: u8, cell: CellBox<NodePair>)
        requires { length self.old.nodes < 3 }
        ensures { self.new ≡ record self.old { nodes = self.old.nodes ++ record { number = number; cell = Some cell } ∷ [] } }
    {
        self.nodes.put(number, cell);
    }

    /// Whether a node is there.
    pub fn has_node(&self, number: u8) -> bool
        ensures { result ≡ is_some (cell_of self.now.nodes number) }
    {
        self.nodes.peek(number).is_some()
    }

    /// Lends a node's value to be read, where the node is there.
    pub fn node_value(&self, number: u8) -> Option<&NodeCell>
        ensures { option_map (λ cell. cell.now) result ≡ option_map (λ (w : NodeValues). w.now) (cell_of self.now.nodes number) }
    {
        Some(self.nodes.peek(number)?.value())
    }

    /// Takes a node's cell out, where it is there.
    pub fn take_node(&mut self, number: u8) -> Option<CellBox<NodePair>>
        ensures cell { result ≡ cell_of self.old.nodes number }
        ensures rest { self.new ≡ record self.old { nodes = without_cell self.old.nodes number } }
    {
        self.nodes.take(number)
    }

    /// Puts the pool's cell.
    pub fn put_pool(&mut self, cell: CellBox<PoolPair>)
        ensures { self.new ≡ record self.old { pool = Some cell } }
    {
        self.pool.cell = Some(cell);
    }

    /// Lends the pool's value to be read, where the pool is there.
    pub fn pool_value(&self) -> Option<&PoolCell>
        ensures { option_map (λ cell. cell.now) result ≡ option_map (λ (w : PoolIs). w.now) self.now.pool }
    {
        Some(&self.pool.peek()?.now)
    }

    /// Takes the pool's cell out, where it is there.
    pub fn take_pool(&mut self) -> Option<CellBox<PoolPair>>
        ensures cell { result ≡ self.old.pool }
        ensures rest { self.new ≡ record self.old { pool = None } }
    {
        self.pool.cell.take()
    }

    /// Whether there is a place for a slot.
    pub fn has_slot_room(&self) -> bool
        ensures { IsTrue result ↔ (length self.now.slots < 3) }
    {
        self.slots.has_room()
    }

    /// Puts a slot's cell under its number.
    pub fn put_slot(&mut self, number: u8, cell: CellBox<SlotCell>)
        requires { length self.old.slots < 3 }
        ensures { self.new ≡ record self.old { slots = self.old.slots ++ record { number = number; cell = Some cell } ∷ [] } }
    {
        self.slots.put(number, cell);
    }

    /// Whether a slot is there.
    pub fn has_slot(&self, number: u8) -> bool
        ensures { result ≡ is_some (cell_of self.now.slots number) }
    {
        self.slots.peek(number).is_some()
    }

    /// Takes a slot's cell out, where it is there.
    pub fn take_slot(&mut self, number: u8) -> Option<CellBox<SlotCell>>
        ensures cell { result ≡ cell_of self.old.slots number }
        ensures rest { self.new ≡ record self.old { slots = without_cell self.old.slots number } }
    {
        self.slots.take(number)
    }

    /// Whether some slot's register lists a qubit number.
    pub fn has_home(&self, number: u8) -> bool
        ensures { IsTrue result ↔ HasHome (held_cells self.now) number }
    {
        self.slots.home(number).is_some()
    }

    /// Whether no cell is there.
    pub fn is_empty(&self) -> bool
        ensures vacant { IsTrue result ↔ IsVacant self.now }
        ensures none { IsTrue result → HasNone (held_cells self.now) }
    {
        self.nodes.is_empty() && self.pool.cell.is_none() && self.slots.is_empty()
    }
}

impl Board for HeldBoard {
    ghost use Rattle.held_board.specs.Held.{held_cells, held_writes, held_are_put};

    ghost cells = { held_cells };

    ghost writes = { held_writes };

    ghost are_put = { held_are_put };

    fn node(&mut self, node: u8) -> &mut NodePair {
        self.nodes.get(node).deref_mut()
    }

    fn pool(&mut self) -> &mut PoolPair {
        self.pool.cell().deref_mut()
    }

    fn slot(&mut self, slot: u8) -> &mut SlotCell {
        self.slots.get(slot).deref_mut()
    }

    fn slots(&mut self, one: u8, two: u8) -> (&mut SlotCell, &mut SlotCell) {
        two_cells(all_slots(self), one, two)
    }

    fn home(&mut self, number: u8) -> u8 {
        match self.slots.home(number) {
            Some(slot) => slot,
            None => unreachable!(),
        }
    }
}

// Lends all slots' seats.
fn all_slots(board: &mut HeldBoard) -> &mut [Seat<CellBox<SlotCell>>]
    ensures* writes_back { sem 𝓛 (LendsSlotSeats board.entry result) }
    ensures value { result.now ≡ board.old.slots }
{
    board.slots.all()
}

// Lends two slots' seats.
fn two_seats(
    seats: &mut [Seat<CellBox<SlotCell>>],
    one: u8,
    two: u8,
) -> (&mut Seat<CellBox<SlotCell>>, &mut Seat<CellBox<SlotCell>>)
    requires { (one ≢ two) × IsSome (cell_of seats.old one) × IsSome (cell_of seats.old two) }
    ensures* writes_back { sem 𝓛 (LendsTwoSeats seats.entry (place seats.old one) (place seats.old two) result) }
    ensures value { (slice_get seats.old (place seats.old one) ≡ Some result.0.now) × (slice_get seats.old (place seats.old two) ≡ Some result.1.now) }
{
    let i = place_of(seats, one);
    let j = place_of(seats, two);
    two_of(seats, i, j)
}

// Lends two slots.
fn two_cells(
    seats: &mut [Seat<CellBox<SlotCell>>],
    one: u8,
    two: u8,
) -> (&mut SlotCell, &mut SlotCell)
    requires { (one ≢ two) × IsSome (cell_of seats.old one) × IsSome (cell_of seats.old two) }
    ensures* writes_back { sem 𝓛 (LendsTwoCells seats.entry one two result) }
    ensures value { (cell_of seats.old one ≡ Some result.0.now) × (cell_of seats.old two ≡ Some result.1.now) }
{
    let (a, b) = two_seats(seats, one, two);
    (slot_in(a), slot_in(b))
}

// Lends the slot in a seat.
fn slot_in(seat: &mut Seat<CellBox<SlotCell>>) -> &mut SlotCell
    requires { IsSome seat.old.cell }
    ensures* writes_back { sem 𝓛 (LendsSlot seat.entry result) }
    ensures value { seat.old.cell ≡ Some result.now }
{
    seat.cell().deref_mut()
}
