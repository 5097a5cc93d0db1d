// A board that owns its cells.
ghost use Rattle.std.specs.Borrow.{sem};
ghost use Rattle.std.specs.Prelude.{◌≡◌, ◌≢◌, ◌<◌, ◌≤◌, ℕ, IfOk, Some, None, IsSome, true, slice_get, length, replicate};
ghost use Rattle.state_model.specs.Row.{is_listed};
ghost use Rattle.virtual_node.specs.Node.{empty_node};
ghost use Rattle.core_cells.specs.Cells.{empty_slot};
ghost use Rattle.core_cells.specs.Owned.{IsOpened, cells_of};
ghost use Rattle.core_cells.specs.Lending.{LendsSlots, LendsPair};

use crate::board::Board;
use crate::cells::{NodePair, PoolPair, SlotCell};
use crate::pool::PoolCell;
use crate::slice::two_of;
use std::alloc::{AllocError, Global};
use std::marker::Model;
use virtual_node::Shape;

/// All cells of a network in one value.
#[derive(Drop)]
pub struct OwnedCells {
    nodes: Vec<NodePair>,
    pool: PoolPair,
    slots: Vec<SlotCell>,
}

impl Model for OwnedCells {
    ghost use Rattle.std.specs.Prelude.{◌≤◌, length};
    ghost use Rattle.core_cells.specs.Owned.{Owned};

    ghost Value = { Owned };

    ghost view = { λ o. record { nodes = o.nodes.items; pool = o.pool; slots = o.slots.items } };

    ghost invariant = { λ o. length o.slots.items ≤ 128 };
}

impl OwnedCells {
    /// The cells of a network in which no qubit is live.
    pub fn open(alloc: Global, shape: &Shape) -> Result<OwnedCells, AllocError>
        ensures { IfOk result (λ o. IsOpened shape.now (cells_of o)) }
    {
        let pool = PoolPair {
            now: PoolCell::new(shape),
            next: None,
        };
        Ok(OwnedCells {
            nodes: empty_nodes(alloc, shape.nodes())?,
            pool,
            slots: empty_slots(alloc, shape.nodes() * shape.room(), shape.limit())?,
        })
    }
}

impl Board for OwnedCells {
    ghost use Rattle.core_cells.specs.Owned.{cells_of, owned_writes, owned_are_put};

    ghost cells = { cells_of };

    ghost writes = { owned_writes };

    ghost are_put = { owned_are_put };

    #[tactic(auto, using(crate::proofs::Within::within))]
    fn node(&mut self, node: u8) -> &mut NodePair {
        &mut self.nodes[node as usize]
    }

    fn pool(&mut self) -> &mut PoolPair {
        &mut self.pool
    }

    #[tactic(auto, using(crate::proofs::Within::within))]
    fn slot(&mut self, slot: u8) -> &mut SlotCell {
        &mut self.slots[slot as usize]
    }

    fn slots(&mut self, one: u8, two: u8) -> (&mut SlotCell, &mut SlotCell) {
        pair(all_slots(self), one, two)
    }

    fn home(&mut self, number: u8) -> u8 {
        place_of(&self.slots, number)
    }
}

// Lends all slots.
fn all_slots(cells: &mut OwnedCells) -> &mut [SlotCell]
    ensures* writes_back { sem 𝓛 (LendsSlots cells.entry result) }
    ensures value { result.now ≡ cells.old.slots }
{
    cells.slots.as_mut_slice()
}

// Lends two slots of a list.
fn pair(slots: &mut [SlotCell], one: u8, two: u8) -> (&mut SlotCell, &mut SlotCell)
    requires { (one ≢ two) × (one < length slots.old) × (two < length slots.old) }
    ensures* writes_back { sem 𝓛 (LendsPair slots.entry one two result) }
    ensures value { (slice_get slots.old one ≡ Some result.0.now) × (slice_get slots.old two ≡ Some result.1.now) }
{
    let i = one as usize;
    let j = two as usize;
    two_of(slots, i, j)
}

// Nodes where nothing is held and nothing waits.
fn empty_nodes(alloc: Global, count: u8) -> Result<Vec<NodePair>, AllocError>
    ensures { IfOk result (λ v. v.items ≡ replicate count (record { now = empty_node; next = None })) }
{
    let mut nodes = Vec::with_capacity(alloc, count as usize)?;
    for _ in 0..count {
        nodes.push(NodePair::new())?;
    }
    Ok(nodes)
}

// Slots whose registers have no qubit.
fn empty_slots(alloc: Global, count: u8, limit: u8) -> Result<Vec<SlotCell>, AllocError>
    requires some { 1 ≤ limit }
    requires most { limit ≤ 12 }
    ensures { IfOk result (λ v. v.items ≡ replicate count (empty_slot limit)) }
{
    let mut slots = Vec::with_capacity(alloc, count as usize)?;
    for _ in 0..count {
        slots.push(SlotCell::new(alloc, limit)?)?;
    }
    Ok(slots)
}

// The first slot whose register lists the number.
fn place_of(slots: &[SlotCell], number: u8) -> u8
    requires few { length slots.now ≤ 128 }
    requires some { (t : ℕ) × (w : SlotCell) × (slice_get slots.now t ≡ Some w) × (is_listed w.register.value.qubits number ≡ true) }
    ensures { (w : SlotCell) × (slice_get slots.now result ≡ Some w) × (is_listed w.register.value.qubits number ≡ true) }
{
    for t in 0..slots.len() {
        if slots[t].has(number) {
            return t as u8;
        }
    }
    unreachable!()
}
