// Cells that are moved from a hold onto a board, and back.
ghost use Rattle.std.specs.Prelude.{◌≡◌, ◌≤◌, ◌<◌, ◌⊎◌, ℕ, List, length, Some, None, IsSome, IfSome, is_some, option_map, true, false};
ghost use Rattle.hub_cells.specs.declared.cell.Cell.TheVariants.{Node, Pool, Slot};
ghost use Rattle.state_model.specs.Row.{is_listed};
ghost use Rattle.register_locks.specs.declared.slot.Slot.{Slot as Place};
ghost use Rattle.commit_journal.specs.Views.{Stamp};
ghost use Rattle.commit_journal.specs.Holding.{IsHeld, map_values};
ghost use Rattle.held_board.specs.Held.{held_cells};
ghost use Rattle.hub_cells.specs.declared.cell.Cell.{Cell};
ghost use Rattle.hub_cells.specs.Cell.{FitsCell, has_next};
ghost use Rattle.hub_cells.specs.Laid.{cell_at, IsLaid};
ghost use Rattle.quantum_hub.specs.Moves.{IsPut, IsTaken, lifted, IsLoaded, IsLaidOne};

use cell_box::CellBox;
use commit_journal::{Framed, Stamped};
use core_cells::{NodePair, PoolPair, SlotCell};
use held_board::HeldBoard;
use history_front::Named;
use hub_cells::Cell;
use register_locks::Hold;
use virtual_node::Shape;

// Puts a cell on a board under its number, or gives it back where there is no place for it.
fn put_cell(board: &mut HeldBoard, shape: &Shape, number: u16, cell: Cell) -> Option<Cell>
    ensures back { IfSome result (λ x. x ≡ cell) }
    ensures put { is_some result ≡ false → IsPut shape.now number cell (held_cells board.old) (held_cells board.new) }
{
    let nodes = u16::from(shape.nodes());
    match cell {
        Cell::Node(pair) => {
            if number >= nodes || !board.has_node_room() {
                return Some(Cell::Node(pair));
            }
            board.put_node(number as u8, pair);
            None
        }
        Cell::Pool(pair) => {
            if number != nodes {
                return Some(Cell::Pool(pair));
            }
            board.put_pool(pair);
            None
        }
        Cell::Slot(slot) => {
            if number <= nodes || number > 200 || !board.has_slot_room() {
                return Some(Cell::Slot(slot));
            }
            board.put_slot((number - nodes - 1) as u8, slot);
            None
        }
    }
}

// Takes the cell of a number out of a board.
fn take_cell(board: &mut HeldBoard, shape: &Shape, number: u16) -> Option<Cell>
    requires { number ≤ 200 }
    ensures cell { result ≡ cell_at shape.now (held_cells board.old) number }
    ensures rest { IsTaken shape.now number (held_cells board.old) (held_cells board.new) }
{
    let nodes = u16::from(shape.nodes());
    if number < nodes {
        return node_of(board.take_node(number as u8));
    }
    if number == nodes {
        return pool_of(board.take_pool());
    }
    slot_of(board.take_slot((number - nodes - 1) as u8))
}

fn node_of(pair: Option<CellBox<NodePair>>) -> Option<Cell>
    ensures { result ≡ option_map Node pair }
{
    match pair {
        Some(pair) => Some(Cell::Node(pair)),
        None => None,
    }
}

fn pool_of(pair: Option<CellBox<PoolPair>>) -> Option<Cell>
    ensures { result ≡ option_map Pool pair }
{
    match pair {
        Some(pair) => Some(Cell::Pool(pair)),
        None => None,
    }
}

fn slot_of(slot: Option<CellBox<SlotCell>>) -> Option<Cell>
    ensures { result ≡ option_map Slot slot }
{
    match slot {
        Some(slot) => Some(Cell::Slot(slot)),
        None => None,
    }
}

// Whether a number is picked.
fn is_picked(picks: &[u16], number: u16) -> bool
    ensures { result ≡ is_listed picks.now number }
{
    for place in 0..picks.len() {
        if picks[place] == number {
            return true;
        }
    }
    false
}

// Lifts a stamped cell, if it is picked, onto a board. False if it has no place there.
fn load_one<N: Named + Framed>(
    stamped: &mut Stamped<Cell, N>,
    board: &mut HeldBoard,
    shape: &Shape,
    picks: &[u16],
) -> bool
    requires { shape.now ≡ N.shape }
    ensures lifted { result ≡ true → stamped.new ≡ lifted picks.now stamped.old }
    ensures loaded { result ≡ true → (slots : List (Place (Stamp Cell))) → IsHeld slots stamped.old → IsLoaded N.shape picks.now slots (held_cells board.old) → IsLoaded N.shape picks.now slots (held_cells board.new) }
{
    let number = stamped.cell_number();
    if !is_picked(picks, number) {
        return true;
    }
    let Some(cell) = stamped.lift() else {
        return false;
    };
    if let Some(cell) = put_cell(board, shape, number, cell) {
        stamped.lay(cell);
        return false;
    }
    true
}

/// Lifts the picked cells of a hold onto an empty board. False if one has no place there.
pub(crate) fn load<N: Named + Framed, const ROOM: usize>(
    hold: &mut Hold<'_, Stamped<Cell, N>, ROOM>,
    board: &mut HeldBoard,
    shape: &Shape,
    picks: &[u16],
) -> bool
    requires shape { shape.now ≡ N.shape }
    requires empty { IsLoaded N.shape picks.now hold.old.slots (held_cells board.old) }
    ensures lifted { result ≡ true → hold.new ≡ record hold.old { slots = map_values (lifted picks.now) hold.old.slots } }
    ensures loaded { result ≡ true → IsLoaded N.shape picks.now hold.old.slots (held_cells board.new) }
{
    for place in 0..hold.len() {
        if !load_one(hold.at(place), board, shape, picks) {
            return false;
        }
    }
    true
}

// Lays a stamped cell back, if it was lifted out. False if the board doesn't have it.
fn lay_one<N: Named + Framed>(
    stamped: &mut Stamped<Cell, N>,
    board: &mut HeldBoard,
    shape: &Shape,
) -> bool
    requires shape { shape.now ≡ N.shape }
    requires few { N.cells ≤ 137 }
    requires fits { (x : Cell) → stamped.old.cell ≡ None → cell_at N.shape (held_cells board.old) stamped.old.number ≡ Some x → FitsCell N.shape stamped.old.number x stamped.old.seen }
    ensures { result ≡ true → IsLaidOne N.shape stamped.old stamped.new (held_cells board.old) (held_cells board.new) }
{
    if stamped.is_there() {
        return true;
    }
    let Some(cell) = take_cell(board, shape, stamped.cell_number()) else {
        return false;
    };
    stamped.lay(cell);
    true
}

/// Lays the cells of a board back where they were lifted out. False if one of them isn't there, or is left.
pub(crate) fn lay<N: Named + Framed, const ROOM: usize>(
    hold: &mut Hold<'_, Stamped<Cell, N>, ROOM>,
    board: &mut HeldBoard,
    shape: &Shape,
) -> bool
    requires shape { shape.now ≡ N.shape }
    requires few { N.cells ≤ 137 }
    requires nodes { (m : ℕ) → IsSome ((held_cells board.old).node m) → m < length shape.now.places }
    requires fits { (c : Stamp Cell) (x : Cell) → IsHeld hold.old.slots c → c.cell ≡ None → cell_at N.shape (held_cells board.old) c.number ≡ Some x → FitsCell N.shape c.number x c.seen }
    requires idle { (c : Stamp Cell) (x : Cell) → IsHeld hold.old.slots c → c.cell ≡ Some x → (has_next x ≡ false) × (cell_at N.shape (held_cells board.old) c.number ≡ None) }
    ensures { result ≡ true → IsLaid N.shape hold.new.slots (held_cells board.old) }
{
    for place in 0..hold.len() {
        if !lay_one(hold.at(place), board, shape) {
            return false;
        }
    }
    board.is_empty()
}
