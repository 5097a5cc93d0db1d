// What a hub begins with: cells, passes and hints.
ghost use Rattle.std.specs.Prelude.{◌≡◌, ◌<◌, ◌≤◌, ◌+◌, ℕ, [], IfOk, Some, length, slice_get, vec_len};
ghost use Rattle.commit_journal.specs.Views.{Stamp, Worker};
ghost use Rattle.hub_cells.specs.declared.cell.Cell.{Cell};
ghost use Rattle.hub_cells.specs.Cell.{FitsCell};
ghost use Rattle.quantum_hub.specs.Opening.{AreNumbered, AreFreshPasses};

use crate::hints::Hint;
use cell_box::CellBox;
use commit_journal::{Framed, Journal, Pass, Stamped};
use core_cells::{NodePair, PoolCell, PoolPair, SlotCell};
use history_front::Named;
use hub_cells::Cell;
use std::alloc::{AllocError, Global};
use std::sync::atomic::AtomicIn;
use virtual_node::Shape;

// The cell of a number before any entry.
fn opening_cell(alloc: Global, shape: &Shape, number: u16) -> Result<Cell, AllocError>
    ensures { IfOk result (λ c. FitsCell shape.now number c []) }
{
    let nodes = u16::from(shape.nodes());
    if number < nodes {
        let node = CellBox::new(alloc, NodePair::new())?;
        return Ok(Cell::Node(node));
    }
    if number == nodes {
        let pair = PoolPair {
            now: PoolCell::new(shape),
            next: None,
        };
        let pool = CellBox::new(alloc, pair)?;
        return Ok(Cell::Pool(pool));
    }
    let cell = SlotCell::new(alloc, shape.limit())?;
    let slot = CellBox::new(alloc, cell)?;
    Ok(Cell::Slot(slot))
}

/// All cells before any entry, in order of their numbers.
pub(crate) fn opening_cells<N: Named + Framed>(
    alloc: Global,
    journal: &mut Journal<N>,
    shape: &Shape,
    count: u16,
) -> Result<Vec<Stamped<Cell, N>>, AllocError>
    requires empty { journal.old ≡ [] }
    requires shape { shape.now ≡ N.shape }
    requires count { count ≡ N.cells }
    ensures same { IfOk result (λ v. journal.new ≡ []) }
    ensures cells { IfOk result (λ v. (vec_len v ≡ count) × AreNumbered v.items) }
{
    let mut cells = Vec::with_capacity(alloc, count as usize)?;
    for number in 0..count {
        let cell = opening_cell(alloc, shape, number)?;
        cells.push(journal.stamp(number, cell))?;
    }
    Ok(cells)
}

/// The passes of all seats before any entry, in order of seat.
pub(crate) fn opening_passes<N: Named + Framed>(
    alloc: Global,
    journal: &mut Journal<N>,
    seats: u16,
) -> Result<Vec<Pass<N>>, AllocError>
    requires empty { journal.old ≡ [] }
    requires seats { seats ≡ N.seats }
    ensures { IfOk result (λ v. (vec_len v ≡ seats) × AreFreshPasses v.items) }
{
    let mut passes = Vec::with_capacity(alloc, seats as usize)?;
    for seat in 0..seats {
        passes.push(journal.pass(seat))?;
    }
    Ok(passes)
}

/// A hint for each qubit number: the first slot.
pub(crate) fn opening_hints(alloc: Global) -> Result<Vec<AtomicIn<Hint>>, AllocError> {
    let mut hints = Vec::with_capacity(alloc, 128)?;
    for _ in 0..128 {
        hints.push(AtomicIn::<Hint>::new(0))?;
    }
    Ok(hints)
}
