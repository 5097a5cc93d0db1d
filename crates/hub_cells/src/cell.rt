// A cell of any kind.
ghost use Rattle.std.specs.Prelude.{◌≡◌, true};
ghost use Rattle.hub_cells.specs.Cell.{has_next, ended_cell, settled_cell, forgotten_cell};

use cell_box::CellBox;
use commit_journal::Cells;
use core_cells::{Ending, NodePair, PoolPair, SlotCell};

/// A node, the pool or a slot, each with a value and a prepared next value or none. It is boxed, since it is moved between
/// its lock and a board for each call.
#[derive(Drop)]
pub enum Cell {
    /// What a node holds, and what waits there.
    Node(CellBox<NodePair>),
    /// What is free.
    Pool(CellBox<PoolPair>),
    /// A slot's register.
    Slot(CellBox<SlotCell>),
}

impl Cell {
    /// Whether a next value is prepared.
    pub fn ready(&self) -> bool
        ensures { result ≡ has_next self.now }
    {
        match self {
            Cell::Node(pair) => pair.is_prepared(),
            Cell::Pool(pair) => pair.next.is_some(),
            Cell::Slot(slot) => slot.register.prepared().is_some(),
        }
    }

    /// The next value becomes the value.
    pub fn settle(&mut self)
        requires { has_next self.old ≡ true }
        ensures { self.new ≡ settled_cell self.old }
    {
        self.end(Ending::Settle);
    }

    /// The next value is gone.
    pub fn forget(&mut self)
        ensures { self.new ≡ forgotten_cell self.old }
    {
        self.end(Ending::Forget);
    }

    // Ends what is prepared.
    fn end(&mut self, ending: Ending)
        ensures { self.new ≡ ended_cell ending self.old }
    {
        match self {
            Cell::Node(pair) => pair.end(ending),
            Cell::Pool(pair) => pair.end(ending),
            Cell::Slot(slot) => slot.end(ending),
        }
    }
}

impl Cells for Cell {
    ghost use Rattle.hub_cells.specs.Cell.{FitsCell, has_next, settled_cell, forgotten_cell};
    ghost use Rattle.hub_cells.specs.CellLaws.{none_settled_is, none_forgotten_is, value_stays_as, alike_fits, untouched_stays};

    ghost fits = { FitsCell };

    ghost has_next = { has_next };

    ghost settled = { settled_cell };

    ghost forgotten = { forgotten_cell };

    ghost none_settled = { none_settled_is };

    ghost none_forgotten = { none_forgotten_is };

    ghost value_stays = { value_stays_as };

    ghost alike = { alike_fits };

    ghost stays = { untouched_stays };

    fn ready(&self) -> bool {
        self.ready()
    }

    fn settle(&mut self) {
        self.settle();
    }

    fn forget(&mut self) {
        self.forget();
    }
}
