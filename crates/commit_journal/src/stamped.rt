// A cell with its number, and the history that it fits.
ghost use Rattle.std.specs.Prelude.{◌≡◌, ◌<◌, true, length, Some, None, IfSome, is_some, option_map};
ghost use Rattle.commit_journal.specs.Holding.{is_ready as is_ready_cell, forgotten_stamp};

use crate::cells::{Cells, Framed};
use history_front::{Front, Named};
use network_model::Entry;
use register_locks::Numbered;
use std::marker::Model;

/// A cell, its number, a front, and a stamp, which is the length of the front's list. The cell's value fits that list.
#[derive(Drop)]
pub struct Stamped<C: Cells, N: Named + Framed> {
    pub(crate) number: u16,
    pub(crate) cell: Option<C>,
    pub(crate) front: Front<Entry, N>,
    pub(crate) stamp: u32,
}

impl<C: Cells, N: Named + Framed> Model for Stamped<C, N> {
    ghost use Rattle.std.specs.Prelude.{◌≡◌, ◌<◌, length, IfSome};
    ghost use Rattle.commit_journal.specs.Views.{Stamp};

    ghost Value = { Stamp C };

    ghost view = { λ s. record { number = s.number; cell = s.cell; seen = s.front.seen } };

    ghost invariant = { λ s. IfSome s.cell (λ c. C.fits N.shape s.number c s.front.seen) × (s.stamp ≡ length s.front.seen) × (s.number < N.cells) };
}

impl<C: Cells, N: Named + Framed> Numbered for Stamped<C, N> {
    ghost number_of = { λ s. s.number };

    fn number(&self) -> u16 {
        self.cell_number()
    }
}

impl<C: Cells, N: Named + Framed> Stamped<C, N> {
    /// The cell's number.
    pub fn cell_number(&self) -> u16
        ensures { (result ≡ self.now.number) × (result < N.cells) }
    {
        self.number
    }

    /// Whether the cell is there and has a next value.
    pub fn is_ready(&self) -> bool
        ensures { result ≡ is_ready_cell C.has_next self.now.cell }
    {
        match &self.cell {
            Some(cell) => cell.ready(),
            None => false,
        }
    }

    /// Lends the cell to be read, where it is there.
    pub fn cell(&self) -> Option<&C>
        ensures { option_map (λ cell. cell.now) result ≡ self.now.cell }
    {
        match &self.cell {
            Some(cell) => Some(cell),
            None => None,
        }
    }

    /// Whether the cell is there.
    pub fn is_there(&self) -> bool
        ensures { result ≡ is_some self.now.cell }
    {
        self.cell.is_some()
    }

    /// Takes the cell out, to be prepared. Its value fits what was seen.
    pub fn lift(&mut self) -> Option<C>
        ensures out { self.new ≡ record self.old { cell = None } }
        ensures cell { result ≡ self.old.cell }
        ensures fits { IfSome result (λ c. C.fits N.shape self.old.number c self.old.seen) }
    {
        self.cell.take()
    }

    /// Lays a cell back whose value fits what was seen.
    pub fn lay(&mut self, cell: C)
        requires { C.fits N.shape self.old.number cell self.old.seen }
        ensures { self.new ≡ record self.old { cell = Some cell } }
    {
        self.cell = Some(cell);
    }

    /// The next value is gone.
    pub(crate) fn forget(&mut self)
        ensures { self.new ≡ forgotten_stamp C.forgotten self.old }
    {
        if let Some(cell) = &mut self.cell {
            cell.forget();
        }
    }

    /// The next value is the value, which fits what the front has seen.
    pub(crate) fn settle(&mut self, front: Front<Entry, N>, stamp: u32)
        requires stamp { stamp ≡ length front.seen }
        requires next { IfSome self.old.cell (λ c. (C.has_next c ≡ true) × C.fits N.shape self.old.number (C.settled c) front.seen) }
        ensures { self.new ≡ record { number = self.old.number; cell = option_map C.settled self.old.cell; seen = front.seen } }
    {
        if let Some(cell) = &mut self.cell {
            cell.settle();
        }
        self.front = front;
        self.stamp = stamp;
    }
}
