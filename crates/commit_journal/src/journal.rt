// The journal.
ghost use Rattle.std.specs.Prelude.{◌≡◌, ◌<◌, ◌≤◌, [], ℕ, ◌^◌, ◌↔◌, length, vec_len, replicate, IsTrue, IsOk, IfOk, IfErr, Some, slice_get};
ghost use Rattle.network_model.specs.History.{IsLegal};
ghost use Rattle.commit_journal.specs.Views.{Worker, AreCounted, HaveMade};
ghost use Rattle.commit_journal.specs.Commits.{IsFirstStalePass};

use crate::cells::{Cells, Framed};
use crate::fault::Stale;
use crate::pass::Pass;
use crate::stamped::Stamped;
use history_front::{Begun, Blank, History, Named, Pen};
use network_model::Entry;
use std::alloc::{AllocError, Global};
use std::marker::Model;

/// Entries with the history's pen; and kept numbers: for each cell that of the entries up to the last one that touched
/// it, and for each seat that of its entries. Contracts see the entries.
#[derive(Drop)]
pub struct Journal<N: Named + Framed> {
    pub(crate) entries: Vec<Entry>,
    pub(crate) capacity: u32,
    pub(crate) history: History<Entry, N>,
    pub(crate) pen: Pen<Entry, N>,
    pub(crate) kept: Vec<u32>,
    pub(crate) made: Vec<u32>,
}

impl<N: Named + Framed> Model for Journal<N> {
    ghost use Rattle.std.specs.Prelude.{◌≡◌, ◌≤◌, ◌<◌, ◌^◌, List, vec_len};
    ghost use Rattle.std.specs.Vec.{vec_capacity};
    ghost use Rattle.network_model.specs.declared.Entry.{Entry};
    ghost use Rattle.commit_journal.specs.Keeping.{Keeps};

    ghost Value = { List Entry };

    ghost view = { λ j. j.entries.items };

    ghost invariant = { λ j. (j.pen ≡ j.entries.items) × Keeps N.shape N.cells N.seats j.entries.items j.kept.items j.made.items
        × (vec_len j.entries ≤ j.capacity) × (j.capacity ≤ vec_capacity j.entries) × (j.capacity < 2 ^ 32) × (j.capacity ≡ N.capacity) × (N.cells ≤ 137) × (N.seats ≤ 64) };
}

impl<N: Named + Framed> Journal<N> {
    /// Opens the history under the name N, for as many entries, cells and seats as N says. It has no entry.
    pub fn new(
        alloc: Global,
        blank: Blank<Entry>,
        capacity: u32,
        cells: u16,
        seats: u16,
    ) -> Result<Journal<N>, AllocError>
        requires name { blank ≡ N.table }
        requires frame { (N.capacity ≡ capacity) × (N.cells ≡ cells) × (N.seats ≡ seats) }
        requires limit { 1 ≤ N.shape.limit }
        requires most { (cells ≤ 137) × (seats ≤ 64) }
        ensures { IfOk result (λ j. j ≡ []) }
    {
        let entries = Vec::with_capacity(alloc, capacity as usize)?;
        let kept = zeros(alloc, cells as usize)?;
        let made = zeros(alloc, seats as usize)?;
        let Begun { history, pen } = blank.open::<N>();
        Ok(Journal {
            entries,
            capacity,
            history,
            pen,
            kept,
            made,
        })
    }

    /// Stamps a cell that fits the empty history, with its number.
    pub fn stamp<C: Cells>(&mut self, number: u16, cell: C) -> Stamped<C, N>
        requires empty { self.old ≡ [] }
        requires number { number < N.cells }
        requires fits { C.fits N.shape number cell [] }
        ensures same { self.new ≡ self.old }
        ensures stamped { result ≡ record { number = number; cell = Some cell; seen = [] } }
    {
        Stamped {
            number,
            cell: Some(cell),
            front: self.pen.copy(&self.history),
            stamp: 0,
        }
    }

    /// The pass of a seat. It has made no entry.
    pub fn pass(&mut self, seat: u16) -> Pass<N>
        requires empty { self.old ≡ [] }
        requires seat { seat < N.seats }
        ensures same { self.new ≡ self.old }
        ensures pass { result ≡ record { seat = seat; made = 0; seen = [] } }
    {
        Pass {
            front: self.pen.copy(&self.history),
            seat,
            made: 0,
        }
    }

    /// Ends the journal with the passes of all its seats, in the order of seats, and gives its entries. Stale is the
    /// first pass whose number of entries isn't the journal's; the journal and the passes are then gone.
    pub fn close(mut self, mut passes: Vec<Pass<N>>) -> Result<Vec<Entry>, Stale>
        requires seats { vec_len passes ≡ N.seats }
        requires order { (k : ℕ) (p : Worker) → slice_get passes.items k ≡ Some p → p.seat ≡ k }
        ensures counted { IsOk result ↔ AreCounted passes.items self }
        ensures stale { IfErr result (λ s. IsFirstStalePass N.cells passes.items self s) }
        ensures entries { IfOk result (λ v. v.items ≡ self) }
        ensures legal { IfOk result (λ v. IsLegal N.shape v.items) }
        ensures made { IfOk result (λ v. HaveMade passes.items v.items) }
        ensures most { IfOk result (λ v. vec_len v ≤ N.capacity) }
    {
        for place in 0..passes.len() {
            if let Err(stale) = self.counted(&mut passes[place]) {
                return Err(stale);
            }
        }
        let Journal {
            entries,
            capacity: _,
            history: _,
            pen: _,
            kept: _,
            made: _,
        } = self;
        Ok(entries)
    }

    /// How many entries there are.
    pub fn len(&self) -> u32
        ensures len { result ≡ length self.now }
        ensures most { result ≤ N.capacity }
        ensures legal { IsLegal N.shape self.now }
        ensures limit { 1 ≤ N.shape.limit }
        ensures few { N.capacity < 2 ^ 32 }
    {
        self.entries.len() as u32
    }

    /// Whether there is no room for an entry.
    pub(crate) fn is_full(&self) -> bool
        ensures { IsTrue result ↔ (length self.now ≡ N.capacity) }
    {
        self.entries.len() as u32 == self.capacity
    }
}

// A list of zeros.
fn zeros(alloc: Global, count: usize) -> Result<Vec<u32>, AllocError>
    ensures { IfOk result (λ v. v.items ≡ replicate count 0) }
{
    vec![in alloc; 0u32; count]
}
