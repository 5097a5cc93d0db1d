// A new entry: next values become values, and kept numbers rise.
ghost use Rattle.std.specs.Prelude.{◌≡◌, ◌<◌, ◌+◌, ◌-◌, ◌^◌, ◌++◌, ◌∷◌, [], true, cond, length, slice_set, vec_len, IfSome};
ghost use Rattle.commit_journal.specs.Keeping.{own_count};
ghost use Rattle.commit_journal.specs.Holding.{committed_stamp, is_ready, IsEntered, AreNext, AreMarked, map_values};

use crate::cells::{Cells, Framed};
use crate::journal::Journal;
use crate::pass::Pass;
use crate::stamped::Stamped;
use history_front::{History, Named, Pen};
use network_model::Entry;
use register_locks::Hold;

impl<N: Named + Framed> Journal<N> {
    /// The pass has seen the whole journal, in which it made no more entries.
    pub(crate) fn tell(&mut self, pass: &mut Pass<N>)
        requires { own_count pass.old.seat self.old ≡ pass.old.made }
        ensures same { self.new ≡ self.old }
        ensures pass { pass.new ≡ record { seat = pass.old.seat; made = pass.old.made; seen = self.old } }
    {
        pass.front = self.pen.copy(&self.history);
    }

    /// The pass has seen the whole journal, in which it made one entry more.
    pub(crate) fn note(&mut self, pass: &mut Pass<N>)
        requires made { own_count pass.old.seat self.old ≡ pass.old.made + 1 }
        requires few { pass.old.made < 2 ^ 32 - 1 }
        ensures same { self.new ≡ self.old }
        ensures pass { pass.new ≡ record { seat = pass.old.seat; made = pass.old.made + 1; seen = self.old } }
    {
        pass.front = self.pen.copy(&self.history);
        pass.made += 1;
    }

    /// Adds an entry, whose cells are held. Their next values become their values.
    pub(crate) fn enter<C: Cells, const ROOM: usize>(
        &mut self,
        hold: &mut Hold<'_, Stamped<C, N>, ROOM>,
        entry: Entry,
    )
        requires room { length self.old < N.capacity }
        requires seat { entry.call.seat < N.seats }
        requires entered { IsEntered C.fits C.has_next C.settled N.shape N.cells hold.old.slots self.old entry }
        ensures journal { self.new ≡ self.old ++ entry ∷ [] }
        ensures hold { hold.new ≡ record hold.old { slots = map_values (committed_stamp C.has_next C.settled (self.old ++ entry ∷ [])) hold.old.slots } }
    {
        self.pen.append(&self.history, &entry);
        let count = self.entries.len() as u32 + 1;
        let Ok(()) = self.entries.push(entry) else {
            unreachable!()
        };
        self.made[entry.call.seat as usize] += 1;
        settle_all(&self.history, &mut self.pen, &mut self.kept, hold, count);
    }
}

// The next values of held cells become their values, which fit the whole history. Their kept numbers are its length.
fn settle_all<C: Cells, N: Named + Framed, const ROOM: usize>(
    history: &History<Entry, N>,
    pen: &mut Pen<Entry, N>,
    kept: &mut Vec<u32>,
    hold: &mut Hold<'_, Stamped<C, N>, ROOM>,
    count: u32,
)
    requires count { count ≡ length pen.old }
    requires kept { vec_len kept.old ≡ N.cells }
    requires next { AreNext C.fits C.has_next C.settled N.shape hold.old.slots pen.old }
    ensures pen { pen.new ≡ pen.old }
    ensures hold { hold.new ≡ record hold.old { slots = map_values (committed_stamp C.has_next C.settled pen.old) hold.old.slots } }
    ensures kept { AreMarked C.has_next (length hold.old.slots) hold.old.slots count kept.old.items kept.new.items }
{
    for place in 0..hold.len() {
        settle_cell(history, pen, kept, hold.at(place), count);
    }
}

// The same of one cell.
fn settle_cell<C: Cells, N: Named + Framed>(
    history: &History<Entry, N>,
    pen: &mut Pen<Entry, N>,
    kept: &mut Vec<u32>,
    cell: &mut Stamped<C, N>,
    count: u32,
)
    requires count { count ≡ length pen.old }
    requires kept { vec_len kept.old ≡ N.cells }
    requires next { IfSome cell.old.cell (λ x. C.has_next x ≡ true → C.fits N.shape cell.old.number (C.settled x) pen.old) }
    ensures pen { pen.new ≡ pen.old }
    ensures cell { cell.new ≡ committed_stamp C.has_next C.settled pen.old cell.old }
    ensures kept { kept.new.items ≡ cond (is_ready C.has_next cell.old.cell) (slice_set kept.old.items cell.old.number count) kept.old.items }
{
    if cell.is_ready() {
        kept[cell.cell_number() as usize] = count;
        cell.settle(pen.copy(history), count);
    }
}
