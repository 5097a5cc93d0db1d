// Fronts.
ghost use Rattle.std.specs.Prelude.{◌≡◌, ◌≤◌, [], length, false};
ghost use mathlib.Core.List.{IsPrefix};
ghost use Rattle.history_front.specs.Histories.{longer};

use crate::history::History;
use crate::named::Named;
use crate::plays::Load;
use crate::track::Track;
use atomic_table::Seat;
use std::marker::{Model, PhantomData};

/// A prefix of the history that was seen, and a length that the history has reached, in entries.
#[derive(Drop)]
pub struct Front<E, N: Named> {
    seat: Seat<E, Track<E>>,
    of: PhantomData<N>,
}

impl<E, N: Named> Model for Front<E, N> {
    ghost use Rattle.std.specs.Prelude.{◌≡◌, [], false};
    ghost use Rattle.history_front.specs.Sights.{Sight};

    ghost Value = { Sight E };

    ghost view = { λ f. record { seen = f.seat.me.0.seen; known = f.seat.me.0.known } };

    ghost invariant = { λ f. (f.seat.table_id ≡ N.table) × (f.seat.me.1 ≡ []) × (f.seat.me.0.pen ≡ false) };
}

impl<E, N: Named> Front<E, N> {
    // The front of a seat without the pen.
    pub(crate) fn with(seat: Seat<E, Track<E>>) -> Front<E, N>
        requires { (seat.table_id ≡ N.table) × (seat.me.1 ≡ []) × (seat.me.0.pen ≡ false) }
        ensures { (result.seen ≡ seat.me.0.seen) × (result.known ≡ seat.me.0.known) }
    {
        Front {
            seat,
            of: PhantomData,
        }
    }

    // Its seat, which hasn't the pen.
    pub(crate) fn into_seat(self) -> Seat<E, Track<E>>
        ensures seat { (result.table_id ≡ N.table) × (result.me.1 ≡ []) × (result.me.0.pen ≡ false) }
        ensures seen { (result.me.0.seen ≡ self.seen) × (result.me.0.known ≡ self.known) }
    {
        let Front { seat, of: _ } = self;
        seat
    }

    /// The same list.
    pub fn copy(&mut self, history: &History<E, N>) -> Front<E, N>
        ensures same { self.new ≡ self.old }
        ensures copied { result ≡ self.old }
    {
        history.front(&mut self.seat)
    }

    /// The history's length, in entries, which is at least that of all that was seen; it is what this front now knows.
    pub fn load(&mut self, history: &History<E, N>) -> u32
        ensures known { self.new.known ≡ result }
        ensures same { self.new.seen ≡ self.old.seen }
        ensures reached { (length self.old.seen ≤ result) × (self.old.known ≤ result) }
    {
        history.table.shared.load::<Load>(&mut self.seat, 0) as u32
    }

    /// Takes the longer of the two prefixes.
    pub fn meet(&mut self, history: &History<E, N>, other: Front<E, N>)
        ensures longer { self.new.seen ≡ longer self.old.seen other.seen }
        ensures old { IsPrefix self.old.seen self.new.seen }
        ensures other { IsPrefix other.seen self.new.seen }
        ensures known { (self.old.known ≤ self.new.known) × (other.known ≤ self.new.known) }
    {
        history.join(&mut self.seat, other.into_seat());
    }
}
