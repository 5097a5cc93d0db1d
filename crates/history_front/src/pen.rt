// The pen.
ghost use Rattle.std.specs.Prelude.{◌≡◌, ◌<◌, ◌-◌, ◌^◌, ◌++◌, ◌∷◌, [], length};
ghost use mathlib.Core.List.{IsPrefix};
ghost use Rattle.history_front.specs.Histories.{opening_track};

use crate::front::Front;
use crate::history::History;
use crate::named::Named;
use crate::plays::Append;
use crate::track::Track;
use atomic_table::Seat;
use std::marker::{Model, PhantomData};

/// The one that appends. Contracts see the whole history.
#[derive(Drop)]
pub struct Pen<E, N: Named> {
    seat: Seat<E, Track<E>>,
    count: u32,
    of: PhantomData<N>,
}

impl<E, N: Named> Model for Pen<E, N> {
    ghost use Rattle.std.specs.Prelude.{◌≡◌, [], List, length, true};

    ghost Value = { List E };

    ghost view = { λ p. p.seat.me.0.seen };

    ghost invariant = { λ p. (p.seat.table_id ≡ N.table) × (p.seat.me.1 ≡ []) × (p.seat.me.0.pen ≡ true) × (p.count ≡ length p.seat.me.0.seen) × (p.seat.me.0.known ≡ length p.seat.me.0.seen) };
}

impl<E, N: Named> Pen<E, N> {
    // The pen of the empty history.
    pub(crate) fn with(seat: Seat<E, Track<E>>) -> Pen<E, N>
        requires { (seat.table_id ≡ N.table) × (seat.me ≡ (opening_track, [])) }
        ensures { result ≡ [] }
    {
        Pen {
            seat,
            count: 0,
            of: PhantomData,
        }
    }

    /// The history's length, in entries.
    pub fn len(&self) -> u32
        ensures { result ≡ length self.now }
    {
        self.count
    }

    /// Adds an entry, as the history's last.
    pub fn append(&mut self, history: &History<E, N>, entry: &E)
        requires { length self.old < 2 ^ 32 - 1 }
        ensures { self.new ≡ self.old ++ entry.now ∷ [] }
    {
        let length = u64::from(self.count);
        history
            .table
            .shared
            .compare_exchange_with::<Append>(&mut self.seat, 0, length, length + 1, entry);
        self.count += 1;
    }

    /// A front with all of the history.
    pub fn copy(&mut self, history: &History<E, N>) -> Front<E, N>
        ensures same { self.new ≡ self.old }
        ensures copied { (result.seen ≡ self.old) × (result.known ≡ length self.old) }
    {
        history.front(&mut self.seat)
    }

    /// Shows that the other's list is a prefix of the history.
    pub fn meet(&mut self, history: &History<E, N>, other: Front<E, N>)
        ensures same { self.new ≡ self.old }
        ensures prefix { IsPrefix other.seen self.old }
    {
        history.join(&mut self.seat, other.into_seat());
    }
}
