// The word with the history's length, and how a history is opened.
ghost use Rattle.std.specs.Prelude.{◌≡◌, [], false};
ghost use Rattle.history_front.specs.Histories.{HasMet};

use crate::front::Front;
use crate::named::Named;
use crate::pen::Pen;
use crate::plays::{Copies, Load, Meets};
use crate::track::{Law, Track};
use atomic_table::{Seat, Table};
use std::alloc::{AllocError, Global};
use std::marker::{Model, PhantomData};

/// A table of its own with the empty history, which has no name yet. Contracts see which table it is.
#[derive(Drop)]
pub struct Blank<E> {
    table: Table<E, Track<E>, (), Law, Global>,
    seat: Seat<E, Track<E>>,
}

impl<E> Model for Blank<E> {
    ghost use Rattle.std.specs.Prelude.{◌≡◌, []};
    ghost use Rattle.atomic_table.specs.Seated.{TableId, table_id_coded};
    ghost use Rattle.history_front.specs.Histories.{opening_track};

    ghost Value = { TableId };

    ghost coded = { table_id_coded };

    ghost view = { λ b. b.table.shared.table_id };

    ghost invariant = { λ b. (b.table.shared.table_id.words ≡ 1) × (b.seat.table_id ≡ b.table.shared.table_id) × (b.seat.me ≡ (opening_track, [])) };
}

/// The word that all threads share: the length of the history, in entries.
#[derive(Drop)]
pub struct History<E, N: Named> {
    pub(crate) table: Table<E, Track<E>, (), Law, Global>,
    of: PhantomData<N>,
    ghost named: { table.shared.table_id ≡ N.table },
    ghost one_word: { table.shared.table_id.words ≡ 1 },
}

/// A history that was opened, and what appends to it.
#[derive(Drop)]
pub struct Begun<E, N: Named> {
    /// The word with its length.
    pub history: History<E, N>,
    /// The one that appends.
    pub pen: Pen<E, N>,
}

impl<E> Blank<E> {
    /// A table of its own, with the empty history.
    pub fn new(alloc: Global) -> Result<Blank<E>, AllocError> {
        let (table, seat) = Table::of_words(alloc, &[0], &())?;
        Ok(Blank { table, seat })
    }

    /// The history under the name that N gives it. Its length is 0.
    pub fn open<N: Named>(self) -> Begun<E, N>
        requires { self ≡ N.table }
        ensures { result.pen ≡ [] }
    {
        let Blank { table, seat } = self;
        Begun {
            history: History {
                table,
                of: PhantomData,
            },
            pen: Pen::with(seat),
        }
    }
}

impl<E, N: Named> History<E, N> {
    // A front that has seen what a seat has.
    pub(crate) fn front(&self, seat: &mut Seat<E, Track<E>>) -> Front<E, N>
        requires { (seat.old.table_id ≡ N.table) × (seat.old.me.1 ≡ []) }
        ensures same { (seat.new.table_id ≡ seat.old.table_id) × (seat.new.me ≡ seat.old.me) }
        ensures copied { (result.seen ≡ seat.old.me.0.seen) × (result.known ≡ seat.old.me.0.known) }
    {
        Front::with(self.table.shared.split_seat::<Copies>(seat))
    }

    // Joins one seat into another. The load behind it tells that both lists begin what is seen then.
    pub(crate) fn join(&self, seat: &mut Seat<E, Track<E>>, other: Seat<E, Track<E>>)
        requires tables { (seat.old.table_id ≡ N.table) × (other.table_id ≡ N.table) }
        requires other { (other.me.1 ≡ []) × (other.me.0.pen ≡ false) }
        ensures table { seat.new.table_id ≡ seat.old.table_id }
        ensures slots { seat.new.me.1 ≡ seat.old.me.1 }
        ensures met { HasMet seat.old.me.0 other.me.0 seat.new.me.0 }
    {
        self.table.shared.join_seat::<Meets>(seat, other);
        self.table.shared.load::<Load>(seat, 0);
    }
}
