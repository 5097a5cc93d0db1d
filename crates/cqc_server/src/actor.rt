// A connection that takes turns over a core with others.
ghost use Rattle.std.specs.Prelude.{◌≡◌, ◌∷◌, ℕ, ◌≤◌, ◌<◌, ◌^◌, [], length, replicate, None, IfNone, IsSome};
ghost use Rattle.cqc_session.specs.State.{steps_left};
ghost use Rattle.cqc_server.specs.Progress.{HasActed, TakesTurns};

use cqc_session::{Session, Turn};
use factored_core::Solo;
use qron_link::{Dice, Link};
use session_model::Ending;

/// A connection that takes turns over a core with others.
#[derive(Drop)]
pub struct Actor<L, W> {
    /// Its session, which has begun.
    pub session: Session,
    /// Its bytes.
    pub link: L,
    /// Its random words.
    pub dice: W,
    /// How it ended; none while it goes on.
    pub ending: Option<Ending>,
}

/// What contracts see of an actor.
pub trait Shown {
    ghost use Rattle.cqc_server.specs.Replay.{Seen};

    ghost seen: { Self → Seen };
}

impl<L: Link, W: Dice> Shown for Actor<L, W> {
    ghost seen = { λ a. record {
      session = a.session;
      left = L.left a.link;
      held = L.held a.link;
      room = L.room a.link;
      read_faults = L.read_faults a.link;
      write_faults = L.write_faults a.link;
      dice = record { key = W.key a.dice; seat = W.begun_seat a.dice; serial = W.begun_serial a.dice; taken = W.taken a.dice };
      ending = a.ending;
    } };
}

impl<L: Link, W: Dice> Actor<L, W> {
    ghost use Rattle.cqc_server.specs.Replay.{dice_begun};

    /// Its dice give the words of its connection from here on.
    pub fn begin_dice(&mut self)
        ensures dice { ⟦<Actor<L, W> as Shown>⟧.seen self.new ≡ dice_begun (⟦<Actor<L, W> as Shown>⟧.seen self.old) }
        ensures link { self.new.link ≡ self.old.link }
    {
        self.dice.begin(self.session.seat(), 0);
    }

    // Reads and answers until a command was executed or the session ends.
    fn turn(&mut self, solo: &mut Solo) -> Option<Ending>
        requires going { self.old.ending ≡ None }
        requires acted { HasActed W.word solo.old.capacity solo.old.entries (⟦<Actor<L, W> as Shown>⟧.seen self.old) }
        requires node { self.old.session.connection.node < length solo.old.shape.places }
        ensures turn { TakesTurns W.word solo.old.shape solo.old.capacity (λ m. m ∷ []) solo.old.entries solo.new.entries
            (⟦<Actor<L, W> as Shown>⟧.seen self.old) (record (⟦<Actor<L, W> as Shown>⟧.seen self.new) { ending = result }) }
        ensures ending { self.new.ending ≡ None }
        ensures steps { IfNone result (steps_left self.new.session < steps_left self.old.session) }
        ensures core { solo.new ≡ record solo.old { entries = solo.new.entries } }
        ensures connection { self.new.session.connection ≡ self.old.session.connection }
        ensures led { L.was_led self.old.link self.new.link }
    {
        let _entries = solo.entries();
        match self.session.poll(&mut self.link) {
            Turn::End(ending) => Some(ending),
            Turn::Execute(call) => {
                let done = solo.execute(&call, &mut self.dice);
                self.session.answer(&mut self.link, done)
            }
        }
    }

    /// One turn: it reads and answers until a command was executed or it ends. After its end it does nothing.
    pub fn take_turn(&mut self, solo: &mut Solo)
        requires acted { HasActed W.word solo.old.capacity solo.old.entries (⟦<Actor<L, W> as Shown>⟧.seen self.old) }
        requires node { self.old.session.connection.node < length solo.old.shape.places }
        ensures turn { TakesTurns W.word solo.old.shape solo.old.capacity (λ m. m ∷ []) solo.old.entries solo.new.entries
            (⟦<Actor<L, W> as Shown>⟧.seen self.old) (⟦<Actor<L, W> as Shown>⟧.seen self.new) }
        ensures steps { IfNone self.new.ending (steps_left self.new.session < steps_left self.old.session) }
        ensures core { solo.new ≡ record solo.old { entries = solo.new.entries } }
        ensures connection { self.new.session.connection ≡ self.old.session.connection }
        ensures led { L.was_led self.old.link self.new.link }
    {
        if self.ending.is_none() {
            self.ending = self.turn(solo);
        }
    }

    /// Takes turns until it ends.
    pub fn go_on(&mut self, solo: &mut Solo)
        requires acted { HasActed W.word solo.old.capacity solo.old.entries (⟦<Actor<L, W> as Shown>⟧.seen self.old) }
        requires node { self.old.session.connection.node < length solo.old.shape.places }
        ensures turns { TakesTurns W.word solo.old.shape solo.old.capacity (replicate solo.old.capacity) solo.old.entries solo.new.entries
            (⟦<Actor<L, W> as Shown>⟧.seen self.old) (⟦<Actor<L, W> as Shown>⟧.seen self.new) }
        ensures ended { IsSome self.new.ending }
        ensures core { solo.new ≡ record solo.old { entries = solo.new.entries } }
        ensures connection { self.new.session.connection ≡ self.old.session.connection }
        ensures led { L.was_led self.old.link self.new.link }
    {
        while self.ending.is_none() {
            self.take_turn(solo);
        }
        let _entries = solo.entries();
    }
}
