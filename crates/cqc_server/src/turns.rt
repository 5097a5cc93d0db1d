// Actors that take turns over one core, and go on to their ends.
ghost use Rattle.std.specs.Prelude.{◌≡◌, ℕ, ◌<◌, [], List, length, map, take, slice_get, replicate, All, IfSome, IsSome, None};
ghost use Rattle.std.specs.List.{flat_map};
ghost use Rattle.network_model.specs.History.{own_entries};
ghost use Rattle.session_model.specs.Turns.{of_order};
ghost use Rattle.cqc_server.specs.Replay.{Replayed, HasBegun, AreLed, dice_begun};
ghost use Rattle.cqc_server.specs.Progress.{AllHaveActed, AllTakeTurns};

use crate::actor::{Actor, Shown};
use factored_core::Solo;
use qron_link::{Dice, Link};

// The dice of all actors give the words of their connections from here on.
fn begin_dice<L: Link, W: Dice>(actors: &mut [Actor<L, W>])
    ensures dice { map (⟦<Actor<L, W> as Shown>⟧.seen) actors.new ≡ map dice_begun (map (⟦<Actor<L, W> as Shown>⟧.seen) actors.old) }
    ensures links { map (λ a. a.link) actors.new ≡ map (λ a. a.link) actors.old }
{
    for actor in actors.iter_mut() {
        actor.begin_dice();
    }
}

// Gives turns in this order.
fn take_turns<L: Link, W: Dice>(solo: &mut Solo, actors: &mut [Actor<L, W>], order: &[u16])
    requires acted { AllHaveActed W.word solo.old.shape solo.old.capacity solo.old.entries (map (⟦<Actor<L, W> as Shown>⟧.seen) actors.old) }
    requires places { All (λ k. k < length actors.old) order.now }
    ensures turns { AllTakeTurns W.word solo.old.shape solo.old.capacity (λ ms. of_order ms order.now) solo.old.entries solo.new.entries
        (map (⟦<Actor<L, W> as Shown>⟧.seen) actors.old) (map (⟦<Actor<L, W> as Shown>⟧.seen) actors.new) }
    ensures core { solo.new ≡ record solo.old { entries = solo.new.entries } }
    ensures led { AreLed L.was_led (map (λ a. a.link) actors.old) (map (λ a. a.link) actors.new) }
{
    for place in order {
        actors[*place as usize].take_turn(solo);
    }
}

// Lets each actor in turn go on to its end.
fn go_on<L: Link, W: Dice>(solo: &mut Solo, actors: &mut [Actor<L, W>])
    requires acted { AllHaveActed W.word solo.old.shape solo.old.capacity solo.old.entries (map (⟦<Actor<L, W> as Shown>⟧.seen) actors.old) }
    ensures turns { AllTakeTurns W.word solo.old.shape solo.old.capacity (λ ms. flat_map (replicate solo.old.capacity) ms) solo.old.entries solo.new.entries
        (map (⟦<Actor<L, W> as Shown>⟧.seen) actors.old) (map (⟦<Actor<L, W> as Shown>⟧.seen) actors.new) }
    ensures ended { All (λ s. IsSome s.ending) (map (⟦<Actor<L, W> as Shown>⟧.seen) actors.new) }
    ensures core { solo.new ≡ record solo.old { entries = solo.new.entries } }
    ensures led { AreLed L.was_led (map (λ a. a.link) actors.old) (map (λ a. a.link) actors.new) }
{
    for actor in actors.iter_mut() {
        actor.go_on(solo);
    }
}

/// Gives turns in this order, each number to the actor at its place, and then lets each actor in turn go on to its end.
///
/// A turn reads and answers until a command was executed or the connection ends; the turn of an actor that has ended
/// does nothing. No memory is taken.
pub fn replay<L: Link, W: Dice>(solo: &mut Solo, actors: &mut [Actor<L, W>], order: &[u16])
    requires begun { (k : ℕ) → IfSome (slice_get actors.old k) (λ a. HasBegun k (length solo.old.shape.places) a.session × (a.ending ≡ None)) }
    requires unused { (k : ℕ) → k < length actors.old → own_entries k 0 solo.old.entries ≡ [] }
    requires places { All (λ k. k < length actors.old) order.now }
    ensures replayed { Replayed W.word solo.old.shape solo.old.capacity order.now solo.old.entries solo.new.entries
        (map (⟦<Actor<L, W> as Shown>⟧.seen) actors.old) (map (⟦<Actor<L, W> as Shown>⟧.seen) actors.new) }
    ensures core { solo.new ≡ record solo.old { entries = solo.new.entries } }
    ensures led { AreLed L.was_led (map (λ a. a.link) actors.old) (map (λ a. a.link) actors.new) }
{
    begin_dice(actors);
    take_turns(solo, actors, order);
    go_on(solo, actors);
    let _entries = solo.entries();
}
