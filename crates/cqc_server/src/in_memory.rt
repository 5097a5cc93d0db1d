// Actors over links in memory, whose ends are those of the definition of turns.
ghost use Rattle.std.specs.Prelude.{◌≡◌, ℕ, ◌<◌, [], length, map, slice_get, All, IfSome, Some, None};
ghost use Rattle.network_model.specs.History.{own_entries};
ghost use Rattle.session_model.specs.Turns.{AreTurns, takers_of, actor_end};
ghost use Rattle.cqc_server.specs.Replay.{HasBegun};
ghost use Rattle.cqc_server.specs.InMemory.{IsUnused, planned_actor, shown_end};

use crate::actor::{Actor, Shown};
use crate::turns::replay;
use factored_core::Solo;
use qron_link::{Dice, MemLink};

/// Gives turns as [`replay`] does, to actors whose links in memory were not used yet, list no faults, and have fewer
/// bytes than the session may read.
///
/// The entries, how each actor ended and what it wrote are then those of the definition of turns, whose actors have
/// the bytes of the links as input and the room of the links as their sinks' room.
pub fn replay_in_memory<W: Dice>(solo: &mut Solo, actors: &mut [Actor<MemLink, W>], order: &[u16])
    requires begun { (k : ℕ) → IfSome (slice_get actors.old k) (λ a. HasBegun k (length solo.old.shape.places) a.session × (a.ending ≡ None)) }
    requires unused { (k : ℕ) → k < length actors.old → own_entries k 0 solo.old.entries ≡ [] }
    requires places { All (λ k. k < length actors.old) order.now }
    requires links { All (λ a. IsUnused a.session.cap a.link) actors.old }
    ensures ends { map shown_end (map (⟦<Actor<MemLink, W> as Shown>⟧.seen) actors.new)
        ≡ map (λ m. Some (actor_end solo.old.capacity solo.new.entries m)) (map (planned_actor W.word) (map (⟦<Actor<MemLink, W> as Shown>⟧.seen) actors.old)) }
    ensures turns { AreTurns solo.old.shape solo.old.capacity
        (takers_of solo.old.capacity (map (planned_actor W.word) (map (⟦<Actor<MemLink, W> as Shown>⟧.seen) actors.old)) order.now)
        solo.old.entries solo.new.entries }
    ensures core { solo.new ≡ record solo.old { entries = solo.new.entries } }
{
    replay(solo, actors, order);
}
