// Connections of a schedule that take turns over a core of their own.
ghost use Rattle.std.specs.Prelude.{◌≡◌, ◌≤◌, ◌<◌, ◌^◌, length, map, [], All, IfOk, None};
ghost use Rattle.session_model.specs.Turns.{AreTurns, takers_of};
ghost use Rattle.cqc_server.specs.InMemory.{shown_end};
ghost use Rattle.node_table.specs.Document.{IsInRange};
ghost use Rattle.schedule.specs.Views.{plan};
ghost use Rattle.qron_cli.specs.Pipe.{journal_of};
ghost use Rattle.qron_cli.specs.Seats.{CanPlay, seated, all_seated, all_planned, ends_of};
ghost use Rattle.qron_cli.specs.Lines.{outcome_of_all};

use crate::endings::outcome_of_all;
use crate::house::House;
use crate::status::Outcome;
use cqc_server::{Actor, Planned, READ_LIMIT, Schedule, Shown, replay_in_memory};
use cqc_session::Session;
use factored_core::Solo;
use node_table::Settings;
use qron_link::{Dice, MemLink};
use std::alloc::{AllocError, Global};

// The most bytes that a read of a link hands out.
const PIECE: u32 = 65_536;

/// What contracts see of a connection that has taken no turn.
pub trait Seated {
    ghost use Rattle.qron_cli.specs.Seats.{Seat};

    ghost seat: { Self → Seat };
}

impl<W: Dice> Seated for Actor<MemLink, W> {
    ghost seat = { λ a. record { session = a.session; link = a.link; key = W.key a.dice; ending = a.ending } };
}

// The connection of a plan, at its seat. All its room is taken here.
fn seat_one<D: Dice + Drop>(
    alloc: Global,
    seat: u16,
    planned: Planned,
    dice: D,
) -> Result<Actor<MemLink, D>, AllocError>
    ensures seated { IfOk result (λ actor. ⟦<Actor<MemLink, D> as Seated>⟧.seat actor ≡ seated (D.key dice) seat (plan planned)) }
    ensures few { IfOk result (λ actor. length actor.link.left < 2 ^ 32) }
{
    let Planned { node, room, bytes } = planned;
    // no file and no drill has so many
    if bytes.len() as u64 >= READ_LIMIT {
        return Err(AllocError);
    }
    let mut session = Session::new(alloc, seat, node, READ_LIMIT)?;
    session.begin(0);
    let link = MemLink::new(alloc, bytes, PIECE, room, Vec::new(alloc), Vec::new(alloc))?;
    Ok(Actor {
        session,
        link,
        dice,
        ending: None,
    })
}

// The connections of all plans, each at its place as seat, with dice of the seed.
fn seat_all<H: House>(
    alloc: Global,
    seed: &[u8; 32],
    plans: Vec<Planned>,
    house: &mut H,
) -> Result<Vec<Actor<MemLink, H::Dice>>, AllocError>
    requires { length plans.items ≤ 64 }
    ensures seated { IfOk result (λ actors. map (⟦<Actor<MemLink, H::Dice> as Seated>⟧.seat) actors.items ≡ all_seated ((H.facts house.old).keys seed.now) 0 (map plan plans.items)) }
    ensures few { IfOk result (λ actors. All (λ a. length a.link.left < 2 ^ 32) actors.items) }
    ensures facts { H.facts house.new ≡ H.facts house.old }
    ensures pipe { H.pipe_of house.new ≡ H.pipe_of house.old }
{
    let mut actors = Vec::new(alloc);
    for plan in plans {
        let seat = actors.len() as u16;
        let Ok(dice) = house.dice(seed) else {
            return Err(AllocError);
        };
        let Ok(actor) = seat_one(alloc, seat, plan, dice) else {
            return Err(AllocError);
        };
        if actors.push(actor).is_err() {
            return Err(AllocError);
        }
    }
    Ok(actors)
}

/// A core with its entries, and the connections that made them, each of which has ended.
#[derive(Drop)]
pub struct Played<D: Dice + Drop> {
    pub solo: Solo,
    pub actors: Vec<Actor<MemLink, D>>,
}

impl<D: Dice + Drop> Played<D> {
    /// What came of the connections.
    pub fn outcome(&self) -> Outcome
        ensures { result ≡ outcome_of_all (map (λ a. a.ending) self.now.actors.items) }
    {
        outcome_of_all(&self.actors)
    }
}

/// The connections of a schedule take their turns over a core of their own. All room is taken before the first turn.
pub fn play<H: House>(
    alloc: Global,
    settings: Settings,
    schedule: Schedule,
    house: &mut H,
) -> Result<Played<H::Dice>, AllocError>
    requires settings { IsInRange settings }
    requires schedule { CanPlay (length settings.shape.places) schedule }
    ensures turns { IfOk result (λ played. AreTurns settings.shape settings.journal
        (takers_of settings.journal (all_planned H.Dice.word ((H.facts house.old).keys settings.seed) 0 (map plan schedule.plans.items)) schedule.order.items)
        [] played.solo.entries) }
    ensures ends { IfOk result (λ played. map shown_end (map (⟦<Actor<MemLink, H::Dice> as Shown>⟧.seen) played.actors.items)
        ≡ ends_of settings.journal played.solo.entries (all_planned H.Dice.word ((H.facts house.old).keys settings.seed) 0 (map plan schedule.plans.items))) }
    ensures facts { H.facts house.new ≡ H.facts house.old }
    ensures pipe { H.pipe_of house.new ≡ H.pipe_of house.old }
{
    let Settings {
        shape,
        seed,
        journal,
        ..
    } = settings;
    let Schedule { plans, order } = schedule;
    let mut actors = seat_all(alloc, &seed, plans, house)?;
    let mut solo = Solo::open(alloc, shape, journal)?;
    replay_in_memory(&mut solo, &mut actors, &order);
    Ok(Played { solo, actors })
}
