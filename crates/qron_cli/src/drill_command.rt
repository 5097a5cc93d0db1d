// The drill, over a core of its own.
ghost use Rattle.std.specs.Prelude.{◌≡◌, ◌≤◌, length, map, slice_get, Some, IfOk};
ghost use Rattle.cqc_server.specs.InMemory.{shown_end};
ghost use Rattle.node_table.specs.Document.{IsInRange};
ghost use Rattle.schedule.specs.Views.{plans};
ghost use Rattle.qron_cli.specs.Drill.{drill_settings, drill_plans, written_in, summary_of, DrillRan};
ghost use Rattle.qron_cli.specs.Seats.{CanPlay};
ghost use Rattle.qron_cli.specs.Statuses.{status_of};

use crate::house::House;
use crate::printing::print;
use crate::seats::{Played, play};
use crate::status::Outcome;
use cqc_client::{DrillPlan, Summary, Tally, drill};
use cqc_server::{Actor, Planned, Schedule, Shown, Told};
use node_table::{Settings, plain_settings};
use qron_link::{Dice, MemLink};
use std::alloc::{AllocError, Global};

// The entries of a round: one for each turn.
const ROUND_ENTRIES: u32 = 7;

// The room of each connection for the replies of a round, in bytes.
const ROUND_ROOM: u32 = 59;

// Plain settings of two nodes, whose journal has room for all entries.
fn drill_settings(rounds: u32) -> Settings
    requires least { 1 ≤ rounds }
    requires most { rounds ≤ 100_000 }
    ensures settings { result ≡ drill_settings rounds }
    ensures ranges { IsInRange result }
{
    Settings {
        journal: ROUND_ENTRIES * rounds,
        ..plain_settings(2)
    }
}

// The two connections, and the order of their turns.
fn drill_schedule(alloc: Global, rounds: u32) -> Result<Schedule, AllocError>
    requires least { 1 ≤ rounds }
    requires most { rounds ≤ 100_000 }
    ensures plans { IfOk result (λ s. plans s ≡ drill_plans rounds) }
    ensures can { IfOk result (λ s. CanPlay 2 s) }
{
    let DrillPlan {
        first,
        second,
        order,
    } = drill(alloc, rounds)?;
    let room = ROUND_ROOM * rounds;
    let plans = Vec::from_array(
        alloc,
        [
            Planned {
                node: 0,
                room,
                bytes: first,
            },
            Planned {
                node: 1,
                room,
                bytes: second,
            },
        ],
    )?;
    Ok(Schedule { plans, order })
}

// How many bytes were written to a connection that has ended.
fn bytes_of<D: Dice>(actor: &Actor<MemLink, D>) -> usize
    ensures { result ≡ length (written_in (Some (shown_end (⟦<Actor<MemLink, D> as Shown>⟧.seen actor.now)))) }
{
    match &actor.ending {
        Some(_) => actor.link.written().len(),
        None => 0,
    }
}

// The same of the connection of a seat, if there is one.
fn bytes_at<D: Dice>(actors: &[Actor<MemLink, D>], seat: usize) -> usize
    ensures { result ≡ length (written_in (slice_get (map shown_end (map (⟦<Actor<MemLink, D> as Shown>⟧.seen) actors.now)) seat)) }
{
    match actors.get(seat) {
        Some(actor) => bytes_of(actor),
        None => 0,
    }
}

// What so many rounds came to.
fn summary_of<D: Dice + Drop>(rounds: u32, played: &Played<D>) -> Summary
    ensures { result ≡ summary_of rounds played.now.solo.entries (map shown_end (map (⟦<Actor<MemLink, D> as Shown>⟧.seen) played.now.actors.items)) }
{
    let entries = played.solo.entries();
    Summary {
        rounds,
        entries: entries.len(),
        tally: Tally::of(entries),
        first_bytes: bytes_at(&played.actors, 0),
        second_bytes: bytes_at(&played.actors, 1),
    }
}

/// Two connections send the input of so many rounds, and what came of it is printed.
pub fn run_drill<H: House>(alloc: Global, rounds: u32, house: &mut H) -> Outcome
    requires least { 1 ≤ rounds }
    requires most { rounds ≤ 100_000 }
    ensures { DrillRan H.Dice.word rounds (H.facts house.old) (H.facts house.new) (⟦<H::Pipe as Told>⟧.seen (H.pipe_of house.old)) (⟦<H::Pipe as Told>⟧.seen (H.pipe_of house.new)) (status_of result) }
{
    let schedule = drill_schedule(alloc, rounds)?;
    let played = play(alloc, drill_settings(rounds), schedule, house)?;
    let summary = summary_of(rounds, &played).lines(alloc)?;
    print(house, summary.as_str(), played.outcome())
}
