// The connections of a schedule, over a core of their own.
ghost use Rattle.std.specs.Prelude.{◌≡◌, length, [], ◌∷◌};
ghost use Rattle.node_table.specs.Document.{IsInRange};
ghost use Rattle.schedule.specs.Views.{plans};
ghost use Rattle.qron_cli.specs.House.{Allows, ask_file};
ghost use Rattle.qron_cli.specs.Seats.{CanPlay};
ghost use Rattle.qron_cli.specs.Replay.{ReplayRan, ReplayFilesRan, ReplayWithRan};
ghost use Rattle.qron_cli.specs.Statuses.{status_of};

use crate::files::{schedule_of, settings_of};
use crate::house::House;
use crate::printing::{end_lines, print};
use crate::seats::play;
use crate::status::Outcome;
use cqc_server::{Schedule, Told};
use node_table::Settings;
use std::alloc::Global;

// The connections of a schedule take their turns, and their ends are printed.
fn run_schedule<H: House>(
    alloc: Global,
    settings: Settings,
    schedule: Schedule,
    house: &mut H,
) -> Outcome
    requires settings { IsInRange settings }
    requires schedule { CanPlay (length settings.shape.places) schedule }
    ensures { ReplayRan H.Dice.word settings (plans schedule) (H.facts house.old) (H.facts house.new) (⟦<H::Pipe as Told>⟧.seen (H.pipe_of house.old)) (⟦<H::Pipe as Told>⟧.seen (H.pipe_of house.new)) (status_of result) }
{
    let played = play(alloc, settings, schedule, house)?;
    let lines = end_lines(alloc, &played.actors)?;
    print(house, lines.as_str(), played.outcome())
}

// The same with the schedule of a file.
fn run_with<H: House>(alloc: Global, settings: Settings, schedule: &str, house: &mut H) -> Outcome
    requires settings { IsInRange settings }
    requires asked { Allows (ask_file schedule.now ∷ []) (H.facts house.old) }
    ensures { ReplayWithRan H.Dice.word settings schedule.now (H.facts house.old) (H.facts house.new) (⟦<H::Pipe as Told>⟧.seen (H.pipe_of house.old)) (⟦<H::Pipe as Told>⟧.seen (H.pipe_of house.new)) (status_of result) }
{
    let nodes = settings.shape.nodes();
    let schedule = schedule_of(alloc, house, schedule, nodes)?;
    run_schedule(alloc, settings, schedule, house)
}

/// The same with the settings of another.
pub fn run_replay<H: House>(alloc: Global, settings: &str, schedule: &str, house: &mut H) -> Outcome
    requires { Allows (ask_file settings.now ∷ ask_file schedule.now ∷ []) (H.facts house.old) }
    ensures { ReplayFilesRan H.Dice.word settings.now schedule.now (H.facts house.old) (H.facts house.new) (⟦<H::Pipe as Told>⟧.seen (H.pipe_of house.old)) (⟦<H::Pipe as Told>⟧.seen (H.pipe_of house.new)) (status_of result) }
{
    let settings = settings_of(alloc, house, settings)?;
    run_with(alloc, settings, schedule, house)
}
