// The top call.
ghost use Rattle.std.specs.Prelude.{◌≡◌, ◌≢◌, ◌↔◌, None, map, string_bytes, IfSome};
ghost use Rattle.word_lines.specs.Lines.{line_of};
ghost use Rattle.word_lines.specs.Views.{asked_line};
ghost use Rattle.qron_cli.specs.House.{Allows, asks_of};
ghost use Rattle.qron_cli.specs.Program.{IsLine, Ran, Answered, MayAsk, IsIdle};
ghost use Rattle.qron_cli.specs.Serve.{Reports};
ghost use Rattle.qron_cli.specs.Statuses.{status_of};
ghost use Rattle.qron_cli.specs.Talk.{Handed};

use crate::complaint::Complaint;
use crate::drill_command::run_drill;
use crate::house::House;
use crate::pipe_command::{run_pipe, run_pipe_with};
use crate::replay_command::run_replay;
use crate::serve_command::run_serve_with;
use crate::status::{Outcome, Status};
use crate::talk_command::run_talk;
use cqc_server::{Post, Posted, Told};
use node_table::plain_settings;
use std::alloc::Global;
use std::sync::Wait;
use std::thread::Threads;
use word_lines::{Asked, read_words};

// Does what is asked for.
fn run_asked<H: House, R: Threads + Wait + Sync>(
    rt: &R,
    alloc: Global,
    asked: Asked<'_>,
    house: &mut H,
) -> Outcome
    requires line { IsLine (asked_line asked) }
    requires asks { Allows (asks_of (H.facts house.old) (asked_line asked)) (H.facts house.old) }
    ensures { Ran H.Dice.word (Handed (⟦<H::Link as Told>⟧.seen) H.Link.was_led (H.handed house.old) (H.handed house.new))
        (Reports (⟦<Post<H::Door, H::Dice, H::Patience> as Posted>⟧.watch) (H.facts house.old).keys (H.posted house.old) (H.posted house.new)) (asked_line asked.entry)
        (H.facts house.old) (H.facts house.new) (⟦<H::Pipe as Told>⟧.seen (H.pipe_of house.old)) (⟦<H::Pipe as Told>⟧.seen (H.pipe_of house.new)) (status_of result) }
{
    match asked {
        Asked::Pipe => run_pipe(alloc, plain_settings(1), house),
        Asked::PipeWith { settings } => run_pipe_with(alloc, settings, house),
        Asked::Replay { settings, schedule } => run_replay(alloc, settings, schedule, house),
        Asked::Serve { settings } => run_serve_with(rt, alloc, settings, house),
        Asked::Talk { place, script } => run_talk(alloc, place, script, house),
        Asked::Drill { rounds } => run_drill(alloc, rounds, house),
    }
}

// Does what the words ask for.
fn run_words<H: House, R: Threads + Wait + Sync>(
    rt: &R,
    alloc: Global,
    words: &[String],
    house: &mut H,
) -> Outcome
    requires { MayAsk (line_of (map string_bytes words.now)) (H.facts house.old) }
    ensures { Answered H.Dice.word (Handed (⟦<H::Link as Told>⟧.seen) H.Link.was_led (H.handed house.old) (H.handed house.new))
        (Reports (⟦<Post<H::Door, H::Dice, H::Patience> as Posted>⟧.watch) (H.facts house.old).keys (H.posted house.old) (H.posted house.new)) (line_of (map string_bytes words.now))
        (H.facts house.old) (H.facts house.new) (⟦<H::Pipe as Told>⟧.seen (H.pipe_of house.old)) (⟦<H::Pipe as Told>⟧.seen (H.pipe_of house.new)) (status_of result) }
{
    let Some(asked) = read_words(alloc, words)? else {
        return Err(Complaint::Words);
    };
    run_asked(rt, alloc, asked, house)
}

// Says what an outcome complains of, if it does, and gives its status.
fn conclude<H: House>(house: &mut H, outcome: &Outcome) -> Status
    ensures status { result ≡ status_of outcome.now }
    ensures facts { H.facts house.new ≡ H.facts house.old }
    ensures handed { H.handed house.new ≡ H.handed house.old }
    ensures posted { H.posted house.new ≡ H.posted house.old }
    ensures pipe { H.pipe_of house.new ≡ H.pipe_of house.old }
{
    if let Err(complaint) = outcome {
        house.complain(complaint);
    }
    Status::of(outcome)
}

/// Does all that the program does, and gives its status. Only serving starts threads and waits.
pub fn run<H: House, R: Threads + Wait + Sync>(
    rt: &R,
    alloc: Global,
    words: &[String],
    house: &mut H,
) -> Status
    // What the words ask for is allowed, where the house tells that.
    requires { MayAsk (line_of (map string_bytes words.now)) (H.facts house.old) }

    // Unless memory was short, the words are no line of the program exactly at status Words.
    ensures words { result ≢ Status.Memory → (result ≡ Status.Words) ↔ (line_of (map string_bytes words.now) ≡ None) }

    // Where the words or a file are refused, or memory was short, the pipe is as it was.
    ensures idle { IsIdle result → ⟦<H::Pipe as Told>⟧.seen (H.pipe_of house.new) ≡ ⟦<H::Pipe as Told>⟧.seen (H.pipe_of house.old) }

    // Else the line was done that the words are.
    ensures ran { IfSome (line_of (map string_bytes words.now)) (λ line.
        Ran H.Dice.word (Handed (⟦<H::Link as Told>⟧.seen) H.Link.was_led (H.handed house.old) (H.handed house.new))
        (Reports (⟦<Post<H::Door, H::Dice, H::Patience> as Posted>⟧.watch) (H.facts house.old).keys (H.posted house.old) (H.posted house.new)) line
        (H.facts house.old) (H.facts house.new) (⟦<H::Pipe as Told>⟧.seen (H.pipe_of house.old)) (⟦<H::Pipe as Told>⟧.seen (H.pipe_of house.new)) result) }
{
    let outcome = run_words(rt, alloc, words, house);
    conclude(house, &outcome)
}
