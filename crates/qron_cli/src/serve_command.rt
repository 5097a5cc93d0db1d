// The nodes of a network on their ports, until every worker has ended.
ghost use Rattle.std.specs.Prelude.{◌≡◌, [], ◌∷◌, map, string_bytes, IfOk, IfErr, IfSome, None};
ghost use Rattle.std.specs.List.{list_any, flat_map};
ghost use Rattle.node_table.specs.Document.{IsInRange};
ghost use Rattle.qron_cli.specs.House.{Allows, ask_file, ask_posts, asks_behind};
ghost use Rattle.qron_cli.specs.Serve.{left_of, WasServed, shown, shown_line, report_of, report_lines, is_door_fault, outcome_of_report, Reported, Reports, ServeFileRan};
ghost use Rattle.qron_cli.specs.Statuses.{status_of, status_for};
ghost use Rattle.qron_cli.specs.Stops.{StoppedAs, Stopped};

use crate::complaint::Complaint;
use crate::endings::outcome_of_all;
use crate::files::settings_of;
use crate::house::{House, Posts};
use crate::printing::{print, push_number, push_word, word_of};
use crate::status::Outcome;
use cqc_server::{Post, Posted, Record, Served, Told, WorkerEnd, serve};
use node_table::Settings;
use qron_link::Door;
use std::alloc::{AllocError, Global};
use std::sync::Wait;
use std::thread::Threads;

/// What serving came to, and its record if there is one.
#[derive(Drop)]
pub struct ServeRun<D: Door, W, P> {
    pub outcome: Outcome,
    pub kept: Option<Record<D, W, P>>,
}

// The line of a connection that was served.
fn shown_line<L>(alloc: Global, served: &Served<L>) -> Result<String, AllocError>
    ensures { IfOk result (λ line. string_bytes line ≡ shown_line (shown served.now)) }
{
    let mut line = String::new(alloc);
    push_number(&mut line, usize::from(served.seat))?;
    line.push(' ')?;
    push_number(&mut line, usize::from(served.serial))?;
    line.push(' ')?;
    push_number(&mut line, usize::from(served.node))?;
    push_word(&mut line, word_of(&served.ending))?;
    line.push('\n')?;
    Ok(line)
}

// The lines of connections, in order.
fn shown_lines<L>(alloc: Global, served: &[Served<L>]) -> Result<String, AllocError>
    ensures { IfOk result (λ text. string_bytes text ≡ flat_map shown_line (map shown served.now)) }
{
    let mut text = String::new(alloc);
    for one in served {
        let Ok(line) = shown_line(alloc, one) else {
            return Err(AllocError);
        };
        if text.push_str(line.as_str()).is_err() {
            return Err(AllocError);
        }
    }
    Ok(text)
}

// The lines of a record.
fn report_lines<D: Door, W, P>(alloc: Global, kept: &Record<D, W, P>) -> Result<String, AllocError>
    ensures { IfOk result (λ text. string_bytes text
        ≡ report_lines (report_of (left_of kept.now.entries.items kept.now.served.items kept.now.ends.items kept.now.posts.items))) }
{
    let mut text = shown_lines(alloc, kept.served.as_slice())?;
    text.push_str("entries ")?;
    push_number(&mut text, kept.entries.len())?;
    text.push('\n')?;
    Ok(text)
}

// Whether the door of a worker failed.
fn is_door_fault(end: &WorkerEnd) -> bool
    ensures { result ≡ is_door_fault end.now }
{
    matches!(end, WorkerEnd::DoorFault)
}

fn any_door_fault(ends: &[WorkerEnd]) -> bool
    ensures { result ≡ list_any is_door_fault ends.now }
{
    ends.iter().any(is_door_fault)
}

// What came of serving: a fault where a door or a link failed, else what came of the connections.
fn outcome_of_record<D: Door, W, P>(kept: &Record<D, W, P>) -> Outcome
    ensures { result ≡ outcome_of_report (report_of (left_of kept.now.entries.items kept.now.served.items kept.now.ends.items kept.now.posts.items)) }
{
    if any_door_fault(kept.ends.as_slice()) {
        return Err(Complaint::Fault);
    }
    outcome_of_all(kept.served.as_slice())
}

// Prints the lines of a record.
fn report<H: House>(
    alloc: Global,
    kept: &Record<H::Door, H::Dice, H::Patience>,
    house: &mut H,
) -> Outcome
    ensures reported { Reported (report_of (left_of kept.now.entries.items kept.now.served.items kept.now.ends.items kept.now.posts.items))
        (⟦<H::Pipe as Told>⟧.seen (H.pipe_of house.old)) (⟦<H::Pipe as Told>⟧.seen (H.pipe_of house.new)) (status_of result) }
    ensures facts { H.facts house.new ≡ H.facts house.old }
    ensures posted { H.posted house.new ≡ H.posted house.old }
{
    let lines = report_lines(alloc, kept)?;
    print(house, lines.as_str(), outcome_of_record(kept))
}

// Serves a network at posts that the house hands out. All room is taken before a door is asked.
fn serve_posts<H: House, R: Threads + Wait + Sync>(
    rt: &R,
    alloc: Global,
    settings: Settings,
    house: &mut H,
) -> Result<Record<H::Door, H::Dice, H::Patience>, Complaint>
    requires range { IsInRange settings }
    requires asked { Allows (ask_posts settings ∷ []) (H.facts house.old) }
    ensures served { IfOk result (λ r. WasServed (⟦<Post<H::Door, H::Dice, H::Patience> as Posted>⟧.watch) (H.facts house.old).keys (H.posted house.old) (H.posted house.new)
        settings (left_of r.entries.items r.served.items r.ends.items r.posts.items)) }
    ensures stopped { IfErr result (λ why. StoppedAs ⊥ (H.facts house.old) (H.facts house.new) (status_for why)) }
    ensures pipe { H.pipe_of house.new ≡ H.pipe_of house.old }
{
    match house.posts(&settings) {
        Posts::Ready(posts) => Ok(serve(rt, alloc, settings, posts)?),
        Posts::Failed => Err(Complaint::Fault),
        Posts::OutOfMemory => Err(Complaint::Memory),
    }
}

/// Serves a network on its ports until every worker has ended, and prints a line for each connection, and the number of
/// entries.
pub fn run_serve<H: House, R: Threads + Wait + Sync>(
    rt: &R,
    alloc: Global,
    settings: Settings,
    house: &mut H,
) -> ServeRun<H::Door, H::Dice, H::Patience>
    requires range { IsInRange settings }
    requires asked { Allows (ask_posts settings ∷ []) (H.facts house.old) }

    // There is no record only where memory was short, or the house failed.
    ensures none { result.kept ≡ None → Stopped ⊥ (H.facts house.old) (H.facts house.new)
        (⟦<H::Pipe as Told>⟧.seen (H.pipe_of house.old)) (⟦<H::Pipe as Told>⟧.seen (H.pipe_of house.new)) (status_of result.outcome) }

    // Else it is the record of a network with these settings, over the posts that the house handed out.
    ensures kept { IfSome result.kept (λ r. WasServed (⟦<Post<H::Door, H::Dice, H::Patience> as Posted>⟧.watch) (H.facts house.old).keys (H.posted house.old) (H.posted house.new)
        settings (left_of r.entries.items r.served.items r.ends.items r.posts.items)) }

    // Its lines were printed, or memory was short for them.
    ensures reported { IfSome result.kept (λ r. Reported (report_of (left_of r.entries.items r.served.items r.ends.items r.posts.items))
        (⟦<H::Pipe as Told>⟧.seen (H.pipe_of house.old)) (⟦<H::Pipe as Told>⟧.seen (H.pipe_of house.new)) (status_of result.outcome)) }
{
    match serve_posts(rt, alloc, settings, house) {
        Ok(record) => ServeRun {
            outcome: report(alloc, &record, house),
            kept: Some(record),
        },
        Err(complaint) => ServeRun {
            outcome: Err(complaint),
            kept: None,
        },
    }
}

/// The same with the settings of a file.
pub fn run_serve_with<H: House, R: Threads + Wait + Sync>(
    rt: &R,
    alloc: Global,
    settings: &str,
    house: &mut H,
) -> Outcome
    requires { Allows (ask_file settings.now ∷ asks_behind (H.facts house.old).files settings.now) (H.facts house.old) }
    ensures { ServeFileRan (Reports (⟦<Post<H::Door, H::Dice, H::Patience> as Posted>⟧.watch) (H.facts house.old).keys (H.posted house.old) (H.posted house.new)) settings.now
        (H.facts house.old) (H.facts house.new) (⟦<H::Pipe as Told>⟧.seen (H.pipe_of house.old)) (⟦<H::Pipe as Told>⟧.seen (H.pipe_of house.new)) (status_of result) }
{
    let settings = settings_of(alloc, house, settings)?;
    let ServeRun { outcome, .. } = run_serve(rt, alloc, settings, house);
    outcome
}
