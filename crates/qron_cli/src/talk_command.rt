// A client's talk at a place, by the script of a file.
ghost use Rattle.std.specs.Prelude.{◌≡◌, [], ◌∷◌, map};
ghost use Rattle.script.specs.Views.{sending_of};
ghost use Rattle.qron_cli.specs.House.{Allows, ask_file, ask_link, WasAsked};
ghost use Rattle.qron_cli.specs.Files.{Gave};
ghost use Rattle.qron_cli.specs.Statuses.{status_of};
ghost use Rattle.qron_cli.specs.Talk.{SaysScript, RefusesAsScript, CanTalk, Handed, SpokeOver, TalkAtRan, TalkRan, outcome_of_talk};

use crate::complaint::Complaint;
use crate::files::text_of;
use crate::house::House;
use crate::status::{Outcome, Work};
use cqc_client::{Message, ScriptRead, Talked, read_script, talk};
use cqc_server::Told;
use network_model::Place;
use qron_link::Link;
use std::alloc::Global;

// The messages that a file says.
fn script_of<H: House>(alloc: Global, house: &mut H, name: &str) -> Result<Vec<Message>, Complaint>
    requires { Allows (ask_file name.now ∷ []) (H.facts house.old) }
    ensures gave { Gave (λ script. SaysScript (H.facts house.old) name.now (map sending_of script.items) × CanTalk (map sending_of script.items))
        (RefusesAsScript (H.facts house.old) name.now) name.now (H.facts house.old) (H.facts house.new) result }
    ensures asked { WasAsked (H.facts house.old) (H.facts house.new) }
    ensures handed { H.handed house.new ≡ H.handed house.old }
    ensures pipe { H.pipe_of house.new ≡ H.pipe_of house.old }
{
    let text = text_of(house, name)?;
    match read_script(alloc, text.as_slice()) {
        ScriptRead::Read(script) => Ok(script),
        ScriptRead::Refused(fault) => Err(Complaint::Script(fault)),
        ScriptRead::OutOfMemory => Err(Complaint::Memory),
    }
}

// What came of a talk that ended so.
fn outcome_of_talk(talked: &Talked) -> Outcome
    ensures { result ≡ outcome_of_talk talked.now }
{
    match talked {
        Talked::Done { .. } => Ok(Work::Done),
        Talked::Cut { .. } | Talked::Strange { .. } | Talked::Spent { .. } => Ok(Work::Unfinished),
        Talked::LinkRead | Talked::LinkWrite | Talked::OutWrite => Err(Complaint::Fault),
    }
}

// Talks over a link, and prints to a pipe.
fn talk_over<L: Link, P: Link>(
    alloc: Global,
    script: &[Message],
    link: &mut L,
    pipe: &mut P,
) -> Outcome
    requires { CanTalk (map sending_of script.now) }
    ensures spoke { SpokeOver (map sending_of script.now) (⟦<L as Told>⟧.seen link.old) (⟦<L as Told>⟧.seen link.new) (⟦<P as Told>⟧.seen pipe.old) (⟦<P as Told>⟧.seen pipe.new) (status_of result) }
    ensures led { L.was_led link.old link.new }
{
    let talked = talk(alloc, script, link, pipe)?;
    outcome_of_talk(&talked)
}

// Talks over a link that the house hands out.
fn talk_at<H: House>(alloc: Global, place: Place, script: &[Message], house: &mut H) -> Outcome
    requires script { CanTalk (map sending_of script.now) }
    requires asked { Allows (ask_link place ∷ []) (H.facts house.old) }
    ensures { TalkAtRan (Handed (⟦<H::Link as Told>⟧.seen) H.Link.was_led (H.handed house.old) (H.handed house.new)) (map sending_of script.now) (H.facts house.old) (H.facts house.new) (⟦<H::Pipe as Told>⟧.seen (H.pipe_of house.old)) (⟦<H::Pipe as Told>⟧.seen (H.pipe_of house.new)) (status_of result) }
{
    let Some(mut link) = house.connect(place) else {
        return Err(Complaint::Fault);
    };
    talk_over(alloc, script, &mut link, house.pipe())
}

/// Sends the messages of a file's script to a place, and prints a line for each reply.
pub fn run_talk<H: House>(alloc: Global, place: Place, script: &str, house: &mut H) -> Outcome
    requires { Allows (ask_file script.now ∷ ask_link place ∷ []) (H.facts house.old) }
    ensures { TalkRan (Handed (⟦<H::Link as Told>⟧.seen) H.Link.was_led (H.handed house.old) (H.handed house.new)) script.now (H.facts house.old) (H.facts house.new) (⟦<H::Pipe as Told>⟧.seen (H.pipe_of house.old)) (⟦<H::Pipe as Told>⟧.seen (H.pipe_of house.new)) (status_of result) }
{
    let messages = script_of(alloc, house, script)?;
    talk_at(alloc, place, &messages, house)
}
