// The walk over a message.
ghost use Rattle.std.specs.Prelude.{◌≡◌, ◌≢◌, ℕ, ◌<◌, ◌≤◌, List, [], ◌∷◌, length, drop, ◌&&◌, if◌then◌else◌, MatchOption, MatchResult, IfSome, Err, IsOk};
ghost use Rattle.cqc_model.specs.declared.Instr.TheVariants.{Allocate};
ghost use Rattle.cqc_model.specs.Plan.{commands, body_limit};
ghost use Rattle.cqc_program.specs.Rounds.{FrontAs, BeginsAs, ended, front_list};
ghost use Rattle.cqc_program.specs.Walks.{IsOver, MovesOn, OpensAs, left_of, notify_of};

use crate::round::{Copies, Stand, next_in_round};
use cqc_wire::{BodyFault, Command, check_body, has_notify};

/// A cursor over the commands of one message. It belongs to the body that it was opened with.
#[derive(Clone, Copy, PartialEq, Eq, Debug, Drop)]
pub struct Walk {
    /// Where the command list begins in the body.
    start: u32,
    stand: Stand,
}

// The bytes of a FACTORY body in front of its commands: repeats (1), options (1).
const FACTORY_SIZE: u32 = 2;

// What stands in front of a command list: how often the list is run, and whether a NOTIFY counts in any case.
#[derive(Clone, Copy, PartialEq, Eq, Debug, Drop)]
struct Front {
    start: u32,
    repeats: u8,
    notify: bool,
}

// The front of a body.
fn front_of(factory: bool, body: &[u8]) -> Result<Front, BodyFault>
    ensures { FrontAs factory body.now result }
{
    if !factory {
        return Ok(Front {
            start: 0,
            repeats: 1,
            notify: false,
        });
    }
    if body.len() < FACTORY_SIZE as usize {
        return Err(BodyFault::Short { at: 0 });
    }
    Ok(Front {
        start: FACTORY_SIZE,
        repeats: body[0],
        notify: has_notify(body[1]),
    })
}

// The end of a body.
fn end_of(body: &[u8], noticed: bool) -> Stand
    requires { length body.now ≤ body_limit }
    ensures { result ≡ ended (length body.now) noticed }
{
    Stand {
        rounds: 0,
        at: body.len() as u32,
        asked: None,
        noticed,
    }
}

// The first command that the rounds ask.
fn first_of(body: &[u8], front: Front) -> Stand
    requires short { length body.now ≤ body_limit }
    requires within { front.start ≤ length body.now }
    requires passed { IsOk (commands (drop front.start body.now)) }
    ensures { BeginsAs body.now front result }
{
    if front.repeats == 0 {
        return end_of(body, front.notify);
    }
    let before = Stand {
        rounds: front.repeats - 1,
        at: front.start,
        asked: None,
        noticed: front.notify,
    };
    next_in_round(body, before)
}

// What is asked behind the last copy of a command: more of this round, or the next round.
fn following(body: &[u8], walk: Walk) -> Stand
    requires over { IsOver body.now walk }
    ensures { MovesOn body.now walk result }
{
    let next = next_in_round(body, walk.stand);
    if next.asked.is_some() || next.rounds == 0 {
        return next;
    }
    let round = Stand {
        rounds: next.rounds - 1,
        at: walk.start,
        ..next
    };
    next_in_round(body, round)
}

impl Walk {
    /// Opens a message's body. A fault of its command list is the list's first one.
    pub fn open(factory: bool, body: &[u8]) -> Result<Walk, BodyFault>
        requires { length body.now ≤ body_limit }
        ensures { MatchResult result (λ walk. OpensAs factory body.now walk) (λ fault. front_list factory body.now ≡ Err fault) }
    {
        let front = front_of(factory, body)?;
        check_body(&body[front.start as usize..])?;
        Ok(Walk {
            start: front.start,
            stand: first_of(body, front),
        })
    }

    /// The command that is asked next; None where the walk has ended.
    pub fn next(&self, _body: &[u8]) -> Option<Command>
        requires { IsOver _body.now self.now }
        ensures next { MatchOption result (left_of _body.now self.now ≡ []) (λ c. (others : List Command) × (left_of _body.now self.now ≡ c ∷ others)) }
        ensures allowed { IfSome result (λ c. c.instr ≢ Allocate) }
    {
        let copies = self.stand.asked?;
        Some(copies.command)
    }

    /// Goes on after a reply. After an error the walk has ended, and DONE is not due.
    pub fn after(&mut self, body: &[u8], ok: bool)
        requires over { IsOver body.now self.old }
        requires going { 0 < length (left_of body.now self.old) }
        ensures over { IsOver body.now self.new }
        ensures left { left_of body.now self.new ≡ (if ok then drop 1 (left_of body.now self.old) else []) }
        ensures notify { notify_of body.now self.new ≡ (ok && notify_of body.now self.old) }
    {
        if !ok {
            self.stand = end_of(body, false);
            return;
        }
        self.stand = match self.stand.asked {
            Some(copies) if copies.times > 1 => Stand {
                asked: Some(Copies {
                    times: copies.times - 1,
                    ..copies
                }),
                ..self.stand
            },
            _ => following(body, *self),
        };
    }

    /// Whether DONE is due, where the walk has ended.
    pub fn done_due(&self) -> bool
        ensures { (body : List ℕ) → IsOver body self.now → left_of body self.now ≡ [] → result ≡ notify_of body self.now }
    {
        self.stand.noticed
    }
}
