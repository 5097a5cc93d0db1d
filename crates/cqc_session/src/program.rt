// The body of a message, and the walk over its commands.
ghost use Rattle.std.specs.Prelude.{◌≡◌, ◌≢◌, ℕ, ◌<◌, ◌≤◌, List, [], ◌∷◌, length, take, drop, vec_len, ◌&&◌, if◌then◌else◌, MatchOption, MatchResult, IfOk, IfSome};
ghost use Rattle.cqc_model.specs.Plan.{body_limit, body_plan, fixed, steps};
ghost use Rattle.cqc_model.specs.declared.Instr.TheVariants.{Allocate};
ghost use Rattle.cqc_model.specs.declared.Reply.TheVariants.{Error};
ghost use Rattle.cqc_program.specs.Rounds.{kind_of};
ghost use Rattle.cqc_program.specs.Walks.{walk_limit};
ghost use Rattle.cqc_session.specs.Body.{Program, left_over, notify_over, WalksOver};
ghost use Rattle.cqc_session.specs.Parts.{moment, Reads, BodyParted, PartCause, OnlyRead};

use crate::allowance::Allowance;
use crate::part::keep_body;
use cqc_model::{BODY_LIMIT, BodyFault, Command, Fault};
use cqc_program::Walk;
use qron_link::Link;
use session_model::Ending;
use std::alloc::{AllocError, Global};
use std::marker::Model;

/// The body of one message, and its commands that are still to be asked.
#[derive(Drop)]
pub struct Program {
    room: Vec<u8>,
    size: u32,
    walk: Option<Walk>,
}

impl Model for Program {
    ghost Value = { Program };

    ghost view = { λ p. record {
      body = take p.size p.room.items;
      left = left_over (take p.size p.room.items) p.walk;
      notify = notify_over (take p.size p.room.items) p.walk;
    } };

    ghost invariant = { λ p. (p.size ≤ 65536) × (65536 ≤ vec_len p.room) × WalksOver (take p.size p.room.items) p.walk };
}

impl Program {
    /// A program without a body. All its room is taken here.
    pub fn new(alloc: Global) -> Result<Program, AllocError> {
        let room = vec![in alloc; 0; BODY_LIMIT as usize]?;
        Ok(Program {
            room,
            size: 0,
            walk: None,
        })
    }

    /// Reads a body into the room. It has no commands until it is opened.
    pub fn load<L: Link>(
        &mut self,
        link: &mut L,
        size: u32,
        allowance: &mut Allowance,
    ) -> Result<(), Ending>
        requires { size ≤ body_limit }
        ensures body { MatchResult result
            (λ _. Reads (moment L.left L.held link.old allowance.old.left) (moment L.left L.held link.new allowance.new.left) self.new.body × (length self.new.body ≡ size))
            (BodyParted allowance.old.cap (moment L.left L.held link.old allowance.old.left) (moment L.left L.held link.new allowance.new.left) size) }
        ensures cap { allowance.new.cap ≡ allowance.old.cap }
        ensures cause { PartCause result (L.read_faults link.old) (L.read_faults link.new) }
        ensures link { OnlyRead L.held L.write_faults L.was_led link.old link.new }
    {
        self.size = 0;
        self.walk = None;
        keep_body(link, &mut self.room, size, allowance)?;
        self.size = size;
        Ok(())
    }

    /// Opens the body of a COMMAND or FACTORY message. A fault is its one answer.
    pub fn open(&mut self, factory: bool) -> Result<(), Fault>
        ensures plan { MatchResult result (λ _. body_plan (kind_of factory) self.old.body ≡ steps self.new.left self.new.notify)
            (λ f. body_plan (kind_of factory) self.old.body ≡ fixed (Error f)) }
        ensures few { IfOk result (λ _. length self.new.left < walk_limit) }
    {
        match Walk::open(factory, &self.room[..self.size as usize]) {
            Ok(walk) => {
                self.walk = Some(walk);
                Ok(())
            }
            Err(BodyFault::Unsupported { .. }) => Err(Fault::Unsupported),
            Err(BodyFault::Short { .. }) => Err(Fault::General),
        }
    }

    /// The next command; None where none is left.
    pub fn next(&self) -> Option<Command>
        ensures next { MatchOption result (self.now.left ≡ []) (λ c. (others : List Command) × (self.now.left ≡ c ∷ others)) }
        ensures allowed { IfSome result (λ c. c.instr ≢ Allocate) }
    {
        match self.walk {
            Some(walk) => walk.next(&self.room[..self.size as usize]),
            None => None,
        }
    }

    /// Goes on after a reply. After an error no command is left, and DONE does not follow.
    pub fn after(&mut self, ok: bool)
        requires { 0 < length self.old.left }
        ensures left { self.new.left ≡ (if ok then drop 1 self.old.left else []) }
        ensures notify { self.new.notify ≡ (ok && self.old.notify) }
    {
        if let Some(mut walk) = self.walk {
            walk.after(&self.room[..self.size as usize], ok);
            self.walk = Some(walk);
        }
    }

    /// Whether DONE follows, where no command is left.
    pub fn done_due(&self) -> bool
        requires { self.now.left ≡ [] }
        ensures { result ≡ self.now.notify }
    {
        match self.walk {
            Some(walk) => walk.done_due(),
            None => false,
        }
    }
}
