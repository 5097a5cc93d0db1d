// One connection.
ghost use Rattle.std.specs.Prelude.{◌≡◌, ℕ, ◌≤◌, ◌<◌, ◌^◌, MatchOption, IfNone, IfOk};
ghost use Rattle.cqc_session.specs.State.{State, work_of, begun, not_begun};

use crate::allowance::Allowance;
use crate::next::next_command;
use crate::program::Program;
use crate::reply::{refused, write_answer};
use crate::stage::Stage;
use crate::take::take_message;
use crate::turn::Turn;
use cqc_model::Instr;
use network_model::{Call, CoreReply, JournalFull, Kind, kind_of};
use qron_link::{Link, send_link};
use session_model::Ending;
use std::alloc::{AllocError, Global};
use std::marker::Model;

/// One connection: its bytes as a function of the core's replies.
#[derive(Drop)]
pub struct Session {
    seat: u16,
    serial: u16,
    node: u8,
    allowance: Allowance,
    // The app of the message that is open.
    opened: Option<u16>,
    program: Program,
    stage: Stage,
}

impl Model for Session {
    ghost Value = { State };

    ghost view = { λ s. record {
      connection = record { seat = s.seat; serial = s.serial; node = s.node };
      cap = s.allowance.cap;
      budget = s.allowance.left;
      work = work_of s.opened s.program.left s.program.notify;
      stage = s.stage;
    } };
}

impl Session {
    ghost use Rattle.cqc_session.specs.declared.stage.Stage.TheVariants.{Ready};
    ghost use Rattle.cqc_session.specs.State.{Waits, steps_left, stage_after, stage_after_answer};
    ghost use Rattle.cqc_session.specs.Session.{PollDid, TurnCause, StepsKept, GoesOn, AnswerEnds, AnswerCause};
    ghost use Rattle.cqc_session.specs.Parts.{moment, AdvanceDid, StepDid, ResultCause};

    /// A session of a seat at a node, which reads at most so many bytes of a connection. All its room is taken here.
    /// It answers nothing until it begins a connection.
    pub fn new(alloc: Global, seat: u16, node: u8, cap: u64) -> Result<Session, AllocError>
        requires some { 1 ≤ cap }
        requires most { cap ≤ 2 ^ 32 }
        ensures { IfOk result (λ s. s ≡ not_begun (record { seat = seat; serial = 0; node = node }) cap) }
    {
        let program = Program::new(alloc)?;
        Ok(Session {
            seat,
            serial: 0,
            node,
            allowance: Allowance::new(cap),
            opened: None,
            program,
            stage: Stage::Closed,
        })
    }

    /// The seat of its connections.
    pub fn seat(&self) -> u16
        ensures { result ≡ self.now.connection.seat }
    {
        self.seat
    }

    /// The node of its connections.
    pub fn node(&self) -> u8
        ensures { result ≡ self.now.connection.node }
    {
        self.node
    }

    /// The serial of the connection that was begun last.
    pub fn serial(&self) -> u16
        ensures { result ≡ self.now.connection.serial }
    {
        self.serial
    }

    /// A new connection. Nothing of the old one is left.
    pub fn begin(&mut self, serial: u16)
        ensures { self.new ≡ begun (record self.old.connection { serial = serial }) self.old.cap }
    {
        self.serial = serial;
        self.allowance = Allowance::new(self.allowance.cap);
        self.opened = None;
        self.stage = Stage::Ready;
    }

    /// Reads and answers until a command is to be executed or the session ends. Behind it no reply is held back while a
    /// command waits for a qubit.
    pub fn poll<L: Link>(&mut self, link: &mut L) -> Turn
        requires { self.old.stage ≡ Ready }
        ensures stage { self.new.stage ≡ stage_after result }
        ensures turn { PollDid self.old self.new (L.left link.old) (L.left link.new) (L.held link.old) (L.held link.new) result }
        ensures connection { self.new.connection ≡ self.old.connection }
        ensures cap { self.new.cap ≡ self.old.cap }
        ensures steps { StepsKept result (steps_left self.old) (steps_left self.new) }
        ensures cause { TurnCause result (L.read_faults link.old) (L.read_faults link.new) (L.write_faults link.old) (L.write_faults link.new) }
        ensures led { L.was_led link.old link.new }
    {
        match self.advance(link) {
            Ok(call) => {
                if may_wait(&call.command.instr) {
                    link.deliver();
                }
                self.stage = Stage::Waiting;
                Turn::Execute(call)
            }
            Err(ending) => {
                self.stage = Stage::Closed;
                Turn::End(ending)
            }
        }
    }

    // Steps until a command is to be executed.
    fn advance<L: Link>(&mut self, link: &mut L) -> Result<Call, Ending>
        ensures did { AdvanceDid self.old self.new (moment L.left L.held link.old self.old.budget) (moment L.left L.held link.new self.new.budget) result }
        ensures connection { self.new.connection ≡ self.old.connection }
        ensures cap { self.new.cap ≡ self.old.cap }
        ensures cause { ResultCause result (L.read_faults link.old) (L.read_faults link.new) (L.write_faults link.old) (L.write_faults link.new) }
        ensures led { L.was_led link.old link.new }
    {
        loop {
            match self.step(link) {
                Ok(None) => {}
                Ok(Some(call)) => return Ok(call),
                Err(ending) => return Err(ending),
            }
        }
    }

    // Asks the next command of the message that is open, or takes the next message.
    fn step<L: Link>(&mut self, link: &mut L) -> Result<Option<Call>, Ending>
        ensures did { StepDid self.old self.new (moment L.left L.held link.old self.old.budget) (moment L.left L.held link.new self.new.budget) result }
        ensures connection { self.new.connection ≡ self.old.connection }
        ensures cap { self.new.cap ≡ self.old.cap }
        ensures cause { ResultCause result (L.read_faults link.old) (L.read_faults link.new) (L.write_faults link.old) (L.write_faults link.new) }
        ensures led { L.was_led link.old link.new }
    {
        if let Some((app, command)) = next_command(link, &self.program, self.opened)? {
            return Ok(Some(Call {
                seat: self.seat,
                serial: self.serial,
                node: self.node,
                app,
                command,
            }));
        }
        self.opened = take_message(link, &mut self.program, &mut self.allowance)?;
        Ok(None)
    }

    /// Hands in what the core answered. None: its reply is written, and the session goes on.
    /// It waits for this after `poll` said that a call is to be executed.
    pub fn answer<L: Link>(
        &mut self,
        link: &mut L,
        done: Result<CoreReply, JournalFull>,
    ) -> Option<Ending>
        requires { (call : Call) × Waits call self.old }
        ensures answered { (call : Call) → Waits call self.old → MatchOption result
            (GoesOn self.old.connection self.old.work call (L.held link.old) (L.held link.new) done self.new.work)
            (λ ending. AnswerEnds ending call.app done (L.held link.old) (L.held link.new)) }
        ensures stage { self.new.stage ≡ stage_after_answer result }
        ensures connection { self.new.connection ≡ self.old.connection }
        ensures cap { self.new.cap ≡ self.old.cap }
        ensures budget { self.new.budget ≡ self.old.budget }
        ensures steps { IfNone result (steps_left self.new < steps_left self.old) }
        ensures left { L.left link.new ≡ L.left link.old }
        ensures read_faults { L.read_faults link.new ≡ L.read_faults link.old }
        ensures cause { MatchOption result (L.write_faults link.old ≤ L.write_faults link.new)
            (λ ending. AnswerCause ending (L.write_faults link.old) (L.write_faults link.new)) }
        ensures led { L.was_led link.old link.new }
    {
        let Some(app) = self.opened else {
            unreachable!()
        };
        self.stage = Stage::Closed;
        let mut out = [0u8; 50];
        let size = write_answer(&mut out, app, &done);
        if send_link(link, &out[..size]).is_err() {
            return Some(Ending::WriteFault);
        }
        match done {
            Ok(reply) => {
                self.program.after(!refused(&reply));
                self.stage = Stage::Ready;
                None
            }
            Err(full) => Some(Ending::Full {
                entries: full.entries,
            }),
        }
    }
}

// Whether a command may wait for a qubit of another node.
fn may_wait(instr: &Instr) -> bool {
    matches!(kind_of(instr), Kind::Receive(_))
}
