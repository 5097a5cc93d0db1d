// Calls: tried until their cells are found, and waiting where they receive.
ghost use Rattle.std.specs.Prelude.{◌≡◌, ◌≤◌, MatchOption};
ghost use Rattle.cqc_model.specs.declared.Fault.TheVariants.{Timeout};
ghost use Rattle.network_model.specs.declared.CoreReply.TheVariants.{Error};
ghost use Rattle.network_model.specs.Network.{line_eq};
ghost use Rattle.network_model.specs.declared.Line.TheVariants.{Pair};
ghost use Rattle.quantum_hub.specs.Calls.{MayCall, IsAnswer};
ghost use Rattle.quantum_hub.specs.Waiting.{received_line, WereEmpty, HasTimedOut};
ghost use Rattle.quantum_hub.specs.Tries.{MayAwait, FitsTurn};

use crate::hub::{Hub, wait_for_ever};
use crate::tries::{Tried, Turn};
use commit_journal::{Framed, Pass};
use history_front::Named;
use network_model::{Call, CoreReply, JournalFull, Kind, Line, kind_of};
use qron_link::{Dice, EmptyAt, Patience};
use std::sync::Wait;

// How often a call is tried with the cells that the hints name. After that it is tried with all.
const HINTED_TRIES: u8 = 4;

impl<N: Named + Framed> Hub<N> {
    /// Executes a call, which is one entry of the journal with its reply, or finds that the journal has no room; then no
    /// cell has changed. It may wait for locks.
    ///
    /// A call that receives looks into its queue. While that is empty it asks patience, with no lock held, and looks
    /// again. Once patience gives up it looks a last time, and that look decides: a qubit, or TIMEOUT.
    pub fn execute<D: Dice, P: Patience>(
        &self,
        rt: &impl Wait,
        pass: &mut Pass<N>,
        call: &Call,
        dice: &mut D,
        patience: &mut P,
    ) -> Result<CoreReply, JournalFull>
        requires { MayCall N.shape call.now pass.old (D.taken dice.old) }
        ensures answer { IsAnswer N.shape N.capacity call.now (D.word (D.key dice.old) (D.begun_seat dice.old) (D.begun_serial dice.old) (D.taken dice.old)) (D.taken dice.old) (D.taken dice.new) pass.old pass.new result }
        ensures waiting { MatchOption (received_line call.now) (patience.new ≡ patience.old) (λ _. WereEmpty N.shape call.now pass.old pass.new (P.shown patience.new)) }
        ensures timeout { result ≡ Ok (Error Timeout) → HasTimedOut N.shape call.now pass.new (P.gave_up patience.old) (P.gave_up patience.new) (P.shown patience.new) }
        ensures seat { pass.new.seat ≡ pass.old.seat }
        ensures gave_up { P.gave_up patience.old ≤ P.gave_up patience.new }
        ensures times { P.times patience.new ≡ P.times patience.old }
        ensures begun { (D.key dice.new ≡ D.key dice.old) × (D.begun_seat dice.new ≡ D.begun_seat dice.old) × (D.begun_serial dice.new ≡ D.begun_serial dice.old) }
    {
        let Some(line) = line_of(call) else {
            return self.finish(rt, pass, call, dice);
        };
        patience.start();
        for _ in rt.forever() {
            match self.turn(rt, pass, call, Some(line), dice) {
                Turn::Done(reply) => return Ok(reply),
                Turn::Full(full) => return Err(full),
                Turn::Empty(entries) => {
                    let seen = EmptyAt {
                        node: call.node,
                        app: call.app,
                        pair: is_pair(line),
                        entries,
                    };
                    if !patience.again(seen) {
                        return self.finish(rt, pass, call, dice);
                    }
                }
            }
        }
        unreachable!()
    }

    // Executes a call that awaits nothing, or nothing any more.
    fn finish<D: Dice>(
        &self,
        rt: &impl Wait,
        pass: &mut Pass<N>,
        call: &Call,
        dice: &mut D,
    ) -> Result<CoreReply, JournalFull>
        requires { MayCall N.shape call.now pass.old (D.taken dice.old) }
        ensures answer { IsAnswer N.shape N.capacity call.now (D.word (D.key dice.old) (D.begun_seat dice.old) (D.begun_serial dice.old) (D.taken dice.old)) (D.taken dice.old) (D.taken dice.new) pass.old pass.new result }
        ensures begun { (D.key dice.new ≡ D.key dice.old) × (D.begun_seat dice.new ≡ D.begun_seat dice.old) × (D.begun_serial dice.new ≡ D.begun_serial dice.old) }
    {
        match self.turn(rt, pass, call, None, dice) {
            Turn::Done(reply) => Ok(reply),
            Turn::Full(full) => Err(full),
            // no queue is awaited
            Turn::Empty(_) => unreachable!(),
        }
    }

    // Tries a call until its cells are found. Where a queue is awaited and empty, the call isn't executed.
    fn turn<D: Dice>(
        &self,
        rt: &impl Wait,
        pass: &mut Pass<N>,
        call: &Call,
        awaited: Option<Line>,
        dice: &mut D,
    ) -> Turn
        requires call { MayCall N.shape call.now pass.old (D.taken dice.old) }
        requires awaits { MayAwait call.now awaited }
        ensures turn { FitsTurn N.shape N.capacity call.now awaited (D.word (D.key dice.old) (D.begun_seat dice.old) (D.begun_serial dice.old) (D.taken dice.old)) (D.taken dice.old) (D.taken dice.new) pass.old pass.new result }
        ensures begun { (D.key dice.new ≡ D.key dice.old) × (D.begun_seat dice.new ≡ D.begun_seat dice.old) × (D.begun_serial dice.new ≡ D.begun_serial dice.old) }
    {
        let mut missed = 0u8;
        for _ in rt.forever() {
            let all = missed == HINTED_TRIES;
            match self.try_with(rt, pass, call, awaited, dice, all) {
                Tried::Ended(turn) => return turn,
                Tried::Missed => missed = (missed + 1).min(HINTED_TRIES),
                Tried::Stuck => wait_for_ever(rt),
            }
        }
        unreachable!()
    }
}

// The line of the queue that a call receives from, if it receives.
#[tactic(auto, unfolding(network_model::specs::Kinds::line_of))]
fn line_of(call: &Call) -> Option<Line>
    ensures { result ≡ received_line call.now }
{
    match kind_of(&call.command.instr) {
        Kind::Receive(line) => Some(line),
        Kind::Idle
        | Kind::Gate(_)
        | Kind::Inexact
        | Kind::Two(_, _)
        | Kind::Measure(_, _)
        | Kind::Make
        | Kind::Pair(_)
        | Kind::Send(_)
        | Kind::Unrolled => None,
    }
}

// Whether a line is that of pairs.
#[tactic(auto, unfolding(network_model::specs::Network::line_eq))]
fn is_pair(line: Line) -> bool
    ensures { result ≡ line_eq line Pair }
{
    match line {
        Line::Pair => true,
        Line::Sent => false,
    }
}
