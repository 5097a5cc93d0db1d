// One try of a call, with the locks of its cells held.
ghost use Rattle.std.specs.Prelude.{◌≡◌, []};
ghost use Rattle.network_model.specs.declared.JournalFull.{JournalFull};
ghost use Rattle.quantum_hub.specs.Calls.{MayCall};
ghost use Rattle.commit_journal.specs.Holding.{AreIdle};
ghost use Rattle.hub_cells.specs.Cell.{has_next};
ghost use Rattle.quantum_hub.specs.Tries.{AreApart, MayAwait, FitsTried, tried_of};
ghost use Rattle.quantum_hub.specs.declared.tries.Turn.TheVariants.{Full};
ghost use Rattle.quantum_hub.specs.declared.tries.Tried.TheVariants.{Ended};

use crate::gathering::{FEW, gather};
use crate::hints::note;
use crate::hub::Hub;
use crate::looks::{end, look};
use crate::making::{Made, make};
use crate::moves::{lay, load};
use commit_journal::{CommitFault, Framed, Pass, Stamped};
use held_board::HeldBoard;
use history_front::Named;
use hub_cells::Cell;
use network_model::{Call, CoreReply, JournalFull, Line};
use qron_link::Dice;
use register_locks::Hold;
use std::sync::Wait;

// How many cells a hub has at most.
const ALL: usize = 137;

/// How a turn ends.
#[derive(Clone, Copy, PartialEq, Eq, Debug, Drop)]
pub(crate) enum Turn {
    /// The call is an entry with this reply.
    Done(CoreReply),
    /// The journal has no room for it.
    Full(JournalFull),
    /// The awaited queue is empty after this many entries.
    Empty(u32),
}

/// How a try ends.
#[derive(Clone, Copy, PartialEq, Eq, Debug, Drop)]
pub(crate) enum Tried {
    Ended(Turn),
    /// A cell that the call needs wasn't held.
    Missed,
    /// Numbers don't agree that always do: nobody may go on.
    Stuck,
}

impl<N: Named + Framed> Hub<N> {
    /// Tries a call with the cells that the hints name, or with all. The locks are given back at its end.
    pub(crate) fn try_with<D: Dice>(
        &self,
        rt: &impl Wait,
        pass: &mut Pass<N>,
        call: &Call,
        awaited: Option<Line>,
        dice: &mut D,
        all: bool,
    ) -> Tried
        requires call { MayCall N.shape call.now pass.old (D.taken dice.old) }
        requires awaits { MayAwait call.now awaited }
        ensures tried { FitsTried N.shape N.capacity call.now awaited (D.word (D.key dice.old) (D.begun_seat dice.old) (D.begun_serial dice.old) (D.taken dice.old)) (D.taken dice.old) (D.taken dice.new) pass.old pass.new result }
        ensures begun { (D.key dice.new ≡ D.key dice.old) × (D.begun_seat dice.new ≡ D.begun_seat dice.old) × (D.begun_serial dice.new ≡ D.begun_serial dice.old) }
    {
        if all {
            return self.try_with_all(rt, pass, call, awaited, dice);
        }
        let mut hold = self.locks.begin::<FEW>();
        self.try_under(rt, &mut hold, pass, call, awaited, dice, false)
    }

    // Tries a call with all cells. A hold of them takes much room, which other tries don't pay for.
    #[inline(never)]
    fn try_with_all<D: Dice>(
        &self,
        rt: &impl Wait,
        pass: &mut Pass<N>,
        call: &Call,
        awaited: Option<Line>,
        dice: &mut D,
    ) -> Tried
        requires call { MayCall N.shape call.now pass.old (D.taken dice.old) }
        requires awaits { MayAwait call.now awaited }
        ensures tried { FitsTried N.shape N.capacity call.now awaited (D.word (D.key dice.old) (D.begun_seat dice.old) (D.begun_serial dice.old) (D.taken dice.old)) (D.taken dice.old) (D.taken dice.new) pass.old pass.new result }
        ensures begun { (D.key dice.new ≡ D.key dice.old) × (D.begun_seat dice.new ≡ D.begun_seat dice.old) × (D.begun_serial dice.new ≡ D.begun_serial dice.old) }
    {
        let mut hold = self.locks.begin::<ALL>();
        self.try_under(rt, &mut hold, pass, call, awaited, dice, true)
    }

    // Takes locks, tries a call with their cells, and writes down where their qubits are.
    fn try_under<D: Dice, const ROOM: usize>(
        &self,
        rt: &impl Wait,
        hold: &mut Hold<'_, Stamped<Cell, N>, ROOM>,
        pass: &mut Pass<N>,
        call: &Call,
        awaited: Option<Line>,
        dice: &mut D,
        all: bool,
    ) -> Tried
        requires empty { hold.old.slots ≡ [] }
        requires call { MayCall N.shape call.now pass.old (D.taken dice.old) }
        requires awaits { MayAwait call.now awaited }
        ensures tried { FitsTried N.shape N.capacity call.now awaited (D.word (D.key dice.old) (D.begun_seat dice.old) (D.begun_serial dice.old) (D.taken dice.old)) (D.taken dice.old) (D.taken dice.new) pass.old pass.new result }
        ensures begun { (D.key dice.new ≡ D.key dice.old) × (D.begun_seat dice.new ≡ D.begun_seat dice.old) × (D.begun_serial dice.new ≡ D.begun_serial dice.old) }
    {
        let picks = gather(rt, hold, &self.hints, &self.shape, call, all);
        let tried = self.try_once(rt, hold, &picks, pass, call, awaited, dice);
        note(hold, &picks, &self.hints, self.shape.nodes());
        tried
    }

    // Tries a call with the picked cells, which are held. The held cells are known to fit one history by a look at the
    // journal, whose lock is given back before the step is made, since that may draw a word.
    fn try_once<D: Dice, const ROOM: usize>(
        &self,
        rt: &impl Wait,
        hold: &mut Hold<'_, Stamped<Cell, N>, ROOM>,
        picks: &[u16],
        pass: &mut Pass<N>,
        call: &Call,
        awaited: Option<Line>,
        dice: &mut D,
    ) -> Tried
        requires apart { AreApart hold.old.slots }
        requires call { MayCall N.shape call.now pass.old (D.taken dice.old) }
        requires awaits { MayAwait call.now awaited }
        ensures tried { FitsTried N.shape N.capacity call.now awaited (D.word (D.key dice.old) (D.begun_seat dice.old) (D.begun_serial dice.old) (D.taken dice.old)) (D.taken dice.old) (D.taken dice.new) pass.old pass.new result }
        ensures undone { (full : JournalFull) → result ≡ Ended (Full full) → AreIdle has_next hold.new.slots }
        ensures begun { (D.key dice.new ≡ D.key dice.old) × (D.begun_seat dice.new ≡ D.begun_seat dice.old) × (D.begun_serial dice.new ≡ D.begun_serial dice.old) }
    {
        let Some(entries) = look(rt, &self.journal, hold, pass) else {
            return Tried::Stuck;
        };
        let mut board = HeldBoard::new();
        // it is true: at most two nodes, the pool and three slots are picked, and the board has places for them
        if !load(hold, &mut board, &self.shape, picks) {
            return Tried::Stuck;
        }
        let made = make(&mut board, &self.shape, call, awaited, dice);
        // it is true: the board has just the cells that were lifted out
        if !lay(hold, &mut board, &self.shape) {
            return Tried::Stuck;
        }
        match made {
            Made::Step(entry) => match end(rt, &self.journal, hold, pass, entry) {
                Ok(()) => Tried::Ended(Turn::Done(entry.reply)),
                Err(fault) => failed(fault),
            },
            Made::Empty => Tried::Ended(Turn::Empty(entries)),
            Made::Missing => Tried::Missed,
        }
    }
}

// How a try ends whose entry wasn't committed.
fn failed(fault: CommitFault) -> Tried
    ensures { result ≡ tried_of fault }
{
    match fault {
        CommitFault::Full(full) => Tried::Ended(Turn::Full(full)),
        CommitFault::Stale(_) => Tried::Stuck,
    }
}
