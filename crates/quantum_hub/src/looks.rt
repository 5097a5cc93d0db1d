// What is done under the journal's lock.
ghost use Rattle.std.specs.Prelude.{◌≡◌, ◌≤◌, ℕ, List, length, Err, OnOk, OnErr, OnSome, IfSome, IsNone};
ghost use Rattle.network_model.specs.History.{IsLegal};
ghost use Rattle.network_model.specs.declared.Entry.{Entry};
ghost use Rattle.network_model.specs.declared.JournalFull.{JournalFull};
ghost use Rattle.commit_journal.specs.declared.fault.CommitFault.TheVariants.{Full};
ghost use Rattle.commit_journal.specs.Holding.{AllFit, AreIdle, HasEntry, forgotten_stamp, map_values};
ghost use Rattle.commit_journal.specs.Keeping.{own_count};
ghost use Rattle.commit_journal.specs.Views.{HasAdded};
ghost use Rattle.hub_cells.specs.Cell.{FitsCell, has_next, settled_cell, forgotten_cell};
ghost use Rattle.quantum_hub.specs.Calls.{HasWaited};

use commit_journal::{CommitFault, Framed, Journal, Pass, Stamped, commit, forget_all, glance};
use history_front::Named;
use hub_cells::Cell;
use network_model::Entry;
use register_locks::Hold;
use std::sync::{Mutex, Wait};

/// Looks at the journal, and tells how many entries it has. Then the pass has seen all of them, and every held cell fits
/// them and has no next value. None where a number isn't the one that the journal keeps.
pub(crate) fn look<N: Named + Framed, const ROOM: usize>(
    rt: &impl Wait,
    journal: &Mutex<Journal<N>>,
    hold: &mut Hold<'_, Stamped<Cell, N>, ROOM>,
    pass: &mut Pass<N>,
) -> Option<u32>
    ensures waited { HasWaited pass.old pass.new }
    ensures entries { IfSome result (λ n. n ≡ length pass.new.seen) }
    ensures legal { OnSome result (IsLegal N.shape pass.new.seen) }
    ensures limit { 1 ≤ N.shape.limit }
    ensures fits { OnSome result (AllFit FitsCell N.shape hold.new.slots pass.new.seen) }
    ensures forgotten { OnSome result (hold.new ≡ record hold.old { slots = map_values (forgotten_stamp forgotten_cell) hold.old.slots }) }
{
    let mut desk = journal.lock(rt);
    glance(&mut *desk, hold, pass).ok()
}

/// Commits an entry whose cells are held. Where it isn't committed, its step is undone.
pub(crate) fn end<N: Named + Framed, const ROOM: usize>(
    rt: &impl Wait,
    journal: &Mutex<Journal<N>>,
    hold: &mut Hold<'_, Stamped<Cell, N>, ROOM>,
    pass: &mut Pass<N>,
    entry: Entry,
) -> Result<(), CommitFault>
    requires seat { entry.call.seat ≡ pass.old.seat }
    requires cells { HasEntry FitsCell has_next settled_cell N.shape N.cells hold.old.slots entry }
    ensures added { OnOk result ((h : List Entry) × HasAdded N.shape pass.old pass.new h entry) }
    ensures own { own_count pass.new.seat pass.new.seen ≡ pass.new.made }
    ensures full { (full : JournalFull) → result ≡ Err (Full full) → (full.entries ≡ N.capacity) × (length pass.new.seen ≡ N.capacity) }
    ensures waited { OnErr result (HasWaited pass.old pass.new) }
    ensures undone { OnErr result (AreIdle has_next hold.new.slots) }
{
    let mut desk = journal.lock(rt);
    let committed = commit(&mut *desk, hold, pass, entry);
    // contracts see by this call that the number is that of its entries
    let _made = pass.made();
    match committed {
        Ok(_) => Ok(()),
        Err(fault) => {
            forget_all(hold);
            Err(fault)
        }
    }
}
