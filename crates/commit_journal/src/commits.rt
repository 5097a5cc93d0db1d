// Looks and commits under a hold.
ghost use Rattle.std.specs.Prelude.{◌≡◌, ◌<◌, ◌≤◌, ◌++◌, ◌∷◌, [], ◌↔◌, List, length, Err, IsOk, OnOk, OnErr, IfOk, IfErr};
ghost use Rattle.network_model.specs.History.{IsLegal};
ghost use Rattle.network_model.specs.declared.Entry.{Entry};
ghost use Rattle.network_model.specs.declared.JournalFull.{JournalFull};
ghost use Rattle.commit_journal.specs.declared.fault.CommitFault.TheVariants.{Full, Stale as IsStale};
ghost use Rattle.commit_journal.specs.declared.fault.Stale.{Stale};
ghost use Rattle.commit_journal.specs.Views.{HasSeen, HasAdded};
ghost use Rattle.commit_journal.specs.Holding.{AllFit, AreFresh, AreIdle, HasEntry, committed_stamp, forgotten_stamp, map_values};
ghost use Rattle.commit_journal.specs.Commits.{AreCurrent, IsFirstStale};

use crate::cells::{Cells, Framed};
use crate::comparing::compare;
use crate::fault::{CommitFault, Stale};
use crate::journal::Journal;
use crate::pass::Pass;
use crate::stamped::Stamped;
use history_front::Named;
use network_model::{Entry, JournalFull};
use register_locks::Hold;

/// Compares the held cells' stamps and the pass's number of entries with the journal's numbers, and answers the number
/// of entries. Then every held cell fits the whole journal and has no next value any more, and the pass has seen all of
/// it. Where a number differs nothing has changed.
pub fn glance<C: Cells, N: Named + Framed, const ROOM: usize>(
    journal: &mut Journal<N>,
    hold: &mut Hold<'_, Stamped<C, N>, ROOM>,
    pass: &mut Pass<N>,
) -> Result<u32, Stale>
    ensures current { IsOk result ↔ AreCurrent N.shape hold.old.slots pass.old journal.old }
    ensures stale { IfErr result (λ s. IsFirstStale N.shape N.cells hold.old.slots pass.old journal.old s) }
    ensures journal { journal.new ≡ journal.old }
    ensures legal { (1 ≤ N.shape.limit) × IsLegal N.shape journal.old }
    ensures len { IfOk result (λ n. n ≡ length journal.old) }
    ensures forgotten { OnOk result (hold.new ≡ record hold.old { slots = map_values (forgotten_stamp C.forgotten) hold.old.slots }) }
    ensures idle { OnOk result (AreIdle C.has_next hold.new.slots) }
    ensures fits { OnOk result (AllFit C.fits N.shape hold.new.slots journal.old) }
    ensures fresh { OnOk result (AreFresh N.shape hold.new.slots journal.old) }
    ensures seen { OnOk result (HasSeen pass.old pass.new journal.old) }
    ensures same { OnErr result ((hold.new ≡ hold.old) × (pass.new ≡ pass.old)) }
{
    let entries = journal.len();
    compare(journal, hold, pass)?;
    forget_all(hold);
    journal.tell(pass);
    Ok(entries)
}

/// Ends a step whose cells are held, and answers the entry's place. The journal has its entry more, the next values of
/// the cells that it touches are their values, and the pass has seen all of it. Where a number differs nothing has
/// changed; where the journal is full no entry and no cell has, so that the caller undoes the step.
pub fn commit<C: Cells, N: Named + Framed, const ROOM: usize>(
    journal: &mut Journal<N>,
    hold: &mut Hold<'_, Stamped<C, N>, ROOM>,
    pass: &mut Pass<N>,
    entry: Entry,
) -> Result<u32, CommitFault>
    requires seat { entry.call.seat ≡ pass.old.seat }
    requires cells { HasEntry C.fits C.has_next C.settled N.shape N.cells hold.old.slots entry }
    ensures ok { IsOk result ↔ (AreCurrent N.shape hold.old.slots pass.old journal.old × (length journal.old < N.capacity)) }
    ensures full { (f : JournalFull) → (result ≡ Err (Full f)) ↔ (AreCurrent N.shape hold.old.slots pass.old journal.old × (length journal.old ≡ N.capacity) × (f.entries ≡ N.capacity)) }
    ensures stale { (s : Stale) → result ≡ Err (IsStale s) → IsFirstStale N.shape N.cells hold.old.slots pass.old journal.old s }
    ensures place { IfOk result (λ n. n ≡ length journal.old) }
    ensures journal { OnOk result (journal.new ≡ journal.old ++ entry ∷ []) }
    ensures hold { OnOk result (hold.new ≡ record hold.old { slots = map_values (committed_stamp C.has_next C.settled journal.new) hold.old.slots }) }
    ensures fits { OnOk result (AllFit C.fits N.shape hold.new.slots journal.new) }
    ensures fresh { OnOk result (AreFresh N.shape hold.new.slots journal.new) }
    ensures added { OnOk result (HasAdded N.shape pass.old pass.new journal.old entry) }
    ensures same { OnErr result ((journal.new ≡ journal.old) × (hold.new ≡ hold.old)) }
    ensures seen { (f : JournalFull) → result ≡ Err (Full f) → HasSeen pass.old pass.new journal.old }
    ensures unseen { (s : Stale) → result ≡ Err (IsStale s) → pass.new ≡ pass.old }
{
    let place = journal.len();
    if let Err(stale) = compare(journal, hold, pass) {
        return Err(CommitFault::Stale(stale));
    }
    if journal.is_full() {
        journal.tell(pass);
        return Err(CommitFault::Full(JournalFull { entries: place }));
    }
    journal.enter(hold, entry);
    journal.note(pass);
    Ok(place)
}

/// Undoes a step that wasn't committed: the next values of all held cells are gone, and their values stay.
pub fn forget_all<C: Cells, N: Named + Framed, const ROOM: usize>(
    hold: &mut Hold<'_, Stamped<C, N>, ROOM>,
)
    ensures forgotten { hold.new ≡ record hold.old { slots = map_values (forgotten_stamp C.forgotten) hold.old.slots } }
    ensures idle { AreIdle C.has_next hold.new.slots }
    ensures fits { (h : List Entry) → AllFit C.fits N.shape hold.old.slots h → AllFit C.fits N.shape hold.new.slots h }
{
    for place in 0..hold.len() {
        hold.at(place).forget();
    }
}
