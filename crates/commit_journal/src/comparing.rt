// Stamps and passes, compared with the numbers that the journal keeps.
ghost use Rattle.std.specs.Prelude.{◌≡◌, ◌≢◌, ◌<◌, length, OnOk, IfErr, IfSome};
ghost use mathlib.Core.List.{IsPrefix};
ghost use Rattle.commit_journal.specs.Keeping.{LastTouch, own_count};
ghost use Rattle.commit_journal.specs.Views.{IsCounted};
ghost use Rattle.commit_journal.specs.Holding.{AllFit, AreFresh};
ghost use Rattle.commit_journal.specs.Commits.{AreCurrent, IsStaleCell, IsStalePass, IsFirstStale};

use crate::cells::{Cells, Framed};
use crate::fault::Stale;
use crate::journal::Journal;
use crate::pass::Pass;
use crate::stamped::Stamped;
use history_front::Named;
use register_locks::Hold;

// Compares the held cells' stamps and the pass's number of entries with the journal's numbers.
pub(crate) fn compare<C: Cells, N: Named + Framed, const ROOM: usize>(
    journal: &mut Journal<N>,
    hold: &mut Hold<'_, Stamped<C, N>, ROOM>,
    pass: &mut Pass<N>,
) -> Result<(), Stale>
    ensures journal { journal.new ≡ journal.old }
    ensures hold { hold.new ≡ hold.old }
    ensures pass { pass.new ≡ pass.old }
    ensures current { OnOk result (AreCurrent N.shape hold.old.slots pass.old journal.old) }
    ensures fits { OnOk result (AllFit C.fits N.shape hold.old.slots journal.old) }
    ensures prefix { OnOk result (IsPrefix pass.old.seen journal.old) }
    ensures kept { OnOk result ((pass.old.made ≡ own_count pass.old.seat pass.old.seen) × (pass.old.seat < N.seats)) }
    ensures stale { IfErr result (λ s. IsFirstStale N.shape N.cells hold.old.slots pass.old journal.old s) }
{
    compare_cells(journal, hold)?;
    journal.counted(pass)
}

// Compares the held cells' stamps with the journal's numbers.
fn compare_cells<C: Cells, N: Named + Framed, const ROOM: usize>(
    journal: &mut Journal<N>,
    hold: &mut Hold<'_, Stamped<C, N>, ROOM>,
) -> Result<(), Stale>
    ensures journal { journal.new ≡ journal.old }
    ensures hold { hold.new ≡ hold.old }
    ensures fits { OnOk result (AllFit C.fits N.shape hold.old.slots journal.old) }
    ensures fresh { OnOk result (AreFresh N.shape hold.old.slots journal.old) }
    ensures stale { IfErr result (λ s. IsStaleCell N.shape hold.old.slots journal.old s) }
{
    for place in 0..hold.len() {
        if let Err(stale) = journal.fresh(hold.at(place)) {
            return Err(stale);
        }
    }
    Ok(())
}

impl<N: Named + Framed> Journal<N> {
    /// Whether the cell's stamp is the kept number. Where it is, the cell fits the whole journal.
    pub(crate) fn fresh<C: Cells>(&mut self, cell: &mut Stamped<C, N>) -> Result<(), Stale>
        ensures same { self.new ≡ self.old }
        ensures cell { cell.new ≡ cell.old }
        ensures ok { OnOk result (IfSome cell.old.cell (λ c. C.fits N.shape cell.old.number c self.old) × LastTouch N.shape cell.old.number self.old (length cell.old.seen)) }
        ensures stale { IfErr result (λ s. (s.number ≡ cell.old.number) × (s.found ≡ length cell.old.seen) × LastTouch N.shape cell.old.number self.old s.kept × (s.kept ≢ s.found)) }
    {
        let number = cell.number;
        let found = cell.stamp;
        let kept = self.kept[number as usize];
        if kept != found {
            return Err(Stale {
                number,
                kept,
                found,
            });
        }
        let front = cell.front.copy(&self.history);
        self.pen.meet(&self.history, front);
        Ok(())
    }

    /// Whether the pass's number of entries is the kept number.
    pub(crate) fn counted(&mut self, pass: &mut Pass<N>) -> Result<(), Stale>
        ensures same { self.new ≡ self.old }
        ensures pass { pass.new ≡ pass.old }
        ensures prefix { OnOk result (IsPrefix pass.old.seen self.old) }
        ensures counted { OnOk result (IsCounted pass.old self.old) }
        ensures kept { (pass.old.made ≡ own_count pass.old.seat pass.old.seen) × (pass.old.seat < N.seats) }
        ensures stale { IfErr result (λ s. IsStalePass N.cells pass.old self.old s) }
    {
        let seat = pass.seat;
        let found = pass.made;
        let kept = self.made[seat as usize];
        if kept != found {
            return Err(Stale {
                number: self.kept.len() as u16 + seat,
                kept,
                found,
            });
        }
        let front = pass.front.copy(&self.history);
        self.pen.meet(&self.history, front);
        Ok(())
    }
}
