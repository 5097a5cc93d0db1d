//! The end of a prepared step.
ghost use Rattle.std.specs.Prelude.{◌≡◌};
ghost use Rattle.core_cells.specs.Cells.{settled, forgotten};
ghost use Rattle.factored_core.specs.Finish.{IsLeftBy};

use crate::prepared::Prepared;
use core_cells::{Board, Ending, end_all};

/// Ends a prepared step: the next values become the values.
pub fn finish<B: Board>(board: &mut B, prepared: Prepared)
    requires { IsLeftBy (B.cells board.old) prepared }
    ensures { B.cells board.new ≡ settled (B.cells board.old) }
{
    end_all(board, &prepared.touched, Ending::Settle);
}

/// Forgets a prepared step: the values stay, and nothing is prepared.
pub fn undo<B: Board>(board: &mut B, prepared: Prepared)
    requires { IsLeftBy (B.cells board.old) prepared }
    ensures { B.cells board.new ≡ forgotten (B.cells board.old) }
{
    end_all(board, &prepared.touched, Ending::Forget);
}
