// A cell under its number, or nothing.
ghost use Rattle.std.specs.Borrow.{sem};
ghost use Rattle.std.specs.Prelude.{◌≡◌, Some, IsSome, option_map};
ghost use Rattle.held_board.specs.SeatLends.{LendsCell};

/// A cell under its number, or nothing.
#[derive(Drop)]
pub(crate) struct Seat<T> {
    pub(crate) number: u8,
    pub(crate) cell: Option<T>,
}

impl<T> Default for Seat<T> {
    fn default() -> Seat<T> {
        Seat {
            number: 0,
            cell: None,
        }
    }
}

impl<T> Seat<T> {
    /// Lends the cell.
    pub(crate) fn cell(&mut self) -> &mut T
        requires { IsSome self.old.cell }
        ensures* writes_back { sem 𝓛 (LendsCell T.row self.entry result) }
        ensures value { self.old.cell ≡ Some result.now }
    {
        match &mut self.cell {
            Some(cell) => cell,
            None => unreachable!(),
        }
    }

    /// Lends the cell to be read, where it is there.
    pub(crate) fn peek(&self) -> Option<&T>
        ensures { option_map (λ cell. cell.now) result ≡ self.now.cell }
    {
        match &self.cell {
            Some(cell) => Some(cell),
            None => None,
        }
    }
}
