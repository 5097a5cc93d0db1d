//! Rows of a register, and their bits.
ghost use Rattle.std.specs.Prelude.{◌≡◌, ◌<◌, ◌^◌};
ghost use Rattle.state_model.specs.Row.{inserted};

/// The row with the bit put in at the place; those from there on move up by one.
pub(crate) fn with_inserted(row: u16, place: u8, bit: bool) -> u16
    requires place { place < 12 }
    requires row { row < 2 ^ 11 }
    ensures { result ≡ inserted place bit row }
{
    let step = 1 << place;
    let low = row % step;
    let moved = 2 * (row - low) + low;
    if bit { moved + step } else { moved }
}
