// How many bytes of a connection may be read.
ghost use Rattle.std.specs.Prelude.{◌≡◌};
ghost use Rattle.cqc_session.specs.Parts.{IsShortOf, part_size, cut_in, part_end};

use qron_link::Filled;
use session_model::Ending;

/// How many bytes of a connection may be read in all, and how many of them still.
#[derive(Clone, Copy)]
pub struct Allowance {
    pub cap: u64,
    pub left: u64,
}

/// A part of a message.
#[derive(Clone, Copy)]
pub enum Part {
    Head,
    Body { size: u32 },
}

impl Allowance {
    /// Nothing was read.
    pub fn new(cap: u64) -> Allowance
        ensures { result ≡ record { cap = cap; left = cap } }
    {
        Allowance { cap, left: cap }
    }

    /// How the connection goes on after an attempt to read a part: the part is whole, or it is the end.
    pub fn judge(&self, part: Part, filled: Filled) -> Result<(), Ending>
        requires { IsShortOf filled (part_size part) }
        ensures { result ≡ part_end self.now.cap part filled }
    {
        match filled {
            Filled::Whole => Ok(()),
            Filled::Ended { have } => Err(cut_in(part, have as u32)),
            Filled::Failed => Err(Ending::ReadFault),
            Filled::Spent => Err(Ending::Spent { bytes: self.cap }),
        }
    }
}

// The end of a source after so many bytes of a part.
fn cut_in(part: Part, have: u32) -> Ending
    ensures { result ≡ cut_in part have }
{
    match part {
        Part::Head if have == 0 => Ending::Clean,
        Part::Head => Ending::Cut { have, need: 8 },
        Part::Body { size } => Ending::Cut { have, need: size },
    }
}
