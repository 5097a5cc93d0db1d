// A header and a body, each read whole, or how the connection ends.
ghost use Rattle.std.specs.Prelude.{◌≡◌, ℕ, ◌≤◌, ◌<◌, length, take, MatchResult};
ghost use Rattle.cqc_session.specs.Parts.{moment, Reads, HeadParted, BodyParted, WholeRead, PartCause, OnlyRead};

use crate::allowance::{Allowance, Part};
use qron_link::{Link, fill, skip};
use session_model::Ending;

/// Reads a header.
pub fn read_head<L: Link>(
    link: &mut L,
    head: &mut [u8; 8],
    allowance: &mut Allowance,
) -> Result<(), Ending>
    ensures head { MatchResult result
        (λ _. Reads (moment L.left L.held link.old allowance.old.left) (moment L.left L.held link.new allowance.new.left) head.new)
        (HeadParted allowance.old.cap (moment L.left L.held link.old allowance.old.left) (moment L.left L.held link.new allowance.new.left)) }
    ensures eight { length head.new ≡ 8 }
    ensures cap { allowance.new.cap ≡ allowance.old.cap }
    ensures cause { PartCause result (L.read_faults link.old) (L.read_faults link.new) }
    ensures link { OnlyRead L.held L.write_faults L.was_led link.old link.new }
{
    let filled = fill(link, head, &mut allowance.left);
    allowance.judge(Part::Head, filled)
}

/// Reads a body and passes it over.
pub fn pass_body<L: Link>(link: &mut L, size: u32, allowance: &mut Allowance) -> Result<(), Ending>
    ensures body { MatchResult result
        (λ _. WholeRead (moment L.left L.held link.old allowance.old.left) (moment L.left L.held link.new allowance.new.left) size)
        (BodyParted allowance.old.cap (moment L.left L.held link.old allowance.old.left) (moment L.left L.held link.new allowance.new.left) size) }
    ensures cap { allowance.new.cap ≡ allowance.old.cap }
    ensures cause { PartCause result (L.read_faults link.old) (L.read_faults link.new) }
    ensures link { OnlyRead L.held L.write_faults L.was_led link.old link.new }
{
    let filled = skip(link, size, &mut allowance.left);
    allowance.judge(Part::Body { size }, filled)
}

/// Reads a body into the front of a room.
pub fn keep_body<L: Link>(
    link: &mut L,
    room: &mut [u8],
    size: u32,
    allowance: &mut Allowance,
) -> Result<(), Ending>
    requires { size ≤ length room.old }
    ensures body { MatchResult result
        (λ _. Reads (moment L.left L.held link.old allowance.old.left) (moment L.left L.held link.new allowance.new.left) (take size room.new))
        (BodyParted allowance.old.cap (moment L.left L.held link.old allowance.old.left) (moment L.left L.held link.new allowance.new.left) size) }
    ensures cap { allowance.new.cap ≡ allowance.old.cap }
    ensures cause { PartCause result (L.read_faults link.old) (L.read_faults link.new) }
    ensures link { OnlyRead L.held L.write_faults L.was_led link.old link.new }
{
    let filled = fill(link, &mut room[..size as usize], &mut allowance.left);
    allowance.judge(Part::Body { size }, filled)
}
