// What a drill's history tells of its two connections.
ghost use Rattle.std.specs.Prelude.{◌≡◌, ◌==◌, ◌&&◌, if◌then◌else◌, None};
ghost use Rattle.cqc_client.specs.Tally.{told, equal, ones};

use network_model::{CoreReply, Entry};

/// How often two connections measured the same, and how often the first measured 1.
#[derive(Clone, Copy, PartialEq, Eq, Debug, Drop)]
pub struct Tally {
    /// The rounds in which both outcomes are the same.
    pub equal: usize,
    /// The rounds in which the first connection measured 1.
    pub ones: usize,
}

// The outcome that an entry tells of the first connection of a seat, if it tells one.
#[tactic(auto, unfolding(crate::specs::Tally::told))]
fn outcome_at(seat: u16, entry: &Entry) -> Option<bool>
    ensures { result ≡ (if (entry.now.call.seat == seat) && (entry.now.call.serial == 0) then told entry.now.reply else None) }
{
    if entry.call.seat == seat && entry.call.serial == 0 {
        match entry.reply {
            CoreReply::Outcome(bit) => Some(bit),
            _ => None,
        }
    } else {
        None
    }
}

// The rounds in which both connections measured the same.
fn equal(entries: &[Entry]) -> usize
    ensures { result ≡ equal entries.now }
{
    let first = entries.iter().filter_map(|entry| outcome_at(0, entry));
    let second = entries.iter().filter_map(|entry| outcome_at(1, entry));
    first.zip(second).filter(|both| both.0 == both.1).count()
}

// The rounds in which the first connection measured 1.
fn ones(entries: &[Entry]) -> usize
    ensures { result ≡ ones entries.now }
{
    let first = entries.iter().filter_map(|entry| outcome_at(0, entry));
    first.filter(|bit| *bit).count()
}

impl Tally {
    /// Counts the outcomes of the connections of seats 0 and 1, which are paired in their order.
    pub fn of(entries: &[Entry]) -> Tally
        ensures equal { result.equal ≡ equal entries.now }
        ensures ones { result.ones ≡ ones entries.now }
    {
        Tally {
            equal: equal(entries),
            ones: ones(entries),
        }
    }
}
