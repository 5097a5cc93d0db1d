// Reading and writing so many bytes, in whatever pieces a link takes and gives them.
ghost use Rattle.std.specs.Prelude.{◌≡◌, ℕ, ◌≤◌, List, length, take, is_ok};
ghost use Rattle.qron_link.specs.Transfers.{Took, FilledAs, FilledCause, Sent, SentCause};

use crate::{Got, Link, NotSent, Put, Sink, read_link};

/// How an attempt to read so many bytes ended.
#[derive(Clone, Copy, PartialEq, Eq, Debug, Drop)]
pub enum Filled {
    /// All of them were read.
    Whole,
    /// The source ended, after so many of them.
    Ended { have: usize },
    /// A read failed.
    Failed,
    /// No more bytes may be read.
    Spent,
}

/// Reads until the room is full. At most `budget` bytes are read, which is lowered by those that are.
pub fn fill<L: Link>(link: &mut L, room: &mut [u8], budget: &mut u64) -> Filled
    ensures took { (taken : List ℕ) × Took (L.left link.old) (L.left link.new) budget.old budget.new taken
        × FilledAs result (L.left link.new) budget.new (length room.old) taken × (taken ≡ take (length taken) room.new) }
    ensures cause { FilledCause result (L.read_faults link.old) (L.read_faults link.new) }
    ensures held { L.held link.new ≡ L.held link.old }
    ensures write_faults { L.write_faults link.new ≡ L.write_faults link.old }
    ensures led { L.was_led link.old link.new }
{
    let mut have = 0;
    while have < room.len() {
        if *budget == 0 {
            return Filled::Spent;
        }
        let most = (room.len() - have).min(*budget as usize);
        match read_link(link, &mut room[have..have + most]) {
            Got::Bytes(n) => {
                have += n;
                *budget -= n as u64;
            }
            Got::End => return Filled::Ended { have },
            Got::Failed => return Filled::Failed,
        }
    }
    Filled::Whole
}

/// Reads so many bytes and passes them over.
pub fn skip<L: Link>(link: &mut L, size: u32, budget: &mut u64) -> Filled
    ensures took { (taken : List ℕ) × Took (L.left link.old) (L.left link.new) budget.old budget.new taken
        × FilledAs result (L.left link.new) budget.new size taken }
    ensures cause { FilledCause result (L.read_faults link.old) (L.read_faults link.new) }
    ensures held { L.held link.new ≡ L.held link.old }
    ensures write_faults { L.write_faults link.new ≡ L.write_faults link.old }
    ensures led { L.was_led link.old link.new }
{
    let size = size as usize;
    let mut scratch = [0u8; 512];
    let mut done = 0;
    while done < size {
        let most = (size - done).min(512);
        match fill(link, &mut scratch[..most], budget) {
            Filled::Whole => done += most,
            Filled::Ended { have } => return Filled::Ended { have: done + have },
            Filled::Failed => return Filled::Failed,
            Filled::Spent => return Filled::Spent,
        }
    }
    Filled::Whole
}

/// Writes all of a piece, in as many writes as that takes.
pub fn send<S: Sink>(sink: &mut S, piece: &[u8]) -> Result<(), NotSent>
    ensures sent { (done : ℕ) × Sent (is_ok result) (S.held sink.old) (S.held sink.new) piece.now done }
    ensures cause { SentCause (is_ok result) (S.write_faults sink.old) (S.write_faults sink.new) }
    ensures step { S.was_written sink.old sink.new }
{
    let mut done = 0;
    while done < piece.len() {
        match sink.write(&piece[done..]) {
            Put::Bytes(n) => done += n,
            Put::Failed => return Err(NotSent),
        }
    }
    Ok(())
}

/// Writes all of a piece to a link, with what stays of its other side.
pub fn send_link<L: Link>(link: &mut L, piece: &[u8]) -> Result<(), NotSent>
    ensures sent { (done : ℕ) × Sent (is_ok result) (L.held link.old) (L.held link.new) piece.now done }
    ensures cause { SentCause (is_ok result) (L.write_faults link.old) (L.write_faults link.new) }
    ensures left { L.left link.new ≡ L.left link.old }
    ensures read_faults { L.read_faults link.new ≡ L.read_faults link.old }
    ensures led { L.was_led link.old link.new }
{
    send(link, piece)
}
