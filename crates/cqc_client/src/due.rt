// Reading a reply that is due.
ghost use Rattle.std.specs.Prelude.{◌≡◌, ◌^◌, ◌<◌, ◌↔◌, ◌++◌, ℕ, List, length, take, IsTrue};
ghost use Rattle.qron_link.specs.Transfers.{Took};
ghost use Rattle.cqc_model.specs.Wire.{header_of, header_bytes};
ghost use Rattle.cqc_client.specs.Replies.{BeginsReply};
ghost use Rattle.cqc_client.specs.Stops.{FillsDue, ReadsDue, ReadFaults};

use crate::stops::Stop;
use cqc_wire::{Header, Reply, read_header, read_reply, size_of_kind};
use qron_link::{Filled, Link, fill};

// The version of each reply.
const VERSION: u8 = 2;

// The most bytes behind the header of a reply.
const BODY_SIZE: usize = 42;

// The header that eight bytes are, which are its bytes again.
fn header_in(front: &[u8; 8]) -> Header
    ensures is { result ≡ header_of front.now }
    ensures bytes { header_bytes result ≡ front.now }
{
    read_header(front)
}

// Whether some reply to an app has this header.
fn begins_reply(head: &Header, app: u16) -> bool
    ensures { IsTrue result ↔ BeginsReply app head.now }
{
    if head.version != VERSION {
        return false;
    }
    if head.app != app {
        return false;
    }
    match size_of_kind(head.kind) {
        Some(size) => head.length as usize == size,
        None => false,
    }
}

// Reads until the room is full. Where no byte may be read any more, `Spent` is told first.
fn fill_due<L: Link>(link: &mut L, room: &mut [u8], budget: &mut u64) -> Result<(), Stop>
    ensures took { (taken : List ℕ) × Took (L.left link.old) (L.left link.new) budget.old budget.new taken
        × FillsDue result taken (length room.old) (L.left link.new) budget.new × (taken ≡ take (length taken) room.new) }
    ensures reads { ReadFaults result (L.read_faults link.old) (L.read_faults link.new) }
    ensures held { L.held link.new ≡ L.held link.old }
    ensures write_faults { L.write_faults link.new ≡ L.write_faults link.old }
    ensures led { L.was_led link.old link.new }
{
    match fill(link, room, budget) {
        Filled::Whole => Ok(()),
        Filled::Ended { .. } if *budget > 0 => Err(Stop::Ended),
        Filled::Failed if *budget > 0 => Err(Stop::NotRead),
        Filled::Ended { .. } | Filled::Failed | Filled::Spent => Err(Stop::Spent),
    }
}

// Reads the body of a reply into a room of its length.
fn read_body<L: Link>(
    link: &mut L,
    head: &Header,
    room: &mut [u8],
    budget: &mut u64,
) -> Result<Reply, Stop>
    requires app { head.now.app < 2 ^ 16 }
    requires begins { BeginsReply head.now.app head.now }
    requires size { length room.old ≡ head.now.length }
    ensures took { (taken : List ℕ) × Took (L.left link.old) (L.left link.new) budget.old budget.new taken
        × ReadsDue result head.now.app (header_bytes head.now ++ taken) (L.left link.new) budget.new }
    ensures reads { ReadFaults result (L.read_faults link.old) (L.read_faults link.new) }
    ensures held { L.held link.new ≡ L.held link.old }
    ensures write_faults { L.write_faults link.new ≡ L.write_faults link.old }
    ensures led { L.was_led link.old link.new }
{
    if let Err(stop) = fill_due(link, room, budget) {
        return Err(stop);
    }
    match read_reply(head, room) {
        Some(reply) => Ok(reply),
        None => Err(Stop::Strange { kind: head.kind }),
    }
}

/// Reads a reply to an app. It is strange where its header is that of none, which is told before its body is read, or where its
/// body makes it none.
pub(crate) fn read_due<L: Link>(link: &mut L, app: u16, budget: &mut u64) -> Result<Reply, Stop>
    ensures took { (taken : List ℕ) × Took (L.left link.old) (L.left link.new) budget.old budget.new taken
        × ReadsDue result app taken (L.left link.new) budget.new }
    ensures reads { ReadFaults result (L.read_faults link.old) (L.read_faults link.new) }
    ensures held { L.held link.new ≡ L.held link.old }
    ensures write_faults { L.write_faults link.new ≡ L.write_faults link.old }
    ensures led { L.was_led link.old link.new }
{
    let mut front = [0; 8];
    if let Err(stop) = fill_due(link, &mut front, budget) {
        return Err(stop);
    }
    let head = header_in(&front);
    if !begins_reply(&head, app) {
        return Err(Stop::Strange { kind: head.kind });
    }
    let mut body = [0; BODY_SIZE];
    read_body(link, &head, &mut body[..head.length as usize], budget)
}
