// Talks: the messages of a script, and the replies to them.
ghost use Rattle.std.specs.Prelude.{◌≡◌, ◌+◌, ◌<◌, ◌≤◌, ◌^◌, ℕ, List, length, map, All, IfOk, MatchResult};
ghost use Rattle.cqc_model.specs.Wire.{head_app};
ghost use Rattle.script.specs.Sendable.{IsSendable};
ghost use Rattle.script.specs.Views.{sending_of};
ghost use Rattle.cqc_client.specs.Talk.{Said, Moved, EndsAs, talk_limit, LinkReadCause, LinkWriteCause, OutWriteCause};
ghost use Rattle.cqc_client.specs.Stops.{Sends, Exchanges, ReadFaults, SendFaults, PrintFaults};

use crate::hearing::hear;
use crate::stops::{Stop, talked_at};
use cqc_wire::{Head, write_message};
use qron_link::{Link, Sink, send_link};
use script::Message;
use std::alloc::{AllocError, Global};

/// How a talk ended. A message is answered whole where its last reply was read, which is HELLO, DONE or an error.
#[derive(Clone, Copy, PartialEq, Eq, Debug, Drop)]
pub enum Talked {
    /// All messages were answered whole.
    Done { messages: u32 },
    /// A read of the link failed.
    LinkRead,
    /// A write of the link failed.
    LinkWrite,
    /// A write of a line failed.
    OutWrite,
    /// The link ended before the last reply to a message. So many were answered whole.
    Cut { message: u32 },
    /// What came is no reply to the message, by its header or by its whole body. It has this type, and so many messages were
    /// answered whole.
    Strange { message: u32, kind: u8 },
    /// A reply was due after 2^32 bytes were read. So many messages were answered whole.
    Spent { message: u32 },
}

// The most bytes of a message: a header, and a body of the greatest length.
const MESSAGE_SIZE: usize = 8 + 65_536;

// The most bytes that a talk reads.
const TALK_LIMIT: u64 = 0x1_0000_0000;

// The app of a message.
fn app_of(head: &Head) -> u16
    ensures { result ≡ head_app head.now }
{
    match *head {
        Head::Hello { app } | Head::Commands { app } | Head::Factory { app, .. } => app,
    }
}

// Sends a message, which is spelled in a room.
fn send_message<L: Link>(link: &mut L, message: &Message, room: &mut [u8]) -> Result<(), Stop>
    requires sendable { IsSendable (sending_of message.now) }
    requires size { length room.old ≡ 65_544 }
    ensures sent { Sends result (sending_of message.now) (L.held link.old) (L.held link.new) }
    ensures sends { SendFaults result (L.write_faults link.old) (L.write_faults link.new) }
    ensures left { L.left link.new ≡ L.left link.old }
    ensures read_faults { L.read_faults link.new ≡ L.read_faults link.old }
    ensures led { L.was_led link.old link.new }
{
    let Ok(size) = write_message(room, &message.head, &message.list) else {
        unreachable!()
    };
    match send_link(link, &room[..size]) {
        Ok(()) => Ok(()),
        Err(_) => Err(Stop::NotSent),
    }
}

// Sends a message, and hears its replies.
fn exchange<L: Link, S: Sink>(
    message: &Message,
    room: &mut [u8],
    link: &mut L,
    out: &mut S,
    budget: &mut u64,
) -> Result<(), Stop>
    requires sendable { IsSendable (sending_of message.now) }
    requires size { length room.old ≡ 65_544 }
    ensures said { (said : Said) × Moved said (L.left link.old) (L.left link.new) (L.held link.old) (L.held link.new) (S.held out.old) (S.held out.new)
        × (budget.new + length said.read ≡ budget.old)
        × Exchanges result (sending_of message.now) said (L.left link.new) budget.new }
    ensures app { head_app message.now.head < 2 ^ 16 }
    ensures reads { ReadFaults result (L.read_faults link.old) (L.read_faults link.new) }
    ensures sends { SendFaults result (L.write_faults link.old) (L.write_faults link.new) }
    ensures prints { PrintFaults result (S.write_faults out.old) (S.write_faults out.new) }
    ensures led { L.was_led link.old link.new }
    ensures written { S.was_written out.old out.new }
{
    let app = app_of(&message.head);
    if let Err(stop) = send_message(link, message, room) {
        return Err(stop);
    }
    hear(link, app, out, budget)
}

// A talk over a room for its messages.
fn talk_in<L: Link, S: Sink>(
    room: &mut [u8],
    script: &[Message],
    link: &mut L,
    out: &mut S,
) -> Talked
    requires few { length script.now < 2 ^ 32 }
    requires sendable { All IsSendable (map sending_of script.now) }
    requires size { length room.old ≡ 65_544 }
    ensures said { (said : Said) × Moved said (L.left link.old) (L.left link.new) (L.held link.old) (L.held link.new) (S.held out.old) (S.held out.new)
        × (length said.read ≤ talk_limit) × EndsAs result (map sending_of script.now) said (L.left link.new) }
    ensures reads { LinkReadCause result (L.read_faults link.old) (L.read_faults link.new) }
    ensures sends { LinkWriteCause result (L.write_faults link.old) (L.write_faults link.new) }
    ensures prints { OutWriteCause result (S.write_faults out.old) (S.write_faults out.new) }
    ensures led { L.was_led link.old link.new }
    ensures written { S.was_written out.old out.new }
{
    let mut budget = TALK_LIMIT;
    let mut messages = 0;
    for message in script {
        if let Err(stop) = exchange(message, room, link, out, &mut budget) {
            return talked_at(stop, messages);
        }
        messages += 1;
    }
    Talked::Done { messages }
}

/// Sends each message of a script, reads its replies up to the last, which is HELLO, DONE or an error, and prints a line for each.
pub fn talk<L: Link, S: Sink>(
    alloc: Global,
    script: &[Message],
    link: &mut L,
    out: &mut S,
) -> Result<Talked, AllocError>
    requires few { length script.now < 2 ^ 32 }
    requires sendable { All IsSendable (map sending_of script.now) }
    ensures said { MatchResult result
        (λ answer. (said : Said)
        × Moved said (L.left link.old) (L.left link.new) (L.held link.old) (L.held link.new) (S.held out.old) (S.held out.new)
        × (length said.read ≤ talk_limit) × EndsAs answer (map sending_of script.now) said (L.left link.new))
        (λ _. (link.new ≡ link.old) × (out.new ≡ out.old)) }
    ensures reads { IfOk result (λ answer. LinkReadCause answer (L.read_faults link.old) (L.read_faults link.new)) }
    ensures writes { IfOk result (λ answer. LinkWriteCause answer (L.write_faults link.old) (L.write_faults link.new)) }
    ensures prints { IfOk result (λ answer. OutWriteCause answer (S.write_faults out.old) (S.write_faults out.new)) }
    ensures led { L.was_led link.old link.new }
    ensures written { S.was_written out.old out.new }
{
    let mut room = vec![in alloc; 0; MESSAGE_SIZE]?;
    Ok(talk_in(&mut room[..], script, link, out))
}
