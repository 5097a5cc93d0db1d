// One message, read whole and answered or opened.
ghost use Rattle.std.specs.Prelude.{◌≡◌, ℕ, ◌<◌, ◌≤◌, IfErr, is_ok};
ghost use Rattle.cqc_model.specs.Wire.{spell};
ghost use Rattle.session_model.specs.declared.Ending.TheVariants.{WriteFault};
ghost use Rattle.cqc_session.specs.Parts.{AskedAs};
ghost use Rattle.qron_link.specs.Transfers.{Sent, SentCause};

use cqc_model::{BODY_LIMIT, Fault, Header, Reply};
use cqc_wire::{kind, write_reply};
use qron_link::{Link, NotSent, send_link};
use session_model::Ending;

// The version of all messages.
const VERSION: u8 = 2;

/// What a header says of its message.
#[derive(Drop)]
pub enum Asked {
    /// The body is passed over, and this is the answer.
    Fixed(Reply),
    /// The body is a command list, or a FACTORY's.
    List { factory: bool },
}

/// What a header says of its message: the order of the tests is the order of the refusals.
pub fn asked_by(header: &Header) -> Asked
    ensures { AskedAs header.now result }
{
    if header.version != VERSION {
        return Asked::Fixed(Reply::Error(Fault::Unsupported));
    }
    let factory = match header.kind {
        kind::HELLO | kind::COMMAND => false,
        kind::FACTORY => true,
        _ => return Asked::Fixed(Reply::Error(Fault::Unsupported)),
    };
    if header.length > BODY_LIMIT {
        return Asked::Fixed(Reply::Error(Fault::General));
    }
    if header.kind == kind::HELLO {
        return Asked::Fixed(Reply::Hello);
    }
    Asked::List { factory }
}

/// Writes a reply.
pub fn say<L: Link>(link: &mut L, app: u16, reply: &Reply) -> Result<(), Ending>
    ensures sent { (done : ℕ) × Sent (is_ok result) (L.held link.old) (L.held link.new) (spell app reply.now) done }
    ensures fault { IfErr result (λ ending. ending ≡ WriteFault) }
    ensures cause { SentCause (is_ok result) (L.write_faults link.old) (L.write_faults link.new) }
    ensures left { L.left link.new ≡ L.left link.old }
    ensures read_faults { L.read_faults link.new ≡ L.read_faults link.old }
    ensures led { L.was_led link.old link.new }
{
    let mut out = [0u8; 50];
    let size = write_reply(&mut out, app, reply);
    match send_link(link, &out[..size]) {
        Ok(()) => Ok(()),
        Err(NotSent) => Err(Ending::WriteFault),
    }
}
