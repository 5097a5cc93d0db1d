// One message: read whole, and answered where its answer is fixed, else opened.
ghost use Rattle.std.specs.Prelude.{◌≡◌, ℕ, ◌≤◌, ◌<◌, length, MatchResult};
ghost use Rattle.session_model.specs.Walk.{Connection};
ghost use Rattle.cqc_session.specs.Parts.{moment, BodyTaken, BodyParted, PartCause, OnlyRead, TakenAs, ResultCause};

use crate::allowance::Allowance;
use crate::message::{Asked, asked_by, say};
use crate::part::{pass_body, read_head};
use crate::program::Program;
use cqc_model::{Header, Reply};
use cqc_wire::read_header;
use qron_link::Link;
use session_model::Ending;

/// Takes one message. Where it is opened, its app; None where it was answered.
pub fn take_message<L: Link>(
    link: &mut L,
    program: &mut Program,
    allowance: &mut Allowance,
) -> Result<Option<u16>, Ending>
    ensures taken { (connection : Connection) → TakenAs connection allowance.old.cap (moment L.left L.held link.old allowance.old.left) (moment L.left L.held link.new allowance.new.left)
        program.new.left program.new.notify result }
    ensures cap { allowance.new.cap ≡ allowance.old.cap }
    ensures cause { ResultCause result (L.read_faults link.old) (L.read_faults link.new) (L.write_faults link.old) (L.write_faults link.new) }
    ensures led { L.was_led link.old link.new }
{
    let mut head = [0u8; 8];
    read_head(link, &mut head, allowance)?;
    let header = read_header(&head);
    match take_body(link, program, &header, allowance)? {
        None => Ok(Some(header.app)),
        Some(reply) => {
            say(link, header.app, &reply)?;
            Ok(None)
        }
    }
}

// Reads the body of a message. The one answer to it; None where it was opened.
fn take_body<L: Link>(
    link: &mut L,
    program: &mut Program,
    header: &Header,
    allowance: &mut Allowance,
) -> Result<Option<Reply>, Ending>
    ensures body { MatchResult result
        (BodyTaken header.now (moment L.left L.held link.old allowance.old.left) (moment L.left L.held link.new allowance.new.left) program.new.left program.new.notify)
        (BodyParted allowance.old.cap (moment L.left L.held link.old allowance.old.left) (moment L.left L.held link.new allowance.new.left) header.now.length) }
    ensures cap { allowance.new.cap ≡ allowance.old.cap }
    ensures cause { PartCause result (L.read_faults link.old) (L.read_faults link.new) }
    ensures link { OnlyRead L.held L.write_faults L.was_led link.old link.new }
{
    match asked_by(header) {
        Asked::Fixed(reply) => {
            pass_body(link, header.length, allowance)?;
            Ok(Some(reply))
        }
        Asked::List { factory } => {
            program.load(link, header.length, allowance)?;
            match program.open(factory) {
                Ok(()) => Ok(None),
                Err(fault) => Ok(Some(Reply::Error(fault))),
            }
        }
    }
}
