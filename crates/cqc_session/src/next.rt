// The next command of a message, or its DONE.
ghost use Rattle.std.specs.Prelude.{◌≡◌, ℕ};
ghost use Rattle.session_model.specs.Walk.{Connection};
ghost use Rattle.cqc_session.specs.Parts.{moment, NextAs, NextCause};

use crate::message::say;
use crate::program::Program;
use cqc_model::{Command, Reply};
use qron_link::Link;
use session_model::Ending;

/// The next command of the message that is open, with its app. Where none is left, DONE is written where it is due.
pub fn next_command<L: Link>(
    link: &mut L,
    program: &Program,
    opened: Option<u16>,
) -> Result<Option<(u16, Command)>, Ending>
    ensures next { (connection : Connection) (n : ℕ) → NextAs connection opened program.now.left program.now.notify
        (moment L.left L.held link.old n) (moment L.left L.held link.new n) result }
    ensures cause { NextCause result (L.write_faults link.old) (L.write_faults link.new) }
    ensures read_faults { L.read_faults link.new ≡ L.read_faults link.old }
    ensures led { L.was_led link.old link.new }
{
    let Some(app) = opened else { return Ok(None) };
    if let Some(command) = program.next() {
        return Ok(Some((app, command)));
    }
    if !program.done_due() {
        return Ok(None);
    }
    say(link, app, &Reply::Done)?;
    Ok(None)
}
