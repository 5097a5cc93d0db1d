// The bytes of what the core answered.
ghost use Rattle.std.specs.Prelude.{◌≡◌, ℕ, [], ◌≤◌, length, take, MatchOption};
ghost use Rattle.cqc_model.specs.Wire.{spell, reply_limit};
ghost use Rattle.session_model.specs.Walk.{spell_core};
ghost use Rattle.network_model.specs.History.{is_error};
ghost use Rattle.cqc_session.specs.Session.{answer_text};

use cqc_model::{Fault, Reply};
use cqc_wire::write_reply;
use network_model::{CoreReply, JournalFull};

// The reply on the wire; None where the core is silent.
fn wire_reply(reply: &CoreReply) -> Option<Reply>
    ensures { (app : ℕ) → MatchOption result (spell_core app reply.now ≡ []) (λ r. spell_core app reply.now ≡ spell app r) }
{
    match *reply {
        CoreReply::Silent => None,
        CoreReply::New(id) => Some(Reply::New(id)),
        CoreReply::Received(id) => Some(Reply::Received(id)),
        CoreReply::Outcome(bit) => Some(Reply::Outcome(bit)),
        CoreReply::Pair(id, info) => Some(Reply::Pair(id, info)),
        CoreReply::Error(fault) => Some(Reply::Error(fault)),
    }
}

/// Whether the core refused.
#[tactic(auto, unfolding(network_model::specs::History::is_error))]
pub fn refused(reply: &CoreReply) -> bool
    ensures { result ≡ is_error reply.now }
{
    matches!(reply, CoreReply::Error(_))
}

/// Writes the bytes of an answer to the front of `out`, and gives their number. A full journal is answered GENERAL.
pub fn write_answer(out: &mut [u8], app: u16, done: &Result<CoreReply, JournalFull>) -> usize
    requires { reply_limit ≤ length out.old }
    ensures fits { result ≤ length out.new }
    ensures bytes { take result out.new ≡ answer_text app done.now }
{
    match done {
        Ok(reply) => match wire_reply(reply) {
            None => 0,
            Some(reply) => write_reply(out, app, &reply),
        },
        Err(_) => write_reply(out, app, &Reply::Error(Fault::General)),
    }
}
