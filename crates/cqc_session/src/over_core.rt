// The core as a session sees it, and a session over it.
ghost use Rattle.std.specs.Prelude.{◌≡◌, ◌≢◌, ℕ, List, MatchResult, OnOk};
ghost use Rattle.cqc_model.specs.declared.Instr.TheVariants.{Allocate};
ghost use Rattle.session_model.specs.Walk.{between, call_of};
ghost use Rattle.cqc_session.specs.Session.{EndCause};
ghost use Rattle.cqc_session.specs.declared.stage.Stage.TheVariants.{Closed, Ready};
ghost use Rattle.cqc_session.specs.Serving.{Added, WasFull, Served};

use crate::session::Session;
use crate::turn::Turn;
use network_model::{Call, CoreReply, JournalFull};
use qron_link::Link;
use session_model::Ending;

/// A core with a journal, as one connection sees it.
pub trait Core {
    ghost use Rattle.network_model.specs.declared.Entry.{Entry};
    ghost use Rattle.session_model.specs.Walk.{Connection};

    /// The connection that it serves.
    ghost connection: { Self → Connection };

    /// The entries of this connection.
    ghost own: { Self → List Entry };

    /// How many entries the history has that it has seen.
    ghost seen: { Self → ℕ };

    ghost capacity: { Self → ℕ };

    /// It can execute a call of its connection, and can still after each that the journal had room for.
    ghost ready: { Self → Type 0 };

    /// Calls lead from the one to the other.
    ghost was_led: { Self → Self → Type 0 };

    /// Executes a call, which is one entry more of this connection; or the journal is full.
    fn execute(&mut self, call: &Call) -> Result<CoreReply, JournalFull>
        requires ready { ready self.old }
        requires ours { call.now ≡ call_of (connection self.old) call.now.app call.now.command }
        requires allowed { call.now.command.instr ≢ Allocate }
        ensures step { MatchResult result (λ reply. Added call.now reply (own self.old) (own self.new))
            (λ e. WasFull e (capacity self.old) (seen self.new) (own self.old) (own self.new)) }
        ensures capacity { capacity self.new ≡ capacity self.old }
        ensures connection { connection self.new ≡ connection self.old }
        ensures still { OnOk result (ready self.new) }
        ensures led { was_led self.old self.new };

    ghost leads_nowhere: { (core : Self) → was_led core core };

    ghost leads_on: { (a b c : Self) → was_led a b → was_led b c → was_led a c };
}

/// Serves a connection to its end.
pub fn serve<L: Link, K: Core>(core: &mut K, session: &mut Session, link: &mut L) -> Ending
    requires ours { session.old.connection ≡ K.connection core.old }
    requires ready { session.old.stage ≡ Ready }
    requires fresh { session.old.work ≡ between }
    requires unread { session.old.budget ≡ session.old.cap }
    requires core { K.ready core.old }
    ensures served { Served session.old.connection session.old.cap (L.left link.old) (L.left link.new) (L.held link.old) (L.held link.new)
        (K.own core.old) (K.own core.new) (K.seen core.new) (K.capacity core.old) result }
    ensures cause { EndCause result (L.read_faults link.old) (L.read_faults link.new) (L.write_faults link.old) (L.write_faults link.new) }
    ensures led { K.was_led core.old core.new }
    ensures link { L.was_led link.old link.new }
    ensures closed { session.new.stage ≡ Closed }
    ensures connection { session.new.connection ≡ session.old.connection }
    ensures cap { session.new.cap ≡ session.old.cap }
{
    loop {
        let call = match session.poll(link) {
            Turn::End(ending) => return ending,
            Turn::Execute(call) => call,
        };
        let done = core.execute(&call);
        if let Some(ending) = session.answer(link, done) {
            return ending;
        }
    }
}
