// A whole session over a core with a journal.
ghost use Rattle.std.specs.Prelude.{◌≡◌, ◌≤◌, ◌<◌, length};
ghost use Rattle.cqc_session.specs.declared.stage.Stage.TheVariants.{Closed};
ghost use Rattle.cqc_session.specs.Session.{EndCause};
ghost use Rattle.cqc_session.specs.Serving.{Served, WordedAfter};
ghost use Rattle.cqc_session.specs.State.{begun};

use crate::over_core::{Core, serve};
use crate::session::Session;
use factored_core::Solo;
use network_model::{Call, CoreReply, JournalFull};
use qron_link::{Dice, Link};
use session_model::Ending;

// A core with a journal, and the dice of the connection that it serves at a node.
#[derive(Drop)]
struct WithDice<'a, D: Dice> {
    solo: &'a mut Solo,
    dice: &'a mut D,
    // Contracts alone ask for it.
    node: u8,
}

impl<D: Dice> Core for WithDice<'_, D> {
    ghost use Rattle.std.specs.Prelude.{◌≡◌, ◌≤◌, ◌<◌, length};
    ghost use Rattle.std.proofs.Common.{refl, ◌∙◌};
    ghost use Rattle.cqc_session.specs.Solo.{HasServed};
    ghost use Rattle.cqc_session.specs.SoloLaws.{served_nothing, served_on};

    ghost connection = { λ c. record { seat = D.begun_seat c.dice.now; serial = D.begun_serial c.dice.now; node = c.node } };

    ghost own = { λ c. c.solo.now.entries };

    ghost seen = { λ c. length c.solo.now.entries };

    ghost capacity = { λ c. c.solo.now.capacity };

    // No more words were taken than there are entries, so the dice have more.
    ghost ready = { λ c. (c.node < length c.solo.now.shape.places) × (D.taken c.dice.now ≤ length c.solo.now.entries) };

    ghost was_led = { λ a b.
        HasServed D.word
        (record { journal = a.solo.now; key = D.key a.dice.now; seat = D.begun_seat a.dice.now; serial = D.begun_serial a.dice.now; taken = D.taken a.dice.now })
        (record { journal = b.solo.now; key = D.key b.dice.now; seat = D.begun_seat b.dice.now; serial = D.begun_serial b.dice.now; taken = D.taken b.dice.now })
        × (b.solo.ghost_name ≡ a.solo.ghost_name) × (b.dice.ghost_name ≡ a.dice.ghost_name) };

    ghost leads_nowhere = { λ a. (served_nothing D.word _, refl, refl) };

    ghost leads_on = { λ a b c x y. (served_on D.word _ _ _ x.0 y.0, y.1 ∙ x.1, y.2 ∙ x.2) };

    fn execute(&mut self, call: &Call) -> Result<CoreReply, JournalFull> {
        self.solo.facts();
        self.solo.execute(call, self.dice)
    }
}

/// Begins the dice and serves a connection that has begun to its end. RECV and EPR_RECV that find no qubit are
/// answered TIMEOUT at once.
pub fn serve_solo<L: Link, D: Dice>(
    solo: &mut Solo,
    session: &mut Session,
    link: &mut L,
    dice: &mut D,
) -> Ending
    requires begun { session.old ≡ begun session.old.connection session.old.cap }
    requires node { session.old.connection.node < length solo.old.shape.places }

    // The bytes read, the entries added and the bytes written are those of the connection, as its ending says.
    ensures served { Served session.old.connection session.old.cap (L.left link.old) (L.left link.new) (L.held link.old) (L.held link.new)
        solo.old.entries solo.new.entries (length solo.new.entries) solo.old.capacity result }

    // The words of the entries added are the connection's, under the key of the dice, and no other was taken.
    ensures worded { WordedAfter (λ k. D.word (D.key dice.old) session.old.connection.seat session.old.connection.serial k)
        solo.old.entries solo.new.entries (D.taken dice.new) }
    ensures journal { solo.new ≡ record solo.old { entries = solo.new.entries } }
    ensures key { D.key dice.new ≡ D.key dice.old }
    ensures cause { EndCause result (L.read_faults link.old) (L.read_faults link.new) (L.write_faults link.old) (L.write_faults link.new) }
    ensures led { L.was_led link.old link.new }
    ensures closed { session.new.stage ≡ Closed }
    ensures connection { session.new.connection ≡ session.old.connection }
    ensures cap { session.new.cap ≡ session.old.cap }
{
    dice.begin(session.seat(), session.serial());
    let node = session.node();
    let mut core = WithDice { solo, dice, node };
    serve(&mut core, session, link)
}
