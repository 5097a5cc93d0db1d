// A session over a core that threads share.
ghost use Rattle.std.specs.Prelude.{◌≡◌, ◌<◌, ◌≤◌, length};
ghost use mathlib.Core.List.{IsPrefix};
ghost use Rattle.cqc_session.specs.declared.stage.Stage.TheVariants.{Closed};
ghost use Rattle.cqc_session.specs.Session.{EndCause};
ghost use Rattle.cqc_session.specs.Serving.{Served};
ghost use Rattle.cqc_session.specs.State.{begun};
ghost use Rattle.cqc_server.specs.Shared.{own, AreNextWorded, GaveUpEnough};

use cqc_session::{Core, Ending, Session, serve};
use history_front::Named;
use network_model::{Call, CoreReply, JournalFull};
use qron_link::{Dice, Link, Patience};
use quantum_hub::{Framed, Hub, Pass};
use std::sync::Wait;

// A shared core, as the worker of one seat sees it who serves a connection at a node.
#[derive(Drop)]
struct AtWork<'a, N: Named + Framed, R: Wait, D: Dice, P: Patience> {
    rt: &'a R,
    hub: &'a Hub<N>,
    pass: &'a mut Pass<N>,
    dice: &'a mut D,
    patience: &'a mut P,
    // Contracts alone ask for it.
    node: u8,
    // The journal was found full: nothing is executed any more.
    full: bool,
}

impl<N: Named + Framed, R: Wait, D: Dice, P: Patience> Core for AtWork<'_, N, R, D, P> {
    ghost use Rattle.std.specs.Prelude.{◌≡◌, ◌<◌, ◌≤◌, length, false};
    ghost use Rattle.std.proofs.Common.{refl, ◌∙◌};
    ghost use Rattle.cqc_server.specs.Shared.{own, HasWorked};
    ghost use Rattle.cqc_server.specs.SharedLaws.{worked_nothing, worked_on};

    ghost connection = { λ c. record { seat = D.begun_seat c.dice.now; serial = D.begun_serial c.dice.now; node = c.node } };

    ghost own = { λ c. own c.pass.now };

    ghost seen = { λ c. length c.pass.now.seen };

    ghost capacity = { λ c. N.capacity };

    // No more words were taken than the seat has entries, so the dice have more.
    ghost ready = { λ c. (c.node < length N.shape.places) × (D.begun_seat c.dice.now ≡ c.pass.now.seat) × (D.taken c.dice.now ≤ c.pass.now.made) × (c.full ≡ false) };

    ghost was_led = { λ a b.
        HasWorked D.word
        (record { pass = a.pass.now; key = D.key a.dice.now; seat = D.begun_seat a.dice.now; serial = D.begun_serial a.dice.now; taken = D.taken a.dice.now; gave_up = P.gave_up a.patience.now; full = a.full })
        (record { pass = b.pass.now; key = D.key b.dice.now; seat = D.begun_seat b.dice.now; serial = D.begun_serial b.dice.now; taken = D.taken b.dice.now; gave_up = P.gave_up b.patience.now; full = b.full })
        × (b.pass.ghost_name ≡ a.pass.ghost_name) × (b.dice.ghost_name ≡ a.dice.ghost_name) × (b.patience.ghost_name ≡ a.patience.ghost_name)
        × (P.times b.patience.now ≡ P.times a.patience.now) };

    ghost leads_nowhere = { λ a. (worked_nothing D.word _, refl, refl, refl, refl) };

    ghost leads_on = { λ a b c x y. (worked_on D.word _ _ _ x.0 y.0, y.1 ∙ x.1, y.2 ∙ x.2, y.3 ∙ x.3, y.4 ∙ x.4) };

    fn execute(&mut self, call: &Call) -> Result<CoreReply, JournalFull> {
        // the number is one of 32 bits
        let _made = self.pass.made();
        let done = self
            .hub
            .execute(self.rt, self.pass, call, self.dice, self.patience);
        self.full = done.is_err();
        done
    }
}

/// Begins the dice and serves a connection that has begun to its end, over a core that threads share. The connection
/// has the pass's seat. RECV and EPR_RECV that find no qubit wait as patience says. It takes no memory.
pub fn serve_session<'w, N: Named + Framed, L: Link, D: Dice, P: Patience>(
    rt: &'w impl Wait,
    hub: &'w Hub<N>,
    pass: &'w mut Pass<N>,
    session: &mut Session,
    link: &mut L,
    dice: &'w mut D,
    patience: &'w mut P,
) -> Ending
    requires begun { session.old ≡ begun session.old.connection session.old.cap }
    requires seat { session.old.connection.seat ≡ pass.old.seat }
    requires node { session.old.connection.node < length N.shape.places }

    // The bytes read, the entries that the pass made and the bytes written are those of the connection, as its ending says.
    ensures served { Served session.old.connection session.old.cap (L.left link.old) (L.left link.new) (L.held link.old) (L.held link.new)
        (own pass.old) (own pass.new) (length pass.new.seen) N.capacity result }

    // The words of these entries are the connection's, under the key of the dice.
    ensures worded { AreNextWorded (λ k. D.word (D.key dice.old) session.old.connection.seat session.old.connection.serial k) (own pass.old) (own pass.new) }
    ensures waited { GaveUpEnough (own pass.old) (own pass.new) (P.gave_up patience.old) (P.gave_up patience.new) }
    ensures seen { IsPrefix pass.old.seen pass.new.seen }
    ensures pass { pass.new.seat ≡ pass.old.seat }
    ensures key { D.key dice.new ≡ D.key dice.old }
    ensures gave_up { P.gave_up patience.old ≤ P.gave_up patience.new }
    ensures times { P.times patience.new ≡ P.times patience.old }
    ensures cause { EndCause result (L.read_faults link.old) (L.read_faults link.new) (L.write_faults link.old) (L.write_faults link.new) }
    ensures led { L.was_led link.old link.new }
    ensures closed { session.new.stage ≡ Closed }
    ensures connection { session.new.connection ≡ session.old.connection }
    ensures cap { session.new.cap ≡ session.old.cap }
{
    dice.begin(session.seat(), session.serial());
    let node = session.node();
    let mut core = AtWork {
        rt,
        hub,
        pass,
        dice,
        patience,
        node,
        full: false,
    };
    serve(&mut core, session, link)
}
