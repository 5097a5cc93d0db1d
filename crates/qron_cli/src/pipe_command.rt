// One connection on the pipe, over a core of its own.
ghost use Rattle.std.specs.Prelude.{◌≡◌, ◌<◌, length, IfOk, [], ◌∷◌};
ghost use Rattle.cqc_server.specs.Record.{read_limit};
ghost use Rattle.cqc_session.specs.State.{begun};
ghost use Rattle.node_table.specs.Document.{IsInRange};
ghost use Rattle.qron_cli.specs.House.{Allows, ask_file};
ghost use Rattle.qron_cli.specs.Pipe.{pipe_connection, journal_of, PipeServed, PipeRan, PipeWithRan};
ghost use Rattle.qron_cli.specs.Statuses.{status_of};

use crate::files::settings_of;
use crate::house::House;
use crate::status::{Outcome, outcome_of};
use cqc_server::{READ_LIMIT, Told};
use cqc_session::{Session, serve_solo};
use factored_core::Solo;
use node_table::Settings;
use qron_link::{Dice, Link};
use session_model::Ending;
use std::alloc::{AllocError, Global};

// A core without entries, dice and a session that has begun, with all the room that they ever take.
#[derive(Drop)]
struct Opened<D: Dice + Drop> {
    solo: Solo,
    dice: D,
    session: Session,
}

fn open<D: Dice + Drop>(alloc: Global, settings: Settings, dice: D) -> Result<Opened<D>, AllocError>
    requires { IsInRange settings }
    ensures core { IfOk result (λ o. o.solo ≡ journal_of settings []) }
    ensures node { IfOk result (λ o. 0 < length o.solo.shape.places) }
    ensures key { IfOk result (λ o. D.key o.dice ≡ D.key dice) }
    ensures session { IfOk result (λ o. o.session ≡ begun pipe_connection read_limit) }
{
    let Settings { shape, journal, .. } = settings;
    let _nodes = shape.nodes();
    let solo = Solo::open(alloc, shape, journal)?;
    let mut session = Session::new(alloc, 0, 0, READ_LIMIT)?;
    session.begin(0);
    Ok(Opened {
        solo,
        dice,
        session,
    })
}

// The same with the house's dice of the seed.
fn open_with<H: House>(
    alloc: Global,
    settings: Settings,
    house: &mut H,
) -> Result<Opened<H::Dice>, AllocError>
    requires { IsInRange settings }
    ensures core { IfOk result (λ o. o.solo ≡ journal_of settings []) }
    ensures node { IfOk result (λ o. 0 < length o.solo.shape.places) }
    ensures key { IfOk result (λ o. H.Dice.key o.dice ≡ (H.facts house.old).keys settings.seed) }
    ensures session { IfOk result (λ o. o.session ≡ begun pipe_connection read_limit) }
    ensures facts { H.facts house.new ≡ H.facts house.old }
    ensures pipe { H.pipe_of house.new ≡ H.pipe_of house.old }
{
    let dice = house.dice(&settings.seed)?;
    open(alloc, settings, dice)
}

// Serves a connection over a core without entries.
fn serve_pipe<L: Link, D: Dice + Drop>(opened: &mut Opened<D>, link: &mut L) -> Ending
    requires core { opened.old.solo.entries ≡ [] }
    requires node { 0 < length opened.old.solo.shape.places }
    requires session { opened.old.session ≡ begun pipe_connection read_limit }
    ensures { PipeServed opened.old.solo.shape opened.old.solo.capacity (λ k. D.word (D.key opened.old.dice) 0 0 k) (⟦<L as Told>⟧.seen link.old) (⟦<L as Told>⟧.seen link.new) result }
{
    let ending = serve_solo(
        &mut opened.solo,
        &mut opened.session,
        link,
        &mut opened.dice,
    );
    // the journal's own contract says that its entries are a legal history
    let _entries = opened.solo.entries();
    ending
}

/// Serves one connection on the pipe, over a core of its own. All room is taken before the pipe is touched.
pub fn run_pipe<H: House>(alloc: Global, settings: Settings, house: &mut H) -> Outcome
    requires { IsInRange settings }
    ensures { PipeRan H.Dice.word settings (H.facts house.old) (H.facts house.new) (⟦<H::Pipe as Told>⟧.seen (H.pipe_of house.old)) (⟦<H::Pipe as Told>⟧.seen (H.pipe_of house.new)) (status_of result) }
{
    let mut opened = open_with(alloc, settings, house)?;
    let ending = serve_pipe(&mut opened, house.pipe());
    outcome_of(&ending)
}

/// The same with the settings of a file.
pub fn run_pipe_with<H: House>(alloc: Global, settings: &str, house: &mut H) -> Outcome
    requires { Allows (ask_file settings.now ∷ []) (H.facts house.old) }
    ensures { PipeWithRan H.Dice.word settings.now (H.facts house.old) (H.facts house.new) (⟦<H::Pipe as Told>⟧.seen (H.pipe_of house.old)) (⟦<H::Pipe as Told>⟧.seen (H.pipe_of house.new)) (status_of result) }
{
    let settings = settings_of(alloc, house, settings)?;
    run_pipe(alloc, settings, house)
}
