// What came of connections, by how they ended.
ghost use Rattle.std.specs.Prelude.{◌≡◌, map};
ghost use Rattle.std.specs.List.{list_any};
ghost use Rattle.qron_cli.specs.Lines.{is_faulty, is_unfinished, outcome_of_all};

use crate::complaint::Complaint;
use crate::status::{Outcome, Work};
use cqc_server::{Actor, Served};
use qron_link::{Dice, Link};
use session_model::Ending;

/// A connection that may have ended.
pub trait Ended {
    ghost use Rattle.std.specs.Prelude.{Option};
    ghost use Rattle.session_model.specs.declared.Ending.{Ending};

    ghost ending: { Self → Option Ending };

    /// How it ended, if it has.
    fn ending(&self) -> Option<Ending>
        ensures { result ≡ ending self.now };
}

impl<L: Link, D: Dice> Ended for Actor<L, D> {
    ghost ending = { λ actor. actor.ending };

    fn ending(&self) -> Option<Ending> {
        self.ending
    }
}

impl<L> Ended for Served<L> {
    ghost use Rattle.std.specs.Prelude.{Some};

    ghost ending = { λ served. Some served.ending };

    fn ending(&self) -> Option<Ending> {
        Some(self.ending)
    }
}

/// What came of connections: a fault where a link failed, else unfinished work where an input was cut, the journal was
/// full, or the most bytes were read.
pub fn outcome_of_all<C: Ended>(connections: &[C]) -> Outcome
    ensures { result ≡ outcome_of_all (map C.ending connections.now) }
{
    if any_faulty(connections) {
        Err(Complaint::Fault)
    } else if any_unfinished(connections) {
        Ok(Work::Unfinished)
    } else {
        Ok(Work::Done)
    }
}

fn any_faulty<C: Ended>(connections: &[C]) -> bool
    ensures { result ≡ list_any (λ c. is_faulty (C.ending c)) connections.now }
{
    connections.iter().any(|one| is_faulty(&one.ending()))
}

fn any_unfinished<C: Ended>(connections: &[C]) -> bool
    ensures { result ≡ list_any (λ c. is_unfinished (C.ending c)) connections.now }
{
    connections.iter().any(|one| is_unfinished(&one.ending()))
}

// Whether a link failed.
fn is_faulty(ending: &Option<Ending>) -> bool
    ensures { result ≡ is_faulty ending.now }
{
    matches!(ending, Some(Ending::ReadFault | Ending::WriteFault))
}

// Whether an input was cut, the journal was full, or the most bytes were read.
fn is_unfinished(ending: &Option<Ending>) -> bool
    ensures { result ≡ is_unfinished ending.now }
{
    matches!(
        ending,
        Some(Ending::Cut { .. } | Ending::Full { .. } | Ending::Spent { .. })
    )
}
