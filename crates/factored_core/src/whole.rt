//! A core: all cells of a network in one value.
ghost use Rattle.std.specs.Prelude.{◌≡◌, ◌+◌, ◌<◌, ◌^◌, [], IfOk, MatchOption};
ghost use Rattle.core_cells.specs.Owned.{cells_of};
ghost use Rattle.factored_core.specs.Core.{IsCore, IsCoreStep, StandsFor};
ghost use Rattle.factored_core.specs.Ready.{IsAllowedCall};

use crate::ending::finish;
use crate::preparation::prepare;
use core_cells::OwnedCells;
use network_model::{Call, Entry};
use qron_link::Dice;
use std::alloc::{AllocError, Global};
use std::marker::Model;
use virtual_node::Shape;

/// All cells of a network. They fit a state of it, and nothing is prepared.
#[derive(Drop)]
pub struct Core {
    shape: Shape,
    board: OwnedCells,
}

impl Model for Core {
    ghost use Rattle.core_cells.specs.Owned.{cells_of};
    ghost use Rattle.factored_core.specs.Core.{CoreCells, IsCore};

    ghost Value = { CoreCells };

    ghost view = { λ c. record { shape = c.shape; owned = c.board } };

    ghost invariant = { λ c. IsCore c.shape (cells_of c.board) };
}

impl Core {
    /// A core in which no qubit is live. All its room is taken here.
    pub fn open(alloc: Global, shape: Shape) -> Result<Core, AllocError>
        ensures shape { IfOk result (λ c. c.shape ≡ shape) }
        ensures stands { IfOk result (λ c. StandsFor shape [] (cells_of c.owned)) }
    {
        shape.facts();
        let board = OwnedCells::open(alloc, &shape)?;
        Ok(Core { shape, board })
    }

    /// The step of a call. A word is drawn exactly where the step draws one.
    pub fn step<D: Dice>(&mut self, call: &Call, dice: &mut D) -> Entry
        requires allowed { IsAllowedCall self.old.shape call.now }
        requires words { D.taken dice.old < 2 ^ 63 }
        ensures shape { self.new.shape ≡ self.old.shape }
        ensures call { result.call ≡ call.now }
        ensures steps { IsCoreStep self.old.shape (cells_of self.old.owned) (cells_of self.new.owned) result }
        ensures word { MatchOption result.word (D.taken dice.new ≡ D.taken dice.old)
            (λ w. (w ≡ D.word (D.key dice.old) (D.begun_seat dice.old) (D.begun_serial dice.old) (D.taken dice.old)) × (D.taken dice.new ≡ D.taken dice.old + 1)) }
        ensures key { D.key dice.new ≡ D.key dice.old }
        ensures seat { D.begun_seat dice.new ≡ D.begun_seat dice.old }
        ensures serial { D.begun_serial dice.new ≡ D.begun_serial dice.old }
    {
        let prepared = prepare(&mut self.board, &self.shape, call, dice);
        let entry = prepared.entry();
        finish(&mut self.board, prepared);
        entry
    }
}
