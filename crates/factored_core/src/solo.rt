//! A core with a journal.
ghost use Rattle.std.specs.Prelude.{◌≡◌, ◌<◌, ◌≤◌, ◌^◌, [], length, IfOk, MatchResult};
ghost use Rattle.network_model.specs.History.{IsLegal};
ghost use Rattle.factored_core.specs.Core.{IsExecuted, IsKept, WasFull};
ghost use Rattle.factored_core.specs.Ready.{IsAllowedCall};

use crate::whole::Core;
use network_model::{Call, CoreReply, Entry, JournalFull};
use qron_link::Dice;
use std::alloc::{AllocError, Global};
use std::marker::Model;
use virtual_node::Shape;

/// A core and the journal of all its entries, of which there may be a stated number.
#[derive(Drop)]
pub struct Solo {
    core: Core,
    journal: Vec<Entry>,
    capacity: u32,
}

impl Model for Solo {
    ghost use Rattle.std.specs.Prelude.{◌≤◌, length, vec_capacity};
    ghost use Rattle.core_cells.specs.Owned.{cells_of};
    ghost use Rattle.factored_core.specs.Core.{Journal, StandsFor};

    ghost Value = { Journal };

    ghost view = { λ s. record { shape = s.core.shape; capacity = s.capacity; entries = s.journal.items } };

    ghost invariant = { λ s. StandsFor s.core.shape s.journal.items (cells_of s.core.owned)
        × (length s.journal.items ≤ s.capacity) × (s.capacity ≤ vec_capacity s.journal) × (s.capacity ≤ 1048576) };
}

impl Solo {
    /// A core without entries, and room for 1 to 1,048,576 of them. All its room is taken here.
    pub fn open(alloc: Global, shape: Shape, capacity: u32) -> Result<Solo, AllocError>
        requires some { 1 ≤ capacity }
        requires most { capacity ≤ 1048576 }
        ensures { IfOk result (λ s. s ≡ record { shape = shape; capacity = capacity; entries = [] }) }
    {
        let core = Core::open(alloc, shape)?;
        let journal = Vec::with_capacity(alloc, capacity as usize)?;
        Ok(Solo {
            core,
            journal,
            capacity,
        })
    }

    /// Executes a call, which is one entry more; or the journal is full, and nothing has changed.
    pub fn execute<D: Dice>(&mut self, call: &Call, dice: &mut D) -> Result<CoreReply, JournalFull>
        requires allowed { IsAllowedCall self.old.shape call.now }
        requires words { D.taken dice.old < 2 ^ 63 }
        ensures step { MatchResult result
            (λ reply. IsExecuted call.now reply (D.word (D.key dice.old) (D.begun_seat dice.old) (D.begun_serial dice.old) (D.taken dice.old)) (D.taken dice.old) (D.taken dice.new) self.old self.new)
            (λ fault. WasFull fault self.old self.new × (dice.new ≡ dice.old)) }
        ensures legal { IsLegal self.new.shape self.new.entries }
        ensures key { D.key dice.new ≡ D.key dice.old }
        ensures seat { D.begun_seat dice.new ≡ D.begun_seat dice.old }
        ensures serial { D.begun_serial dice.new ≡ D.begun_serial dice.old }
    {
        if self.journal.len() == self.capacity as usize {
            return Err(JournalFull {
                entries: self.capacity,
            });
        }
        let entry = self.core.step(call, dice);
        let Ok(()) = self.journal.push(entry) else {
            unreachable!()
        };
        Ok(entry.reply)
    }

    /// The entries: a legal history.
    pub fn entries(&self) -> &[Entry]
        ensures value { result.now ≡ self.now.entries }
        ensures legal { IsLegal self.now.shape self.now.entries }
        ensures few { length self.now.entries ≤ self.now.capacity }
        ensures most { self.now.capacity ≤ 1048576 }
    {
        &self.journal
    }

    /// The entries, in place of the core.
    pub fn into_entries(self) -> Vec<Entry>
        ensures { result.items ≡ self.entries }
    {
        self.journal
    }

    /// What every core with a journal keeps: its entries are legal, and no more than there may be.
    pub fn facts(&self)
        ensures { IsKept self.now }
    {
        let _ = &self.journal;
    }
}
