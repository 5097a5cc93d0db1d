// The cell of what is free.
ghost use Rattle.std.specs.Prelude.{◌≡◌, ◌+◌, ◌*◌, ◌%◌, ◌^◌, ◌<◌, ℕ, false, true, MatchOption, length};
ghost use Rattle.state_model.specs.Row.{is_listed};
ghost use Rattle.network_model.specs.Network.{opening};
ghost use Rattle.network_model.specs.Factored.{FitsPool};
ghost use Rattle.core_cells.specs.Marks.{IsLeastListed};
ghost use Rattle.core_cells.specs.Pool.{IsFullPool, IsNumberTaken, IsNumberFreed, IsSlotTaken, IsSlotFreed};

use crate::marks::Marks;
use std::marker::Model;
use virtual_node::Shape;

/// The free qubit numbers and the free slots, all below 128, and the number of pairs made.
#[derive(Drop)]
pub struct PoolCell {
    numbers: Marks,
    slots: Marks,
    pairs: u32,
}

impl Model for PoolCell {
    ghost use Rattle.core_cells.specs.Pool.{Pool};

    ghost Value = { Pool };

    ghost view = { λ p. record { numbers = p.numbers; slots = p.slots; pairs = p.pairs } };
}

impl PoolCell {
    /// All numbers and all slots below nodes times room are free, and no pair was made.
    pub fn new(shape: &Shape) -> PoolCell
        ensures full { IsFullPool (length shape.now.places * shape.now.room) result }
        ensures fits { FitsPool shape.now opening (λ q. 0) result.numbers result.slots result.pairs }
    {
        let count = shape.nodes() * shape.room();
        PoolCell {
            numbers: Marks::below(count),
            slots: Marks::below(count),
            pairs: 0,
        }
    }

    /// The same pool.
    pub fn copy(&self) -> PoolCell
        ensures { result ≡ self.now }
    {
        PoolCell {
            numbers: self.numbers.copy(),
            slots: self.slots.copy(),
            pairs: self.pairs,
        }
    }

    /// The least free number, if one is free.
    pub fn least_number(&self) -> Option<u8>
        ensures { MatchOption result ((q : ℕ) → is_listed self.now.numbers q ≡ false) (λ n. IsLeastListed self.now.numbers n) }
    {
        self.numbers.least()
    }

    /// The least free slot; none exactly where no slot is free.
    pub fn least_free_slot(&self) -> Option<u8>
        ensures { MatchOption result ((t : ℕ) → is_listed self.now.slots t ≡ false) (λ t. IsLeastListed self.now.slots t) }
    {
        self.slots.least()
    }

    /// A number is free no more.
    pub fn take_number(&mut self, n: u8)
        requires { n < 128 }
        ensures { IsNumberTaken n self.old self.new }
    {
        self.numbers.remove(n);
    }

    /// A number is free.
    pub fn free_number(&mut self, n: u8)
        requires { n < 128 }
        ensures { IsNumberFreed n self.old self.new }
    {
        self.numbers.add(n);
    }

    /// A slot is free no more.
    pub fn take_slot(&mut self, n: u8)
        requires { n < 128 }
        ensures { IsSlotTaken n self.old self.new }
    {
        self.slots.remove(n);
    }

    /// A slot is free.
    pub fn free_slot(&mut self, n: u8)
        requires { n < 128 }
        ensures { IsSlotFreed n self.old self.new }
    {
        self.slots.add(n);
    }

    /// Counts one more pair, and gives its number: the first is 0, and 0 comes again after 2^32 - 1.
    pub fn next_pair(&mut self) -> u32
        ensures pair { result ≡ self.old.pairs }
        ensures counted { self.new ≡ record self.old { pairs = (self.old.pairs + 1) % 2 ^ 32 } }
    {
        let pair = self.pairs;
        self.pairs = pair.wrapping_add(1);
        pair
    }

    /// What every pool keeps: free numbers and slots are below 128.
    pub fn facts(&self)
        ensures numbers { (q : ℕ) → is_listed self.now.numbers q ≡ true → q < 128 }
        ensures slots { (t : ℕ) → is_listed self.now.slots t ≡ true → t < 128 }
    {
        self.numbers.facts();
        self.slots.facts();
    }
}
