// Numbers below 128, each marked or not.
ghost use Rattle.std.specs.Prelude.{◌≡◌, ◌<◌, ◌≤◌, ℕ, false, true, nat_lt, MatchOption, length};
ghost use Rattle.state_model.specs.Row.{is_listed};
ghost use Rattle.core_cells.specs.Marks.{IsLeastListed, IsWithout, IsWith};

use std::marker::Model;

/// Numbers below 128, in their order.
#[derive(Drop)]
pub(crate) struct Marks {
    marks: [bool; 128],
}

impl Model for Marks {
    ghost use Rattle.std.specs.Prelude.{◌≡◌, List, ℕ, length};
    ghost use Rattle.core_cells.specs.Marks.{positions};

    ghost Value = { List ℕ };

    ghost view = { λ m. positions m.marks };

    ghost invariant = { λ m. length m.marks ≡ 128 };
}

impl Marks {
    /// No number.
    fn none() -> Marks
        ensures { (q : ℕ) → is_listed result q ≡ false }
    {
        Marks {
            marks: [false; 128],
        }
    }

    /// The numbers below a count.
    pub(crate) fn below(count: u8) -> Marks
        requires { count ≤ 128 }
        ensures { (q : ℕ) → is_listed result q ≡ nat_lt q count }
    {
        let mut all = Marks::none();
        for n in 0..count {
            all.add(n);
        }
        all
    }

    /// The same numbers.
    pub(crate) fn copy(&self) -> Marks
        ensures { result ≡ self.now }
    {
        Marks { marks: self.marks }
    }

    /// The least number, if there is one.
    pub(crate) fn least(&self) -> Option<u8>
        ensures { MatchOption result ((q : ℕ) → is_listed self.now q ≡ false) (λ n. IsLeastListed self.now n) }
    {
        for n in 0..128u8 {
            if self.marks[n as usize] {
                return Some(n);
            }
        }
        None
    }

    /// Without a number.
    pub(crate) fn remove(&mut self, n: u8)
        requires { n < 128 }
        ensures { IsWithout n self.old self.new }
    {
        self.marks[n as usize] = false;
    }

    /// With a number.
    pub(crate) fn add(&mut self, n: u8)
        requires { n < 128 }
        ensures { IsWith n self.old self.new }
    {
        self.marks[n as usize] = true;
    }

    /// Each number is below 128.
    pub(crate) fn facts(&self)
        ensures { (q : ℕ) → is_listed self.now q ≡ true → q < 128 }
    {
        let _ = &self.marks;
    }
}
