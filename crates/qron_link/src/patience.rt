// Patience: how often a call that waits looks again before it gives up.
ghost use Rattle.std.specs.Prelude.{◌≡◌, ◌-◌, ◌<◌, ◌≤◌, [], ◌∷◌, ◌++◌, IfOk, IsTrue, ◌↔◌, Some, length, option_map};
ghost use Rattle.qron_link.specs.Patiences.{LoweredBy, GivenUpBy, new_asks, started, asked_once};

use std::alloc::{AllocError, Global};
use std::marker::Model;
use std::sync::Wait;
use std::sync::atomic::AtomicU64;
use std::time::Duration;

/// A queue that was empty when a call looked: what patience is shown.
#[derive(Clone, Copy, PartialEq, Eq, Debug, Drop)]
pub struct EmptyAt {
    /// The node that waits, by its place in the settings, from 0.
    pub node: u8,
    /// The app whose queue it is.
    pub app: u16,
    /// Whether it is the queue of halves of pairs, and not that of qubits that were sent.
    pub pair: bool,
    /// The number of entries of the journal after which the queue was empty.
    pub entries: u32,
}

/// How often a call that waits may look again.
pub trait Patience {
    ghost use Rattle.std.specs.Prelude.{ℕ, List, Option};
    ghost use Rattle.qron_link.specs.declared.patience.EmptyAt.{EmptyAt};

    /// How many times it goes on after a start, which no call changes, and how many more times it does.
    ghost times: { Self → ℕ };

    ghost more: { Self → ℕ };

    /// How often it gave up.
    ghost gave_up: { Self → ℕ };

    /// It may be asked.
    ghost may_ask: { Self → Type 0 };

    /// What it was shown since the last start, in order, where it tells that.
    ghost shown: { Self → Option (List EmptyAt) };

    /// A call begins: it goes on its number of times, has been shown nothing, and may be asked until it gives up.
    fn start(&mut self)
        ensures times { times self.new ≡ times self.old }
        ensures more { more self.new ≡ times self.old }
        ensures gave_up { gave_up self.new ≡ gave_up self.old }
        ensures may_ask { may_ask self.new }
        ensures shown { shown self.new ≡ option_map (λ _. []) (shown self.old) };

    /// Whether to look again, after a queue was empty. It may wait before it says yes.
    fn again(&mut self, seen: EmptyAt) -> bool
        requires { may_ask self.old }
        ensures times { times self.new ≡ times self.old }
        ensures more { LoweredBy result (more self.old) (more self.new) }
        ensures gave_up { GivenUpBy result (gave_up self.old) (gave_up self.new) }
        ensures may_ask { IsTrue result → may_ask self.new }
        ensures shown { shown self.new ≡ option_map (λ list. list ++ seen ∷ []) (shown self.old) };
}

/// Patience that goes on a number of times after each start, at once, and then gives up. It tells what it is shown.
#[derive(Drop)]
pub struct CountPatience {
    times: u32,
    shown: Vec<EmptyAt>,
    gave_up: u64,
    asked: u32,
}

impl Model for CountPatience {
    ghost use Rattle.std.specs.Prelude.{◌+◌, ◌≤◌, vec_capacity};
    ghost use Rattle.qron_link.specs.Patiences.{Asks};

    ghost Value = { Asks };

    ghost view = { λ p. record { times = p.times; shown = p.shown.items; gave_up = p.gave_up; asked = p.asked } };

    ghost invariant = { λ p. p.times + 1 ≤ vec_capacity p.shown };
}

impl CountPatience {
    /// Patience that stands at a start. The room for all that it is shown is taken here.
    pub fn new(alloc: Global, times: u32) -> Result<CountPatience, AllocError>
        ensures { IfOk result (λ p. p ≡ new_asks times) }
    {
        let shown = Vec::with_capacity(alloc, times as usize + 1)?;
        Ok(CountPatience {
            times,
            shown,
            gave_up: 0,
            asked: 0,
        })
    }

    /// How often it was asked in all, or 2^32 - 1 where that is less.
    pub fn asked(&self) -> u32
        ensures { result ≡ self.now.asked }
    {
        self.asked
    }
}

impl Patience for CountPatience {
    ghost use Rattle.std.specs.Prelude.{◌-◌, ◌≤◌, Some, length};

    ghost times = { λ p. p.times };

    ghost more = { λ p. p.times - length p.shown };

    ghost gave_up = { λ p. p.gave_up };

    ghost may_ask = { λ p. length p.shown ≤ p.times };

    ghost shown = { λ p. Some p.shown };

    fn start(&mut self)
        ensures times { self.new.times ≡ self.old.times }
        ensures more { self.new.times - length self.new.shown ≡ self.old.times }
        ensures gave_up { self.new.gave_up ≡ self.old.gave_up }
        ensures may_ask { length self.new.shown ≤ self.new.times }
        ensures shown { Some self.new.shown ≡ option_map (λ _. []) (Some self.old.shown) }
        ensures asks { self.new ≡ started self.old }
    {
        self.shown.clear();
    }

    fn again(&mut self, seen: EmptyAt) -> bool
        requires { length self.old.shown ≤ self.old.times }
        ensures times { self.new.times ≡ self.old.times }
        ensures more { LoweredBy result (self.old.times - length self.old.shown) (self.new.times - length self.new.shown) }
        ensures gave_up { GivenUpBy result self.old.gave_up self.new.gave_up }
        ensures may_ask { IsTrue result → length self.new.shown ≤ self.new.times }
        ensures shown { Some self.new.shown ≡ option_map (λ list. list ++ seen ∷ []) (Some self.old.shown) }
        ensures goes_on { IsTrue result ↔ (length self.old.shown < self.old.times) }
        ensures asks { self.new ≡ asked_once self.old seen }
    {
        let goes_on = self.shown.len() < self.times as usize;
        let Ok(()) = self.shown.push(seen) else {
            unreachable!()
        };
        self.asked = self.asked.saturating_add(1);
        if !goes_on {
            self.gave_up = self.gave_up.saturating_add(1);
        }
        goes_on
    }
}

/// Patience that goes on a number of times after each start, and sleeps for a while before each. It tells nothing of
/// what it is shown.
#[derive(Drop)]
pub struct SleepPatience<R> {
    rt: R,
    times: u32,
    more: u32,
    pause: Duration,
    gave_up: u64,
}

impl<R: Wait> SleepPatience<R> {
    /// Patience that stands at a start, and sleeps for a number of milliseconds.
    pub fn new(rt: R, times: u32, milliseconds: u32) -> SleepPatience<R>
        ensures times { result.times ≡ times }
        ensures more { result.more ≡ times }
    {
        SleepPatience {
            rt,
            times,
            more: times,
            pause: Duration::from_millis(u64::from(milliseconds)),
            gave_up: 0,
        }
    }

    // Sleeps once. The system may cut it short. Nobody knows of the word, so nobody wakes it.
    fn sleep(&self) {
        AtomicU64::new(0).park_timeout(&self.rt, 0, self.pause);
    }
}

impl<R: Wait> Patience for SleepPatience<R> {
    ghost use Rattle.std.specs.Prelude.{None, ⊤};

    ghost times = { λ p. p.times };

    ghost more = { λ p. p.more };

    ghost gave_up = { λ p. p.gave_up };

    ghost may_ask = { λ _. ⊤ };

    ghost shown = { λ _. None };

    fn start(&mut self) {
        self.more = self.times;
    }

    fn again(&mut self, _seen: EmptyAt) -> bool {
        if self.more == 0 {
            self.gave_up = self.gave_up.saturating_add(1);
            return false;
        }
        self.more -= 1;
        self.sleep();
        true
    }
}
