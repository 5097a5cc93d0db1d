// Doors: what hands out links.
ghost use Rattle.std.specs.Prelude.{◌≡◌, ℕ, List, Option};
ghost use Rattle.qron_link.specs.Doors.{KnockGave, FailCause, CloseCause};

use crate::Link;

/// What a knock at a door gave.
#[derive(Drop)]
pub enum Knock<L> {
    /// A link.
    Link(L),
    /// No link, and none will come.
    Closed,
    /// The door has a fault. No link was handed out.
    Failed,
}

/// Where links come from.
pub trait Door {
    type Link: Link + Drop;

    /// The links that it has handed out so far, where it tells them.
    ghost handed: { Self → Option (List Self.Link) };

    /// How often it has failed.
    ghost faults: { Self → ℕ };

    /// How often it has answered that it is closed.
    ghost closings: { Self → ℕ };

    /// Knocks lead from the one to the other.
    ghost was_led: { Self → Self → Type 0 };

    /// The next link, which it has then handed out.
    fn next(&mut self) -> Knock<Self::Link>
        ensures handed { KnockGave result (handed self.old) (handed self.new) }
        ensures faults { FailCause result (faults self.old) (faults self.new) }
        ensures closings { CloseCause result (closings self.old) (closings self.new) }
        ensures led { was_led self.old self.new };

    ghost leads_nowhere: { (door : Self) → was_led door door };

    ghost leads_on: { (a b c : Self) → was_led a b → was_led b c → was_led a c };
}
