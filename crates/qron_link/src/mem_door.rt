// A door in memory.
ghost use Rattle.std.specs.Prelude.{◌≡◌, ◌+◌, ◌-◌, ◌++◌, Some, length, take};
ghost use Rattle.std.specs.Vec.Iter.{into_iter_items};
ghost use Rattle.qron_link.specs.MemDoors.{Doorway, IsRest};

use crate::mem_link::has_number;
use crate::{Door, Knock, MemLink};
use std::marker::Model;
use std::snapshot::Snapshot;
use std::vec::IntoIter;

/// A door that hands out the links that were given to it, in order. It is closed once all are out.
///
/// The calls whose numbers, from 0, are listed fail and hand out nothing, and no others fail. It tells its links.
#[derive(Drop)]
pub struct MemDoor {
    all: Snapshot<Vec<MemLink>>,
    links: IntoIter<MemLink>,
    bad: Vec<u32>,
    calls: u64,
    faults: u64,
    closings: u64,
}

impl Model for MemDoor {
    ghost Value = { Doorway };

    ghost view = { λ d. record {
      handed = take (length d.all.value.items - length (into_iter_items d.links)) d.all.value.items;
      left = into_iter_items d.links;
      bad = d.bad.items;
      calls = d.calls;
      faults = d.faults;
      closings = d.closings;
    } };

    ghost invariant = { λ d. IsRest (into_iter_items d.links) d.all.value.items };
}

impl MemDoor {
    ghost use Rattle.qron_link.specs.MemDoors.{new_doorway};

    /// A door with these links, which wasn't knocked at yet.
    pub fn new(links: Vec<MemLink>, bad: Vec<u32>) -> MemDoor
        ensures { result ≡ new_doorway links.items bad.items }
    {
        MemDoor {
            all: Snapshot::of(&links),
            links: links.into_iter(),
            bad,
            calls: 0,
            faults: 0,
            closings: 0,
        }
    }
}

impl Door for MemDoor {
    ghost use Rattle.qron_link.specs.Doors.{KnockGave, FailCause, CloseCause};
    ghost use Rattle.qron_link.specs.MemDoors.{IsSameDoor, knock_answer, after_knock};
    ghost use Rattle.qron_link.specs.MemDoorLaws.{same_door, same_door_on};

    type Link = MemLink;

    ghost handed = { λ d. Some d.handed };

    ghost faults = { λ d. d.faults };

    ghost closings = { λ d. d.closings };

    ghost was_led = { IsSameDoor };

    ghost leads_nowhere = { same_door };

    ghost leads_on = { same_door_on };

    fn next(&mut self) -> Knock<MemLink>
        ensures handed { KnockGave result (Some self.old.handed) (Some self.new.handed) }
        ensures faults { FailCause result self.old.faults self.new.faults }
        ensures closings { CloseCause result self.old.closings self.new.closings }
        ensures led { IsSameDoor self.old self.new }
        ensures answer { result ≡ knock_answer self.old }
        ensures door { self.new ≡ after_knock self.old }
    {
        let number = self.calls;
        self.calls = number.saturating_add(1);
        if has_number(&self.bad, number) {
            self.faults = self.faults.saturating_add(1);
            return Knock::Failed;
        }
        match self.links.next() {
            Some(link) => Knock::Link(link),
            None => {
                self.closings = self.closings.saturating_add(1);
                Knock::Closed
            }
        }
    }
}
