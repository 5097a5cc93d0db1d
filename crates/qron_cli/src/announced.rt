// Doors and links whose connections are told of.
ghost use Rattle.std.specs.Prelude.{◌≡◌, None};

use crate::voice::{Caller, LinkEnd, Voice};
use qron_link::{Door, Got, Knock, Link, Put, Sink, Source};

/// A link that is used as ever, and of which is said how it ended.
#[derive(Drop)]
pub struct AnnouncedLink<L: Drop, V: Voice> {
    link: L,
    // who says it, if anyone does
    caller: Option<Caller<V>>,
    end: LinkEnd,
    read: u64,
    written: u64,
}

impl<L: Drop, V: Voice> AnnouncedLink<L, V> {
    /// A link that wasn't used yet, of which this one tells.
    pub fn new(link: L, caller: Caller<V>) -> AnnouncedLink<L, V> {
        AnnouncedLink::over(link, Some(caller))
    }

    /// A link that wasn't used yet, of which nothing is said.
    pub fn untold(link: L) -> AnnouncedLink<L, V> {
        AnnouncedLink::over(link, None)
    }

    fn over(link: L, caller: Option<Caller<V>>) -> AnnouncedLink<L, V> {
        AnnouncedLink {
            link,
            caller,
            end: LinkEnd::ByNode,
            read: 0,
            written: 0,
        }
    }
}

impl<L: Link + Drop, V: Voice> Source for AnnouncedLink<L, V> {
    ghost left = { λ a. L.left a.link };

    ghost read_faults = { λ a. L.read_faults a.link };

    ghost was_read = { λ old new. L.was_read old.link new.link };

    fn read(&mut self, room: &mut [u8]) -> Got {
        let got = self.link.read(room);
        match got {
            Got::Bytes(count) => self.read = self.read.saturating_add(count as u64),
            Got::End => self.end = LinkEnd::ByPeer,
            Got::Failed => self.end = LinkEnd::ReadFailed,
        }
        got
    }
}

impl<L: Link + Drop, V: Voice> Sink for AnnouncedLink<L, V> {
    ghost held = { λ a. L.held a.link };

    ghost write_faults = { λ a. L.write_faults a.link };

    ghost was_written = { λ old new. L.was_written old.link new.link };

    ghost writes_nowhere = { λ a. L.writes_nowhere a.link };

    ghost writes_on = { λ a b c. L.writes_on a.link b.link c.link };

    fn write(&mut self, piece: &[u8]) -> Put {
        let put = self.link.write(piece);
        match put {
            Put::Bytes(count) => self.written = self.written.saturating_add(count as u64),
            Put::Failed => self.end = LinkEnd::WriteFailed,
        }
        put
    }
}

impl<L: Link + Drop, V: Voice> Link for AnnouncedLink<L, V> {
    ghost was_led = { λ old new. L.was_led old.link new.link };

    ghost room = { λ a. L.room a.link };

    ghost both_or_neither = { λ a. L.both_or_neither a.link };

    ghost read_keeps_held = { λ old new. L.read_keeps_held old.link new.link };

    ghost read_keeps_faults = { λ old new. L.read_keeps_faults old.link new.link };

    ghost write_keeps_left = { λ old new. L.write_keeps_left old.link new.link };

    ghost write_keeps_faults = { λ old new. L.write_keeps_faults old.link new.link };

    ghost read_leads = { λ old new. L.read_leads old.link new.link };

    ghost write_leads = { λ old new. L.write_leads old.link new.link };

    ghost leads_nowhere = { λ a. L.leads_nowhere a.link };

    ghost leads_on = { λ a b c. L.leads_on a.link b.link c.link };

    ghost writes_take_room = { λ old new. L.writes_take_room old.link new.link };

    fn deliver(&mut self) {
        self.link.deliver();
    }

    fn close(&mut self) {
        self.link.close();
        if let Some(caller) = self.caller {
            caller.say_ended(self.end, self.read, self.written);
        }
    }
}

/// A door of one worker, of whose links is said when they come and how they end. It tells no links.
#[derive(Drop)]
pub struct AnnouncedDoor<D: Drop, V: Voice> {
    pub door: D,
    // of the next link
    caller: Caller<V>,
}

impl<D: Drop, V: Voice> AnnouncedDoor<D, V> {
    /// A door that wasn't knocked at yet. Its first link is the connection of this one.
    pub fn new(door: D, caller: Caller<V>) -> AnnouncedDoor<D, V>
        ensures { result.door ≡ door }
    {
        AnnouncedDoor { door, caller }
    }
}

impl<D: Door + Drop, V: Voice> Door for AnnouncedDoor<D, V> {
    type Link = AnnouncedLink<D::Link, V>;

    ghost handed = { λ _. None };

    ghost faults = { λ a. D.faults a.door };

    ghost closings = { λ a. D.closings a.door };

    ghost was_led = { λ old new. D.was_led old.door new.door };

    ghost leads_nowhere = { λ a. D.leads_nowhere a.door };

    ghost leads_on = { λ a b c. D.leads_on a.door b.door c.door };

    fn next(&mut self) -> Knock<AnnouncedLink<D::Link, V>> {
        match self.door.next() {
            Knock::Link(link) => {
                let caller = self.caller;
                self.caller.serial = caller.serial.saturating_add(1);
                caller.say_came();
                Knock::Link(AnnouncedLink::new(link, caller))
            }
            Knock::Closed => Knock::Closed,
            Knock::Failed => Knock::Failed,
        }
    }
}
