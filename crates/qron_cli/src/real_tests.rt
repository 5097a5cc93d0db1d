// How the program ends over a pipe that can't send what it gathered, and what a terminal is told.
ghost use Rattle.node_table.specs.Document.{IsInRange};

use crate::complaint::Complaint;
use crate::errors::Errors;
use crate::house::{House, Posts};
use crate::real::PipeHouse;
use crate::status::Status;
use crate::texts::refused_settings;
use crate::voice::Voice;
use cqc_client::{ScriptFault, ScriptWhy};
use cqc_server::{ScheduleFault, Why};
use network_model::Place;
use node_table::{Key, Settings, SettingsFault, plain_settings};
use qron_link::{Link, Pipe, Sink, Source, TcpDoor, Writer};
use std::alloc::Global;
use std::cell::Cell;
use std::io::{self, Cursor, ErrorKind, Write};
use std::rc::Rc;
use std::test::Fail;
use virtual_node::Shape;

/// The address of this machine.
pub const LOCALHOST: u32 = 0x7f00_0001;

// A writer that takes as many bytes as there is room, and then fails.
#[derive(Drop)]
struct Bounded {
    room: Rc<Cell<usize>>,
}

impl Write for Bounded {
    fn write(&mut self, piece: &[u8]) -> io::Result<usize> {
        let room = self.room.get();
        if room == 0 {
            return Err(ErrorKind::StorageFull.into());
        }
        let size = piece.len().min(room);
        self.room.set(room - size);
        Ok(size)
    }

    fn flush(&mut self) -> io::Result<()> {
        Ok(())
    }
}

impl Writer for Bounded {
    ghost use Rattle.std.specs.Prelude.{refl};

    ghost untold = { λ _ _ _. refl };
}

/// A voice that says nothing.
#[derive(Clone, Copy)]
pub struct Mute;

impl Voice for Mute {
    fn say(&self, _line: &str) {}
}

type Gathering = Pipe<Cursor<Vec<u8>>, Bounded>;

// A pipe that has gathered eight bytes, since input was read ahead.
fn gathering_into(alloc: Global, room: Rc<Cell<usize>>) -> Result<Gathering, Fail> {
    let input = vec![in alloc; 0; 16]?;
    let mut pipe = Pipe::new(alloc, Cursor::new(input), Bounded { room })?;
    let mut head = [0; 8];
    pipe.read(&mut head);
    pipe.write(&head);
    Ok(pipe)
}

fn gathering(alloc: Global, room: usize) -> Result<Gathering, Fail> {
    gathering_into(alloc, Rc::new(alloc, Cell::new(room))?)
}

/// Standard error that is no terminal.
pub fn quiet(alloc: Global) -> Errors<Vec<u8>> {
    Errors {
        out: Vec::new(alloc),
        is_terminal: false,
    }
}

#[test]
fn failure_of_the_last_flush_is_a_fault(rt: HostRuntime) -> Result<(), Fail> {
    let cases = [
        (8, Status::Done, Status::Done, ""),
        (8, Status::Unfinished, Status::Unfinished, ""),
        (7, Status::Done, Status::Fault, "qron: fault\n"),
        (7, Status::Unfinished, Status::Fault, "qron: fault\n"),
        // the complaint was made before
        (7, Status::Fault, Status::Fault, ""),
    ];
    for (room, before, after, line) in cases {
        let alloc = rt.alloc();
        let mut house = PipeHouse::new(alloc, &rt, gathering(alloc, room)?, quiet(alloc), Mute);
        assert_eq!(rt; house.finish(before), after, "{room} {line}");
        assert_eq!(rt;
            house.errors.out.as_slice(),
            line.as_bytes(),
            "{room} {line}"
        );
    }
    Ok(())
}

#[test]
fn what_was_gathered_is_sent_before_a_wait_and_at_the_end(rt: HostRuntime) -> Result<(), Fail> {
    let alloc = rt.alloc();
    for at_the_end in [false, true] {
        let room = Rc::new(alloc, Cell::new(9))?;
        let mut pipe = gathering_into(alloc, room.clone()?)?;
        assert_eq!(rt; room.get(), 9);
        if at_the_end {
            pipe.close();
        } else {
            pipe.deliver();
        }
        assert_eq!(rt; room.get(), 1, "{at_the_end}");
    }
    Ok(())
}

/// Plain settings with one node at this port, and two workers.
pub fn settings_at(port: u16) -> Settings
    ensures { IsInRange result }
{
    let place = Place {
        address: LOCALHOST,
        port,
    };
    Settings {
        shape: Shape::new(&[place], 16, 12),
        workers: 2,
        ..plain_settings(1)
    }
}

#[test]
fn workers_of_a_node_share_its_port(rt: HostRuntime) -> Result<(), Fail> {
    let alloc = rt.alloc();
    let mut house = PipeHouse::new(alloc, &rt, gathering(alloc, 8)?, quiet(alloc), Mute);
    let Posts::Ready(posts) = house.posts(&settings_at(0)) else {
        return Err("there is a free port".into());
    };
    let [first, second] = posts.as_slice() else {
        return Err("there are two workers".into());
    };
    assert_eq!(rt; first.node, 0);
    assert_eq!(rt; second.node, 0);
    assert_eq!(rt; first.door.door.port()?, second.door.door.port()?);
    Ok(())
}

#[test]
fn port_that_is_taken_is_a_fault(rt: HostRuntime) -> Result<(), Fail> {
    let alloc = rt.alloc();
    let other = TcpDoor::bind(rt.alloc(), &rt, LOCALHOST, 0)?;
    let port = other.port()?;
    let errors = Errors {
        is_terminal: true,
        ..quiet(alloc)
    };
    let mut house = PipeHouse::new(alloc, &rt, gathering(alloc, 8)?, errors, Mute);
    assert!(rt; matches!(house.posts(&settings_at(port)), Posts::Failed));
    let told = format!(in alloc; "no node can listen at 127.0.0.1 port {port}\n")?;
    assert_eq!(rt; str::from_utf8(house.errors.out.as_slice())?, told.as_str());
    Ok(())
}

#[test]
fn terminal_is_told_what_was_wrong(rt: HostRuntime) -> Result<(), Fail> {
    let [_, (_, range), _, _] = refused_settings();
    let missing = SettingsFault::Missing {
        key: Key::Port,
        node: 1,
    };
    let line = ScheduleFault {
        line: 3,
        why: Why::Word,
    };
    let waiting = ScriptFault {
        line: 2,
        why: ScriptWhy::Pending,
    };
    let cases = [
        (
            Complaint::Words,
            "qron: words\nthe words are: pipe, pipe <settings>, replay <settings> <schedule>, serve <settings>, talk <address> <port> <script>, or drill <rounds>\n",
        ),
        (Complaint::Memory, "qron: memory\n"),
        (
            Complaint::Settings(range),
            "qron: settings\nthe top table: limit is out of its range, a whole number from 1 to 12 is expected\n",
        ),
        (
            Complaint::Settings(missing),
            "qron: settings\nthe table of node 1: port is missing, a whole number from 1 to 65,535 is expected\n",
        ),
        (
            Complaint::Settings(SettingsFault::Strange {
                table: 2,
                before: 1,
            }),
            "qron: settings\nthe table of node 1: a strange key, number 2 of its keys by their bytes\n",
        ),
        (
            Complaint::Schedule(line),
            "qron: schedule line 3\nits first word is neither `c` nor `s`\n",
        ),
        (
            Complaint::Script(waiting),
            "qron: script line 2\nthe commands before it wait for `go` or `factory`\n",
        ),
    ];
    for (complaint, text) in cases {
        let mut errors = Errors {
            is_terminal: true,
            ..quiet(rt.alloc())
        };
        errors.complain(&complaint);
        assert_eq!(rt; str::from_utf8(errors.out.as_slice())?, text);
    }
    Ok(())
}
