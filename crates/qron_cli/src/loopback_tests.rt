// A node that is served, and a client that talks to it, over sockets of this machine.
ghost use Rattle.std.specs.Prelude.{◌<◌};
ghost use Rattle.node_table.specs.Document.{IsInRange};

use crate::house::House;
use crate::real::PipeHouse;
use crate::real_tests::{LOCALHOST, Mute, quiet, settings_at};
use crate::serve_command::run_serve;
use crate::status::Status;
use cqc_client::{ScriptRead, Talked, read_script, talk};
use network_model::Place;
use node_table::Settings;
use qron_link::{MemLink, Pipe, TcpDoor};
use session_model::Ending;
use std::alloc::{AllocError, Global};
use std::io::Cursor;
use std::net::{Net, TcpListener, TcpStream};
use std::rt::Files;
use std::sync::Wait;
use std::test::Fail;
use std::thread;
use std::thread::Threads;
use std::time::{Clock, Duration};

// A qubit that is flipped and measured.
const SCRIPT: &str = "app 7\nnew\nx 0\nmeasure 0\ngo\n";

// How often the client looks whether somebody listens, and how many milliseconds it waits before it looks again.
const LOOKS: u32 = 500;

const PAUSE_MS: u64 = 10;

// What a server came to: its status, how its connections ended, and how many entries its journal has.
#[derive(Drop)]
struct Came {
    status: Status,
    endings: Vec<Ending>,
    entries: usize,
}

// One node at this port, with one worker that serves one connection.
fn one_at(port: u16) -> Settings
    ensures { IsInRange result }
{
    Settings {
        workers: 1,
        connections: 1,
        ..settings_at(port)
    }
}

// A pipe without input.
fn pipe(alloc: Global) -> Result<Pipe<Cursor<Vec<u8>>, Vec<u8>>, AllocError> {
    Pipe::new(alloc, Cursor::new(Vec::new(alloc)), Vec::new(alloc))
}

// Serves one connection at a port, unless memory is short or the port is taken.
fn served<S: Files + Net<Listener = TcpListener, Stream = TcpStream> + Threads + Wait + Sync>(
    system: &S,
    alloc: Global,
    port: u16,
) -> Option<Came> {
    let Ok(pipe) = pipe(alloc) else {
        return None;
    };
    let mut house = PipeHouse::new(alloc, system, pipe, quiet(alloc), Mute);
    let run = run_serve(system, alloc, one_at(port), &mut house);
    let record = run.kept?;
    let mut endings = Vec::new(alloc);
    for connection in &record.served {
        if endings.push(connection.ending).is_err() {
            return None;
        }
    }
    Some(Came {
        status: Status::of(&run.outcome),
        endings,
        entries: record.entries.len(),
    })
}

// Talks to the node at a port once somebody listens there, and gives the talk's end and what it prints.
#[tactic(auto, using(script::proofs::Sendable::from_script))]
fn talked<S: Files + Net<Listener = TcpListener, Stream = TcpStream> + Wait + Sync + Clock>(
    system: &S,
    alloc: Global,
    port: u16,
) -> Result<(Talked, MemLink), Fail> {
    let ScriptRead::Read(script) = read_script(alloc, SCRIPT.as_bytes()) else {
        return Err("it is a script".into());
    };
    if script.len() > 2 {
        return Err("it has one message".into());
    }
    let mut printed = MemLink::new(
        alloc,
        Vec::new(alloc),
        1,
        4096,
        Vec::new(alloc),
        Vec::new(alloc),
    )?;
    let place = Place {
        address: LOCALHOST,
        port,
    };
    let mut house = PipeHouse::new(alloc, system, pipe(alloc)?, quiet(alloc), Mute);
    for _ in 0..LOOKS {
        if let Some(mut link) = house.connect(place) {
            let talked = talk(alloc, &script, &mut link, &mut printed)?;
            return Ok((talked, printed));
        }
        thread::sleep(system, Duration::from_millis(PAUSE_MS));
    }
    Err("nobody listens".into())
}

#[test]
fn client_is_answered_by_a_served_node(rt: HostRuntime) -> Result<(), Fail> {
    let alloc = rt.alloc();
    // nobody else has this port, so it is free once this door is gone
    let door = TcpDoor::bind(rt.alloc(), &rt, LOCALHOST, 0)?;
    let port = door.port()?;
    drop(door);
    let (came, talked) = thread::join(
        &rt,
        || served(&rt, alloc, port),
        || talked(&rt, alloc, port),
    );
    let (end, printed) = talked?;
    assert_eq!(rt; end, Talked::Done { messages: 1 });
    assert_eq!(rt; str::from_utf8(printed.written())?, "new 0\nout 1\ndone\n");
    let Some(came) = came else {
        return Err("the node was served".into());
    };
    assert_eq!(rt; came.status, Status::Done);
    assert_eq!(rt; came.endings.as_slice(), [Ending::Clean].as_slice());
    assert_eq!(rt; came.entries, 3);
    Ok(())
}
