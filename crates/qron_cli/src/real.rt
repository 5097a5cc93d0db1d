// The real outside.
ghost use Rattle.std.specs.Prelude.{◌≡◌, ◌≤◌, ℕ, None, refl, length, IfOk, IfSome, vec_len};
ghost use Rattle.node_table.specs.Document.{IsInRange};
ghost use Rattle.qron_cli.specs.Posts.{AreGiven};
ghost use Rattle.qron_cli.specs.Statuses.{HasFinished};

use crate::announced::{AnnouncedDoor, AnnouncedLink};
use crate::complaint::Complaint;
use crate::errors::Errors;
use crate::house::{FileRead, House, Posts};
use crate::posts::push_post;
use crate::status::Status;
use crate::voice::{Caller, Terminal, Voice};
use cqc_server::{Post, Posted};
use network_model::Place;
use node_table::Settings;
use qron_link::{ChaChaDice, Pipe, Reader, SleepPatience, TcpDoor, TcpLink, Writer};
use std::alloc::{AllocError, Global};
use std::fs;
use std::io::{self, ErrorKind, Read, Stderr, Stdin, Stdout, Write};
use std::net::{Net, TcpListener, TcpStream};
use std::rt::Files;
use std::sync::Wait;
use virtual_node::Shape;

/// Standard input, output and error, and the files and sockets of the system.
pub type RealHouse<'a> = PipeHouse<'a, HostRuntime, Stdin, Stdout, Stderr, Terminal>;

/// A pipe, where complaints go, what says when connections come and end, files and sockets of a system, and dice by
/// ChaCha20. It tells no file, no ask, no post and no link.
#[derive(Drop)]
pub struct PipeHouse<
    'a,
    S: Files + Net<Stream = TcpStream>,
    R: Reader,
    W: Writer,
    E: Write + Drop,
    V: Voice,
> {
    alloc: Global,
    system: &'a S,
    pipe: Pipe<R, W>,
    /// Where complaints go.
    pub errors: Errors<E>,
    voice: V,
    // how often a file could not be read, or a place not be had or reached
    faults: u64,
}

impl<
    'a,
    S: Files + Net<Stream = TcpStream>,
    R: Reader,
    W: Writer,
    E: Write + Drop,
    V: Voice,
> PipeHouse<'a, S, R, W, E, V> {
    pub fn new(
        alloc: Global,
        system: &'a S,
        pipe: Pipe<R, W>,
        errors: Errors<E>,
        voice: V,
    ) -> Self {
        PipeHouse {
            alloc,
            system,
            pipe,
            errors,
            voice,
            faults: 0,
        }
    }

    /// Sends what the pipe has gathered, and gives the program's status: a fault where that fails.
    pub fn finish(&mut self, status: Status) -> Status
        ensures { HasFinished self.old.pipe self.new.pipe status result }
    {
        if self.pipe.flush().is_ok() {
            return status;
        }
        if !matches!(status, Status::Fault) {
            self.errors.complain(&Complaint::Fault);
        }
        Status::Fault
    }
}

impl<
    'a,
    S: Files + Net<Listener = TcpListener, Stream = TcpStream> + Wait + Sync,
    R: Reader,
    W: Writer,
    E: Write + Drop,
    V: Voice + Send,
> House for PipeHouse<'a, S, R, W, E, V> {
    type Pipe = Pipe<R, W>;

    type Dice = ChaChaDice;

    type Link = AnnouncedLink<TcpLink, V>;

    type Door = AnnouncedDoor<TcpDoor, V>;

    type Patience = SleepPatience<&'a S>;

    ghost pipe_of = { λ h. h.pipe };

    ghost with_pipe = { λ h p. record h { pipe = p } };

    ghost facts = { λ h. record { keys = λ seed. seed; files = None; asks = None; faults = h.faults } };

    ghost handed = { λ _. None };

    ghost posted = { λ _. None };

    ghost pipe_is_put = { λ _ _. refl };

    ghost facts_stay = { λ _ _. refl };

    ghost handed_stay = { λ _ _. refl };

    ghost posted_stay = { λ _ _. refl };

    ghost tells_files = { λ _. tt };

    fn pipe(&mut self) -> &mut Pipe<R, W> {
        &mut self.pipe
    }

    fn dice(&mut self, seed: &[u8; 32]) -> Result<ChaChaDice, AllocError> {
        Ok(ChaChaDice::new(*seed))
    }

    fn file(&mut self, name: &str) -> FileRead {
        match read_file(self.alloc, self.system, name) {
            Ok(Some(bytes)) => FileRead::Bytes(bytes),
            Ok(None) => FileRead::TooLong,
            Err(error) if error.kind() == ErrorKind::OutOfMemory => FileRead::OutOfMemory,
            Err(_) => {
                self.faults = self.faults.saturating_add(1);
                FileRead::Failed
            }
        }
    }

    fn posts(
        &mut self,
        settings: &Settings,
    ) -> Posts<AnnouncedDoor<TcpDoor, V>, ChaChaDice, SleepPatience<&'a S>> {
        let posts = match doors_at(self.alloc, self.system, &settings.shape, &mut self.errors) {
            Ok(doors) => posts_at(
                self.alloc,
                self.system,
                settings,
                doors.as_slice(),
                self.voice,
            ),
            Err(error) => Err(error),
        };
        match posts {
            Ok(posts) => Posts::Ready(posts),
            Err(error) if error.kind() == ErrorKind::OutOfMemory => Posts::OutOfMemory,
            Err(_) => {
                self.faults = self.faults.saturating_add(1);
                Posts::Failed
            }
        }
    }

    fn connect(&mut self, place: Place) -> Option<AnnouncedLink<TcpLink, V>> {
        let Ok(link) = TcpLink::connect(self.alloc, self.system, place.address, place.port) else {
            self.faults = self.faults.saturating_add(1);
            return None;
        };
        Some(AnnouncedLink::untold(link))
    }

    fn complain(&mut self, complaint: &Complaint) {
        self.errors.complain(complaint);
    }
}

// The most bytes of a file.
const FILE_LIMIT: u64 = 16_777_216;

// The bytes of a file, or nothing where it has too many. No more than one byte too many is read.
fn read_file<F: Files>(alloc: Global, files: &F, name: &str) -> io::Result<Option<Vec<u8>>>
    ensures { IfOk result (λ read. IfSome read (λ bytes. vec_len bytes ≤ 16_777_216)) }
{
    let mut bytes = Vec::new(alloc);
    let file = fs::open(files, name)?;
    file.take(FILE_LIMIT + 1).read_to_end(&mut bytes)?;
    if bytes.len() as u64 > FILE_LIMIT {
        return Ok(None);
    }
    Ok(Some(bytes))
}

// Doors at the places of a network, one for each node. A terminal is told of each.
fn doors_at<N: Net<Listener = TcpListener, Stream = TcpStream>, E: Write + Drop>(
    alloc: Global,
    net: &N,
    shape: &Shape,
    errors: &mut Errors<E>,
) -> io::Result<Vec<TcpDoor>>
    ensures { IfOk result (λ doors. length doors.items ≡ length shape.now.places) }
{
    let mut doors = Vec::new(alloc);
    for node in 0..shape.nodes() {
        let place = shape.place(node);
        let door = match TcpDoor::bind(alloc, net, place.address, place.port) {
            Ok(door) => door,
            Err(error) => {
                errors.tell_refused(place);
                return Err(error);
            }
        };
        errors.tell_listening(node, place);
        if doors.push(door).is_err() {
            return Err(ErrorKind::OutOfMemory.into());
        }
    }
    Ok(doors)
}

// A further door of a node, for the worker of a seat.
fn worker_door<V: Voice>(
    door: &TcpDoor,
    voice: V,
    node: usize,
    seat: usize,
) -> io::Result<AnnouncedDoor<TcpDoor, V>> {
    let first = Caller {
        voice,
        node,
        seat,
        serial: 0,
    };
    Ok(AnnouncedDoor::new(door.share()?, first))
}

// Posts for all workers of a network, those of each node at further doors of its own.
fn posts_at<'a, S: Wait, V: Voice>(
    alloc: Global,
    system: &'a S,
    settings: &Settings,
    doors: &[TcpDoor],
    voice: V,
) -> io::Result<Vec<Post<AnnouncedDoor<TcpDoor, V>, ChaChaDice, SleepPatience<&'a S>>>>
    requires range { IsInRange settings.now }
    requires doors { length doors.now ≡ length settings.now.shape.places }
    ensures { IfOk result (λ posts. AreGiven (⟦<Post<AnnouncedDoor<TcpDoor, V>, ChaChaDice, SleepPatience<&'static S>> as Posted>⟧.watch) settings.now.seed settings.now posts.items) }
{
    // A contract asks for it: there are 1 to 8 nodes.
    let _nodes = settings.shape.nodes();
    let workers = usize::from(settings.workers);
    let mut posts = Vec::new(alloc);
    for seat in 0..doors.len() * workers {
        let door = match worker_door(&doors[seat / workers], voice, seat / workers, seat) {
            Ok(door) => door,
            Err(error) => return Err(error),
        };
        let dice = ChaChaDice::new(settings.seed);
        let patience = SleepPatience::new(system, settings.patience, settings.wait_ms);
        if push_post(&mut posts, settings, door, dice, patience).is_err() {
            return Err(ErrorKind::OutOfMemory.into());
        }
    }
    Ok(posts)
}
