// Links and doors over TCP. This is the trusted edge: what a socket gives and takes, no contract says.
ghost use Rattle.std.specs.Prelude.{◌≡◌, ℕ, ◌≤◌, ◌<◌, None, length, IfOk};

use crate::{Door, Got, Knock, Link, Put, Sink, Source};
use std::alloc::Global;
use std::io::{self, BufReader, BufWriter, ErrorKind, Read, Write};
use std::net::{Ipv4Addr, Net, Shutdown, SocketAddr, TcpListener, TcpStream};

// The bytes of each buffer.
const BUFFER_SIZE: usize = 16_384;

/// A TCP connection as a link. It tells no bytes.
///
/// Each side counts its faults, one for each error of the system. Input is read ahead, and what is written is gathered. It
/// goes out before a read that has to wait, by `deliver`, at the end, and where the buffer is full; a read before which it
/// can't go out fails. Once it is closed, it has no socket and no buffers any more, and every read and write fails.
#[derive(Drop)]
pub struct TcpLink {
    socket: Option<Socket>,
    read_faults: u64,
    write_faults: u64,
}

// Both sides of a connection, with buffers.
#[derive(Drop)]
struct Socket {
    input: BufReader<TcpStream>,
    output: BufWriter<TcpStream>,
}

impl Socket {
    // Reads, after all was sent where no input was read ahead.
    fn read(&mut self, room: &mut [u8]) -> io::Result<usize>
        ensures { IfOk result (λ n. n ≤ length room.new) }
    {
        if self.input.buffer().is_empty() {
            self.output.flush()?;
        }
        self.input.read(room)
    }
}

impl TcpLink {
    // A link over a connection that has just been made.
    fn over(alloc: Global, stream: TcpStream) -> io::Result<TcpLink> {
        stream.set_nodelay(true)?;
        let output = stream.try_clone()?;
        Ok(TcpLink {
            socket: Some(Socket {
                input: BufReader::with_capacity(alloc, BUFFER_SIZE, stream)?,
                output: BufWriter::with_capacity(alloc, BUFFER_SIZE, output)?,
            }),
            read_faults: 0,
            write_faults: 0,
        })
    }

    /// Connects to an address, as the number of its four bytes, the first one highest.
    pub fn connect<N: Net<Stream = TcpStream>>(
        alloc: Global,
        net: &N,
        address: u32,
        port: u16,
    ) -> io::Result<TcpLink> {
        TcpLink::over(
            alloc,
            TcpStream::connect(net, socket_address(address, port))?,
        )
    }
}

// The address of a socket, from its numbers.
fn socket_address(address: u32, port: u16) -> SocketAddr {
    SocketAddr::from((Ipv4Addr::from_bits(address), port))
}

impl Source for TcpLink {
    ghost use Rattle.std.specs.Prelude.{◌≡◌, None};

    ghost left = { λ _. None };

    ghost read_faults = { λ link. link.read_faults };

    ghost was_read = { λ old new. new.write_faults ≡ old.write_faults };

    fn read(&mut self, room: &mut [u8]) -> Got {
        match self.socket.as_mut().map(|socket| socket.read(room)) {
            Some(Ok(0)) => Got::End,
            Some(Ok(n)) => Got::Bytes(n),
            Some(Err(_)) | None => {
                self.read_faults = self.read_faults.saturating_add(1);
                Got::Failed
            }
        }
    }
}

impl Sink for TcpLink {
    ghost use Rattle.std.specs.Prelude.{◌≡◌, None};
    ghost use Rattle.std.proofs.Common.{refl, ◌∙◌};

    ghost held = { λ _. None };

    ghost write_faults = { λ link. link.write_faults };

    ghost was_written = { λ old new. new.read_faults ≡ old.read_faults };

    ghost writes_nowhere = { λ _. refl };

    ghost writes_on = { λ _ _ _ h k. k ∙ h };

    fn write(&mut self, piece: &[u8]) -> Put {
        match self
            .socket
            .as_mut()
            .map(|socket| socket.output.write(piece))
        {
            Some(Ok(n)) if n > 0 => Put::Bytes(n),
            _ => {
                self.write_faults = self.write_faults.saturating_add(1);
                Put::Failed
            }
        }
    }
}

impl Link for TcpLink {
    ghost use Rattle.std.specs.Prelude.{◌≡◌, None};
    ghost use Rattle.std.proofs.Common.{refl};

    ghost was_led = { λ _ _. Unit {0} };

    ghost room = { λ _. None };

    ghost both_or_neither = { λ _. tt };

    ghost read_keeps_held = { λ _ _ _. refl };

    ghost read_keeps_faults = { λ _ _ h. h };

    ghost write_keeps_left = { λ _ _ _. refl };

    ghost write_keeps_faults = { λ _ _ h. h };

    ghost read_leads = { λ _ _ _. tt };

    ghost write_leads = { λ _ _ _. tt };

    ghost leads_nowhere = { λ _. tt };

    ghost leads_on = { λ _ _ _ _ _. tt };

    ghost writes_take_room = { λ _ _ _ _ _. tt };

    fn deliver(&mut self) {
        if let Some(socket) = &mut self.socket {
            let _ = socket.output.flush();
        }
    }

    // Where the other side is gone already, there is nothing to be sent or shut down.
    fn close(&mut self) {
        self.deliver();
        if let Some(socket) = self.socket.take() {
            let _ = socket.output.get_ref().shutdown(Shutdown::Both);
        }
    }
}

/// A TCP listener as a door. It tells no links, and is never closed.
#[derive(Drop)]
pub struct TcpDoor {
    alloc: Global,
    listener: TcpListener,
    faults: u64,
}

impl TcpDoor {
    /// A door at an address of this machine, as the number of its four bytes, the first one highest. With port 0 the
    /// system picks a free one.
    pub fn bind<N: Net<Listener = TcpListener, Stream = TcpStream>>(
        alloc: Global,
        net: &N,
        address: u32,
        port: u16,
    ) -> io::Result<TcpDoor> {
        let listener = TcpListener::bind(net, socket_address(address, port))?;
        Ok(TcpDoor {
            alloc,
            listener,
            faults: 0,
        })
    }

    /// A further door of the same listener. Each connection comes in at one of them.
    pub fn share(&self) -> io::Result<TcpDoor> {
        let listener = self.listener.try_clone()?;
        Ok(TcpDoor {
            alloc: self.alloc,
            listener,
            faults: 0,
        })
    }

    /// The port that it listens at.
    pub fn port(&self) -> io::Result<u16> {
        Ok(self.listener.local_addr()?.port())
    }

    fn accept(&self) -> io::Result<TcpLink> {
        let (stream, _) = self.listener.accept()?;
        TcpLink::over(self.alloc, stream)
    }
}

impl Door for TcpDoor {
    ghost use Rattle.std.specs.Prelude.{None};

    type Link = TcpLink;

    ghost handed = { λ _. None };

    ghost faults = { λ door. door.faults };

    ghost closings = { λ _. 0 };

    ghost was_led = { λ _ _. Unit {0} };

    ghost leads_nowhere = { λ _. tt };

    ghost leads_on = { λ _ _ _ _ _. tt };

    fn next(&mut self) -> Knock<TcpLink> {
        match self.accept() {
            Ok(link) => Knock::Link(link),
            Err(_) => {
                self.faults = self.faults.saturating_add(1);
                Knock::Failed
            }
        }
    }
}
