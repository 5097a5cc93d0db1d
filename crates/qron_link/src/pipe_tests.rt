// Pipes over a reader and a writer that take pieces and fail where they are told to.
use super::*;
use std::alloc::Global;
use std::cell::RefCell;
use std::io::{self, Cursor, ErrorKind, Read, Write};
use std::process::Abort;
use std::rc::Rc;
use std::test::Fail;

// What both ends note: the bytes that were sent, and how many they were when each read began.
#[derive(Drop)]
struct Notes {
    sent: Vec<u8>,
    before_reads: Vec<usize>,
}

type Shared = Rc<RefCell<Notes>>;

// The most bytes of a call, and the number of the call that fails.
#[derive(Clone, Copy, Drop)]
struct Way {
    piece: usize,
    bad_call: usize,
}

// Every call takes all, and none fails.
const SMOOTH: Way = Way {
    piece: 64,
    bad_call: 64,
};

// No call takes more, and none fails.
fn pieces(piece: usize) -> Way {
    Way { piece, ..SMOOTH }
}

// One end of a pipe: its way, how often it was called, and what both ends note.
#[derive(Drop)]
struct End {
    way: Way,
    calls: usize,
    notes: Shared,
}

impl End {
    // Whether this call is the one that fails.
    fn fails(&mut self) -> bool {
        let number = self.calls;
        self.calls = number.saturating_add(1);
        number == self.way.bad_call
    }
}

#[derive(Drop)]
struct Feed {
    bytes: Cursor<Vec<u8>>,
    end: End,
}

impl Read for Feed {
    fn read(&mut self, room: &mut [u8]) -> io::Result<usize> {
        let fails = self.end.fails();
        let Ok(mut notes) = self.end.notes.try_borrow_mut() else {
            return Err(ErrorKind::Other.into());
        };
        let sent = notes.sent.len();
        notes.before_reads.push(sent)?;
        if fails {
            return Err(ErrorKind::ConnectionReset.into());
        }
        let most = room.len().min(self.end.way.piece);
        self.bytes.read(&mut room[..most])
    }
}

impl Reader for Feed {
    ghost use Rattle.std.specs.Prelude.{refl};

    ghost untold = { λ _ _ _. refl };
}

#[derive(Drop)]
struct Outlet {
    end: End,
}

impl Write for Outlet {
    fn write(&mut self, piece: &[u8]) -> io::Result<usize> {
        if self.end.fails() {
            return Err(ErrorKind::BrokenPipe.into());
        }
        let Ok(mut notes) = self.end.notes.try_borrow_mut() else {
            return Err(ErrorKind::Other.into());
        };
        let size = piece.len().min(self.end.way.piece);
        notes.sent.extend_from_slice(&piece[..size])?;
        Ok(size)
    }

    fn flush(&mut self) -> io::Result<()> {
        Ok(())
    }
}

impl Writer for Outlet {
    ghost use Rattle.std.specs.Prelude.{refl};

    ghost untold = { λ _ _ _. refl };
}

// An end that notes what it does here.
fn end_of(way: Way, notes: &Shared) -> Result<End, Fail> {
    Ok(End {
        way,
        calls: 0,
        notes: notes.clone()?,
    })
}

// Notes, and a pipe that keeps them, with the bytes 0 to 23 to read.
fn noted(alloc: Global, reads: Way, writes: Way) -> Result<(Shared, Pipe<Feed, Outlet>), Fail> {
    let mut bytes = Vec::new(alloc);
    for byte in 0..24u8 {
        bytes.push(byte)?;
    }
    let nothing = Notes {
        sent: Vec::new(alloc),
        before_reads: Vec::new(alloc),
    };
    let notes = Rc::new(alloc, RefCell::new(nothing))?;
    let output = Outlet {
        end: end_of(writes, &notes)?,
    };
    let end = end_of(reads, &notes)?;
    let pipe = Pipe::new(
        alloc,
        Feed {
            bytes: Cursor::new(bytes),
            end,
        },
        output,
    )?;
    Ok((notes, pipe))
}

// A call of a pipe, and what it answers, or how many bytes are sent by now. Each read has room for eight bytes.
#[derive(Clone, Copy, Drop)]
enum Call<'a> {
    Read(Got),
    Write(&'a [u8], Put),
    Flush(Result<(), NotSent>),
    Sent(usize),
}

// The ways of both ends of a pipe and its calls; what is sent once it is closed, and how much was sent when each read of its
// reader began.
type Case<'a> = (Way, Way, &'a [Call<'a>], &'a [u8], &'a [usize]);

// What a room holds before a read.
const BEFORE: u8 = 99;

// Calls a pipe as a case says: what it reads are the next bytes, and nothing else changes in the room.
fn follow<R: Abort>(rt: &R, alloc: Global, case: Case) -> Result<(), Fail> {
    let (reads, writes, calls, all, before_reads) = case;
    let (notes, mut pipe) = noted(alloc, reads, writes)?;
    let mut next = 0u8;
    for call in calls {
        match *call {
            Call::Read(got) => {
                let mut room = [BEFORE; 8];
                assert_eq!(rt; pipe.read(&mut room), got);
                let size = if let Got::Bytes(size) = got { size } else { 0 };
                for (place, byte) in room.iter().enumerate() {
                    let wanted = if place < size { next } else { BEFORE };
                    assert_eq!(rt; *byte, wanted);
                    next = next.saturating_add(u8::from(place < size));
                }
            }
            Call::Write(piece, put) => {
                if piece.is_empty() {
                    return Err("an empty piece isn't written".into());
                }
                assert_eq!(rt; pipe.write(piece), put);
            }
            Call::Flush(done) => assert_eq!(rt; pipe.flush(), done),
            Call::Sent(size) => {
                assert_eq!(rt; notes.try_borrow().expect(rt, "notes").sent.len(), size);
            }
        }
    }
    pipe.close();
    assert!(rt; pipe.flush().is_ok());
    let notes = notes.try_borrow().expect(rt, "notes");
    assert!(rt; notes.sent.as_slice() == all);
    assert!(rt; notes.before_reads.as_slice() == before_reads);
    Ok(())
}

#[test]
fn what_is_written_is_sent_in_order(rt: HostRuntime) -> Result<(), Fail> {
    use Call::{Flush, Read, Sent, Write};
    let eight = [0, 1, 2, 3, 4, 5, 6, 7];
    let read = Read(Got::Bytes(8));
    let write = Write(&eight, Put::Bytes(8));
    let last = Write(&[50; 8], Put::Bytes(8));
    let short = Write(&[50, 51, 52, 53], Put::Bytes(3));
    let more = Write(&[60, 61], Put::Bytes(2));
    let cases: [Case; 3] = [
        // writes are gathered while input waits
        (
            SMOOTH,
            SMOOTH,
            &[
                read,
                write,
                read,
                write,
                Sent(0),
                read,
                last,
                Sent(24),
                Read(Got::End),
            ],
            &[
                0, 1, 2, 3, 4, 5, 6, 7, 0, 1, 2, 3, 4, 5, 6, 7, 50, 50, 50, 50, 50, 50, 50, 50,
            ],
            &[0, 24],
        ),
        // all is sent before a read that waits; nothing waits for the four bytes that were read ahead
        (
            pieces(12),
            SMOOTH,
            &[read, write, Read(Got::Bytes(4)), Sent(0), read, Sent(8)],
            &eight,
            &[0, 8],
        ),
        // a short write is told, and pieces keep their order; what is written goes out at once where no input was read ahead
        (
            SMOOTH,
            pieces(3),
            &[short, Sent(3), read, write, more, Sent(3), Flush(Ok(()))],
            &[50, 51, 52, 0, 1, 2, 3, 4, 5, 6, 7, 60, 61],
            &[3],
        ),
    ];
    for case in cases {
        follow(&rt, rt.alloc(), case)?;
    }
    Ok(())
}

#[test]
fn failures_are_told_and_lose_nothing(rt: HostRuntime) -> Result<(), Fail> {
    use Call::{Flush, Read, Sent, Write};
    let six = Read(Got::Bytes(6));
    let second = Way {
        piece: 6,
        bad_call: 1,
    };
    let first = Way {
        bad_call: 0,
        ..SMOOTH
    };
    let refused = Write(&[1], Put::Failed);
    let taken = Write(&[1], Put::Bytes(1));
    let eight = Read(Got::Bytes(8));
    let gathered = Write(&[7, 8, 9], Put::Bytes(3));
    let failed = Read(Got::Failed);
    let unsent = Flush(Err(NotSent));
    let cases: [Case; 4] = [
        (second, SMOOTH, &[six, failed, six], &[], &[0, 0, 0]),
        // what can't be sent at once isn't taken
        (SMOOTH, first, &[refused, Sent(0), taken], &[1], &[]),
        // what was gathered and can't be sent is told at the next read that waits, or at the end, and stays
        (
            pieces(16),
            first,
            &[eight, gathered, eight, failed],
            &[7, 8, 9],
            &[0],
        ),
        (SMOOTH, first, &[eight, gathered, unsent], &[7, 8, 9], &[0]),
    ];
    for case in cases {
        follow(&rt, rt.alloc(), case)?;
    }
    Ok(())
}

#[test]
fn pipes_lie_in_memory_too(rt: HostRuntime) -> Result<(), Fail> {
    let alloc = rt.alloc();
    let bytes = vec![in alloc; 4, 5]?;
    let mut pipe = Pipe::new(alloc, Cursor::new(bytes), Vec::new(alloc))?;
    let mut room = [0; 4];
    assert!(rt; matches!(read_link(&mut pipe, &mut room), Got::Bytes(2)));
    assert!(rt; send_link(&mut pipe, &room[..2]) == Ok(()));
    assert!(rt; matches!(pipe.read(&mut room), Got::End));
    assert!(rt; pipe.flush().is_ok());
    Ok(())
}
