// Sessions that need each other's replies, so that no order serves them one after the other.
use crate::serving_tests::{MAKER, MEASURED, TAKER, served_by_two};
use crate::tests::MOST;
use cqc_session::Ending;
use hex::decode;
use qron_link::{Door, Knock, Link, Pipe, Reader, Writer};
use std::alloc::Global;
use std::io::{self, Cursor, ErrorKind, Read, Write};
use std::process::Abort;
use std::sync::Wait;
use std::sync::atomic::AtomicU64;
use std::sync::atomic::Ordering::SeqCst;
use std::test::*;
use std::thread::{Threads, yield_now};

// How often a reader looks whether enough was written to the other link.
const TURNS: u32 = 1_000_000;

/// What goes over a link, in hexadecimal: of the input so many bytes are given freely, and the rest once so many were
/// written to the other link; the output is all that may be written.
#[derive(Clone, Copy, Drop)]
pub(crate) struct Talk<'a, 'b> {
    pub input: &'a str,
    pub free: usize,
    pub after: u64,
    pub output: &'b str,
}

// The reader of such a link.
#[derive(Drop)]
struct HeldReader<'a> {
    bytes: Cursor<Vec<u8>>,
    free: usize,
    after: u64,
    other: &'a AtomicU64,
}

impl Read for HeldReader<'_> {
    fn read(&mut self, room: &mut [u8]) -> io::Result<usize> {
        if self.free > 0 {
            let most = room.len().min(self.free);
            let size = self.bytes.read(&mut room[..most])?;
            self.free = self.free.saturating_sub(size);
            return Ok(size);
        }
        let after = self.after;
        let other = self.other;
        let in_time = (0..TURNS).any(|_| {
            yield_now();
            other.load(SeqCst) >= after
        });
        if in_time {
            self.bytes.read(room)
        } else {
            Err(ErrorKind::TimedOut.into())
        }
    }
}

impl Reader for HeldReader<'_> {
    ghost use Rattle.std.specs.Prelude.{refl};

    ghost untold = { λ _ _ _. refl };
}

// The writer of such a link, which counts what it is given and takes nothing else than its output.
#[derive(Drop)]
struct CheckedWriter<'a> {
    output: Vec<u8>,
    at: usize,
    written: &'a AtomicU64,
}

impl Write for CheckedWriter<'_> {
    fn write(&mut self, piece: &[u8]) -> io::Result<usize> {
        let rest = self.output.get(self.at..).unwrap_or(&[]);
        if !rest.starts_with(piece) {
            return Err(ErrorKind::InvalidData.into());
        }
        self.at = self.at.saturating_add(piece.len());
        self.written.store(self.at as u64, SeqCst);
        Ok(piece.len())
    }

    fn flush(&mut self) -> io::Result<()> {
        Ok(())
    }
}

impl Writer for CheckedWriter<'_> {
    ghost use Rattle.std.specs.Prelude.{refl};

    ghost untold = { λ _ _ _. refl };
}

// A door with one link.
#[derive(Drop)]
struct OneDoor<L> {
    link: Option<L>,
    closings: u64,
}

impl<L: Link + Drop> Door for OneDoor<L> {
    ghost use Rattle.std.specs.Prelude.{None};

    type Link = L;

    ghost handed = { λ _. None };

    ghost faults = { λ _. 0 };

    ghost closings = { λ door. door.closings };

    ghost was_led = { λ _ _. Unit {0} };

    ghost leads_nowhere = { λ _. tt };

    ghost leads_on = { λ _ _ _ _ _. tt };

    fn next(&mut self) -> Knock<L> {
        match self.link.take() {
            Some(link) => Knock::Link(link),
            None => {
                self.closings = self.closings.saturating_add(1);
                Knock::Closed
            }
        }
    }
}

type HeldDoor<'a> = OneDoor<Pipe<HeldReader<'a>, CheckedWriter<'a>>>;

// The door of a link, which counts what is written to it, and looks how much was to the other.
fn door<'a>(
    alloc: Global,
    talk: Talk,
    written: &'a AtomicU64,
    other: &'a AtomicU64,
) -> Result<HeldDoor<'a>, Fail> {
    let reader = HeldReader {
        bytes: Cursor::new(decode(alloc, talk.input)?),
        free: talk.free,
        after: talk.after,
        other,
    };
    let writer = CheckedWriter {
        output: decode(alloc, talk.output)?,
        at: 0,
        written,
    };
    Ok(OneDoor {
        link: Some(Pipe::new(alloc, reader, writer)?),
        closings: 0,
    })
}

/// Two nodes serve these links beside each other, and each ends between two messages with its output written.
pub(crate) fn are_served<R: Threads + Wait + Abort + Sync>(
    rt: &R,
    alloc: Global,
    talks: [Talk; 2],
    words: ([u64; 2], [u64; 2]),
    times: u32,
) -> Result<(), Fail> {
    let counts = [AtomicU64::new(0), AtomicU64::new(0)];
    let doors = (
        door(alloc, talks[0], &counts[0], &counts[1])?,
        door(alloc, talks[1], &counts[1], &counts[0])?,
    );
    let record = served_by_two(rt, alloc, doors, words, times)?;
    assert_eq!(rt; record.served.len(), 2);
    for connection in &record.served {
        assert!(rt; matches!(connection.ending, Ending::Clean));
    }
    for (talk, count) in talks.iter().zip(&counts) {
        assert_eq!(rt; count.load(SeqCst), talk.output.len() as u64 / 2);
    }
    Ok(())
}

// The first waits at once for a reply to the second, which waits behind its first message for a reply to the first.
fn are_crossed<'a, 'b, R: Threads + Wait + Abort + Sync>(
    rt: &R,
    alloc: Global,
    inputs: [&'a str; 2],
    outputs: [&'b str; 2],
) -> Result<(), Fail> {
    let first = Talk {
        input: inputs[0],
        free: 0,
        after: 1,
        output: outputs[0],
    };
    let twice = format!(in alloc; "{}{}", inputs[1], inputs[1])?;
    let second = Talk {
        input: twice.as_str(),
        free: inputs[1].len() / 2,
        after: 1,
        output: outputs[1],
    };
    are_served(rt, alloc, [first, second], ([MOST; 2], [MOST; 2]), 0)
}

#[test]
fn crossed_sessions(rt: HostRuntime) -> Result<(), Fail> {
    let outputs = [
        "020a0000000000020000020700000000000100",
        "020a0000000000020000020700000000000100020a0000000000020000020700000000000100",
    ];
    are_crossed(&rt, rt.alloc(), [MEASURED; 2], outputs)
}

// The taker asks too early, and again behind the maker.
#[test]
fn taker_of_a_pair_asks_again(rt: HostRuntime) -> Result<(), Fail> {
    let alloc = rt.alloc();
    let pair =
        "020600000000002a00007f000001227500007f00000122760000000000000000000000000000000000000000000000000000";
    let made = format!(in alloc; "{pair}020700000000000100")?;
    let taken = format!(in alloc; "0217000000000000{made}", made = made.as_str())?;
    are_crossed(&rt, alloc, [MAKER, TAKER], [made.as_str(), taken.as_str()])
}
