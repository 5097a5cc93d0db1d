// What a terminal is told of the connections of a network.
use arrayvec::ArrayString;
use std::fmt::Write as FmtWrite;
use std::io::{IsTerminal, Stderr, Write};

// The most bytes of a line.
const LINE: usize = 192;

/// What says lines. Any thread may have a copy of its own.
pub trait Voice: Copy {
    /// Says a line, by one write, so that lines of threads don't mix. Nothing is promised of what becomes of it.
    fn say(&self, line: &str);
}

/// Standard error where it is a terminal, and silence where it isn't.
#[derive(Clone, Copy)]
pub struct Terminal {
    out: Option<Stderr>,
}

impl Terminal {
    /// A voice over standard error.
    pub fn of(out: Stderr) -> Terminal {
        Terminal {
            out: if out.is_terminal() { Some(out) } else { None },
        }
    }
}

impl Voice for Terminal {
    fn say(&self, line: &str) {
        if let Some(mut out) = self.out {
            let _ = out.write(line.as_bytes());
        }
    }
}

/// How a connection ended, by what the calls of its link answered.
#[derive(Clone, Copy, PartialEq, Eq, Debug)]
pub enum LinkEnd {
    /// The node closed it, while its peer might still have sent.
    ByNode,
    /// No byte was left, and none will come.
    ByPeer,
    /// A read failed.
    ReadFailed,
    /// A write failed.
    WriteFailed,
}

impl LinkEnd {
    fn text(self) -> &'static str {
        match self {
            LinkEnd::ByNode => "closed by the node",
            LinkEnd::ByPeer => "closed by its peer",
            LinkEnd::ReadFailed => "a read failed",
            LinkEnd::WriteFailed => "a write failed",
        }
    }
}

/// Says of a connection when it came, and how it ended. It is named as in the record: by its node, the seat of its
/// worker and its serial.
#[derive(Clone, Copy)]
pub struct Caller<V: Voice> {
    pub voice: V,
    pub node: usize,
    pub seat: usize,
    pub serial: u64,
}

impl<V: Voice> Caller<V> {
    /// Says that it came.
    pub fn say_came(&self) {
        let mut line = ArrayString::<LINE>::new();
        let Caller {
            node,
            seat,
            serial,
            ..
        } = *self;
        if writeln!(line, "node {node}: connection {serial} of seat {seat} came").is_ok() {
            self.voice.say(line.as_str());
        }
    }

    /// Says how it ended, and how many bytes were read and written.
    pub fn say_ended(&self, end: LinkEnd, read: u64, written: u64) {
        let mut line = ArrayString::<LINE>::new();
        let Caller {
            node,
            seat,
            serial,
            ..
        } = *self;
        let how = end.text();
        if writeln!(
            line,
            "node {node}: connection {serial} of seat {seat} ended: {how}, {read} bytes read, {written} written"
        )
        .is_ok()
        {
            self.voice.say(line.as_str());
        }
    }
}
