// A reader and a writer as one link, with buffers.
ghost use Rattle.std.specs.Prelude.{◌≡◌, ◌<◌, ◌≤◌, length, [], None, IfOk, OnOk, OnErr};
ghost use Rattle.std.specs.Io.Buffered.{writer_buffer, reader_buffer, reader_inner, reader_remaining, writer_contents};
ghost use Rattle.qron_link.specs.Pipes.{Piped, both_sides, new_piped, SendFailed, IsSentWhereItWaits, Received, Passed, left_of, held_of};

use crate::{Got, Link, Put, Reader, Sink, Source, Writer};
use std::alloc::{AllocError, Global};
use std::io::{self, BufReader, BufWriter, Read, Stdin, Stdout, Write};
use std::marker::Model;

// The bytes of each buffer.
const BUFFER_SIZE: usize = 65_536;

/// Standard input and output as one link. It tells no bytes.
pub type StdPipe = Pipe<Stdin, Stdout>;

/// What was written could not be sent.
#[derive(Clone, Copy, PartialEq, Eq, Debug, Drop)]
pub struct NotSent;

/// A reader and a writer as one link. It tells its bytes where both of them do.
///
/// Input is read ahead. While some of it waits, what is written is gathered, so a stream of many small messages takes
/// few calls of the operating system; where none waits, a write goes out at once. Nothing is gathered while a read
/// waits for input: what was gathered is sent before, and where that fails the read fails. At the end call `flush`.
#[derive(Drop)]
pub struct Pipe<R: Reader, W: Writer> {
    input: BufReader<R>,
    output: BufWriter<W>,
    read_faults: u64,
    write_faults: u64,
}

impl<R: Reader, W: Writer> Model for Pipe<R, W> {
    ghost Value = { Piped };

    ghost view = { λ p. record {
      counts = record { reads = p.read_faults; writes = p.write_faults };
      bytes = both_sides (reader_remaining R.remaining p.input) (writer_contents W.contents p.output);
      ahead = reader_buffer p.input;
      gathered = writer_buffer p.output;
    } };

    ghost invariant = { λ p. reader_remaining R.remaining p.input ≡ None → R.remaining (reader_inner p.input) ≡ None };
}

impl<R: Reader, W: Writer> Pipe<R, W> {
    /// A pipe that did not fail yet, with a buffer for each side.
    pub fn new(alloc: Global, input: R, output: W) -> Result<Pipe<R, W>, AllocError>
        ensures { IfOk result (λ pipe. pipe ≡ new_piped (R.remaining input) (W.contents output)) }
    {
        let (Ok(input), Ok(output)) = (
            BufReader::with_capacity(alloc, BUFFER_SIZE, input),
            BufWriter::with_capacity(alloc, BUFFER_SIZE, output),
        ) else {
            return Err(AllocError);
        };
        Ok(Pipe {
            input,
            output,
            read_faults: 0,
            write_faults: 0,
        })
    }

    /// Sends what was gathered. What can't be sent stays, and the next call tries again.
    pub fn flush(&mut self) -> Result<(), NotSent>
        ensures sent { OnOk result (self.new ≡ record self.old { gathered = [] }) }
        ensures failed { OnErr result (SendFailed self.old self.new) }
    {
        match self.send_gathered() {
            Ok(()) => Ok(()),
            Err(_) => {
                self.write_faults = self.write_faults.saturating_add(1);
                Err(NotSent)
            }
        }
    }

    fn send_gathered(&mut self) -> io::Result<()>
        ensures sent { OnOk result (self.new.gathered ≡ []) }
        ensures bytes { self.new.bytes ≡ self.old.bytes }
        ensures ahead { self.new.ahead ≡ self.old.ahead }
        ensures counts { self.new.counts ≡ self.old.counts }
    {
        self.output.flush()
    }

    // Reads. This waits where no input was read ahead, so nothing may be gathered then.
    fn receive(&mut self, room: &mut [u8]) -> io::Result<usize>
        requires some { 0 < length room.old }
        requires sent { IsSentWhereItWaits self.old }
        ensures left { Received result (left_of self.old.bytes) (left_of self.new.bytes) room.new }
        ensures held { held_of self.new.bytes ≡ held_of self.old.bytes }
        ensures gathered { self.new.gathered ≡ self.old.gathered }
        ensures counts { self.new.counts ≡ self.old.counts }
    {
        self.input.read(room)
    }

    // Reads, after all was sent where no input was read ahead.
    fn take(&mut self, room: &mut [u8]) -> io::Result<usize>
        requires some { 0 < length room.old }
        ensures left { Received result (left_of self.old.bytes) (left_of self.new.bytes) room.new }
        ensures held { held_of self.new.bytes ≡ held_of self.old.bytes }
        ensures sent { OnOk result (self.old.ahead ≡ [] → self.new.gathered ≡ []) }
        ensures counts { self.new.counts ≡ self.old.counts }
    {
        if self.input.buffer().is_empty() {
            self.send_gathered()?;
        }
        self.receive(room)
    }

    // Adds a piece to what is gathered.
    fn gather(&mut self, piece: &[u8]) -> io::Result<usize>
        ensures held { Passed result (held_of self.old.bytes) (held_of self.new.bytes) piece.now }
        ensures left { left_of self.new.bytes ≡ left_of self.old.bytes }
        ensures counts { self.new.counts ≡ self.old.counts }
    {
        self.output.write(piece)
    }

    // Sends what was gathered, and then the piece, as far as the writer takes it.
    fn send(&mut self, piece: &[u8]) -> io::Result<usize>
        ensures held { Passed result (held_of self.old.bytes) (held_of self.new.bytes) piece.now }
        ensures left { left_of self.new.bytes ≡ left_of self.old.bytes }
        ensures counts { self.new.counts ≡ self.old.counts }
    {
        self.output.flush()?;
        self.output.get_mut().write(piece)
    }
}

impl<R: Reader, W: Writer> Source for Pipe<R, W> {
    ghost use Rattle.qron_link.specs.Outside.{ReadDid, ReadCause};
    ghost use Rattle.qron_link.specs.Pipes.{counts_after_read, SentBefore, KeepsHeld};

    ghost left = { λ p. left_of p.bytes };

    ghost read_faults = { λ p. p.counts.reads };

    ghost was_read = { KeepsHeld };

    fn read(&mut self, room: &mut [u8]) -> Got
        requires { 0 < length room.old }
        ensures bytes { ReadDid result (left_of self.old.bytes) (left_of self.new.bytes) room.new }
        ensures cause { ReadCause result self.old.counts.reads self.new.counts.reads }
        ensures step { KeepsHeld self.old self.new }
        ensures counts { self.new.counts ≡ counts_after_read result self.old.counts }
        ensures sent { SentBefore result self.old self.new }
    {
        match self.take(room) {
            Ok(0) => Got::End,
            Ok(n) => Got::Bytes(n),
            Err(_) => {
                self.read_faults = self.read_faults.saturating_add(1);
                Got::Failed
            }
        }
    }
}

impl<R: Reader, W: Writer> Sink for Pipe<R, W> {
    ghost use Rattle.qron_link.specs.Outside.{WriteDid, WriteCause};
    ghost use Rattle.std.proofs.Common.{rules};
    ghost use Rattle.qron_link.specs.Pipes.{counts_after_write, KeepsLeft};

    ghost held = { λ p. held_of p.bytes };

    ghost write_faults = { λ p. p.counts.writes };

    ghost was_written = { KeepsLeft };

    ghost writes_nowhere = { λ p. Prim.search rules };

    ghost writes_on = { λ a b c h k. Prim.search rules };

    fn write(&mut self, piece: &[u8]) -> Put
        requires { 0 < length piece.now }
        ensures bytes { WriteDid result (held_of self.old.bytes) (held_of self.new.bytes) piece.now }
        ensures cause { WriteCause result self.old.counts.writes self.new.counts.writes }
        ensures step { KeepsLeft self.old self.new }
        ensures counts { self.new.counts ≡ counts_after_write result self.old.counts }
    {
        let written = if self.input.buffer().is_empty() {
            self.send(piece)
        } else {
            self.gather(piece)
        };
        match written {
            Ok(n) if n > 0 => Put::Bytes(n),
            _ => {
                self.write_faults = self.write_faults.saturating_add(1);
                Put::Failed
            }
        }
    }
}

impl<R: Reader, W: Writer> Link for Pipe<R, W> {
    ghost use Rattle.qron_link.specs.Pipes.{same_told};

    ghost was_led = { λ _ _. Unit {0} };

    ghost room = { λ _. None };

    ghost both_or_neither = { λ p. same_told p.bytes };

    ghost read_keeps_held = { λ _ _ h. h.held };

    ghost read_keeps_faults = { λ _ _ h. h.write_faults };

    ghost write_keeps_left = { λ _ _ h. h.left };

    ghost write_keeps_faults = { λ _ _ h. h.read_faults };

    ghost read_leads = { λ _ _ _. tt };

    ghost write_leads = { λ _ _ _. tt };

    ghost leads_nowhere = { λ _. tt };

    ghost leads_on = { λ _ _ _ _ _. tt };

    ghost writes_take_room = { λ _ _ _ _ _. tt };

    // What can't be sent stays, so a `flush` behind this tells it.
    fn deliver(&mut self)
        ensures left { left_of self.new.bytes ≡ left_of self.old.bytes }
        ensures held { held_of self.new.bytes ≡ held_of self.old.bytes }
        ensures read_faults { self.new.counts.reads ≡ self.old.counts.reads }
        ensures write_faults { self.new.counts.writes ≡ self.old.counts.writes }
        ensures step { Unit {0} }
    {
        let _ = self.send_gathered();
    }

    fn close(&mut self)
        ensures left { left_of self.new.bytes ≡ left_of self.old.bytes }
        ensures held { held_of self.new.bytes ≡ held_of self.old.bytes }
        ensures read_faults { self.new.counts.reads ≡ self.old.counts.reads }
        ensures write_faults { self.new.counts.writes ≡ self.old.counts.writes }
        ensures step { Unit {0} }
    {
        self.deliver();
    }
}
