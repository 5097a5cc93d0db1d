// A hub in a test, and seats at it.
ghost use Rattle.std.specs.Prelude.{◌≡◌, ◌<◌, ◌≤◌, ◌+◌, ◌*◌, ℕ, length, vec_len, slice_get, Some, true, IfOk};
ghost use Rattle.commit_journal.specs.Views.{Worker};

use crate::hub::Hub;
use commit_journal::{Framed, Pass};
use cqc_model::{Command, Instr, Remote};
use factored_core::Solo;
use history_front::Named;
use network_model::{Call, CoreReply, Entry, JournalFull, Place};
use qron_link::{CountPatience, Dice, ListDice, Patience};
use std::alloc::{AllocError, Global};
use std::process::Abort;
use std::sync::Wait;
use std::sync::atomic::AtomicU64;
use std::sync::atomic::Ordering::SeqCst;
use std::test::*;
use std::thread::yield_now;
use virtual_node::Shape;

// 127.0.0.1, and the port of the first node. Each other has the next port.
const ADDRESS: u32 = 0x7f00_0001;

const FIRST_PORT: u16 = 8821;

// How often a thread looks whether its turn has come.
const TURNS: u32 = 1_000_000;

/// What is asked: at which node, in which app, of which qubit, and the word that it would draw.
#[derive(Clone, Copy)]
pub(crate) struct Asked {
    pub node: u8,
    pub app: u16,
    pub qubit: u16,
    pub instr: Instr,
    pub word: u64,
}

/// The same in app 0 with the word 0.
pub(crate) fn plain(node: u8, qubit: u16, instr: Instr) -> Asked {
    Asked {
        node,
        app: 0,
        qubit,
        instr,
        word: 0,
    }
}

/// App 0 of one of the first nodes.
pub(crate) fn remote(node: u16) -> Remote {
    Remote {
        app: 0,
        port: FIRST_PORT.wrapping_add(node),
        node: ADDRESS,
    }
}

// The place of a node, counted from 1.
fn at(node: u8) -> Place
    ensures { result ≡ record { address = 2130706433; port = 8820 + node } }
{
    Place {
        address: ADDRESS,
        port: 8820 + u16::from(node),
    }
}

/// Two nodes with this room, where up to so many qubits may be entangled.
pub(crate) fn two_nodes(room: u8, limit: u8) -> Shape
    requires { (1 ≤ room) × (room ≤ 16) × (1 ≤ limit) × (limit ≤ 12) }
{
    Shape::new(&[at(1), at(2)], room, limit)
}

/// Eight nodes with room 16 and limit 12.
pub(crate) fn eight_nodes() -> Shape {
    let places = [at(1), at(2), at(3), at(4), at(5), at(6), at(7), at(8)];
    Shape::new(&places, 16, 12)
}

/// What two threads tell each other: how many steps are done.
#[derive(Drop)]
pub(crate) struct Turns {
    done: AtomicU64,
}

impl Turns {
    /// No step is done.
    pub(crate) fn new() -> Turns {
        Turns {
            done: AtomicU64::new(0),
        }
    }

    /// So many steps are done.
    pub(crate) fn tell(&self, place: u64) {
        self.done.store(place, SeqCst);
    }

    /// Whether so many steps were done before this one has looked so often.
    pub(crate) fn reach(&self, place: u64) -> bool {
        for _ in 0..TURNS {
            if self.done.load(SeqCst) == place {
                return true;
            }
            yield_now();
        }
        false
    }
}

/// A hub, its memory, the passes of its seats, and how many nodes and seats it has.
#[derive(Drop)]
pub(crate) struct Site<N: Named + Framed> {
    pub hub: Hub<N>,
    pub alloc: Global,
    pub passes: Vec<Pass<N>>,
    pub nodes: u8,
    pub seats: u16,
    ghost nodes_are: { nodes ≡ length N.shape.places },
    ghost seats_are: { N.seats ≡ seats },
}

/// A seat with its pass, at a hub of so many nodes.
#[derive(Drop)]
pub(crate) struct Seat<N: Named + Framed> {
    pub pass: Pass<N>,
    nodes: u8,
    ghost nodes_are: { nodes ≡ length N.shape.places },
}

impl<N: Named + Framed> Site<N> {
    /// The last seat whose pass is here.
    pub(crate) fn seat(&mut self) -> Result<Seat<N>, Fail> {
        let pass = self.passes.pop().ok_or("there is a pass")?;
        Ok(Seat {
            pass,
            nodes: self.nodes,
        })
    }

    /// The first two seats, where there are two.
    pub(crate) fn two_seats(&mut self) -> Result<(Seat<N>, Seat<N>), Fail> {
        let other = self.seat()?;
        Ok((self.seat()?, other))
    }

    /// Ends a hub of two nodes and two seats.
    pub(crate) fn close_two<R: Wait + Abort>(
        self,
        rt: &R,
        passes: (Pass<N>, Pass<N>),
        count: usize,
    ) -> Result<(), Fail> {
        let passes = vec![in self.alloc; passes.0, passes.1]?;
        self.close(rt, passes, two_nodes(16, 12), count)
    }

    /// Ends the hub, once all seats are back, in order. It has so many entries, and a core on one thread of the same shape
    /// gives the same replies.
    pub(crate) fn close<R: Wait + Abort>(
        self,
        rt: &R,
        passes: Vec<Pass<N>>,
        shape: Shape,
        count: usize,
    ) -> Result<(), Fail> {
        if passes.len() != usize::from(self.seats) || !are_in_order(&passes) {
            return Err("the passes are those of the opening".into());
        }
        let alloc = self.alloc;
        let entries = self.hub.close(rt, passes).entries;
        assert_eq!(rt; entries.len(), count);
        assert!(rt; replays(alloc, shape, &entries)?);
        Ok(())
    }
}

// Whether each pass has the seat of its place.
fn are_in_order<N: Named + Framed>(passes: &[Pass<N>]) -> bool
    ensures { result ≡ true → (k : ℕ) (pass : Worker) → slice_get passes.now k ≡ Some pass → pass.seat ≡ k }
{
    for place in 0..passes.len() {
        if usize::from(passes[place].seat()) != place {
            return false;
        }
    }
    true
}

impl<N: Named + Framed> Seat<N> {
    /// What a call with these dice and this patience is answered; none where it may not be made.
    pub(crate) fn call<R: Wait, D: Dice, P: Patience>(
        &mut self,
        rt: &R,
        hub: &Hub<N>,
        asked: Asked,
        dice: &mut D,
        patience: &mut P,
    ) -> Option<Result<CoreReply, JournalFull>>
        requires { D.taken dice.old ≡ 0 }
    {
        if asked.node >= self.nodes || matches!(asked.instr, Instr::Allocate) {
            return None;
        }
        let call = call_of(self.pass.seat(), asked);
        Some(hub.execute(rt, &mut self.pass, &call, dice, patience))
    }

    /// The reply to a call that gives up after it has asked patience once; none where there is none.
    pub(crate) fn ask<R: Wait>(
        &mut self,
        rt: &R,
        alloc: Global,
        hub: &Hub<N>,
        asked: Asked,
    ) -> Option<CoreReply> {
        let mut patience = CountPatience::new(alloc, 0).ok()?;
        self.ask_with(rt, alloc, hub, asked, &mut patience)
    }

    /// The reply to a call with this patience.
    pub(crate) fn ask_with<R: Wait, P: Patience>(
        &mut self,
        rt: &R,
        alloc: Global,
        hub: &Hub<N>,
        asked: Asked,
        patience: &mut P,
    ) -> Option<CoreReply> {
        let mut dice = words(alloc, asked.word).ok()?;
        self.call(rt, hub, asked, &mut dice, patience)?.ok()
    }
}

/// Dice whose first word is this one.
pub(crate) fn words(alloc: Global, word: u64) -> Result<ListDice, AllocError>
    ensures { IfOk result (λ dice. dice.taken ≡ 0) }
{
    Ok(ListDice::new(vec![in alloc; word]?))
}

// The call of a seat.
fn call_of(seat: u16, asked: Asked) -> Call
    ensures { (result.seat ≡ seat) × (result.node ≡ asked.node) × (result.command.instr ≡ asked.instr) }
{
    Call {
        seat,
        serial: 0,
        node: asked.node,
        app: asked.app,
        command: Command {
            qubit: asked.qubit,
            instr: asked.instr,
            notify: false,
            block: false,
        },
    }
}

/// A core on one thread, and how many nodes it has.
#[derive(Drop)]
struct Lone {
    solo: Solo,
    nodes: u8,
    ghost nodes_are: { length solo.shape.places ≡ nodes },
}

impl Lone {
    fn open(alloc: Global, shape: Shape) -> Result<Lone, AllocError> {
        let nodes = shape.nodes();
        let solo = Solo::open(alloc, shape, 4096)?;
        Ok(Lone { solo, nodes })
    }

    // Whether it gives the same reply to an entry's call with its word.
    fn agrees(&mut self, alloc: Global, entry: &Entry) -> Result<bool, AllocError> {
        let call = entry.call;
        if call.node >= self.nodes || matches!(call.command.instr, Instr::Allocate) {
            return Ok(false);
        }
        let mut dice = words(alloc, entry.word.unwrap_or(0))?;
        Ok(self.solo.execute(&call, &mut dice) == Ok(entry.reply))
    }
}

/// Whether a core on one thread gives the same replies to the calls of a history, each with the word that it drew.
fn replays(alloc: Global, shape: Shape, entries: &[Entry]) -> Result<bool, AllocError> {
    let mut lone = Lone::open(alloc, shape)?;
    for entry in entries {
        if !lone.agrees(alloc, entry)? {
            return Ok(false);
        }
    }
    Ok(true)
}
