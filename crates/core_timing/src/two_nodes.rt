//! A network of two nodes, and the pairs over it.
ghost use Rattle.std.specs.Prelude.{◌≡◌, ◌≢◌, ◌<◌, length};
ghost use Rattle.cqc_model.specs.declared.Instr.TheVariants.{Allocate};

use cqc_model::{Command, Instr, Remote};
use factored_core::Solo;
use network_model::{Call, CoreReply, Place};
use qron_link::ChaChaDice;
use std::alloc::{AllocError, Global};
use std::marker::Model;
use virtual_node::Shape;

/// Both nodes listen at 127.0.0.1.
const ADDRESS: u32 = 0x7f00_0001;

/// The port of the node that makes pairs, and of the one that receives their other halves.
const MAKER: u16 = 8821;

const RECEIVER: u16 = 8822;

/// The most qubits at a node.
const ROOM: u8 = 16;

/// The most entangled qubits.
const LIMIT: u8 = 12;

/// How many entries the journal may have: four a pair.
const CAPACITY: u32 = 1_048_576;

/// The key of the dice.
const SEED: [u8; 32] = [0; 32];

/// A core of two nodes, and its dice. Each word that was taken is one of an entry.
#[derive(Drop)]
pub struct TwoNodes {
    solo: Solo,
    dice: ChaChaDice,
}

impl Model for TwoNodes {
    ghost use Rattle.std.specs.Prelude.{◌≡◌, ◌≤◌, List, length};
    ghost use Rattle.network_model.specs.declared.Entry.{Entry};

    ghost Value = { List Entry };

    ghost view = { λ n. n.solo.entries };

    ghost invariant = { λ n. (length n.solo.shape.places ≡ 2) × (n.solo.capacity ≡ 1048576) × (n.dice.taken ≤ length n.solo.entries) };
}

/// The two nodes.
fn shape() -> Shape
    ensures { length result.places ≡ 2 }
{
    let maker = Place {
        address: ADDRESS,
        port: MAKER,
    };
    let receiver = Place {
        address: ADDRESS,
        port: RECEIVER,
    };
    Shape::new(&[maker, receiver], ROOM, LIMIT)
}

impl TwoNodes {
    /// The network without entries. All its room is taken here.
    pub fn open(alloc: Global) -> Result<TwoNodes, AllocError> {
        let solo = Solo::open(alloc, shape(), CAPACITY)?;
        Ok(TwoNodes {
            solo,
            dice: ChaChaDice::new(SEED),
        })
    }

    /// The reply to a command of application 0 at a node, or none where the journal is full.
    fn ask(&mut self, node: u8, qubit: u16, instr: Instr) -> Option<CoreReply>
        requires node { node < 2 }
        requires instr { instr ≢ Allocate }
    {
        let _entries = self.solo.entries();
        let command = Command {
            qubit,
            instr,
            notify: false,
            block: false,
        };
        let call = Call {
            seat: 0,
            serial: 0,
            node,
            app: 0,
            command,
        };
        self.solo.execute(&call, &mut self.dice).ok()
    }

    /// The id of a half of a pair that is made or received at a node, or none where the reply is no pair.
    fn half(&mut self, node: u8, instr: Instr) -> Option<u16>
        requires node { node < 2 }
        requires instr { instr ≢ Allocate }
    {
        let CoreReply::Pair(id, _) = self.ask(node, 0, instr)? else {
            return None;
        };
        Some(id)
    }

    /// The outcome of a qubit that is measured at a node, or none where the reply is no outcome.
    fn outcome(&mut self, node: u8, qubit: u16) -> Option<bool>
        requires { node < 2 }
    {
        let CoreReply::Outcome(bit) = self.ask(node, qubit, Instr::Measure)? else {
            return None;
        };
        Some(bit)
    }

    /// Makes a pair and measures both halves: whether the outcomes agree. None where the journal is full or a command
    /// is refused.
    pub fn round(&mut self) -> Option<bool> {
        let there = Remote {
            app: 0,
            port: RECEIVER,
            node: ADDRESS,
        };
        let made = self.half(0, Instr::Epr(there))?;
        let received = self.half(1, Instr::EprRecv)?;
        let one = self.outcome(0, made)?;
        let other = self.outcome(1, received)?;
        Some(one == other)
    }
}
