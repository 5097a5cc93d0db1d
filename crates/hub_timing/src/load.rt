//! What is timed.
ghost use Rattle.std.specs.Prelude.{◌≡◌, ◌≢◌, ◌≤◌, ◌+◌};
ghost use Rattle.cqc_model.specs.declared.Instr.TheVariants.{Allocate};

use cqc_model::{Command, Instr};
use network_model::{Call, CoreReply, Place};

/// All nodes listen at 127.0.0.1.
const ADDRESS: u32 = 2_130_706_433;

/// How many rounds there are where no number is given.
const FEW: u32 = 100;

/// The most entangled qubits.
pub const LIMIT: u8 = 12;

/// The most qubits at a node.
pub const ROOM: u8 = 16;

/// How many entries the journal may have.
pub const CAPACITY: u32 = 1_048_576;

/// How many qubits each thread turns one of in each round, how many threads there are, and how many rounds.
#[derive(Clone, Copy)]
pub struct Load {
    pub qubits: u16,
    pub threads: u8,
    pub rounds: u32,
}

/// What answers calls of application 0 at a node, given what it shares with others.
pub trait Node<S> {
    /// The reply, or none where the journal is full.
    fn ask(&mut self, shared: &S, qubit: u16, instr: Instr) -> Option<CoreReply>
        requires { instr ≢ Allocate };
}

impl Load {
    /// The load of three words. Where one is missing there is one qubit, no thread, and few rounds.
    pub fn of(kind: Option<String>, threads: Option<String>, rounds: Option<String>) -> Load
        ensures { result.threads ≤ 8 }
    {
        let is_dense = kind.is_some_and(|word| word.as_str() == "dense");
        let threads = threads
            .and_then(|word| word.parse::<u8>().ok())
            .unwrap_or(0);
        let rounds = rounds
            .and_then(|word| word.parse::<u32>().ok())
            .unwrap_or(FEW);
        Load {
            qubits: if is_dense { u16::from(LIMIT) } else { 1 },
            threads: threads.min(8),
            rounds,
        }
    }

    /// Makes the qubits at a node, where each is in both states, and entangles them.
    fn make<S, N: Node<S>>(&self, node: &mut N, shared: &S) {
        for qubit in 0..self.qubits {
            node.ask(shared, qubit, Instr::New);
            node.ask(shared, qubit, Instr::H);
        }
        for qubit in 1..self.qubits {
            node.ask(shared, 0, Instr::Cnot(qubit));
        }
    }

    /// Makes the qubits at a node, and turns one in each round. How many turns were answered.
    pub fn turn<S, N: Node<S>>(&self, node: &mut N, shared: &S) -> u32 {
        self.make(node, shared);
        let mut answered = 0u32;
        for round in 0..self.rounds {
            let qubit = (round % 12) as u16 % self.qubits.max(1);
            if node.ask(shared, qubit, Instr::H) == Some(CoreReply::Silent) {
                answered = answered.wrapping_add(1);
            }
        }
        answered
    }
}

/// The place of a node, counted from 1.
pub fn at(node: u8) -> Place
    ensures { result ≡ record { address = 2130706433; port = 8820 + node } }
{
    Place {
        address: ADDRESS,
        port: 8820 + u16::from(node),
    }
}

/// A call of application 0 at a node, from the seat with the node's number.
pub fn call(node: u8, qubit: u16, instr: Instr) -> Call
    ensures { (result.seat ≡ node) × (result.node ≡ node) × (result.command.instr ≡ instr) }
{
    let command = Command {
        qubit,
        instr,
        notify: false,
        block: false,
    };
    Call {
        seat: u16::from(node),
        serial: 0,
        node,
        app: 0,
        command,
    }
}
