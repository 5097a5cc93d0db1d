//! Worked lists of calls: each with the word that it would draw, and its reply.
ghost use Rattle.std.specs.Prelude.{◌≡◌, ◌≤◌};

use crate::solo::Solo;
use cqc_model::{Command, Fault, Instr, PairInfo, Remote};
use network_model::{Call, CoreReply, Place};
use qron_link::ListDice;
use std::alloc::{AllocError, Global};
use std::marker::Model;
use std::test::Fail;
use virtual_node::Shape;

// 127.0.0.1, and the ports of the first two nodes.
const ADDRESS: u32 = 0x7f00_0001;

const OWN_PORT: u16 = 8821;

const OTHER_PORT: u16 = 8822;

// The largest word.
const MOST: u64 = 18_446_744_073_709_551_615;

// How many entries a journal may have.
const ENTRIES: u32 = 512;

/// A core with a journal, and how many nodes its network has.
#[derive(Drop)]
struct Network {
    solo: Solo,
    nodes: u8,
}

impl Model for Network {
    ghost use Rattle.std.specs.Prelude.{◌≡◌, length};
    ghost use Rattle.factored_core.specs.Core.{Journal};

    ghost Value = { Journal };

    ghost view = { λ n. n.solo };

    ghost invariant = { λ n. length n.solo.shape.places ≡ n.nodes };
}

impl Network {
    fn open(alloc: Global, shape: Shape) -> Result<Network, AllocError> {
        let nodes = shape.nodes();
        let solo = Solo::open(alloc, shape, ENTRIES)?;
        Ok(Network { solo, nodes })
    }

    /// The reply to a call that would draw this word; none where the network has no such node.
    fn reply(
        &mut self,
        alloc: Global,
        call: &Call,
        word: u64,
    ) -> Result<Option<CoreReply>, AllocError> {
        if call.node >= self.nodes || matches!(call.command.instr, Instr::Allocate) {
            return Ok(None);
        }
        let mut dice = ListDice::new(vec![in alloc; word]?);
        Ok(self.solo.execute(call, &mut dice).ok())
    }

    /// The first of these calls, one after the other, that isn't answered as it says.
    fn first_wrong(&mut self, alloc: Global, cases: &[Case]) -> Result<Option<usize>, AllocError> {
        for (place, case) in cases.iter().enumerate() {
            if self.reply(alloc, &case.call, case.word)? != Some(case.reply) {
                return Ok(Some(place));
            }
        }
        Ok(None)
    }
}

/// A call, the word that it would draw, and its reply.
#[derive(Clone, Copy)]
struct Case {
    call: Call,
    word: u64,
    reply: CoreReply,
}

// The first of these calls in a new network that isn't answered as it says.
fn first_wrong(alloc: Global, shape: Shape, cases: &[Case]) -> Result<Option<usize>, AllocError> {
    Network::open(alloc, shape)?.first_wrong(alloc, cases)
}

// The place at a port.
fn at(port: u16) -> Place
    ensures { result ≡ record { address = 2130706433; port = port } }
{
    Place {
        address: ADDRESS,
        port,
    }
}

// Two nodes with this room and this limit of entangled qubits.
fn two_nodes(room: u8, limit: u8) -> Shape
    requires { (1 ≤ room) × (room ≤ 16) × (1 ≤ limit) × (limit ≤ 12) }
{
    Shape::new(&[at(OWN_PORT), at(OTHER_PORT)], room, limit)
}

// A call of a node's application, from the seat with the node's number.
fn call(node: u8, app: u16, qubit: u16, instr: Instr) -> Call {
    Call {
        seat: u16::from(node),
        serial: 0,
        node,
        app,
        command: Command {
            qubit,
            instr,
            notify: false,
            block: false,
        },
    }
}

// A call of application 1 at the first node.
fn own(qubit: u16, instr: Instr, word: u64, reply: CoreReply) -> Case {
    Case {
        call: call(0, 1, qubit, instr),
        word,
        reply,
    }
}

// A call of an application at the second node.
fn other(app: u16, qubit: u16, instr: Instr, word: u64, reply: CoreReply) -> Case {
    Case {
        call: call(1, app, qubit, instr),
        word,
        reply,
    }
}

// An application at the second node.
fn remote(app: u16) -> Remote {
    Remote {
        app,
        port: OTHER_PORT,
        node: ADDRESS,
    }
}

// What both sides are told of the first pair of application 1 and application 2 at the second node.
fn told(id: u16) -> CoreReply {
    CoreReply::Pair(
        id,
        PairInfo {
            node_a: ADDRESS,
            port_a: OWN_PORT,
            app_a: 1,
            node_b: ADDRESS,
            port_b: OTHER_PORT,
            app_b: 2,
            pair: 0,
        },
    )
}

#[test]
fn both_halves_of_a_pair_give_the_first_outcome(rt: HostRuntime) -> Result<(), Fail> {
    for (here, there, outcome) in [(0, MOST, true), (MOST, 0, false)] {
        let cases = [
            own(0, Instr::Epr(remote(2)), 0, told(0)),
            other(2, 0, Instr::EprRecv, 0, told(0)),
            own(0, Instr::Measure, here, CoreReply::Outcome(outcome)),
            other(2, 0, Instr::Measure, there, CoreReply::Outcome(outcome)),
        ];
        assert_eq!(rt; first_wrong(rt.alloc(), two_nodes(16, 12), &cases)?, None);
    }
    Ok(())
}

#[test]
fn each_application_gets_its_own_qubits_first_sent_first(rt: HostRuntime) -> Result<(), Fail> {
    let cases = [
        own(0, Instr::New, 0, CoreReply::New(0)),
        own(0, Instr::X, 0, CoreReply::Silent),
        own(0, Instr::Send(remote(5)), 0, CoreReply::Silent),
        own(0, Instr::New, 0, CoreReply::New(0)),
        own(0, Instr::Send(remote(6)), 0, CoreReply::Silent),
        own(0, Instr::New, 0, CoreReply::New(0)),
        own(0, Instr::Send(remote(5)), 0, CoreReply::Silent),
        other(6, 0, Instr::Recv, 0, CoreReply::Received(0)),
        other(6, 0, Instr::Measure, 0, CoreReply::Outcome(false)),
        other(6, 0, Instr::Recv, 0, CoreReply::Error(Fault::Timeout)),
        other(5, 0, Instr::Recv, 0, CoreReply::Received(0)),
        other(5, 0, Instr::Recv, 0, CoreReply::Received(1)),
        other(5, 0, Instr::Measure, MOST, CoreReply::Outcome(true)),
        other(5, 1, Instr::Measure, 0, CoreReply::Outcome(false)),
    ];
    assert_eq!(rt; first_wrong(rt.alloc(), two_nodes(16, 12), &cases)?, None);
    Ok(())
}

#[test]
fn a_sent_qubit_is_the_receivers_alone(rt: HostRuntime) -> Result<(), Fail> {
    let cases = [
        own(0, Instr::New, 0, CoreReply::New(0)),
        own(0, Instr::X, 0, CoreReply::Silent),
        own(0, Instr::Send(remote(2)), 0, CoreReply::Silent),
        own(0, Instr::X, 0, CoreReply::Error(Fault::Unknown)),
        other(2, 0, Instr::X, 0, CoreReply::Error(Fault::Unknown)),
        other(2, 0, Instr::Recv, 0, CoreReply::Received(0)),
        other(2, 0, Instr::Measure, MOST, CoreReply::Outcome(true)),
    ];
    assert_eq!(rt; first_wrong(rt.alloc(), two_nodes(16, 12), &cases)?, None);
    Ok(())
}

#[test]
fn a_qubit_that_a_full_node_refuses_is_kept(rt: HostRuntime) -> Result<(), Fail> {
    let cases = [
        own(0, Instr::New, 0, CoreReply::New(0)),
        own(0, Instr::New, 0, CoreReply::Error(Fault::NoQubit)),
        other(2, 0, Instr::New, 0, CoreReply::New(0)),
        own(
            0,
            Instr::Send(remote(2)),
            0,
            CoreReply::Error(Fault::NoQubit),
        ),
        own(0, Instr::X, 0, CoreReply::Silent),
        other(2, 0, Instr::Release, 0, CoreReply::Silent),
        own(0, Instr::Send(remote(2)), 0, CoreReply::Silent),
        other(2, 0, Instr::Recv, 0, CoreReply::Received(0)),
        other(2, 0, Instr::Measure, MOST, CoreReply::Outcome(true)),
    ];
    assert_eq!(rt; first_wrong(rt.alloc(), two_nodes(1, 12), &cases)?, None);
    Ok(())
}

#[test]
fn refusals_come_in_their_order(rt: HostRuntime) -> Result<(), Fail> {
    let unknown = CoreReply::Error(Fault::Unknown);
    let unsupported = CoreReply::Error(Fault::Unsupported);
    let cases = [
        own(0, Instr::New, 0, CoreReply::New(0)),
        own(9, Instr::RotX(1), 0, unknown),
        own(0, Instr::RotX(1), 0, unsupported),
        own(0, Instr::RotX(64), 0, CoreReply::Silent),
        own(9, Instr::Cnot(9), 0, unknown),
        own(0, Instr::Cnot(9), 0, unknown),
        own(0, Instr::Cnot(0), 0, unsupported),
        own(0, Instr::EprRecv, 0, CoreReply::Error(Fault::Timeout)),
        own(9, Instr::Measure, 0, unknown),
        own(
            0,
            Instr::Epr(remote(2)),
            0,
            CoreReply::Error(Fault::General),
        ),
    ];
    assert_eq!(rt; first_wrong(rt.alloc(), two_nodes(2, 1), &cases)?, None);
    Ok(())
}

#[test]
fn a_waiting_qubit_takes_room(rt: HostRuntime) -> Result<(), Fail> {
    let cases = [
        own(0, Instr::New, 0, CoreReply::New(0)),
        own(0, Instr::Send(remote(2)), 0, CoreReply::Silent),
        other(2, 0, Instr::New, 0, CoreReply::Error(Fault::NoQubit)),
        other(2, 0, Instr::Recv, 0, CoreReply::Received(0)),
        own(0, Instr::New, 0, CoreReply::New(0)),
    ];
    assert_eq!(rt; first_wrong(rt.alloc(), two_nodes(1, 12), &cases)?, None);
    Ok(())
}

#[test]
fn a_third_qubit_joins_a_full_register_once_one_is_measured(rt: HostRuntime) -> Result<(), Fail> {
    let cases = [
        own(0, Instr::New, 0, CoreReply::New(0)),
        own(0, Instr::New, 0, CoreReply::New(1)),
        own(0, Instr::New, 0, CoreReply::New(2)),
        own(0, Instr::Cnot(1), 0, CoreReply::Silent),
        own(1, Instr::Cnot(2), 0, CoreReply::Error(Fault::General)),
        own(0, Instr::MeasureInplace, MOST, CoreReply::Outcome(false)),
        own(1, Instr::Cnot(2), 0, CoreReply::Silent),
    ];
    assert_eq!(rt; first_wrong(rt.alloc(), two_nodes(16, 2), &cases)?, None);
    Ok(())
}

// The sender's side of a teleportation of the qubit that H and T make of a new one.
fn sent_over(word: u64, outcome: bool) -> [Case; 8] {
    [
        own(0, Instr::New, 0, CoreReply::New(0)),
        own(0, Instr::H, 0, CoreReply::Silent),
        own(0, Instr::T, 0, CoreReply::Silent),
        own(0, Instr::Epr(remote(2)), 0, told(1)),
        own(0, Instr::Cnot(1), 0, CoreReply::Silent),
        own(0, Instr::H, 0, CoreReply::Silent),
        own(0, Instr::Measure, word, CoreReply::Outcome(outcome)),
        own(1, Instr::Measure, word, CoreReply::Outcome(outcome)),
    ]
}

#[test]
fn a_teleported_qubit_is_the_sent_one(rt: HostRuntime) -> Result<(), Fail> {
    let received = other(2, 0, Instr::EprRecv, 0, told(0));
    let corrections = [
        other(2, 0, Instr::X, 0, CoreReply::Silent),
        other(2, 0, Instr::Z, 0, CoreReply::Silent),
    ];
    let turned_back = [
        other(2, 0, Instr::RotZ(224), 0, CoreReply::Silent),
        other(2, 0, Instr::H, 0, CoreReply::Silent),
        other(2, 0, Instr::Measure, 0, CoreReply::Outcome(false)),
    ];
    for (word, outcome) in [(0, true), (MOST, false)] {
        let mut network = Network::open(rt.alloc(), two_nodes(16, 12))?;
        assert_eq!(rt;
            network.first_wrong(rt.alloc(), &sent_over(word, outcome))?,
            None
        );
        assert_eq!(rt; network.first_wrong(rt.alloc(), &[received])?, None);
        if outcome {
            assert_eq!(rt; network.first_wrong(rt.alloc(), &corrections)?, None);
        }
        assert_eq!(rt; network.first_wrong(rt.alloc(), &turned_back)?, None);
    }
    Ok(())
}

// Eight nodes, and the most that a network may hold.
fn eight_nodes() -> Shape {
    let places = [
        at(8821),
        at(8822),
        at(8823),
        at(8824),
        at(8825),
        at(8826),
        at(8827),
        at(8828),
    ];
    Shape::new(&places, 16, 12)
}

// Sixteen new qubits at a node, and whether one more is refused.
fn is_filled(network: &mut Network, alloc: Global, node: u8) -> Result<bool, AllocError> {
    let new = call(node, 1, 0, Instr::New);
    for id in 0..16 {
        if network.reply(alloc, &new, 0)? != Some(CoreReply::New(id)) {
            return Ok(false);
        }
    }
    Ok(network.reply(alloc, &new, 0)? == Some(CoreReply::Error(Fault::NoQubit)))
}

// Whether X on each of a node's sixteen qubits is done.
fn is_turned(network: &mut Network, alloc: Global, node: u8) -> Result<bool, AllocError> {
    for id in 0..16 {
        if network.reply(alloc, &call(node, 1, id, Instr::X), 0)? != Some(CoreReply::Silent) {
            return Ok(false);
        }
    }
    Ok(true)
}

#[test]
fn all_of_128_live_qubits_are_turned(rt: HostRuntime) -> Result<(), Fail> {
    let mut network = Network::open(rt.alloc(), eight_nodes())?;
    for node in 0..8 {
        assert!(rt; is_filled(&mut network, rt.alloc(), node)?);
    }
    for node in 0..8 {
        assert!(rt; is_turned(&mut network, rt.alloc(), node)?);
    }
    Ok(())
}

// Whether a network opens, and makes a qubit at its last node.
fn makes_one_at_its_end(alloc: Global, shape: Shape) -> Result<bool, AllocError> {
    let last = shape.nodes().saturating_sub(1);
    let mut network = Network::open(alloc, shape)?;
    let reply = network.reply(alloc, &call(last, 1, 0, Instr::New), 0)?;
    Ok(reply == Some(CoreReply::New(0)))
}

#[test]
fn networks_of_three_to_seven_nodes_open(rt: HostRuntime) -> Result<(), Fail> {
    let [a, b, c] = [at(8821), at(8822), at(8823)];
    let [d, e, f, g] = [at(8824), at(8825), at(8826), at(8827)];
    let shapes = [
        Shape::new(&[a, b, c], 16, 12),
        Shape::new(&[a, b, c, d], 16, 12),
        Shape::new(&[a, b, c, d, e], 16, 12),
        Shape::new(&[a, b, c, d, e, f], 16, 12),
        Shape::new(&[a, b, c, d, e, f, g], 16, 12),
    ];
    for shape in shapes {
        assert!(rt; makes_one_at_its_end(rt.alloc(), shape)?);
    }
    Ok(())
}
