// Qubits that go from node to node while both nodes are served beside each other.
ghost use Rattle.std.specs.Prelude.{◌<◌, All};

use crate::crossing_tests::{Talk, are_served};
use crate::serving_tests::LOOKS;
use crate::tests::{Case, MOST, in_turns, plain};
use std::alloc::Global;
use std::process::Abort;
use std::sync::Wait;
use std::test::*;
use std::thread::Threads;

// Two connections are answered this last, in turns over one core, and the same bytes beside each other over a shared one.
// There the second is given so many bytes freely, and the rest once the first has all its answers.
fn are_answered<'a, R: Threads + Wait + Abort + Sync>(
    rt: &R,
    alloc: Global,
    one: Case<'a>,
    two: Case<'a>,
    free: usize,
    order: &[u16],
    last: (&str, &str),
) -> Result<(), Fail>
    requires { All (λ k. k < 2) order.now }
{
    let (first, second) = in_turns(alloc, one, two, order)?;
    assert!(rt; first.output.as_str().ends_with(last.0));
    assert!(rt; second.output.as_str().ends_with(last.1));
    let talks = [
        Talk {
            input: one.input,
            free: one.input.len(),
            after: 0,
            output: first.output.as_str(),
        },
        Talk {
            input: two.input,
            free,
            after: first.output.as_str().len() as u64 / 2,
            output: second.output.as_str(),
        },
    ];
    are_served(rt, alloc, talks, (one.words, two.words), LOOKS)
}

// NEW, H and T of app 1 at node 0, EPR with app 2 at node 1, CNOT, H, and MEASURE of both qubits.
const SENDER: &str =
    "020100010000002a000001000000110000000d0000000700000222767f000001000014000001000011000000020000010201";

// The bytes of the receiver's first message, EPR_RECV.
const EPR_RECV_SIZE: usize = 12;

// The qubit in T after H goes over a pair. Once the sender's outcomes are told, the receiver turns it as they say, by X for the
// second and Z for the first, and undoes T and H: then it is 0 for certain, and a word 0 finds no 1.
#[test]
fn teleported_qubit_arrives(rt: HostRuntime) -> Result<(), Fail> {
    let cases = [
        (
            [MOST, MOST],
            "020100020000000400000800020100020000000d00001000e00000110000000201",
            "0207000100000001000207000100000001000204000100000000",
        ),
        (
            [MOST, 0],
            "020100020000000400000800020100020000001100000a0000001000e00000110000000201",
            "0207000100000001000207000100000001010204000100000000",
        ),
        (
            [0, MOST],
            "020100020000000400000800020100020000001100000b0000001000e00000110000000201",
            "0207000100000001010207000100000001000204000100000000",
        ),
        (
            [0, 0],
            "020100020000000400000800020100020000001500000a0000000b0000001000e00000110000000201",
            "0207000100000001010207000100000001010204000100000000",
        ),
    ];
    for (words, receiver, measured) in cases {
        let sender = Case {
            words,
            ..plain(SENDER)
        };
        are_answered(
            &rt,
            rt.alloc(),
            sender,
            plain(receiver),
            EPR_RECV_SIZE,
            &[0; 8],
            (measured, "0207000200000001000204000200000000"),
        )?;
    }
    Ok(())
}

// App 1 at node 0: NEW, H, SEND to app 2 at node 1, RECV, H, and MEASURE.
const OWNER: &str =
    "0201000100000020000001000000110000000500000222767f000001000006000000110000000201";

// App 2 at node 1 receives a qubit, turns it by a gate, and sends it back to app 1 at node 0. Between two H, X is Z and Z is
// X: the owner finds 0 after I and X and 1 after Z and Y, whatever its word is, and after H what its word says.
#[test]
fn forwarded_qubit_is_turned_on_its_way(rt: HostRuntime) -> Result<(), Fail> {
    let alloc = rt.alloc();
    for (gate, word, bit) in [
        ("00", 0, "00"),
        ("0a", 0, "00"),
        ("0b", MOST, "01"),
        ("0c", MOST, "01"),
        ("11", MOST, "00"),
        ("11", 0, "01"),
    ] {
        let owner = Case {
            words: [word; 2],
            ..plain(OWNER)
        };
        let turned = format!(in alloc;
            "0201000200000014000006000000{gate}0000000501000122757f000001"
        )?;
        let measured = format!(in alloc;
            "020500010000000200000207000100000001{bit}0204000100000000"
        )?;
        are_answered(
            &rt,
            alloc,
            owner,
            plain(turned.as_str()),
            turned.len(),
            &[0, 0, 0, 1, 1, 1],
            (measured.as_str(), "020500020000000200000204000200000000"),
        )?;
    }
    Ok(())
}
