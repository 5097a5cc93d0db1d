// What the program answers to commands on several qubits.
use crate::mem_house::{MOST, answer_with, ended, faultless, first_wrong, spelled};
use crate::status::Status;
use hex::encode;
use std::alloc::Global;
use std::sync::Wait;
use std::test::Fail;
use std::thread::Threads;

// Messages as hexadecimal texts, each so many times; the words of the dice; how many NEW are answered first, and the
// replies behind these.
#[derive(Drop)]
struct Circuit<'a> {
    messages: &'a [(&'a str, u32)],
    words: [u64; 2],
    qubits: u8,
    replies: &'a str,
}

// The replies to so many NEW with the ids from 0 on, and those behind them.
fn replies_of(alloc: Global, circuit: &Circuit<'_>) -> Result<String, Fail> {
    let mut bytes = Vec::new(alloc);
    for id in 0..circuit.qubits {
        bytes.extend_from_slice(&[2, 0x0a, 0, 0, 0, 0, 0, 2, 0, id])?;
    }
    let mut text = encode(alloc, bytes)?;
    text.push_str(circuit.replies)?;
    Ok(text)
}

// The first circuit that isn't answered so.
fn first_wrong_circuit<R: Threads + Wait + Sync>(
    rt: &R,
    alloc: Global,
    circuits: &[Circuit<'_>],
) -> Result<Option<usize>, Fail> {
    for (place, circuit) in circuits.iter().enumerate() {
        let input = spelled(alloc, circuit.messages)?;
        let got = answer_with(rt, alloc, input, faultless(circuit.words, 4096))?;
        let replies = replies_of(alloc, circuit)?;
        if got != ended(alloc, Status::Done, replies.as_str())? {
            return Ok(Some(place));
        }
    }
    Ok(None)
}

#[test]
fn first_refusal_decides(rt: HostRuntime) -> Result<(), Fail> {
    let cases = [
        // after NEW: CNOT of 0 with 0, of 0 with 9 and of 9 with 9, and a turn of 9 by no eighth
        ("0201000000000006000014010000", "0216000000000000"),
        ("0201000000000006000014010009", "0219000000000000"),
        ("0201000000000006000914010009", "0219000000000000"),
        ("020100000000000500090e0101", "0219000000000000"),
        ("0201000000000006000015010000", "0216000000000000"),
        // a qubit or a half of a pair to the own node, and to a place that isn't there
        (
            "020100000000000c00000501000022757f000001",
            "0214000000000000",
        ),
        (
            "020100000000000c00000501000022767f000001",
            "0214000000000000",
        ),
        (
            "020100000000000c00090501000022767f000001",
            "0219000000000000",
        ),
        (
            "020100000000000c00000701000022757f000001",
            "0214000000000000",
        ),
        // nothing waits
        ("020100000000000400000601", "0217000000000000"),
        ("020100000000000400000801", "0217000000000000"),
    ];
    for (message, error) in cases {
        let circuit = Circuit {
            messages: &[("020100000000000400000100", 1), (message, 1)],
            words: [0, 0],
            qubits: 1,
            replies: error,
        };
        assert_eq!(rt;
            first_wrong_circuit(&rt, rt.alloc(), &[circuit])?,
            None,
            "{message}"
        );
    }
    Ok(())
}

#[test]
fn entangled_qubits_agree(rt: HostRuntime) -> Result<(), Fail> {
    // NEW twice, H on 0, CNOT of 0 with 1, and both are measured
    let by_cnot = "020100000000001a0000010000000100000011000000140000010000020000010200";
    // the same by H on 1, CPHASE and H on 1
    let by_cphase =
        "020100000000002200000100000001000000110000011100000015000001000111000000020000010200";
    let ones = "020a0000000000020000020a0000000000020001020700000000000101020700000000000101";
    let zeros = "020a0000000000020000020a0000000000020001020700000000000100020700000000000100";
    let cases = [
        (by_cnot, [0, MOST], ones),
        (by_cnot, [MOST, 0], zeros),
        (by_cphase, [0, MOST], ones),
        (by_cphase, [MOST, 0], zeros),
    ];
    assert_eq!(rt; first_wrong(&rt, rt.alloc(), &cases, &[7])?, None);
    Ok(())
}

#[test]
fn qubits_end_at_a_nodes_room_and_a_groups_limit(rt: HostRuntime) -> Result<(), Fail> {
    let circuits = [
        // 17 times NEW, and a NEW in the next message
        Circuit {
            messages: &[
                ("0201000000000044", 1),
                ("00000100", 17),
                ("020100000000000400000100", 1),
            ],
            words: [0, 0],
            qubits: 16,
            replies: "02150000000000000215000000000000",
        },
        // a chain of CNOT over 12 qubits is done, one of 4 beside it too, and they can't be joined
        Circuit {
            messages: &[
                ("0201000000000040", 1),
                ("00000100", 16),
                ("020100000000004600001100", 1),
                (
                    "00001400000100011400000200021400000300031400000400041400000500051400000600061400000700071400000800081400000900091400000a000a1401000b",
                    1,
                ),
                ("0201000000000006000b1400000c", 1),
                ("0201000000000012000c1400000d000d1400000e000e1401000f", 1),
                ("0201000000000006000c14000000", 1),
            ],
            words: [0, 0],
            qubits: 16,
            replies: "0204000000000000021400000000000002040000000000000214000000000000",
        },
        // NEW 7 times, H on 0, and CNOT of each with the next, so that all agree; CNOT of 5 with 6; 6 and 5 are measured
        Circuit {
            messages: &[
                ("0201000000000052", 1),
                ("00000100", 7),
                ("00001100000014000001000114000002000214000003", 1),
                ("000314000004000414000005000514000006", 1),
                ("0005140000060006020000050200", 1),
            ],
            words: [0, 0],
            qubits: 7,
            replies: "020700000000000100020700000000000101",
        },
    ];
    assert_eq!(rt; first_wrong_circuit(&rt, rt.alloc(), &circuits)?, None);
    Ok(())
}

#[test]
fn gates_are_refused_where_states_are_too_large(rt: HostRuntime) -> Result<(), Fail> {
    let circuits = [
        // H, and then T and H: after 116 times the size is 2^59, and the next H is refused; the way back gives 0
        Circuit {
            messages: &[
                ("02010000000003b00000010000001100", 1),
                ("00000d0000001100", 117),
                ("0201000000000421", 1),
                ("00001000e000001100", 117),
                ("00000200", 1),
            ],
            words: [0, 0],
            qubits: 1,
            replies: "0214000000000000020700000000000100",
        },
        // H, T, H, T, H on 0, CNOT of 0 with 1, and 1 is measured: the outcome 1 has a quarter. Without the common
        // divisor of what is left, H and 116 times T and H are not too large
        Circuit {
            messages: &[
                ("02010000000000260000010000001100", 1),
                ("00000d0000001100", 2),
                ("0000010000001400000100010200", 1),
                ("02010000000003a400001101", 1),
                ("00000d0000001100", 116),
            ],
            words: [4_611_686_018_427_387_904, 0],
            qubits: 2,
            replies: "0207000000000001000204000000000000",
        },
    ];
    assert_eq!(rt; first_wrong_circuit(&rt, rt.alloc(), &circuits)?, None);
    Ok(())
}

#[test]
fn product_is_refused_where_it_is_too_large(rt: HostRuntime) -> Result<(), Fail> {
    let cases = [
        // sizes 2^30 and 2^30: their product has size 2^59
        ("02010000000003a6", 57, "0204000000000000"),
        ("02010000000003ae", 58, "0214000000000000"),
    ];
    for (header, times, last) in cases {
        let messages = [
            (header, 1),
            ("000001000000010000001100", 1),
            ("00000d0000001100", times),
            ("00011100", 1),
            ("00010d0000011100", 57),
            ("000014010001", 1),
        ];
        let circuit = Circuit {
            messages: &messages,
            words: [0, 0],
            qubits: 2,
            replies: last,
        };
        assert_eq!(rt;
            first_wrong_circuit(&rt, rt.alloc(), &[circuit])?,
            None,
            "{last}"
        );
    }
    Ok(())
}
