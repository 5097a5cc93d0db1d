// What a connection is answered over a core with a journal, and how it ends.
use super::*;
use factored_core::Solo;
use hex::{decode, encode};
use network_model::Place;
use qron_link::{ListDice, MemLink};
use std::alloc::Global;
use std::test::Fail;
use virtual_node::Shape;

// The most entries of the tests' journal.
const ENTRIES: u32 = 16;

// What was written, in hexadecimal, how the connection ended, and how many entries there are.
#[derive(Drop)]
struct Answered {
    output: String,
    ending: Ending,
    entries: usize,
}

// Serves one connection at the one node of a network.
fn serve_bytes(alloc: Global, input: &str, bad_writes: Vec<u32>) -> Result<Answered, Fail> {
    let place = Place {
        address: 2_130_706_433,
        port: 8821,
    };
    let mut solo = Solo::open(alloc, Shape::new(&[place], 16, 12), ENTRIES)?;
    let mut session = Session::new(alloc, 0, 0, 4096)?;
    let mut link = MemLink::new(
        alloc,
        decode(alloc, input)?,
        7,
        256,
        Vec::new(alloc),
        bad_writes,
    )?;
    let mut dice = ListDice::new(Vec::new(alloc));
    session.begin(0);
    let ending = serve_solo(&mut solo, &mut session, &mut link, &mut dice);
    Ok(Answered {
        output: encode(alloc, link.written())?,
        ending,
        entries: solo.entries().len(),
    })
}

// What a connection is answered, how it ends, and how many entries it makes.
const CASES: [(&str, &str, Ending, usize); 15] = [
    // ALLOCATE of 3 and of 0, with NOTIFY
    (
        "020100000000000400031601",
        "020a0000000000020000020a0000000000020001020a00000000000200020204000000000000",
        Ending::Clean,
        3,
    ),
    (
        "020100000000000400001601",
        "0204000000000000",
        Ending::Clean,
        0,
    ),
    // FACTORY of a NEW, 2 times and 0 times, with NOTIFY in its options
    (
        "0202000000000006020100000100",
        "020a0000000000020000020a00000000000200010204000000000000",
        Ending::Clean,
        2,
    ),
    (
        "0202000000000006000100000100",
        "0204000000000000",
        Ending::Clean,
        0,
    ),
    // a FACTORY that is too short
    ("020200000000000101", "0214000000000000", Ending::Clean, 0),
    // ALLOCATE of 2 in a FACTORY of 2
    (
        "0202000000000006020000021600",
        "020a0000000000020000020a0000000000020001020a0000000000020002020a0000000000020003",
        Ending::Clean,
        4,
    ),
    // the second of three rounds is refused: the rest is passed over, and there is no DONE
    (
        "0201000000000004000001000202000000000006030100001700",
        "020a00000000000200000219000000000000",
        Ending::Clean,
        3,
    ),
    // version 1, GET_TIME, EXPIRE, type 11, and NEW with ACTION are unsupported
    ("0100000000000000", "0216000000000000", Ending::Clean, 0),
    ("0208000000000000", "0216000000000000", Ending::Clean, 0),
    ("0203000000000000", "0216000000000000", Ending::Clean, 0),
    ("020b000000000000", "0216000000000000", Ending::Clean, 0),
    (
        "020100000000000400000102",
        "0216000000000000",
        Ending::Clean,
        0,
    ),
    // NEW, and X 16 times, where the journal is full before the last
    (
        "0201000000000004000001000202000000000006100000000a00",
        "020a00000000000200000214000000000000",
        Ending::Full { entries: 16 },
        16,
    ),
    // a header and a body that are cut
    ("020100", "", Ending::Cut { have: 3, need: 8 }, 0),
    (
        "020100000000000c0000010000",
        "",
        Ending::Cut { have: 5, need: 12 },
        0,
    ),
];

#[test]
fn messages_are_answered(rt: HostRuntime) -> Result<(), Fail> {
    let alloc = rt.alloc();
    for (input, output, ending, entries) in CASES {
        let answer = serve_bytes(alloc, input, Vec::new(alloc))?;
        assert_eq!(rt; answer.output.as_str(), output, "{input}");
        assert_eq!(rt;
            (answer.ending, answer.entries),
            (ending, entries),
            "{input}"
        );
    }
    Ok(())
}

#[test]
fn a_write_that_fails_leaves_its_entry(rt: HostRuntime) -> Result<(), Fail> {
    let alloc = rt.alloc();
    let mut bad_writes = Vec::new(alloc);
    bad_writes.push(0)?;
    let broken = serve_bytes(alloc, "020100000000000400000101", bad_writes)?;
    assert_eq!(rt; broken.output.as_str(), "");
    assert_eq!(rt; broken.ending, Ending::WriteFault);
    assert_eq!(rt; broken.entries, 1);
    Ok(())
}
