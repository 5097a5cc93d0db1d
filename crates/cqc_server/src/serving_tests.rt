// Workers that serve links in memory beside each other.
ghost use Rattle.std.specs.Prelude.{◌≡◌, length, IfOk};
ghost use Rattle.node_table.specs.Document.{IsInRange};

use crate::tests::{MOST, two_nodes};
use crate::{Post, Record, WorkerEnd, serve};
use cqc_session::Ending;
use hex::{decode, encode};
use node_table::Settings;
use qron_link::{CountPatience, Door, ListDice, MemDoor, MemLink};
use std::alloc::Global;
use std::sync::Wait;
use std::test::*;
use std::thread::Threads;

/// NEW, and MEASURE of 0.
pub(crate) const MEASURED: &str = "02010000000000080000010000000200";

/// EPR with the other node, and MEASURE of 0.
pub(crate) const MAKER: &str = "020100000000001000000700000022767f00000100000200";

/// EPR_RECV, and MEASURE of 0.
pub(crate) const TAKER: &str = "02010000000000080000080000000200";

/// How often a receipt looks again where what it waits for comes from beside it.
pub(crate) const LOOKS: u32 = 200_000;

// What a measured 0 is answered.
const ZERO: &str = "020700000000000100";

// Two nodes with a worker each, which serves four connections.
fn settings() -> Settings
    ensures range { IsInRange result }
    ensures nodes { (length result.shape.places ≡ 2) × (result.workers ≡ 1) }
{
    Settings {
        shape: two_nodes(16, 12),
        seed: [0; 32],
        journal: 64,
        patience: 0,
        wait_ms: 0,
        workers: 1,
        connections: 4,
    }
}

// A post of a node.
fn post<D: Door + Drop>(
    alloc: Global,
    node: u8,
    door: D,
    words: [u64; 2],
    times: u32,
) -> Result<Post<D, ListDice, CountPatience>, Fail>
    ensures { IfOk result (λ p. p.node ≡ node) }
{
    let dice = ListDice::new(Vec::from_array(alloc, words)?);
    let patience = CountPatience::new(alloc, times)?;
    Ok(Post {
        node,
        door,
        dice,
        patience,
    })
}

/// What two nodes leave that served the links of these doors, where the dice of each give each connection these words, and
/// patience goes on so often.
pub(crate) fn served_by_two<D: Door + Drop + Send, R: Threads + Wait + Sync>(
    rt: &R,
    alloc: Global,
    doors: (D, D),
    words: ([u64; 2], [u64; 2]),
    times: u32,
) -> Result<Record<D, ListDice, CountPatience>, Fail>
where
    D::Link: Send,
{
    let mut posts = Vec::new(alloc);
    posts.push(post(alloc, 0, doors.0, words.0, times)?)?;
    posts.push(post(alloc, 1, doors.1, words.1, times)?)?;
    Ok(serve(rt, alloc, settings(), posts)?)
}

/// A door with links that have these bytes to read, in hexadecimal, whose calls of these numbers fail.
pub(crate) fn door(alloc: Global, inputs: &[&str], bad: &[u32]) -> Result<MemDoor, Fail> {
    let mut links = Vec::new(alloc);
    for input in inputs {
        let bytes = decode(alloc, input)?;
        links.push(MemLink::new(alloc, bytes, 16, 400, Vec::new(alloc), Vec::new(alloc))?)?;
    }
    Ok(MemDoor::new(links, Vec::from_slice(alloc, bad)?))
}

// What comes to the doors of two nodes, which calls of the first door fail, and what both leave: the seats of the
// connections that were served, and why each worker ended.
#[derive(Drop)]
struct Case<'a> {
    inputs: [&'a [&'a str]; 2],
    bad: &'a [u32],
    seats: &'a [u16],
    ends: [WorkerEnd; 2],
}

// Each connection makes two entries, and measures 0 last.
#[test]
fn workers_serve_until_their_ends(rt: HostRuntime) -> Result<(), Fail> {
    let alloc = rt.alloc();
    let cases = [
        // each node serves its link
        Case {
            inputs: [&[MEASURED], &[MEASURED]],
            bad: &[],
            seats: &[0, 1],
            ends: [WorkerEnd::Closed, WorkerEnd::Closed],
        },
        // a failed door leaves the other node alone
        Case {
            inputs: [&[MEASURED], &[MEASURED]],
            bad: &[0],
            seats: &[1],
            ends: [WorkerEnd::DoorFault, WorkerEnd::Closed],
        },
        // a worker stops at its limit
        Case {
            inputs: [&[MEASURED; 5], &[MEASURED]],
            bad: &[],
            seats: &[0, 0, 0, 0, 1],
            ends: [WorkerEnd::Limit, WorkerEnd::Closed],
        },
        // halves of a pair agree
        Case {
            inputs: [&[MAKER], &[TAKER]],
            bad: &[],
            seats: &[0, 1],
            ends: [WorkerEnd::Closed, WorkerEnd::Closed],
        },
    ];
    for case in cases {
        let doors = (
            door(alloc, case.inputs[0], case.bad)?,
            door(alloc, case.inputs[1], &[])?,
        );
        let words = ([MOST, 0], [MOST, 0]);
        let record = served_by_two(&rt, alloc, doors, words, LOOKS)?;
        assert!(rt; record.ends.as_slice() == case.ends.as_slice());
        assert_eq!(rt; record.served.len(), case.seats.len());
        assert_eq!(rt; record.entries.len() / 2, case.seats.len());
        for (connection, seat) in record.served.iter().zip(case.seats) {
            assert_eq!(rt; connection.seat, *seat);
            assert!(rt; matches!(connection.ending, Ending::Clean));
            assert!(rt;
                encode(alloc, connection.link.written())?
                    .as_str()
                    .ends_with(ZERO)
            );
        }
    }
    Ok(())
}
