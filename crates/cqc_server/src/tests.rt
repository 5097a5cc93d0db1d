// Two connections over links in memory.
ghost use Rattle.std.specs.Prelude.{◌≡◌, ◌<◌, ◌≤◌, [], length, All, None, IfOk};
ghost use Rattle.cqc_session.specs.State.{begun};

use crate::serving_tests::{MAKER, TAKER};
use crate::{Actor, replay};
use cqc_session::Session;
use factored_core::Solo;
use hex::{decode, encode};
use network_model::Place;
use qron_link::{ListDice, MemLink};
use session_model::Ending;
use std::alloc::Global;
use std::test::Fail;
use virtual_node::Shape;

/// The largest word.
pub(crate) const MOST: u64 = 18_446_744_073_709_551_615;

/// A connection: its messages in hexadecimal, the words of its first two measurements, and its sink's room.
#[derive(Clone, Copy)]
pub(crate) struct Case<'a> {
    pub input: &'a str,
    pub words: [u64; 2],
    pub room: u32,
}

/// What a connection was answered, in hexadecimal, and how it ended.
#[derive(Drop)]
pub(crate) struct Answered {
    pub output: String,
    pub ending: Option<Ending>,
}

/// A connection with words 0 and room enough.
pub(crate) fn plain(input: &str) -> Case {
    Case {
        input,
        words: [0; 2],
        room: 400,
    }
}

// The connection at the node that has the number of its seat.
fn seated(alloc: Global, seat: u8, case: Case) -> Result<Actor<MemLink, ListDice>, Fail>
    ensures session { IfOk result (λ a. a.session ≡ begun (record { seat = seat; serial = 0; node = seat }) 4096) }
    ensures ending { IfOk result (λ a. a.ending ≡ None) }
{
    let mut session = Session::new(alloc, seat as u16, seat, 4096)?;
    session.begin(0);
    let bytes = decode(alloc, case.input)?;
    let link = MemLink::new(alloc, bytes, 3, case.room, Vec::new(alloc), Vec::new(alloc))?;
    let dice = ListDice::new(Vec::from_array(alloc, case.words)?);
    Ok(Actor {
        session,
        link,
        dice,
        ending: None,
    })
}

fn answer_of(alloc: Global, actor: &Actor<MemLink, ListDice>) -> Result<Answered, Fail> {
    Ok(Answered {
        output: encode(alloc, actor.link.written())?,
        ending: actor.ending,
    })
}

/// Two nodes on this machine with this room each, whose groups have at most so many qubits.
pub(crate) fn two_nodes(room: u8, limit: u8) -> Shape
    requires some { 1 ≤ room }
    requires most { room ≤ 16 }
    requires some_limit { 1 ≤ limit }
    requires most_limit { limit ≤ 12 }
    ensures { length result.places ≡ 2 }
{
    let places = [8821, 8822].map(|port| Place {
        address: 0x7f00_0001,
        port,
    });
    Shape::new(&places, room, limit)
}

// A core over two nodes.
fn open(alloc: Global, shape: Shape) -> Result<Solo, Fail>
    requires { length shape.places ≡ 2 }
    ensures empty { IfOk result (λ s. s.entries ≡ []) }
    ensures nodes { IfOk result (λ s. length s.shape.places ≡ 2) }
{
    Ok(Solo::open(alloc, shape, 64)?)
}

// What connections at two nodes of a core without entries are answered.
fn answers(
    alloc: Global,
    core: Solo,
    one: Case,
    two: Case,
    order: &[u16],
) -> Result<(Answered, Answered), Fail>
    requires empty { core.entries ≡ [] }
    requires nodes { length core.shape.places ≡ 2 }
    requires places { All (λ k. k < 2) order.now }
{
    let mut solo = core;
    let mut actors = [seated(alloc, 0, one)?, seated(alloc, 1, two)?];
    replay(&mut solo, &mut actors, order);
    Ok((answer_of(alloc, &actors[0])?, answer_of(alloc, &actors[1])?))
}

/// What connections at two nodes with room enough are answered that take turns in this order.
pub(crate) fn in_turns(
    alloc: Global,
    one: Case,
    two: Case,
    order: &[u16],
) -> Result<(Answered, Answered), Fail>
    requires { All (λ k. k < 2) order.now }
{
    answers(alloc, open(alloc, two_nodes(16, 12))?, one, two, order)
}

#[test]
fn both_halves_of_a_pair_agree(rt: HostRuntime) -> Result<(), Fail> {
    let maker = plain(MAKER);
    let taker = plain(TAKER);
    for (first, second, measured) in [
        ([0; 2], [MOST; 2], "020700000000000101"),
        ([MOST; 2], [0; 2], "020700000000000100"),
    ] {
        let one = Case {
            words: first,
            ..maker
        };
        let two = Case {
            words: second,
            ..taker
        };
        let (one, two) = in_turns(rt.alloc(), one, two, &[0, 1, 0, 1])?;
        assert!(rt; one.output.as_str().ends_with(measured));
        assert!(rt; two.output.as_str().ends_with(measured));
    }
    Ok(())
}

// The maker turns its half before the taker turns the other, or behind it.
#[test]
fn gates_at_two_nodes_commute(rt: HostRuntime) -> Result<(), Fail> {
    let maker = plain("020100000000001a00000700000022767f0000010000010000011400000000000200");
    let taker = plain("020100000000000c0000080000000a0000000200");
    for order in [[0, 1, 1, 0, 0, 0, 1], [0, 1, 0, 0, 1, 0, 1]] {
        let (one, two) = in_turns(rt.alloc(), maker, taker, &order)?;
        assert!(rt; one.output.as_str().ends_with("020700000000000101"));
        assert!(rt; two.output.as_str().ends_with("020700000000000100"));
    }
    Ok(())
}

#[test]
fn app_gets_its_own_arrivals_in_order(rt: HostRuntime) -> Result<(), Fail> {
    // app 6: RECV and MEASURE of 0; app 5: RECV twice, MEASURE of 0 and of 1
    let receiver = plain(
        "02010006000000080000060000000200\
         020100050000001000000600000006000000020000010200",
    );
    // NEW and SEND to app 5, NEW, X and SEND to app 5, NEW and SEND to app 6
    let sender = plain(
        "02010000000000340000010000000500000522757f000001\
         0000010000000a0000000500000522757f000001\
         0000010000000500000622757f000001",
    );
    let (one, _) = in_turns(rt.alloc(), receiver, sender, &[1; 7])?;
    assert_eq!(rt;
        one.output.as_str(),
        "02050006000000020000020700060000000100\
         0205000500000002000002050005000000020001020700050000000100020700050000000101"
    );
    Ok(())
}

// What the first of two nodes answers where the other one makes a qubit first.
#[test]
fn refused_commands_and_narrow_links(rt: HostRuntime) -> Result<(), Fail> {
    let narrow = Case {
        room: 15,
        ..plain("020100000000000c000001000000010000000100")
    };
    // words that find 0
    let joins = Case {
        words: [MOST; 2],
        ..plain(
            "0201000000000018000001000000010000000100000014000001000114000002\
             020100000000000a00000300000114010002",
        )
    };
    let cases = [
        // a qubit that was sent is away
        (
            two_nodes(16, 12),
            plain("02010000000000140000010000000500000222767f00000100000a00"),
            Ending::Clean,
            "020a00000000000200000219000000000000",
        ),
        // nodes with room for one: NEW twice; SEND to node 1, where a qubit is; X with NOTIFY
        (
            two_nodes(1, 12),
            plain(
                "02010000000000080000010000000100\
                 020100000000000c00000500000022767f000001\
                 020100000000000400000a01",
            ),
            Ending::Clean,
            "020a0000000000020000021500000000000002150000000000000204000000000000",
        ),
        // groups of two: NEW three times, CNOT of 0 with 1 and of 1 with 2; then 0 is measured in place, and CNOT of 1 with 2
        // is done
        (
            two_nodes(16, 2),
            joins,
            Ending::Clean,
            "020a0000000000020000020a0000000000020001020a00000000000200020214000000000000\
             0207000000000001000204000000000000",
        ),
        // a link whose room ends
        (
            two_nodes(16, 12),
            narrow,
            Ending::WriteFault,
            "020a0000000000020000020a000000",
        ),
    ];
    for (shape, case, ending, output) in cases {
        if shape.nodes() != 2 {
            return Err("there are two nodes".into());
        }
        let core = open(rt.alloc(), shape)?;
        let maker = plain("020100000000000400000100");
        let (one, _) = answers(rt.alloc(), core, case, maker, &[1, 0])?;
        assert_eq!(rt; one.output.as_str(), output);
        assert_eq!(rt; one.ending, Some(ending));
    }
    Ok(())
}
