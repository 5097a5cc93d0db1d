// Calls over cells behind locks of their own.
ghost use Rattle.std.specs.Prelude.{◌≡◌};

use crate::hub::Hub;
use crate::site::{Asked, Seat, Site, Turns, eight_nodes, plain, remote};
use commit_journal::{Framed, Pass};
use cqc_model::{Instr, PairInfo};
use history_front::Named;
use hub_cells::Cell;
use network_model::{CoreReply, JournalFull};
use qron_link::CountPatience;
use std::alloc::Global;
use std::process::Abort;
use std::sync::Wait;
use std::sync::atomic::Ordering::SeqCst;
use std::test::*;
use std::thread::{Threads, join};

// The largest word.
const MOST: u64 = 18_446_744_073_709_551_615;

/// What one of two seats asks, and its reply.
#[derive(Clone, Copy)]
pub(crate) struct Case {
    seat: u8,
    asked: Asked,
    reply: CoreReply,
}

/// Seat 0 asks at node 0, or seat 1 at node 1.
pub(crate) fn answered(seat: u8, qubit: u16, instr: Instr, reply: CoreReply) -> Case {
    Case {
        seat,
        asked: plain(seat, qubit, instr),
        reply,
    }
}

// The same with the largest word.
fn most(case: Case) -> Case {
    Case {
        asked: Asked {
            word: MOST,
            ..case.asked
        },
        ..case
    }
}

/// Asks the cases of a seat, each once all before it are answered. The seat's pass, where each reply is the one that is
/// given.
pub(crate) fn play<N: Named + Framed, R: Wait>(
    rt: &R,
    alloc: Global,
    hub: &Hub<N>,
    mut seat: Seat<N>,
    cases: &[Case],
    turns: &Turns,
) -> Option<Pass<N>> {
    let number = seat.pass.seat();
    for (place, case) in cases.iter().enumerate() {
        if u16::from(case.seat) != number {
            continue;
        }
        let place = place as u64;
        if !turns.reach(place) || seat.ask(rt, alloc, hub, case.asked)? != case.reply {
            return None;
        }
        turns.tell(place.wrapping_add(1));
    }
    Some(seat.pass)
}

// Two seats, each in a thread of its own, ask in turn. Each reply is the one that is given, and a core on one thread
// gives the same.
fn tell<N: Named + Framed + Send + Sync, R: Threads + Wait + Abort + Sync>(
    rt: &R,
    mut site: Site<N>,
    cases: &[Case],
) -> Result<(), Fail> {
    let (first, other) = site.two_seats()?;
    let alloc = site.alloc;
    let hub = &site.hub;
    let turns = Turns::new();
    let (first, other) = join(
        rt,
        || play(rt, alloc, hub, first, cases, &turns),
        || play(rt, alloc, hub, other, cases, &turns),
    );
    let first = first.ok_or("each reply of seat 0 is the one that is given")?;
    let other = other.ok_or("each reply of seat 1 is the one that is given")?;
    site.close_two(rt, (first, other), cases.len())
}

/// A qubit that was sent away is entangled there, and each of both is found where it is.
pub(crate) fn forwards<N: Named + Framed + Send + Sync, R: Threads + Wait + Abort + Sync>(
    rt: &R,
    site: Site<N>,
) -> Result<(), Fail> {
    let cases = [
        answered(0, 0, Instr::New, CoreReply::New(0)),
        answered(0, 0, Instr::New, CoreReply::New(1)),
        answered(0, 1, Instr::X, CoreReply::Silent),
        answered(0, 1, Instr::Cnot(0), CoreReply::Silent),
        answered(0, 0, Instr::Send(remote(1)), CoreReply::Silent),
        answered(1, 0, Instr::Recv, CoreReply::Received(0)),
        answered(1, 0, Instr::New, CoreReply::New(1)),
        answered(1, 0, Instr::Cnot(1), CoreReply::Silent),
        answered(1, 0, Instr::X, CoreReply::Silent),
        answered(1, 1, Instr::Measure, CoreReply::Outcome(true)),
        answered(1, 0, Instr::Measure, CoreReply::Outcome(false)),
        answered(0, 1, Instr::Measure, CoreReply::Outcome(true)),
    ];
    tell(rt, site, &cases)
}

// The pair that node 0 makes with node 1, by its number.
fn pair_of(number: u32) -> PairInfo {
    let one = remote(0);
    let other = remote(1);
    PairInfo {
        node_a: one.node,
        port_a: one.port,
        app_a: 0,
        node_b: other.node,
        port_b: other.port,
        app_b: 0,
        pair: number,
    }
}

/// A half of a pair is turned at its node, before or behind a gate of the other half with a further qubit: the outcomes
/// are the same.
pub(crate) fn turns_a_half<N: Named + Framed + Send + Sync, R: Threads + Wait + Abort + Sync>(
    rt: &R,
    site: Site<N>,
    first: bool,
) -> Result<(), Fail> {
    let half = CoreReply::Pair(0, pair_of(0));
    let turned = answered(1, 0, Instr::X, CoreReply::Silent);
    let joined = answered(0, 1, Instr::Cnot(0), CoreReply::Silent);
    let (before, behind) = if first {
        (turned, joined)
    } else {
        (joined, turned)
    };
    let cases = [
        answered(0, 0, Instr::Epr(remote(1)), half),
        answered(0, 0, Instr::New, CoreReply::New(1)),
        answered(1, 0, Instr::EprRecv, half),
        before,
        behind,
        answered(0, 0, Instr::Measure, CoreReply::Outcome(true)),
        answered(1, 0, Instr::Measure, CoreReply::Outcome(false)),
    ];
    tell(rt, site, &cases)
}

/// A pair agrees, and teleports a qubit.
pub(crate) fn makes_pairs<N: Named + Framed + Send + Sync, R: Threads + Wait + Abort + Sync>(
    rt: &R,
    site: Site<N>,
) -> Result<(), Fail> {
    let other = remote(1);
    let pair = pair_of(0);
    let next = pair_of(1);
    let cases = [
        answered(0, 0, Instr::Epr(other), CoreReply::Pair(0, pair)),
        answered(1, 0, Instr::EprRecv, CoreReply::Pair(0, pair)),
        most(answered(1, 0, Instr::Measure, CoreReply::Outcome(false))),
        answered(0, 0, Instr::Measure, CoreReply::Outcome(false)),
        answered(0, 0, Instr::Epr(other), CoreReply::Pair(0, next)),
        answered(0, 0, Instr::New, CoreReply::New(1)),
        answered(0, 1, Instr::X, CoreReply::Silent),
        answered(0, 1, Instr::Cnot(0), CoreReply::Silent),
        answered(0, 1, Instr::H, CoreReply::Silent),
        answered(0, 0, Instr::Measure, CoreReply::Outcome(true)),
        answered(1, 0, Instr::EprRecv, CoreReply::Pair(0, next)),
        answered(0, 1, Instr::Measure, CoreReply::Outcome(true)),
        answered(1, 0, Instr::X, CoreReply::Silent),
        answered(1, 0, Instr::Z, CoreReply::Silent),
        answered(1, 0, Instr::Measure, CoreReply::Outcome(true)),
    ];
    tell(rt, site, &cases)
}

/// Calls whose hints are wrong find their cells with all locks.
pub(crate) fn finds_all<N: Named + Framed, R: Wait + Abort>(
    rt: &R,
    mut site: Site<N>,
) -> Result<(), Fail> {
    let mut seat = site.seat()?;
    for instr in [Instr::New, Instr::New, Instr::Cnot(1), Instr::Measure] {
        for hint in &site.hub.hints {
            hint.store(77, SeqCst);
        }
        let _reply = seat.ask(rt, site.alloc, &site.hub, plain(0, 0, instr));
    }
    let measured = seat.ask(rt, site.alloc, &site.hub, plain(0, 1, Instr::Measure));
    assert!(rt; matches!(measured, Some(CoreReply::Outcome(_))));
    Ok(())
}

// Asks for this at each of 128 qubits. Whether each is answered: a measurement of the second one by 0, the others by 1.
fn answers_each<N: Named + Framed, R: Wait>(
    rt: &R,
    alloc: Global,
    hub: &Hub<N>,
    seat: &mut Seat<N>,
    instr: Instr,
) -> bool {
    for node in 0..8u8 {
        for id in 0..16u16 {
            let reply = match instr {
                Instr::New => CoreReply::New(id),
                Instr::Measure => CoreReply::Outcome(id != 1),
                _ => CoreReply::Silent,
            };
            if seat.ask(rt, alloc, hub, plain(node, id, instr)) != Some(reply) {
                return false;
            }
        }
    }
    true
}

/// Each of the 137 cells is locked again behind a commit that touched it.
pub(crate) fn locks_every_cell<N: Named + Framed, R: Wait + Abort>(
    rt: &R,
    mut site: Site<N>,
) -> Result<(), Fail> {
    let (mut first, mut second) = site.two_seats()?;
    let hub = &site.hub;
    assert!(rt; answers_each(rt, site.alloc, hub, &mut first, Instr::New));
    assert!(rt; answers_each(rt, site.alloc, hub, &mut second, Instr::X));
    for node in 0..8u8 {
        let joined = first.ask(rt, site.alloc, hub, plain(node, 0, Instr::Cnot(1)));
        assert_eq!(rt; joined, Some(CoreReply::Silent));
        let kept = second.ask(rt, site.alloc, hub, plain(node, 0, Instr::MeasureInplace));
        assert_eq!(rt; kept, Some(CoreReply::Outcome(true)));
    }
    assert!(rt; answers_each(rt, site.alloc, hub, &mut first, Instr::Measure));
    let passes = vec![in site.alloc; first.pass, second.pass]?;
    site.close(rt, passes, eight_nodes(), 400)
}

// What a cell tells: whether a next value is there, and how much it has.
#[derive(Clone, Copy, PartialEq, Eq, Debug)]
struct Told {
    ready: bool,
    held: usize,
    least: Option<u8>,
}

// What the cell of a number tells.
fn state_of<N: Named + Framed, R: Wait>(rt: &R, hub: &Hub<N>, number: u16) -> Option<Told> {
    if number >= hub.locks.count() {
        return None;
    }
    let mut hold = hub.locks.begin::<1>();
    hold.take(rt, number);
    let cell = hold.peek(number)?.cell()?;
    let (held, least) = match cell {
        Cell::Node(pair) => (usize::from(pair.value().held()), None),
        Cell::Pool(pair) => (0, pair.now.least_number()),
        Cell::Slot(slot) => (slot.register.qubits().len(), None),
    };
    Some(Told {
        ready: cell.ready(),
        held,
        least,
    })
}

/// Where the journal is full nothing changes: two nodes, what is free and a register stay as they were.
pub(crate) fn finds_no_room<N: Named + Framed, R: Wait + Abort>(
    rt: &R,
    mut site: Site<N>,
) -> Result<(), Fail> {
    let (mut first, mut other) = site.two_seats()?;
    for instr in [Instr::New, Instr::Send(remote(1))] {
        let _reply = first.ask(rt, site.alloc, &site.hub, plain(0, 0, instr));
    }
    let before = [0, 1, 2, 3].map(|number| state_of(rt, &site.hub, number));
    for instr in [Instr::Recv, Instr::New, Instr::Epr(remote(0))] {
        let mut dice = crate::site::words(site.alloc, 0)?;
        let mut patience = CountPatience::new(site.alloc, 0)?;
        let answer = other.call(rt, &site.hub, plain(1, 0, instr), &mut dice, &mut patience);
        assert_eq!(rt; answer, Some(Err(JournalFull { entries: 2 })));
    }
    let after = [0, 1, 2, 3].map(|number| state_of(rt, &site.hub, number));
    assert_eq!(rt; before, after);
    assert!(rt;
        after
            .iter()
            .all(|told| told.is_some_and(|told| !told.ready))
    );
    site.close_two(rt, (first.pass, other.pass), 2)
}
