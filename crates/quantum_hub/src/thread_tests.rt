// Calls from several threads.
ghost use Rattle.std.specs.Prelude.{◌≡◌};

use crate::cell_tests::{answered, play};
use crate::hub::Hub;
use crate::site::{Seat, Site, Turns, eight_nodes, plain, remote, words};
use commit_journal::{Framed, Pass};
use cqc_model::Instr;
use history_front::Named;
use network_model::CoreReply;
use qron_link::{CountPatience, Dice, ListDice};
use std::alloc::Global;
use std::process::Abort;
use std::sync::Wait;
use std::test::*;
use std::thread::{Threads, join};

// How often a receipt looks again.
const LOOKS: u32 = 200_000;

// Dice that hold their word back until another call was answered, or for so many turns.
#[derive(Drop)]
struct HeldDice<'a> {
    dice: ListDice,
    turns: &'a Turns,
    was_answered: bool,
}

impl<'a> Dice for HeldDice<'a> {
    ghost use Rattle.qron_link.specs.Dices.{list_word};

    ghost word = { list_word };

    ghost key = { λ d. d.dice.key };

    ghost begun_seat = { λ d. d.dice.seat };

    ghost begun_serial = { λ d. d.dice.serial };

    ghost taken = { λ d. d.dice.taken };

    fn begin(&mut self, seat: u16, serial: u16) {
        self.dice.begin(seat, serial);
    }

    fn next(&mut self) -> u64 {
        self.turns.tell(1);
        self.was_answered = self.turns.reach(2);
        self.dice.next()
    }
}

// Measures a qubit of node 0. Whether the other call was answered while the word was held back.
fn measure<N: Named + Framed, R: Wait>(
    rt: &R,
    alloc: Global,
    hub: &Hub<N>,
    mut seat: Seat<N>,
    turns: &Turns,
) -> Option<bool> {
    let mut dice = HeldDice {
        dice: words(alloc, 0).ok()?,
        turns,
        was_answered: false,
    };
    let mut patience = CountPatience::new(alloc, 0).ok()?;
    let asked = plain(0, 0, Instr::Measure);
    let _answer = seat.call(rt, hub, asked, &mut dice, &mut patience)?;
    Some(dice.was_answered)
}

/// A gate at another node is answered while a measurement draws its word.
pub(crate) fn holds_a_word<N: Named + Framed + Send + Sync, R: Threads + Wait + Abort + Sync>(
    rt: &R,
    mut site: Site<N>,
) -> Result<(), Fail> {
    let (mut first, mut other) = site.two_seats()?;
    let alloc = site.alloc;
    let hub = &site.hub;
    let _mine = first.ask(rt, alloc, hub, plain(0, 0, Instr::New));
    let _theirs = other.ask(rt, alloc, hub, plain(1, 0, Instr::New));
    let turns = Turns::new();
    let cases = [
        answered(0, 0, Instr::Measure, CoreReply::Outcome(false)),
        answered(1, 0, Instr::H, CoreReply::Silent),
    ];
    let (was_answered, turned) = join(
        rt,
        || measure(rt, alloc, hub, first, &turns),
        || play(rt, alloc, hub, other, &cases, &turns),
    );
    assert!(rt; turned.is_some());
    assert_eq!(rt; was_answered, Some(true));
    Ok(())
}

// Makes, entangles, sends on and receives qubits at a node, round after round.
fn work<N: Named + Framed, R: Wait>(
    rt: &R,
    alloc: Global,
    hub: &Hub<N>,
    mut seat: Seat<N>,
    node: u8,
    next: u16,
) -> Option<Pass<N>> {
    for round in 0..40u64 {
        let mut patience = CountPatience::new(alloc, LOOKS).ok()?;
        let round_of = [
            plain(node, 0, Instr::New),
            plain(node, 0, Instr::New),
            plain(node, 0, Instr::H),
            plain(node, 0, Instr::Cnot(1)),
            plain(node, 0, Instr::Send(remote(next))),
            plain(node, 0, Instr::Recv),
            plain(node, 0, Instr::Cnot(1)),
            plain(node, 0, Instr::Measure),
            plain(node, 1, Instr::Measure),
        ];
        for asked in round_of {
            let word = round.wrapping_mul(0x9e37_79b9_7f4a_7c15);
            let asked = crate::site::Asked { word, ..asked };
            let _reply = seat.ask_with(rt, alloc, hub, asked, &mut patience)?;
        }
    }
    Some(seat.pass)
}

// Two threads that work at a node and at the one behind it.
fn work_in_two<N: Named + Framed + Send + Sync, R: Threads + Wait + Sync>(
    rt: &R,
    alloc: Global,
    hub: &Hub<N>,
    one: Seat<N>,
    two: Seat<N>,
    node: u8,
) -> Option<(Pass<N>, Pass<N>)> {
    let behind = node.wrapping_add(1);
    let last = u16::from(behind.wrapping_add(1) % 4);
    let (one, two) = join(
        rt,
        || work(rt, alloc, hub, one, node, u16::from(behind)),
        || work(rt, alloc, hub, two, behind, last),
    );
    match (one, two) {
        (Some(one), Some(two)) => Some((one, two)),
        _ => None,
    }
}

/// Four threads at a node each, which send their qubits round, make one legal history.
pub(crate) fn works_in_four<N: Named + Framed + Send + Sync, R: Threads + Wait + Abort + Sync>(
    rt: &R,
    mut site: Site<N>,
) -> Result<(), Fail> {
    let d = site.seat()?;
    let c = site.seat()?;
    let b = site.seat()?;
    let a = site.seat()?;
    let alloc = site.alloc;
    let hub = &site.hub;
    let (low, high) = join(
        rt,
        || work_in_two(rt, alloc, hub, a, b, 0),
        || work_in_two(rt, alloc, hub, c, d, 2),
    );
    let (a, b) = low.ok_or("each call was answered")?;
    let (c, d) = high.ok_or("each call was answered")?;
    let passes = vec![in alloc; a, b, c, d]?;
    for pass in &passes {
        assert_eq!(rt; pass.made(), 360);
    }
    site.close(rt, passes, eight_nodes(), 1440)
}
