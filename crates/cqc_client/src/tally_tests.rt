// Tallies of histories that were made by hand, and the lines of a summary.
use crate::{Summary, Tally};
use cqc_wire::{Command, Instr};
use network_model::{Call, CoreReply, Entry};
use std::test::Fail;

// An entry of a connection.
fn entry(seat: u16, serial: u16, reply: CoreReply) -> Entry {
    let command = Command {
        qubit: 0,
        instr: Instr::Measure,
        notify: false,
        block: false,
    };
    Entry {
        call: Call {
            seat,
            serial,
            node: 0,
            app: 0,
            command,
        },
        word: None,
        reply,
    }
}

// An outcome of the first connection of a seat.
fn outcome(seat: u16, bit: bool) -> Entry {
    entry(seat, 0, CoreReply::Outcome(bit))
}

#[test]
fn outcomes_are_paired_in_their_order(rt: HostRuntime) -> Result<(), Fail> {
    let silent = entry(0, 0, CoreReply::Silent);
    let one = CoreReply::Outcome(true);
    let cases: [(&[Entry], usize, usize); 6] = [
        // nothing was measured
        (&[], 0, 0),
        (&[silent, entry(1, 0, CoreReply::New(0))], 0, 0),
        (
            &[
                outcome(0, true),
                silent,
                outcome(0, false),
                outcome(1, true),
                outcome(0, true),
                outcome(1, true),
                outcome(1, true),
            ],
            2,
            2,
        ),
        // outcomes without partner are no equal ones
        (
            &[outcome(0, false), outcome(1, false), outcome(0, true)],
            1,
            1,
        ),
        (
            &[outcome(1, true), outcome(1, true), outcome(0, true)],
            1,
            1,
        ),
        // other connections don't count
        (
            &[entry(0, 1, one), entry(2, 0, one), outcome(1, true)],
            0,
            0,
        ),
    ];
    for (entries, equal, ones) in cases {
        assert_eq!(rt; Tally::of(entries), Tally { equal, ones });
    }
    Ok(())
}

#[test]
fn summary_has_five_lines(rt: HostRuntime) -> Result<(), Fail> {
    let summary = Summary {
        rounds: 3,
        entries: 21,
        tally: Tally { equal: 3, ones: 2 },
        first_bytes: 177,
        second_bytes: 0,
    };
    let text = summary.lines(rt.alloc())?;
    assert_eq!(rt;
        text.as_str(),
        "rounds 3\nentries 21\nequal 3\nones 2\nbytes 177 0\n"
    );
    Ok(())
}
