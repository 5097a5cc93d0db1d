// What walks ask, one command after the other, and whether DONE is due.
ghost use Rattle.cqc_program.specs.Walks.{IsOver};

use super::*;
use std::test::Fail;

// A command without operand.
fn plain(instr: Instr, notify: bool) -> Command {
    Command {
        qubit: 0,
        instr,
        notify,
        block: false,
    }
}

// The next command, and goes on behind it.
fn step(walk: &mut Walk, body: &[u8], ok: bool) -> Option<Command>
    requires { IsOver body.now walk.old }
    ensures { IsOver body.now walk.new }
{
    let command = walk.next(body)?;
    walk.after(body, ok);
    Some(command)
}

// Whether a walk asks these commands one after the other, each of which succeeds.
fn asks(walk: &mut Walk, body: &[u8], asked: &[(Instr, bool)]) -> bool
    requires { IsOver body.now walk.old }
    ensures { IsOver body.now walk.new }
{
    for wanted in asked {
        if step(walk, body, true) != Some(plain(wanted.0, wanted.1)) {
            return false;
        }
    }
    true
}

// A body, a FACTORY's or not; what it asks; and whether DONE is due then.
type Case<'a> = (bool, &'a [u8], &'a [(Instr, bool)], bool);

#[test]
fn walks_ask_their_commands(rt: HostRuntime) -> Result<(), Fail> {
    use Instr::{New, X};
    let two_rounds = [
        (New, false),
        (New, false),
        (X, false),
        (New, false),
        (New, false),
        (X, false),
    ];
    let cases: [Case; 7] = [
        // ALLOCATE is as many NEW, and one of none is reached
        (false, &[0, 3, 22, 1], &[(New, true); 3], true),
        (false, &[0, 0, 22, 1], &[], true),
        // a FACTORY runs its list again, and one of no repeats reaches no command
        (true, &[2, 1, 0, 0, 1, 0], &[(New, false); 2], true),
        (true, &[0, 1, 0, 0, 1, 0], &[], true),
        (true, &[0, 0, 0, 0, 1, 1], &[], false),
        // ALLOCATE is unrolled in each round
        (true, &[2, 0, 0, 2, 22, 0, 0, 0, 10, 0], &two_rounds, false),
        // rounds that ask nothing end the walk
        (true, &[255, 0, 0, 0, 22, 0, 0, 0, 22, 1], &[], true),
    ];
    for (factory, body, asked, done) in cases {
        if body.len() > 16 {
            return Err("a short body".into());
        }
        let mut walk = Walk::open(factory, body).expect(&rt, "a list");
        assert!(rt; asks(&mut walk, body, asked));
        assert_eq!(rt; walk.next(body), None);
        assert_eq!(rt; walk.done_due(), done);
    }
    Ok(())
}

#[test]
fn nothing_follows_an_error(rt: HostRuntime) {
    let body = [2, 1, 0, 0, 1, 1, 0, 0, 10, 1];
    let mut walk = Walk::open(true, &body).expect(&rt, "a list");
    let first = [(Instr::New, true), (Instr::X, true)];
    assert!(rt; asks(&mut walk, &body, &first));
    let failed = step(&mut walk, &body, false);
    assert_eq!(rt; failed, Some(plain(Instr::New, true)));
    assert_eq!(rt; walk.next(&body), None);
    assert!(rt; !walk.done_due());
}

#[test]
fn faults_are_told_before_anything_is_asked(rt: HostRuntime) {
    assert_eq!(rt;
        Walk::open(true, &[1]).err(),
        Some(BodyFault::Short { at: 0 })
    );
    let cut = [1, 1, 0, 0, 1, 0, 0, 0, 17];
    assert_eq!(rt;
        Walk::open(true, &cut).err(),
        Some(BodyFault::Short { at: 4 })
    );
    let unknown = [0, 0, 1, 0, 0, 0, 99, 0];
    assert_eq!(rt;
        Walk::open(false, &unknown).err(),
        Some(BodyFault::Unsupported { at: 4 })
    );
}
