// What the program prints of files that are given.
use crate::complaint::Complaint;
use crate::mem_house::{Given, faultless, printed_with};
use crate::status::Status;
use crate::texts::TWO;
use cqc_server::{ScheduleFault, Why};
use std::test::Fail;

// The connections of a schedule, over two nodes.
const REPLAY: &[&str] = &["replay", "settings", "schedule"];

// A schedule, and what comes of its replay.
#[derive(Drop)]
struct Case<'a> {
    schedule: &'a str,
    status: Status,
    said: Option<Complaint>,
    text: &'a str,
}

// A replay that is done, and prints this.
fn replayed<'a>(schedule: &'a str, text: &'a str) -> Case<'a> {
    Case {
        schedule,
        status: Status::Done,
        said: None,
        text,
    }
}

// A replay whose schedule is refused.
fn unscheduled(schedule: &str, line: u32, why: Why) -> Case<'_> {
    Case {
        status: Status::Refused,
        said: Some(Complaint::Schedule(ScheduleFault { line, why })),
        ..replayed(schedule, "")
    }
}

#[test]
fn schedules_are_replayed(rt: HostRuntime) -> Result<(), Fail> {
    let cases = [
        replayed("", ""),
        replayed(
            "c 0 100 0200000700000000\ns 0 1\n",
            "0 clean 0200000700000000\n",
        ),
        // HELLO on two connections, of which the second goes on behind the order, and one without input
        replayed(
            "c 0 100 0200000700000000\nc 1 8 0200000900000000\nc 0 0 -\ns 0 1\n",
            "0 clean 0200000700000000\n1 clean 0200000900000000\n2 clean -\n",
        ),
        // an input that is cut, and a sink whose room is too small
        Case {
            status: Status::Unfinished,
            ..replayed("c 0 100 020000\n", "0 cut -\n")
        },
        Case {
            status: Status::Fault,
            said: Some(Complaint::Fault),
            ..replayed(
                "c 0 3 0200000700000000\nc 1 9 02\n",
                "0 writefault 020000\n1 cut -\n",
            )
        },
        unscheduled("c 2 100 -\n", 1, Why::Number),
        unscheduled("# none\n\ns 0 1\n", 3, Why::Number),
    ];
    for case in cases {
        let files = [("settings", TWO), ("schedule", case.schedule)];
        let given = Given {
            args: REPLAY,
            files: &files,
            ..faultless([0, 0], 7)
        };
        let got = printed_with(&rt, rt.alloc(), given)?;
        assert_eq!(rt; got.text.as_str(), case.text);
        assert_eq!(rt; got.status, case.status, "{}", case.text);
        assert_eq!(rt; got.said, case.said, "{}", case.text);
    }
    Ok(())
}

#[test]
fn what_fails_is_a_fault(rt: HostRuntime) -> Result<(), Fail> {
    let files = [("settings", TWO), ("schedule", "c 0 0 -\n")];
    let cases = [
        // a file that isn't there, and the first write of a line
        Given {
            args: &["pipe", "settings"],
            ..faultless([0, 0], 7)
        },
        Given {
            args: REPLAY,
            files: &files,
            bad_write: Some(0),
            ..faultless([0, 0], 7)
        },
    ];
    for given in cases {
        let got = printed_with(&rt, rt.alloc(), given)?;
        assert_eq!(rt; got.text.as_str(), "");
        assert_eq!(rt; got.status, Status::Fault);
        assert_eq!(rt; got.said, Some(Complaint::Fault));
    }
    Ok(())
}
