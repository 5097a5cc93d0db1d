// What the program makes of scripts, and of what comes over a link.
use crate::complaint::Complaint;
use crate::mem_house::{Answer, Given, answer_with, faultless};
use crate::status::Status;
use cqc_client::{ScriptFault, ScriptWhy};
use hex::encode;
use std::test::Fail;

// A qubit that is flipped and measured.
const SCRIPT: &str = "app 7\nnew\nx 0\nmeasure 0\ngo\n";

// The replies NEW_OK 0, MEASOUT 1 and DONE of app 7.
const REPLIES: &[u8] = &[
    2, 10, 0, 7, 0, 0, 0, 2, 0, 0, 2, 7, 0, 7, 0, 0, 0, 1, 1, 2, 4, 0, 7, 0, 0, 0, 0,
];

// The first of them, and a byte of the next.
const NEW_OK: &[u8] = &[2, 10, 0, 7, 0, 0, 0, 2, 0, 0];

const CUT: &[u8] = &[2, 10, 0, 7, 0, 0, 0, 2, 0, 0, 2];

// A reply to another app.
const STRANGE: &[u8] = &[2, 10, 0, 6, 0, 0, 0, 2, 0, 0];

#[test]
fn replies_are_printed_and_decide_the_status(rt: HostRuntime) -> Result<(), Fail> {
    let cases = [
        (SCRIPT, REPLIES, Status::Done, "new 0\nout 1\ndone\n"),
        ("", REPLIES, Status::Done, ""),
        (SCRIPT, NEW_OK, Status::Unfinished, "new 0\n"),
        (SCRIPT, CUT, Status::Unfinished, "new 0\n"),
        (SCRIPT, STRANGE, Status::Unfinished, ""),
    ];
    for (script, link, status, text) in cases {
        let alloc = rt.alloc();
        let given = Given {
            args: &["talk", "127.0.0.1", "8821", "script"],
            files: &[("script", script)],
            links: &[link],
            ..faultless([0, 0], 7)
        };
        let got = answer_with(&rt, alloc, Vec::new(alloc), given)?;
        assert_eq!(rt;
            got,
            Answer {
                status,
                said: None,
                output: encode(alloc, text.as_bytes())?,
            }
        );
    }
    Ok(())
}

#[test]
fn refused_script_is_complained_of(rt: HostRuntime) -> Result<(), Fail> {
    let refused = [
        ("app 7\ndance\n", ScriptWhy::Word),
        ("new\n", ScriptWhy::Pending),
    ];
    for (script, why) in refused {
        let alloc = rt.alloc();
        let given = Given {
            args: &["talk", "127.0.0.1", "8821", "script"],
            files: &[("script", script)],
            ..faultless([0, 0], 7)
        };
        let got = answer_with(&rt, alloc, Vec::new(alloc), given)?;
        assert_eq!(rt; got.status, Status::Refused);
        assert_eq!(rt;
            got.said,
            Some(Complaint::Script(ScriptFault { line: 2, why }))
        );
        assert_eq!(rt; got.output.as_str(), "");
    }
    Ok(())
}

#[test]
fn place_that_is_not_reached_is_a_fault(rt: HostRuntime) -> Result<(), Fail> {
    let alloc = rt.alloc();
    let given = Given {
        args: &["talk", "127.0.0.1", "8821", "script"],
        files: &[("script", SCRIPT)],
        ..faultless([0, 0], 7)
    };
    let got = answer_with(&rt, alloc, Vec::new(alloc), given)?;
    assert_eq!(rt; got.status, Status::Fault);
    assert_eq!(rt; got.said, Some(Complaint::Fault));
    assert_eq!(rt; got.output.as_str(), "");
    Ok(())
}

#[test]
fn refused_line_of_a_script_is_told(rt: HostRuntime) {
    let complaint = Complaint::Script(ScriptFault {
        line: 2,
        why: ScriptWhy::Count,
    });
    assert_eq!(rt; complaint.label(), "qron: script line");
    assert_eq!(rt; complaint.line(), Some(2));
}
