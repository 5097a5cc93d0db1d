// What the program prints of networks that are served.
use crate::complaint::Complaint;
use crate::mem_house::{Given, faultless, printed_with};
use crate::status::Status;
use crate::texts::{ONE_EACH, refused_settings};
use std::test::Fail;

const SERVE: &[&str] = &["serve", "settings"];

// NEW and MEASURE of the qubit, which are two entries; and the first bytes of such a message.
const MEASURED: &[u8] = &[2, 1, 0, 0, 0, 0, 0, 8, 0, 0, 1, 0, 0, 0, 2, 0];

const CUT: &[u8] = &[2, 1, 0, 0, 0, 0, 0, 8, 0, 0];

// A connection at each node.
const ONE_AT_EACH: &[&[&[u8]]] = &[&[MEASURED], &[MEASURED]];

// Three connections at the first node, of which the second sends nothing, and none at the other.
const THREE_AT_ONE: &[&[&[u8]]] = &[&[MEASURED, &[], CUT], &[]];

#[test]
fn each_connection_is_printed(rt: HostRuntime) -> Result<(), Fail> {
    let cases = [
        (
            ONE_AT_EACH,
            Status::Done,
            "0 0 0 clean\n1 0 1 clean\nentries 4\n",
        ),
        (
            THREE_AT_ONE,
            Status::Unfinished,
            "0 0 0 clean\n0 1 0 clean\n0 2 0 cut\nentries 2\n",
        ),
    ];
    for (doors, status, text) in cases {
        let given = Given {
            args: SERVE,
            files: &[("settings", ONE_EACH)],
            doors,
            ..faultless([0, 0], 7)
        };
        let got = printed_with(&rt, rt.alloc(), given)?;
        assert_eq!(rt; got.text.as_str(), text);
        assert_eq!(rt; got.status, status);
        assert_eq!(rt; got.said, None);
    }
    Ok(())
}

#[test]
fn doors_that_are_missing_are_a_fault(rt: HostRuntime) -> Result<(), Fail> {
    let given = Given {
        args: SERVE,
        files: &[("settings", ONE_EACH)],
        doors: &[&[MEASURED]],
        ..faultless([0, 0], 7)
    };
    let got = printed_with(&rt, rt.alloc(), given)?;
    assert_eq!(rt; got.text.as_str(), "");
    assert_eq!(rt; got.status, Status::Fault);
    assert_eq!(rt; got.said, Some(Complaint::Fault));
    Ok(())
}

#[test]
fn report_that_is_not_taken_is_a_fault(rt: HostRuntime) -> Result<(), Fail> {
    let given = Given {
        args: SERVE,
        files: &[("settings", ONE_EACH)],
        doors: ONE_AT_EACH,
        bad_write: Some(0),
        ..faultless([0, 0], 7)
    };
    let got = printed_with(&rt, rt.alloc(), given)?;
    assert_eq!(rt; got.text.as_str(), "");
    assert_eq!(rt; got.status, Status::Fault);
    assert_eq!(rt; got.said, Some(Complaint::Fault));
    Ok(())
}

#[test]
fn settings_are_refused_before_a_door_is_asked(rt: HostRuntime) -> Result<(), Fail> {
    for (text, why) in refused_settings() {
        let given = Given {
            args: SERVE,
            files: &[("settings", text)],
            doors: ONE_AT_EACH,
            ..faultless([0, 0], 7)
        };
        let got = printed_with(&rt, rt.alloc(), given)?;
        assert_eq!(rt; got.text.as_str(), "");
        assert_eq!(rt; got.status, Status::Refused);
        assert_eq!(rt; got.said, Some(Complaint::Settings(why)));
    }
    Ok(())
}

#[test]
fn one_file_is_served(rt: HostRuntime) -> Result<(), Fail> {
    let lines: [&[&str]; 2] = [&["serve"], &["serve", "settings", "settings"]];
    for args in lines {
        let given = Given {
            args,
            files: &[("settings", ONE_EACH)],
            doors: ONE_AT_EACH,
            ..faultless([0, 0], 7)
        };
        let got = printed_with(&rt, rt.alloc(), given)?;
        assert_eq!(rt; got.text.as_str(), "");
        assert_eq!(rt; got.status, Status::Words);
        assert_eq!(rt; got.said, Some(Complaint::Words));
    }
    Ok(())
}
