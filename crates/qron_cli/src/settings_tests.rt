// What the program makes of files of settings.
use crate::complaint::Complaint;
use crate::mem_house::{Given, answer_with, faultless, printed_with};
use crate::status::Status;
use crate::texts::{TWO, refused_settings};
use hex::decode;
use std::test::Fail;

// One connection over the pipe, with the settings of a file.
const PIPE: &[&str] = &["pipe", "settings"];

#[test]
fn settings_are_taken(rt: HostRuntime) -> Result<(), Fail> {
    let alloc = rt.alloc();
    let given = Given {
        args: PIPE,
        files: &[("settings", TWO)],
        ..faultless([0, 0], 7)
    };
    let got = answer_with(&rt, alloc, decode(alloc, "0200000700000000")?, given)?;
    assert_eq!(rt; got.status, Status::Done);
    assert_eq!(rt; got.output.as_str(), "0200000700000000");
    Ok(())
}

#[test]
fn settings_are_refused_before_anything_is_done(rt: HostRuntime) -> Result<(), Fail> {
    let refused = refused_settings();
    for (text, why) in refused {
        let given = Given {
            args: &["replay", "settings", "schedule"],
            files: &[("settings", text)],
            ..faultless([0, 0], 7)
        };
        let got = printed_with(&rt, rt.alloc(), given)?;
        assert_eq!(rt; got.status, Status::Refused);
        assert_eq!(rt; got.said, Some(Complaint::Settings(why)));
        assert_eq!(rt; got.text.as_str(), "");
    }
    Ok(())
}

#[test]
fn file_that_is_not_there_is_a_fault(rt: HostRuntime) -> Result<(), Fail> {
    let given = Given {
        args: PIPE,
        ..faultless([0, 0], 7)
    };
    let got = printed_with(&rt, rt.alloc(), given)?;
    assert_eq!(rt; got.status, Status::Fault);
    assert_eq!(rt; got.said, Some(Complaint::Fault));
    assert_eq!(rt; got.text.as_str(), "");
    Ok(())
}
