// What the program prints of drills.
use crate::complaint::Complaint;
use crate::mem_house::{Given, faultless, printed_with};
use crate::status::Status;
use std::test::Fail;

// A drill of so many rounds.
fn drilled<'a>(args: &'a [&'a str]) -> Given<'a> {
    Given {
        args,
        ..faultless([0, 0], 7)
    }
}

#[test]
fn three_rounds_are_summed_up(rt: HostRuntime) -> Result<(), Fail> {
    let got = printed_with(&rt, rt.alloc(), drilled(&["drill", "3"]))?;
    assert_eq!(rt;
        got.text.as_str(),
        "rounds 3\nentries 21\nequal 3\nones 2\nbytes 177 177\n"
    );
    assert_eq!(rt; got.status, Status::Done);
    assert_eq!(rt; got.said, None);
    Ok(())
}

#[test]
fn each_turn_of_many_rounds_is_an_entry(rt: HostRuntime) -> Result<(), Fail> {
    let got = printed_with(&rt, rt.alloc(), drilled(&["drill", "100"]))?;
    let text = got.text.as_str();
    assert!(rt; text.starts_with("rounds 100\nentries 700\nequal 100\nones "));
    assert!(rt; text.ends_with("\nbytes 5900 5900\n"));
    assert_eq!(rt; got.status, Status::Done);
    Ok(())
}

#[test]
fn summary_that_is_not_taken_is_a_fault(rt: HostRuntime) -> Result<(), Fail> {
    let given = Given {
        bad_write: Some(0),
        ..drilled(&["drill", "1"])
    };
    let got = printed_with(&rt, rt.alloc(), given)?;
    assert_eq!(rt; got.text.as_str(), "");
    assert_eq!(rt; got.status, Status::Fault);
    assert_eq!(rt; got.said, Some(Complaint::Fault));
    Ok(())
}
