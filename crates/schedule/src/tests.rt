// Schedules, and the first refusals of texts that are none.
use crate::{ScheduleFault, ScheduleRead, Why, read_schedule};
use std::alloc::Global;
use std::test::Fail;

// The refusal of a text, if it is refused.
fn refusal(alloc: Global, text: &str) -> Result<Option<ScheduleFault>, Fail> {
    if text.len() > 16_777_216 {
        return Err(Fail::from("too long"));
    }
    match read_schedule(alloc, text.as_bytes(), 2) {
        ScheduleRead::Read(_) => Ok(None),
        ScheduleRead::Refused(fault) => Ok(Some(fault)),
        ScheduleRead::OutOfMemory => Err(Fail::from("memory")),
    }
}

#[test]
fn schedule_is_read(rt: HostRuntime) -> Result<(), Fail> {
    let text = "# two\n\nc 0 100 0200000700000000\nc 1 0 -\ns 1 2\ns 0 1";
    let ScheduleRead::Read(schedule) = read_schedule(rt.alloc(), text.as_bytes(), 2) else {
        return Err(Fail::from("refused"));
    };
    assert_eq!(rt; schedule.plans.len(), 2);
    assert_eq!(rt; schedule.plans[0].room, 100);
    assert_eq!(rt;
        schedule.plans[0].bytes.as_slice(),
        [2, 0, 0, 7, 0, 0, 0, 0].as_slice()
    );
    assert_eq!(rt; schedule.plans[1].bytes.len(), 0);
    assert_eq!(rt; schedule.order.as_slice(), [1, 1, 0].as_slice());
    Ok(())
}

#[test]
fn first_refusal_is_told(rt: HostRuntime) -> Result<(), Fail> {
    let alloc = rt.alloc();
    let of_one_line = [
        ("c 2 100 -", Why::Number),
        (" c 0 1 -", Why::Word),
        ("c 0 1", Why::Count),
        ("c 0 1 - ", Why::Count),
        ("c 0  -", Why::Number),
        ("c 00 1 -", Why::Number),
        ("c 0 +1 -", Why::Number),
        ("c 0 1048577 -", Why::Number),
        ("c 0 1 abc", Why::Hex),
        ("c 0 1 ", Why::Hex),
    ];
    for (text, why) in of_one_line {
        assert_eq!(rt;
            refusal(alloc, text)?,
            Some(ScheduleFault { line: 1, why }),
            "{text}"
        );
    }
    let of_more = [
        ("\nx\ny", 2, Why::Word),
        ("s 0 1\nc 0 1 -", 1, Why::Number),
        ("c 0 1 -\ns 0 0", 2, Why::Number),
        ("c 0 1 -\ns 0 1048576\ns 0 1", 3, Why::Many),
    ];
    for (text, line, why) in of_more {
        assert_eq!(rt;
            refusal(alloc, text)?,
            Some(ScheduleFault { line, why }),
            "{text}"
        );
    }
    Ok(())
}
