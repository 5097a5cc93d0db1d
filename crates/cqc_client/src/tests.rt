// The drill of few rounds, byte by byte.
use crate::drill;
use std::test::Fail;

#[test]
fn three_rounds_are_sent_byte_by_byte(rt: HostRuntime) -> Result<(), Fail> {
    let plan = drill(rt.alloc(), 3)?;
    assert_eq!(rt; plan.first.len(), 99);
    assert_eq!(rt; plan.second.len(), 60);
    assert!(rt; plan.first[..8] == [2, 1, 0, 0, 0, 0, 0, 25]);
    assert!(rt; plan.first[8..20] == [0, 0, 7, 0, 0, 0, 0x22, 0x76, 0x7F, 0, 0, 1]);
    assert!(rt; plan.first[20..33] == [0, 0, 17, 0, 0, 0, 16, 0, 0, 0, 0, 2, 0]);
    assert_eq!(rt; plan.first[61], 32);
    assert_eq!(rt; plan.first[94], 64);
    assert!(rt; plan.second[..8] == [2, 1, 0, 0, 0, 0, 0, 12]);
    assert!(rt; plan.second[8..20] == [0, 0, 8, 0, 0, 0, 17, 0, 0, 0, 2, 0]);
    Ok(())
}

#[test]
fn each_round_has_seven_turns(rt: HostRuntime) -> Result<(), Fail> {
    let plan = drill(rt.alloc(), 2)?;
    assert!(rt; plan.order[..] == [0, 1, 0, 1, 0, 0, 1, 0, 1, 0, 1, 0, 0, 1]);
    Ok(())
}

#[test]
fn the_turn_begins_again_after_eight_rounds(rt: HostRuntime) -> Result<(), Fail> {
    let plan = drill(rt.alloc(), 9)?;
    assert_eq!(rt; plan.first[7 * 33 + 28], 224);
    assert_eq!(rt; plan.first[8 * 33 + 28], 0);
    Ok(())
}
