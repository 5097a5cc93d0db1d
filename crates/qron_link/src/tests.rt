// Links and a door in memory, and dice.
use super::*;

#[test]
fn links_hand_out_pieces_and_fail_where_listed(rt: HostRuntime) {
    let alloc = rt.alloc();
    let bytes = vec![in alloc; 1, 2, 3].expect(&rt, "bytes");
    let bad_reads = vec![in alloc; 1].expect(&rt, "numbers");
    let bad_writes = vec![in alloc; 0].expect(&rt, "numbers");
    let mut link = MemLink::new(alloc, bytes, 2, 3, bad_reads, bad_writes).expect(&rt, "link");
    let mut room = [9; 8];
    assert!(rt; matches!(link.read(&mut room), Got::Bytes(2)));
    assert!(rt; room == [1, 2, 9, 9, 9, 9, 9, 9]);
    assert!(rt; matches!(link.read(&mut room), Got::Failed));
    assert!(rt; matches!(link.read(&mut room), Got::Bytes(1)));
    assert!(rt; matches!(link.read(&mut room), Got::End));
    assert!(rt; matches!(link.write(&[4, 5]), Put::Failed));
    assert!(rt; matches!(link.write(&[4, 5]), Put::Bytes(2)));
    assert!(rt; matches!(link.write(&[6, 7]), Put::Bytes(1)));
    assert!(rt; matches!(link.write(&[7]), Put::Failed));
    link.close();
    assert!(rt; link.written() == [4, 5, 6].as_slice());
}

#[test]
fn generic_calls_read_and_write(rt: HostRuntime) {
    let alloc = rt.alloc();
    let bytes = vec![in alloc; 1, 2].expect(&rt, "bytes");
    let mut link = MemLink::new(alloc, bytes, 8, 8, Vec::new(alloc), Vec::new(alloc)).expect(
        &rt, "link",
    );
    let mut room = [0; 2];
    assert!(rt; matches!(read_link(&mut link, &mut room), Got::Bytes(2)));
    assert!(rt; send_link(&mut link, &room) == Ok(()));
    assert!(rt; link.written() == [1, 2].as_slice());
}

#[test]
fn transfers_take_as_many_calls_as_they_need(rt: HostRuntime) {
    let alloc = rt.alloc();
    let bytes = vec![in alloc; 1, 2, 3, 4, 5, 6, 7].expect(&rt, "bytes");
    let mut link = MemLink::new(alloc, bytes, 2, 4, Vec::new(alloc), Vec::new(alloc)).expect(
        &rt, "link",
    );
    let mut room = [0; 3];
    let mut budget = 6;
    assert_eq!(rt; fill(&mut link, &mut room, &mut budget), Filled::Whole);
    assert!(rt; room == [1, 2, 3]);
    assert_eq!(rt; skip(&mut link, 2, &mut budget), Filled::Whole);
    assert_eq!(rt; fill(&mut link, &mut room, &mut budget), Filled::Spent);
    assert!(rt; room == [6, 2, 3]);
    budget = 6;
    assert_eq!(rt; skip(&mut link, 4, &mut budget), Filled::Ended { have: 1 });
    assert_eq!(rt; send(&mut link, &room), Ok(()));
    assert_eq!(rt; send_link(&mut link, &room), Err(NotSent));
    assert!(rt; link.written() == [6, 2, 3, 6].as_slice());
}

#[test]
fn doors_hand_out_links_in_order_and_fail_where_listed(rt: HostRuntime) {
    let alloc = rt.alloc();
    let mut links = Vec::new(alloc);
    for byte in [1, 2] {
        let bytes = vec![in alloc; byte].expect(&rt, "bytes");
        let link = MemLink::new(alloc, bytes, 1, 0, Vec::new(alloc), Vec::new(alloc)).expect(
            &rt, "link",
        );
        links.push(link).expect(&rt, "links");
    }
    let bad = vec![in alloc; 1].expect(&rt, "numbers");
    let mut door = MemDoor::new(links, bad);
    assert_eq!(rt; first_byte(&mut door), Some(1));
    assert!(rt; matches!(door.next(), Knock::Failed));
    assert_eq!(rt; first_byte(&mut door), Some(2));
    assert!(rt; matches!(door.next(), Knock::Closed));
    assert!(rt; matches!(door.next(), Knock::Closed));
}

#[test]
fn listed_words_come_in_order_and_then_zeros(rt: HostRuntime) {
    let words = vec![in rt.alloc(); 7, 8].expect(&rt, "words");
    let mut dice = ListDice::new(words);
    dice.begin(3, 4);
    assert!(rt; [dice.next(), dice.next(), dice.next()] == [7, 8, 0]);
    dice.begin(0, 0);
    assert_eq!(rt; dice.next(), 7);
}

#[test]
fn chacha_words_are_those_of_the_stream(rt: HostRuntime) {
    let mut dice = ChaChaDice::new([0; 32]);
    dice.begin(0, 0);
    let first = [dice.next(), dice.next(), dice.next()];
    assert!(rt;
        first
            == [
                0x903d_f1a0_ade0_b876,
                0x28bd_8653_e56a_5d40,
                0x1aed_8da0_b819_d2bd
            ]
    );
    dice.begin(0, 1);
    assert!(rt; dice.next() != first[0]);
    dice.begin(0, 0);
    assert!(rt; [dice.next(), dice.next(), dice.next()] == first);
}

// The first byte of the next link of a door.
fn first_byte<D: Door>(door: &mut D) -> Option<u8> {
    let Knock::Link(mut link) = door.next() else {
        return None;
    };
    let mut room = [0; 1];
    match read_link(&mut link, &mut room) {
        Got::Bytes(_) => Some(room[0]),
        _ => None,
    }
}

#[test]
fn counted_patience_gives_up_after_its_number_of_times(rt: HostRuntime) {
    let mut patience = CountPatience::new(rt.alloc(), 2).expect(&rt, "patience");
    patience.start();
    assert!(rt; patience.again(empty_after(4)));
    assert!(rt; patience.again(empty_after(5)));
    assert!(rt; !patience.again(empty_after(5)));
    assert_eq!(rt; patience.asked(), 3);
    patience.start();
    assert!(rt; patience.again(empty_after(9)));
    assert_eq!(rt; patience.asked(), 4);
}

#[test]
fn patience_for_no_time_gives_up_at_once(rt: HostRuntime) {
    let mut patience = CountPatience::new(rt.alloc(), 0).expect(&rt, "patience");
    patience.start();
    assert!(rt; !patience.again(empty_after(0)));
    assert_eq!(rt; patience.asked(), 1);
}

#[test]
fn patience_that_sleeps_goes_on_as_often(rt: HostRuntime) {
    let mut patience = SleepPatience::new(rt, 2, 1);
    patience.start();
    let went_on = [
        patience.again(empty_after(0)),
        patience.again(empty_after(1)),
        patience.again(empty_after(1)),
    ];
    assert!(rt; went_on == [true, true, false]);
}

// A queue of qubits that were sent, which was empty after so many entries.
fn empty_after(entries: u32) -> EmptyAt {
    EmptyAt {
        node: 0,
        app: 3,
        pair: false,
        entries,
    }
}
