// Bytes and faults of the wire format, from its tables.
use super::*;

// What stands in a room before anything is written.
const BEFORE: u8 = 0xEE;

// A room with a reply in front, and how many bytes the reply has.
#[derive(Drop)]
struct Room {
    out: [u8; 52],
    size: usize,
}

fn reply_in_room(app: u16, reply: Reply) -> Room {
    let mut out = [BEFORE; 52];
    let size = write_reply(&mut out, app, &reply);
    Room { out, size }
}

// A pair whose bytes all differ.
const PAIR: PairInfo = PairInfo {
    node_a: 0x0102_0304,
    port_a: 0x0506,
    app_a: 0x0708,
    node_b: 0x090A_0B0C,
    port_b: 0x0D0E,
    app_b: 0x0F10,
    pair: 0x1112_1314,
};

// A command without options.
fn plain(qubit: u16, instr: Instr) -> Command {
    Command {
        qubit,
        instr,
        notify: false,
        block: false,
    }
}

// A command that asks for DONE.
fn notifying(qubit: u16, instr: Instr) -> Command {
    Command {
        notify: true,
        ..plain(qubit, instr)
    }
}

// A command with BLOCK.
fn blocking(qubit: u16, instr: Instr) -> Command {
    Command {
        block: true,
        ..plain(qubit, instr)
    }
}

// A command, and where the next one begins.
fn step(command: Command, next: u32) -> Step {
    Step { command, next }
}

#[test]
fn hello_has_eight_bytes(rt: HostRuntime) {
    let head = read_header(&[2, 0, 0, 7, 0, 0, 1, 2]);
    assert_eq!(rt;
        head,
        Header {
            version: 2,
            kind: 0,
            app: 7,
            length: 258
        }
    );
}

#[test]
fn replies_have_their_bytes(rt: HostRuntime) {
    let cases: [(Reply, &[u8]); 5] = [
        (Reply::New(0), &[0x02, 0x0A, 0, 7, 0, 0, 0, 2, 0, 0]),
        (Reply::Hello, &[0x02, 0, 0, 7, 0, 0, 0, 0]),
        (Reply::Done, &[0x02, 0x04, 0, 7, 0, 0, 0, 0]),
        (Reply::Received(258), &[0x02, 0x05, 0, 7, 0, 0, 0, 2, 1, 2]),
        (Reply::Outcome(true), &[0x02, 0x07, 0, 7, 0, 0, 0, 1, 1]),
    ];
    for (reply, bytes) in cases {
        let room = reply_in_room(7, reply);
        assert_eq!(rt; room.out.get(..room.size), Some(bytes));
        assert_eq!(rt; room.out.get(room.size), Some(&BEFORE));
    }
}

#[test]
fn parts_of_a_pair_have_their_places(rt: HostRuntime) {
    let pair = reply_in_room(0x0A0B, Reply::Pair(0x0C0D, PAIR));
    assert_eq!(rt; pair.size, 50);
    assert!(rt; pair.out[..10] == [0x02, 0x06, 0x0A, 0x0B, 0, 0, 0, 0x2A, 0x0C, 0x0D]);
    assert!(rt;
        pair.out[10..30]
            == [
                1, 2, 3, 4, 5, 6, 7, 8, 9, 10, 11, 12, 13, 14, 15, 16, 17, 18, 19, 20
            ]
    );
    assert!(rt; pair.out[30..50] == [0; 20]);
    assert_eq!(rt; pair.out[50], BEFORE);
}

#[test]
fn errors_have_their_types(rt: HostRuntime) {
    for (fault, kind) in [
        (Fault::General, 0x14),
        (Fault::NoQubit, 0x15),
        (Fault::Unsupported, 0x16),
        (Fault::Timeout, 0x17),
        (Fault::Unknown, 0x19),
    ] {
        let error = reply_in_room(0, Reply::Error(fault));
        assert_eq!(rt; error.size, 8);
        assert!(rt; error.out[..8] == [0x02, kind, 0, 0, 0, 0, 0, 0]);
    }
}

// The first fault of a list, if it has one.
fn first_fault(list: &[u8]) -> Option<BodyFault> {
    if list.len() > 65_536 {
        return None;
    }
    check_body(list).err()
}

#[test]
fn first_faults_are_told(rt: HostRuntime) {
    let action = [0, 0, 1, 2];
    let if_then = [0, 0, 1, 8];
    let cut_command = [0, 0, 1, 0, 0, 0, 17];
    let unknown = [0, 0, 1, 0, 0, 0, 99, 0, 0];
    let cases: [(&[u8], BodyFault); 4] = [
        (&action, BodyFault::Unsupported { at: 0 }),
        (&if_then, BodyFault::Unsupported { at: 0 }),
        (&cut_command, BodyFault::Short { at: 4 }),
        (&unknown, BodyFault::Unsupported { at: 4 }),
    ];
    for (list, fault) in cases {
        assert_eq!(rt; first_fault(list), Some(fault));
    }
}

#[test]
fn extra_headers_must_be_whole(rt: HostRuntime) {
    let send = [0, 0, 1, 0, 0, 0, 5, 0, 0, 2, 0x22, 0x76, 0x7F, 0, 0];
    let epr = [0, 0, 1, 0, 0, 0, 7, 0, 0, 2, 0x22, 0x76, 0x7F, 0, 0];
    let cnot = [0, 0, 1, 0, 0, 0, 20, 0, 1];
    let cphase = [0, 0, 1, 0, 0, 0, 21, 0, 1];
    let receipt = [0, 0, 6, 0, 0, 0, 8];
    let lists: [&[u8]; 5] = [&send, &epr, &cnot, &cphase, &receipt];
    for list in lists {
        assert_eq!(rt; first_fault(list), Some(BodyFault::Short { at: 4 }));
    }
}

#[test]
fn unknown_numbers_and_options_come_before_extra_headers(rt: HostRuntime) {
    for number in [9, 19, 24, 255] {
        assert_eq!(rt;
            check_body(&[0, 0, number, 0]),
            Err(BodyFault::Unsupported { at: 0 })
        );
    }
    for number in [5, 7, 20, 21] {
        assert_eq!(rt;
            check_body(&[0, 0, number, 2]),
            Err(BodyFault::Unsupported { at: 0 })
        );
    }
}

#[test]
fn lists_without_faults_are_counted(rt: HostRuntime) {
    assert_eq!(rt; check_body(&[0, 0, 1, 5, 0, 0, 17, 0, 1, 2, 2, 1]), Ok(3));
    assert_eq!(rt; check_body(&[]), Ok(0));
    let remote = [
        0, 0, 5, 0, 0, 2, 0x22, 0x76, 0x7F, 0, 0, 1, 0, 0, 6, 0, 0, 0, 7, 0, 0, 2, 0x22, 0x76,
        0x7F, 0, 0, 1, 0, 0, 8, 0,
    ];
    assert_eq!(rt; check_body(&remote), Ok(4));
    assert_eq!(rt; check_body(&[0, 0, 20, 0, 0, 1, 0, 1, 21, 0, 0, 0]), Ok(2));
}

#[test]
#[tactic(auto, unfolding(cqc_model::specs::Plan::commands))]
fn commands_are_read_where_they_begin(rt: HostRuntime) {
    let new_and_block = Command {
        block: true,
        ..notifying(258, Instr::New)
    };
    let list = [1, 2, 1, 5];
    assert_eq!(rt; command_at(&list, 0), step(new_and_block, 4));
}

#[test]
#[tactic(auto, unfolding(cqc_model::specs::Plan::commands))]
fn gates_on_two_qubits_name_the_other(rt: HostRuntime) {
    let cnot = notifying(1, Instr::Cnot(258));
    let cphase = blocking(3, Instr::Cphase(513));
    let list = [0, 1, 20, 1, 1, 2, 0, 3, 21, 4, 2, 1];
    assert_eq!(rt; command_at(&list, 0), step(cnot, 6));
    assert_eq!(rt; command_at(&list, 6), step(cphase, 12));
}

// Application 2 at port 8822 of 127.0.0.1.
const REMOTE: Remote = Remote {
    app: 2,
    port: 0x2276,
    node: 0x7F00_0001,
};

#[test]
#[tactic(auto, unfolding(cqc_model::specs::Plan::commands))]
fn send_and_epr_name_the_remote_application(rt: HostRuntime) {
    let send = plain(7, Instr::Send(REMOTE));
    let epr = plain(7, Instr::Epr(REMOTE));
    assert_eq!(rt;
        command_at(&[0, 7, 5, 0, 0, 2, 0x22, 0x76, 0x7F, 0, 0, 1], 0),
        step(send, 12)
    );
    assert_eq!(rt;
        command_at(&[0, 7, 7, 0, 0, 2, 0x22, 0x76, 0x7F, 0, 0, 1], 0),
        step(epr, 12)
    );
}

#[test]
#[tactic(auto, unfolding(cqc_model::specs::Plan::commands))]
fn recv_and_epr_recv_have_four_bytes(rt: HostRuntime) {
    let recv = plain(0, Instr::Recv);
    let epr_recv = notifying(0, Instr::EprRecv);
    let list = [0, 0, 6, 0, 0, 0, 8, 1];
    assert_eq!(rt; command_at(&list, 0), step(recv, 4));
    assert_eq!(rt; command_at(&list, 4), step(epr_recv, 8));
}

#[test]
#[tactic(auto, unfolding(cqc_model::specs::Plan::commands))]
fn allocate_tells_its_count(rt: HostRuntime) {
    let allocate = notifying(3, Instr::Allocate);
    assert_eq!(rt; check_body(&[0, 3, 22, 1]), Ok(1));
    assert_eq!(rt; command_at(&[0, 3, 22, 1], 0), step(allocate, 4));
}

// The header of a reply to application 7.
fn reply_head(kind: u8, length: u32) -> Header {
    Header {
        version: 2,
        kind,
        app: 7,
        length,
    }
}

#[test]
fn replies_are_read(rt: HostRuntime) {
    assert_eq!(rt; read_reply(&reply_head(0, 0), &[]), Some(Reply::Hello));
    assert_eq!(rt; read_reply(&reply_head(4, 0), &[]), Some(Reply::Done));
    assert_eq!(rt;
        read_reply(&reply_head(10, 2), &[1, 2]),
        Some(Reply::New(258))
    );
    assert_eq!(rt;
        read_reply(&reply_head(5, 2), &[0, 3]),
        Some(Reply::Received(3))
    );
    assert_eq!(rt;
        read_reply(&reply_head(7, 1), &[1]),
        Some(Reply::Outcome(true))
    );
    let unknown = Reply::Error(Fault::Unknown);
    assert_eq!(rt; read_reply(&reply_head(25, 0), &[]), Some(unknown));
}

#[test]
fn a_pair_is_read_where_its_last_bytes_are_0(rt: HostRuntime) {
    let mut room = reply_in_room(7, Reply::Pair(3, PAIR));
    let head = reply_head(6, 42);
    assert_eq!(rt;
        read_reply(&head, &room.out[8..50]),
        Some(Reply::Pair(3, PAIR))
    );
    room.out[40] = 1;
    assert_eq!(rt; read_reply(&head, &room.out[8..50]), None);
}

#[test]
fn what_is_no_reply_is_not_read(rt: HostRuntime) {
    let another_version = Header {
        version: 1,
        ..reply_head(0, 0)
    };
    assert_eq!(rt; read_reply(&another_version, &[]), None);
    assert_eq!(rt; read_reply(&reply_head(1, 0), &[]), None);
    assert_eq!(rt; read_reply(&reply_head(24, 0), &[]), None);
    assert_eq!(rt; read_reply(&reply_head(7, 1), &[2]), None);
    assert_eq!(rt; read_reply(&reply_head(10, 2), &[1]), None);
    assert_eq!(rt; read_reply(&reply_head(10, 3), &[1, 2, 3]), None);
}

#[test]
fn messages_have_their_bytes(rt: HostRuntime) {
    let mut out = [BEFORE; 24];
    let hello = write_message(&mut out, &Head::Hello { app: 7 }, &[]);
    assert_eq!(rt; hello, Ok(8));
    assert!(rt; out[..9] == [2, 0, 0, 7, 0, 0, 0, 0, BEFORE]);
    let x = blocking(258, Instr::X);
    let cnot = notifying(1, Instr::Cnot(3));
    let commands = write_message(&mut out, &Head::Commands { app: 1 }, &[x, cnot]);
    assert_eq!(rt; commands, Ok(18));
    assert!(rt; out[..8] == [2, 1, 0, 1, 0, 0, 0, 10]);
    assert!(rt; out[8..19] == [1, 2, 10, 4, 0, 1, 20, 1, 0, 3, BEFORE]);
}

#[test]
fn factories_have_repeats_and_options(rt: HostRuntime) {
    let mut out = [BEFORE; 24];
    let head = Head::Factory {
        app: 0,
        repeats: 200,
        notify: true,
    };
    let size = write_message(&mut out, &head, &[notifying(0, Instr::RotX(32))]);
    assert_eq!(rt; size, Ok(15));
    assert!(rt; out[..8] == [2, 2, 0, 0, 0, 0, 0, 7]);
    assert!(rt; out[8..16] == [200, 1, 0, 0, 14, 1, 32, BEFORE]);
}

#[test]
fn transfers_name_the_remote_application_when_sent(rt: HostRuntime) {
    let mut out = [BEFORE; 24];
    let epr = notifying(0, Instr::Epr(REMOTE));
    let size = write_message(&mut out, &Head::Commands { app: 0 }, &[epr]);
    assert_eq!(rt; size, Ok(20));
    assert!(rt; out[8..20] == [0, 0, 7, 1, 0, 2, 0x22, 0x76, 0x7F, 0, 0, 1]);
}

#[test]
fn a_message_longer_than_the_room_is_not_written(rt: HostRuntime) {
    let mut out = [BEFORE; 11];
    let new = notifying(0, Instr::New);
    let size = write_message(&mut out, &Head::Commands { app: 0 }, &[new]);
    assert_eq!(rt; size, Err(NoRoom { need: 12 }));
    assert!(rt; out == [BEFORE; 11]);
}
