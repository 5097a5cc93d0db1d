// Talks over a link in memory.
ghost use Rattle.std.specs.Prelude.{◌<◌};

use crate::{ScriptRead, Talked, read_script, talk};
use qron_link::MemLink;
use std::alloc::Global;
use std::test::Fail;

// The script of most tests.
const SCRIPT: &str = "app 7\nnew\nx 0\nmeasure 0\ngo\n";

// What it sends.
const SENT: [u8; 20] = [2, 1, 0, 7, 0, 0, 0, 12, 0, 0, 1, 0, 0, 0, 10, 0, 0, 0, 2, 1];

// The replies NEW_OK 0, MEASOUT 1 and DONE of app 7.
const REPLIES: [u8; 27] = [
    2, 10, 0, 7, 0, 0, 0, 2, 0, 0, 2, 7, 0, 7, 0, 0, 0, 1, 1, 2, 4, 0, 7, 0, 0, 0, 0,
];

// A link with bytes to read, at most `piece` at a time, on which the reads and writes of these numbers fail.
fn link_of(
    alloc: Global,
    bytes: &[u8],
    piece: u32,
    bad_reads: &[u32],
    bad_writes: &[u32],
) -> Result<MemLink, Fail>
    requires { 0 < piece }
{
    let bytes = Vec::from_slice(alloc, bytes)?;
    let bad_reads = Vec::from_slice(alloc, bad_reads)?;
    let bad_writes = Vec::from_slice(alloc, bad_writes)?;
    Ok(MemLink::new(alloc, bytes, piece, 4096, bad_reads, bad_writes)?)
}

// How the talk over a script ends.
#[tactic(auto, using(script::proofs::Sendable::from_script))]
fn talked(
    alloc: Global,
    text: &str,
    link: &mut MemLink,
    out: &mut MemLink,
) -> Result<Talked, Fail> {
    if text.len() > 16_777_216 {
        return Err(Fail::from("too long"));
    }
    let ScriptRead::Read(script) = read_script(alloc, text.as_bytes()) else {
        return Err(Fail::from("no script"));
    };
    if script.len() > 2 {
        return Err(Fail::from("too many messages"));
    }
    Ok(talk(alloc, &script, link, out)?)
}

// A sink that takes all.
fn sink(alloc: Global) -> Result<MemLink, Fail> {
    link_of(alloc, &[], 1, &[], &[])
}

// A talk that ended: its answer, and both sides as it left them.
#[derive(Drop)]
struct Finished {
    answer: Talked,
    link: MemLink,
    out: MemLink,
}

// A talk over a link that has these replies, at most `piece` bytes at a time.
fn ended(alloc: Global, text: &str, replies: &[u8], piece: u32) -> Result<Finished, Fail>
    requires { 0 < piece }
{
    let mut link = link_of(alloc, replies, piece, &[], &[])?;
    let mut out = sink(alloc)?;
    let answer = talked(alloc, text, &mut link, &mut out)?;
    Ok(Finished { answer, link, out })
}

#[test]
fn replies_are_printed_up_to_done_or_the_end(rt: HostRuntime) -> Result<(), Fail> {
    let done = (Talked::Done { messages: 1 }, "new 0\nout 1\ndone\n");
    let cut = (Talked::Cut { message: 0 }, "new 0\n");
    for (have, piece, (answer, printed)) in [
        (27, 1, done),
        (27, 5, done),
        (27, 64, done),
        (10, 64, cut),
        (11, 64, cut),
        (18, 64, cut),
    ] {
        let talk = ended(rt.alloc(), SCRIPT, &REPLIES[..have], piece)?;
        assert_eq!(rt; talk.answer, answer);
        assert!(rt; talk.link.written() == SENT.as_slice());
        assert!(rt; talk.out.written() == printed.as_bytes());
    }
    Ok(())
}

#[test]
fn reply_of_another_app_is_strange_before_its_body(rt: HostRuntime) -> Result<(), Fail> {
    let talk = ended(rt.alloc(), SCRIPT, &[2, 10, 0, 6, 0, 0, 0, 2], 64)?;
    let strange = Talked::Strange {
        message: 0,
        kind: 10,
    };
    assert_eq!(rt; talk.answer, strange);
    assert!(rt; talk.out.written() == b"".as_slice());
    Ok(())
}

#[test]
fn outcome_of_two_is_strange(rt: HostRuntime) -> Result<(), Fail> {
    let talk = ended(rt.alloc(), SCRIPT, &[2, 7, 0, 7, 0, 0, 0, 1, 2], 64)?;
    let strange = Talked::Strange {
        message: 0,
        kind: 7,
    };
    assert_eq!(rt; talk.answer, strange);
    Ok(())
}

#[test]
fn each_side_may_fail(rt: HostRuntime) -> Result<(), Fail> {
    let alloc = rt.alloc();
    let mut link = link_of(alloc, &REPLIES, 10, &[1], &[])?;
    let mut out = sink(alloc)?;
    let unread = talked(alloc, SCRIPT, &mut link, &mut out)?;
    assert_eq!(rt; unread, Talked::LinkRead);
    let mut link = link_of(alloc, &REPLIES, 10, &[], &[0])?;
    let unsent = talked(alloc, SCRIPT, &mut link, &mut out)?;
    assert_eq!(rt; unsent, Talked::LinkWrite);
    let mut link = link_of(alloc, &REPLIES, 10, &[], &[])?;
    let mut out = link_of(alloc, &[], 1, &[], &[1])?;
    let unprinted = talked(alloc, SCRIPT, &mut link, &mut out)?;
    assert_eq!(rt; unprinted, Talked::OutWrite);
    assert!(rt; out.written() == b"new 0\n".as_slice());
    Ok(())
}

#[test]
fn next_message_is_sent_after_an_error(rt: HostRuntime) -> Result<(), Fail> {
    let replies = [2, 25, 0, 7, 0, 0, 0, 0, 2, 0, 0, 7, 0, 0, 0, 0];
    let talk = ended(rt.alloc(), "app 7\nmeasure 3\ngo\nhello\n", &replies, 64)?;
    assert_eq!(rt; talk.answer, Talked::Done { messages: 2 });
    let sent = [2, 1, 0, 7, 0, 0, 0, 4, 0, 3, 2, 1, 2, 0, 0, 7, 0, 0, 0, 0];
    assert!(rt; talk.link.written() == sent.as_slice());
    assert!(rt; talk.out.written() == b"error 25\nhello\n".as_slice());
    Ok(())
}

#[test]
fn pair_is_printed_with_its_number(rt: HostRuntime) -> Result<(), Fail> {
    let replies = [
        2, 6, 0, 0, 0, 0, 0, 42, 0, 3, 127, 0, 0, 1, 34, 117, 0, 0, 127, 0, 0, 1, 34, 118, 0, 0, 0,
        1, 0, 2, 0, 0, 0, 0, 0, 0, 0, 0, 0, 0, 0, 0, 0, 0, 0, 0, 0, 0, 0, 0, 2, 4, 0, 0, 0, 0, 0,
        0,
    ];
    let talk = ended(rt.alloc(), "epr 0 0 127.0.0.1 8822\ngo\n", &replies, 7)?;
    assert_eq!(rt; talk.answer, Talked::Done { messages: 1 });
    assert!(rt; talk.out.written() == b"epr 3 65538\ndone\n".as_slice());
    Ok(())
}
