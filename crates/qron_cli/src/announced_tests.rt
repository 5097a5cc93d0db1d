// What is said of connections, over links in memory.
use crate::announced::AnnouncedDoor;
use crate::voice::{Caller, Voice};
use qron_link::{Door, Knock, Link, MemDoor, MemLink, Sink, Source};
use std::alloc::Global;
use std::cell::RefCell;
use std::test::Fail;

// A voice whose lines are kept.
#[derive(Clone, Copy)]
struct Kept<'a> {
    lines: &'a RefCell<String>,
}

impl Voice for Kept<'_> {
    fn say(&self, line: &str) {
        if let Ok(mut lines) = self.lines.try_borrow_mut() {
            let _ = lines.push_str(line);
        }
    }
}

// A link with four bytes, whose reads and writes with these numbers fail.
fn link(alloc: Global, bad_reads: &[u32], bad_writes: &[u32]) -> Result<MemLink, Fail> {
    let bytes = vec![in alloc; 7; 4]?;
    Ok(MemLink::new(
        alloc,
        bytes,
        64,
        64,
        bad_reads.to_vec(alloc)?,
        bad_writes.to_vec(alloc)?,
    )?)
}

#[test]
fn each_connection_is_told_when_it_comes_and_when_it_ends(rt: HostRuntime) -> Result<(), Fail> {
    // the reads of each connection, the numbers of the reads and writes that fail, and what is said at its end
    let cases: [(usize, &[u32], &[u32], &str); 4] = [
        (2, &[], &[], "closed by its peer, 4 bytes read, 3 written"),
        (1, &[], &[], "closed by the node, 4 bytes read, 3 written"),
        (2, &[1], &[], "a read failed, 4 bytes read, 3 written"),
        (1, &[], &[0], "a write failed, 4 bytes read, 0 written"),
    ];
    let alloc = rt.alloc();
    let lines = RefCell::new(String::new(alloc));
    let caller = Caller {
        voice: Kept { lines: &lines },
        node: 1,
        seat: 2,
        serial: 0,
    };
    let mut links = Vec::new(alloc);
    for (_, bad_reads, bad_writes, _) in cases {
        links.push(link(alloc, bad_reads, bad_writes)?)?;
    }
    let mut door = AnnouncedDoor::new(MemDoor::new(links, Vec::new(alloc)), caller);
    let mut wanted = String::new(alloc);
    for (serial, (reads, _, _, end)) in cases.iter().enumerate() {
        let Knock::Link(mut link) = door.next() else {
            return Err("there is a link for each case".into());
        };
        write!(wanted, "node 1: connection {serial} of seat 2 came\n")?;
        assert_eq!(rt; said(alloc, &lines)?.as_str(), wanted.as_str());
        let mut room = [0; 8];
        for _ in 0..*reads {
            link.read(&mut room);
        }
        link.write(&[1, 2, 3]);
        assert_eq!(rt; said(alloc, &lines)?.as_str(), wanted.as_str());
        link.close();
        write!(
            wanted,
            "node 1: connection {serial} of seat 2 ended: {end}\n"
        )?;
        assert_eq!(rt; said(alloc, &lines)?.as_str(), wanted.as_str());
    }
    assert!(rt; matches!(door.next(), Knock::Closed));
    assert_eq!(rt; said(alloc, &lines)?.as_str(), wanted.as_str());
    Ok(())
}

// What was said so far.
fn said(alloc: Global, lines: &RefCell<String>) -> Result<String, Fail> {
    match lines.try_borrow() {
        Ok(lines) => Ok(String::from_str(alloc, lines.as_str())?),
        Err(_) => Err("nobody speaks".into()),
    }
}
