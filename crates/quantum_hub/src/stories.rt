// Tests: each opens a hub under a name of its own, and tells a story there.
ghost use Rattle.std.specs.Prelude.{◌≡◌, ◌≤◌, ◌+◌, ◌*◌, length};

use crate::hub::{Hub, Opened};
use crate::site::{Site, eight_nodes, two_nodes};
use crate::{cell_tests, thread_tests, wait_tests};
use commit_journal::Framed;
use history_front::{Blank, Named};
use network_model::Entry;
use std::alloc::Global;
use std::marker::Brand;
use std::process::Abort;
use std::sync::Wait;
use std::test::*;
use std::thread::Threads;
use virtual_node::Shape;

// Which story is told.
#[derive(Clone, Copy)]
enum Story {
    GivesUp,
    SentWhileWaiting,
    Forwarding,
    TurnedBefore,
    TurnedBehind,
    Pairs,
    WrongHints,
    EveryCell,
    NoRoom,
    HeldWord,
    FourThreads,
}

// Tells a story on two nodes with room 16 and limit 12, to two seats.
fn on_two_nodes<R: Threads + Wait + Abort + Sync>(
    rt: &R,
    alloc: Global,
    story: Story,
    entries: u32,
) -> Result<(), Fail> {
    let blank = Blank::new(alloc)?;
    open::<Brand, R>(rt, alloc, blank, two_nodes(16, 12), entries, 2, story)
}

// Tells a story on eight nodes with room 16 and limit 12.
fn on_eight_nodes<R: Threads + Wait + Abort + Sync>(
    rt: &R,
    alloc: Global,
    story: Story,
    entries: u32,
    seats: u16,
) -> Result<(), Fail>
    requires { seats ≤ 64 }
{
    let blank = Blank::new(alloc)?;
    open::<Brand, R>(rt, alloc, blank, eight_nodes(), entries, seats, story)
}

// Opens a hub, and tells a story there.
fn open<N: Named + Framed + Send + Sync, R: Threads + Wait + Abort + Sync>(
    rt: &R,
    alloc: Global,
    blank: Blank<Entry>,
    shape: Shape,
    capacity: u32,
    seats: u16,
    story: Story,
) -> Result<(), Fail>
    requires name { blank ≡ N.table }
    requires shape { shape ≡ N.shape }
    requires cells { N.cells ≡ length shape.places + 1 + length shape.places * shape.room }
    requires frame { (N.capacity ≡ capacity) × (N.seats ≡ seats) }
    requires few { seats ≤ 64 }
{
    let nodes = shape.nodes();
    let Opened { hub, passes } = Hub::<N>::open(alloc, blank, shape, capacity, seats)?;
    let site = Site {
        hub,
        alloc,
        passes,
        nodes,
        seats,
    };
    match story {
        Story::GivesUp => wait_tests::gives_up(rt, site),
        Story::SentWhileWaiting => wait_tests::sends_while_waiting(rt, site),
        Story::Forwarding => cell_tests::forwards(rt, site),
        Story::TurnedBefore => cell_tests::turns_a_half(rt, site, true),
        Story::TurnedBehind => cell_tests::turns_a_half(rt, site, false),
        Story::Pairs => cell_tests::makes_pairs(rt, site),
        Story::WrongHints => cell_tests::finds_all(rt, site),
        Story::EveryCell => cell_tests::locks_every_cell(rt, site),
        Story::NoRoom => cell_tests::finds_no_room(rt, site),
        Story::HeldWord => thread_tests::holds_a_word(rt, site),
        Story::FourThreads => thread_tests::works_in_four(rt, site),
    }
}

#[test]
fn on_two_nodes_each_story_is_true(rt: HostRuntime) -> Result<(), Fail> {
    let stories = [
        (Story::GivesUp, 64),
        (Story::SentWhileWaiting, 64),
        (Story::Forwarding, 64),
        (Story::TurnedBefore, 64),
        (Story::TurnedBehind, 64),
        (Story::Pairs, 64),
        (Story::WrongHints, 64),
        (Story::NoRoom, 2),
        (Story::HeldWord, 64),
    ];
    for (story, entries) in stories {
        on_two_nodes(&rt, rt.alloc(), story, entries)?;
    }
    Ok(())
}

#[test]
fn every_cell(rt: HostRuntime) -> Result<(), Fail> {
    on_eight_nodes(&rt, rt.alloc(), Story::EveryCell, 1024, 2)
}

#[test]
fn four_threads(rt: HostRuntime) -> Result<(), Fail> {
    on_eight_nodes(&rt, rt.alloc(), Story::FourThreads, 2048, 4)
}
