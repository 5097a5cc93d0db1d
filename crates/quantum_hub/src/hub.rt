// The hub: how it is opened and closed.
ghost use Rattle.std.specs.Prelude.{◌≡◌, ◌≤◌, ◌+◌, ◌*◌, ◌^◌, vec_len, ℕ, IfOk, Some, slice_get, length};
ghost use Rattle.network_model.specs.History.{IsLegal};
ghost use Rattle.commit_journal.specs.Views.{Worker, HaveMade};
ghost use Rattle.quantum_hub.specs.Opening.{AreFreshPasses};

use crate::hints::Hint;
use crate::opening::{opening_cells, opening_hints, opening_passes};
use commit_journal::{Framed, Journal, Pass, Stamped};
use history_front::{Blank, Named};
use hub_cells::Cell;
use network_model::Entry;
use register_locks::Locks;
use std::alloc::{AllocError, Global};
use std::sync::atomic::AtomicIn;
use std::sync::{Mutex, Wait};
use virtual_node::Shape;

/// All cells of a network behind locks of their own, and the journal behind its lock. N names the history.
#[derive(Drop)]
pub struct Hub<N: Named + Framed> {
    pub(crate) shape: Shape,
    pub(crate) locks: Locks<Stamped<Cell, N>>,
    pub(crate) journal: Mutex<Journal<N>>,
    pub(crate) hints: Vec<AtomicIn<Hint>>,
    ghost is_shape: { shape ≡ N.shape },
    ghost few: { N.cells ≤ 137 },
}

/// A hub without entries, and the passes of its seats.
#[derive(Drop)]
pub struct Opened<N: Named + Framed> {
    /// What all threads share.
    pub hub: Hub<N>,
    /// A pass for each seat, in order of seat, for the thread that sits there.
    pub passes: Vec<Pass<N>>,
}

/// What a hub leaves.
#[derive(Drop)]
pub struct Closed {
    /// The one history that all calls were entries of.
    pub entries: Vec<Entry>,
}

impl<N: Named + Framed> Hub<N> {
    /// A hub in which no qubit is live, with room for a number of entries, and up to 64 seats. All room
    /// is taken here. Each pass has its seat and has made and seen no entry.
    pub fn open(
        alloc: Global,
        blank: Blank<Entry>,
        shape: Shape,
        capacity: u32,
        seats: u16,
    ) -> Result<Opened<N>, AllocError>
        requires name { blank ≡ N.table }
        requires shape { shape ≡ N.shape }
        requires cells { N.cells ≡ length shape.places + 1 + length shape.places * shape.room }
        requires frame { (N.capacity ≡ capacity) × (N.seats ≡ seats) }
        requires few { seats ≤ 64 }
        ensures { IfOk result (λ opened. (vec_len opened.passes ≡ seats) × AreFreshPasses opened.passes.items) }
    {
        shape.facts();
        let nodes = shape.nodes();
        let count = u16::from(nodes) + 1 + u16::from(nodes * shape.room());
        let mut journal = Journal::new(alloc, blank, capacity, count, seats)?;
        let cells = opening_cells(alloc, &mut journal, &shape, count)?;
        let passes = opening_passes(alloc, &mut journal, seats)?;
        let hints = opening_hints(alloc)?;
        let locks = Locks::new(alloc, cells)?;
        let hub = Hub {
            shape,
            locks,
            journal: Mutex::new(journal),
            hints,
        };
        Ok(Opened { hub, passes })
    }

    /// The entries, once all calls have been made and all passes are back, in order of seat. They are legal, and no more
    /// than there was room for; what each pass has seen is a prefix of them, and they have just as many of its seat as it
    /// made. Where a pass's number isn't the journal's, which can't be shown never to be, it waits for ever.
    pub fn close(self, rt: &impl Wait, passes: Vec<Pass<N>>) -> Closed
        requires seats { vec_len passes ≡ N.seats }
        requires order { (k : ℕ) (pass : Worker) → slice_get passes.items k ≡ Some pass → pass.seat ≡ k }
        ensures legal { IsLegal N.shape result.entries.items }
        ensures made { HaveMade passes.items result.entries.items }
        ensures most { vec_len result.entries ≤ N.capacity }
    {
        let Hub {
            shape: _,
            locks: _,
            journal,
            hints: _,
        } = self;
        let Ok(entries) = journal.into_inner().close(passes) else {
            wait_for_ever(rt);
            unreachable!()
        };
        Closed { entries }
    }
}

// Waits, and never returns.
pub(crate) fn wait_for_ever(rt: &impl Wait)
    ensures { ⊥ }
{
    for _ in rt.forever() {}
    unreachable!()
}
