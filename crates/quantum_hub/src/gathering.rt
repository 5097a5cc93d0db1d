// Locks, taken in rising order, and the cells that a call is tried with.
ghost use Rattle.std.specs.Prelude.{◌≡◌, []};
ghost use Rattle.quantum_hub.specs.Tries.{AreTaken, AreApart};

use crate::hints::{Hint, hinted};
use arrayvec::ArrayVec;
use commit_journal::{Framed, Stamped};
use factored_core::{Needs, call_needs};
use history_front::Named;
use hub_cells::Cell;
use network_model::Call;
use register_locks::Hold;
use std::sync::Wait;
use std::sync::atomic::AtomicIn;
use virtual_node::{NodeCell, Shape};

/// How many cells a call needs at most: two nodes, the pool and three slots.
pub(crate) const FEW: usize = 6;

// The least number whose lock may still be taken, and the numbers that the call is tried with.
#[derive(Drop)]
struct Taken {
    next: u16,
    picks: ArrayVec<u16, FEW>,
}

/// Takes the locks of the cells that a call may touch: its nodes, then the pool, then the slots of its qubits and the
/// least free one, each where it needs them. The slots are those that the hints name, or all slots are taken. The
/// answer is what the call is tried with; no claim rests on its being what the call needs.
pub(crate) fn gather<N: Named + Framed, const ROOM: usize>(
    rt: &impl Wait,
    hold: &mut Hold<'_, Stamped<Cell, N>, ROOM>,
    hints: &[AtomicIn<Hint>],
    shape: &Shape,
    call: &Call,
    all: bool,
) -> ArrayVec<u16, FEW>
    requires { hold.old.slots ≡ [] }
    ensures { AreApart hold.new.slots }
{
    let mut taken = Taken {
        next: 0,
        picks: ArrayVec::new(),
    };
    take_nodes(rt, hold, &mut taken, shape, call);
    if let Some(needs) = needs_of(hold, shape, call) {
        let pool = u16::from(shape.nodes());
        if needs.pool {
            take(rt, hold, &mut taken, pool);
            add(&mut taken, pool);
        }
        let free = if needs.slot {
            least_free(hold, pool)
        } else {
            None
        };
        if all {
            take_slots(rt, hold, &mut taken, pool + 1, &needs, free);
        } else {
            let first = hinted(hints, needs.first);
            let second = hinted(hints, needs.second);
            pick_slots(rt, hold, &mut taken, pool + 1, [first, second, free]);
        }
    }
    apart(hold, taken.next);
    taken.picks
}

// Takes the locks of a call's nodes.
fn take_nodes<N: Named + Framed, const ROOM: usize>(
    rt: &impl Wait,
    hold: &mut Hold<'_, Stamped<Cell, N>, ROOM>,
    taken: &mut Taken,
    shape: &Shape,
    call: &Call,
)
    requires { AreTaken hold.old.slots taken.old.next }
    ensures { AreTaken hold.new.slots taken.new.next }
{
    let own = u16::from(call.node);
    // the other node doesn't depend on what the own one holds
    let other = match call_needs(shape, call, &NodeCell::new()).other {
        Some(node) => u16::from(node),
        None => own,
    };
    take(rt, hold, taken, own.min(other));
    add(taken, own.min(other));
    take(rt, hold, taken, own.max(other));
    add(taken, own.max(other));
}

// Takes the locks of three slots at most, in order.
fn pick_slots<N: Named + Framed, const ROOM: usize>(
    rt: &impl Wait,
    hold: &mut Hold<'_, Stamped<Cell, N>, ROOM>,
    taken: &mut Taken,
    first: u16,
    mut slots: [Option<u16>; 3],
)
    requires { AreTaken hold.old.slots taken.old.next }
    ensures { AreTaken hold.new.slots taken.new.next }
{
    slots.sort_unstable();
    for slot in slots {
        if let Some(slot) = slot {
            take(rt, hold, taken, first.saturating_add(slot));
            add(taken, first.saturating_add(slot));
        }
    }
}

// Takes the locks of all slots, and picks those of the call's qubits and the free one.
fn take_slots<N: Named + Framed, const ROOM: usize>(
    rt: &impl Wait,
    hold: &mut Hold<'_, Stamped<Cell, N>, ROOM>,
    taken: &mut Taken,
    first: u16,
    needs: &Needs,
    free: Option<u16>,
)
    requires { AreTaken hold.old.slots taken.old.next }
    ensures { AreTaken hold.new.slots taken.new.next }
{
    for number in first..hold.count() {
        take(rt, hold, taken, number);
        let is_free = free == Some(number - first);
        if is_free || lists(hold, number, needs.first) || lists(hold, number, needs.second) {
            add(taken, number);
        }
    }
}

// Takes a lock, if there is one of this number, it comes behind all that are held, and one more can be held.
fn take<N: Named + Framed, const ROOM: usize>(
    rt: &impl Wait,
    hold: &mut Hold<'_, Stamped<Cell, N>, ROOM>,
    taken: &mut Taken,
    number: u16,
)
    requires { AreTaken hold.old.slots taken.old.next }
    ensures { AreTaken hold.new.slots taken.new.next }
{
    if number >= taken.next && number < hold.count() && hold.has_room() {
        hold.take(rt, number);
        taken.next = number + 1;
    }
}

// One pick more, where there is room.
fn add(taken: &mut Taken, number: u16)
    ensures { taken.new.next ≡ taken.old.next }
{
    let _full = taken.picks.try_push(number);
}

// Held cells of one number are one cell.
fn apart<N: Named + Framed, const ROOM: usize>(hold: &Hold<'_, Stamped<Cell, N>, ROOM>, next: u16)
    requires { AreTaken hold.now.slots next }
    ensures { AreApart hold.now.slots }
{
    hold.numbers_rise();
}

// What a call needs, by its own node's cell, which is held.
fn needs_of<N: Named + Framed, const ROOM: usize>(
    hold: &Hold<'_, Stamped<Cell, N>, ROOM>,
    shape: &Shape,
    call: &Call,
) -> Option<Needs> {
    match hold.peek(u16::from(call.node))?.cell()? {
        Cell::Node(pair) => Some(call_needs(shape, call, pair.value())),
        _ => None,
    }
}

// The least free slot, by the pool's cell, if that is held.
fn least_free<N: Named + Framed, const ROOM: usize>(
    hold: &Hold<'_, Stamped<Cell, N>, ROOM>,
    pool: u16,
) -> Option<u16> {
    match hold.peek(pool)?.cell()? {
        Cell::Pool(pair) => pair.now.least_free_slot().map(u16::from),
        _ => None,
    }
}

// Whether a held slot's register lists a qubit number.
fn lists<N: Named + Framed, const ROOM: usize>(
    hold: &Hold<'_, Stamped<Cell, N>, ROOM>,
    number: u16,
    qubit: Option<u8>,
) -> bool {
    match (hold.peek(number).and_then(|stamped| stamped.cell()), qubit) {
        (Some(Cell::Slot(slot)), Some(qubit)) => slot.has(qubit),
        _ => false,
    }
}
