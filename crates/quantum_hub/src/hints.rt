// Where qubits were last seen.
ghost use Rattle.std.specs.Prelude.{◌<◌};

use commit_journal::{Framed, Stamped};
use history_front::Named;
use hub_cells::Cell;
use register_locks::Hold;
use std::sync::atomic::Ordering::SeqCst;
use std::sync::atomic::{AtomicIn, Rule};

/// A word that names the slot where a qubit was last seen. No claim rests on its being right.
pub struct Hint;

impl Rule for Hint {
    ghost use Rattle.std.specs.Prelude.{◌<◌};

    ghost invariant = { λ n. n < 128 };
}

/// The slot that the hint of a qubit names.
pub(crate) fn hinted(hints: &[AtomicIn<Hint>], qubit: Option<u8>) -> Option<u16> {
    let word = hints.get(usize::from(qubit?))?;
    Some(word.load(SeqCst) as u16)
}

/// Writes down where the qubits of the held slots among these cells are.
pub(crate) fn note<N: Named + Framed, const ROOM: usize>(
    hold: &Hold<'_, Stamped<Cell, N>, ROOM>,
    numbers: &[u16],
    hints: &[AtomicIn<Hint>],
    nodes: u8,
) {
    for number in numbers {
        if let Some(stamped) = hold.peek(*number) {
            note_one(stamped, hints, nodes);
        }
    }
}

// Writes down where the qubits of a slot are.
fn note_one<N: Named + Framed>(stamped: &Stamped<Cell, N>, hints: &[AtomicIn<Hint>], nodes: u8) {
    let Some(Cell::Slot(slot)) = stamped.cell() else {
        return;
    };
    let Some(number) = stamped.cell_number().checked_sub(u16::from(nodes) + 1) else {
        return;
    };
    for qubit in slot.register.qubits() {
        write(hints, *qubit, number);
    }
}

// Writes a hint.
fn write(hints: &[AtomicIn<Hint>], qubit: u8, slot: u16) {
    if slot < 128 {
        if let Some(word) = hints.get(usize::from(qubit)) {
            word.store(u64::from(slot), SeqCst);
        }
    }
}
