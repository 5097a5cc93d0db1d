//! Dense registers, and what is timed on them.
ghost use Rattle.std.specs.Prelude.{◌≡◌, ◌<◌, ◌≤◌, length, IsTrue};
ghost use Rattle.state_model.specs.Amplitudes.{AreDistinct};
ghost use Rattle.gate_kernels.specs.Gates.{HasEighths};
ghost use Rattle.register_merge.specs.Merging.{AreApart};
ghost use Rattle.register_split.specs.Removal.{HasRowWith};

use amplitude_register::{Reduce, Register};
use born_draw::outcome;
use gate_kernels::{Gate, Two, prepare_one, prepare_two};
use omega_ring::{Omega, coefficient};
use register_merge::{Merge, prepare_merge, verdict};
use register_split::{prepare_take_out, weights};
use std::alloc::{AllocError, Global};

/// An eighth, and the seven eighths that undo it.
const EIGHTH: u8 = 1;

const UNDONE: u8 = 7;

/// The amplitude of each first row.
const ONE: Omega = coefficient!(1, 0, 0, 0);

/// A register of so many qubits from number 0 on, if at most 12, each the sum of its basis states, one turned by an
/// eighth.
pub fn dense(alloc: Global, count: u8) -> Result<Register, AllocError> {
    let mut reg = Register::new(alloc, 12)?;
    let numbers = [0, 1, 2, 3, 4, 5, 6, 7, 8, 9, 10, 11];
    if count <= 12 {
        open(&mut reg, &numbers[..count as usize]);
    }
    mix(&mut reg);
    Ok(reg)
}

/// As `dense`, a register of the six qubits from number 12 on.
pub fn dense_six(alloc: Global) -> Result<Register, AllocError> {
    let mut reg = Register::new(alloc, 12)?;
    let numbers = [12, 13, 14, 15, 16, 17];
    open(&mut reg, &numbers);
    mix(&mut reg);
    Ok(reg)
}

/// Makes a register of qubits that are all in basis state 0.
fn open(reg: &mut Register, numbers: &[u8])
    requires limit { 12 ≤ reg.old.limit }
    requires few { length numbers.now ≤ 12 }
    requires distinct { AreDistinct numbers.now }
{
    reg.begin(numbers);
    reg.put(0, ONE);
    if reg.seal(Reduce::Delta).is_ok() {
        reg.flip();
    }
}

/// Makes of each qubit the sum of its basis states, and turns one of them by an eighth.
fn mix(reg: &mut Register) {
    for place in 0..12 {
        apply(reg, place, Gate::H);
        apply(reg, place, Gate::RotZ(EIGHTH));
    }
}

/// Applies a gate, if the register has the place and the result is small enough.
fn apply(reg: &mut Register, place: u8, gate: Gate) -> u32
    requires { HasEighths gate }
{
    if place as usize >= reg.qubits().len() {
        return 0;
    }
    match prepare_one(reg, place, gate) {
        Ok(()) => {
            reg.flip();
            1
        }
        Err(_) => 0,
    }
}

/// A Hadamard and a turn, and then their inverses.
pub fn pairs(reg: &mut Register, count: u32) -> u32 {
    let mut done: u32 = 0;
    for k in 0..count {
        let place = (k % 12) as u8;
        done = done.wrapping_add(apply(reg, place, Gate::H));
        done = done.wrapping_add(apply(reg, place, Gate::RotZ(EIGHTH)));
        done = done.wrapping_add(apply(reg, place, Gate::RotZ(UNDONE)));
        done = done.wrapping_add(apply(reg, place, Gate::H));
    }
    done
}

/// Applies CNOT, if the register has the place and the next one.
fn apply_not(reg: &mut Register, place: u8) -> u32
    requires { place < 12 }
{
    reg.forget();
    if place as usize + 1 >= reg.qubits().len() {
        return 0;
    }
    prepare_two(reg, place, place + 1, Two::Cnot);
    reg.flip();
    1
}

/// Gates CNOT on neighbours.
pub fn nots(reg: &mut Register, count: u32) -> u32 {
    let mut done: u32 = 0;
    for k in 0..count {
        done = done.wrapping_add(apply_not(reg, (k % 11) as u8));
    }
    done
}

/// The outcome that a word draws at a place of the register.
fn drawn(reg: &Register, place: u8, word: u64) -> bool
    requires { place < length reg.now.value.qubits }
    ensures { HasRowWith place result reg.now.value }
{
    reg.facts();
    let split = weights(reg, place);
    outcome(word, split.one, split.whole)
}

/// A word for each number.
fn word_of(k: u32) -> u64 {
    (k as u64).wrapping_mul(0x9e37_79b9_7f4a_7c15)
}

/// Draws at the places in turn, and how many of them gave a 1.
pub fn draws(reg: &mut Register, count: u32) -> u32 {
    let mut ones: u32 = 0;
    for k in 0..count {
        let place = (k % 12) as u8;
        if (place as usize) < reg.qubits().len() {
            ones = ones.wrapping_add(drawn(reg, place, word_of(k)) as u32);
        }
    }
    ones
}

/// Draws at a place and prepares what stays without the qubit, if the register has the place.
fn remove(reg: &mut Register, place: u8, word: u64) -> u32 {
    if place as usize >= reg.qubits().len() {
        return 0;
    }
    let bit = drawn(reg, place, word);
    prepare_take_out(reg, place, bit);
    reg.forget();
    1
}

/// Draws and removals at the places in turn; the register keeps its value.
pub fn removals(reg: &mut Register, count: u32) -> u32 {
    let mut done: u32 = 0;
    for k in 0..count {
        done = done.wrapping_add(remove(reg, (k % 12) as u8, word_of(k)));
    }
    done
}

/// Whether no qubit of one register is one of the other's.
fn are_apart(one: &Register, two: &Register) -> bool
    ensures { IsTrue result → AreApart one.now.value two.now.value }
{
    let numbers = one.qubits();
    for k in 0..numbers.len() {
        if two.place_of(numbers[k]).is_some() {
            return false;
        }
    }
    true
}

/// Prepares the product of two registers, where there is room for it; the first keeps its value.
fn merge(one: &mut Register, two: &Register) -> u32 {
    if one.limit() != two.limit() || !are_apart(one, two) {
        return 0;
    }
    let Merge::Fits = verdict(one, two) else {
        return 0;
    };
    prepare_merge(one, two);
    one.forget();
    1
}

/// Merges of two registers.
pub fn merges(one: &mut Register, two: &Register, count: u32) -> u32 {
    let mut done: u32 = 0;
    for _ in 0..count {
        done = done.wrapping_add(merge(one, two));
    }
    done
}
