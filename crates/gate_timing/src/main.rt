//! Times what is done to dense registers. Each argument is a number of qubits (12 at first), each of which then is
//! the sum of its basis states with one turned, or it names a batch of 1,000: pairs of a Hadamard and a turn, gates
//! CNOT, draws, removals after draws, or merges with a register of 6 other qubits. It prints how many were done, and
//! the size at the end.
#![tactic(auto)]

mod work;

use amplitude_register::Register;
use std::{env, io};
use work::{dense, dense_six, draws, merges, nots, pairs, removals};

/// How many are in a batch.
const BATCH: u32 = 1_000;

/// Does what an argument names, and says how many were done.
fn batch(reg: &mut Register, other: &Register, word: &str) -> u32 {
    match word {
        "pairs" => pairs(reg, BATCH / 2),
        "nots" => nots(reg, BATCH),
        "draws" => draws(reg, BATCH),
        "removals" => removals(reg, BATCH),
        "merges" => merges(reg, other, BATCH),
        _ => 0,
    }
}

fn main(rt: HostRuntime) -> io::Result<()> {
    let mut reg = dense(rt.alloc(), 12)?;
    let other = dense_six(rt.alloc())?;
    let mut done: u32 = 0;
    for word in env::args(&rt)?.skip(1) {
        match word.parse::<u8>() {
            Ok(count) => reg = dense(rt.alloc(), count)?,
            Err(_) => done = done.wrapping_add(batch(&mut reg, &other, &word)),
        }
    }
    let size = reg.size();
    println!(rt; "{done} {size}")?;
    Ok(())
}
