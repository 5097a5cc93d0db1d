//! Times entangled pairs over two nodes. Each round makes one and measures both halves. The one argument is the number
//! of rounds; there are 100 where no number is given. It prints how many pairs were measured, and in how many the two
//! outcomes agree.
#![tactic(auto)]

mod two_nodes;

use std::{env, io};
use two_nodes::TwoNodes;

/// How many rounds there are where no number is given.
const FEW: u32 = 100;

/// How many pairs were measured, and in how many the two outcomes agree.
struct Tally {
    pairs: u32,
    agree: u32,
}

/// Measures a pair each round, and ends early where a round can't.
fn measured(network: &mut TwoNodes, rounds: u32) -> Tally {
    let mut tally = Tally { pairs: 0, agree: 0 };
    for _ in 0..rounds {
        let Some(same) = network.round() else {
            break;
        };
        tally.pairs = tally.pairs.wrapping_add(1);
        tally.agree = tally.agree.wrapping_add(same as u32);
    }
    tally
}

fn main(rt: HostRuntime) -> io::Result<()> {
    let word = env::args(&rt)?.nth(1);
    let rounds = word
        .and_then(|word| word.parse::<u32>().ok())
        .unwrap_or(FEW);
    let mut network = TwoNodes::open(rt.alloc())?;
    let Tally { pairs, agree } = measured(&mut network, rounds);
    println!(rt; "{pairs} pairs, {agree} agree")?;
    Ok(())
}
