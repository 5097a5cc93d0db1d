//! Times calls over a hub, each thread at a node of its own. The arguments are what is turned, `dense` for a register of
//! 12 qubits or `single` for one of one qubit, the number of threads from 1 to 8, or 0 for a core on one thread without
//! locks, and the number of rounds of each thread. It prints how many calls were answered in these rounds.
#![tactic(auto)]

mod load;
mod shared;
mod single;

use load::Load;
use std::{env, io};

fn main(rt: HostRuntime) -> io::Result<()> {
    let mut words = env::args(&rt)?.skip(1);
    let load = Load::of(words.next(), words.next(), words.next());
    let answered = if load.threads == 0 {
        single::answered(rt.alloc(), load)?
    } else {
        shared::answered(&rt, rt.alloc(), load)?
    };
    println!(rt; "{answered} calls")?;
    Ok(())
}
