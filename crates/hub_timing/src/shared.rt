//! The load of threads at nodes of their own over one hub.
ghost use Rattle.std.specs.Prelude.{◌≡◌, ◌<◌, ◌≤◌, ◌+◌, ◌*◌, ◌^◌, length, IfOk};

use crate::load::{CAPACITY, LIMIT, Load, Node, ROOM, at, call};
use cqc_model::Instr;
use history_front::{Blank, Named};
use network_model::{CoreReply, Entry};
use qron_link::{CountPatience, Dice, ListDice};
use quantum_hub::{Framed, Hub, Opened, Pass};
use std::alloc::{AllocError, Global};
use std::marker::Brand;
use std::sync::Wait;
use std::thread::{Threads, for_each_mut};
use virtual_node::Shape;

// What threads share.
#[derive(Drop)]
struct Shared<'a, N: Named + Framed, R> {
    rt: &'a R,
    hub: Hub<N>,
}

// A thread's seat at the node with the seat's number, and how many of its turns were answered.
#[derive(Drop)]
struct Worker<N: Named + Framed> {
    pass: Pass<N>,
    dice: ListDice,
    patience: CountPatience,
    answered: u32,
    ghost eight: { length N.shape.places ≡ 8 },
}

impl<'a, N: Named + Framed, R: Wait> Node<Shared<'a, N, R>> for Worker<N> {
    fn ask(&mut self, shared: &Shared<'a, N, R>, qubit: u16, instr: Instr) -> Option<CoreReply> {
        let seat = self.pass.seat();
        if seat >= 8 {
            return None;
        }
        let call = call(seat as u8, qubit, instr);
        self.dice.begin(seat, 0);
        shared
            .hub
            .execute(
                shared.rt,
                &mut self.pass,
                &call,
                &mut self.dice,
                &mut self.patience,
            )
            .ok()
    }
}

// Eight nodes.
fn shape() -> Shape
    ensures { length result.places ≡ 8 }
{
    let places = [at(1), at(2), at(3), at(4), at(5), at(6), at(7), at(8)];
    Shape::new(&places, ROOM, LIMIT)
}

// A worker for each pass.
fn workers<N: Named + Framed>(
    alloc: Global,
    passes: Vec<Pass<N>>,
) -> Result<Vec<Worker<N>>, AllocError>
    requires { length N.shape.places ≡ 8 }
{
    let mut workers = Vec::with_capacity(alloc, passes.len())?;
    for pass in passes {
        workers.push(Worker {
            pass,
            dice: ListDice::new(Vec::new(alloc)),
            patience: CountPatience::new(alloc, 0)?,
            answered: 0,
        })?;
    }
    Ok(workers)
}

// How many turns were answered on a hub of eight nodes.
fn turned<N: Named + Framed + Send + Sync, R: Threads + Wait + Sync>(
    rt: &R,
    alloc: Global,
    blank: Blank<Entry>,
    shape: Shape,
    load: Load,
) -> Result<u32, AllocError>
    requires name { blank ≡ N.table }
    requires shape { (shape ≡ N.shape) × (length shape.places ≡ 8) }
    requires cells { N.cells ≡ length shape.places + 1 + length shape.places * shape.room }
    requires frame { (N.capacity ≡ 1048576) × (N.seats ≡ load.threads) × (load.threads ≤ 8) }
{
    let Opened { hub, passes } = Hub::<N>::open(
        alloc,
        blank,
        shape,
        CAPACITY,
        u16::from(load.threads),
    )?;
    let mut workers = workers(alloc, passes)?;
    let shared = Shared { rt, hub };
    let threads = usize::from(load.threads).max(1);
    for_each_mut(
        rt,
        workers.as_mut_slice(),
        threads,
        &|_, worker| {
            worker.answered = load.turn(worker, &shared);
        },
    );
    Ok(
        workers
            .iter()
            .fold(0, |sum: u32, worker| sum.wrapping_add(worker.answered)),
    )
}

/// How many turns were answered.
pub fn answered<R: Threads + Wait + Sync>(
    rt: &R,
    alloc: Global,
    load: Load,
) -> Result<u32, AllocError>
    requires { load.threads ≤ 8 }
{
    let blank = Blank::new(alloc)?;
    turned::<Brand, R>(rt, alloc, blank, shape(), load)
}
