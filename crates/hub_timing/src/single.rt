//! The load of one thread over a core without locks.
ghost use Rattle.std.specs.Prelude.{◌≡◌, length};

use crate::load::{CAPACITY, LIMIT, Load, Node, ROOM, at, call};
use cqc_model::Instr;
use factored_core::Solo;
use network_model::CoreReply;
use qron_link::{Dice, ListDice};
use std::alloc::{AllocError, Global};
use virtual_node::Shape;

// A core of one node.
#[derive(Drop)]
struct Lone {
    solo: Solo,
    dice: ListDice,
    ghost one: { length solo.shape.places ≡ 1 },
}

impl Node<()> for Lone {
    fn ask(&mut self, _shared: &(), qubit: u16, instr: Instr) -> Option<CoreReply> {
        self.dice.begin(0, 0);
        self.solo
            .execute(&call(0, qubit, instr), &mut self.dice)
            .ok()
    }
}

/// How many turns were answered.
pub fn answered(alloc: Global, load: Load) -> Result<u32, AllocError> {
    let shape = Shape::new(&[at(1)], ROOM, LIMIT);
    let solo = Solo::open(alloc, shape, CAPACITY)?;
    let dice = ListDice::new(Vec::new(alloc));
    Ok(load.turn(&mut Lone { solo, dice }, &()))
}
