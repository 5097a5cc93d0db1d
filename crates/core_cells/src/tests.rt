//! Worked cells.
ghost use Rattle.std.specs.Prelude.{◌≡◌, length};

use crate::{
    Board, CellName, Ending, OwnedCells, PairStep, PoolCell, SlotCell, SlotStep, end_all,
    held_node, held_pool, on_slot, on_two, prepare_node,
};
use qubit_handles::Handle;
use std::mem;
use virtual_node::{NodeCell, Place, Shape};

// Two nodes with room for two qubits each, of which three may be entangled.
fn shape() -> Shape
    ensures { (length result.places ≡ 2) × (result.room ≡ 2) × (result.limit ≡ 3) }
{
    let one = Place {
        address: 0x7f00_0001,
        port: 8001,
    };
    let two = Place { port: 8002, ..one };
    Shape::new(&[one, two], 2, 3)
}

// A register becomes one qubit in the basis state 0, and answers how many it had.
#[derive(Drop)]
struct Begin {
    number: u8,
}

impl SlotStep for Begin {
    type Answer = usize;

    ghost use Rattle.std.specs.Prelude.{◌≡◌, ⊤, false, length};
    ghost use Rattle.amplitude_register.specs.States.{basis_state};

    ghost can_run = { λ step x. ⊤ };

    ghost has_run = { λ step x v answer. (v ≡ record x { value = basis_state step.number false }) × (answer ≡ length x.value.qubits) };

    fn run(self, slot: &mut SlotCell) -> usize {
        let before = slot.register.qubits().len();
        slot.register.set_basis(self.number, false);
        before
    }
}

// Two registers change places.
#[derive(Drop)]
struct Exchange;

impl PairStep for Exchange {
    type Answer = ();

    ghost use Rattle.std.specs.Prelude.{◌≡◌, ⊤};

    ghost can_run = { λ step x y. ⊤ };

    ghost has_run = { λ step x y v w answer. (v ≡ y) × (w ≡ x) };

    fn run(self, one: &mut SlotCell, two: &mut SlotCell) {
        mem::swap(&mut one.register, &mut two.register);
    }
}

#[test]
fn new_cells_are_empty(rt: HostRuntime) {
    let mut cells = OwnedCells::open(rt.alloc(), &shape()).expect(&rt, "memory");
    assert_eq!(rt; held_node(&mut cells, 1).held(), 0);
    assert_eq!(rt; held_pool(&mut cells).least_free_slot(), Some(0));
    assert_eq!(rt; on_slot(&mut cells, 3, Begin { number: 2 }), 0);
}

#[test]
fn a_qubit_is_at_home_where_its_register_is(rt: HostRuntime) {
    let mut cells = OwnedCells::open(rt.alloc(), &shape()).expect(&rt, "memory");
    on_slot(&mut cells, 2, Begin { number: 5 });
    assert_eq!(rt; cells.home(5), 2);
    on_two(&mut cells, 3, 2, Exchange);
    assert_eq!(rt; cells.home(5), 3);
}

#[test]
fn a_prepared_node_counts_once_it_is_settled(rt: HostRuntime) {
    let mut cells = OwnedCells::open(rt.alloc(), &shape()).expect(&rt, "memory");
    let mut node = NodeCell::new();
    node.add_handle(Handle {
        app: 7,
        id: 0,
        number: 1,
    });
    prepare_node(&mut cells, 1, &node);
    assert_eq!(rt; held_node(&mut cells, 1).held(), 0);
    end_all(&mut cells, &[Some(CellName::Node(1))], Ending::Settle);
    assert_eq!(rt; held_node(&mut cells, 1).held(), 1);
}

#[test]
fn lesser_numbers_are_taken_first(rt: HostRuntime) {
    let mut pool = PoolCell::new(&shape());
    assert_eq!(rt; pool.least_number(), Some(0));
    pool.take_number(0);
    pool.take_number(2);
    assert_eq!(rt; pool.least_number(), Some(1));
    assert_eq!(rt; pool.least_free_slot(), Some(0));
    let copied = pool.copy();
    pool.take_number(1);
    pool.take_number(3);
    assert_eq!(rt; pool.least_number(), None);
    pool.free_number(3);
    pool.free_number(2);
    assert_eq!(rt; pool.least_number(), Some(2));
    assert_eq!(rt; copied.least_number(), Some(1));
    pool.take_slot(0);
    assert_eq!(rt; pool.least_free_slot(), Some(1));
    pool.free_slot(0);
    assert_eq!(rt; pool.least_free_slot(), Some(0));
}

#[test]
fn pairs_are_counted_from_zero(rt: HostRuntime) {
    let mut pool = PoolCell::new(&shape());
    assert_eq!(rt; pool.next_pair(), 0);
    assert_eq!(rt; pool.next_pair(), 1);
    assert_eq!(rt; pool.copy().next_pair(), 2);
}
