//! A board with some cells.
use crate::HeldBoard;
use cell_box::CellBox;
use core_cells::{Ending, NodePair, SlotCell};
use qubit_handles::Handle;
use std::alloc::{AllocError, Global};
use virtual_node::NodeCell;

// What a node is that holds one qubit.
fn holding() -> NodeCell {
    let mut node = NodeCell::new();
    node.add_handle(Handle {
        app: 7,
        id: 0,
        number: 1,
    });
    node
}

// A slot whose register has one qubit.
fn slot_with(alloc: Global, number: u8) -> Result<CellBox<SlotCell>, AllocError> {
    let mut slot = SlotCell::new(alloc, 2)?;
    slot.register.set_basis(number, false);
    CellBox::new(alloc, slot)
}

#[test]
fn nodes_are_found_by_their_numbers(rt: HostRuntime) {
    let mut board = HeldBoard::new();
    board.put_node(
        4,
        CellBox::new(rt.alloc(), NodePair::new()).expect(&rt, "memory"),
    );
    let mut pair = NodePair::new();
    pair.prepare(&holding());
    pair.end(Ending::Settle);
    board.put_node(2, CellBox::new(rt.alloc(), pair).expect(&rt, "memory"));
    assert!(rt; board.has_node(4) && board.has_node(2) && !board.has_node(0));
    assert_eq!(rt; board.node_value(2).map(|node| node.held()), Some(1));
    assert!(rt; board.node_value(0).is_none());
    assert!(rt; board.take_node(4).is_some());
    assert!(rt; !board.has_node(4) && board.has_node(2));
    assert!(rt; board.take_node(4).is_none());
}

#[test]
fn a_qubit_is_at_home_in_the_slot_that_lists_it(rt: HostRuntime) {
    let mut board = HeldBoard::new();
    board.put_slot(5, slot_with(rt.alloc(), 1).expect(&rt, "memory"));
    board.put_slot(3, slot_with(rt.alloc(), 0).expect(&rt, "memory"));
    assert!(rt; board.has_home(0) && board.has_home(1) && !board.has_home(2));
    assert!(rt; board.take_slot(3).is_some());
    assert!(rt; !board.has_home(0) && board.has_slot(5));
}

#[test]
fn a_board_has_room_for_three_of_a_kind(rt: HostRuntime) {
    let mut board = HeldBoard::new();
    assert!(rt; board.is_empty());
    board.put_slot(0, slot_with(rt.alloc(), 0).expect(&rt, "memory"));
    board.put_slot(1, slot_with(rt.alloc(), 1).expect(&rt, "memory"));
    assert!(rt; board.has_slot_room());
    board.put_slot(2, slot_with(rt.alloc(), 2).expect(&rt, "memory"));
    assert!(rt; !board.has_slot_room() && board.has_node_room());
    assert!(rt; !board.is_empty());
}
