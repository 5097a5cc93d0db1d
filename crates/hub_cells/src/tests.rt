//! Cells of each kind.
use crate::Cell;
use cell_box::CellBox;
use core_cells::{NodePair, SlotCell};
use virtual_node::NodeCell;

#[test]
fn a_prepared_node_is_ready_until_it_is_settled(rt: HostRuntime) {
    let mut pair = NodePair::new();
    pair.prepare(&NodeCell::new());
    let mut cell = Cell::Node(CellBox::new(rt.alloc(), pair).expect(&rt, "memory"));
    assert!(rt; cell.ready());
    cell.settle();
    assert!(rt; !cell.ready());
}

#[test]
fn a_prepared_slot_is_ready_until_it_is_forgotten(rt: HostRuntime) {
    let mut slot = SlotCell::new(rt.alloc(), 2).expect(&rt, "memory");
    slot.register.prepare_same();
    let mut cell = Cell::Slot(CellBox::new(rt.alloc(), slot).expect(&rt, "memory"));
    assert!(rt; cell.ready());
    cell.forget();
    assert!(rt; !cell.ready());
}
