//! A value that is moved by its address.
use crate::CellBox;

#[test]
fn a_value_is_there_behind_a_move_as_it_was_left(rt: HostRuntime) {
    let mut cell = CellBox::new(rt.alloc(), 7u32).expect(&rt, "memory");
    *cell = 8;
    let moved = cell;
    assert_eq!(rt; *moved, 8);
}
