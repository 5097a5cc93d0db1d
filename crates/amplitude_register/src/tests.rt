//! Worked registers.
use crate::{Reduce, Register};
use omega_ring::{Omega, coefficient};

const ZERO: Omega = coefficient!(0, 0, 0, 0);

const ONE: Omega = coefficient!(1, 0, 0, 0);

const MINUS_ONE: Omega = coefficient!(-1, 0, 0, 0);

/// The size of four rows that were fully reduced.
macro_rules! reduced_size {
    ($rt:expr, $first:expr, $second:expr, $third:expr, $fourth:expr) => {{
        let mut reg = Register::new($rt.alloc(), 2).expect(&$rt, "memory");
        reg.begin(&[7, 3]);
        reg.put(0, $first);
        reg.put(1, $second);
        reg.put(2, $third);
        reg.put(3, $fourth);
        match reg.seal(Reduce::Full) {
            Ok(()) => reg.flip(),
            Err(e) => panic!($rt; "refused: {}", e.size),
        }
        reg.size()
    }};
}

#[test]
fn a_pair_has_two_equal_rows(rt: HostRuntime) {
    let mut reg = Register::new(rt.alloc(), 2).expect(&rt, "memory");
    assert_eq!(rt; reg.size(), 1);
    reg.set_pair(4, 9);
    assert_eq!(rt; reg.size(), 2);
    assert_eq!(rt; reg.place_of(9), Some(1));
    assert_eq!(rt; reg.place_of(5), None);
    assert_eq!(rt; reg.rows(), [ONE, ZERO, ZERO, ONE].as_slice());
    reg.prepare_same();
    assert_eq!(rt; reg.prepared(), Some(2));
    reg.swap_rows(0, 1);
    reg.negate_row(1);
    reg.flip();
    assert_eq!(rt; reg.rows(), [ZERO, MINUS_ONE, ZERO, ONE].as_slice());
    reg.prepare_same();
    reg.forget();
    assert_eq!(rt; reg.prepared(), None);
    reg.clear();
    assert_eq!(rt; reg.qubits().len(), 0);
}

#[test]
fn common_divisors_are_divided_out(rt: HostRuntime) {
    let three = coefficient!(3, 0, 0, 0);
    // 3 times a unit, and a number of which 3 is the product with its conjugate
    for (other, size) in [(coefficient!(0, 3, 0, 0), 2), (coefficient!(1, 1, 0, 1), 4)] {
        let mut reg = Register::new(rt.alloc(), 1).expect(&rt, "memory");
        reg.begin(&[7]);
        reg.put(0, three);
        reg.put(1, other);
        match reg.seal(Reduce::Full) {
            Ok(()) => reg.flip(),
            Err(e) => panic!(rt; "refused: {}", e.size),
        }
        assert_eq!(rt; reg.size(), size);
    }
}

#[test]
fn a_factor_of_all_rows_but_the_last_stays(rt: HostRuntime) {
    let three = coefficient!(3, 0, 0, 0);
    let size = reduced_size!(rt, three, coefficient!(0, 6, 0, 0), three, ONE);
    assert_eq!(rt; size, 55);
}

#[test]
fn three_times_rows_without_a_factor_leaves_them(rt: HostRuntime) {
    let three = coefficient!(3, 0, 0, 0);
    let size = reduced_size!(
        rt,
        three,
        coefficient!(0, 6, 0, 0),
        coefficient!(3, 3, 0, 3),
        three
    );
    assert_eq!(rt; size, 9);
}

#[test]
fn powers_of_delta_go_with_other_factors(rt: HostRuntime) {
    // 3 times 1 - w, and 3 times w - w^2
    let delta = coefficient!(3, -3, 0, 0);
    let size = reduced_size!(rt, delta, coefficient!(0, 3, -3, 0), delta, ZERO);
    assert_eq!(rt; size, 3);
}

#[test]
fn rows_of_zero_may_come_first(rt: HostRuntime) {
    let six = coefficient!(0, 6, 0, 0);
    let size = reduced_size!(rt, ZERO, ZERO, six, six);
    assert_eq!(rt; size, 2);
}
