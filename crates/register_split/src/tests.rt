//! Worked measurements.
use crate::{prepare_take_out, weights};
use amplitude_register::{Reduce, Register};
use omega_ring::{Omega, Weight, coefficient};

const ZERO: Omega = coefficient!(0, 0, 0, 0);

const ONE: Omega = coefficient!(1, 0, 0, 0);

#[test]
fn half_of_a_pair_has_a_one(rt: HostRuntime) {
    let mut reg = Register::new(rt.alloc(), 2).expect(&rt, "memory");
    reg.set_pair(4, 9);
    let split = weights(&reg, 1);
    assert_eq!(rt; split.one, Weight { x: 1, y: 0 });
    assert_eq!(rt; split.whole, Weight { x: 2, y: 0 });
}

#[test]
fn a_pair_leaves_a_qubit_in_the_measured_state(rt: HostRuntime) {
    let mut reg = Register::new(rt.alloc(), 2).expect(&rt, "memory");
    reg.set_pair(4, 9);
    prepare_take_out(&mut reg, 0, true);
    reg.flip();
    assert_eq!(rt; reg.place_of(9), Some(0));
    assert_eq!(rt; reg.place_of(4), None);
    assert_eq!(rt; reg.size(), 1);
    assert_eq!(rt; reg.rows(), [ZERO, ONE].as_slice());
}

#[test]
fn weights_may_be_irrational_until_they_are_balanced(rt: HostRuntime) {
    let sum = coefficient!(0, 1, 1, 1);
    let zero = coefficient!(-2, 0, 1, 2);
    let one = coefficient!(-1, -1, 0, 1);
    // after H, T and H; and a quarter, whose draft weighs (12, 8) and its second row (3, 2)
    for (zero, one, whole) in [(sum, ONE, 2), (zero, one, 0)] {
        let mut reg = Register::new(rt.alloc(), 1).expect(&rt, "memory");
        reg.begin(&[3]);
        reg.put(0, zero);
        reg.put(1, one);
        let sealed = reg.seal(Reduce::Full);
        assert!(rt; sealed.is_ok());
        if sealed.is_ok() {
            reg.flip();
            if reg.qubits().len() == 1 {
                let split = weights(&reg, 0);
                assert_eq!(rt; split.one, Weight { x: 1, y: 0 });
                assert_eq!(rt; split.whole, Weight { x: 4, y: whole });
            }
        }
    }
}
