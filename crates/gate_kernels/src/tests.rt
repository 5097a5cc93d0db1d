//! Worked gates.
ghost use Rattle.gate_kernels.specs.Gates.{HasEighths};

use crate::{Gate, Two, prepare_one, prepare_two};
use amplitude_register::Register;
use omega_ring::{Omega, Weight, coefficient};

const ZERO: Omega = coefficient!(0, 0, 0, 0);

const ONE: Omega = coefficient!(1, 0, 0, 0);

const IMAGINARY: Omega = coefficient!(0, 0, 1, 0);

const MINUS_ONE: Omega = coefficient!(-1, 0, 0, 0);

const MINUS_IMAGINARY: Omega = coefficient!(0, 0, -1, 0);

/// Applies a gate to the first qubit; the size of what came, or the size that is too large, negated.
fn apply(reg: &mut Register, gate: Gate) -> i128
    requires { HasEighths gate }
{
    if reg.qubits().len() == 0 {
        return 0;
    }
    match prepare_one(reg, 0, gate) {
        Ok(()) => {
            reg.flip();
            reg.size()
        }
        Err(e) => -e.size,
    }
}

/// A qubit in a basis state, then a gate.
fn after(reg: &mut Register, bit: bool, gate: Gate) -> i128
    requires { HasEighths gate }
{
    reg.set_basis(3, bit);
    apply(reg, gate)
}

#[test]
fn sizes_end_at_two_to_the_sixtieth(rt: HostRuntime) {
    let mut reg = Register::new(rt.alloc(), 1).expect(&rt, "memory");
    reg.set_basis(0, false);
    apply(&mut reg, Gate::H);
    let mut size: i128 = 0;
    for _ in 0..116u32 {
        apply(&mut reg, Gate::T);
        size = apply(&mut reg, Gate::H);
    }
    assert_eq!(rt; size, 576_460_752_303_423_488);
    assert_eq!(rt; apply(&mut reg, Gate::T), 576_460_752_303_423_488);
    let before = (reg.rows().first().copied(), reg.rows().last().copied());
    assert_eq!(rt; apply(&mut reg, Gate::H), -1_152_921_504_606_846_976);
    assert_eq!(rt;
        (reg.rows().first().copied(), reg.rows().last().copied()),
        before
    );
    assert!(rt; reg.prepared().is_none());
}

#[test]
fn gates_take_the_basis_to_their_columns(rt: HostRuntime) {
    let mut reg = Register::new(rt.alloc(), 1).expect(&rt, "memory");
    let eighth = coefficient!(0, 1, 0, 0);
    for (bit, gate, zero, one) in [
        (false, Gate::I, ONE, ZERO),
        (false, Gate::X, ZERO, ONE),
        (true, Gate::Y, ONE, ZERO),
        (true, Gate::Z, ZERO, MINUS_ONE),
        (false, Gate::Z, ONE, ZERO),
        (true, Gate::T, ZERO, eighth),
        (false, Gate::T, ONE, ZERO),
        // K takes the basis to that of Y
        (false, Gate::K, ONE, IMAGINARY),
        (true, Gate::K, MINUS_IMAGINARY, MINUS_ONE),
        // the columns (1, -i) and (1, 1), and (-1, 1), each times the imaginary unit
        (false, Gate::RotX(2), IMAGINARY, ONE),
        (false, Gate::RotY(2), IMAGINARY, IMAGINARY),
        (true, Gate::RotY(2), MINUS_IMAGINARY, IMAGINARY),
    ] {
        after(&mut reg, bit, gate);
        assert_eq!(rt; reg.rows(), [zero, one].as_slice());
    }
}

#[test]
fn half_turns_exchange_the_basis(rt: HostRuntime) {
    let mut reg = Register::new(rt.alloc(), 1).expect(&rt, "memory");
    for (bit, gate, empty) in [(false, Gate::RotX(4), 0), (true, Gate::RotY(4), 1)] {
        assert_eq!(rt; after(&mut reg, bit, gate), 1);
        assert_eq!(rt; reg.rows().get(empty), Some(&ZERO));
    }
}

#[test]
fn two_turns_by_an_eighth_are_a_quarter(rt: HostRuntime) {
    let mut reg = Register::new(rt.alloc(), 1).expect(&rt, "memory");
    after(&mut reg, false, Gate::H);
    apply(&mut reg, Gate::T);
    apply(&mut reg, Gate::T);
    assert_eq!(rt; reg.rows(), [ONE, IMAGINARY].as_slice());
    after(&mut reg, false, Gate::H);
    apply(&mut reg, Gate::RotZ(2));
    assert_eq!(rt; reg.rows(), [ONE, IMAGINARY].as_slice());
}

#[test]
fn a_turn_between_hadamards_weighs_four_and_two(rt: HostRuntime) {
    let mut reg = Register::new(rt.alloc(), 1).expect(&rt, "memory");
    after(&mut reg, false, Gate::H);
    apply(&mut reg, Gate::T);
    assert_eq!(rt; apply(&mut reg, Gate::H), 4);
    let sum = coefficient!(0, 1, 1, 1);
    assert_eq!(rt; reg.rows(), [sum, ONE].as_slice());
    assert_eq!(rt; sum.wide().weight(), Weight { x: 3, y: 2 });
    apply(&mut reg, Gate::T);
    assert_eq!(rt; apply(&mut reg, Gate::H), 4);
    let three = coefficient!(1, 1, 0, 1);
    assert_eq!(rt; reg.rows(), [three, IMAGINARY].as_slice());
    assert_eq!(rt; three.wide().weight(), Weight { x: 3, y: 0 });
}

/// Applies a gate to two qubits of a register that has them.
fn apply_two(reg: &mut Register, p: u8, q: u8, gate: Two) {
    reg.forget();
    if p != q && reg.qubits().len() > p as usize && reg.qubits().len() > q as usize {
        prepare_two(reg, p, q, gate);
        reg.flip();
    }
}

#[test]
fn a_pair_is_a_hadamard_and_a_controlled_not(rt: HostRuntime) {
    let mut reg = Register::new(rt.alloc(), 2).expect(&rt, "memory");
    reg.set_pair(4, 9);
    apply_two(&mut reg, 0, 1, Two::Cnot);
    assert_eq!(rt; reg.rows(), [ONE, ONE, ZERO, ZERO].as_slice());
    assert_eq!(rt; apply(&mut reg, Gate::H), 1);
    // the one row that isn't zero, up to a phase
    let first = reg.rows().first().copied();
    assert!(rt; first != Some(ZERO));
    apply(&mut reg, Gate::H);
    apply_two(&mut reg, 0, 1, Two::Cnot);
    assert_eq!(rt; reg.size(), 2);
    assert_eq!(rt; reg.rows().first().copied(), first);
    assert_eq!(rt; reg.rows().last().copied(), first);
}

#[test]
fn gates_of_two_step_a_pair(rt: HostRuntime) {
    let mut reg = Register::new(rt.alloc(), 2).expect(&rt, "memory");
    reg.set_pair(4, 9);
    for (p, q, gate, rows) in [
        (1, 0, Two::Cnot, [ONE, ZERO, ONE, ZERO]),
        (1, 0, Two::Cnot, [ONE, ZERO, ZERO, ONE]),
        (0, 1, Two::Cphase, [ONE, ZERO, ZERO, MINUS_ONE]),
        (0, 1, Two::Cnot, [ONE, MINUS_ONE, ZERO, ZERO]),
        (1, 0, Two::Cphase, [ONE, MINUS_ONE, ZERO, ZERO]),
    ] {
        apply_two(&mut reg, p, q, gate);
        assert_eq!(rt; reg.rows(), rows.as_slice());
    }
}

#[test]
fn a_second_gate_goes_on_from_the_prepared_value(rt: HostRuntime) {
    let mut reg = Register::new(rt.alloc(), 2).expect(&rt, "memory");
    reg.set_pair(4, 9);
    prepare_two(&mut reg, 0, 1, Two::Cnot);
    prepare_two(&mut reg, 0, 1, Two::Cnot);
    reg.flip();
    assert_eq!(rt; reg.rows(), [ONE, ZERO, ZERO, ONE].as_slice());
    assert_eq!(rt; reg.size(), 2);
}
