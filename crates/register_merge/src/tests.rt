//! Worked products.
ghost use Rattle.std.specs.Prelude.{◌≡◌, ◌∷◌, []};
ghost use Rattle.gate_kernels.specs.Gates.{HasEighths};
ghost use Rattle.register_merge.specs.Merging.{AreApart};

use crate::{Merge, prepare_merge, verdict};
use amplitude_register::Register;
use gate_kernels::{Gate, prepare_one};
use omega_ring::{Omega, coefficient};

const ZERO: Omega = coefficient!(0, 0, 0, 0);

const ONE: Omega = coefficient!(1, 0, 0, 0);

/// Applies a gate to the first qubit.
fn apply(reg: &mut Register, gate: Gate)
    requires { HasEighths gate }
    ensures qubits { reg.new.value.qubits ≡ reg.old.value.qubits }
    ensures limit { reg.new.limit ≡ reg.old.limit }
{
    if reg.qubits().len() == 0 {
        return;
    }
    if prepare_one(reg, 0, gate).is_ok() {
        reg.flip();
    }
}

/// A qubit in the first basis state, then H and so many times T and H.
fn turn(reg: &mut Register, q: u8, rounds: u32)
    ensures qubits { reg.new.value.qubits ≡ q ∷ [] }
    ensures limit { reg.new.limit ≡ reg.old.limit }
{
    reg.set_basis(q, false);
    apply(reg, Gate::H);
    for _ in 0..rounds {
        apply(reg, Gate::T);
        apply(reg, Gate::H);
    }
}

/// The size of the product where it fits, and the size that is too large, negated; 0 where there are too many qubits.
fn merged_size(one: &mut Register, two: &Register) -> i128
    requires apart { AreApart one.old.value two.now.value }
    requires limits { one.old.limit ≡ two.now.limit }
{
    match verdict(one, two) {
        Merge::Fits => {
            prepare_merge(one, two);
            one.flip();
            one.size()
        }
        Merge::TooMany { .. } => 0,
        Merge::TooLarge { size } => -size,
    }
}

/// The size of the product of two qubits after so many rounds.
fn turned_size(one: &mut Register, two: &mut Register, first: u32, second: u32) -> i128
    requires { one.old.limit ≡ two.old.limit }
{
    turn(one, 3, first);
    turn(two, 5, second);
    merged_size(one, two)
}

/// The four coefficients of a register of two qubits.
fn rows(reg: &Register) -> [Omega; 4] {
    reg.facts();
    if reg.qubits().len() != 2 {
        return [ZERO; 4];
    }
    [
        reg.coefficient(0),
        reg.coefficient(1),
        reg.coefficient(2),
        reg.coefficient(3),
    ]
}

#[test]
fn two_even_qubits_have_four_even_rows(rt: HostRuntime) {
    let mut one = Register::new(rt.alloc(), 2).expect(&rt, "memory");
    let mut two = Register::new(rt.alloc(), 2).expect(&rt, "memory");
    assert_eq!(rt; turned_size(&mut one, &mut two, 0, 0), 4);
    assert!(rt; rows(&one) == [ONE, ONE, ONE, ONE]);
    assert_eq!(rt; one.place_of(3), Some(0));
    assert_eq!(rt; one.place_of(5), Some(1));
}

#[test]
fn bits_of_the_first_are_the_low_ones(rt: HostRuntime) {
    let mut one = Register::new(rt.alloc(), 2).expect(&rt, "memory");
    let mut two = Register::new(rt.alloc(), 2).expect(&rt, "memory");
    one.set_basis(3, false);
    two.set_basis(5, true);
    assert_eq!(rt; merged_size(&mut one, &two), 1);
    assert!(rt; rows(&one) == [ZERO, ZERO, ONE, ZERO]);
}

#[test]
fn three_qubits_are_too_many_for_two(rt: HostRuntime) {
    let mut one = Register::new(rt.alloc(), 2).expect(&rt, "memory");
    let mut two = Register::new(rt.alloc(), 2).expect(&rt, "memory");
    one.set_pair(3, 4);
    two.set_basis(5, true);
    assert_eq!(rt; verdict(&one, &two), Merge::TooMany { qubits: 3 });
}

#[test]
fn two_to_the_sixtieth_is_too_large(rt: HostRuntime) {
    let mut one = Register::new(rt.alloc(), 2).expect(&rt, "memory");
    let mut two = Register::new(rt.alloc(), 2).expect(&rt, "memory");
    assert_eq!(rt;
        turned_size(&mut one, &mut two, 58, 57),
        -1_152_921_504_606_846_976
    );
}

#[test]
fn half_of_two_to_the_sixtieth_fits(rt: HostRuntime) {
    let mut one = Register::new(rt.alloc(), 2).expect(&rt, "memory");
    let mut two = Register::new(rt.alloc(), 2).expect(&rt, "memory");
    assert_eq!(rt;
        turned_size(&mut one, &mut two, 58, 56),
        576_460_752_303_423_488
    );
}

#[test]
fn size_of_a_product_is_balanced(rt: HostRuntime) {
    let mut one = Register::new(rt.alloc(), 2).expect(&rt, "memory");
    let mut two = Register::new(rt.alloc(), 2).expect(&rt, "memory");
    turn(&mut one, 3, 57);
    turn(&mut two, 5, 57);
    assert_eq!(rt; one.size(), 1_073_741_824);
    assert_eq!(rt; two.size(), 1_073_741_824);
    assert_eq!(rt; merged_size(&mut one, &two), 576_460_752_303_423_488);
}
