//! Worked values.
ghost use Rattle.std.specs.Prelude.{◌≡◌, ◌<◌, ◌≤◌, length, unsigned_abs};
ghost use Rattle.omega_ring.specs.Lanes.{AreBelow};

use crate::{Balanced, Sign, Weight, Wide, add_lanes, any_odd, coefficient, gcd_of, weigh_lanes};

macro_rules! wide {
    ($a:expr, $b:expr, $c:expr, $d:expr) => {
        Wide { a: $a, b: $b, c: $c, d: $d }
    };
}

#[test]
fn weights_are_squared_absolute_values(rt: HostRuntime) {
    let z = wide!(1, 1, 0, 0);
    assert_eq!(rt; z.weight(), Weight { x: 2, y: 1 });
    let z = wide!(1, -1, 0, 0);
    assert_eq!(rt; z.weight(), Weight { x: 2, y: -1 });
    let z = wide!(0, 1, 0, -1);
    assert_eq!(rt; z.weight(), Weight { x: 2, y: 0 });
    let z = wide!(1, 1, 0, 1);
    assert_eq!(rt; z.weight(), Weight { x: 3, y: 0 });
    let z = wide!(-2, 0, 1, 2);
    assert_eq!(rt; z.weight(), Weight { x: 9, y: 6 });
    assert_eq!(rt; coefficient!(-2, 0, 1, 2).weight(), Weight { x: 9, y: 6 });
}

#[test]
fn odd_sums_are_no_multiples_of_delta(rt: HostRuntime) {
    let z = wide!(-1, -1, 0, 1);
    assert!(rt; !z.delta_divides());
}

#[test]
fn even_sums_are_divided_by_delta(rt: HostRuntime) {
    let z = wide!(1, 1, 0, 0);
    assert!(rt; z.delta_divides());
    if z.delta_divides() {
        assert_eq!(rt; z.div_delta(), wide!(0, 1, 1, 1));
    }
    let z = wide!(2, 0, 0, 0);
    assert!(rt; z.delta_divides());
    if z.delta_divides() {
        assert_eq!(rt; z.div_delta(), wide!(1, 1, 1, 1));
    }
}

#[test]
fn coefficients_of_weight_three_multiply_to_three(rt: HostRuntime) {
    let z = wide!(1, 1, 0, 1);
    let u = wide!(1, -1, 0, -1);
    assert_eq!(rt; z.mul(u), wide!(3, 0, 0, 0));
    assert_eq!(rt; z.add(u), wide!(2, 0, 0, 0));
    assert_eq!(rt; z.sub(u), wide!(0, 2, 0, 2));
}

#[test]
fn conjugates_turn_the_last_three_coordinates(rt: HostRuntime) {
    let z = wide!(1, 2, 3, 4);
    assert_eq!(rt; z.conj(), wide!(1, -4, -3, -2));
}

#[test]
fn units_undo_each_other(rt: HostRuntime) {
    let z = wide!(1, 0, 0, 0);
    let up = z.times_unit(true);
    assert_eq!(rt; up, wide!(1, 1, 0, -1));
    assert_eq!(rt; z.times_unit(false), wide!(-1, 1, 0, -1));
}

#[test]
fn signs_compare_squares(rt: HostRuntime) {
    assert_eq!(rt; Weight { x: 3, y: -2 }.sign(), Sign::Positive);
    assert_eq!(rt; Weight { x: 7, y: -5 }.sign(), Sign::Negative);
    assert_eq!(rt; Weight { x: 99, y: -70 }.sign(), Sign::Positive);
    assert_eq!(rt; Weight { x: 0, y: 0 }.sign(), Sign::Zero);
    assert_eq!(rt; Weight { x: -7, y: 5 }.sign(), Sign::Positive);
    assert_eq!(rt; Weight { x: 0, y: -1 }.sign(), Sign::Negative);
}

#[test]
fn weights_are_balanced_by_the_first_power(rt: HostRuntime) {
    let two = Weight { x: 2, y: 0 };
    assert_eq!(rt;
        Weight { x: 6, y: -4 }.balance(),
        Balanced {
            weight: two,
            power: 1
        }
    );
    assert_eq!(rt;
        Weight { x: 6, y: 4 }.balance(),
        Balanced {
            weight: two,
            power: -1
        }
    );
    let four = Weight { x: 4, y: 2 };
    assert_eq!(rt;
        four.balance(),
        Balanced {
            weight: four,
            power: 0
        }
    );
}

#[test]
fn each_root_turns_the_coordinates(rt: HostRuntime) {
    let z = coefficient!(1, 2, 3, 4);
    assert_eq!(rt; z.times_root(0), z);
    assert_eq!(rt; z.times_root(1), coefficient!(-4, 1, 2, 3));
    assert_eq!(rt; z.times_root(2), coefficient!(-3, -4, 1, 2));
    assert_eq!(rt; z.times_root(3), coefficient!(-2, -3, -4, 1));
    assert_eq!(rt; z.times_root(4), coefficient!(-1, -2, -3, -4));
    assert_eq!(rt; z.times_root(5), coefficient!(4, -1, -2, -3));
    assert_eq!(rt; z.times_root(6), coefficient!(3, 4, -1, -2));
    assert_eq!(rt; z.times_root(7), coefficient!(2, 3, 4, -1));
}

#[test]
fn narrow_takes_what_fits_64_bits(rt: HostRuntime) {
    let ends = coefficient!(i64::MIN, i64::MAX, 0, -1);
    assert_eq!(rt; ends.wide().narrow(), Some(ends));
    let above = wide!(0, 9_223_372_036_854_775_808, 0, 0);
    assert_eq!(rt; above.narrow(), None);
    let below = wide!(0, 0, 0, -9_223_372_036_854_775_809);
    assert_eq!(rt; below.narrow(), None);
}

#[test]
fn a_divisor_of_weight_three_is_found(rt: HostRuntime) {
    // 3 and a factor of it that is no power of 1 - w
    let list = [coefficient!(3, 0, 0, 0), coefficient!(1, 1, 0, 1)];
    let found = gcd_of(&list);
    assert_eq!(rt; found.wide().weight(), Weight { x: 3, y: 0 });
}

#[test]
fn entries_without_a_common_divisor_leave_a_unit(rt: HostRuntime) {
    let list = [coefficient!(-2, 0, 1, 2), coefficient!(-1, -1, 0, 1)];
    let found = gcd_of(&list);
    assert_eq!(rt; found.wide().weight(), Weight { x: 1, y: 0 });
}

#[test]
fn a_common_divisor_goes_on_with_the_next_entry(rt: HostRuntime) {
    let none = coefficient!(0, 0, 0, 0);
    let six = none.gcd(coefficient!(6, 0, 0, 0));
    assert_eq!(rt; six.wide().weight(), Weight { x: 36, y: 0 });
    let six = six.gcd(none);
    assert_eq!(rt; six.wide().weight(), Weight { x: 36, y: 0 });
    // 1 - w to the fourth power is 2 times a unit
    let two = six.gcd(coefficient!(0, 4, 0, 0));
    assert_eq!(rt; two.wide().weight(), Weight { x: 4, y: 0 });
    let odd = two.gcd(coefficient!(1, 1, 0, 1));
    assert_eq!(rt; odd.wide().weight(), Weight { x: 1, y: 0 });
}

#[test]
fn powers_of_delta_have_no_other_divisors(rt: HostRuntime) {
    let one = coefficient!(1, 0, 0, 0);
    assert!(rt; one.is_delta_power());
    assert!(rt; coefficient!(1, -1, 0, 0).is_delta_power());
    assert!(rt; coefficient!(2, 0, 0, 0).is_delta_power());
    // sqrt(2) + 1 and sqrt(2) - 1 are units
    assert!(rt; coefficient!(1, 1, 0, -1).is_delta_power());
    assert!(rt; coefficient!(-1, 1, 0, -1).is_delta_power());
    assert!(rt; !coefficient!(0, 0, 0, 0).is_delta_power());
    assert!(rt; !coefficient!(3, 0, 0, 0).is_delta_power());
    assert!(rt; !coefficient!(1, 1, 0, 1).is_delta_power());
    assert!(rt; coefficient!(0, 0, 0, 0).is_zero());
    assert!(rt; !one.is_zero());
}

/// A number of either sign.
fn number(i: usize, seed: usize) -> i64
    ensures { unsigned_abs result < 1000 }
{
    ((i % 2000 * 7 + seed % 2000 * 13) % 1999) as i64 - 999
}

/// Numbers of both signs.
fn numbers(seed: usize) -> [i64; 4096]
    ensures small { AreBelow 1000 result }
    ensures long { length result ≡ 4096 }
{
    let mut list = [0; 4096];
    for i in 0..4096 {
        list[i] = number(i, seed);
    }
    list
}

/// The sum of the weights, place by place.
fn plain_weight(a: &[i64], b: &[i64], c: &[i64], d: &[i64]) -> Weight {
    let mut sum = Weight { x: 0, y: 0 };
    for (((a, b), c), d) in a.iter().zip(b).zip(c).zip(d) {
        let (p, q, r, s) = (*a as i128, *b as i128, *c as i128, *d as i128);
        let ends = p.wrapping_mul(p).wrapping_add(s.wrapping_mul(s));
        let middle = q.wrapping_mul(q).wrapping_add(r.wrapping_mul(r));
        sum.x = sum.x.wrapping_add(ends).wrapping_add(middle);
        let forth = p.wrapping_mul(q).wrapping_add(q.wrapping_mul(r));
        let back = r.wrapping_mul(s).wrapping_sub(s.wrapping_mul(p));
        sum.y = sum.y.wrapping_add(forth).wrapping_add(back);
    }
    sum
}

/// Whether the weight of the first n places is the plain one.
fn weighs_alike(n: usize) -> bool
    requires { n ≤ 4096 }
{
    let a = numbers(1);
    let b = numbers(2);
    let c = numbers(3);
    let d = numbers(4);
    let found = weigh_lanes(&a[..n], &b[..n], &c[..n], &d[..n]);
    found == plain_weight(&a[..n], &b[..n], &c[..n], &d[..n])
}

#[test]
fn vectors_weigh_as_single_places_do(rt: HostRuntime) {
    assert!(rt; weighs_alike(0));
    assert!(rt; weighs_alike(1));
    assert!(rt; weighs_alike(7));
    assert!(rt; weighs_alike(8));
    assert!(rt; weighs_alike(9));
    assert!(rt; weighs_alike(4096));
    let one = weigh_lanes(&[-2], &[0], &[1], &[2]);
    assert_eq!(rt; one, Weight { x: 9, y: 6 });
}

/// Whether each sum, or difference, is the plain one.
fn are_sums(out: &[i64], old: &[i64], from: &[i64], minus: bool) -> bool {
    out.iter().zip(old).zip(from).all(|((z, x), y)| {
        let plain = if minus {
            x.wrapping_sub(*y)
        } else {
            x.wrapping_add(*y)
        };
        *z == plain
    })
}

/// Whether the sums of the first n places are the plain ones, and the others stay.
fn adds_alike(n: usize, minus: bool) -> bool
    requires { n ≤ 4096 }
{
    let old = numbers(5);
    let from = numbers(6);
    let mut out = numbers(5);
    add_lanes(&mut out[..n], &from[..n], minus);
    are_sums(&out[..n], &old[..n], &from[..n], minus) && out[n..] == old[n..]
}

#[test]
fn vectors_add_as_single_places_do(rt: HostRuntime) {
    assert!(rt; adds_alike(0, false));
    assert!(rt; adds_alike(1, false));
    assert!(rt; adds_alike(7, false));
    assert!(rt; adds_alike(8, false));
    assert!(rt; adds_alike(9, false));
    assert!(rt; adds_alike(4096, false));
}

#[test]
fn vectors_subtract_as_single_places_do(rt: HostRuntime) {
    assert!(rt; adds_alike(0, true));
    assert!(rt; adds_alike(1, true));
    assert!(rt; adds_alike(7, true));
    assert!(rt; adds_alike(8, true));
    assert!(rt; adds_alike(9, true));
    assert!(rt; adds_alike(4096, true));
}

/// Whether the first n places have an odd sum, where each list stands there twice.
fn finds_odd(n: usize) -> bool
    requires { n ≤ 4096 }
{
    let a = numbers(7);
    let c = numbers(8);
    any_odd(&a[..n], &c[..n], &a[..n], &c[..n])
}

/// The same where one number of place k is changed by 1.
fn finds_odd_at(n: usize, k: usize) -> bool
    requires { n ≤ 4096 }
{
    let a = numbers(7);
    let c = numbers(8);
    let mut d = numbers(8);
    if k < 4096 {
        d[k] ^= 1;
    }
    any_odd(&a[..n], &c[..n], &a[..n], &d[..n])
}

#[test]
fn even_sums_are_not_odd_at_any_length(rt: HostRuntime) {
    assert!(rt; !finds_odd(0));
    assert!(rt; !finds_odd(1));
    assert!(rt; !finds_odd(7));
    assert!(rt; !finds_odd(8));
    assert!(rt; !finds_odd(9));
    assert!(rt; !finds_odd(4096));
}

#[test]
fn one_odd_sum_is_found_wherever_it_is(rt: HostRuntime) {
    assert!(rt; finds_odd_at(1, 0));
    assert!(rt; finds_odd_at(7, 6));
    assert!(rt; finds_odd_at(8, 3));
    assert!(rt; finds_odd_at(9, 3));
    assert!(rt; finds_odd_at(9, 8));
    assert!(rt; finds_odd_at(4096, 3));
    assert!(rt; finds_odd_at(4096, 4095));
    assert!(rt; !finds_odd_at(8, 8));
    assert!(rt; any_odd(&[i64::MIN], &[i64::MAX], &[-1], &[-1]));
}
