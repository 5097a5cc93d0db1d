//! The coordinates of many coefficients, kept as four lists: sums, weights and parities by vectors
//! of eight.
ghost use Rattle.std.specs.Prelude.{◌≡◌, ◌<◌, ◌≤◌, ◌^◌, ◌+◌, ◌*◌, ◌-◌, ◌<ℤ◌, pos, unsigned_abs, IsTrue, ◌↔◌, length, take, drop};
ghost use Rattle.std.specs.Simd.Lanes.{chunk};
ghost use Rattle.state_model.specs.Coefficient.{weight};
ghost use Rattle.state_model.specs.CoefficientList.{at, total_weight};
ghost use Rattle.omega_ring.specs.Views.{weight_value};
ghost use Rattle.omega_ring.specs.Lanes.{AreLanes, AreBelow, AreAdded, HasOddSum, IsOddAt, added, lane_values};
ghost use Rattle.omega_ring.specs.LaneSteps.{AreAddedBetween, IsChunk, GrowBy, IsTotal, HasOddBetween};

use crate::coefficients::Omega;
use crate::weights::Weight;
use std::simd::prelude::*;

/// How many places a vector takes.
const WIDTH: usize = 8;

/// Adds the numbers of `from` to those of `out`, place by place, or takes them off where `minus`.
pub fn add_lanes(out: &mut [i64], from: &[i64], minus: bool)
    requires lengths { length from.now ≡ length out.old }
    requires old { AreBelow (2 ^ 61) out.old }
    requires more { AreBelow (2 ^ 61) from.now }
    ensures { AreAdded minus out.old from.now out.new }
{
    let count = out.len() / WIDTH;
    add_chunks(out, from, minus, count);
    add_rest(out, from, minus, WIDTH * count);
}

/// The sum of the weights of the coefficients that the four lists stand for.
pub fn weigh_lanes(a: &[i64], b: &[i64], c: &[i64], d: &[i64]) -> Weight
    requires lengths { AreLanes a.now b.now c.now d.now }
    requires small { (total_weight (lane_values a.now b.now c.now d.now)).x <ℤ pos (2 ^ 60) }
    ensures { weight_value result ≡ total_weight (lane_values a.now b.now c.now d.now) }
{
    let count = a.len() / WIDTH;
    weigh_chunks(a, b, c, d, count).plus(weigh_rest(a, b, c, d, WIDTH * count))
}

/// Whether the sum of the four coordinates is odd at some place.
pub fn any_odd(a: &[i64], b: &[i64], c: &[i64], d: &[i64]) -> bool
    requires { AreLanes a.now b.now c.now d.now }
    ensures { IsTrue result ↔ HasOddSum a.now b.now c.now d.now }
{
    let count = a.len() / WIDTH;
    any_odd_chunks(a, b, c, d, count) || any_odd_rest(a, b, c, d, WIDTH * count)
}

/// The eight numbers from place i on.
#[inline(always)]
fn load(list: &[i64], i: usize) -> i64x8
    requires { i + 8 ≤ length list.now }
    ensures { IsChunk i list.now result }
{
    // a proof knows the range only of numbers that are read one by one; no code is left of this
    for k in i..i + WIDTH {
        let _number = list[k];
    }
    i64x8::from_slice(&list[i..])
}

/// Adds at the first places, by vectors.
fn add_chunks(out: &mut [i64], from: &[i64], minus: bool, count: usize)
    requires room { 8 * count ≤ length out.old }
    requires lengths { length from.now ≡ length out.old }
    requires old { AreBelow (2 ^ 61) out.old }
    requires more { AreBelow (2 ^ 61) from.now }
    ensures { AreAddedBetween minus 0 (8 * count) out.old from.now out.new }
{
    for k in 0..count {
        add_chunk(out, from, minus, WIDTH * k);
    }
}

/// Adds at the eight places from i on.
#[inline(always)]
fn add_chunk(out: &mut [i64], from: &[i64], minus: bool, i: usize)
    requires room { i + 8 ≤ length out.old }
    requires lengths { length from.now ≡ length out.old }
    requires old { AreBelow (2 ^ 61) (drop i out.old) }
    requires more { AreBelow (2 ^ 61) from.now }
    ensures { AreAddedBetween minus i (i + 8) out.old from.now out.new }
{
    let x = i64x8::from_slice(&out[i..]);
    let y = i64x8::from_slice(&from[i..]);
    let sum = if minus { x - y } else { x + y };
    sum.copy_to_slice(&mut out[i..]);
}

/// Adds at the places from start on, one by one.
fn add_rest(out: &mut [i64], from: &[i64], minus: bool, start: usize)
    requires room { start ≤ length out.old }
    requires lengths { length from.now ≡ length out.old }
    requires old { AreBelow (2 ^ 61) (drop start out.old) }
    requires more { AreBelow (2 ^ 61) from.now }
    ensures { AreAddedBetween minus start (length out.old) out.old from.now out.new }
{
    for i in start..out.len() {
        add_place(out, from, minus, i);
    }
}

/// Adds at one place.
#[inline(always)]
fn add_place(out: &mut [i64], from: &[i64], minus: bool, i: usize)
    requires room { i < length out.old }
    requires lengths { length from.now ≡ length out.old }
    requires old { AreBelow (2 ^ 61) (drop i out.old) }
    requires more { AreBelow (2 ^ 61) from.now }
    ensures { AreAddedBetween minus i (i + 1) out.old from.now out.new }
{
    out[i] = plus_or_less(out[i], from[i], minus);
}

/// The sum of two numbers, or the first less the second where `minus`.
#[inline(always)]
fn plus_or_less(x: i64, y: i64, minus: bool) -> i64
    requires x { unsigned_abs x < 2 ^ 61 }
    requires y { unsigned_abs y < 2 ^ 61 }
    ensures { result ≡ added minus x y }
{
    if minus { x - y } else { x + y }
}

/// The sums of squares and of mixed products so far, up to multiples of 2^64; each is the sum of
/// the eight lanes.
#[derive(Drop)]
struct Sums {
    x: i64x8,
    y: i64x8,
}

impl Sums {
    /// The weight that the sums stand for, where it is small.
    fn total(self) -> Weight
        ensures { IsTotal self (weight_value result) }
    {
        Weight {
            x: self.x.reduce_sum() as i128,
            y: self.y.reduce_sum() as i128,
        }
    }
}

/// The sum of the weights of the first places, by vectors.
fn weigh_chunks(a: &[i64], b: &[i64], c: &[i64], d: &[i64], count: usize) -> Weight
    requires room { 8 * count ≤ length a.now }
    requires lengths { AreLanes a.now b.now c.now d.now }
    requires small { (total_weight (lane_values a.now b.now c.now d.now)).x <ℤ pos (2 ^ 60) }
    ensures { weight_value result ≡ total_weight (take (8 * count) (lane_values a.now b.now c.now d.now)) }
{
    let mut sums = Sums {
        x: i64x8::splat(0),
        y: i64x8::splat(0),
    };
    for k in 0..count {
        sums = weigh_chunk(sums, a, b, c, d, WIDTH * k);
    }
    sums.total()
}

/// The sums with the weights of the eight places from i on.
#[inline(always)]
fn weigh_chunk(sums: Sums, a: &[i64], b: &[i64], c: &[i64], d: &[i64], i: usize) -> Sums
    requires room { i + 8 ≤ length a.now }
    requires lengths { AreLanes a.now b.now c.now d.now }
    ensures { GrowBy (total_weight (chunk i 8 (lane_values a.now b.now c.now d.now))) sums result }
{
    let p = load(a, i);
    let q = load(b, i);
    let r = load(c, i);
    let s = load(d, i);
    Sums {
        x: sums.x + (p * p + q * q + r * r + s * s),
        y: sums.y + (p * q + q * r + r * s - s * p),
    }
}

/// The sum of the weights of the places from start on, one by one.
fn weigh_rest(a: &[i64], b: &[i64], c: &[i64], d: &[i64], start: usize) -> Weight
    requires room { start ≤ length a.now }
    requires lengths { AreLanes a.now b.now c.now d.now }
    requires small { (total_weight (lane_values a.now b.now c.now d.now)).x <ℤ pos (2 ^ 60) }
    ensures { weight_value result ≡ total_weight (drop start (lane_values a.now b.now c.now d.now)) }
{
    let mut sum = Weight { x: 0, y: 0 };
    for i in start..a.len() {
        sum = sum.plus(weigh_place(a, b, c, d, i));
    }
    sum
}

/// The weight of one place.
fn weigh_place(a: &[i64], b: &[i64], c: &[i64], d: &[i64], i: usize) -> Weight
    requires room { i < length a.now }
    requires lengths { AreLanes a.now b.now c.now d.now }
    requires small { (total_weight (lane_values a.now b.now c.now d.now)).x <ℤ pos (2 ^ 60) }
    ensures { weight_value result ≡ weight (at (lane_values a.now b.now c.now d.now) i) }
{
    let z = Omega {
        a: a[i],
        b: b[i],
        c: c[i],
        d: d[i],
    };
    z.wide().weight()
}

/// Whether a sum is odd at one of the first places, by vectors.
fn any_odd_chunks(a: &[i64], b: &[i64], c: &[i64], d: &[i64], count: usize) -> bool
    requires room { 8 * count ≤ length a.now }
    requires lengths { AreLanes a.now b.now c.now d.now }
    ensures { IsTrue result ↔ HasOddBetween 0 (8 * count) a.now b.now c.now d.now }
{
    for k in 0..count {
        if is_odd_chunk(a, b, c, d, WIDTH * k) {
            return true;
        }
    }
    false
}

/// Whether a sum is odd at one of the eight places from i on.
#[inline(always)]
fn is_odd_chunk(a: &[i64], b: &[i64], c: &[i64], d: &[i64], i: usize) -> bool
    requires room { i + 8 ≤ length a.now }
    requires lengths { AreLanes a.now b.now c.now d.now }
    ensures { IsTrue result ↔ HasOddBetween i (i + 8) a.now b.now c.now d.now }
{
    let p = load(a, i);
    let q = load(b, i);
    let r = load(c, i);
    let s = load(d, i);
    (p ^ q ^ r ^ s).reduce_or() & 1 != 0
}

/// Whether a sum is odd at a place from start on, one by one.
fn any_odd_rest(a: &[i64], b: &[i64], c: &[i64], d: &[i64], start: usize) -> bool
    requires room { start ≤ length a.now }
    requires lengths { AreLanes a.now b.now c.now d.now }
    ensures { IsTrue result ↔ HasOddBetween start (length a.now) a.now b.now c.now d.now }
{
    for i in start..a.len() {
        if is_odd_place(a, b, c, d, i) {
            return true;
        }
    }
    false
}

/// Whether the sum is odd at one place.
#[inline(always)]
fn is_odd_place(a: &[i64], b: &[i64], c: &[i64], d: &[i64], i: usize) -> bool
    requires room { i < length a.now }
    requires lengths { AreLanes a.now b.now c.now d.now }
    ensures { IsTrue result ↔ IsOddAt a.now b.now c.now d.now i }
{
    (a[i] ^ b[i] ^ c[i] ^ d[i]) & 1 != 0
}
