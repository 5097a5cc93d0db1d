//! Sums, products and quotients of numbers whose sizes are known.
ghost use Rattle.std.specs.Prelude.{◌≡◌, ◌<◌, ◌≤◌, ◌^◌, ◌+◌, ◌*◌, ◌+ℤ◌, ◌-ℤ◌, ◌*ℤ◌, ◌<ℤ◌, neg_ℤ, pos, unsigned_abs, IsTrue, IsSome, IfSome, FitsSigned, ◌↔◌};
ghost use Rattle.std.specs.Int.{w64};
ghost use Rattle.state_model.specs.Quotients.{IsEven, IsHalf};

/// The product of two numbers below 2^61.
pub(crate) fn times(m: i128, n: i128) -> i128
    requires left { unsigned_abs m < 2 ^ 61 }
    requires right { unsigned_abs n < 2 ^ 61 }
    ensures value { result ≡ m *ℤ n }
    ensures small { unsigned_abs result < 2 ^ 122 }
{
    m * n
}

/// The negated product of two numbers below 2^61.
pub(crate) fn minus(m: i128, n: i128) -> i128
    requires left { unsigned_abs m < 2 ^ 61 }
    requires right { unsigned_abs n < 2 ^ 61 }
    ensures value { result ≡ neg_ℤ (m *ℤ n) }
    ensures small { unsigned_abs result < 2 ^ 122 }
{
    negated(times(m, n))
}

/// The number with the other sign.
pub(crate) fn negated(m: i128) -> i128
    requires { unsigned_abs m < 2 ^ 125 }
    ensures value { result ≡ neg_ℤ m }
    ensures size { unsigned_abs result ≡ unsigned_abs m }
{
    -m
}

/// The sum of four numbers below 2^122.
pub(crate) fn total(p: i128, q: i128, r: i128, s: i128) -> i128
    requires first { unsigned_abs p < 2 ^ 122 }
    requires second { unsigned_abs q < 2 ^ 122 }
    requires third { unsigned_abs r < 2 ^ 122 }
    requires fourth { unsigned_abs s < 2 ^ 122 }
    ensures value { result ≡ p +ℤ q +ℤ r +ℤ s }
    ensures size { unsigned_abs result ≤ unsigned_abs p + unsigned_abs q + unsigned_abs r + unsigned_abs s }
{
    p + q + r + s
}

/// The sum of four numbers below 2^125.
pub(crate) fn total_far(p: i128, q: i128, r: i128, s: i128) -> i128
    requires first { unsigned_abs p < 2 ^ 125 }
    requires second { unsigned_abs q < 2 ^ 125 }
    requires third { unsigned_abs r < 2 ^ 125 }
    requires fourth { unsigned_abs s < 2 ^ 125 }
    ensures { result ≡ p +ℤ q +ℤ r +ℤ s }
{
    p + q + r + s
}

/// The product of two numbers below 2^30, in 64 bits.
pub(crate) fn short_times(m: i64, n: i64) -> i64
    requires left { unsigned_abs m < 2 ^ 30 }
    requires right { unsigned_abs n < 2 ^ 30 }
    ensures value { result ≡ m *ℤ n }
    ensures small { unsigned_abs result < 2 ^ 60 }
{
    m * n
}

/// The negated product of two numbers below 2^30, in 64 bits.
pub(crate) fn short_minus(m: i64, n: i64) -> i64
    requires left { unsigned_abs m < 2 ^ 30 }
    requires right { unsigned_abs n < 2 ^ 30 }
    ensures value { result ≡ neg_ℤ (m *ℤ n) }
    ensures small { unsigned_abs result < 2 ^ 60 }
{
    -short_times(m, n)
}

/// The sum of four numbers below 2^60, in 64 bits.
pub(crate) fn short_total(p: i64, q: i64, r: i64, s: i64) -> i64
    requires first { unsigned_abs p < 2 ^ 60 }
    requires second { unsigned_abs q < 2 ^ 60 }
    requires third { unsigned_abs r < 2 ^ 60 }
    requires fourth { unsigned_abs s < 2 ^ 60 }
    ensures { result ≡ p +ℤ q +ℤ r +ℤ s }
{
    p + q + r + s
}

/// The product, where it stays below 2^126.
pub(crate) fn exact(m: i128, n: i128) -> i128
    requires { unsigned_abs m * unsigned_abs n < 2 ^ 126 }
    ensures value { result ≡ m *ℤ n }
    ensures size { unsigned_abs result ≡ unsigned_abs m * unsigned_abs n }
{
    m * n
}

/// The sum of two numbers below 2^122.
pub(crate) fn plus(m: i128, n: i128) -> i128
    requires left { unsigned_abs m < 2 ^ 122 }
    requires right { unsigned_abs n < 2 ^ 122 }
    ensures { result ≡ m +ℤ n }
{
    m + n
}

/// The sum of a number and twice another, both below 2^122.
pub(crate) fn plus_twice(m: i128, n: i128) -> i128
    requires left { unsigned_abs m < 2 ^ 122 }
    requires right { unsigned_abs n < 2 ^ 122 }
    ensures { result ≡ m +ℤ pos 2 *ℤ n }
{
    m + 2 * n
}

/// The first number less twice the second.
pub(crate) fn less_twice(m: i128, n: i128) -> i128
    requires m { unsigned_abs m < 2 ^ 125 }
    requires n { unsigned_abs n < 2 ^ 125 }
    ensures { result ≡ m -ℤ pos 2 *ℤ n }
{
    m - 2 * n
}

/// The same number in 64 bits; None exactly where it doesn't fit.
pub(crate) fn narrowed(m: i128) -> Option<i64>
    ensures fits { IsSome result ↔ FitsSigned w64 m }
    ensures same { IfSome result (λ n. n ≡ m) }
{
    i64::try_from(m).ok()
}

/// Whether a number is even.
pub fn is_even(m: i64) -> bool
    ensures { IsTrue result ↔ IsEven m }
{
    m % 2 == 0
}

/// Half of an even number.
pub fn half_of(m: i64) -> i64
    requires { IsEven m }
    ensures { m ≡ result +ℤ result }
{
    m / 2
}

/// Half of an even number, in 128 bits.
pub(crate) fn half_of_wide(m: i128) -> i128
    requires { IsEven m }
    ensures { m ≡ result +ℤ result }
{
    m / 2
}

/// A quotient that is rounded toward zero, and what is left.
#[derive(Clone, Copy, Drop)]
struct Parts {
    quotient: i128,
    rest: i128,
}

/// The quotient that is rounded toward zero, and what is left.
fn divided(t: i128, n: i128) -> Parts
    requires positive { pos 0 <ℤ n }
    requires size { unsigned_abs t ≤ 2 ^ 35 * unsigned_abs n }
    ensures value { result.quotient *ℤ n +ℤ result.rest ≡ t }
    ensures rest { unsigned_abs result.rest < unsigned_abs n }
    ensures small { unsigned_abs result.quotient ≤ 2 ^ 35 }
{
    Parts {
        quotient: t / n,
        rest: t % n,
    }
}

/// The nearest whole number to t / n.
pub(crate) fn nearest(t: i128, n: i128) -> i128
    requires positive { pos 0 <ℤ n }
    requires small { n <ℤ pos (2 ^ 122) }
    requires size { unsigned_abs t ≤ 2 ^ 35 * unsigned_abs n }
    ensures half { IsHalf n (t -ℤ result *ℤ n) }
    ensures small { unsigned_abs result < 2 ^ 36 }
{
    let parts = divided(t, n);
    if n - parts.rest < parts.rest {
        parts.quotient + 1
    } else if parts.rest < -n - parts.rest {
        parts.quotient - 1
    } else {
        parts.quotient
    }
}
