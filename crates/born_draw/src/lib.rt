//! The outcome of a measurement by a random word, compared exactly.
#![tactic(auto)]

ghost use Rattle.std.specs.Prelude.{◌≡◌, ◌<◌, ◌+◌, ◌^◌, ◌-ℤ◌, ◌*ℤ◌, pos, unsigned_abs};
ghost use Rattle.state_model.specs.Coefficient.{is_less, scaled};
ghost use Rattle.omega_ring.specs.Views.{weight_value};

use omega_ring::{Sign, Weight};

/// How many words there are.
const WORDS: i128 = 1 << 64;

/// Whether the word draws the outcome whose rows have the weight `one`, of rows that have the weight
/// `whole` together: where `word * whole` is less than `2^64 * one`. The outcome's probability is
/// `one / whole`; nothing is rounded.
pub fn outcome(word: u64, one: Weight, whole: Weight) -> bool
    requires one_x { unsigned_abs one.x < 2 ^ 61 }
    requires one_y { unsigned_abs one.y < 2 ^ 61 }
    requires whole_x { unsigned_abs whole.x < 2 ^ 61 }
    requires whole_y { unsigned_abs whole.y < 2 ^ 61 }
    ensures { result ≡ is_less (scaled word (weight_value whole)) (scaled (2 ^ 64) (weight_value one)) }
{
    let above = Weight {
        x: lead(word, one.x, whole.x),
        y: lead(word, one.y, whole.y),
    };
    matches!(above.sign(), Sign::Positive)
}

/// `2^64 * one - word * whole`.
fn lead(word: u64, one: i128, whole: i128) -> i128
    requires one { unsigned_abs one < 2 ^ 61 }
    requires whole { unsigned_abs whole < 2 ^ 61 }
    ensures value { result ≡ pos (2 ^ 64) *ℤ one -ℤ pos word *ℤ whole }
    ensures size { unsigned_abs result < 2 ^ 126 }
{
    WORDS * one - word as i128 * whole
}

#[cfg(test)]
mod tests;
