//! Worked draws.
use crate::outcome;
use omega_ring::Weight;

#[test]
fn thresholds_lie_between_two_words(rt: HostRuntime) {
    let half = Weight { x: 1, y: 0 };
    let two = Weight { x: 2, y: 0 };
    // after H, T and H: the threshold is 2^62 (2 - sqrt(2))
    let turned = Weight { x: 4, y: 2 };
    // a quarter, after H, T, H, T and H, before balancing
    let part = Weight { x: 3, y: 2 };
    let whole = Weight { x: 12, y: 8 };
    for (last, one, all) in [
        (9_223_372_036_854_775_807, half, two),
        (2_701_463_124_188_384_701, half, turned),
        (4_611_686_018_427_387_903, part, whole),
    ] {
        assert!(rt; outcome(last, one, all), "at {last}");
        assert!(rt; !outcome(last + 1, one, all), "after {last}");
    }
}

#[test]
fn no_word_draws_a_zero_probability(rt: HostRuntime) {
    let one = Weight { x: 0, y: 0 };
    let whole = Weight { x: 1, y: 0 };
    assert!(rt; !outcome(0, one, whole));
    assert!(rt; !outcome(u64::MAX, one, whole));
}

#[test]
fn each_word_draws_a_certain_outcome(rt: HostRuntime) {
    let one = Weight { x: 4, y: 2 };
    assert!(rt; outcome(0, one, one));
    assert!(rt; outcome(u64::MAX, one, one));
}
