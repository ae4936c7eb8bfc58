//! Values worked by hand.

use crate::calls::cube_named;
use crate::residues::{F97, F97g, F97x2};
use p3_field::{Field, PrimeCharacteristicRing, TwoAdicField};

/// 28 to the power 16 is -1.
#[test]
fn two_adic_generators(rt: HostRuntime) {
    assert_eq!(rt; F97::two_adic_generator(5), F97::new(28));
    assert_eq!(rt; F97::two_adic_generator(1), F97::new(96));
}

/// The inverse of X is `X / 5`, and 5 * 39 is 195, which is 1.
#[test]
fn inverse_by_the_binomial(rt: HostRuntime) {
    let x = F97x2::new([F97::new(0), F97::new(1)]);
    let inverse = F97x2::new([F97::new(0), F97::new(39)]);
    assert_eq!(rt; x.try_inverse(), Some(inverse));
}

/// The tenth power of X is `34 + 55 X`, two Fibonacci numbers; X is the inverse of `X - 1`.
#[test]
fn powers_by_the_golden_ratio(rt: HostRuntime) {
    let x = F97g::new([F97::new(0), F97::new(1)]);
    let tenth = F97g::new([F97::new(34), F97::new(55)]);
    let inverse = F97g::new([F97::new(96), F97::new(1)]);
    assert_eq!(rt; x.exp_u64(10), tenth);
    assert_eq!(rt; x.try_inverse(), Some(inverse));
}

/// `(1 + X)^3` is `(6 + 2 X)(1 + X)`, since `X^2` is 5.
#[test]
fn third_power_at_a_name(rt: HostRuntime) {
    let x = F97x2::new([F97::new(1), F97::new(1)]);
    assert_eq!(rt; cube_named(x), F97x2::new([F97::new(16), F97::new(8)]));
}
