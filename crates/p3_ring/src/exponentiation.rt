//! Powers by fixed chains of products, over every ring.

ghost use Rattle.std.specs.Prelude.{◌≡◌, ◌+◌, ◌*◌, ◌^◌, ℕ};
ghost use Rattle.p3_theory.specs.Rings.PowerChains.{IsPower};
ghost use Rattle.p3_theory.specs.Rings.Powers.{power};

use crate::ring::PrimeCharacteristicRing;

/// The power `2^power_log` of the value, times the factor: where both are powers of one value, the
/// exponents are added.
#[inline]
fn power_of_2_times<R: PrimeCharacteristicRing>(value: R, power_log: usize, factor: R) -> R
    ensures { (x : R) (m n : ℕ) → IsPower R.ops x m value → IsPower R.ops x n factor → IsPower R.ops x (m * 2 ^ power_log + n) result }
{
    value.exp_power_of_2(power_log) * factor
}

/// The value to the power 1717986917, by 30 squarings and 7 products; each variable is named by its
/// exponent in binary. Upstream's `exp_1717986917`.
#[must_use]
pub fn exp_1717986917<R: PrimeCharacteristicRing>(val: R) -> R
    ensures { result ≡ power R.ops val 1717986917 }
{
    let p1 = val;
    let p10 = p1.square();
    let p11 = p10 * p1;
    let p101 = p10 * p11;
    let p110011 = power_of_2_times(p11, 4, p11);
    let p11001100000000 = p110011.exp_power_of_2(8);
    let p11001100110011 = p11001100000000 * p110011;
    let p1100110011001100110011 = power_of_2_times(p11001100000000, 8, p11001100110011);
    let p11001100110011001100110011 = power_of_2_times(p1100110011001100110011, 4, p11);
    power_of_2_times(p11001100110011001100110011, 5, p101)
}

/// The value to the power 1420470955, by 29 squarings and 7 products; each variable is named by its
/// exponent in binary. Upstream's `exp_1420470955`.
#[must_use]
pub fn exp_1420470955<R: PrimeCharacteristicRing>(val: R) -> R
    ensures { result ≡ power R.ops val 1420470955 }
{
    let p1 = val;
    let p100 = p1.exp_power_of_2(2);
    let p101 = p100 * p1;
    let p10101 = power_of_2_times(p100, 2, p101);
    let p10101000000 = p10101.exp_power_of_2(6);
    let p10101010101 = p10101000000 * p10101;
    let p101010010101 = p10101000000 * p10101010101;
    let p101010010101010101010101 = power_of_2_times(p101010010101, 12, p10101010101);
    let p101010010101010101010101010101 = power_of_2_times(p101010010101010101010101, 6, p10101);
    power_of_2_times(p101010010101010101010101010101, 1, p1)
}

/// The value to the power 1725656503, by 29 squarings and 8 products; each variable is named by its
/// exponent in binary. Upstream's `exp_1725656503`.
#[must_use]
pub fn exp_1725656503<R: PrimeCharacteristicRing>(val: R) -> R
    ensures { result ≡ power R.ops val 1725656503 }
{
    let p1 = val;
    let p11 = p1.cube();
    let p110 = p11.square();
    let p111 = p110 * p1;
    let p11000 = p110.exp_power_of_2(2);
    let p11011 = p11000 * p11;
    let p11000000 = p11000.exp_power_of_2(3);
    let p11011011 = p11000000 * p11011;
    let p110011011 = p11011011 * p11000000;
    let p110011011011011011 = power_of_2_times(p110011011, 9, p11011011);
    let p110011011011011011011011011 = power_of_2_times(p110011011011011011, 9, p11011011);
    power_of_2_times(p110011011011011011011011011, 4, p111)
}

/// The value to the power 10540996611094048183, by 63 squarings and 8 products; each variable is named by its
/// exponent in binary. Upstream's `exp_10540996611094048183`.
#[must_use]
pub fn exp_10540996611094048183<R: PrimeCharacteristicRing>(val: R) -> R
    ensures { result ≡ power R.ops val 10540996611094048183 }
{
    let p1 = val;
    let p10 = p1.square();
    let p11 = p10 * p1;
    let p100 = p10.square();
    let p111 = p100 * p11;
    let p100000000000000000000000000000011 = power_of_2_times(p100, 30, p11);
    let p100100000000000000000000000000011011 = power_of_2_times(
        p100000000000000000000000000000011,
        3,
        p100000000000000000000000000000011,
    );
    let p100100100100000000000000000000011011011011 = power_of_2_times(
        p100100000000000000000000000000011011,
        6,
        p100100000000000000000000000000011011,
    );
    let p100100100100100100100100000000011011011011011011011011 = power_of_2_times(
        p100100100100000000000000000000011011011011,
        12,
        p100100100100000000000000000000011011011011,
    );
    let p100100100100100100100100100100011011011011011011011011011011 = power_of_2_times(
        p100100100100100100100100000000011011011011011011011011,
        6,
        p100100000000000000000000000000011011,
    );
    power_of_2_times(
        p100100100100100100100100100100011011011011011011011011011011,
        4,
        p111,
    )
}
