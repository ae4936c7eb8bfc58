//! Powers by an exponent that is a constant.
ghost use Rattle.std.specs.Prelude.{◌≡◌};
ghost use Rattle.p3_theory.specs.Rings.Powers.{power};

use p3_ring::ring::PrimeCharacteristicRing;

/// The product of POWER copies of the value: at most seven by the fewest products, and more of
/// them by binary powering. Upstream's `exp_const_u64`.
#[inline]
pub fn exp_const_u64<R: PrimeCharacteristicRing, const POWER: u64>(value: &R) -> R
    ensures { result ≡ power R.ops value.now POWER }
{
    match POWER {
        0 => R::one(),
        1 => *value,
        2 => value.square(),
        3 => value.cube(),
        4 => value.square().square(),
        5 => value.square().square() * *value,
        6 => value.square().cube(),
        7 => {
            let second = value.square();
            let third = second * *value;
            let fourth = second.square();
            third * fourth
        }
        _ => value.exp_u64(POWER),
    }
}
