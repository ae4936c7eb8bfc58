//! Rings in which a power is injective, or takes every value.
ghost use Rattle.std.specs.Prelude.{◌≡◌};
ghost use Rattle.p3_theory.specs.Rings.Powers.{power};
ghost use Rattle.p3_theory.specs.Roots.Monomials.{IsInjectivePower};
ghost use Rattle.p3_theory.specs.Rings.ZeroDivisors.{HasNoZeroDivisors};

use crate::const_power::exp_const_u64;
use p3_ring::ring::PrimeCharacteristicRing;

/// A ring whose power N keeps distinct values distinct, where no product of values other than zero
/// is zero. Upstream's `InjectiveMonomial`.
pub trait InjectiveMonomial<const N: u64>: PrimeCharacteristicRing {
    /// The power N of the value.
    #[inline]
    final fn injective_exp_n(&self) -> Self
        ensures { result ≡ power Self.ops self.now N }
    {
        exp_const_u64::<Self, N>(self)
    }

    /// Values with one power N are one value.
    ghost injective: { HasNoZeroDivisors Self.ops → IsInjectivePower Self.ops N };
}

/// A ring whose power N takes every value, where no product of values other than zero is zero.
/// Upstream's `PermutationMonomial`.
pub trait PermutationMonomial<const N: u64>: InjectiveMonomial<N> {
    /// The value whose power N is this one.
    fn injective_exp_root_n(&self) -> Self
        ensures { HasNoZeroDivisors Self.ops → power Self.ops result N ≡ self.now };
}
