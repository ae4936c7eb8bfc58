//! Extension fields: fields above a base, with a basis that begins with one.
ghost use Rattle.std.specs.Prelude.{◌≡◌, ◌↔◌, IsTrue, IsSome, IfSome, MatchOption, length};
ghost use Rattle.p3_theory.specs.Polynomials.Polynomial as Polynomial;
ghost use Rattle.p3_theory.specs.Bases.BasisSums.{IsScalar, IsBasisSum};

use crate::basis::{AlgebraIdentity, BasedVectorSpace};
use p3_field_traits::field::Field;
use p3_ring::ring::{Algebra, PrimeCharacteristicRing};

/// A field over a base field, with a basis whose element 0 is one: an element x of the base has the
/// coefficients x, 0, .., 0. Upstream's `ExtensionField`.
pub trait ExtensionField<Base: Field>: Field
    + Algebra<Base>
    + BasedVectorSpace<Base>
    + AlgebraIdentity<Base> {
    /// Whether the value lies in the base: every coefficient past index 0 is zero.
    fn is_in_basefield(&self) -> bool
        ensures { IsTrue result ↔ IsScalar Base.ops (Self.coefficients self.now) };

    /// The element of the base that the value is, its coefficient at index 0, and `None` exactly where
    /// the value doesn't lie in the base.
    fn as_base(&self) -> Option<Base>
        ensures exact { IsSome result ↔ IsScalar Base.ops (Self.coefficients self.now) }
        ensures coefficient { IfSome result (λ x. x ≡ Polynomial.at Base.ops (Self.coefficients self.now) 0) }
        ensures embedded { IfSome result (λ x. Self.embed x ≡ self.now) };

    /// The sum of basis element j times entry j, and `None` exactly where the count of the entries is
    /// not the dimension.
    #[inline]
    final fn from_ext_basis_coefficients(coeffs: &[Self]) -> Option<Self>
        ensures { MatchOption result (length coeffs.now ≡ Self.DIMENSION → ⊥) (λ x. IsBasisSum Base.ops Self.ops Self.coefficients Self.DIMENSION coeffs.now x) }
    {
        if coeffs.len() != Self::DIMENSION {
            return None;
        }
        let mut sum = Self::zero();
        for j in 0..Self::DIMENSION {
            let element = Self::ith_basis_element(j).unwrap();
            let term = element * coeffs[j];
            sum += term;
        }
        Some(sum)
    }

    /// An element of the base has the coefficients x, 0, .., 0.
    ghost scalars: { (x : Base) → Self.coefficients (Self.embed x) ≡ Polynomial.embed Base.ops Self.DIMENSION x };
}

impl<F: Field> ExtensionField<F> for F {
    ghost use Rattle.std.specs.Prelude.{refl};

    #[inline]
    fn is_in_basefield(&self) -> bool {
        true
    }

    #[inline]
    fn as_base(&self) -> Option<F> {
        Some(*self)
    }

    ghost scalars = { λ x. refl };
}
