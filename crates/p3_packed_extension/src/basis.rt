//! Packed extension values as vectors over packings, with the basis of powers of X.
use crate::packed_ext_field::PackedExtField;
use p3_extension::extension::{ExtensionAlgebra, ExtensionShape};
use p3_extension_traits::array_chunks::take_exactly;
use p3_extension_traits::basis::BasedVectorSpace;
use p3_ring::ring::PrimeCharacteristicRing;

/// The basis is 1, X, .., X^(D-1).
impl<
    F: ExtensionAlgebra<F, D, S>,
    const D: usize,
    S: ExtensionShape,
    P: PrimeCharacteristicRing,
> BasedVectorSpace<P> for PackedExtField<F, D, S, P> {
    ghost use Rattle.std.specs.Prelude.{[]};
    ghost use Rattle.p3_extension.specs.Bases.{some_index};
    ghost use Rattle.p3_packed_extension.specs.PackedValues.{same_packed, packed_with};

    const DIMENSION: usize = D;

    ghost DIMENSION = { D };

    ghost coefficients = { λ x. x.value.value };

    #[inline]
    fn as_basis_coefficients_slice(&self) -> &[P] {
        &self.value.value
    }

    #[inline]
    fn from_basis_coefficients_fn<G: FnMut(usize) -> P>(f: G) -> Self {
        Self::new(std::array::from_fn(f))
    }

    #[inline]
    fn from_basis_coefficients_iter<I: ExactSizeIterator<Item = P> + Drop>(
        iter: I,
    ) -> Option<Self> {
        let value = take_exactly(iter, [P::zero(); D])?;
        Some(Self::new(value))
    }

    ghost lengths = { λ x. x.value.sized };

    ghost same = { same_packed P.ops [] };

    ghost onto = { packed_with };

    ghost positive = { some_index F.at_least_two };
}
