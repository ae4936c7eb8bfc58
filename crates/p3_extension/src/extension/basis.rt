//! Extension values as vectors over the base, with the basis of powers of X.
ghost use Rattle.std.specs.Prelude.{◌≡◌, ℕ};

use super::ext_field::ExtField;
use super::{ExtensionAlgebra, ExtensionShape, FrobeniusExtendable};
use p3_extension_traits::array_chunks::take_exactly;
use p3_extension_traits::basis::{AlgebraIdentity, BasedVectorSpace};
use p3_extension_traits::extension_field::ExtensionField;
use p3_field_traits::field::Field;
use p3_ring::ring::PrimeCharacteristicRing;
use std::alloc::{AllocError, Allocator};

/// The basis is 1, X, .., X^(D-1).
impl<F: Copy, const D: usize, S: ExtensionShape, A: ExtensionAlgebra<F, D, S>> BasedVectorSpace<A>
    for ExtField<F, D, S, A> {
    ghost use Rattle.p3_extension.specs.Values.{same_value, value_of};
    ghost use Rattle.p3_extension.specs.Bases.{some_index, with_coefficients};

    const DIMENSION: usize = D;

    ghost DIMENSION = { D };

    ghost coefficients = { λ x. x.value };

    #[inline]
    fn as_basis_coefficients_slice(&self) -> &[A] {
        &self.value
    }

    #[inline]
    fn from_basis_coefficients_fn<G: FnMut(usize) -> A>(f: G) -> Self {
        ExtField::<F, D, S, A>::new(std::array::from_fn(f))
    }

    #[inline]
    fn from_basis_coefficients_iter<I: ExactSizeIterator<Item = A> + Drop>(
        iter: I,
    ) -> Option<Self> {
        let value = take_exactly(iter, [A::zero(); D])?;
        Some(ExtField::<F, D, S, A>::new(value))
    }

    ghost lengths = { λ x. x.sized };

    ghost same = { same_value };

    ghost onto = { with_coefficients };

    ghost positive = { some_index A.at_least_two };
}

impl<F: FrobeniusExtendable<D, S>, const D: usize, S: ExtensionShape> AlgebraIdentity<F>
    for ExtField<F, D, S, F> {
    ghost identity = { F.algebra_id };

    #[inline]
    fn algebra_id_in<A: Allocator + Copy>(alloc: A) -> Result<Vec<u8, A>, AllocError> {
        Vec::from_slice(alloc, F::algebra_id().as_bytes())
    }
}

impl<F: FrobeniusExtendable<D, S>, const D: usize, S: ExtensionShape> ExtensionField<F>
    for ExtField<F, D, S, F> {
    ghost use Rattle.std.specs.Prelude.{refl};

    #[inline]
    fn is_in_basefield(&self) -> bool {
        for i in 1..D {
            if !self.value[i].is_zero() {
                return false;
            }
        }
        true
    }

    #[inline]
    fn as_base(&self) -> Option<F> {
        if !<Self as ExtensionField<F>>::is_in_basefield(self) {
            return None;
        }
        Some(self.value[0])
    }

    ghost scalars = { λ x. refl };
}
