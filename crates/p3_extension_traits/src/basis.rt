//! Vectors over a ring with a basis, by their coefficients; algebras with a name.
ghost use Rattle.std.specs.Prelude.{◌≡◌, ◌<◌, ◌%◌, ◌↔◌, ℕ, List, length, IsSome, IfSome, MatchOption, IfOk, IsOk, vec_len};
ghost use Rattle.std.specs.Iterator.{IsFinite};
ghost use Rattle.std.specs.Array.{IsFromFnResult};
ghost use Rattle.p3_extension_traits.specs.Streams.{YieldsExactly, TakesExactly};
ghost use Rattle.p3_theory.specs.Bases.Coordinates.{basis_element, flattened, HasCoefficientsOf, CallableBelow};

use crate::in_memory::InMemory;
use p3_ring::ring::PrimeCharacteristicRing;
use std::alloc::{AllocError, Allocator, Global};

/// The value with these coefficients, as many as the dimension.
#[inline]
fn value_of_group<F: PrimeCharacteristicRing, V: BasedVectorSpace<F>>(group: &[F]) -> V
    requires { length group.now ≡ V.DIMENSION }
    ensures { V.coefficients result ≡ group.now }
{
    V::from_basis_coefficients_slice(group).unwrap()
}

/// Vectors over F with a basis: each value is the list of its coefficients. Upstream's
/// `BasedVectorSpace`.
pub trait BasedVectorSpace<F: PrimeCharacteristicRing>: Copy {
    /// How many coefficients a value has, at least one.
    const DIMENSION: usize;

    ghost DIMENSION: { ℕ };

    /// The coefficients of a value.
    ghost coefficients: { Self → List F };

    /// The coefficients of the value.
    fn as_basis_coefficients_slice(&self) -> &[F]
    where
        F: InMemory,
        ensures { result.now ≡ coefficients self.now };

    /// The value with these coefficients, and `None` exactly where their count is not the dimension.
    #[inline]
    final fn from_basis_coefficients_slice(slice: &[F]) -> Option<Self>
        ensures { MatchOption result (length slice.now ≡ DIMENSION → ⊥) (λ x. coefficients x ≡ slice.now) }
    {
        Self::from_basis_coefficients_iter(slice.iter().copied())
    }

    /// The value whose coefficient i is what the closure answers at i, for i from 0 upward.
    fn from_basis_coefficients_fn<G: FnMut(usize) -> F>(f: G) -> Self
        requires { CallableBelow G.FnMut DIMENSION f }
        ensures { IsFromFnResult G.FnMut f (coefficients result) DIMENSION };

    /// The value with the coefficients that the iterator gives, and `None` exactly where their count
    /// is not the dimension. The iterator may be any, as one that maps by a closure that changes.
    fn from_basis_coefficients_iter<I: ExactSizeIterator<Item = F> + Drop>(iter: I) -> Option<Self>
        requires can { I.can_next iter }
        requires ends { IsFinite (I.remaining iter) }
        ensures drawn { TakesExactly I.next_gives DIMENSION coefficients iter result }
        ensures all { (xs : List F) → YieldsExactly I.next_gives iter xs
            → MatchOption result (length xs ≡ DIMENSION → ⊥) (λ x. coefficients x ≡ xs) };

    /// The value whose coefficient i is one and whose other coefficients are zero, and `None` exactly
    /// for i from the dimension on.
    #[inline]
    final fn ith_basis_element(i: usize) -> Option<Self>
        ensures some { IsSome result ↔ (i < DIMENSION) }
        ensures basis { IfSome result (λ x. coefficients x ≡ basis_element F.ops DIMENSION i) }
    {
        let zero = F::zero();
        let one = F::one();
        if i < Self::DIMENSION {
            Some(Self::from_basis_coefficients_fn(|j| if j == i { one } else { zero }))
        } else {
            None
        }
    }

    /// The coefficients of the values, one value after the other. Each value is taken, and room for
    /// the whole list is asked for once, and not at all where there is no value. Upstream's, without
    /// reuse of the memory.
    #[inline]
    final fn flatten_to_base(alloc: Global, vec: Vec<Self>) -> Result<Vec<F>, AllocError>
    where
        F: InMemory,
        ensures all { IfOk result (λ v. v.items ≡ flattened coefficients vec.items) }
        ensures coefficients { IfOk result (λ v. HasCoefficientsOf coefficients DIMENSION vec.items v.items) }
        ensures empty { vec_len vec ≡ 0 → IsOk result }
    {
        Self::flatten_to_base_in(alloc, vec)
    }

    /// The same in any allocator. This project's own.
    final fn flatten_to_base_in<A: Allocator + Copy>(
        alloc: A,
        vec: Vec<Self, A>,
    ) -> Result<Vec<F, A>, AllocError>
    where
        F: InMemory,
        ensures all { IfOk result (λ v. v.items ≡ flattened coefficients vec.items) }
        ensures coefficients { IfOk result (λ v. HasCoefficientsOf coefficients DIMENSION vec.items v.items) }
        ensures empty { vec_len vec ≡ 0 → IsOk result }
    {
        let mut flat = Vec::with_capacity(alloc, vec.len().saturating_mul(Self::DIMENSION))?;
        for x in &vec {
            flat.extend_from_slice(x.as_basis_coefficients_slice())?;
        }
        Ok(flat)
    }

    /// The values whose coefficients stand in the list one value after the other: what
    /// `flatten_to_base` makes of them is the list again. Room for the whole list is asked for once,
    /// and not at all where the list is empty. Upstream's, without reuse of the memory.
    #[inline]
    final fn reconstitute_from_base(alloc: Global, vec: Vec<F>) -> Result<Vec<Self>, AllocError>
        requires { vec_len vec % DIMENSION ≡ 0 }
        ensures all { IfOk result (λ v. flattened coefficients v.items ≡ vec.items) }
        ensures coefficients { IfOk result (λ v. HasCoefficientsOf coefficients DIMENSION v.items vec.items) }
        ensures empty { vec_len vec ≡ 0 → IsOk result }
    {
        Self::reconstitute_from_base_in(alloc, vec)
    }

    /// The same in any allocator. This project's own.
    final fn reconstitute_from_base_in<A: Allocator + Copy>(
        alloc: A,
        vec: Vec<F, A>,
    ) -> Result<Vec<Self, A>, AllocError>
        requires { vec_len vec % DIMENSION ≡ 0 }
        ensures all { IfOk result (λ v. flattened coefficients v.items ≡ vec.items) }
        ensures coefficients { IfOk result (λ v. HasCoefficientsOf coefficients DIMENSION v.items vec.items) }
        ensures empty { vec_len vec ≡ 0 → IsOk result }
    {
        let mut values = Vec::with_capacity(alloc, vec.len() / Self::DIMENSION)?;
        let mut rest = vec.as_slice();
        while !rest.is_empty() {
            let (front, back) = rest.split_at(Self::DIMENSION);
            values.push(value_of_group(front))?;
            rest = back;
        }
        Ok(values)
    }

    /// The coefficients have the length of the dimension.
    ghost lengths: { (x : Self) → length (coefficients x) ≡ DIMENSION };

    /// Values with the same coefficients are the same.
    ghost same: { (x y : Self) → coefficients x ≡ coefficients y → x ≡ y };

    /// Each list of the length of the dimension is the coefficients of a value.
    ghost onto: { (xs : List F) → length xs ≡ DIMENSION → (x : Self) × (coefficients x ≡ xs) };

    ghost positive: { 0 < DIMENSION };
}

impl<R: PrimeCharacteristicRing> BasedVectorSpace<R> for R {
    ghost use Rattle.std.specs.Prelude.{[], ◌∷◌, refl};
    ghost use Rattle.std.proofs.Common.{lit<};
    ghost use Rattle.p3_theory.specs.Bases.CoordinateLemmas.{single-same, single-onto};

    const DIMENSION: usize = 1;

    ghost DIMENSION = { 1 };

    ghost coefficients = { λ x. x ∷ [] };

    ghost lengths = { λ x. refl };

    ghost same = { single-same };

    ghost onto = { single-onto };

    ghost positive = { lit< tt };

    #[inline]
    fn as_basis_coefficients_slice(&self) -> &[R]
    where
        R: InMemory,
    {
        std::slice::from_ref(self)
    }

    #[inline]
    fn from_basis_coefficients_fn<G: FnMut(usize) -> R>(mut f: G) -> Self {
        f(0)
    }

    #[inline]
    fn from_basis_coefficients_iter<I: ExactSizeIterator<Item = R> + Drop>(
        mut iter: I,
    ) -> Option<Self> {
        let Some(first) = iter.next() else {
            return None;
        };
        match iter.next() {
            None => Some(first),
            Some(_) => None,
        }
    }
}

/// Vectors over F whose basis has a name, so that values of different algebras are not taken for one
/// another. Upstream's `AlgebraIdentity`.
pub trait AlgebraIdentity<F: PrimeCharacteristicRing>: BasedVectorSpace<F> {
    /// The bytes of the name.
    ghost identity: { List ℕ };

    /// The bytes of the name, for which room is asked once.
    #[inline]
    final fn algebra_id(alloc: Global) -> Result<Vec<u8>, AllocError>
        ensures { IfOk result (λ v. v.items ≡ identity) }
    {
        Self::algebra_id_in(alloc)
    }

    /// The same in any allocator. This project's own.
    fn algebra_id_in<A: Allocator + Copy>(alloc: A) -> Result<Vec<u8, A>, AllocError>
        ensures { IfOk result (λ v. v.items ≡ identity) };
}

impl<F: PrimeCharacteristicRing> AlgebraIdentity<F> for F {
    ghost use Rattle.std.specs.Prelude.{codes};

    ghost identity = { codes "p3-scalar-basis-v1" };

    #[inline]
    fn algebra_id_in<A: Allocator + Copy>(alloc: A) -> Result<Vec<u8, A>, AllocError> {
        Vec::from_slice(alloc, b"p3-scalar-basis-v1")
    }
}
