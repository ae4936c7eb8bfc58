//! Vectors of packings of extension values.
mod vectors;

ghost use Rattle.std.specs.Prelude.{◌≡◌, ◌<◌, ◌*◌, ℕ, length, get_or, map};
ghost use Rattle.p3_theory.specs.Lanes.VectorLanes.{vector_lane};

use crate::packing_vector::PackingVector;
use crate::vectorized::Vectorized;
use p3_extension_traits::basis::BasedVectorSpace;
use p3_field_traits::packed_traits::Inhabited;
use p3_packing_traits::extension_lanes::{PackedExtensionRing, lane_of_packings};
use p3_ring::ring::PrimeCharacteristicRing;
use std::marker::PhantomData;

/// The marker of a vector of packings of values of an extension of F, which also takes vectors of
/// packings of values of F as operands. This project's own.
#[derive(Clone, Copy)]
pub struct OfExtension<F>(PhantomData<F>);

/// N packings of extension values, one after the other. Upstream's `VectorizedExt`, with the packing
/// as a parameter.
pub type VectorizedExt<F, EF, PE, const N: usize> = PackingVector<EF, OfExtension<F>, PE, N>;

impl<F: Copy, EF: Copy, PE: PrimeCharacteristicRing + Inhabited, const N: usize> VectorizedExt<
    F,
    EF,
    PE,
    N,
> {
    /// The vector whose packings have these packings of field values as their coefficients, index by
    /// index. There are as many as the dimension. Upstream's `from_vectorized_basis_coefficients`.
    #[inline]
    pub fn from_vectorized_basis_coefficients<P: PrimeCharacteristicRing + Inhabited>(
        coefficients: &[Vectorized<F, P, N>],
    ) -> Self
    where
        PE: BasedVectorSpace<P>,
        requires { length coefficients.now ≡ ⟦<PE as BasedVectorSpace<P>>⟧.DIMENSION }
        ensures { (d : PE) (k : ℕ) → k < N → ⟦<PE as BasedVectorSpace<P>>⟧.coefficients (get_or result.items k d) ≡ map (λ v. get_or v.items k P.ops.zero) coefficients.now }
    {
        let mut items = [PE::zero(); N];
        for i in 0..N {
            items[i] = packing_of_coefficients::<F, P, PE, N>(coefficients, i);
        }
        Self::new(items)
    }
}

impl<
    F: Copy,
    EF: PrimeCharacteristicRing,
    PE: PackedExtensionRing<F, EF>,
    const N: usize,
> VectorizedExt<F, EF, PE, N> {
    /// The value at a lane: lane `lane % LANES` of packing `lane / LANES`, where `LANES` is the number
    /// of lanes of a packing. The lane is below `LANES * N`. Upstream's `extract`.
    #[inline]
    pub fn extract(&self, lane: usize) -> EF
        requires { lane < PE.LANES * N }
        ensures { result ≡ vector_lane PE.ops EF.ops PE.ext_lanes PE.LANES lane self.now }
    {
        let parts = self.items();
        lane_of_packings(&parts[..], lane)
    }
}

/// The packing at index i of vector d.
#[inline]
fn packing_at<F: Copy, P: PrimeCharacteristicRing + Inhabited, const N: usize>(
    vectors: &[Vectorized<F, P, N>],
    d: usize,
    i: usize,
) -> P
    requires vector { d < length vectors.now }
    requires index { i < N }
    ensures { (e : P) → result ≡ get_or (map (λ v. get_or v.items i P.ops.zero) vectors.now) d e }
{
    let vector = &vectors[d];
    let packings = vector.items();
    packings[i]
}

/// The packing of extension values whose coefficients are the packings at index i.
#[inline]
fn packing_of_coefficients<
    F: Copy,
    P: PrimeCharacteristicRing + Inhabited,
    PE: BasedVectorSpace<P>,
    const N: usize,
>(coefficients: &[Vectorized<F, P, N>], i: usize) -> PE
    requires index { i < N }
    requires dimension { length coefficients.now ≡ PE.DIMENSION }
    ensures { PE.coefficients result ≡ map (λ v. get_or v.items i P.ops.zero) coefficients.now }
{
    PE::from_basis_coefficients_fn(
        |d: usize| -> P
            requires vector { d < length coefficients.now }
            requires index { i < N }
            ensures packing { (e : P) → result ≡ get_or (map (λ v. get_or v.items i P.ops.zero) coefficients.entry.now) d e }
            ensures kept { coefficients.exit ≡ coefficients.entry }
        { packing_at(coefficients, d, i) },
    )
}
