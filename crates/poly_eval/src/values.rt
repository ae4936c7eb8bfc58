//! Values at points and over cosets.
ghost use Rattle.std.specs.Prelude.{◌≡◌, ◌<◌, ◌^◌, length, IfOk};
ghost use Rattle.p3_field.specs.Powers.{eval};
ghost use Rattle.poly_eval.specs.CosetValues.{values_on_coset};

use crate::halves::eval_into;
use crate::points::Points;
use p3_field::coset::TwoAdicMultiplicativeCoset;
use p3_field::{Algebra, HornerIter, PrimeCharacteristicRing, TwoAdicField};
use std::alloc::{AllocError, Allocator, Global};

/// The value at a point of the polynomial with these coefficients, the constant one first. The point may
/// lie in an algebra over their ring.
#[inline]
#[must_use]
pub fn eval_point<F: PrimeCharacteristicRing, A: Algebra<F>>(coeffs: &[F], x: A) -> A
    ensures { result ≡ eval F.ops A.ops ⟦<A as Algebra<F>>⟧.embed x coeffs.now }
{
    coeffs.iter().copied().horner(x)
}

/// Writes the values of the polynomial with these coefficients, the constant one first, over the coset:
/// index j gets the value at the coset's item j. The slice is as long as the coset, whose log size is below
/// 64. It takes no memory. A remark on the algorithm, which goes by halves: for n items and as many coefficients
/// it takes some n * log n products. No clause counts them.
#[inline]
pub fn eval_coset_into<F: TwoAdicField>(
    coeffs: &[F],
    coset: &TwoAdicMultiplicativeCoset<F>,
    out: &mut [F],
)
    requires log_size { coset.now.log_size < 64 }
    requires size { length out.old ≡ 2 ^ coset.now.log_size }
    ensures { out.new ≡ values_on_coset F.ops F.two_adic coset.now.shift coset.now.log_size coeffs.now }
{
    let points = Points {
        shift: coset.shift(),
        generator: coset.subgroup_generator(),
        log_size: coset.log_size(),
    };
    eval_into(coeffs, points, out);
}

/// The values of the polynomial with these coefficients over the coset, whose log size is below 64;
/// `Err` where the memory for them is refused.
#[inline]
pub fn eval_coset<F: TwoAdicField>(
    alloc: Global,
    coeffs: &[F],
    coset: &TwoAdicMultiplicativeCoset<F>,
) -> Result<Vec<F>, AllocError>
    requires { coset.now.log_size < 64 }
    ensures { IfOk result (λ v. v.items ≡ values_on_coset F.ops F.two_adic coset.now.shift coset.now.log_size coeffs.now) }
{
    eval_coset_in(alloc, coeffs, coset)
}

/// `eval_coset` in any allocator. It asks for memory once.
#[inline]
pub fn eval_coset_in<F: TwoAdicField, A: Allocator + Copy>(
    alloc: A,
    coeffs: &[F],
    coset: &TwoAdicMultiplicativeCoset<F>,
) -> Result<Vec<F, A>, AllocError>
    requires { coset.now.log_size < 64 }
    ensures { IfOk result (λ v. v.items ≡ values_on_coset F.ops F.two_adic coset.now.shift coset.now.log_size coeffs.now) }
{
    let mut values = F::zero_vec_in(alloc, coset.size())?;
    eval_coset_into(coeffs, coset, &mut values);
    Ok(values)
}
