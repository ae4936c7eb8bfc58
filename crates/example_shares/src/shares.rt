//! Shares of a secret: the values of a polynomial, whose constant coefficient is the secret, at the points
//! 1, 2, 3, ..
ghost use Rattle.std.specs.Prelude.{◌≡◌, map, IfOk};
ghost use Rattle.example_shares.specs.Secrets.{value_at, first_points};
ghost use Rattle.example_shares.specs.ShareLists.{points, values};

use p3_helpers::horner::horner_slice;
use p3_ring::ring::PrimeCharacteristicRing;
use std::alloc::{AllocError, Global};

/// A point, and the value of a polynomial there.
#[derive(Clone, Copy, Debug, PartialEq, Eq)]
pub struct Share<F> {
    pub point: F,
    pub value: F,
}

/// The value of the polynomial with the given coefficients, the lowest first, at the point.
fn evaluate<F: PrimeCharacteristicRing>(coefficients: &[F], point: F) -> F
    ensures { result ≡ value_at F.ops coefficients.now point }
{
    horner_slice(coefficients, point)
}

/// The shares of the constant coefficient: the values at the points 1 to `count` of the polynomial with the
/// given coefficients, the lowest first. So many of them as there are coefficients recover it. `Err` only
/// where memory is refused.
pub fn split<F: PrimeCharacteristicRing>(
    alloc: Global,
    coefficients: &[F],
    count: usize,
) -> Result<Vec<Share<F>>, AllocError>
    ensures points { IfOk result (λ shares. points shares.items ≡ first_points F.ops count) }
    ensures values { IfOk result (λ shares. values shares.items ≡ map (value_at F.ops coefficients.now) (points shares.items)) }
{
    let mut shares = Vec::with_capacity(alloc, count)?;
    for i in 0..count {
        let point = F::from_usize(i + 1);
        let value = evaluate(coefficients, point);
        shares.push(Share { point, value })?;
    }
    Ok(shares)
}
