//! Lagrange's formula at zero.
ghost use Rattle.std.specs.Prelude.{◌≡◌, length, IfOk};
ghost use Rattle.p3_theory.specs.Rings.Operators.{product_list};
ghost use Rattle.example_shares.specs.Denominators.{AreDenominators};
ghost use Rattle.example_shares.specs.Lagrange.{differences, lagrange};
ghost use Rattle.example_shares.specs.ShareLists.{points, values};

use crate::shares::Share;
use p3_ring::ring::PrimeCharacteristicRing;
use std::alloc::{AllocError, Global};

/// The product of the differences of the shares' points and `x`.
fn difference_product<F: PrimeCharacteristicRing>(shares: &[Share<F>], x: F) -> F
    ensures { result ≡ differences F.ops x (points shares.now) }
{
    let mut product = F::one();
    for share in shares {
        product *= share.point - x;
    }
    product
}

/// The product of the entries.
pub fn product<F: PrimeCharacteristicRing>(entries: &[F]) -> F
    ensures { result ≡ product_list F.ops entries.now }
{
    let mut product = F::one();
    for entry in entries {
        product *= *entry;
    }
    product
}

/// For each share the product of the differences of the other points and its own.
pub fn denominators<F: PrimeCharacteristicRing>(
    alloc: Global,
    shares: &[Share<F>],
) -> Result<Vec<F>, AllocError>
    ensures { IfOk result (λ v. AreDenominators F.ops (points shares.now) v.items) }
{
    let mut products = Vec::with_capacity(alloc, shares.len())?;
    for i in 0..shares.len() {
        let x = shares[i].point;
        let before = difference_product(&shares[..i], x);
        let after = difference_product(&shares[i + 1..], x);
        products.push(before * after)?;
    }
    Ok(products)
}

/// Lagrange's formula at zero: the sum of the values, each times its weight and the product of the other
/// points.
pub fn combine<F: PrimeCharacteristicRing>(shares: &[Share<F>], weights: &[F]) -> F
    requires { length weights.now ≡ length shares.now }
    ensures { result ≡ lagrange F.ops (points shares.now) (values shares.now) weights.now }
{
    let mut sum = F::zero();
    let mut product = F::one();
    for i in (0..shares.len()).rev() {
        let x = shares[i].point;
        let y = shares[i].value;
        sum = sum * x + y * weights[i] * product;
        product *= x;
    }
    sum
}
