//! The image of a value under the map that takes X to a given value, by a table of that value's powers.
ghost use Rattle.std.specs.Prelude.{◌≡◌, ◌≤◌, ◌<◌, ℕ, List, length};
ghost use Rattle.p3_theory.specs.Polynomials.Polynomial as Polynomial;
ghost use Rattle.p3_theory.specs.FrobeniusMaps.FrobeniusTable.{row_sum};
ghost use Rattle.p3_theory.specs.FrobeniusMaps.TableImages.{rest_of_image};

use p3_field_traits::field::Field;
use p3_ring::ring::PrimeCharacteristicRing;

/// The powers of an image of X, as a table of coefficients. This project's own.
pub trait PowerTable<F: Field, const D: usize> {
    /// The coefficients of a power.
    ghost powers: { ℕ → List F };

    /// The coefficient at `X^k` of power i, for i from 1 on.
    fn coefficient(i: usize, k: usize) -> F
        requires some { 1 ≤ i }
        requires power { i < D }
        requires index { k < D }
        ensures { result ≡ Polynomial.at F.ops (powers i) k };

    ghost first_is_one: { powers 0 ≡ Polynomial.embed F.ops D F.ops.one };
}

/// What the coefficients of a value from X on give to index k of its image.
#[inline]
fn image_of_rest<F: Field, T: PowerTable<F, D>, const D: usize>(a: &[F], k: usize) -> F
    requires degree { 2 ≤ D }
    requires input { length a.now ≡ D }
    requires index { k < D }
    ensures { result ≡ rest_of_image F.ops D T.powers a.now k }
{
    let mut sum = a[1] * T::coefficient(1, k);
    for i in 1..D - 1 {
        let product = a[1 + i] * T::coefficient(1 + i, k);
        sum = sum + product;
    }
    sum
}

/// Writes the image of a value: the sum of its coefficients times the powers of the image of X.
#[inline]
pub fn image_by_table<F: Field, T: PowerTable<F, D>, const D: usize>(a: &[F], res: &mut [F])
    requires degree { 2 ≤ D }
    requires input { length a.now ≡ D }
    requires room { length res.old ≡ D }
    ensures { res.new ≡ row_sum F.ops D T.powers a.now }
{
    for k in 0..D {
        let rest = image_of_rest::<F, T, D>(a, k);
        res[k] = if k == 0 { a[0] + rest } else { rest };
    }
}
