//! Operations on lists of coefficients, entry by entry.
ghost use Rattle.std.specs.Prelude.{◌≡◌, ◌<◌, length, map, List, ◌≤◌, ◌+◌, get_or};
ghost use Rattle.p3_theory.specs.Polynomials.Polynomial.{quotient_add, embed};
ghost use Rattle.p3_theory.specs.Polynomials.BaseProduct.{scaled};
ghost use Rattle.p3_extension_formulas.specs.Entries.{entrywise_difference};

use p3_ring::ring::{Algebra, PrimeCharacteristicRing};

/// The N entries of a slice, by value.
#[inline]
pub(crate) fn entries_of<A: Copy, const N: usize>(a: &[A]) -> [A; N]
    requires { length a.now ≡ N }
    ensures { result ≡ a.now }
{
    <[A; N]>::try_from(a).unwrap()
}

/// Writes N values over a slice.
#[inline]
pub(crate) fn write_entries<A: Copy, const N: usize>(entries: [A; N], res: &mut [A])
    requires { length res.old ≡ N }
    ensures { res.new ≡ entries }
{
    for i in 0..N {
        let entry = entries[i];
        res[i] = entry;
    }
}

/// Three entries of a slice one after the other.
#[inline]
pub(crate) fn three_from<A: Copy>(a: &[A], start: usize) -> (A, A, A)
    requires { start + 3 ≤ length a.now }
    ensures first { result.0 ≡ get_or a.now start result.0 }
    ensures second { result.1 ≡ get_or a.now (start + 1) result.1 }
    ensures third { result.2 ≡ get_or a.now (start + 2) result.2 }
{
    (a[start], a[start + 1], a[start + 2])
}

/// Four entries of a slice one after the other.
#[inline]
pub(crate) fn four_from<A: Copy>(a: &[A], start: usize) -> (A, A, A, A)
    requires { start + 4 ≤ length a.now }
    ensures first { result.0 ≡ get_or a.now start result.0 }
    ensures second { result.1 ≡ get_or a.now (start + 1) result.1 }
    ensures third { result.2 ≡ get_or a.now (start + 2) result.2 }
    ensures fourth { result.3 ≡ get_or a.now (start + 3) result.3 }
{
    (a[start], a[start + 1], a[start + 2], a[start + 3])
}

/// Writes the sums entry by entry.
#[inline]
pub fn add_entries<R: Algebra<R2>, R2: PrimeCharacteristicRing>(a: &[R], b: &[R2], res: &mut [R])
    requires lengths { length a.now ≡ length b.now }
    requires room { length res.old ≡ length a.now }
    ensures { res.new ≡ quotient_add R.ops (length a.now) a.now (map R.embed b.now) }
{
    for i in 0..res.len() {
        let sum = a[i] + b[i];
        res[i] = sum;
    }
}

/// Writes the differences entry by entry.
#[inline]
pub fn sub_entries<R: Algebra<R2>, R2: PrimeCharacteristicRing>(a: &[R], b: &[R2], res: &mut [R])
    requires lengths { length a.now ≡ length b.now }
    requires room { length res.old ≡ length a.now }
    ensures { res.new ≡ entrywise_difference R.ops (length a.now) a.now (map R.embed b.now) }
{
    for i in 0..res.len() {
        let difference = a[i] - b[i];
        res[i] = difference;
    }
}

/// Writes the entries embedded.
#[inline]
pub fn embed_entries<R: Algebra<R2>, R2: PrimeCharacteristicRing>(b: &[R2], res: &mut [R])
    requires { length res.old ≡ length b.now }
    ensures { res.new ≡ map R.embed b.now }
{
    for i in 0..res.len() {
        let entry = R::from(b[i]);
        res[i] = entry;
    }
}

/// Writes each entry times one factor.
#[inline]
pub fn scale_entries<R: PrimeCharacteristicRing>(a: &[R], factor: R, res: &mut [R])
    requires room { length res.old ≡ length a.now }
    ensures { res.new ≡ scaled R.ops (length a.now) a.now factor }
{
    for i in 0..res.len() {
        let product = a[i] * factor;
        res[i] = product;
    }
}

/// The sum of two lists of D coefficients, entry by entry, the second ones embedded. Upstream's
/// `vector_add`.
#[inline]
pub fn vector_add<R: Algebra<R2>, R2: PrimeCharacteristicRing, const D: usize>(
    a: &[R; D],
    b: &[R2; D],
) -> [R; D]
    ensures { result ≡ quotient_add R.ops D a.now (map R.embed b.now) }
{
    let mut res = *a;
    add_entries(a, b, &mut res);
    res
}

/// The difference of two lists of D coefficients, entry by entry, the second ones embedded.
/// Upstream's `vector_sub`.
#[inline]
pub fn vector_sub<R: Algebra<R2>, R2: PrimeCharacteristicRing, const D: usize>(
    a: &[R; D],
    b: &[R2; D],
) -> [R; D]
    ensures { result ≡ entrywise_difference R.ops D a.now (map R.embed b.now) }
{
    let mut res = *a;
    sub_entries(a, b, &mut res);
    res
}
