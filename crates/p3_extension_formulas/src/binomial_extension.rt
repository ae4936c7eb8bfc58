//! Products, squares and inverses modulo `X^D - W`, over slices of coefficients: by a formula of its own at each of
//! the degrees upstream has one for, and by the plain sum at every other.
ghost use Rattle.std.specs.Prelude.{◌≡◌, ◌≤◌, length, map, replicate, IsTrue, IsFalse, ◌<◌, ◌+◌, ◌-◌, ◌∷◌, [], get_or, reverse, take};
ghost use Rattle.p3_theory.specs.Polynomials.Polynomial.{quotient_mul, quotient_add, binomial, at, quotient_ops, quotient_neg};
ghost use Rattle.p3_theory.specs.Rings.Powers.{power, scale_powers};
ghost use Rattle.p3_extension_formulas.specs.FixedFormulas.{has_fixed_formula};
ghost use Rattle.p3_theory.specs.Polynomials.BaseProduct.{scaled};
ghost use Rattle.p3_theory.specs.Polynomials.ConvolutionSums.{first_sum};
ghost use Rattle.p3_theory.specs.Rings.DotProduct.{dot};
ghost use Rattle.p3_theory.specs.Rings.Ring.{subtract, IsInverse};
ghost use Rattle.p3_theory.specs.Products.ProductCoefficients.{product_coefficient};
ghost use Rattle.p3_theory.specs.Rings.Multiples.{two};
ghost use Rattle.p3_theory.specs.Inverses.EvenOdd.{interleave, norm_by_halves};
ghost use Rattle.p3_theory.specs.Inverses.InversesByHalves.{less_shifted};
ghost use Rattle.p3_theory.specs.Inverses.ListInverses.{HasNoInverse};

use crate::vectors::{embed_entries, entries_of, four_from, three_from, write_entries};
use p3_field_traits::field::Field;
use p3_ring::ring::{Algebra, PrimeCharacteristicRing};
use std::ops::Mul;

/// The sum of `a[skip + i] * b[top - i]` for i below `count`.
#[inline]
pub fn products_at<A: PrimeCharacteristicRing>(
    a: &[A],
    b: &[A],
    skip: usize,
    top: usize,
    count: usize,
) -> A
    requires some { 1 ≤ count }
    requires first { skip + count ≤ length a.now }
    requires second { top < length b.now }
    requires indices { count ≤ top + 1 }
    ensures { result ≡ first_sum A.ops.zero A.ops.add count (λ i. A.ops.mul (get_or a.now (skip + i) A.ops.zero) (get_or b.now (top - i) A.ops.zero)) }
{
    let mut sum = a[skip] * b[top];
    for i in 1..count {
        let product = a[skip + i] * b[top - i];
        sum = sum + product;
    }
    sum
}

/// The coefficient at `X^k` of the product of two lists of `degree` coefficients modulo
/// `X^degree - W`. Upstream's `compute_coefficient`.
#[inline]
pub fn compute_coefficient<F: PrimeCharacteristicRing, A: Algebra<F>>(
    a: &[A],
    b: &[A],
    degree: usize,
    k: usize,
    w: F,
) -> A
    requires index { k < degree }
    requires left { length a.now ≡ degree }
    requires right { length b.now ≡ degree }
    ensures { result ≡ product_coefficient A.ops degree (A.embed w) a.now b.now k }
{
    let low = products_at(a, b, 0, k, k + 1);
    let above = degree - 1 - k;
    if above == 0 {
        return low;
    }
    let high = products_at(a, b, k + 1, degree - 1, above);
    let folded = high * w;
    low + folded
}

/// Writes the coefficients from the last one to the first, each times W.
#[inline]
pub(crate) fn write_reversed_scaled<F: PrimeCharacteristicRing, A: Algebra<F>>(
    b: &[A],
    w: F,
    res: &mut [A],
)
    requires { length res.old ≡ length b.now }
    ensures { res.new ≡ scaled A.ops (length b.now) (reverse b.now) (A.embed w) }
{
    for i in 0..res.len() {
        let product = b[res.len() - 1 - i] * w;
        res[i] = product;
    }
}

/// Writes the value and behind it all entries but the last one.
#[inline]
pub(crate) fn shift_in<A: PrimeCharacteristicRing>(row: &mut [A], first: A)
    ensures { row.new ≡ take (length row.old) (first ∷ row.old) }
{
    let mut carried = first;
    for i in 0..row.len() {
        let next = row[i];
        row[i] = carried;
        carried = next;
    }
}

/// The product modulo `X^D - W` for any D, added to what `res` holds. Always inlined, as are all calls down to it from the
/// product of extension values: as a call, each product of a chain would wait until the one before is in memory.
#[inline(always)]
fn general_mul<F: PrimeCharacteristicRing, A: Algebra<F>, const D: usize>(
    a: &[A],
    b: &[A],
    res: &mut [A],
    w: F,
)
    requires degree { 1 ≤ D }
    requires left { length a.now ≡ D }
    requires right { length b.now ≡ D }
    requires room { length res.old ≡ D }
    ensures { res.new ≡ quotient_add A.ops D res.old (quotient_mul A.ops D (binomial A.ops D (A.embed w)) a.now b.now) }
{
    let mut row = [A::zero(); D];
    write_reversed_scaled(b, w, &mut row);
    for k in 0..D {
        shift_in(&mut row, b[k]);
        let coefficient = A::dot_product(a, &row);
        let sum = res[k] + coefficient;
        res[k] = sum;
    }
}

/// Writes the product modulo `X^D - W` at a degree that has a formula of its own; whether it has one.
#[inline(always)]
fn fixed_mul<F: PrimeCharacteristicRing, A: Algebra<F>, const D: usize>(
    a: &[A],
    b: &[A],
    res: &mut [A],
    w: F,
) -> bool
    requires left { length a.now ≡ D }
    requires right { length b.now ≡ D }
    requires room { length res.old ≡ D }
    ensures formula { result ≡ has_fixed_formula D }
    ensures product { IsTrue result → res.new ≡ quotient_mul A.ops D (binomial A.ops D (A.embed w)) a.now b.now }
    ensures kept { IsFalse result → res.new ≡ res.old }
{
    match D {
        2 => quadratic_mul(a, b, res, w),
        3 => cubic_mul(a, b, res, w),
        4 => quartic_product(a, b, res, w),
        5 => quintic_product(a, b, res, w),
        8 => octic_product(a, b, res, w),
        _ => return false,
    }
    true
}

/// The product of two lists of D coefficients of one algebra modulo `X^D - W`, as `binomial_mul`
/// writes it.
#[inline]
fn algebra_mul<F: PrimeCharacteristicRing, A: Algebra<F>, const D: usize>(
    a: &[A],
    b: &[A],
    res: &mut [A],
    w: F,
)
    requires degree { 1 ≤ D }
    requires left { length a.now ≡ D }
    requires right { length b.now ≡ D }
    requires room { length res.old ≡ D }
    ensures becomes { IsTrue (has_fixed_formula D) → res.new ≡ quotient_mul A.ops D (binomial A.ops D (A.embed w)) a.now b.now }
    ensures added { IsFalse (has_fixed_formula D) → res.new ≡ quotient_add A.ops D res.old (quotient_mul A.ops D (binomial A.ops D (A.embed w)) a.now b.now) }
{
    if !fixed_mul::<F, A, D>(a, b, res, w) {
        general_mul::<F, A, D>(a, b, res, w);
    }
}

/// The product of two lists of D coefficients modulo `X^D - W`, the second ones embedded. At
/// degrees 2, 3, 4, 5 and 8 `res` becomes the product, by a fixed formula; at every other degree
/// the product is added to what `res` holds. Upstream's `binomial_mul`.
#[inline]
pub fn binomial_mul<F, R, R2, const D: usize>(a: &[R], b: &[R2], res: &mut [R], w: F)
where
    F: PrimeCharacteristicRing,
    R2: PrimeCharacteristicRing,
    R: Algebra<F> + Algebra<R2>,
    requires degree { 1 ≤ D }
    requires left { length a.now ≡ D }
    requires right { length b.now ≡ D }
    requires room { length res.old ≡ D }
    ensures becomes { IsTrue (has_fixed_formula D) → res.new ≡ quotient_mul R.ops D (binomial R.ops D (⟦<R as Algebra<F>>⟧.embed w)) a.now (map ⟦<R as Algebra<R2>>⟧.embed b.now) }
    ensures added { IsFalse (has_fixed_formula D) → res.new ≡ quotient_add R.ops D res.old (quotient_mul R.ops D (binomial R.ops D (⟦<R as Algebra<F>>⟧.embed w)) a.now (map ⟦<R as Algebra<R2>>⟧.embed b.now)) }
{
    let mut embedded = [R::zero(); D];
    embed_entries(b, &mut embedded);
    algebra_mul::<F, R, D>(a, &embedded, res, w);
}

/// Writes the square modulo `X^D - W` at a degree that has a formula of its own; whether it has one.
#[inline]
fn fixed_square<F: PrimeCharacteristicRing, A: Algebra<F>, const D: usize>(
    a: &[A],
    res: &mut [A],
    w: F,
) -> bool
    requires input { length a.now ≡ D }
    requires room { length res.old ≡ D }
    ensures formula { result ≡ has_fixed_formula D }
    ensures product { IsTrue result → res.new ≡ quotient_mul A.ops D (binomial A.ops D (A.embed w)) a.now a.now }
    ensures kept { IsFalse result → res.new ≡ res.old }
{
    match D {
        2 => quadratic_square(a, res, w),
        3 => cubic_square(a, res, w),
        4 => quartic_square(a, res, w),
        5 => quintic_square(a, res, w),
        8 => octic_square(a, res, w),
        _ => return false,
    }
    true
}

/// The square of a list of D coefficients modulo `X^D - W`, in the coefficient of `binomial_mul` with
/// itself. Upstream's `binomial_square`.
#[inline]
pub fn binomial_square<F: PrimeCharacteristicRing, A: Algebra<F>, const D: usize>(
    a: &[A],
    res: &mut [A],
    w: F,
)
    requires degree { 1 ≤ D }
    requires input { length a.now ≡ D }
    requires room { length res.old ≡ D }
    ensures becomes { IsTrue (has_fixed_formula D) → res.new ≡ quotient_mul A.ops D (binomial A.ops D (A.embed w)) a.now a.now }
    ensures added { IsFalse (has_fixed_formula D) → res.new ≡ quotient_add A.ops D res.old (quotient_mul A.ops D (binomial A.ops D (A.embed w)) a.now a.now) }
{
    if !fixed_square::<F, A, D>(a, res, w) {
        general_mul::<F, A, D>(a, a, res, w);
    }
}

/// Writes zero at each index.
#[inline]
fn clear<A: PrimeCharacteristicRing>(res: &mut [A])
    ensures { res.new ≡ replicate (length res.old) A.ops.zero }
{
    for i in 0..res.len() {
        res[i] = A::zero();
    }
}

/// The product modulo `X^D - W`, whatever `res` held: what an `ext_product` of a binomial shape
/// is. This project's own.
#[inline(always)]
pub fn binomial_product<F: PrimeCharacteristicRing, A: Algebra<F>, const D: usize>(
    a: &[A],
    b: &[A],
    res: &mut [A],
    w: F,
)
    requires degree { 1 ≤ D }
    requires left { length a.now ≡ D }
    requires right { length b.now ≡ D }
    requires room { length res.old ≡ D }
    ensures { res.new ≡ quotient_mul A.ops D (binomial A.ops D (A.embed w)) a.now b.now }
{
    if !fixed_mul::<F, A, D>(a, b, res, w) {
        clear(res);
        general_mul::<F, A, D>(a, b, res, w);
    }
}

/// `binomial_product` by an element W of the ring itself: one bound in coefficient of two, since each
/// bound costs a check at the type of an extension. This project's own.
#[inline(always)]
pub fn ring_product<R: PrimeCharacteristicRing, const D: usize>(
    a: &[R],
    b: &[R],
    res: &mut [R],
    w: R,
)
    requires degree { 1 ≤ D }
    requires left { length a.now ≡ D }
    requires right { length b.now ≡ D }
    requires room { length res.old ≡ D }
    ensures { res.new ≡ quotient_mul R.ops D (binomial R.ops D w) a.now b.now }
{
    binomial_product::<R, R, D>(a, b, res, w);
}

/// `binomial_square` by an element W of the ring itself, where `res` is all zero before. This
/// project's own.
#[inline]
pub fn ring_square<R: PrimeCharacteristicRing, const D: usize>(a: &[R], res: &mut [R], w: R)
    requires degree { 1 ≤ D }
    requires input { length a.now ≡ D }
    requires zeroed { res.old ≡ replicate D R.ops.zero }
    ensures { res.new ≡ quotient_mul R.ops D (binomial R.ops D w) a.now a.now }
{
    binomial_square::<R, R, D>(a, res, w);
}

/// What the fixed formula of a degree says of the inverse of a list of coefficients. This
/// project's own.
#[derive(Clone, Copy)]
pub enum InverseByFormula {
    /// The degree has no formula.
    NoFormula,
    /// There is an inverse, and the formula wrote it.
    Found,
    /// There is no inverse.
    NoInverse,
}

/// What a formula found, by whether it found an inverse.
#[inline]
fn formula_answer(found: bool) -> InverseByFormula
    ensures inverse { result ≡ InverseByFormula.Found → IsTrue found }
    ensures none { result ≡ InverseByFormula.NoInverse → IsFalse found }
{
    if found {
        InverseByFormula::Found
    } else {
        InverseByFormula::NoInverse
    }
}

/// The inverse modulo `X^D - W` by the fixed formula of the degree: at 2, 3, 4 and 8.
#[inline]
pub fn binomial_inv<F: Field, const D: usize>(a: &[F], res: &mut [F], w: F) -> InverseByFormula
    requires input { length a.now ≡ D }
    requires room { length res.old ≡ D }
    ensures inverse { result ≡ InverseByFormula.Found → IsInverse (quotient_ops F.ops D (binomial F.ops D w)) a.now res.new }
    ensures none { result ≡ InverseByFormula.NoInverse → HasNoInverse F.ops D (binomial F.ops D w) a.now }
{
    match D {
        2 => formula_answer(quadratic_inv(a, res, w)),
        3 => formula_answer(cubic_inv(a, res, w)),
        4 => formula_answer(quartic_inv(a, res, w)),
        8 => formula_answer(octic_inv(a, res, w)),
        _ => InverseByFormula::NoFormula,
    }
}

/// Each coefficient times its power of the power `count` of `root`.
#[inline]
pub fn scale_by_repeated_powers<F: PrimeCharacteristicRing>(
    a: &[F],
    root: F,
    count: usize,
    res: &mut [F],
)
    requires { length res.old ≡ length a.now }
    ensures { res.new ≡ scale_powers F.ops (length a.now) (power F.ops root count) a.now }
{
    let repeated = root.exp_u64(count as u64);
    scale_by_powers(a, repeated, res);
}

/// Each coefficient times its power of `root`.
#[inline]
pub fn scale_by_powers<F: PrimeCharacteristicRing>(a: &[F], root: F, res: &mut [F])
    requires { length res.old ≡ length a.now }
    ensures { res.new ≡ scale_powers F.ops (length a.now) root a.now }
{
    let mut power = F::one();
    for i in 0..res.len() {
        let scaled = a[i] * power;
        res[i] = scaled;
        power = power * root;
    }
}

/// The sum `x * t + y * z`, where `outer` is `x * z` and `inner` is `y * t`, by one product more:
/// Karatsuba's method.
#[inline]
fn cross_sum<A: PrimeCharacteristicRing>(x: A, y: A, z: A, t: A, outer: A, inner: A) -> A
    ensures { result ≡ subtract A.ops (subtract A.ops (A.ops.mul (A.ops.add x y) (A.ops.add z t)) outer) inner }
{
    let left = x + y;
    let right = z + t;
    let whole = left * right;
    let rest = whole - outer;
    rest - inner
}

/// The product of two linear polynomials modulo `X^2 - W`.
#[inline]
pub fn quadratic_mul<F: PrimeCharacteristicRing, A: Algebra<F>>(
    a: &[A],
    b: &[A],
    res: &mut [A],
    w: F,
)
    requires left { length a.now ≡ 2 }
    requires right { length b.now ≡ 2 }
    requires room { length res.old ≡ 2 }
    ensures { res.new ≡ quotient_mul A.ops 2 (binomial A.ops 2 (A.embed w)) a.now b.now }
{
    let a0 = a[0];
    let a1 = a[1];
    let b0 = b[0];
    let b1 = b[1];
    let b1_w = b1 * w;
    let constant = a0 * b0;
    let folded = a1 * b1_w;
    let outer = a0 * b1;
    let inner = a1 * b0;
    let low = constant + folded;
    let high = outer + inner;
    res[0] = low;
    res[1] = high;
}

/// The square of a linear polynomial modulo `X^2 - W`.
#[inline]
pub fn quadratic_square<F: PrimeCharacteristicRing, A: Algebra<F>>(a: &[A], res: &mut [A], w: F)
    requires input { length a.now ≡ 2 }
    requires room { length res.old ≡ 2 }
    ensures { res.new ≡ quotient_mul A.ops 2 (binomial A.ops 2 (A.embed w)) a.now a.now }
{
    A::quadratic_extension_square(a, w, res);
}

/// Whether a list of two coefficients has an inverse modulo `X^2 - W`, which `res` then is: the
/// conjugate divided by the norm. Upstream's `quadratic_inv`.
#[inline]
pub fn quadratic_inv<F: Field>(a: &[F], res: &mut [F], w: F) -> bool
    requires input { length a.now ≡ 2 }
    requires room { length res.old ≡ 2 }
    ensures inverse { IsTrue result → IsInverse (quotient_ops F.ops 2 (binomial F.ops 2 w)) a.now res.new }
    ensures none { IsFalse result → HasNoInverse F.ops 2 (binomial F.ops 2 w) a.now }
{
    let a0 = a[0];
    let a1 = a[1];
    let neg_a1 = -a1;
    let w_a1 = w * a1;
    let norm = array_dot_product([a0, neg_a1], [a0, w_a1]);
    let Some(scalar) = norm.try_inverse() else {
        return false;
    };
    let c0 = a0 * scalar;
    let c1 = neg_a1 * scalar;
    write_entries([c0, c1], res);
    true
}

/// The sum of the products of two lists of N coefficients, index by index: `dot_product`, with the
/// lists by value.
#[inline]
pub(crate) fn array_dot_product<A: PrimeCharacteristicRing, const N: usize>(
    left: [A; N],
    right: [A; N],
) -> A
    ensures { result ≡ dot A.ops left right }
{
    A::dot_product(&left, &right)
}

/// Three values, each times W.
#[inline]
fn scale_three<F: Copy, A: Copy + Mul<F, Output = A>>(x: (A, A, A), w: F) -> (A, A, A)
    requires { (x : A) (v : F) → ⟦<A as Mul<F>>⟧.can_mul x v }
    ensures first { ⟦<A as Mul<F>>⟧.mul_gives x.0 w result.0 }
    ensures second { ⟦<A as Mul<F>>⟧.mul_gives x.1 w result.1 }
    ensures third { ⟦<A as Mul<F>>⟧.mul_gives x.2 w result.2 }
{
    let w_x0 = x.0 * w;
    let w_x1 = x.1 * w;
    let w_x2 = x.2 * w;
    (w_x0, w_x1, w_x2)
}

/// Four values, each times W.
#[inline]
fn scale_four<F: Copy, A: Copy + Mul<F, Output = A>>(x: (A, A, A, A), w: F) -> (A, A, A, A)
    requires { (x : A) (v : F) → ⟦<A as Mul<F>>⟧.can_mul x v }
    ensures first { ⟦<A as Mul<F>>⟧.mul_gives x.0 w result.0 }
    ensures second { ⟦<A as Mul<F>>⟧.mul_gives x.1 w result.1 }
    ensures third { ⟦<A as Mul<F>>⟧.mul_gives x.2 w result.2 }
    ensures fourth { ⟦<A as Mul<F>>⟧.mul_gives x.3 w result.3 }
{
    let w_x0 = x.0 * w;
    let w_x1 = x.1 * w;
    let w_x2 = x.2 * w;
    let w_x3 = x.3 * w;
    (w_x0, w_x1, w_x2, w_x3)
}

/// Three values, each doubled.
#[inline]
pub(crate) fn double_three<A: PrimeCharacteristicRing>(x: (A, A, A)) -> (A, A, A)
    ensures first { result.0 ≡ A.ops.add x.0 x.0 }
    ensures second { result.1 ≡ A.ops.add x.1 x.1 }
    ensures third { result.2 ≡ A.ops.add x.2 x.2 }
{
    (x.0.double(), x.1.double(), x.2.double())
}

/// Four values, each doubled.
#[inline]
pub(crate) fn double_four<A: PrimeCharacteristicRing>(x: (A, A, A, A)) -> (A, A, A, A)
    ensures first { result.0 ≡ A.ops.add x.0 x.0 }
    ensures second { result.1 ≡ A.ops.add x.1 x.1 }
    ensures third { result.2 ≡ A.ops.add x.2 x.2 }
    ensures fourth { result.3 ≡ A.ops.add x.3 x.3 }
{
    (x.0.double(), x.1.double(), x.2.double(), x.3.double())
}

/// The product of two lists of three coefficients modulo `X^3 - W`, by Karatsuba's method.
#[inline]
pub fn cubic_mul<F: PrimeCharacteristicRing, A: Algebra<F>>(a: &[A], b: &[A], res: &mut [A], w: F)
    requires left { length a.now ≡ 3 }
    requires right { length b.now ≡ 3 }
    requires room { length res.old ≡ 3 }
    ensures { res.new ≡ quotient_mul A.ops 3 (binomial A.ops 3 (A.embed w)) a.now b.now }
{
    let (a0, a1, a2) = three_from(a, 0);
    let (b0, b1, b2) = three_from(b, 0);
    let a0_b0 = a0 * b0;
    let a1_b1 = a1 * b1;
    let a2_b2 = a2 * b2;
    let cross_12 = cross_sum(a1, a2, b1, b2, a1_b1, a2_b2);
    let cross_01 = cross_sum(a0, a1, b0, b1, a0_b0, a1_b1);
    let cross_02 = cross_sum(a0, a2, b0, b2, a0_b0, a2_b2);
    let cross_12_w = cross_12 * w;
    let a2_b2_w = a2_b2 * w;
    let c0 = a0_b0 + cross_12_w;
    let c1 = cross_01 + a2_b2_w;
    let c2 = cross_02 + a1_b1;
    write_entries([c0, c1, c2], res);
}

/// The square of a list of three coefficients modulo `X^3 - W`.
#[inline]
pub fn cubic_square<F: PrimeCharacteristicRing, A: Algebra<F>>(a: &[A], res: &mut [A], w: F)
    requires input { length a.now ≡ 3 }
    requires room { length res.old ≡ 3 }
    ensures { res.new ≡ quotient_mul A.ops 3 (binomial A.ops 3 (A.embed w)) a.now a.now }
{
    let (a0, a1, a2) = three_from(a, 0);
    let a2_w = a2 * w;
    let a0_a0 = a0.square();
    let a1_a1 = a1.square();
    let a1_a2_w = a1 * a2_w;
    let a2_a2_w = a2_w * a2;
    let a0_a1 = a0 * a1;
    let a0_a2 = a0 * a2;
    let (two_a1_a2_w, two_a0_a1, two_a0_a2) = double_three((a1_a2_w, a0_a1, a0_a2));
    let c0 = a0_a0 + two_a1_a2_w;
    let c1 = a2_a2_w + two_a0_a1;
    let c2 = a1_a1 + two_a0_a2;
    write_entries([c0, c1, c2], res);
}

/// What the cubes give to the norm of `a0 + a1 X + a2 X^2` modulo `X^3 - W`, from the squares of
/// `a0` and `a1`, and W times `a2`.
#[inline]
fn cubic_cubes<F: PrimeCharacteristicRing>(a: (F, F, F), squares: (F, F), a2_w: F, w: F) -> F
    ensures { result ≡ F.ops.add (F.ops.add (F.ops.mul squares.0 a.0) (F.ops.mul (F.ops.mul w a.1) squares.1)) (F.ops.mul (F.ops.mul a2_w a2_w) a.2) }
{
    let w_a1 = w * a.1;
    let a2_w_square = a2_w.square();
    let first = squares.0 * a.0;
    let second = w_a1 * squares.1;
    let third = a2_w_square * a.2;
    let two_cubes = first + second;
    two_cubes + third
}

/// What the norm of a list of three coefficients takes off the cubes: three times their product and
/// W, where the products are of two factors each.
#[inline]
fn cubic_cross<F: PrimeCharacteristicRing>(a2_w: F, a0_a1: F) -> F
    ensures { result ≡ F.ops.mul (F.ops.mul (F.ops.add F.ops.one (two F.ops)) a2_w) a0_a1 }
{
    let three = F::one() + F::two();
    let three_a2_w = three * a2_w;
    three_a2_w * a0_a1
}

/// The product of the two conjugates of a list of three coefficients, times `scalar`.
#[inline]
fn cubic_rest<F: PrimeCharacteristicRing>(
    a: (F, F, F),
    squares: (F, F),
    a2_w: F,
    a0_a1: F,
    scalar: F,
) -> (F, F, F)
    ensures first { result.0 ≡ F.ops.mul scalar (subtract F.ops squares.0 (F.ops.mul a.1 a2_w)) }
    ensures second { result.1 ≡ F.ops.mul scalar (subtract F.ops (F.ops.mul a2_w a.2) a0_a1) }
    ensures third { result.2 ≡ F.ops.mul scalar (subtract F.ops squares.1 (F.ops.mul a.0 a.2)) }
{
    let a1_a2_w = a.1 * a2_w;
    let a2_a2_w = a2_w * a.2;
    let a0_a2 = a.0 * a.2;
    let rest_0 = squares.0 - a1_a2_w;
    let rest_1 = a2_a2_w - a0_a1;
    let rest_2 = squares.1 - a0_a2;
    let c0 = scalar * rest_0;
    let c1 = scalar * rest_1;
    let c2 = scalar * rest_2;
    (c0, c1, c2)
}

/// Whether a list of three coefficients has an inverse modulo `X^3 - W`, which `res` then is: the
/// product of the two conjugates divided by the norm. Upstream's `cubic_inv`.
#[inline]
pub fn cubic_inv<F: Field>(a: &[F], res: &mut [F], w: F) -> bool
    requires input { length a.now ≡ 3 }
    requires room { length res.old ≡ 3 }
    ensures inverse { IsTrue result → IsInverse (quotient_ops F.ops 3 (binomial F.ops 3 w)) a.now res.new }
    ensures none { IsFalse result → HasNoInverse F.ops 3 (binomial F.ops 3 w) a.now }
{
    let (a0, a1, a2) = three_from(a, 0);
    let a0_square = a0.square();
    let a1_square = a1.square();
    let squares = (a0_square, a1_square);
    let a2_w = w * a2;
    let a0_a1 = a0 * a1;
    let cubes = cubic_cubes((a0, a1, a2), squares, a2_w, w);
    let cross = cubic_cross(a2_w, a0_a1);
    let norm = cubes - cross;
    let Some(scalar) = norm.try_inverse() else {
        return false;
    };
    let (c0, c1, c2) = cubic_rest((a0, a1, a2), squares, a2_w, a0_a1, scalar);
    write_entries([c0, c1, c2], res);
    true
}

/// The product of two lists of four coefficients modulo `X^4 - W`. Always inlined, as `general_mul` is.
#[inline(always)]
pub fn quartic_product<F: PrimeCharacteristicRing, A: Algebra<F>>(
    a: &[A],
    b: &[A],
    res: &mut [A],
    w: F,
)
    requires left { length a.now ≡ 4 }
    requires right { length b.now ≡ 4 }
    requires room { length res.old ≡ 4 }
    ensures { res.new ≡ quotient_mul A.ops 4 (binomial A.ops 4 (A.embed w)) a.now b.now }
{
    let (a0, a1, a2, a3) = (a[0], a[1], a[2], a[3]);
    let (b0, b1, b2, b3) = (b[0], b[1], b[2], b[3]);
    let b1_w = b1 * w;
    let b2_w = b2 * w;
    let b3_w = b3 * w;
    let left = [a0, a1, a2, a3];
    let c0 = array_dot_product(left, [b0, b3_w, b2_w, b1_w]);
    let c1 = array_dot_product(left, [b1, b0, b3_w, b2_w]);
    let c2 = array_dot_product(left, [b2, b1, b0, b3_w]);
    let c3 = array_dot_product(left, [b3, b2, b1, b0]);
    res[0] = c0;
    res[1] = c1;
    res[2] = c2;
    res[3] = c3;
}

/// The product of two lists of four coefficients modulo `X^4 - W`, the second ones embedded.
/// Upstream's `quartic_mul`.
#[inline]
pub fn quartic_mul<F, R, R2>(a: &[R], b: &[R2], res: &mut [R], w: F)
where
    F: PrimeCharacteristicRing,
    R2: PrimeCharacteristicRing,
    R: Algebra<F> + Algebra<R2>,
    requires left { length a.now ≡ 4 }
    requires right { length b.now ≡ 4 }
    requires room { length res.old ≡ 4 }
    ensures { res.new ≡ quotient_mul R.ops 4 (binomial R.ops 4 (⟦<R as Algebra<F>>⟧.embed w)) a.now (map ⟦<R as Algebra<R2>>⟧.embed b.now) }
{
    let mut embedded = [R::zero(); 4];
    embed_entries(b, &mut embedded);
    quartic_product(a, &embedded, res, w);
}

/// The square of a list of four coefficients modulo `X^4 - W`.
#[inline]
pub fn quartic_square<F: PrimeCharacteristicRing, A: Algebra<F>>(a: &[A], res: &mut [A], w: F)
    requires input { length a.now ≡ 4 }
    requires room { length res.old ≡ 4 }
    ensures { res.new ≡ quotient_mul A.ops 4 (binomial A.ops 4 (A.embed w)) a.now a.now }
{
    let (a0, a1, a2, a3) = four_from(a, 0);
    let (two_a0, two_a1, two_a2) = double_three((a0, a1, a2));
    let a2_w = a2 * w;
    let a3_w = a3 * w;
    let c0 = array_dot_product([a0, a2_w, two_a1], [a0, a2, a3_w]);
    let c1 = array_dot_product([two_a0, two_a2], [a1, a3_w]);
    let c2 = array_dot_product([a1, a3_w, two_a0], [a1, a3, a2]);
    let c3 = array_dot_product([two_a0, two_a2], [a3, a1]);
    write_entries([c0, c1, c2, c3], res);
}

/// The conjugate of `even + odd * X` as one list: the items of `even`, and those of `odd` negated,
/// in turn.
#[inline]
fn write_conjugate<F: PrimeCharacteristicRing>(even: &[F], odd: &[F], res: &mut [F])
    requires halves { length odd.now ≡ length even.now }
    requires room { length res.old ≡ length even.now + length even.now }
    ensures { res.new ≡ interleave even.now (quotient_neg F.ops (length even.now) odd.now) }
{
    for i in 0..even.len() {
        let negated = -odd[i];
        res[2 * i] = even[i];
        res[2 * i + 1] = negated;
    }
}

/// The norm modulo `Y^2 - W` of the even and odd indices of four coefficients.
#[inline]
fn quartic_norm<F: PrimeCharacteristicRing>(a: [F; 4], w: F) -> [F; 2]
    ensures { result ≡ norm_by_halves F.ops 2 w (F.ops.zero ∷ F.ops.one ∷ []) (at F.ops a 0 ∷ at F.ops a 2 ∷ []) (at F.ops a 1 ∷ at F.ops a 3 ∷ []) }
{
    let (a0, a1, a2, a3) = four_from(&a, 0);
    let neg_a1 = -a1;
    let neg_a3 = -a3;
    let two_neg_a1 = neg_a1.double();
    let two_a2 = a2.double();
    let a2_w = a2 * w;
    let a3_w = a3 * w;
    let norm_0 = array_dot_product([a0, a2, two_neg_a1], [a0, a2_w, a3_w]);
    let norm_1 = array_dot_product([a0, a1, neg_a3], [two_a2, neg_a1, a3_w]);
    [norm_0, norm_1]
}

/// The product of two linear polynomials modulo `X^2 - W`, by value.
#[inline]
fn product_at_two<F: PrimeCharacteristicRing>(a: [F; 2], b: [F; 2], w: F) -> [F; 2]
    ensures { result ≡ quotient_mul F.ops 2 (binomial F.ops 2 w) a b }
{
    let mut res = [F::zero(); 2];
    quadratic_mul(&a, &b, &mut res, w);
    res
}

/// Whether a list of four coefficients has an inverse modulo `X^4 - W`, which `res` then is: the
/// conjugate of its even and odd indices divided by their norm modulo `Y^2 - W`. Upstream's
/// `quartic_inv`.
#[inline]
pub fn quartic_inv<F: Field>(a: &[F], res: &mut [F], w: F) -> bool
    requires input { length a.now ≡ 4 }
    requires room { length res.old ≡ 4 }
    ensures inverse { IsTrue result → IsInverse (quotient_ops F.ops 4 (binomial F.ops 4 w)) a.now res.new }
    ensures none { IsFalse result → HasNoInverse F.ops 4 (binomial F.ops 4 w) a.now }
{
    let (a0, a1, a2, a3) = four_from(a, 0);
    let norm = quartic_norm([a0, a1, a2, a3], w);
    let mut norm_inv = [F::zero(); 2];
    if !quadratic_inv(&norm, &mut norm_inv, w) {
        return false;
    }
    let even = product_at_two([a0, a2], norm_inv, w);
    let odd = product_at_two([a1, a3], norm_inv, w);
    write_conjugate(&even, &odd, res);
    true
}

/// The product of two lists of five coefficients modulo `X^5 - W`.
#[inline]
pub fn quintic_product<F: PrimeCharacteristicRing, A: Algebra<F>>(
    a: &[A],
    b: &[A],
    res: &mut [A],
    w: F,
)
    requires left { length a.now ≡ 5 }
    requires right { length b.now ≡ 5 }
    requires room { length res.old ≡ 5 }
    ensures { res.new ≡ quotient_mul A.ops 5 (binomial A.ops 5 (A.embed w)) a.now b.now }
{
    let left = entries_of::<A, 5>(a);
    let b0 = b[0];
    let (b1, b2, b3, b4) = four_from(b, 1);
    let (b1_w, b2_w, b3_w, b4_w) = scale_four((b1, b2, b3, b4), w);
    let c0 = array_dot_product(left, [b0, b4_w, b3_w, b2_w, b1_w]);
    let c1 = array_dot_product(left, [b1, b0, b4_w, b3_w, b2_w]);
    let c2 = array_dot_product(left, [b2, b1, b0, b4_w, b3_w]);
    let c3 = array_dot_product(left, [b3, b2, b1, b0, b4_w]);
    let c4 = array_dot_product(left, [b4, b3, b2, b1, b0]);
    write_entries([c0, c1, c2, c3, c4], res);
}

/// The product of two lists of five coefficients modulo `X^5 - W`, the second ones embedded.
/// Upstream's `quintic_mul`.
#[inline]
pub fn quintic_mul<F, R, R2>(a: &[R], b: &[R2], res: &mut [R], w: F)
where
    F: PrimeCharacteristicRing,
    R2: PrimeCharacteristicRing,
    R: Algebra<F> + Algebra<R2>,
    requires left { length a.now ≡ 5 }
    requires right { length b.now ≡ 5 }
    requires room { length res.old ≡ 5 }
    ensures { res.new ≡ quotient_mul R.ops 5 (binomial R.ops 5 (⟦<R as Algebra<F>>⟧.embed w)) a.now (map ⟦<R as Algebra<R2>>⟧.embed b.now) }
{
    let mut embedded = [R::zero(); 5];
    embed_entries(b, &mut embedded);
    quintic_product(a, &embedded, res, w);
}

/// The square of a list of five coefficients modulo `X^5 - W`.
#[inline]
pub fn quintic_square<F: PrimeCharacteristicRing, A: Algebra<F>>(a: &[A], res: &mut [A], w: F)
    requires input { length a.now ≡ 5 }
    requires room { length res.old ≡ 5 }
    ensures { res.new ≡ quotient_mul A.ops 5 (binomial A.ops 5 (A.embed w)) a.now a.now }
{
    let (a0, a1, a2, a3) = four_from(a, 0);
    let a4 = a[4];
    let (two_a0, two_a1, two_a2, two_a3) = double_four((a0, a1, a2, a3));
    let w_a3 = a3 * w;
    let w_a4 = a4 * w;
    let c0 = array_dot_product([a0, w_a4, w_a3], [a0, two_a1, two_a2]);
    let c1 = array_dot_product([w_a3, two_a0, w_a4], [a3, a1, two_a2]);
    let c2 = array_dot_product([a1, two_a0, w_a4], [a1, a2, two_a3]);
    let c3 = array_dot_product([w_a4, two_a0, two_a1], [a4, a3, a2]);
    let c4 = array_dot_product([a2, two_a0, two_a1], [a2, a4, a3]);
    write_entries([c0, c1, c2, c3, c4], res);
}

/// Four coefficients one after the other of a product with `left` of degree 8: the dot products
/// with the eight entries up to each of the four in `first`, the last one of these before it. Before
/// `first` stand `second`, and before those `third`.
#[inline]
fn octic_coefficients<A: PrimeCharacteristicRing>(
    left: [A; 8],
    first: (A, A, A, A),
    second: (A, A, A, A),
    third: (A, A, A),
) -> (A, A, A, A)
    ensures first { result.0 ≡ dot A.ops left (first.0 ∷ second.3 ∷ second.2 ∷ second.1 ∷ second.0 ∷ third.2 ∷ third.1 ∷ third.0 ∷ []) }
    ensures second { result.1 ≡ dot A.ops left (first.1 ∷ first.0 ∷ second.3 ∷ second.2 ∷ second.1 ∷ second.0 ∷ third.2 ∷ third.1 ∷ []) }
    ensures third { result.2 ≡ dot A.ops left (first.2 ∷ first.1 ∷ first.0 ∷ second.3 ∷ second.2 ∷ second.1 ∷ second.0 ∷ third.2 ∷ []) }
    ensures fourth { result.3 ≡ dot A.ops left (first.3 ∷ first.2 ∷ first.1 ∷ first.0 ∷ second.3 ∷ second.2 ∷ second.1 ∷ second.0 ∷ []) }
{
    let (x1, x2, x3) = third;
    let (y0, y1, y2, y3) = second;
    let (z0, z1, z2, z3) = first;
    let c0 = array_dot_product(left, [z0, y3, y2, y1, y0, x3, x2, x1]);
    let c1 = array_dot_product(left, [z1, z0, y3, y2, y1, y0, x3, x2]);
    let c2 = array_dot_product(left, [z2, z1, z0, y3, y2, y1, y0, x3]);
    let c3 = array_dot_product(left, [z3, z2, z1, z0, y3, y2, y1, y0]);
    (c0, c1, c2, c3)
}

/// The product of two lists of eight coefficients modulo `X^8 - W`. Always inlined, as `general_mul` is.
#[inline(always)]
pub fn octic_product<F: PrimeCharacteristicRing, A: Algebra<F>>(
    a: &[A],
    b: &[A],
    res: &mut [A],
    w: F,
)
    requires left { length a.now ≡ 8 }
    requires right { length b.now ≡ 8 }
    requires room { length res.old ≡ 8 }
    ensures { res.new ≡ quotient_mul A.ops 8 (binomial A.ops 8 (A.embed w)) a.now b.now }
{
    let left = entries_of::<A, 8>(a);
    let low = four_from(b, 0);
    let high = four_from(b, 4);
    let (w_b1, w_b2, w_b3) = scale_three((low.1, low.2, low.3), w);
    let (w_b4, w_b5, w_b6, w_b7) = scale_four(high, w);
    let (c0, c1, c2, c3) = octic_coefficients(
        left,
        low,
        (w_b4, w_b5, w_b6, w_b7),
        (w_b1, w_b2, w_b3),
    );
    let (c4, c5, c6, c7) = octic_coefficients(left, high, low, (w_b5, w_b6, w_b7));
    write_entries([c0, c1, c2, c3, c4, c5, c6, c7], res);
}

/// The product of two lists of eight coefficients modulo `X^8 - W`, the second ones embedded.
/// Upstream's `octic_mul`.
#[inline]
pub fn octic_mul<F, R, R2>(a: &[R], b: &[R2], res: &mut [R], w: F)
where
    F: PrimeCharacteristicRing,
    R2: PrimeCharacteristicRing,
    R: Algebra<F> + Algebra<R2>,
    requires left { length a.now ≡ 8 }
    requires right { length b.now ≡ 8 }
    requires room { length res.old ≡ 8 }
    ensures { res.new ≡ quotient_mul R.ops 8 (binomial R.ops 8 (⟦<R as Algebra<F>>⟧.embed w)) a.now (map ⟦<R as Algebra<R2>>⟧.embed b.now) }
{
    let mut embedded = [R::zero(); 8];
    embed_entries(b, &mut embedded);
    octic_product(a, &embedded, res, w);
}

/// The square of a list of eight coefficients modulo `X^8 - W`.
#[inline]
pub fn octic_square<F: PrimeCharacteristicRing, A: Algebra<F>>(a: &[A], res: &mut [A], w: F)
    requires input { length a.now ≡ 8 }
    requires room { length res.old ≡ 8 }
    ensures { res.new ≡ quotient_mul A.ops 8 (binomial A.ops 8 (A.embed w)) a.now a.now }
{
    let (a0, a1, a2, a3) = four_from(a, 0);
    let (a4, a5, a6, a7) = four_from(a, 4);
    let (a0_2, a1_2, a2_2, a3_2) = double_four((a0, a1, a2, a3));
    let (w_a4, w_a5, w_a6, w_a7) = scale_four((a4, a5, a6, a7), w);
    let (w_a5_2, w_a6_2, w_a7_2) = double_three((w_a5, w_a6, w_a7));
    let c0 = array_dot_product([a0, a1, a2, a3, a4], [a0, w_a7_2, w_a6_2, w_a5_2, w_a4]);
    let c1 = array_dot_product([a0_2, a2, a3, a4], [a1, w_a7_2, w_a6_2, w_a5_2]);
    let c2 = array_dot_product([a0_2, a1, a3, a4, a5], [a2, a1, w_a7_2, w_a6_2, w_a5]);
    let c3 = array_dot_product([a0_2, a1_2, a4, a5], [a3, a2, w_a7_2, w_a6_2]);
    let c4 = array_dot_product([a0_2, a1_2, a2, a5, a6], [a4, a3, a2, w_a7_2, w_a6]);
    let c5 = array_dot_product([a0_2, a1_2, a2_2, a6], [a5, a4, a3, w_a7_2]);
    let c6 = array_dot_product([a0_2, a1_2, a2_2, a3, a7], [a6, a5, a4, a3, w_a7]);
    let c7 = array_dot_product([a0_2, a1_2, a2_2, a3_2], [a7, a6, a5, a4]);
    write_entries([c0, c1, c2, c3, c4, c5, c6, c7], res);
}

/// The list `a` less Y times `b`, modulo `Y^4 - W`.
#[inline]
fn sub_shifted<F: PrimeCharacteristicRing>(a: [F; 4], b: [F; 4], w: F) -> [F; 4]
    ensures { result ≡ less_shifted F.ops w a b }
{
    let (a0, a1, a2, a3) = four_from(&a, 0);
    let (b0, b1, b2, b3) = four_from(&b, 0);
    let w_b3 = w * b3;
    let c0 = a0 - w_b3;
    let c1 = a1 - b0;
    let c2 = a2 - b1;
    let c3 = a3 - b2;
    [c0, c1, c2, c3]
}

/// The square of four coefficients modulo `X^4 - W`, by value.
#[inline]
fn square_at_four<F: PrimeCharacteristicRing>(a: [F; 4], w: F) -> [F; 4]
    ensures { result ≡ quotient_mul F.ops 4 (binomial F.ops 4 w) a a }
{
    let mut res = [F::zero(); 4];
    quartic_square(&a, &mut res, w);
    res
}

/// The product of two lists of four coefficients modulo `X^4 - W`, by value.
#[inline]
fn product_at_four<F: PrimeCharacteristicRing>(a: [F; 4], b: [F; 4], w: F) -> [F; 4]
    ensures { result ≡ quotient_mul F.ops 4 (binomial F.ops 4 w) a b }
{
    let mut res = [F::zero(); 4];
    quartic_product(&a, &b, &mut res, w);
    res
}

/// Whether a list of eight coefficients has an inverse modulo `X^8 - W`, which `res` then is: the
/// conjugate of its even and odd indices divided by their norm modulo `Y^4 - W`. Upstream's
/// `octic_inv`.
#[inline]
pub fn octic_inv<F: Field>(a: &[F], res: &mut [F], w: F) -> bool
    requires input { length a.now ≡ 8 }
    requires room { length res.old ≡ 8 }
    ensures inverse { IsTrue result → IsInverse (quotient_ops F.ops 8 (binomial F.ops 8 w)) a.now res.new }
    ensures none { IsFalse result → HasNoInverse F.ops 8 (binomial F.ops 8 w) a.now }
{
    let (a0, a1, a2, a3) = four_from(a, 0);
    let (a4, a5, a6, a7) = four_from(a, 4);
    let evens = [a0, a2, a4, a6];
    let odds = [a1, a3, a5, a7];
    let evens_square = square_at_four(evens, w);
    let odds_square = square_at_four(odds, w);
    let norm = sub_shifted(evens_square, odds_square, w);
    let mut norm_inv = [F::zero(); 4];
    if !quartic_inv(&norm, &mut norm_inv, w) {
        return false;
    }
    let even = product_at_four(evens, norm_inv, w);
    let odd = product_at_four(odds, norm_inv, w);
    write_conjugate(&even, &odd, res);
    true
}
