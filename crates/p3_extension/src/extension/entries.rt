//! Sums, differences and multiples of coefficient lists, entry by entry, under the operators alone.
ghost use Rattle.std.specs.Prelude.{◌≡◌, ℕ, length};
ghost use Rattle.p3_theory.specs.Rings.Ring.{Ops, subtract};
ghost use Rattle.p3_theory.specs.Rings.Operators.{Gives};
ghost use Rattle.p3_theory.specs.Polynomials.Polynomial.{quotient_add};
ghost use Rattle.p3_theory.specs.Polynomials.BaseProduct.{scaled};
ghost use Rattle.p3_extension_formulas.specs.Entries.{entrywise_difference};

use std::ops::{Add, Mul, Sub};

/// Writes the sums entry by entry.
#[inline]
pub(super) fn add_each<A: Copy + Add<Output = A>>(a: &[A], b: &[A], res: &mut [A])
    requires left { length a.now ≡ length res.old }
    requires right { length b.now ≡ length res.old }
    requires adds { (x y : A) → A.can_add x y }
    ensures { (D : ℕ) (o : Ops A) → length a.now ≡ D → Gives A.can_add A.add_gives o.add → res.new ≡ quotient_add o D a.now b.now }
{
    for i in 0..res.len() {
        let sum = a[i] + b[i];
        res[i] = sum;
    }
}

/// Writes the differences entry by entry.
#[inline]
pub(super) fn sub_each<A: Copy + Sub<Output = A>>(a: &[A], b: &[A], res: &mut [A])
    requires left { length a.now ≡ length res.old }
    requires right { length b.now ≡ length res.old }
    requires subs { (x y : A) → A.can_sub x y }
    ensures { (D : ℕ) (o : Ops A) → length a.now ≡ D → Gives A.can_sub A.sub_gives (subtract o) → res.new ≡ entrywise_difference o D a.now b.now }
{
    for i in 0..res.len() {
        let difference = a[i] - b[i];
        res[i] = difference;
    }
}

/// Writes each entry times one factor.
#[inline]
pub(super) fn scale_each<A: Copy + Mul<Output = A>>(a: &[A], factor: A, res: &mut [A])
    requires room { length a.now ≡ length res.old }
    requires muls { (x y : A) → A.can_mul x y }
    ensures { (D : ℕ) (o : Ops A) → length a.now ≡ D → Gives A.can_mul A.mul_gives o.mul → res.new ≡ scaled o D a.now factor }
{
    for i in 0..res.len() {
        let product = a[i] * factor;
        res[i] = product;
    }
}
