//! The traits of commutative rings and of algebras over them, with their default methods.
ghost use Rattle.std.specs.Prelude.{◌≡◌, ◌^◌, ℕ, if◌then◌else◌, IfOk, IsOk, length, map, replicate};
ghost use Rattle.p3_theory.specs.Rings.Ring.{Ops, RingLaws, Hom, Invertible, subtract};
ghost use Rattle.p3_theory.specs.Rings.BooleanForms.{xor, and_not, bool_check};
ghost use Rattle.p3_theory.specs.Rings.Powers.{power};
ghost use Rattle.p3_theory.specs.Polynomials.Polynomial.{quotient_mul, binomial};
ghost use Rattle.p3_theory.specs.Rings.Multiples.{of_nat, of_int, two};
ghost use Rattle.p3_theory.specs.Rings.DotProduct.{dot};
ghost use Rattle.p3_theory.specs.Lists.PairedLists.{zip_with};
ghost use Rattle.p3_ring.specs.ChunkLengths.{IsChunkLength};
ghost use Rattle.p3_theory.specs.Rings.Operators.{Gives, GivesOne, Folds, sum_list, product_list};

use crate::linear_combination::chunked_linear_combination;
use crate::powers::Powers;
use crate::strands::{multiply_entries, write_each_multiple};
use crate::sums::{sum_in_pairs, sum_of_products};
use p3_integers::integers::{IntegerQuotient, Quotient};
use std::alloc::{AllocError, Allocator, Global};
use std::iter::{Product, Sum};
use std::ops::{Add, AddAssign, Mul, MulAssign, Neg, Sub, SubAssign};

/// A commutative ring with one, whose prime subfield (the multiples of one) is a type of its own.
/// Upstream's `PrimeCharacteristicRing`. Whoever implements it proves the laws of a ring, and that
/// the operators of the language are its operations.
pub trait PrimeCharacteristicRing: Copy
    + Add<Output = Self>
    + AddAssign
    + Sub<Output = Self>
    + SubAssign
    + Neg<Output = Self>
    + Mul<Output = Self>
    + MulAssign {
    /// The values that stand for the multiples of one.
    type PrimeSubfield: IntegerQuotient;

    /// Zero, one, sum, negation and product.
    ghost ops: { Ops Self };

    /// The neutral element of addition.
    fn zero() -> Self
        ensures { result ≡ ops.zero };

    /// The neutral element of multiplication.
    fn one() -> Self
        ensures { result ≡ ops.one };

    /// One and one.
    #[inline]
    fn two() -> Self
        ensures { result ≡ two ops }
    {
        Self::one() + Self::one()
    }

    /// The negation of one.
    #[inline]
    final fn neg_one() -> Self
        ensures { result ≡ ops.neg ops.one }
    {
        -Self::one()
    }

    /// One, taken as many times as the value of the prime subfield says.
    fn from_prime_subfield(f: Self::PrimeSubfield) -> Self
        ensures { result ≡ of_nat ops (Self.PrimeSubfield.canon f) };

    /// One for true, and zero for false.
    #[inline]
    final fn from_bool(b: bool) -> Self
        ensures { result ≡ (if b then ops.one else ops.zero) }
    {
        if b { Self::one() } else { Self::zero() }
    }

    /// One, taken as many times as the integer says.
    #[inline]
    final fn from_u8(int: u8) -> Self
        ensures { result ≡ of_nat ops int }
    {
        let residue = Self::PrimeSubfield::of_integer::<u8>(int);
        Self::from_prime_subfield(residue)
    }

    /// One, taken as many times as the integer says.
    #[inline]
    final fn from_u16(int: u16) -> Self
        ensures { result ≡ of_nat ops int }
    {
        let residue = Self::PrimeSubfield::of_integer::<u16>(int);
        Self::from_prime_subfield(residue)
    }

    /// One, taken as many times as the integer says.
    #[inline]
    final fn from_u32(int: u32) -> Self
        ensures { result ≡ of_nat ops int }
    {
        let residue = Self::PrimeSubfield::of_integer::<u32>(int);
        Self::from_prime_subfield(residue)
    }

    /// One, taken as many times as the integer says.
    #[inline]
    final fn from_u64(int: u64) -> Self
        ensures { result ≡ of_nat ops int }
    {
        let residue = Self::PrimeSubfield::of_integer::<u64>(int);
        Self::from_prime_subfield(residue)
    }

    /// One, taken as many times as the integer says.
    #[inline]
    final fn from_u128(int: u128) -> Self
        ensures { result ≡ of_nat ops int }
    {
        let residue = Self::PrimeSubfield::of_integer::<u128>(int);
        Self::from_prime_subfield(residue)
    }

    /// One, taken as many times as the integer says.
    #[inline]
    final fn from_usize(int: usize) -> Self
        ensures { result ≡ of_nat ops int }
    {
        let residue = Self::PrimeSubfield::of_integer::<usize>(int);
        Self::from_prime_subfield(residue)
    }

    /// One, taken as many times as the integer says, and negated below zero.
    #[inline]
    final fn from_i8(int: i8) -> Self
        ensures { result ≡ of_int ops int }
    {
        let residue = Self::PrimeSubfield::of_integer::<i8>(int);
        Self::from_prime_subfield(residue)
    }

    /// One, taken as many times as the integer says, and negated below zero.
    #[inline]
    final fn from_i16(int: i16) -> Self
        ensures { result ≡ of_int ops int }
    {
        let residue = Self::PrimeSubfield::of_integer::<i16>(int);
        Self::from_prime_subfield(residue)
    }

    /// One, taken as many times as the integer says, and negated below zero.
    #[inline]
    final fn from_i32(int: i32) -> Self
        ensures { result ≡ of_int ops int }
    {
        let residue = Self::PrimeSubfield::of_integer::<i32>(int);
        Self::from_prime_subfield(residue)
    }

    /// One, taken as many times as the integer says, and negated below zero.
    #[inline]
    final fn from_i64(int: i64) -> Self
        ensures { result ≡ of_int ops int }
    {
        let residue = Self::PrimeSubfield::of_integer::<i64>(int);
        Self::from_prime_subfield(residue)
    }

    /// One, taken as many times as the integer says, and negated below zero.
    #[inline]
    final fn from_i128(int: i128) -> Self
        ensures { result ≡ of_int ops int }
    {
        let residue = Self::PrimeSubfield::of_integer::<i128>(int);
        Self::from_prime_subfield(residue)
    }

    /// One, taken as many times as the integer says, and negated below zero.
    #[inline]
    final fn from_isize(int: isize) -> Self
        ensures { result ≡ of_int ops int }
    {
        let residue = Self::PrimeSubfield::of_integer::<isize>(int);
        Self::from_prime_subfield(residue)
    }

    /// The sum of the value and itself.
    #[inline]
    final fn double(&self) -> Self
        ensures { result ≡ ops.add self.now self.now }
    {
        *self + *self
    }

    /// The half of the value, where two has an inverse: added to itself it is the value.
    fn halve(&self) -> Self
        requires { Invertible ops (two ops) }
        ensures { ops.add result result ≡ self.now };

    /// The product of the value and itself.
    #[inline]
    fn square(&self) -> Self
        ensures { result ≡ ops.mul self.now self.now }
    {
        *self * *self
    }

    /// The product of three copies of the value.
    #[inline]
    final fn cube(&self) -> Self
        ensures { result ≡ power ops self.now 3 }
    {
        self.square() * *self
    }

    /// The exclusive or of zeros and ones, which is `x + y - 2xy` at every x and y.
    #[inline]
    final fn xor(&self, y: &Self) -> Self
        ensures { result ≡ xor ops self.now y.now }
    {
        *self + *y - *self * y.double()
    }

    /// The exclusive or of the value and y, and then of that and z.
    #[inline]
    final fn xor3(&self, y: &Self, z: &Self) -> Self
        ensures { result ≡ xor ops (xor ops self.now y.now) z.now }
    {
        self.xor(y).xor(z)
    }

    /// The and of y and the value's negation at zeros and ones, which is `(1 - x)y` at every x and y.
    #[inline]
    final fn andn(&self, y: &Self) -> Self
        ensures { result ≡ and_not ops self.now y.now }
    {
        (Self::one() - *self) * *y
    }

    /// `x(x - 1)`, which is zero at zero and at one.
    #[inline]
    final fn bool_check(&self) -> Self
        ensures { result ≡ bool_check ops self.now }
    {
        *self * (*self - Self::one())
    }

    /// The product of `exponent` copies of the value, by binary powering; one at exponent 0.
    #[inline]
    fn exp_u64(&self, exponent: u64) -> Self
        ensures { result ≡ power ops self.now exponent }
    {
        let mut current = *self;
        let mut product = Self::one();
        let mut rest = exponent;
        while rest > 0 {
            if rest % 2 == 1 {
                product *= current;
            }
            current = current.square();
            rest /= 2;
        }
        product
    }

    /// The power `2^power_log` of the value, by as many squarings as `power_log` says.
    #[inline]
    final fn exp_power_of_2(&self, power_log: usize) -> Self
        ensures { result ≡ power ops self.now (2 ^ power_log) }
    {
        let mut power = *self;
        for _ in 0..power_log {
            power = power.square();
        }
        power
    }

    /// The value times two to the power `exponent`.
    #[inline]
    fn mul_2exp_u64(&self, exponent: u64) -> Self
        ensures { result ≡ ops.mul self.now (power ops (two ops) exponent) }
    {
        *self * Self::two().exp_u64(exponent)
    }

    /// The value divided by two to the power `exponent`, where two has an inverse.
    #[inline]
    fn div_2exp_u64(&self, exponent: u64) -> Self
        requires { Invertible ops (two ops) }
        ensures { ops.mul result (power ops (two ops) exponent) ≡ self.now }
    {
        let half = Self::one().halve();
        let scale = half.exp_u64(exponent);
        *self * scale
    }

    /// The endless sequence one, the value, its square, ..
    #[inline]
    final fn powers(&self) -> Powers<Self>
        ensures base { result.base ≡ self.now }
        ensures current { result.current ≡ ops.one }
    {
        self.shifted_powers(Self::one())
    }

    /// The endless sequence `start`, `start` times the value, `start` times its square, ..
    #[inline]
    final fn shifted_powers(&self, start: Self) -> Powers<Self>
        ensures base { result.base ≡ self.now }
        ensures current { result.current ≡ start }
    {
        Powers {
            base: *self,
            current: start,
        }
    }

    /// The sum of the products of two slices of one length, position by position.
    #[inline]
    fn dot_product(u: &[Self], v: &[Self]) -> Self
        requires { length u.now ≡ length v.now }
        ensures { result ≡ dot ops u.now v.now }
    {
        if u.is_empty() {
            return Self::zero();
        }
        let mut sum = u[0] * v[0];
        for i in 1..u.len() {
            let product = u[i] * v[i];
            sum += product;
        }
        sum
    }

    /// Whether `mul_slices` of such values goes by vectors: where it does, long lists of powers and of values to
    /// invert go by 32 products side by side, and long polynomials by blocks. This project's own.
    #[inline]
    fn multiplies_by_vectors(&self) -> bool {
        false
    }

    /// Multiplies each entry of the first slice by that of the second at its index. The slices have one
    /// length. This project's own.
    #[inline]
    fn mul_slices(slice_1: &mut [Self], slice_2: &[Self])
        requires { length slice_1.old ≡ length slice_2.now }
        ensures { slice_1.new ≡ zip_with ops.mul slice_1.old slice_2.now }
    {
        multiply_entries(slice_1, slice_2);
    }

    /// Writes each value times the factor to the entry of `out` at its index. The slices have one length. This
    /// project's own.
    #[inline]
    fn write_multiples(values: &[Self], factor: Self, out: &mut [Self])
        requires { length values.now ≡ length out.old }
        ensures { out.new ≡ map (λ x. ops.mul x factor) values.now }
    {
        write_each_multiple(values, factor, out);
    }

    /// A vector of `len` zeros; `Err` where the memory for them is refused.
    #[inline]
    final fn zero_vec(alloc: Global, len: usize) -> Result<Vec<Self>, AllocError>
        ensures zeros { IfOk result (λ zeros. zeros.items ≡ replicate len ops.zero) }
        ensures empty { len ≡ 0 → IsOk result }
    {
        Self::zero_vec_in(alloc, len)
    }

    /// `zero_vec` in any allocator. It asks for memory once, and for length 0 not at all. This
    /// project's own.
    #[inline]
    final fn zero_vec_in<A: Allocator + Copy>(
        alloc: A,
        len: usize,
    ) -> Result<Vec<Self, A>, AllocError>
        ensures zeros { IfOk result (λ zeros. zeros.items ≡ replicate len ops.zero) }
        ensures empty { len ≡ 0 → IsOk result }
    {
        let mut zeros = Vec::with_capacity(alloc, len)?;
        zeros.resize(len, Self::zero())?;
        Ok(zeros)
    }

    /// The laws of a commutative ring with one.
    ghost ring: { RingLaws ops };

    /// The order of the prime subfield times one is zero.
    ghost characteristic: { of_nat ops Self.PrimeSubfield.order ≡ ops.zero };

    ghost adds: { Gives Self.can_add Self.add_gives ops.add };

    ghost add_assigns: { Gives Self.can_add_assign Self.add_assign_gives ops.add };

    ghost subs: { Gives Self.can_sub Self.sub_gives (subtract ops) };

    ghost sub_assigns: { Gives Self.can_sub_assign Self.sub_assign_gives (subtract ops) };

    ghost negs: { GivesOne Self.can_neg Self.neg_gives ops.neg };

    ghost muls: { Gives Self.can_mul Self.mul_gives ops.mul };

    ghost mul_assigns: { Gives Self.can_mul_assign Self.mul_assign_gives ops.mul };
}

/// A ring whose values an iterator's `sum` and `product` fold. Upstream has `Sum` and `Product`
/// among the supertraits of the ring trait itself; here they are a trait of their own, since each
/// supertrait is passed again with every call at a concrete type.
pub trait RingSums: PrimeCharacteristicRing + Sum<Self> + Product<Self> {
    /// The sum of the values, eight at a time and each eight in pairs, where a type does no better. What
    /// `sum_array` runs; this project's own.
    #[inline]
    fn sum_slice(values: &[Self]) -> Self
        ensures { result ≡ sum_list Self.ops values.now }
    {
        sum_in_pairs(Self::zero(), values)
    }

    /// A sum is zero and then the items, added one after the other.
    ghost sums: { Folds Self.can_sum Self.sum_gives Self.Sum.is_complete (sum_list Self.ops) };

    /// A product is one and then the items, multiplied one after the other.
    ghost products: { Folds Self.can_product Self.product_gives Self.Product.is_complete (product_list Self.ops) };
}

/// A ring that contains the elements of F, by a map that keeps the operations. Upstream's
/// `Algebra`. The mixed operators embed their right side first.
pub trait Algebra<F: PrimeCharacteristicRing>: PrimeCharacteristicRing
    + From<F>
    + Add<F, Output = Self>
    + AddAssign<F>
    + Sub<F, Output = Self>
    + SubAssign<F>
    + Mul<F, Output = Self>
    + MulAssign<F> {
    /// The element of F as an element of the algebra.
    ghost embed: { F → Self };

    /// How many values `batched_linear_combination` takes at a time: one of 1, 2, 4, 8, 16, 32 and
    /// 64.
    const BATCHED_LC_CHUNK: usize;

    ghost BATCHED_LC_CHUNK: { ℕ };

    /// The square of `a[0] + a[1] * X` modulo `X^2 = w`: its two coefficients are written to `res`.
    /// Both slices have length 2.
    #[inline]
    final fn quadratic_extension_square(a: &[Self], w: F, res: &mut [Self])
        requires input { length a.now ≡ 2 }
        requires room { length res.old ≡ 2 }
        ensures { res.new ≡ quotient_mul Self.ops 2 (binomial Self.ops 2 (embed w)) a.now a.now }
    {
        let a0 = a[0];
        let a1 = a[1];
        let a1_w = a1 * w;
        let constant = a0 * a0;
        let folded = a1 * a1_w;
        let low = constant + folded;
        let twice = a1.double();
        let high = a0 * twice;
        res.copy_from_slice(&[low, high]);
    }

    /// The sum of the products of values and elements of F, position by position. The slices have
    /// one length.
    #[inline]
    fn mixed_dot_product(a: &[Self], f: &[F]) -> Self
        requires { length a.now ≡ length f.now }
        ensures { result ≡ dot Self.ops a.now (map embed f.now) }
    {
        sum_of_products(Self::zero(), a, f)
    }

    /// `batched_linear_combination` is written for seven counts of values at a time.
    ghost chunk_length: { IsChunkLength BATCHED_LC_CHUNK };

    /// The embedding keeps zero, one, sums, negations and products.
    ghost embeds: { Hom F.ops Self.ops embed };

    ghost froms: { (f : F) (r : Self) → ⟦<Self as From<F>>⟧.from_gives f r → r ≡ embed f };

    ghost mixed_adds: { Gives ⟦<Self as Add<F>>⟧.can_add ⟦<Self as Add<F>>⟧.add_gives (λ x f. Self.ops.add x (embed f)) };

    ghost mixed_add_assigns: { Gives ⟦<Self as AddAssign<F>>⟧.can_add_assign ⟦<Self as AddAssign<F>>⟧.add_assign_gives (λ x f. Self.ops.add x (embed f)) };

    ghost mixed_subs: { Gives ⟦<Self as Sub<F>>⟧.can_sub ⟦<Self as Sub<F>>⟧.sub_gives (λ x f. subtract Self.ops x (embed f)) };

    ghost mixed_sub_assigns: { Gives ⟦<Self as SubAssign<F>>⟧.can_sub_assign ⟦<Self as SubAssign<F>>⟧.sub_assign_gives (λ x f. subtract Self.ops x (embed f)) };

    ghost mixed_muls: { Gives ⟦<Self as Mul<F>>⟧.can_mul ⟦<Self as Mul<F>>⟧.mul_gives (λ x f. Self.ops.mul x (embed f)) };

    ghost mixed_mul_assigns: { Gives ⟦<Self as MulAssign<F>>⟧.can_mul_assign ⟦<Self as MulAssign<F>>⟧.mul_assign_gives (λ x f. Self.ops.mul x (embed f)) };

    /// The sum of the products of values and elements of F, position by position: in chunks of
    /// `BATCHED_LC_CHUNK`, and all at once where lists are multiplied by vectors, whose sums of products are
    /// reduced once. The slices have one length.
    #[inline]
    final fn batched_linear_combination(values: &[Self], coeffs: &[F]) -> Self
        requires { length values.now ≡ length coeffs.now }
        ensures { result ≡ dot Self.ops values.now (map embed coeffs.now) }
    {
        if !values.is_empty() && values[0].multiplies_by_vectors() {
            return Self::mixed_dot_product(values, coeffs);
        }
        match Self::BATCHED_LC_CHUNK {
            1 => chunked_linear_combination::<1, Self, F>(values, coeffs),
            2 => chunked_linear_combination::<2, Self, F>(values, coeffs),
            4 => chunked_linear_combination::<4, Self, F>(values, coeffs),
            8 => chunked_linear_combination::<8, Self, F>(values, coeffs),
            16 => chunked_linear_combination::<16, Self, F>(values, coeffs),
            32 => chunked_linear_combination::<32, Self, F>(values, coeffs),
            64 => chunked_linear_combination::<64, Self, F>(values, coeffs),
            _ => unreachable!(),
        }
    }
}

impl<R: PrimeCharacteristicRing> Algebra<R> for R {
    ghost use Rattle.std.specs.Prelude.{refl};
    ghost use Rattle.std.proofs.Common.{lit<};
    ghost use Rattle.p3_theory.specs.Rings.Homomorphism.{identity};

    ghost embed = { λ x. x };

    /// The most, as a ring may sum products in a wide word and reduce once a chunk.
    const BATCHED_LC_CHUNK: usize = 64;

    ghost BATCHED_LC_CHUNK = { 64 };

    /// The ring's own sum of products.
    #[inline]
    fn mixed_dot_product(a: &[R], f: &[R]) -> R {
        R::dot_product(a, f)
    }

    ghost chunk_length = { (6, lit< tt, refl) };

    ghost embeds = { identity R.ops };

    ghost froms = { λ f r h. h };

    ghost mixed_adds = { R.adds };

    ghost mixed_add_assigns = { R.add_assigns };

    ghost mixed_subs = { R.subs };

    ghost mixed_sub_assigns = { R.sub_assigns };

    ghost mixed_muls = { R.muls };

    ghost mixed_mul_assigns = { R.mul_assigns };
}
