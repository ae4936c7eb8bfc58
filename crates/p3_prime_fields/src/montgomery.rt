//! Residues in Montgomery's form: the word holds the residue times 2^32.
ghost use Rattle.std.specs.Prelude.{◌≡◌, ◌<◌, ◌≤◌, ◌+◌, ◌*◌, ◌%◌, ◌^◌, ℕ, All, false, length, refl, ⊤};
ghost use Rattle.p3_theory.specs.ResidueRings.SumsOfProducts.{sum_of_products};
ghost use Rattle.p3_prime_fields.specs.Elements.{canon, word_number};

use crate::form::{Form, Order, OverModulus, ShortForm, add_short};
use crate::fp::Fp;
use p3_residues::montgomery::{
    montgomery_pair_of_sums, montgomery_product, montgomery_reduce_word, montgomery_residue,
    montgomery_short_sum, montgomery_sum,
};
use p3_residues::remainder::remainder_of_sum;
use p3_residues::short_words::{add_words, halve_word, negate_word, subtract_words};
use p3_slice_kernels::short_sums::{ShortWord, sum_last_products, sum_products};
use std::alloc::AllocError;
use std::marker::PhantomData;

/// A marker of an odd order, with the numbers that Montgomery's form takes from it. It stands for what
/// upstream writes in each impl of `MontyParameters`.
pub trait MontgomeryModulus {
    ghost ORDER: { ℕ };

    ghost GENERATOR: { ℕ };

    ghost INVERSE: { ℕ };

    ghost SQUARE: { ℕ };

    /// The inverse of 2^32 modulo the order.
    ghost SCALE_INVERSE: { ℕ };

    ghost above_one: { 1 < ORDER };

    ghost fits: { ORDER < 2 ^ 31 };

    ghost inverts_order: { (ORDER * INVERSE) % 2 ^ 32 ≡ 1 };

    ghost is_square: { SQUARE ≡ (2 ^ 32 * 2 ^ 32) % ORDER };

    ghost undoes_scale: { (2 ^ 32 * SCALE_INVERSE) % ORDER ≡ 1 };

    /// The order, from 2 to 2^31 - 1.
    const ORDER: u32;

    /// The residue that upstream names as a generator of the units. No clause says that it generates them.
    const GENERATOR: u32;

    /// The inverse of the order modulo 2^32.
    const INVERSE: u32;

    /// The residue of 2^64.
    const SQUARE: u32;
}

/// A marker of an odd order whose extensions have constants: both traits name the same numbers.
pub trait MontgomeryOrder: MontgomeryModulus + Order {
    ghost same_order: { Self.order ≡ Self.ORDER };

    ghost same_generator: { Self.generator ≡ Self.GENERATOR };
}

/// The residue that is the product of both words once it is multiplied by 2^32.
#[inline]
fn reduced_product<M: MontgomeryModulus>(left: u32, right: u32) -> u32
    requires { left < M.ORDER }
    ensures below { result < M.ORDER }
    ensures value { (result * 2 ^ 32) % M.ORDER ≡ (left * right) % M.ORDER }
{
    montgomery_product(left, right, M::ORDER, M::INVERSE)
}

/// The residue that is the sum once it is multiplied by 2^32.
#[inline]
fn reduced_sum<M: MontgomeryModulus>(sum: u128) -> u32
    ensures below { result < M.ORDER }
    ensures value { (result * 2 ^ 32) % M.ORDER ≡ sum % M.ORDER }
{
    montgomery_sum(sum, M::ORDER, M::INVERSE)
}

/// The residue that is a sum of at most two products of residues once it is multiplied by 2^32.
#[inline]
fn reduced_pair_sum<M: MontgomeryModulus>(sum: u64) -> u32
    requires { sum < M.ORDER * 2 ^ 32 }
    ensures below { result < M.ORDER }
    ensures value { (result * 2 ^ 32) % M.ORDER ≡ sum % M.ORDER }
{
    montgomery_reduce_word(sum, M::ORDER, M::INVERSE)
}

/// The residue that is a sum of at most four products of residues once it is multiplied by 2^32.
#[inline]
fn reduced_short_sum<M: MontgomeryModulus>(sum: u64) -> u32
    requires { sum < 2 ^ 33 * M.ORDER }
    ensures below { result < M.ORDER }
    ensures value { (result * 2 ^ 32) % M.ORDER ≡ sum % M.ORDER }
{
    montgomery_short_sum(sum, M::ORDER, M::INVERSE)
}

/// The residue that is what two sums of at most four products of residues add up to once it is multiplied by 2^32.
#[inline]
fn reduced_pair_of_sums<M: MontgomeryModulus>(first: u64, last: u64) -> u32
    requires first { first < 2 ^ 33 * M.ORDER }
    requires last { last < 2 ^ 33 * M.ORDER }
    ensures below { result < M.ORDER }
    ensures value { (result * 2 ^ 32) % M.ORDER ≡ (first + last) % M.ORDER }
{
    montgomery_pair_of_sums(first, last, M::ORDER, M::INVERSE)
}

/// The word of the sum of the products of at most four residues: of two of them it is below 2^32 times the order.
#[inline]
fn dot_of_four<M: MontgomeryModulus>(u: &[Fp<Montgomery<M>>], v: &[Fp<Montgomery<M>>]) -> u32
    requires lengths { length u.now ≡ length v.now }
    requires few { length u.now ≤ 4 }
    ensures below { result < M.ORDER }
    ensures value { (result * 2 ^ 32) % M.ORDER ≡ sum_of_products word_number u.now v.now % M.ORDER }
{
    let sum = sum_last_products(u, v, 0);
    if u.len() <= 2 {
        reduced_pair_sum::<M>(sum)
    } else {
        reduced_short_sum::<M>(sum)
    }
}

/// The word of the sum of the products of five to eight residues, of which the first four and the others are summed up
/// in 64 bits each.
#[inline]
fn dot_of_eight<M: MontgomeryModulus>(u: &[Fp<Montgomery<M>>], v: &[Fp<Montgomery<M>>]) -> u32
    requires lengths { length u.now ≡ length v.now }
    requires many { 4 < length u.now }
    requires few { length u.now ≤ 8 }
    ensures below { result < M.ORDER }
    ensures value { (result * 2 ^ 32) % M.ORDER ≡ sum_of_products word_number u.now v.now % M.ORDER }
{
    let first = sum_last_products(&u[..4], &v[..4], 0);
    let last = sum_last_products(u, v, 4);
    reduced_pair_of_sums::<M>(first, last)
}

/// The form in which a word of 32 bits holds a residue of the order of M times 2^32, as a residue: a
/// product takes one reduction, which needs no quotient.
pub struct Montgomery<M>(PhantomData<M>);

impl<M> Clone for Montgomery<M> {
    ghost is_clone = { λ x y. y ≡ x };

    ghost is_infallible = { λ _. ⊤ };

    #[inline]
    fn clone(&self) -> Result<Self, AllocError> {
        Ok(*self)
    }
}

impl<M> Copy for Montgomery<M> {}

impl<M: MontgomeryModulus> Form<u32> for Montgomery<M> {
    ghost use Rattle.p3_residues.specs.Forms.{order_below};
    ghost use Rattle.p3_residues.specs.Montgomery.{montgomery, montgomery_canon, montgomery_word};
    ghost use Rattle.p3_prime_fields.specs.MontgomeryForms.{not_plain};

    ghost ORDER = { M.ORDER };

    ghost number = { λ w. w };

    ghost canon = { montgomery_canon M.ORDER (2 ^ 32) M.SCALE_INVERSE };

    ghost word = { montgomery_word M.ORDER (2 ^ 32) M.SCALE_INVERSE };

    ghost GENERATOR = { M.GENERATOR };

    ghost is_form = { montgomery M.ORDER (2 ^ 32) M.SCALE_INVERSE M.undoes_scale M.above_one (order_below M.ORDER M.fits) };

    ghost scale = { M.SCALE_INVERSE };

    ghost scaled = { λ w h. refl };

    ghost INVERSE = { M.INVERSE };

    ghost montgomery = { λ h. record { short = M.fits; inverts_order = M.inverts_order; undoes_scale = M.undoes_scale } };

    ghost PLAIN = { false };

    ghost plain = { not_plain };

    const ORDER: u64 = M::ORDER as u64;

    const GENERATOR: u64 = M::GENERATOR as u64;

    const INVERSE: u32 = M::INVERSE;

    const PLAIN: bool = false;

    #[inline]
    fn decode(stored: u32) -> u64 {
        montgomery_residue(stored, M::ORDER, M::INVERSE) as u64
    }

    #[inline]
    fn encode(residue: u64) -> u32 {
        reduced_product::<M>(M::SQUARE, residue as u32)
    }

    #[inline]
    fn low_word(stored: u32) -> u32 {
        stored
    }

    #[inline]
    fn from_u32(value: u32) -> u32 {
        value
    }

    #[inline]
    fn reduce(value: u32) -> u32 {
        reduced_product::<M>(M::SQUARE, value)
    }

    #[inline]
    fn sum(left: u32, right: u32) -> u32 {
        add_words(left, right, M::ORDER)
    }

    #[inline]
    fn difference(left: u32, right: u32) -> u32 {
        subtract_words(left, right, M::ORDER)
    }

    #[inline]
    fn negation(stored: u32) -> u32 {
        negate_word(stored, M::ORDER)
    }

    #[inline]
    fn product(left: u32, right: u32) -> u32 {
        reduced_product::<M>(left, right)
    }

    #[inline]
    fn half(stored: u32) -> u32 {
        halve_word(stored, M::ORDER)
    }

    #[inline]
    fn add_to(stored: u32, low: u64, high: u64) -> (u64, u64) {
        add_short(stored, low, high)
    }

    #[inline]
    fn reduce_sum(words: u128) -> u32 {
        remainder_of_sum(words, M::ORDER)
    }

    /// The sum of the products of the words, which is reduced once, at the end: in 64 bits where there are at most
    /// eight.
    #[inline]
    fn dot_product(u: &[Fp<Self, u32>], v: &[Fp<Self, u32>]) -> u32 {
        if u.len() <= 4 {
            dot_of_four::<M>(u, v)
        } else if u.len() <= 8 {
            dot_of_eight::<M>(u, v)
        } else {
            let sum = sum_products(u, v);
            reduced_sum::<M>(sum)
        }
    }
}

/// The residue that is the sum of the products of residues, index by index of their words.
#[inline]
pub fn dot_of_words<M: MontgomeryModulus>(u: &[u32], v: &[u32]) -> Fp<Montgomery<M>>
    requires lengths { length u.now ≡ length v.now }
    requires left { All (λ w. w < M.ORDER) u.now }
    requires right { All (λ w. w < M.ORDER) v.now }
    ensures { canon ⟦<Montgomery<M> as Form<u32>>⟧ result ≡ sum_of_products ⟦<Montgomery<M> as Form<u32>>⟧.canon u.now v.now % M.ORDER }
{
    let products = sum_products(u, v);
    let word = reduced_sum::<M>(products);
    Fp::with_word(word)
}

impl<M: MontgomeryOrder> OverModulus<u32> for Montgomery<M> {
    type Modulus = M;

    ghost same_order = { M.same_order };

    ghost same_generator = { M.same_generator };
}

impl<M: MontgomeryModulus> ShortForm for Montgomery<M> {
    ghost short = { M.fits };
}

impl<M: MontgomeryModulus> ShortWord for Fp<Montgomery<M>> {
    ghost word = { word_number };

    #[inline]
    fn stored_word(&self) -> u32 {
        self.word
    }
}
