//! Representations of residues by words, and the markers that give their orders.
ghost use Rattle.std.specs.Prelude.{◌≡◌, ◌≤◌, ◌<◌, ◌+◌, ◌-◌, ◌*◌, ◌%◌, ◌^◌, ℕ, length, get_or, Bool, true, refl, ⊤};
ghost use Rattle.p3_residues.specs.Forms.{IsForm};
ghost use Rattle.p3_prime_fields.specs.MontgomeryForms.{IsMontgomery};

use crate::fp::Fp;
use crate::word_products::short_product;
use p3_residues::remainder::remainder_of_sum;
use p3_residues::short_words::{add_words, halve_word, negate_word, subtract_words};
use p3_slice_kernels::short_sums::{
    STRIP, ShortWord, sum_products, sum_small_products, sum_strip, sum_strips,
};
use std::alloc::AllocError;
use std::marker::PhantomData;

/// A type of words that residues are stored in.
pub trait Word: Copy {
    /// The number that a word is.
    ghost number: { Self → ℕ };

    /// Words that are one number are one word.
    ghost same_number: { (v w : Self) → number v ≡ number w → v ≡ w };

    /// The number that a word is.
    fn to_u64(self) -> u64
        ensures { result ≡ number self };
}

impl Word for u32 {
    ghost number = { λ w. w };

    ghost same_number = { λ v w h. h };

    #[inline]
    fn to_u64(self) -> u64 {
        self as u64
    }
}

impl Word for u64 {
    ghost number = { λ w. w };

    ghost same_number = { λ v w h. h };

    #[inline]
    fn to_u64(self) -> u64 {
        self
    }
}

/// How words of a type stand for the residues modulo an order, and the operations on words. A type
/// that implements it is a marker: `Fp` names its field by it.
pub trait Form<T: Word>: Copy {
    ghost use Rattle.p3_theory.specs.ResidueRings.SumsOfProducts.{sum_of_products};

    ghost ORDER: { ℕ };

    /// The number that a word is.
    ghost number: { T → ℕ };

    /// The residue that a word stands for.
    ghost canon: { T → ℕ };

    /// The word that stands for a residue.
    ghost word: { ℕ → T };

    ghost GENERATOR: { ℕ };

    ghost is_form: { IsForm ORDER number canon word };

    /// A word stands for the residue of so many times its number.
    ghost scale: { ℕ };

    ghost scaled: { (w : T) → number w < ORDER → canon w ≡ (number w * scale) % ORDER };

    /// The inverse of the order modulo 2^32 where a word holds its residue times 2^32, and zero elsewhere.
    ghost INVERSE: { ℕ };

    ghost montgomery: { 0 < INVERSE → IsMontgomery ORDER INVERSE scale };

    /// Whether each word is its own residue.
    ghost PLAIN: { Bool };

    ghost plain: { PLAIN ≡ true → scale ≡ 1 };

    /// The order: how many residues there are. It is two or more.
    const ORDER: u64;

    /// The residue that the field's `generator` answers.
    const GENERATOR: u64;

    /// The inverse of the order modulo 2^32 where a word holds its residue times 2^32 and the order is below
    /// 2^31: lanes are multiplied by vectors there. It is zero elsewhere.
    const INVERSE: u32;

    /// Whether each word is its own residue.
    const PLAIN: bool;

    /// The residue that a word stands for.
    fn decode(stored: T) -> u64
        requires { number stored < ORDER }
        ensures { result ≡ canon stored };

    /// The word that stands for a residue.
    fn encode(residue: u64) -> T
        requires { residue < ORDER }
        ensures { result ≡ word residue };

    /// The low 32 bits of the number that a word is.
    fn low_word(stored: T) -> u32
        ensures { result ≡ number stored % 2 ^ 32 };

    /// The word that is a number below the order.
    fn from_u32(value: u32) -> T
        requires { value < ORDER }
        ensures { number result ≡ value };

    /// The word of the residue of the number that a word is.
    fn reduce(value: T) -> T
        ensures below { number result < ORDER }
        ensures value { canon result ≡ T.number value % ORDER };

    /// The word of the sum of two residues, from their words.
    fn sum(left: T, right: T) -> T
        requires left { number left < ORDER }
        requires right { number right < ORDER }
        ensures below { number result < ORDER }
        ensures value { canon result ≡ (canon left + canon right) % ORDER };

    /// The word of the difference of two residues, from their words.
    fn difference(left: T, right: T) -> T
        requires left { number left < ORDER }
        requires right { number right < ORDER }
        ensures below { number result < ORDER }
        ensures value { canon result ≡ (canon left + (ORDER - canon right)) % ORDER };

    /// The word of the negation of a residue, from its word.
    fn negation(stored: T) -> T
        requires { number stored < ORDER }
        ensures below { number result < ORDER }
        ensures value { canon result ≡ (ORDER - canon stored) % ORDER };

    /// The word of the product of two residues, from their words.
    fn product(left: T, right: T) -> T
        requires left { number left < ORDER }
        requires right { number right < ORDER }
        ensures below { number result < ORDER }
        ensures value { canon result ≡ (canon left * canon right) % ORDER };

    /// The word of half of a residue, from its word.
    fn half(stored: T) -> T
        requires odd { ORDER % 2 ≡ 1 }
        requires below { number stored < ORDER }
        ensures below { number result < ORDER }
        ensures half { (canon result + canon result) % ORDER ≡ canon stored };

    /// Adds the word of a residue to a number of two words, `low + 2^64 * high`.
    fn add_to(stored: T, low: u64, high: u64) -> (u64, u64)
        requires below { number stored < ORDER }
        requires fits { low + 2 ^ 64 * high + ORDER ≤ 2 ^ 32 * ORDER }
        ensures { result.0 + 2 ^ 64 * result.1 ≡ low + 2 ^ 64 * high + number stored };

    /// The word of the sum of residues, from the sum of their words.
    fn reduce_sum(words: u128) -> T
        ensures below { number result < ORDER }
        ensures value { canon result ≡ (words * scale) % ORDER };

    /// The word of the sum of the products of residues, position by position.
    fn dot_product(u: &[Fp<Self, T>], v: &[Fp<Self, T>]) -> T
        requires { length u.now ≡ length v.now }
        ensures below { number result < ORDER }
        ensures value { canon result ≡ sum_of_products (λ x. canon x.word) u.now v.now % ORDER };
}

/// Adds a word of 32 bits to a number of two words, where the low word has room for it.
#[inline]
pub(crate) fn add_short(word: u32, low: u64, high: u64) -> (u64, u64)
    requires { low + 2 ^ 32 ≤ 2 ^ 64 }
    ensures { result.0 + 2 ^ 64 * result.1 ≡ low + 2 ^ 64 * high + word }
{
    (low + word as u64, high)
}

/// A form in words of 32 bits whose order is below 2^31, so that two words add up to a word.
pub trait ShortForm: Form<u32> {
    ghost short: { Self.ORDER < 2 ^ 31 };
}

/// A marker of an order, as numbers: the order, and the residue that is named as a generator. The constants
/// of a field's extensions are stated over it, whatever the form of its words.
pub trait Order {
    ghost order: { ℕ };

    ghost generator: { ℕ };
}

/// A marker of an order below 2^31.
pub trait Modulus {
    ghost ORDER: { ℕ };

    ghost GENERATOR: { ℕ };

    ghost above_one: { 1 < ORDER };

    ghost fits: { ORDER < 2 ^ 31 };

    /// The order, from 2 to 2^31 - 1.
    const ORDER: u32;

    /// The residue that upstream names as a generator of the units. No clause says that it generates them.
    const GENERATOR: u32;
}

/// A marker of an order below 2^31 whose extensions have constants: both traits name the same numbers.
pub trait ModulusOrder: Modulus + Order {
    ghost same_order: { Self.order ≡ Self.ORDER };

    ghost same_generator: { Self.generator ≡ Self.GENERATOR };
}

/// A form of the residues modulo an order that a marker names. `Fp` takes its two-adic generators, its
/// extensions and its monomials from the constants of that marker, whatever the form of its words.
pub trait OverModulus<T: Word>: Form<T> {
    /// The marker of the order.
    type Modulus: Order;

    ghost same_order: { Self.Modulus.order ≡ Self.ORDER };

    ghost same_generator: { Self.Modulus.generator ≡ Self.GENERATOR };
}

/// The form in which each residue of the order of M is its own word of 32 bits.
pub struct Plain<M>(PhantomData<M>);

impl<M> Clone for Plain<M> {
    ghost is_clone = { λ x y. y ≡ x };

    ghost is_infallible = { λ _. ⊤ };

    #[inline]
    fn clone(&self) -> Result<Self, AllocError> {
        Ok(*self)
    }
}

impl<M> Copy for Plain<M> {}

impl<M: Modulus> Form<u32> for Plain<M> {
    ghost use Rattle.p3_residues.specs.Forms.{plain, order_below};
    ghost use Rattle.p3_prime_fields.specs.MontgomeryForms.{no_inverse};
    ghost use Rattle.p3_slice_kernels.specs.WordSums.{scaled_by_one};

    ghost ORDER = { M.ORDER };

    ghost number = { λ w. w };

    ghost canon = { λ w. w };

    ghost word = { λ n. n };

    ghost GENERATOR = { M.GENERATOR };

    ghost is_form = { plain M.ORDER M.above_one (order_below M.ORDER M.fits) };

    ghost scale = { 1 };

    ghost scaled = { scaled_by_one };

    ghost INVERSE = { 0 };

    ghost montgomery = { no_inverse };

    ghost PLAIN = { true };

    ghost plain = { λ _. refl };

    const ORDER: u64 = M::ORDER as u64;

    const GENERATOR: u64 = M::GENERATOR as u64;

    const INVERSE: u32 = 0;

    const PLAIN: bool = true;

    #[inline]
    fn decode(stored: u32) -> u64 {
        stored as u64
    }

    #[inline]
    fn encode(residue: u64) -> u32 {
        residue as u32
    }

    #[inline]
    fn low_word(stored: u32) -> u32 {
        stored
    }

    #[inline]
    fn from_u32(value: u32) -> u32 {
        value
    }

    #[inline]
    fn reduce(value: u32) -> u32 {
        value % M::ORDER
    }

    #[inline]
    fn sum(left: u32, right: u32) -> u32 {
        add_words(left, right, M::ORDER)
    }

    #[inline]
    fn difference(left: u32, right: u32) -> u32 {
        subtract_words(left, right, M::ORDER)
    }

    #[inline]
    fn negation(stored: u32) -> u32 {
        negate_word(stored, M::ORDER)
    }

    #[inline]
    fn product(left: u32, right: u32) -> u32 {
        short_product(left, right, M::ORDER)
    }

    #[inline]
    fn half(stored: u32) -> u32 {
        halve_word(stored, M::ORDER)
    }

    #[inline]
    fn add_to(stored: u32, low: u64, high: u64) -> (u64, u64) {
        add_short(stored, low, high)
    }

    #[inline]
    fn reduce_sum(words: u128) -> u32 {
        remainder_of_sum(words, M::ORDER)
    }

    /// The sum of the products of the words, which is reduced once, at the end: in 32 bits where these
    /// hold it.
    #[inline]
    fn dot_product(u: &[Fp<Self, u32>], v: &[Fp<Self, u32>]) -> u32 {
        if M::ORDER < 0x8000 && u.len() <= 4 {
            sum_small_products(u, v) % M::ORDER
        } else if M::ORDER <= 0x100 && u.len() <= STRIP {
            sum_strip(u, v) % M::ORDER
        } else {
            let sum = if M::ORDER <= 0x100 {
                sum_strips(u, v)
            } else {
                sum_products(u, v)
            };
            remainder_of_sum(sum, M::ORDER)
        }
    }
}

impl<M: ModulusOrder> OverModulus<u32> for Plain<M> {
    type Modulus = M;

    ghost same_order = { M.same_order };

    ghost same_generator = { M.same_generator };
}

impl<M: Modulus> ShortForm for Plain<M> {
    ghost short = { M.fits };
}

impl<M: Modulus> ShortWord for Fp<Plain<M>> {
    ghost use Rattle.p3_prime_fields.specs.Elements.{word_number};

    ghost word = { word_number };

    #[inline]
    fn stored_word(&self) -> u32 {
        self.word
    }
}
