//! The fields whose values are stored as words, and how their words stand for values.
ghost use Rattle.std.specs.Prelude.{◌≡◌, ◌<◌, ◌≤◌, ◌^◌, ◌↔◌, ℕ, All, IsTrue, length, map};
ghost use Rattle.p3_prime_fields.specs.Elements.{canon, ops};
ghost use Rattle.p3_theory.specs.Lists.PairedLists.{zip_with};
ghost use Rattle.p3_theory.specs.Rings.DotProduct.{dot};
ghost use Rattle.p3_theory.specs.Rings.Operators.{sum_list};
ghost use Rattle.p3_c_words.specs.Fields.{stored_words, value_of};
ghost use Rattle.p3_c_words.specs.Words.{AllStand, Words, Stands, on_words};

use p3_field_traits::field::{PrimeField32, PrimeField64};
use p3_integers::integers::QuotientMap;
use p3_kernels::montgomery_slices::multiply_slice;
use p3_prime_fields::form::{Form, Word};
use p3_prime_fields::fp::Fp;
use p3_prime_fields::goldilocks::{self, Goldilocks, GoldilocksForm};
use p3_prime_fields::lane_words::values_of;
use p3_prime_fields::montgomery::{self, Montgomery, MontgomeryModulus};
use p3_prime_fields::word_sums::sum_of_words;
use p3_ring::ring::PrimeCharacteristicRing;

/// A ring of residues whose values are stored as words of type T: the words that are numbers below the order, each of
/// which is one value.
pub trait Stored<T: Copy>: PrimeCharacteristicRing {
    /// How the words stand for the values.
    ghost words: { Words T Self };

    /// Whether a word is below the order.
    fn stands(word: T) -> bool
        ensures { IsTrue result ↔ Stands words word };

    /// Whether each word is below the order.
    fn all_stand(items: &[T]) -> bool
        ensures { IsTrue result ↔ AllStand words items.now };

    /// The value that a word stands for.
    fn of_word(word: T) -> Self
        requires { Stands words word }
        ensures { result ≡ words.value word };

    /// The word that stands for the value.
    fn to_word(self) -> T
        ensures { result ≡ words.word self };

    /// The value whose canonical number is given.
    fn of_number(number: T) -> Self
        requires { Stands words number }
        ensures { words.canon result ≡ words.number number };

    /// The canonical number of the value.
    fn to_number(self) -> T
        ensures { words.number result ≡ words.canon self };

    /// Multiplies each value of the left slice by that of the right one at its index.
    fn multiply_words(left: &mut [T], right: &[T])
        requires lengths { length left.old ≡ length right.now }
        requires left { AllStand words left.old }
        requires right { AllStand words right.now }
        ensures { left.new ≡ zip_with (on_words words (λ x y. Self.ops.mul x y)) left.old right.now };

    /// The sum of the values of at most 2^31 words.
    fn sum_words(items: &[T]) -> Self
        requires few { length items.now ≤ 2 ^ 31 }
        requires stand { AllStand words items.now }
        ensures { result ≡ sum_list Self.ops (map words.value items.now) };

    /// The sum of the products of the values, index by index.
    fn dot_words(left: &[T], right: &[T]) -> Self
        requires lengths { length left.now ≡ length right.now }
        requires left { AllStand words left.now }
        requires right { AllStand words right.now }
        ensures { result ≡ dot Self.ops (map words.value left.now) (map words.value right.now) };
}

/// The greater of two words.
#[inline(always)]
fn greater(left: u32, right: u32) -> u32
    ensures { (n : ℕ) → result < n ↔ ((left < n) × (right < n)) }
{
    if left < right { right } else { left }
}

/// Whether each word is below the order: whether the greatest is.
#[inline]
fn all_below(items: &[u32], order: u32) -> bool
    requires { 0 < order }
    ensures { IsTrue result ↔ All (λ w. w < order) items.now }
{
    let mut greatest = 0;
    for i in 0..items.len() {
        greatest = greater(items[i], greatest);
    }
    greatest < order
}

/// The value in Montgomery's form with this word.
#[inline(always)]
fn montgomery_value<M: MontgomeryModulus>(word: u32) -> Fp<Montgomery<M>>
    requires { word < M.ORDER }
    ensures { result ≡ value_of ⟦<Montgomery<M> as Form<u32>>⟧ word }
{
    let values = values_of::<Montgomery<M>, u32, 1>(&[word]);
    values[0]
}

/// The value in Montgomery's form with this canonical number.
#[inline(always)]
fn montgomery_of_number<M: MontgomeryModulus>(number: u32) -> Fp<Montgomery<M>>
    requires { number < M.ORDER }
    ensures { canon ⟦<Montgomery<M> as Form<u32>>⟧ result ≡ number }
{
    Fp::new(number)
}

/// The products in Montgomery's form at each index, by vectors.
#[inline]
fn multiply_montgomery<M: MontgomeryModulus>(left: &mut [u32], right: &[u32])
    requires lengths { length left.old ≡ length right.now }
    requires left { AllStand (stored_words {form = ⟦<Montgomery<M> as Form<u32>>⟧} {bounds = ⟦<u32 as Word>⟧}) left.old }
    requires right { AllStand (stored_words {form = ⟦<Montgomery<M> as Form<u32>>⟧} {bounds = ⟦<u32 as Word>⟧}) right.now }
    ensures { left.new ≡ zip_with (on_words (stored_words {form = ⟦<Montgomery<M> as Form<u32>>⟧} {bounds = ⟦<u32 as Word>⟧}) (ops ⟦<Montgomery<M> as Form<u32>>⟧).mul) left.old right.now }
{
    multiply_slice(left, right, M::ORDER, M::INVERSE);
}

/// The sum of the values in Montgomery's form, whose words are added before they are reduced.
#[inline]
fn sum_montgomery<M: MontgomeryModulus>(items: &[u32]) -> Fp<Montgomery<M>>
    requires few { length items.now ≤ 2 ^ 31 }
    requires stand { AllStand (stored_words {form = ⟦<Montgomery<M> as Form<u32>>⟧} {bounds = ⟦<u32 as Word>⟧}) items.now }
    ensures { result ≡ sum_list (ops ⟦<Montgomery<M> as Form<u32>>⟧) (map (value_of ⟦<Montgomery<M> as Form<u32>>⟧) items.now) }
{
    sum_of_words::<Montgomery<M>, u32>(items)
}

/// The sum of the products in Montgomery's form, index by index, which is reduced once, at the end.
#[inline]
fn dot_montgomery<M: MontgomeryModulus>(left: &[u32], right: &[u32]) -> Fp<Montgomery<M>>
    requires lengths { length left.now ≡ length right.now }
    requires left { AllStand (stored_words {form = ⟦<Montgomery<M> as Form<u32>>⟧} {bounds = ⟦<u32 as Word>⟧}) left.now }
    requires right { AllStand (stored_words {form = ⟦<Montgomery<M> as Form<u32>>⟧} {bounds = ⟦<u32 as Word>⟧}) right.now }
    ensures { result ≡ dot (ops ⟦<Montgomery<M> as Form<u32>>⟧) (map (value_of ⟦<Montgomery<M> as Form<u32>>⟧) left.now) (map (value_of ⟦<Montgomery<M> as Form<u32>>⟧) right.now) }
{
    montgomery::dot_of_words::<M>(left, right)
}

impl<M: MontgomeryModulus> Stored<u32> for Fp<Montgomery<M>> {
    ghost words = { stored_words };

    #[inline(always)]
    fn stands(word: u32) -> bool {
        word < M::ORDER
    }

    #[inline]
    fn all_stand(items: &[u32]) -> bool {
        all_below(items, M::ORDER)
    }

    #[inline(always)]
    fn of_word(word: u32) -> Self {
        montgomery_value(word)
    }

    #[inline(always)]
    fn to_word(self) -> u32 {
        self.to_unique_u32()
    }

    #[inline(always)]
    fn of_number(number: u32) -> Self {
        montgomery_of_number(number)
    }

    #[inline(always)]
    fn to_number(self) -> u32 {
        self.as_canonical_u32()
    }

    #[inline]
    fn multiply_words(left: &mut [u32], right: &[u32]) {
        multiply_montgomery::<M>(left, right);
    }

    #[inline]
    fn sum_words(items: &[u32]) -> Self {
        sum_montgomery::<M>(items)
    }

    #[inline]
    fn dot_words(left: &[u32], right: &[u32]) -> Self {
        dot_montgomery::<M>(left, right)
    }
}

/// The residue modulo 2^64 - 2^32 + 1 with this word, which is its canonical number.
#[inline(always)]
fn goldilocks_value(word: u64) -> Goldilocks
    requires { word < ⟦<GoldilocksForm as Form<u64>>⟧.ORDER }
    ensures value { result ≡ value_of ⟦<GoldilocksForm as Form<u64>>⟧ word }
    ensures number { canon ⟦<GoldilocksForm as Form<u64>>⟧ result ≡ word }
{
    Goldilocks::from_canonical_unchecked(word)
}

/// The products modulo 2^64 - 2^32 + 1 at each index.
#[inline]
fn multiply_goldilocks(left: &mut [u64], right: &[u64])
    requires lengths { length left.old ≡ length right.now }
    requires left { AllStand (stored_words {form = ⟦<GoldilocksForm as Form<u64>>⟧} {bounds = ⟦<u64 as Word>⟧}) left.old }
    requires right { AllStand (stored_words {form = ⟦<GoldilocksForm as Form<u64>>⟧} {bounds = ⟦<u64 as Word>⟧}) right.now }
    ensures { left.new ≡ zip_with (on_words (stored_words {form = ⟦<GoldilocksForm as Form<u64>>⟧} {bounds = ⟦<u64 as Word>⟧}) (ops ⟦<GoldilocksForm as Form<u64>>⟧).mul) left.old right.now }
{
    for i in 0..left.len() {
        let x = goldilocks_value(left[i]);
        let y = goldilocks_value(right[i]);
        let product = x * y;
        left[i] = product.to_unique_u64();
    }
}

/// Both.
#[inline(always)]
fn both(left: bool, right: bool) -> bool
    ensures { IsTrue result ↔ (IsTrue left × IsTrue right) }
{
    left && right
}

/// Whether a word is below 2^64 - 2^32 + 1.
#[inline(always)]
fn is_goldilocks(word: u64) -> bool
    ensures { IsTrue result ↔ word < ⟦<GoldilocksForm as Form<u64>>⟧.ORDER }
{
    word < Goldilocks::ORDER_U64
}

/// Whether each word is below 2^64 - 2^32 + 1.
#[inline]
fn all_goldilocks(items: &[u64]) -> bool
    ensures { IsTrue result ↔ AllStand (stored_words {form = ⟦<GoldilocksForm as Form<u64>>⟧} {bounds = ⟦<u64 as Word>⟧}) items.now }
{
    let mut all = true;
    for i in 0..items.len() {
        let stands = is_goldilocks(items[i]);
        all = both(stands, all);
    }
    all
}

/// The sum of the values modulo 2^64 - 2^32 + 1, whose words are added before they are reduced.
#[inline]
fn sum_goldilocks(items: &[u64]) -> Goldilocks
    requires few { length items.now ≤ 2 ^ 31 }
    requires stand { AllStand (stored_words {form = ⟦<GoldilocksForm as Form<u64>>⟧} {bounds = ⟦<u64 as Word>⟧}) items.now }
    ensures { result ≡ sum_list (ops ⟦<GoldilocksForm as Form<u64>>⟧) (map (value_of ⟦<GoldilocksForm as Form<u64>>⟧) items.now) }
{
    sum_of_words::<GoldilocksForm, u64>(items)
}

/// The sum of the products modulo 2^64 - 2^32 + 1, index by index, which is reduced once, at the end.
#[inline]
fn dot_goldilocks(left: &[u64], right: &[u64]) -> Goldilocks
    requires lengths { length left.now ≡ length right.now }
    requires left { AllStand (stored_words {form = ⟦<GoldilocksForm as Form<u64>>⟧} {bounds = ⟦<u64 as Word>⟧}) left.now }
    requires right { AllStand (stored_words {form = ⟦<GoldilocksForm as Form<u64>>⟧} {bounds = ⟦<u64 as Word>⟧}) right.now }
    ensures { result ≡ dot (ops ⟦<GoldilocksForm as Form<u64>>⟧) (map (value_of ⟦<GoldilocksForm as Form<u64>>⟧) left.now) (map (value_of ⟦<GoldilocksForm as Form<u64>>⟧) right.now) }
{
    goldilocks::dot_of_words(left, right)
}

impl Stored<u64> for Goldilocks {
    ghost words = { stored_words };

    #[inline]
    fn all_stand(items: &[u64]) -> bool {
        all_goldilocks(items)
    }

    #[inline(always)]
    fn stands(word: u64) -> bool {
        is_goldilocks(word)
    }

    #[inline(always)]
    fn of_word(word: u64) -> Self {
        goldilocks_value(word)
    }

    #[inline(always)]
    fn to_word(self) -> u64 {
        self.to_unique_u64()
    }

    #[inline(always)]
    fn of_number(number: u64) -> Self {
        goldilocks_value(number)
    }

    #[inline(always)]
    fn to_number(self) -> u64 {
        self.as_canonical_u64()
    }

    #[inline]
    fn multiply_words(left: &mut [u64], right: &[u64]) {
        multiply_goldilocks(left, right);
    }

    #[inline]
    fn sum_words(items: &[u64]) -> Self {
        sum_goldilocks(items)
    }

    #[inline]
    fn dot_words(left: &[u64], right: &[u64]) -> Self {
        dot_goldilocks(left, right)
    }
}
