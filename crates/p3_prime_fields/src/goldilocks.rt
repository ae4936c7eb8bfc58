//! The residues modulo 2^64 - 2^32 + 1, with all that the field owes as numbers.
ghost use Rattle.std.specs.Prelude.{◌≡◌, ◌≤◌, ◌<◌, ◌+◌, ◌*◌, ◌%◌, ◌^◌, ℕ, length, true, refl};
ghost use Rattle.p3_residues.specs.declared.goldilocks_words.TheConstants.{P};
ghost use Rattle.p3_theory.specs.ResidueRings.SumsOfProducts.{sum_of_products};
ghost use Rattle.p3_prime_fields.specs.Elements.{canon, word_number};

use crate::form::{Form, Order, OverModulus};
use crate::fp::Fp;
use crate::monomials::MonomialConstants;
use crate::two_adic::{TopPowerConstants, TwoAdicConstants};
use p3_integers::halves::halve_u64;
use p3_residues::goldilocks_words::{P, add_residues, reduce_halves, reduce128, subtract_residues};
use p3_ring::exponentiation::exp_10540996611094048183;
use p3_ring::ring::PrimeCharacteristicRing;

/// The form in which each residue modulo 2^64 - 2^32 + 1 is its own word of 64 bits.
#[derive(Clone, Copy)]
pub struct GoldilocksForm;

/// A residue modulo 2^64 - 2^32 + 1. Upstream's `Goldilocks`.
pub type Goldilocks = Fp<GoldilocksForm, u64>;

/// What has a word of 64 bits: a residue, or the word alone.
trait LongWord {
    /// The word.
    ghost word: { Self → ℕ };

    /// The word.
    fn long_word(&self) -> u64
        ensures { result ≡ word self.now };
}

impl LongWord for Goldilocks {
    ghost word = { word_number };

    #[inline(always)]
    fn long_word(&self) -> u64 {
        self.word
    }
}

impl LongWord for u64 {
    ghost word = { λ w. w };

    #[inline(always)]
    fn long_word(&self) -> u64 {
        *self
    }
}

/// Adds a product to a sum of 128 bits and the count of its carries.
#[inline]
fn add_with_carry(product: u128, low: u128, carries: u64) -> (u128, u64)
    requires { carries + 1 < 2 ^ 64 }
    ensures sum { result.0 + 2 ^ 128 * result.1 ≡ low + 2 ^ 128 * carries + product }
    ensures few { result.1 ≤ carries + 1 }
{
    let (sum, carried) = low.overflowing_add(product);
    let carry = if carried { 1 } else { 0 };
    (sum, carries + carry)
}

/// The sum of the products, position by position: its low 128 bits, and how often these were carried
/// over.
#[inline]
fn sum_with_carries<V: LongWord>(u: &[V], v: &[V]) -> (u128, u64)
    requires { length u.now ≡ length v.now }
    ensures { result.0 + 2 ^ 128 * result.1 ≡ sum_of_products V.word u.now v.now }
{
    let mut low = 0u128;
    let mut carries = 0u64;
    for i in 0..u.len() {
        let x = u[i].long_word();
        let y = v[i].long_word();
        let product = x as u128 * y as u128;
        let added = add_with_carry(product, low, carries);
        low = added.0;
        carries = added.1;
    }
    (low, carries)
}

/// The sum of the products of the words, index by index, which is reduced once, at the end.
#[inline]
fn reduced_dot<V: LongWord>(u: &[V], v: &[V]) -> u64
    requires { length u.now ≡ length v.now }
    ensures { result ≡ sum_of_products V.word u.now v.now % P }
{
    let (low, carries) = sum_with_carries(u, v);
    reduce_halves(low, carries as u128 * 0x1_0000_0000_0000_0000)
}

/// The residue that is the sum of the products of words, index by index.
#[inline]
pub fn dot_of_words(u: &[u64], v: &[u64]) -> Goldilocks
    requires { length u.now ≡ length v.now }
    ensures { canon ⟦<GoldilocksForm as Form<u64>>⟧ result ≡ sum_of_products (λ w. w) u.now v.now % P }
{
    Fp::with_word(reduced_dot(u, v))
}

impl Form<u64> for GoldilocksForm {
    ghost use Rattle.std.proofs.Common.{lit<};
    ghost use Rattle.p3_residues.specs.Forms.{plain};
    ghost use Rattle.p3_residues.specs.declared.goldilocks_words.TheConstants.{P};
    ghost use Rattle.p3_prime_fields.specs.MontgomeryForms.{no_inverse};
    ghost use Rattle.p3_slice_kernels.specs.WordSums.{scaled_by_one};

    ghost ORDER = { P };

    ghost number = { λ w. w };

    ghost canon = { λ w. w };

    ghost word = { λ n. n };

    ghost GENERATOR = { 7 };

    ghost is_form = { plain P (lit< tt) (lit< tt) };

    ghost scale = { 1 };

    ghost scaled = { scaled_by_one };

    ghost INVERSE = { 0 };

    ghost montgomery = { no_inverse };

    ghost PLAIN = { true };

    ghost plain = { λ _. refl };

    const ORDER: u64 = P;

    const GENERATOR: u64 = 7;

    const INVERSE: u32 = 0;

    const PLAIN: bool = true;

    #[inline]
    fn decode(stored: u64) -> u64 {
        stored
    }

    #[inline]
    fn encode(residue: u64) -> u64 {
        residue
    }

    #[inline]
    fn low_word(stored: u64) -> u32 {
        (stored % 0x1_0000_0000) as u32
    }

    #[inline]
    fn from_u32(value: u32) -> u64 {
        value as u64
    }

    #[inline]
    fn reduce(value: u64) -> u64 {
        if value < P { value } else { value - P }
    }

    #[inline]
    fn sum(left: u64, right: u64) -> u64 {
        add_residues(left, right)
    }

    #[inline]
    fn difference(left: u64, right: u64) -> u64 {
        subtract_residues(left, right)
    }

    #[inline]
    fn negation(stored: u64) -> u64 {
        subtract_residues(0, stored)
    }

    #[inline]
    fn product(left: u64, right: u64) -> u64 {
        reduce128(left as u128 * right as u128)
    }

    #[inline]
    fn half(stored: u64) -> u64 {
        halve_u64::<P>(stored)
    }

    /// The low words are added up, and the carries are counted.
    #[inline]
    fn add_to(stored: u64, low: u64, high: u64) -> (u64, u64) {
        let (sum, carried) = low.overflowing_add(stored);
        let carry = if carried { 1 } else { 0 };
        (sum, high + carry)
    }

    #[inline]
    fn reduce_sum(words: u128) -> u64 {
        reduce128(words)
    }

    #[inline]
    fn dot_product(u: &[Goldilocks], v: &[Goldilocks]) -> u64 {
        reduced_dot(u, v)
    }
}

impl Order for GoldilocksForm {
    ghost use Rattle.p3_residues.specs.declared.goldilocks_words.TheConstants.{P};

    ghost order = { P };

    ghost generator = { 7 };
}

impl OverModulus<u64> for GoldilocksForm {
    type Modulus = GoldilocksForm;

    ghost same_order = { refl };

    ghost same_generator = { refl };
}

impl TwoAdicConstants for GoldilocksForm {
    ghost TWO_ADICITY = { 32 };

    ghost TOP_GENERATOR = { 1753635133440165772 };

    const TWO_ADICITY: usize = 32;

    const TOP_GENERATOR: u64 = 1753635133440165772;

    ghost generates = { refl };

    ghost greatest = { refl };
}

impl TopPowerConstants for GoldilocksForm {
    ghost top_power = { refl };
}

impl MonomialConstants<7> for GoldilocksForm {
    ghost ROOT_EXPONENT = { 10540996611094048183 };

    #[inline]
    fn root_power<R: PrimeCharacteristicRing>(val: R) -> R {
        exp_10540996611094048183(val)
    }

    ghost inverse_exponents = { (4, refl) };
}
