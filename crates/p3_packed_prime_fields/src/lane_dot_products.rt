//! Dot products of at most four rows of N values, index by index, and of slices of packings, which packings go by.
ghost use Rattle.std.specs.Prelude.{◌≡◌, ◌≤◌, ◌<◌, ◌^◌, ◌⊎◌, ◌↔◌, ℕ, [], true, IfSome, IsTrue, length, get_or};
ghost use Rattle.p3_theory.specs.Rings.DotProduct.{dot};
ghost use Rattle.p3_theory.specs.Lanes.RowRing.{row_ops};
ghost use Rattle.p3_packed_prime_fields.specs.Columns.{column};
ghost use Rattle.p3_packed_prime_fields.specs.Values.{packed_rows};
ghost use Rattle.p3_prime_fields.specs.Elements.{ops};

use crate::packed::Packed;
use crate::slice_dot_products::{montgomery_dot_of_slices, small_dot_of_slices};
use p3_kernels::dot_product_slices::array_dot_products;
use p3_kernels::small_dot_products::array_small_dot_products;
use p3_prime_fields::form::{Form, Word};
use p3_prime_fields::fp::Fp;
use p3_prime_fields::lane_products::BYTE_ORDERS;
use p3_prime_fields::lane_words::{MOST_LANES, values_of, words_of};
use p3_ring::ring::PrimeCharacteristicRing;

/// Orders up to which sums of four products of residues have 16 bits.
const SMALL_ORDERS: u64 = 0x80;

/// A type that may have the dot products of rows of N values at once. This project's own.
pub trait LaneDotProducts<const N: usize>: PrimeCharacteristicRing {
    /// That the type has a way to the dot products of rows that is faster than one index after the other.
    ghost at_once: { Type 0 };

    /// Whether it has.
    fn at_once() -> bool
        ensures { IsTrue result ↔ at_once };

    /// The dot products of the values at each index of at most four rows, where the type has such a way. They are
    /// no `Option`: out of one the compiler takes values lane by lane.
    fn lane_dot_products(left: &[[Self; N]], right: &[[Self; N]]) -> [Self; N]
        requires at_once { at_once }
        requires few { length left.now ≤ 4 }
        requires lengths { length left.now ≡ length right.now }
        ensures length { length result ≡ N }
        ensures lanes { (d : Self) (k : ℕ) → k < N → get_or result k d ≡ dot Self.ops (column k d left.now) (column k d right.now) };

    /// The dot product of two slices of at most 2^16 packings. `None` where the type has no way that is faster than a
    /// few packings after the others.
    fn slice_dot_product(
        left: &[Packed<Self, N>],
        right: &[Packed<Self, N>],
    ) -> Option<Packed<Self, N>>
        requires few { length left.now ≤ 2 ^ 16 }
        requires lengths { length left.now ≡ length right.now }
        ensures { IfSome result (λ sum. sum ≡ dot (row_ops packed_rows Self.ops) left.now right.now) };
}

/// The words of at most four rows of values, and zeros after them.
#[inline(always)]
fn row_words<W: Form<T>, T: Word, const N: usize>(rows: &[[Fp<W, T>; N]]) -> [[u32; N]; 4]
    requires few { length rows.now ≤ 4 }
    requires short { W.ORDER ≤ 2 ^ 32 }
    ensures count { length result ≡ 4 }
    ensures words { (x : Fp W T W.Form T.Word) (i k : ℕ) → i < length rows.now → k < N → get_or (get_or result i []) k 0 ≡ W.number (get_or (get_or rows.now i []) k x).word }
    ensures zeros { (i k : ℕ) → length rows.now ≤ i → i < 4 → k < N → get_or (get_or result i []) k 0 ≡ 0 }
{
    let mut words = [[0; N]; 4];
    for i in 0..rows.len() {
        let row = &rows[i];
        words[i] = words_of::<W, T, N>(row);
    }
    words
}

/// The dot products in Montgomery's form, by vectors.
#[inline(always)]
fn montgomery_dot_products<W: Form<T>, T: Word, const N: usize>(
    left: &[[Fp<W, T>; N]],
    right: &[[Fp<W, T>; N]],
) -> [Fp<W, T>; N]
    requires by_vectors { 0 < W.INVERSE }
    requires few { N ≤ 64 }
    requires count { length left.now ≤ 4 }
    requires lengths { length left.now ≡ length right.now }
    ensures length { length result ≡ N }
    ensures lanes { (d : Fp W T W.Form T.Word) (k : ℕ) → k < N → get_or result k d ≡ dot (ops W.Form) (column k d left.now) (column k d right.now) }
{
    let x = row_words::<W, T, N>(left);
    let y = row_words::<W, T, N>(right);
    let sums = array_dot_products::<N>(&x, &y, W::ORDER as u32, W::INVERSE);
    values_of::<W, T, N>(&sums)
}

/// The dot products modulo an order of at most 2^7, by vectors.
#[inline(always)]
fn small_dot_products<W: Form<T>, T: Word, const N: usize>(
    left: &[[Fp<W, T>; N]],
    right: &[[Fp<W, T>; N]],
) -> [Fp<W, T>; N]
    requires plain { W.PLAIN ≡ true }
    requires small { W.ORDER ≤ 2 ^ 7 }
    requires few { N ≤ 64 }
    requires count { length left.now ≤ 4 }
    requires lengths { length left.now ≡ length right.now }
    ensures length { length result ≡ N }
    ensures lanes { (d : Fp W T W.Form T.Word) (k : ℕ) → k < N → get_or result k d ≡ dot (ops W.Form) (column k d left.now) (column k d right.now) }
{
    let x = row_words::<W, T, N>(left);
    let y = row_words::<W, T, N>(right);
    let sums = array_small_dot_products::<N>(&x, &y, W::ORDER as u32);
    values_of::<W, T, N>(&sums)
}

/// By vectors in Montgomery's form and modulo small orders.
impl<W: Form<T>, T: Word, const N: usize> LaneDotProducts<N> for Fp<W, T> {
    ghost at_once = { (N ≤ 64) × ((0 < W.INVERSE) ⊎ ((W.PLAIN ≡ true) × (W.ORDER ≤ 2 ^ 7))) };

    #[inline(always)]
    fn at_once() -> bool {
        N <= MOST_LANES && (W::INVERSE > 0 || W::PLAIN && W::ORDER <= SMALL_ORDERS)
    }

    #[inline(always)]
    fn lane_dot_products(left: &[[Self; N]], right: &[[Self; N]]) -> [Self; N] {
        if W::INVERSE > 0 {
            montgomery_dot_products::<W, T, N>(left, right)
        } else {
            small_dot_products::<W, T, N>(left, right)
        }
    }

    #[inline(always)]
    fn slice_dot_product(
        left: &[Packed<Self, N>],
        right: &[Packed<Self, N>],
    ) -> Option<Packed<Self, N>> {
        if W::INVERSE > 0 && N <= MOST_LANES {
            montgomery_dot_of_slices::<W, T, N>(left, right)
        } else if W::PLAIN && W::ORDER <= BYTE_ORDERS && N <= MOST_LANES {
            small_dot_of_slices::<W, T, N>(left, right)
        } else {
            None
        }
    }
}
