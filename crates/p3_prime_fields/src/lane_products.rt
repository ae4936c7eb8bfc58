//! Products of N residues and N others at once, by vectors where the form of the words has them, and of slices
//! by sixteen at a time.
ghost use Rattle.std.specs.Prelude.{◌≡◌, ◌≤◌, ◌<◌, ◌*◌, ◌%◌, ◌^◌, ℕ, true, length, get_or, map};
ghost use Rattle.p3_theory.specs.Lists.PairedLists.{zip_with};
ghost use Rattle.p3_prime_fields.specs.Elements.{canon, ops};

use crate::form::{Form, Word};
use crate::fp::Fp;
use crate::lane_words::{MOST_LANES, values_of, words_of};
use p3_kernels::montgomery_slices::multiply_arrays;
use p3_kernels::small_products::multiply_small_arrays;
use p3_slice_kernels::entrywise::{BLOCK, EntryOperation, take_entrywise, write_with_one};
use std::ops::Mul;

/// Orders up to which a residue has a byte, so that a product of two has 16 bits.
pub const BYTE_ORDERS: u64 = 0x100;

/// The products, one after the other.
#[inline(always)]
fn products_by_index<F: Copy + Mul<Output = F>, const N: usize>(
    left: &[F; N],
    right: &[F; N],
) -> [F; N]
    requires { (d : F) (k : ℕ) → k < N → F.can_mul (get_or left.now k d) (get_or right.now k d) }
    ensures length { length result ≡ N }
    ensures lanes { (d : F) (k : ℕ) → k < N → F.mul_gives (get_or left.now k d) (get_or right.now k d) (get_or result k d) }
{
    let mut products = *left;
    for i in 0..N {
        products[i] = left[i] * right[i];
    }
    products
}

/// The products in Montgomery's form, by vectors.
#[inline(always)]
fn montgomery_products<W: Form<T>, T: Word, const N: usize>(
    left: &[Fp<W, T>; N],
    right: &[Fp<W, T>; N],
) -> [Fp<W, T>; N]
    requires by_vectors { 0 < W.INVERSE }
    requires few { N ≤ 64 }
    ensures length { length result ≡ N }
    ensures lanes { (d : Fp W T W.Form T.Word) (k : ℕ) → k < N → canon W.Form (get_or result k d) ≡ (canon W.Form (get_or left.now k d) * canon W.Form (get_or right.now k d)) % W.ORDER }
{
    let x = words_of::<W, T, N>(left);
    let y = words_of::<W, T, N>(right);
    let products = multiply_arrays::<N>(&x, &y, W::ORDER as u32, W::INVERSE);
    values_of::<W, T, N>(&products)
}

/// The products modulo an order of at most 2^8, by vectors.
#[inline(always)]
fn small_products<W: Form<T>, T: Word, const N: usize>(
    left: &[Fp<W, T>; N],
    right: &[Fp<W, T>; N],
) -> [Fp<W, T>; N]
    requires plain { W.PLAIN ≡ true }
    requires small { W.ORDER ≤ 2 ^ 8 }
    requires few { N ≤ 64 }
    ensures length { length result ≡ N }
    ensures lanes { (d : Fp W T W.Form T.Word) (k : ℕ) → k < N → canon W.Form (get_or result k d) ≡ (canon W.Form (get_or left.now k d) * canon W.Form (get_or right.now k d)) % W.ORDER }
{
    let x = words_of::<W, T, N>(left);
    let y = words_of::<W, T, N>(right);
    let products = multiply_small_arrays::<N>(&x, &y, W::ORDER as u32);
    values_of::<W, T, N>(&products)
}

/// The products, index by index: by vectors in Montgomery's form and modulo small orders. The order is a constant,
/// and so the way is chosen when the program is compiled.
#[inline(always)]
pub fn lane_products<W: Form<T>, T: Word, const N: usize>(
    left: &[Fp<W, T>; N],
    right: &[Fp<W, T>; N],
) -> [Fp<W, T>; N]
    ensures length { length result ≡ N }
    ensures lanes { (d : Fp W T W.Form T.Word) (k : ℕ) → k < N → canon W.Form (get_or result k d) ≡ (canon W.Form (get_or left.now k d) * canon W.Form (get_or right.now k d)) % W.ORDER }
{
    if W::INVERSE > 0 && N <= MOST_LANES {
        montgomery_products::<W, T, N>(left, right)
    } else if W::PLAIN && W::ORDER <= BYTE_ORDERS && N <= MOST_LANES {
        small_products::<W, T, N>(left, right)
    } else {
        products_by_index::<Fp<W, T>, N>(left, right)
    }
}

/// Whether products of these residues go by vectors.
#[inline(always)]
pub(crate) fn by_vectors<W: Form<T>, T: Word>() -> bool {
    W::INVERSE > 0 || W::PLAIN && W::ORDER <= BYTE_ORDERS
}

/// The product, which goes by vectors where `lane_products` does.
pub(crate) struct Products;

impl<W: Form<T>, T: Word> EntryOperation<Fp<W, T>> for Products {
    ghost use Rattle.p3_prime_fields.specs.Elements.{of, ops};

    ghost gives = { (ops W.Form).mul };

    ghost past_the_end = { of W.Form 0 };

    #[inline(always)]
    fn of_values(left: Fp<W, T>, right: Fp<W, T>) -> Fp<W, T> {
        left * right
    }

    #[inline(always)]
    fn of_blocks(left: &[Fp<W, T>; BLOCK], right: &[Fp<W, T>; BLOCK]) -> [Fp<W, T>; BLOCK] {
        lane_products::<W, T, BLOCK>(left, right)
    }
}

/// Multiplies each value by that of the other slice at its index: sixteen at a time where products go by vectors,
/// and the rest one after the other.
#[inline]
pub(crate) fn multiply_values<W: Form<T>, T: Word>(left: &mut [Fp<W, T>], right: &[Fp<W, T>])
    requires { length left.old ≡ length right.now }
    ensures { left.new ≡ zip_with (ops W.Form).mul left.old right.now }
{
    take_entrywise::<Products, Fp<W, T>>(left, right, by_vectors::<W, T>());
}

/// Writes each value times the factor to the entry of `out` at its index: sixteen at a time where products go by
/// vectors, and the rest one after the other.
#[inline]
pub(crate) fn write_multiples_of<W: Form<T>, T: Word>(
    values: &[Fp<W, T>],
    factor: Fp<W, T>,
    out: &mut [Fp<W, T>],
)
    requires { length values.now ≡ length out.old }
    ensures { out.new ≡ map (λ x. (ops W.Form).mul x factor) values.now }
{
    write_with_one::<Products, Fp<W, T>>(values, factor, out, by_vectors::<W, T>());
}
