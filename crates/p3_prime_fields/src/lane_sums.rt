//! Sums of N residues and N others at once, by vectors where the order leaves room for the sum of two words, and of
//! slices by sixteen at a time.
ghost use Rattle.std.specs.Prelude.{◌≡◌, ◌<◌, ◌+◌, ◌%◌, ◌^◌, ℕ, length, get_or};
ghost use Rattle.p3_theory.specs.Lists.PairedLists.{zip_with};
ghost use Rattle.p3_prime_fields.specs.Elements.{canon, ops};

use crate::form::{Form, Word};
use crate::fp::Fp;
use crate::lane_words::{MOST_LANES, values_of, words_of};
use p3_kernels::residue_arrays::add_arrays;
use p3_ring::strands::add_entries;
use p3_slice_kernels::entrywise::{BLOCK, EntryOperation, take_entrywise};
use std::ops::Add;

/// Orders below which the words of two residues add up to a word of 32 bits.
pub const SHORT_ORDERS: u64 = 0x8000_0000;

/// The sums, one after the other.
#[inline(always)]
fn sums_by_index<F: Copy + Add<Output = F>, const N: usize>(left: &[F; N], right: &[F; N]) -> [F; N]
    requires { (d : F) (k : ℕ) → k < N → F.can_add (get_or left.now k d) (get_or right.now k d) }
    ensures length { length result ≡ N }
    ensures lanes { (d : F) (k : ℕ) → k < N → F.add_gives (get_or left.now k d) (get_or right.now k d) (get_or result k d) }
{
    let mut sums = *left;
    for i in 0..N {
        sums[i] = left[i] + right[i];
    }
    sums
}

/// The sums, index by index: by vectors where the order leaves room. The order is a constant, and so the way is
/// chosen when the program is compiled.
#[inline(always)]
pub fn lane_sums<W: Form<T>, T: Word, const N: usize>(
    left: &[Fp<W, T>; N],
    right: &[Fp<W, T>; N],
) -> [Fp<W, T>; N]
    ensures length { length result ≡ N }
    ensures lanes { (d : Fp W T W.Form T.Word) (k : ℕ) → k < N → canon W.Form (get_or result k d) ≡ (canon W.Form (get_or left.now k d) + canon W.Form (get_or right.now k d)) % W.ORDER }
{
    if W::ORDER < SHORT_ORDERS && N <= MOST_LANES {
        let x = words_of::<W, T, N>(left);
        let y = words_of::<W, T, N>(right);
        let sums = add_arrays::<N>(&x, &y, W::ORDER as u32);
        values_of::<W, T, N>(&sums)
    } else {
        sums_by_index::<Fp<W, T>, N>(left, right)
    }
}

/// The sum, which goes by vectors where `lane_sums` does.
pub(crate) struct Sums;

impl<W: Form<T>, T: Word> EntryOperation<Fp<W, T>> for Sums {
    ghost use Rattle.p3_prime_fields.specs.Elements.{of, ops};

    ghost gives = { (ops W.Form).add };

    ghost past_the_end = { of W.Form 0 };

    #[inline(always)]
    fn of_values(left: Fp<W, T>, right: Fp<W, T>) -> Fp<W, T> {
        left + right
    }

    #[inline(always)]
    fn of_blocks(left: &[Fp<W, T>; BLOCK], right: &[Fp<W, T>; BLOCK]) -> [Fp<W, T>; BLOCK] {
        lane_sums::<W, T, BLOCK>(left, right)
    }
}

/// Adds to each value that of the other slice at its index: sixteen at a time where sums go by vectors, and the rest
/// one after the other; elsewhere all one after the other.
#[inline]
pub(crate) fn add_values<W: Form<T>, T: Word>(left: &mut [Fp<W, T>], right: &[Fp<W, T>])
    requires { length left.old ≡ length right.now }
    ensures { left.new ≡ zip_with (ops W.Form).add left.old right.now }
{
    if W::ORDER < SHORT_ORDERS {
        take_entrywise::<Sums, Fp<W, T>>(left, right, true);
    } else {
        add_entries(left, right);
    }
}
