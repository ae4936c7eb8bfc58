//! Dot products of slices of packings by vectors: at each lane the products of the words are summed up before they
//! are reduced.
ghost use Rattle.std.specs.Prelude.{◌≡◌, ◌≤◌, ◌<◌, ◌%◌, ◌^◌, true, IfSome, length, get_or};
ghost use Rattle.p3_theory.specs.Rings.DotProduct.{dot};
ghost use Rattle.p3_theory.specs.Lanes.RowRing.{row_ops};
ghost use Rattle.p3_packed_prime_fields.specs.Values.{packed_rows};
ghost use Rattle.p3_prime_fields.specs.Elements.{of, ops};

use crate::packed::Packed;
use p3_kernels::row_products::{WordRow, montgomery_sums_of_rows};
use p3_kernels::small_row_products::small_sums_of_rows;
use p3_prime_fields::form::{Form, Word};
use p3_prime_fields::fp::Fp;
use p3_prime_fields::lane_words::values_of;
use p3_prime_fields::word_sums::HasWord;

/// The low words of the values.
impl<W: Form<T>, T: Word, const N: usize> WordRow<N> for Packed<Fp<W, T>, N> {
    ghost word = { λ k x. W.number (get_or x.value k (of W.Form 0)).word % 2 ^ 32 };

    #[inline(always)]
    fn word_at(&self, lane: usize) -> u32 {
        let value = self.value[lane];
        W::low_word(value.stored())
    }
}

/// The dot product of two slices in Montgomery's form.
#[inline(always)]
pub(crate) fn montgomery_dot_of_slices<W: Form<T>, T: Word, const N: usize>(
    left: &[Packed<Fp<W, T>, N>],
    right: &[Packed<Fp<W, T>, N>],
) -> Option<Packed<Fp<W, T>, N>>
    requires by_vectors { 0 < W.INVERSE }
    requires lanes { N ≤ 64 }
    requires few { length left.now ≤ 2 ^ 16 }
    requires lengths { length left.now ≡ length right.now }
    ensures { IfSome result (λ sum. sum ≡ dot (row_ops packed_rows (ops W.Form)) left.now right.now) }
{
    let order = W::ORDER as u32;
    let words = montgomery_sums_of_rows::<Packed<Fp<W, T>, N>, N>(left, right, order, W::INVERSE)?;
    let values = values_of::<W, T, N>(&words);
    Some(Packed::new(values))
}

/// The dot product of two slices modulo an order of at most 2^8.
#[inline(always)]
pub(crate) fn small_dot_of_slices<W: Form<T>, T: Word, const N: usize>(
    left: &[Packed<Fp<W, T>, N>],
    right: &[Packed<Fp<W, T>, N>],
) -> Option<Packed<Fp<W, T>, N>>
    requires plain { W.PLAIN ≡ true }
    requires small { W.ORDER ≤ 2 ^ 8 }
    requires lanes { N ≤ 64 }
    requires few { length left.now ≤ 2 ^ 16 }
    requires lengths { length left.now ≡ length right.now }
    ensures { IfSome result (λ sum. sum ≡ dot (row_ops packed_rows (ops W.Form)) left.now right.now) }
{
    let order = W::ORDER as u32;
    let words = small_sums_of_rows::<Packed<Fp<W, T>, N>, N>(left, right, order)?;
    let values = values_of::<W, T, N>(&words);
    Some(Packed::new(values))
}
