//! Sums, differences and products of N values and N others at once, which packings go by.
ghost use Rattle.std.specs.Prelude.{◌≡◌, ◌<◌, ℕ, length, get_or};

use p3_kernels::residue_arrays::subtract_arrays;
use p3_prime_fields::form::{Form, Word};
use p3_prime_fields::fp::Fp;
use p3_prime_fields::lane_products::lane_products;
use p3_prime_fields::lane_sums::{SHORT_ORDERS, lane_sums};
use p3_prime_fields::lane_words::{MOST_LANES, values_of, words_of};
use std::ops::{Add, Mul, Sub};

/// A type with sums, differences and products of N values at once. This project's own.
pub trait LaneArithmetic<const N: usize>: Copy
    + Add<Output = Self>
    + Sub<Output = Self>
    + Mul<Output = Self> {
    /// The sums, index by index.
    fn lane_sums(left: &[Self; N], right: &[Self; N]) -> [Self; N]
        ensures length { length result ≡ N }
        ensures lanes { (d : Self) (k : ℕ) → k < N → Self.add_gives (get_or left.now k d) (get_or right.now k d) (get_or result k d) };

    /// The differences, index by index.
    fn lane_differences(left: &[Self; N], right: &[Self; N]) -> [Self; N]
        ensures length { length result ≡ N }
        ensures lanes { (d : Self) (k : ℕ) → k < N → Self.sub_gives (get_or left.now k d) (get_or right.now k d) (get_or result k d) };

    /// The products, index by index.
    fn lane_products(left: &[Self; N], right: &[Self; N]) -> [Self; N]
        ensures length { length result ≡ N }
        ensures lanes { (d : Self) (k : ℕ) → k < N → Self.mul_gives (get_or left.now k d) (get_or right.now k d) (get_or result k d) };
}

/// The differences, one after the other.
#[inline(always)]
fn differences_by_index<F: Copy + Sub<Output = F>, const N: usize>(
    left: &[F; N],
    right: &[F; N],
) -> [F; N]
    requires { (d : F) (k : ℕ) → k < N → F.can_sub (get_or left.now k d) (get_or right.now k d) }
    ensures length { length result ≡ N }
    ensures lanes { (d : F) (k : ℕ) → k < N → F.sub_gives (get_or left.now k d) (get_or right.now k d) (get_or result k d) }
{
    let mut differences = *left;
    for i in 0..N {
        differences[i] = left[i] - right[i];
    }
    differences
}

/// The order is a constant, and so the way is chosen when the program is compiled. The words are those of the
/// values, and the way there and back takes no step.
impl<W: Form<T>, T: Word, const N: usize> LaneArithmetic<N> for Fp<W, T> {
    #[inline(always)]
    fn lane_sums(left: &[Self; N], right: &[Self; N]) -> [Self; N] {
        lane_sums::<W, T, N>(left, right)
    }

    #[inline(always)]
    fn lane_differences(left: &[Self; N], right: &[Self; N]) -> [Self; N] {
        if W::ORDER < SHORT_ORDERS && N <= MOST_LANES {
            let x = words_of::<W, T, N>(left);
            let y = words_of::<W, T, N>(right);
            let differences = subtract_arrays::<N>(&x, &y, W::ORDER as u32);
            values_of::<W, T, N>(&differences)
        } else {
            differences_by_index::<Self, N>(left, right)
        }
    }

    #[inline(always)]
    fn lane_products(left: &[Self; N], right: &[Self; N]) -> [Self; N] {
        lane_products::<W, T, N>(left, right)
    }
}
