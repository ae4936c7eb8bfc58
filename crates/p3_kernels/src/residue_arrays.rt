//! Sums and differences modulo an order of arrays of residues, which are their own words.
ghost use Rattle.std.specs.Prelude.{◌≡◌, ◌+◌, ◌-◌, ◌%◌, ◌^◌, ◌<◌, ℕ, length, slice_index};
ghost use Rattle.p3_kernels.specs.Words.{AreBelow};

use p3_residues::mod_arithmetic::{packed_mod_add, packed_mod_sub};
use p3_residues::short_words::{add_words, subtract_words};

/// The sums modulo an order, index by index.
#[inline(always)]
pub fn add_arrays<const N: usize>(left: &[u32; N], right: &[u32; N], order: u32) -> [u32; N]
    requires fits { order < 2 ^ 31 }
    requires left { AreBelow N order left.now }
    requires right { AreBelow N order right.now }
    ensures length { length result ≡ N }
    ensures lanes { (k : ℕ) → k < N → slice_index result k ≡ (slice_index left.now k + slice_index right.now k) % order }
{
    let mut sums = [0; N];
    packed_mod_add(left, right, &mut sums, order, |x: u32, y: u32| -> u32 {
        add_words(x, y, order)
    });
    sums
}

/// The differences modulo an order, index by index.
#[inline(always)]
pub fn subtract_arrays<const N: usize>(left: &[u32; N], right: &[u32; N], order: u32) -> [u32; N]
    requires fits { order < 2 ^ 31 }
    requires left { AreBelow N order left.now }
    requires right { AreBelow N order right.now }
    ensures length { length result ≡ N }
    ensures lanes { (k : ℕ) → k < N → slice_index result k ≡ (slice_index left.now k + (order - slice_index right.now k)) % order }
{
    let mut differences = [0; N];
    packed_mod_sub(
        left,
        right,
        &mut differences,
        order,
        |x: u32, y: u32| -> u32 { subtract_words(x, y, order) },
    );
    differences
}
