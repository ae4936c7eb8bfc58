//! Operations on two slices entry by entry, of which sixteen entries go at once.
ghost use Rattle.std.specs.Prelude.{◌≡◌, ◌<◌, ◌≤◌, ◌*◌, ℕ, length, get_or, map};
ghost use Rattle.p3_theory.specs.Lists.PairedLists.{zip_with};

use p3_integers::packed_value::{Packable, PackedValue};

/// How many entries go at once.
pub const BLOCK: usize = 16;

/// An operation of two values, which sixteen values and sixteen others can go through at once.
pub trait EntryOperation<F: Packable + Copy> {
    /// What it gives of two values.
    ghost gives: { F → F → F };

    /// A value, which proofs read past the end of a list.
    ghost past_the_end: { F };

    /// What it gives of two values.
    fn of_values(left: F, right: F) -> F
        ensures { result ≡ gives left right };

    /// What it gives of sixteen values and of the others, index by index.
    fn of_blocks(left: &[F; BLOCK], right: &[F; BLOCK]) -> [F; BLOCK]
        ensures length { length result ≡ 16 }
        ensures lanes { (d : F) (k : ℕ) → k < 16 → get_or result k d ≡ gives (get_or left.now k d) (get_or right.now k d) };
}

/// Writes the values over as many others, one after the other: of a copy at once the compiler would store the values
/// twice.
#[inline(always)]
fn write_values<F: Copy, const N: usize>(out: &mut [F], values: &[F; N])
    requires { length out.old ≡ N }
    ensures { out.new ≡ values.now }
{
    for i in 0..N {
        out[i] = values[i];
    }
}

/// Takes the operation of sixteen values and those of the other slice, and writes what it gives over the first ones.
#[inline(always)]
fn take_block<O: EntryOperation<F>, F: Packable + Copy>(left: &mut [F], right: &[F])
    requires left { length left.old ≡ 16 }
    requires right { length right.now ≡ 16 }
    ensures { left.new ≡ zip_with O.gives left.old right.now }
{
    let x = <[F; BLOCK]>::from_slice(left);
    let y = <[F; BLOCK]>::from_slice(right);
    let results = O::of_blocks(&x, &y);
    write_values::<F, BLOCK>(left, &results);
}

/// How many whole blocks of so many values go by vectors.
#[inline(always)]
fn blocks_of(count: usize, by_vectors: bool) -> usize
    ensures { 16 * result ≤ count }
{
    if by_vectors { count / BLOCK } else { 0 }
}

/// Takes the operation of each value and that of the other slice at its index, and writes what it gives over the
/// first: where vectors serve, sixteen at a time and the rest one after the other.
#[inline]
pub fn take_entrywise<O: EntryOperation<F>, F: Packable + Copy>(
    left: &mut [F],
    right: &[F],
    by_vectors: bool,
)
    requires { length left.old ≡ length right.now }
    ensures { left.new ≡ zip_with O.gives left.old right.now }
{
    let blocks = blocks_of(left.len(), by_vectors);
    for block in 0..blocks {
        let start = BLOCK * block;
        take_block::<O, F>(
            &mut left[start..start + BLOCK],
            &right[start..start + BLOCK],
        );
    }
    for i in BLOCK * blocks..left.len() {
        left[i] = O::of_values(left[i], right[i]);
    }
}

/// What the operation gives of sixteen values and of one other.
#[inline(always)]
fn block_with_one<O: EntryOperation<F>, F: Packable + Copy>(values: &[F], other: F) -> [F; BLOCK]
    requires { length values.now ≡ 16 }
    ensures { result ≡ map (λ x. O.gives x other) values.now }
{
    let x = <[F; BLOCK]>::from_slice(values);
    let others = [other; BLOCK];
    O::of_blocks(&x, &others)
}

/// Writes what the operation gives of each value and of one other to the entry of `out` at the value's index: where
/// vectors serve, sixteen at a time and the rest one after the other.
#[inline]
pub fn write_with_one<O: EntryOperation<F>, F: Packable + Copy>(
    values: &[F],
    other: F,
    out: &mut [F],
    by_vectors: bool,
)
    requires { length values.now ≡ length out.old }
    ensures { out.new ≡ map (λ x. O.gives x other) values.now }
{
    let blocks = blocks_of(values.len(), by_vectors);
    for block in 0..blocks {
        let start = BLOCK * block;
        let results = block_with_one::<O, F>(&values[start..start + BLOCK], other);
        write_values::<F, BLOCK>(&mut out[start..start + BLOCK], &results);
    }
    for i in BLOCK * blocks..values.len() {
        out[i] = O::of_values(values[i], other);
    }
}
