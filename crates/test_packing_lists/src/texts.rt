//! Parts of texts, numbers, which stand between commas, and packings of residues with these numbers.
use p3_field_traits::packed_traits::PackedValue;
use test_values::canonical::Canonical;

/// The text at an index of those that stand between semicolons, empty past the last one.
pub(crate) fn part(text: &str, index: usize) -> &str {
    text.split(';').nth(index).unwrap_or("")
}

/// The number at an index of a text; none past its end, or where no number stands.
pub(crate) fn number_at(text: &str, index: usize) -> Option<u64> {
    text.split_terminator(',').nth(index)?.parse::<u64>().ok()
}

/// The residue of the number at an index of a text, zero where there is none.
pub(crate) fn value_at<F: Canonical>(text: &str, index: usize) -> F {
    F::of_number(number_at(text, index).unwrap_or(0))
}

/// The packing of the first numbers of a text.
pub(crate) fn packing<F: Canonical, P: PackedValue<Value = F>>(text: &str) -> P {
    P::from_fn(|lane: usize| -> F { value_at::<F>(text, lane) })
}

/// Whether the lanes have the numbers of a text from an index on.
pub(crate) fn holds_from<F: Canonical, P: PackedValue<Value = F>>(
    packing: P,
    text: &str,
    first: usize,
) -> bool {
    for lane in 0..P::WIDTH {
        let value = packing.extract(lane);
        if number_at(text, first.wrapping_add(lane)) != Some(value.canonical()) {
            return false;
        }
    }
    true
}

/// Whether the lanes have the first numbers of a text.
pub(crate) fn holds<F: Canonical, P: PackedValue<Value = F>>(packing: P, text: &str) -> bool {
    holds_from::<F, P>(packing, text, 0)
}
