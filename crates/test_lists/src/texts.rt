//! Residues by texts of their numbers, which stand between spaces.
use p3_ring::ring::PrimeCharacteristicRing;
use std::alloc::{AllocError, Global};
use test_values::canonical::Canonical;

/// The values of a text.
pub(crate) fn values<F: PrimeCharacteristicRing>(
    alloc: Global,
    text: &str,
) -> Result<Vec<F>, AllocError> {
    let mut values = Vec::new(alloc);
    for word in text.split_ascii_whitespace() {
        values.push(F::from_u64(word.parse::<u64>().unwrap_or(0)))?;
    }
    Ok(values)
}

/// Whether the values have the canonical numbers of a text.
pub(crate) fn hold<F: Canonical>(values: &[F], text: &str) -> bool {
    let mut words = text.split_ascii_whitespace();
    for value in values {
        let Some(word) = words.next() else {
            return false;
        };
        if word.parse::<u64>().ok() != Some(value.canonical()) {
            return false;
        }
    }
    words.next().is_none()
}
