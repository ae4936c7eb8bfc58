//! Lists of numbers, read from the texts of the tables.
ghost use Rattle.std.specs.Prelude.{◌≡◌, ℕ, ◌<◌, Bool, true, slice_index};

/// The N numbers of a text with commas; none where it has more or fewer, or another word. A text that
/// ends with two points has its number N times.
pub(crate) fn numbers<const N: usize>(text: &str) -> Option<[u32; N]> {
    if let Some(word) = text.strip_suffix("..") {
        let number = word.parse::<u32>().ok()?;
        return Some([number; N]);
    }
    if text.split_terminator(',').count() != N {
        return None;
    }
    for word in text.split_terminator(',') {
        word.parse::<u32>().ok()?;
    }
    Some(std::array::from_fn(|i: usize| -> u32 { number_at(text, i) }))
}

/// The number at an index of a text.
fn number_at(text: &str, index: usize) -> u32 {
    match text.split_terminator(',').nth(index) {
        Some(word) => word.parse::<u32>().unwrap_or(0),
        None => 0,
    }
}

/// Whether each number is below the order.
pub(crate) fn all_below<const N: usize>(numbers: &[u32; N], order: u32) -> bool
    ensures { result ≡ true → (k : ℕ) → k < N → slice_index numbers.now k < order }
{
    let mut i = 0;
    'numbers: while i < N {
        if numbers[i] >= order {
            return false;
        }
        i += 1;
    }
    true
}
