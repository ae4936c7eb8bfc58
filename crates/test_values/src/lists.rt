//! Coefficients as lists of numbers.

/// The greatest degree of the extensions.
pub const MOST: usize = 8;

/// The coefficients of a value as canonical numbers, from X^0 upward, and zeros from the degree on.
pub type List = [u64; MOST];

/// The coefficients of zero.
pub const ZERO: List = [0; MOST];

/// The number at an index, zero past the end.
pub fn at(list: &List, index: usize) -> u64 {
    list.get(index).copied().unwrap_or(0)
}

/// The numbers of a text, which stand between commas, and zeros after them; none where one can't be read, or
/// where there are too many.
pub fn list_of_text(text: &str) -> Option<List> {
    let mut list = ZERO;
    let mut index: usize = 0;
    for word in text.split(',') {
        let number = word.parse::<u64>().ok()?;
        if index < MOST {
            list[index] = number;
        } else {
            return None;
        }
        index = index.wrapping_add(1);
    }
    Some(list)
}
