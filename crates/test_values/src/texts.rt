//! The numbers of texts, and what names stand for in tables.
use std::alloc::{AllocError, Global};

/// The numbers of a text, whatever stands between them.
pub fn numbers(alloc: Global, text: &str) -> Result<Vec<u64>, AllocError> {
    let mut numbers = Vec::new(alloc);
    let mut number: Option<u64> = None;
    for byte in text.bytes() {
        let digit = byte.wrapping_sub(b'0');
        if digit < 10 {
            let tens = number.unwrap_or(0).wrapping_mul(10);
            number = Some(tens.wrapping_add(digit as u64));
        } else if let Some(whole) = number {
            numbers.push(whole)?;
            number = None;
        }
    }
    if let Some(whole) = number {
        numbers.push(whole)?;
    }
    Ok(numbers)
}

/// What a name stands for in a table; none where it doesn't stand there.
pub fn named<T: Copy>(table: &[(&'static str, T)], name: &str) -> Option<T> {
    for row in table {
        let (known, item) = *row;
        if known == name {
            return Some(item);
        }
    }
    None
}
