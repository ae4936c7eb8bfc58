//! Iterators that the library makes: what they say of how many items are left.

mod lane_items;
mod streams;

pub(crate) use lane_items::assert_items;
use std::alloc::{AllocError, Global};

/// Whether an iterator, after so many items were taken, says that just so many are left.
fn says_left<I: Iterator>(items: I, taken: usize, left: usize) -> bool
where
    I::Item: Drop,
    requires { I.can_next items }
{
    let mut items = items;
    if taken > 0 && items.nth(taken - 1).is_none() {
        return false;
    }
    let (lower, upper) = items.size_hint();
    lower == left && upper == Some(left)
}

/// Whether an iterator ends after so many items, and says then that none are left.
fn says_none_left<I: Iterator>(items: I, count: usize) -> bool
where
    I::Item: Drop,
    requires { I.can_next items }
{
    let mut items = items;
    if items.nth(count).is_some() {
        return false;
    }
    let (lower, upper) = items.size_hint();
    lower == 0 && upper == Some(0)
}

/// Whether an iterator says what is left after so many items were taken, of so many in all.
fn says<I: Iterator>(items: I, taken: usize, total: usize) -> bool
where
    I::Item: Drop,
    requires { I.can_next items }
{
    if taken <= total {
        says_left(items, taken, total - taken)
    } else {
        says_none_left(items, total)
    }
}

/// So many times a value.
fn repeated<T: Copy>(alloc: Global, value: T, n: usize) -> Result<Vec<T>, AllocError> {
    let mut values = Vec::new(alloc);
    for _ in 0..n {
        values.push(value)?;
    }
    Ok(values)
}
