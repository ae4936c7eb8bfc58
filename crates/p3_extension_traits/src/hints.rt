//! Bounds on how many items streams have left, made of the bounds of their sources.

ghost use Rattle.std.specs.Prelude.{◌≡◌, ◌<◌, ◌≤◌, ◌+◌, ◌*◌, ◌-◌, ◌^◌, ℕ, min, true, false, None, Some, IfSome, IsSomeAnd};
ghost use Rattle.std.specs.Option.{option_map};
ghost use Rattle.std.specs.Iterator.Adapters.{inner_items_left};
ghost use Rattle.std.specs.Iterator.{Count, UpTo, count_map, count_unless};
ghost use Rattle.std.specs.Iterator.SizeHint.{IsExactHint, IsWithinCount};
ghost use Rattle.p3_extension_traits.specs.Streams.{group_count};

/// The hint of the reader in hand. One with no upper bound counts as 0 or more. This project's own.
#[inline]
pub(crate) fn held_hint<B: Iterator<Item = u8>>(reader: &Option<B>) -> (usize, Option<usize>)
    ensures lower { result.0 ≤ inner_items_left B.remaining reader.now }
    ensures upper { IfSome result.1 (λ n. inner_items_left B.remaining reader.now ≤ n) }
    ensures none { reader.now ≡ None → result ≡ (0, Some 0) }
{
    match reader {
        Some(bytes) => match bytes.size_hint() {
            (low, Some(high)) => (low, Some(high)),
            (_, None) => (0, None),
        },
        None => (0, Some(0)),
    }
}

/// The hint of a stream that holds some bytes, and makes `width` bytes of each item of its source.
/// This project's own.
#[inline]
pub fn bytes_hint(
    held: (usize, Option<usize>),
    width: usize,
    items: (usize, Option<usize>),
) -> (usize, Option<usize>)
    ensures lower { result.0 ≡ min (held.0 + width * items.0) (2 ^ 64 - 1) }
    ensures upper { IfSome result.1 (λ n. IsSomeAnd held.1 (λ a. IsSomeAnd items.1 (λ k. n ≡ a + width * k))) }
    ensures exact { (a k : ℕ) → held ≡ (a, Some a) → items ≡ (k, Some k) → IsExactHint result (a + width * k) }
{
    let high = match (held.1, items.1) {
        (Some(bytes), Some(count)) => match width.checked_mul(count) {
            Some(more) => bytes.checked_add(more),
            None => None,
        },
        _ => None,
    };
    (held.0.saturating_add(width.saturating_mul(items.0)), high)
}

/// The hint of the groups of n that hold the items of a hint. This project's own.
#[inline]
fn groups_hint(n: usize, items: (usize, Option<usize>)) -> (usize, Option<usize>)
    requires { 0 < n }
    ensures lower { result.0 ≡ group_count n items.0 }
    ensures upper { result.1 ≡ option_map (group_count n) items.1 }
{
    let high = match items.1 {
        Some(count) => Some(count.div_ceil(n)),
        None => None,
    };
    (items.0.div_ceil(n), high)
}

/// The hint of a stream of words of n bytes: nothing once its source has ended, and else the groups
/// of n that hold the bytes of the source's hint. This project's own.
#[inline]
pub fn words_hint(is_over: bool, n: usize, bytes: (usize, Option<usize>)) -> (usize, Option<usize>)
    requires { 0 < n }
    ensures over { is_over ≡ true → result ≡ (0, Some 0) }
    ensures lower { is_over ≡ false → result.0 ≡ group_count n bytes.0 }
    ensures upper { is_over ≡ false → result.1 ≡ option_map (group_count n) bytes.1 }
    ensures least { (left : Count) → IsWithinCount bytes.0 left → IsWithinCount result.0 (count_unless is_over (count_map (group_count n) left)) }
    ensures most { (left : Count) → IfSome bytes.1 (UpTo left) → IfSome result.1 (UpTo (count_unless is_over (count_map (group_count n) left))) }
{
    if is_over {
        return (0, Some(0));
    }
    groups_hint(n, bytes)
}
