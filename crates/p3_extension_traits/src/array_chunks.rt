//! Items of an iterator in arrays of N, the last one filled up.
ghost use Rattle.std.specs.Prelude.{◌≡◌, ◌≤◌, ◌<◌, ◌+◌, ◌++◌, List, length, drop, MatchOption, OnSome};
ghost use Rattle.std.specs.Bool.{MatchBool};
ghost use Rattle.std.specs.Iterator.{IsFinite, size, count_map, count_unless};
ghost use Rattle.p3_extension_traits.specs.Streams.{GathersGroup, TakesExactly, TakesUpTo, YieldsExactly, group_count};

/// The next N items of `source` as an array, filled up by copies of `padding` where the items end
/// first, and `None` where no item is left. `is_over` keeps whether the source has ended; from then
/// on it is not asked again. The step of upstream's `iter_array_chunks_padded`.
#[inline]
pub fn next_chunk_padded<I: Iterator<Item = T>, T: Copy, const N: usize>(
    source: &mut I,
    is_over: &mut bool,
    padding: T,
) -> Option<[T; N]>
    requires { MatchBool is_over.old (Unit {0}) (I.can_next source.old × IsFinite (I.remaining source.old)) }
    ensures gathers { GathersGroup I.next_gives N padding is_over.old source.old result is_over.new source.new }
    ensures ready { OnSome result (MatchBool is_over.new (Unit {0}) (I.can_next source.new × IsFinite (I.remaining source.new))) }
    ensures nearer { OnSome result (size (count_unless is_over.new (count_map (group_count N) (I.remaining source.new)))
        < size (count_unless is_over.old (count_map (group_count N) (I.remaining source.old)))) }
    ensures finite { IsFinite (count_unless is_over.new (I.remaining source.new)) }
{
    if *is_over {
        return None;
    }
    let mut chunk = [padding; N];
    let filled = take_up_to(source, &mut chunk);
    *is_over = filled < N;
    if filled == 0 {
        return None;
    }
    Some(chunk)
}

/// Writes the next items of `source` over the front of `out`, until all are written or the items
/// end. The answer is how many were written. This project's own.
pub fn take_up_to<I: Iterator<Item = T>, T: Copy>(source: &mut I, out: &mut [T]) -> usize
    requires can { I.can_next source.old }
    requires ends { IsFinite (I.remaining source.old) }
    ensures taken { (xs : List T) × (length xs ≡ result) × (out.new ≡ xs ++ drop result out.old)
        × TakesUpTo I.next_gives (length out.old) source.old xs source.new }
    ensures ready { result ≡ length out.old → I.can_next source.new }
    ensures finite { IsFinite (I.remaining source.new) }
    ensures enough { result ≤ size (I.remaining source.old) }
    ensures nearer { result ≡ length out.old → size (I.remaining source.new) + result ≤ size (I.remaining source.old) }
{
    for i in 0..out.len() {
        let Some(item) = source.next() else {
            return i;
        };
        out[i] = item;
    }
    out.len()
}

/// The items of an iterator over those of an array, and `None` exactly where there are not N. This project's own.
#[inline]
pub fn take_exactly<I: Iterator<Item = T> + Drop, T: Copy, const N: usize>(
    mut iter: I,
    items: [T; N],
) -> Option<[T; N]>
    requires can { I.can_next iter }
    requires ends { IsFinite (I.remaining iter) }
    ensures drawn { TakesExactly I.next_gives N (λ v. v) iter result }
    ensures all { (xs : List T) → YieldsExactly I.next_gives iter xs → MatchOption result (length xs ≡ N → ⊥) (λ v. v ≡ xs) }
{
    let mut taken = items;
    let count = take_up_to(&mut iter, &mut taken);
    if count < N {
        return None;
    }
    match iter.next() {
        None => Some(taken),
        Some(_) => None,
    }
}
