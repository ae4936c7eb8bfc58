//! The calls from C at F17, BabyBear and Goldilocks. The argument `field` is 0, 1 or 2 for these; at
//! every other number the answer is 0, and so it is where the memory is refused.
ghost use Rattle.p3_speed_loops.specs.declared.prime_loops.PrimeChain.{PrimeChain};
ghost use Rattle.p3_speed_loops.specs.declared.prime_loops.SliceRounds.{SliceRounds};

use p3_speed_loops::prime_loops::{NumberedPrimes, PrimeChain, PrimeFields, SliceRounds};
use std::alloc::Global;

/// The product of `start` and `count` times `factor`.
#[unsafe(no_mangle)]
pub extern "C" fn p3_speed_product_chain(field: u32, start: u64, factor: u64, count: u64) -> u64
    ensures { ⟦<PrimeFields as NumberedPrimes>⟧.chain_answers field (PrimeChain.Products start factor count) result }
{
    PrimeFields::chain(
        field,
        PrimeChain::Products {
            start,
            factor,
            count,
        },
    )
}

/// The left slice, multiplied index by index by the right one `rounds` times: its dot product with
/// the right one.
#[unsafe(no_mangle)]
pub extern "C" fn p3_speed_multiplied_slices(
    field: u32,
    alloc: Global,
    left: &[u64],
    right: &[u64],
    rounds: u64,
) -> u64
    ensures { ⟦<PrimeFields as NumberedPrimes>⟧.rounds_answer field (SliceRounds.Multiplied left.entry right.entry rounds) result }
{
    PrimeFields::rounds(
        field,
        alloc,
        SliceRounds::Multiplied {
            left,
            right,
            count: rounds,
        },
    )
}

/// The left slice, to which the right one is added `rounds` times: its dot product with the right
/// one.
#[unsafe(no_mangle)]
pub extern "C" fn p3_speed_added_slices(
    field: u32,
    alloc: Global,
    left: &[u64],
    right: &[u64],
    rounds: u64,
) -> u64
    ensures { ⟦<PrimeFields as NumberedPrimes>⟧.rounds_answer field (SliceRounds.Added left.entry right.entry rounds) result }
{
    PrimeFields::rounds(
        field,
        alloc,
        SliceRounds::Added {
            left,
            right,
            count: rounds,
        },
    )
}

/// Sums of the slice, each written over one of its indices: the last of `rounds`.
#[unsafe(no_mangle)]
pub extern "C" fn p3_speed_sums(field: u32, alloc: Global, numbers: &[u64], rounds: usize) -> u64
    ensures { ⟦<PrimeFields as NumberedPrimes>⟧.rounds_answer field (SliceRounds.Sums numbers.entry rounds) result }
{
    PrimeFields::rounds(
        field,
        alloc,
        SliceRounds::Sums {
            numbers,
            count: rounds,
        },
    )
}

/// The same by `sum_array`, of a slice of 1000 numbers; 0 of any other.
#[unsafe(no_mangle)]
pub extern "C" fn p3_speed_array_sums(
    field: u32,
    alloc: Global,
    numbers: &[u64],
    rounds: usize,
) -> u64
    ensures { ⟦<PrimeFields as NumberedPrimes>⟧.rounds_answer field (SliceRounds.ArraySums numbers.entry rounds) result }
{
    PrimeFields::rounds(
        field,
        alloc,
        SliceRounds::ArraySums {
            numbers,
            count: rounds,
        },
    )
}

/// The power `exponent` and `step` more, `count` times.
#[unsafe(no_mangle)]
pub extern "C" fn p3_speed_power_chain(
    field: u32,
    start: u64,
    step: u64,
    exponent: u64,
    count: u64,
) -> u64
    ensures { ⟦<PrimeFields as NumberedPrimes>⟧.chain_answers field (PrimeChain.Powers start step exponent count) result }
{
    PrimeFields::chain(
        field,
        PrimeChain::Powers {
            start,
            step,
            exponent,
            count,
        },
    )
}

/// Dot products of the slices, each written over an index of the left one: the last of `rounds`.
#[unsafe(no_mangle)]
pub extern "C" fn p3_speed_dot_products(
    field: u32,
    alloc: Global,
    left: &[u64],
    right: &[u64],
    rounds: usize,
) -> u64
    ensures { ⟦<PrimeFields as NumberedPrimes>⟧.rounds_answer field (SliceRounds.DotProducts left.entry right.entry rounds) result }
{
    PrimeFields::rounds(
        field,
        alloc,
        SliceRounds::DotProducts {
            left,
            right,
            count: rounds,
        },
    )
}

/// Linear combinations of the left slice by the right one, each written over an index of the left
/// one: the last of `rounds`.
#[unsafe(no_mangle)]
pub extern "C" fn p3_speed_linear_combinations(
    field: u32,
    alloc: Global,
    left: &[u64],
    right: &[u64],
    rounds: usize,
) -> u64
    ensures { ⟦<PrimeFields as NumberedPrimes>⟧.rounds_answer field (SliceRounds.LinearCombinations left.entry right.entry rounds) result }
{
    PrimeFields::rounds(
        field,
        alloc,
        SliceRounds::LinearCombinations {
            left,
            right,
            count: rounds,
        },
    )
}

/// The value of the polynomial at `start`, at that value, and so on.
#[unsafe(no_mangle)]
pub extern "C" fn p3_speed_horner_chain(
    field: u32,
    alloc: Global,
    numbers: &[u64],
    start: u64,
    rounds: u64,
) -> u64
    ensures { ⟦<PrimeFields as NumberedPrimes>⟧.rounds_answer field (SliceRounds.Horner numbers.entry start rounds) result }
{
    PrimeFields::rounds(
        field,
        alloc,
        SliceRounds::Horner {
            numbers,
            start,
            count: rounds,
        },
    )
}

/// The same by `horner_slice`.
#[unsafe(no_mangle)]
pub extern "C" fn p3_speed_horner_slice_chain(
    field: u32,
    alloc: Global,
    numbers: &[u64],
    start: u64,
    rounds: u64,
) -> u64
    ensures { ⟦<PrimeFields as NumberedPrimes>⟧.rounds_answer field (SliceRounds.HornerOfSlice numbers.entry start rounds) result }
{
    PrimeFields::rounds(
        field,
        alloc,
        SliceRounds::HornerOfSlice {
            numbers,
            start,
            count: rounds,
        },
    )
}

/// Lists of powers of `base`, each from the last item of the list before on: the last item.
#[unsafe(no_mangle)]
pub extern "C" fn p3_speed_power_lists(
    field: u32,
    alloc: Global,
    base: u64,
    length: usize,
    rounds: u64,
) -> u64
    ensures { ⟦<PrimeFields as NumberedPrimes>⟧.rounds_answer field (SliceRounds.PowerLists base length rounds) result }
{
    PrimeFields::rounds(
        field,
        alloc,
        SliceRounds::PowerLists {
            base,
            length,
            count: rounds,
        },
    )
}

/// The inverse and `step` more, `count` times.
#[unsafe(no_mangle)]
pub extern "C" fn p3_speed_inverse_chain(field: u32, start: u64, step: u64, count: u64) -> u64
    ensures { ⟦<PrimeFields as NumberedPrimes>⟧.chain_answers field (PrimeChain.Inverses start step count) result }
{
    PrimeFields::chain(field, PrimeChain::Inverses { start, step, count })
}

/// The root of the square and `step` more, `count` times.
#[unsafe(no_mangle)]
pub extern "C" fn p3_speed_root_chain(field: u32, start: u64, step: u64, count: u64) -> u64
    ensures { ⟦<PrimeFields as NumberedPrimes>⟧.chain_answers field (PrimeChain.Roots start step count) result }
{
    PrimeFields::chain(field, PrimeChain::Roots { start, step, count })
}
