//! The calls from C of the loop over cosets. The argument `field` is 0, 1 or 2 for F17, BabyBear and
//! Goldilocks. At every other number the answer is 0, and so it is where there is no such coset, where it has
//! not as many items as there are numbers, and where the memory is refused.
ghost use Rattle.p3_speed_loops.specs.declared.coset_rounds.CosetRounds.{CosetRounds};

use p3_speed_loops::coset_rounds::{CosetRounds, NumberedCosets, TwoAdicFields};
use std::alloc::Global;

/// Takes the values over the coset of the shift and of `2^log_size` items as the next coefficients, `rounds`
/// times: the value of the last polynomial at the shift.
#[unsafe(no_mangle)]
pub extern "C" fn p3_speed_coset_values(
    field: u32,
    alloc: Global,
    numbers: &[u64],
    shift: u64,
    log_size: usize,
    rounds: u64,
) -> u64
    ensures { ⟦<TwoAdicFields as NumberedCosets>⟧.rounds_answer field (record { numbers = numbers.entry; shift = shift; log_size = log_size; count = rounds }) result }
{
    TwoAdicFields::rounds(
        field,
        alloc,
        CosetRounds {
            numbers,
            shift,
            log_size,
            count: rounds,
        },
    )
}
