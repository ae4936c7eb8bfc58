//! The calls from C of the loops over lanes. The contracts say that they are safe; their answers are
//! compared at each run. The argument `field` is 0, 1 or 2 for F17, BabyBear and Goldilocks,
//! `extension` is 0 or 1 for f17x4 and bbx4, and `lanes` is 4 or 8, or 16 for packings of F17 and BabyBear.
//! At every other number the answer is 0, and so it is where the memory is refused.
use p3_speed_loops::batch_loops::run_inversions;
use p3_speed_loops::lane_loops::{LaneLoop, LaneNumbers, PackingLoop};
use p3_speed_loops::packed_loops::{PackedChain, PackedNumbers};
use p3_speed_loops::slice_loops::SliceLoop;
use std::alloc::Global;

/// Adds the right slice of packings to the left one: a number that depends on all lanes.
#[unsafe(no_mangle)]
pub extern "C" fn p3_speed_lane_sums(
    field: u32,
    lanes: u32,
    alloc: Global,
    left: &[u64],
    right: &[u64],
    rounds: u64,
) -> u64 {
    let numbers = LaneNumbers {
        left,
        right,
        rounds,
    };
    LaneLoop::Packings(PackingLoop::Sums).run(field, lanes, alloc, numbers)
}

/// Takes the right slice of packings from the left one.
#[unsafe(no_mangle)]
pub extern "C" fn p3_speed_lane_differences(
    field: u32,
    lanes: u32,
    alloc: Global,
    left: &[u64],
    right: &[u64],
    rounds: u64,
) -> u64 {
    let numbers = LaneNumbers {
        left,
        right,
        rounds,
    };
    LaneLoop::Packings(PackingLoop::Differences).run(field, lanes, alloc, numbers)
}

/// Multiplies the left slice of packings by the right one, packing by packing.
#[unsafe(no_mangle)]
pub extern "C" fn p3_speed_lane_slice_products(
    field: u32,
    lanes: u32,
    alloc: Global,
    left: &[u64],
    right: &[u64],
    rounds: u64,
) -> u64 {
    let numbers = LaneNumbers {
        left,
        right,
        rounds,
    };
    LaneLoop::Packings(PackingLoop::SliceProducts).run(field, lanes, alloc, numbers)
}

/// Multiplies the first packing of the left slice by that of the right one.
#[unsafe(no_mangle)]
pub extern "C" fn p3_speed_lane_products(
    field: u32,
    lanes: u32,
    alloc: Global,
    left: &[u64],
    right: &[u64],
    rounds: u64,
) -> u64 {
    let numbers = LaneNumbers {
        left,
        right,
        rounds,
    };
    LaneLoop::Packings(PackingLoop::Products).run(field, lanes, alloc, numbers)
}

/// Writes the dot product of both slices over the first packing of the left one.
#[unsafe(no_mangle)]
pub extern "C" fn p3_speed_lane_dot_products(
    field: u32,
    lanes: u32,
    alloc: Global,
    left: &[u64],
    right: &[u64],
    rounds: u64,
) -> u64 {
    let numbers = LaneNumbers {
        left,
        right,
        rounds,
    };
    LaneLoop::Packings(PackingLoop::DotProducts).run(field, lanes, alloc, numbers)
}

/// Adds the right list of residues to the left one, in packings: a number that depends on all of them.
#[unsafe(no_mangle)]
pub extern "C" fn p3_speed_slice_sums(
    field: u32,
    lanes: u32,
    alloc: Global,
    left: &[u64],
    right: &[u64],
    rounds: u64,
) -> u64 {
    let numbers = LaneNumbers {
        left,
        right,
        rounds,
    };
    LaneLoop::Slices(SliceLoop::Sums).run(field, lanes, alloc, numbers)
}

/// Multiplies the left list of residues by the first item of the right one, in packings.
#[unsafe(no_mangle)]
pub extern "C" fn p3_speed_slice_scalings(
    field: u32,
    lanes: u32,
    alloc: Global,
    left: &[u64],
    right: &[u64],
    rounds: u64,
) -> u64 {
    let numbers = LaneNumbers {
        left,
        right,
        rounds,
    };
    LaneLoop::Slices(SliceLoop::Scalings).run(field, lanes, alloc, numbers)
}

/// Adds the right list of residues, times its first item, to the left one, in packings.
#[unsafe(no_mangle)]
pub extern "C" fn p3_speed_scaled_slice_sums(
    field: u32,
    lanes: u32,
    alloc: Global,
    left: &[u64],
    right: &[u64],
    rounds: u64,
) -> u64 {
    let numbers = LaneNumbers {
        left,
        right,
        rounds,
    };
    LaneLoop::Slices(SliceLoop::ScaledSums).run(field, lanes, alloc, numbers)
}

/// Multiplies the packed extension value by the factor, `count` times: a number that depends on all
/// lanes.
#[unsafe(no_mangle)]
pub extern "C" fn p3_speed_packed_products(
    extension: u32,
    lanes: u32,
    value: &[u64],
    factor: &[u64],
    count: u64,
) -> u64 {
    let numbers = PackedNumbers {
        value,
        factor,
        count,
    };
    PackedChain::Products.run(extension, lanes, numbers)
}

/// Inverts the packed extension value and multiplies by the factor, `count` times.
#[unsafe(no_mangle)]
pub extern "C" fn p3_speed_packed_inverses(
    extension: u32,
    lanes: u32,
    value: &[u64],
    factor: &[u64],
    count: u64,
) -> u64 {
    let numbers = PackedNumbers {
        value,
        factor,
        count,
    };
    PackedChain::Inverses.run(extension, lanes, numbers)
}

/// Inverts the list of residues, `rounds` times: a number that depends on all of them.
#[unsafe(no_mangle)]
pub extern "C" fn p3_speed_inversions(
    field: u32,
    alloc: Global,
    numbers: &[u64],
    rounds: u64,
) -> u64 {
    run_inversions(field, alloc, numbers, rounds)
}
