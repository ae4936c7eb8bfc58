//! Runs of steps over vectors of packings.
ghost use Rattle.std.specs.Prelude.{◌≡◌, ◌<◌, ◌*◌, ℕ, length, map};
ghost use Rattle.p3_helpers.specs.Runs.{Fit, run};
ghost use Rattle.p3_theory.specs.Lanes.VectorLanes.{vector_lane};

use crate::vectorized_ext::VectorizedExt;
use p3_helpers::steps::{Step, run_steps};
use p3_packing_traits::extension_lanes::PackedExtensionRing;
use p3_ring::ring::PrimeCharacteristicRing;

/// Carries out the steps, one after the other, over registers that are vectors of packings: at each
/// lane the registers become what the steps make of the registers of that lane. This project's own.
#[inline]
pub fn run_lane_steps<
    F: Copy,
    EF: PrimeCharacteristicRing,
    PE: PackedExtensionRing<F, EF>,
    const N: usize,
>(regs: &mut [VectorizedExt<F, EF, PE, N>], steps: &[Step])
    requires { Fit (length regs.old) steps.now }
    ensures { (i : ℕ) → i < PE.LANES * N →
        map (vector_lane PE.ops EF.ops PE.ext_lanes PE.LANES i) regs.new
        ≡ run EF.ops steps.now (map (vector_lane PE.ops EF.ops PE.ext_lanes PE.LANES i) regs.old) }
{
    run_steps(regs, steps)
}
