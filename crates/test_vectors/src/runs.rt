//! Runs of steps over vectors of packed extension values, and beside each the same run over the values of every
//! lane alone.
ghost use Rattle.std.specs.Prelude.{◌≡◌, ◌<◌, ◌*◌, ℕ, length, map};
ghost use Rattle.p3_theory.specs.Lanes.VectorLanes.{vector_lane};
ghost use Rattle.p3_theory.specs.Polynomials.Polynomial.{quotient_ops};
ghost use Rattle.p3_extension.specs.Values.{ext_ops};
ghost use Rattle.p3_helpers.specs.Runs.{Fit, run};

use crate::values::Listed;
use p3_extension::extension::{ExtField, ExtensionShape, FrobeniusExtendable};
use p3_field::laws::run_lane_steps_by_coefficients;
use p3_helpers::steps::{Step, run_steps, steps_fit};
use p3_packing_traits::extension_lanes::PackedExtensionRing;
use p3_ring::ring::PrimeCharacteristicRing;
use p3_vectorized::vectorized_ext::VectorizedExt;
use std::alloc::{AllocError, Global};
use test_values::canonical::Canonical;
use test_values::lists::{List, ZERO};

/// A run, and what the registers hold before it and after it: the lists of the lanes, one register after the
/// other.
#[derive(Clone, Copy)]
pub(crate) struct Run<'a> {
    /// The number of packings of a vector.
    pub(crate) packings: usize,
    pub(crate) steps: &'a [Step],
    pub(crate) before: &'a [List],
    pub(crate) after: &'a [List],
}

/// Vectors of one to three packings.
pub(crate) type Vectors<F, EF, PE> = (
    VectorizedExt<F, EF, PE, 1>,
    VectorizedExt<F, EF, PE, 2>,
    VectorizedExt<F, EF, PE, 3>,
);

/// Whether a run leaves what it has to, over vectors of so many packings as it says. Nothing is read of
/// `_vectors`.
pub(crate) fn run_agrees<F, PE, S, const D: usize>(
    alloc: Global,
    _vectors: Option<Vectors<F, ExtField<F, D, S, F>, PE>>,
    run: &Run<'_>,
) -> Result<bool, AllocError>
where
    F: FrobeniusExtendable<D, S> + Canonical,
    PE: PackedExtensionRing<F, ExtField<F, D, S, F>>,
    S: ExtensionShape,
{
    match run.packings {
        1 => vectors_agree::<F, PE, S, D, 1>(alloc, None, run),
        2 => vectors_agree::<F, PE, S, D, 2>(alloc, None, run),
        3 => vectors_agree::<F, PE, S, D, 3>(alloc, None, run),
        _ => Ok(false),
    }
}

/// Whether a run leaves what it has to, over vectors of N packings and over the values of each lane alone. That
/// a vector is named tells that it has room; nothing is read of it.
fn vectors_agree<F, PE, S, const D: usize, const N: usize>(
    alloc: Global,
    _vector: Option<VectorizedExt<F, ExtField<F, D, S, F>, PE, N>>,
    run: &Run<'_>,
) -> Result<bool, AllocError>
where
    F: FrobeniusExtendable<D, S> + Canonical,
    PE: PackedExtensionRing<F, ExtField<F, D, S, F>>,
    S: ExtensionShape,
{
    let mut registers = registers::<F, ExtField<F, D, S, F>, PE, N>(alloc, run.before)?;
    if !steps_fit(run.steps, registers.len()) {
        return Ok(false);
    }
    run_by_coefficients::<F, PE, S, D, N>(&mut registers, run.steps);
    lanes_agree::<F, ExtField<F, D, S, F>, PE, N>(alloc, &registers, run)
}

/// The theorem that the library is for: after the run, each register read at lane i, as a list of D
/// coefficients, is what the steps make of the registers read at that lane before, modulo the extension's
/// polynomial. So it is at every field that has the extension and at every packing of its values.
pub(crate) fn run_by_coefficients<F, PE, S, const D: usize, const N: usize>(
    registers: &mut [VectorizedExt<F, ExtField<F, D, S, F>, PE, N>],
    steps: &[Step],
)
where
    F: FrobeniusExtendable<D, S>,
    PE: PackedExtensionRing<F, ExtField<F, D, S, F>>,
    S: ExtensionShape,
    requires { Fit (length registers.old) steps.now }
    ensures { (i : ℕ) → i < PE.LANES * N →
        map (λ v. (vector_lane PE.ops (ext_ops F.ops F.modulus) PE.ext_lanes PE.LANES i v).value) registers.new
        ≡ run (quotient_ops F.ops D F.modulus) steps.now (map (λ v. (vector_lane PE.ops (ext_ops F.ops F.modulus) PE.ext_lanes PE.LANES i v).value) registers.old) }
{
    run_lane_steps_by_coefficients::<F, PE, D, S, N>(registers, steps)
}

/// The list at an index, that of zero past the end.
fn list_at(lists: &[List], index: usize) -> List {
    match lists.get(index) {
        Some(list) => *list,
        None => ZERO,
    }
}

/// The packing whose lanes are those from a first one on.
fn packing<F, EF, PE>(lists: &[List], first: usize) -> PE
where
    F: Copy,
    EF: PrimeCharacteristicRing + Listed,
    PE: PackedExtensionRing<F, EF>,
{
    PE::from_ext_fn(|lane: usize| -> EF {
        let list = list_at(lists, first.wrapping_add(lane));
        EF::of_list(&list)
    })
}

/// The vector of these lanes.
fn vector<F, EF, PE, const N: usize>(lists: &[List]) -> VectorizedExt<F, EF, PE, N>
where
    F: Copy,
    EF: PrimeCharacteristicRing + Listed,
    PE: PackedExtensionRing<F, EF>,
{
    VectorizedExt::new(std::array::from_fn(|k: usize| -> PE {
        packing::<F, EF, PE>(lists, k.wrapping_mul(PE::LANES))
    }))
}

/// The registers with these lanes.
fn registers<F, EF, PE, const N: usize>(
    alloc: Global,
    lists: &[List],
) -> Result<Vec<VectorizedExt<F, EF, PE, N>>, AllocError>
where
    F: Copy,
    EF: PrimeCharacteristicRing + Listed,
    PE: PackedExtensionRing<F, EF>,
{
    let mut registers = Vec::new(alloc);
    let lanes = PE::LANES.wrapping_mul(N);
    if lanes != 0 {
        for part in lists.chunks(lanes) {
            registers.push(vector::<F, EF, PE, N>(part))?;
        }
    }
    Ok(registers)
}

/// The value of a register at a lane, where there is one.
fn at_lane<F: Copy, EF: PrimeCharacteristicRing, PE: PackedExtensionRing<F, EF>, const N: usize>(
    register: &VectorizedExt<F, EF, PE, N>,
    lane: usize,
) -> Option<EF> {
    if lane < PE::LANES.checked_mul(N)? {
        Some(register.extract(lane))
    } else {
        None
    }
}

/// Whether the registers hold the lists after the run at every lane, and the steps make the same of the values of
/// that lane alone.
fn lanes_agree<F, EF, PE, const N: usize>(
    alloc: Global,
    registers: &[VectorizedExt<F, EF, PE, N>],
    run: &Run<'_>,
) -> Result<bool, AllocError>
where
    F: Copy,
    EF: PrimeCharacteristicRing + Listed,
    PE: PackedExtensionRing<F, EF>,
{
    let Some(lanes) = PE::LANES.checked_mul(N) else {
        return Ok(false);
    };
    for lane in 0..lanes {
        let lists = every(alloc, run.after, lane, lanes)?;
        let alone = every(alloc, run.before, lane, lanes)?;
        if !hold(registers, lane, &lists) || !makes::<EF>(alloc, &alone, run.steps, &lists)? {
            return Ok(false);
        }
    }
    Ok(lanes.checked_mul(registers.len()) == Some(run.after.len()))
}

/// Every list from `first` on, `step` after `step`.
fn every(
    alloc: Global,
    lists: &[List],
    first: usize,
    step: usize,
) -> Result<Vec<List>, AllocError> {
    let mut found = Vec::new(alloc);
    if step != 0 {
        for part in lists.chunks(step) {
            if let Some(list) = part.get(first) {
                found.push(*list)?;
            }
        }
    }
    Ok(found)
}

/// Whether registers hold these lists at a lane.
fn hold<F, EF, PE, const N: usize>(
    registers: &[VectorizedExt<F, EF, PE, N>],
    lane: usize,
    lists: &[List],
) -> bool
where
    F: Copy,
    EF: PrimeCharacteristicRing + Listed,
    PE: PackedExtensionRing<F, EF>,
{
    for (register, list) in registers.iter().zip(lists) {
        let Some(value) = at_lane(register, lane) else {
            return false;
        };
        if value.list() != *list {
            return false;
        }
    }
    registers.len() == lists.len()
}

/// Whether the steps make these lists of the values of others.
fn makes<EF: PrimeCharacteristicRing + Listed>(
    alloc: Global,
    before: &[List],
    steps: &[Step],
    after: &[List],
) -> Result<bool, AllocError> {
    let mut values: Vec<EF> = Vec::new(alloc);
    for list in before {
        values.push(EF::of_list(list))?;
    }
    if !steps_fit(steps, values.len()) {
        return Ok(false);
    }
    run_steps(&mut values, steps);
    for (value, list) in values.iter().zip(after) {
        if value.list() != *list {
            return Ok(false);
        }
    }
    Ok(values.len() == after.len())
}
