//! Runs of steps read lane by lane and as coefficient lists, and what holds of lanes.
ghost use Rattle.std.specs.Prelude.{◌≡◌, ◌<◌, ◌*◌, ℕ, get_or, length, map};
ghost use Rattle.p3_theory.specs.Lanes.Lanes.{lane};
ghost use Rattle.p3_theory.specs.Lanes.VectorLanes.{vector_lane};
ghost use Rattle.p3_theory.specs.Polynomials.Polynomial.{embed, quotient_ops};
ghost use Rattle.p3_theory.specs.Rings.Ring.{Hom};
ghost use Rattle.p3_extension.specs.Values.{ext_ops};
ghost use Rattle.p3_helpers.specs.Runs.{Fit, run};

use p3_extension::extension::{ExtField, ExtensionAlgebra, ExtensionShape, FrobeniusExtendable};
use p3_extension_traits::basis::BasedVectorSpace;
use p3_extension_traits::extension_field::ExtensionField;
use p3_field_traits::field::Field;
use p3_field_traits::packed_traits::Inhabited;
use p3_helpers::steps::{Step, run_steps};
use p3_packing_traits::extension_lanes::PackedExtensionRing;
use p3_packing_traits::packed_field_extension::PackedFieldExtension;
use p3_ring::packed_ring::PackedRing;
use p3_ring::ring::{Algebra, PrimeCharacteristicRing};
use p3_vectorized::steps::run_lane_steps;
use p3_vectorized::vectorized::Vectorized;
use p3_vectorized::vectorized_ext::VectorizedExt;

/// Carries out the steps over packings of ring values: at each lane the registers become what the
/// steps make of the registers of that lane. This project's own.
#[inline]
pub fn run_steps_by_lanes<F: PrimeCharacteristicRing, P: PackedRing<F>>(
    regs: &mut [P],
    steps: &[Step],
)
    requires { Fit (length regs.old) steps.now }
    ensures { (i : ℕ) → i < P.WIDTH → map (lane F.ops P.lanes i) regs.new ≡ run F.ops steps.now (map (lane F.ops P.lanes i) regs.old) }
{
    run_steps::<P>(regs, steps)
}

/// Carries out the steps over extension values, read as coefficient lists: the lists become what the
/// steps make of them modulo the extension's polynomial. This project's own.
#[inline]
pub fn run_steps_by_coefficients<
    F: Copy,
    const D: usize,
    S: ExtensionShape,
    A: ExtensionAlgebra<F, D, S>,
>(regs: &mut [ExtField<F, D, S, A>], steps: &[Step])
    requires { Fit (length regs.old) steps.now }
    ensures { map (λ v. v.value) regs.new ≡ run (quotient_ops A.ops D A.modulus) steps.now (map (λ v. v.value) regs.old) }
{
    run_steps::<ExtField<F, D, S, A>>(regs, steps)
}

/// Carries out the steps over packings of the values of an extension, whatever its type: at each lane the registers
/// become what the steps make of the registers of that lane. This project's own.
#[inline]
pub fn run_packed_extension_steps_by_lanes<
    F: Copy,
    EF: PrimeCharacteristicRing,
    PE: PackedExtensionRing<F, EF>,
>(regs: &mut [PE], steps: &[Step])
    requires { Fit (length regs.old) steps.now }
    ensures { (i : ℕ) → i < PE.LANES → map (lane EF.ops PE.ext_lanes i) regs.new ≡ run EF.ops steps.now (map (lane EF.ops PE.ext_lanes i) regs.old) }
{
    run_steps(regs, steps)
}

/// Carries out the steps over packings of extension values. Told by coefficients: at each lane the
/// coefficient lists of the registers become what the steps make of them modulo the extension's
/// polynomial. This project's own.
#[inline]
pub fn run_packed_steps_by_coefficients<
    F: FrobeniusExtendable<D, S>,
    PE: PackedExtensionRing<F, ExtField<F, D, S, F>>,
    const D: usize,
    S: ExtensionShape,
>(regs: &mut [PE], steps: &[Step])
    requires { Fit (length regs.old) steps.now }
    ensures { (i : ℕ) → i < PE.LANES →
        map (λ v. (lane (ext_ops F.ops F.modulus) PE.ext_lanes i v).value) regs.new
        ≡ run (quotient_ops F.ops D F.modulus) steps.now (map (λ v. (lane (ext_ops F.ops F.modulus) PE.ext_lanes i v).value) regs.old) }
{
    run_steps::<PE>(regs, steps)
}

/// Carries out the steps over vectors of packings of extension values. Told by coefficients: at each
/// lane the coefficient lists of the registers become what the steps make of them modulo the
/// extension's polynomial. This project's own.
#[inline]
pub fn run_lane_steps_by_coefficients<
    F: FrobeniusExtendable<D, S>,
    PE: PackedExtensionRing<F, ExtField<F, D, S, F>>,
    const D: usize,
    S: ExtensionShape,
    const N: usize,
>(regs: &mut [VectorizedExt<F, ExtField<F, D, S, F>, PE, N>], steps: &[Step])
    requires { Fit (length regs.old) steps.now }
    ensures { (i : ℕ) → i < PE.LANES * N →
        map (λ v. (vector_lane PE.ops (ext_ops F.ops F.modulus) PE.ext_lanes PE.LANES i v).value) regs.new
        ≡ run (quotient_ops F.ops D F.modulus) steps.now (map (λ v. (vector_lane PE.ops (ext_ops F.ops F.modulus) PE.ext_lanes PE.LANES i v).value) regs.old) }
{
    run_lane_steps::<F, ExtField<F, D, S, F>, PE, N>(regs, steps)
}

/// Each lane of a vector of packings keeps zero, one, sums, negations and products.
pub fn vector_lanes_keep_operations<
    F: PrimeCharacteristicRing,
    P: PackedRing<F> + Inhabited,
    const N: usize,
>()
    ensures { (i : ℕ) → i < P.WIDTH * N →
        Hom ⟦<Vectorized<F, P, N> as PrimeCharacteristicRing>⟧.ops F.ops (vector_lane P.ops F.ops P.lanes P.WIDTH i) }
{}

/// Each lane of a vector of packings of extension values keeps zero, one, sums, negations and
/// products.
pub fn vector_ext_lanes_keep_operations<
    F: Copy,
    EF: PrimeCharacteristicRing,
    PE: PackedExtensionRing<F, EF>,
    const N: usize,
>()
    ensures { (i : ℕ) → i < PE.LANES * N →
        Hom ⟦<VectorizedExt<F, EF, PE, N> as PrimeCharacteristicRing>⟧.ops EF.ops (vector_lane PE.ops EF.ops PE.ext_lanes PE.LANES i) }
{}

/// The default vector of packings is zero.
pub fn vector_default_is_zero<F: Copy, P: PrimeCharacteristicRing + Inhabited, const N: usize>(
    x: Vectorized<F, P, N>,
)
    ensures { ⟦<Vectorized<F, P, N> as Default>⟧.is_default x → x ≡ ⟦<Vectorized<F, P, N> as PrimeCharacteristicRing>⟧.ops.zero }
{}

/// The default vector of packings of extension values is zero.
pub fn vector_ext_default_is_zero<
    F: Copy,
    EF: Copy,
    PE: PrimeCharacteristicRing + Inhabited,
    const N: usize,
>(x: VectorizedExt<F, EF, PE, N>)
    ensures { ⟦<VectorizedExt<F, EF, PE, N> as Default>⟧.is_default x → x ≡ ⟦<VectorizedExt<F, EF, PE, N> as PrimeCharacteristicRing>⟧.ops.zero }
{}

/// A packing of extension values has at least one lane.
pub fn packed_extension_has_a_lane<
    F: Field,
    EF: ExtensionField<F>,
    PE: PackedFieldExtension<F, EF>,
>()
    ensures { 0 < PE.LANES }
{}

/// A packing of field values as one of extension values: its coefficients are p, 0, .., 0.
pub fn packed_ext_of_packing<F: Field, EF: ExtensionField<F>, PE: PackedFieldExtension<F, EF>>(
    p: PE::Base,
    x: PE,
)
    ensures { ⟦<PE as From<PE::Base>>⟧.from_gives p x →
        ⟦<PE as BasedVectorSpace<PE::Base>>⟧.coefficients x
        ≡ embed PE.Base.ops ⟦<PE as BasedVectorSpace<PE::Base>>⟧.DIMENSION p }
{}

/// A vector of packings of field values as one of extension values: each part is the packing's image.
pub fn vector_ext_of_vector<
    F: Copy,
    EF: Field,
    P: PrimeCharacteristicRing + Inhabited,
    PE: Algebra<P> + Inhabited,
    const N: usize,
>(v: Vectorized<F, P, N>, w: VectorizedExt<F, EF, PE, N>)
    ensures { ⟦<VectorizedExt<F, EF, PE, N> as From<Vectorized<F, P, N>>>⟧.from_gives v w → (d : P) (e : PE) (k : ℕ) → k < N →
        get_or w.items k e ≡ ⟦<PE as Algebra<P>>⟧.embed (get_or v.items k d) }
{}
