//! Depths of lists of powers and of values of polynomials.
ghost use Rattle.std.specs.Prelude.{◌≡◌};

use crate::deep::{Deep, Place};
use crate::depths::Depths;
use crate::residue::Residue;
use p3_helpers::helpers::HornerIter;
use p3_ring::ring::PrimeCharacteristicRing;
use std::alloc::{AllocError, Global};
use std::marker::Brand;
use std::test::Fail;

/// The depth of the power 1023 in a list of 1025 powers that `collect` fills.
fn collected_depth<P: Place>(alloc: Global, depths: &Depths) -> Result<Option<u16>, AllocError>
    requires { depths.ref_ptr ≡ P.place }
{
    let base = Deep::<P>::of_sides(Residue::of(14), Residue::of(0), depths);
    let powers = base.powers().take(1025).collect::<Deep<P>>(alloc)?;
    match powers.get(1023) {
        Some(power) => Ok(Some(power.depth())),
        None => Ok(None),
    }
}

/// The depth of the power 1023 where each power is the one before, times the base.
fn chained_depth<P: Place>(depths: &Depths) -> u16
    requires { depths.ref_ptr ≡ P.place }
{
    let base = Deep::<P>::of_sides(Residue::of(14), Residue::of(0), depths);
    let mut power = Deep::<P>::one();
    for _ in 0..1023 {
        power *= base;
    }
    power.depth()
}

/// The depth of a polynomial of 1024 coefficients at a point.
fn polynomial_depth<P: Place>(depths: &Depths) -> u16
    requires { depths.ref_ptr ≡ P.place }
{
    let coefficient = Deep::<P>::of_sides(Residue::of(1), Residue::of(0), depths);
    let point = Deep::<P>::of_sides(Residue::of(14), Residue::of(0), depths);
    let value: Deep<P> = [coefficient; 1024].into_iter().horner(point);
    value.depth()
}

#[test]
fn eight_chains_are_shallow(rt: HostRuntime) -> Result<(), Fail> {
    let depths = Depths::new();
    let depth = collected_depth::<Brand>(rt.alloc(), &depths)?.ok_or("no power 1023")?;
    assert!(rt; 120 <= depth, "{depth}");
    assert!(rt; depth <= 200, "{depth}");
    Ok(())
}

#[test]
fn one_chain_is_deep(rt: HostRuntime) -> Result<(), Fail> {
    let depths = Depths::new();
    let depth = chained_depth::<Brand>(&depths);
    assert!(rt; 1000 < depth, "{depth}");
    Ok(())
}

#[test]
fn four_strands_are_shallow(rt: HostRuntime) -> Result<(), Fail> {
    let depths = Depths::new();
    let depth = polynomial_depth::<Brand>(&depths);
    assert!(rt; 240 <= depth, "{depth}");
    assert!(rt; depth <= 300, "{depth}");
    Ok(())
}
