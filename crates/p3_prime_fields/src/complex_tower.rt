//! The extension of degree 2 over the complex values of `F31`.
ghost use Rattle.std.specs.Prelude.{[], ◌∷◌, codes, refl, get_or};
ghost use Rattle.std.proofs.Common.{lit≤};
ghost use Rattle.p3_theory.specs.ResidueRings.Residues.{residue_laws};
ghost use Rattle.p3_theory.specs.Rings.Ring.{ring_of};
ghost use Rattle.p3_extension.specs.ComplexTowers.{complex_root_power, complex_root_apart};
ghost use Rattle.p3_extension.specs.ComplexValues.{complex_ops};
ghost use Rattle.p3_prime_fields.specs.ComplexNumbers.{complex_of};
ghost use Rattle.p3_prime_fields.specs.ComplexTower.{tower_entry, tower_w, tower_generators};
ghost use Rattle.p3_prime_fields.specs.Elements.{of, ops, is};
ghost use Rattle.p3_residues.specs.Halves.{two_has_inverse};

use crate::extensions::{F31c, complex};
use crate::form::{Form, Plain};
use crate::small::{F31, M31};
use p3_extension::extension::{
    BinomialExtensionField, HasComplexBinomialExtension, HasTwoAdicComplexBinomialExtension,
};
use p3_ring::ring::{Algebra, PrimeCharacteristicRing};

/// The extension of `F31c` by `Y^2 = 3 + 2 X`.
pub type F31cx2 = BinomialExtensionField<F31c, 2>;

impl HasComplexBinomialExtension<2> for F31 {
    ghost w = { complex_of (of ⟦<Plain<M31> as Form<u32>>⟧) tower_w };

    ghost dth_root = { let o = complex_ops (ops ⟦<Plain<M31> as Form<u32>>⟧) in o.neg o.one };

    ghost ext_generator = { λ i. complex_of (of ⟦<Plain<M31> as Form<u32>>⟧) (get_or (0 ∷ 1 ∷ []) i 0 ∷ 0 ∷ []) };

    ghost complex_binomial_algebra_id = { codes "bench:f31cx2" };

    #[inline]
    fn complex_binomial_algebra_id() -> &'static str {
        "bench:f31cx2"
    }

    #[inline]
    fn w() -> F31c {
        complex(3, 2)
    }

    #[inline]
    fn embedded_w<P: Algebra<F31c>>() -> P {
        P::from(complex(3, 2))
    }

    #[inline]
    fn dth_root() -> F31c {
        let real = F31::neg_one();
        let imag = F31::zero();
        F31c::new_complex(real, imag)
    }

    #[inline]
    fn ext_generator(i: usize) -> F31c {
        let real = [0, 1][i];
        complex(real, 0)
    }

    ghost at_least_two = { lit≤ tt };

    ghost root_power = { complex_root_power (ring_of (residue_laws (is ⟦<Plain<M31> as Form<u32>>⟧))) };

    ghost apart = { complex_root_apart (ring_of (residue_laws (is ⟦<Plain<M31> as Form<u32>>⟧))) (two_has_inverse (is ⟦<Plain<M31> as Form<u32>>⟧) refl) };
}

impl HasTwoAdicComplexBinomialExtension<2> for F31 {
    ghost complex_ext_two_adic = { λ bits i. complex_of (of ⟦<Plain<M31> as Form<u32>>⟧) (tower_entry bits i) };

    const COMPLEX_EXT_TWO_ADICITY: usize = 7;

    ghost COMPLEX_EXT_TWO_ADICITY = { 7 };

    #[inline]
    fn complex_ext_two_adic_generator(bits: usize, i: usize) -> F31c {
        let row = [
            [[1, 0], [0, 0]],
            [[30, 0], [0, 0]],
            [[0, 1], [0, 0]],
            [[4, 4], [0, 0]],
            [[7, 18], [0, 0]],
            [[29, 11], [0, 0]],
            [[18, 27], [0, 0]],
            [[0, 0], [15, 18]],
        ][bits][i];
        complex(row[0], row[1])
    }

    ghost complex_ext_generators = { tower_generators (is ⟦<Plain<M31> as Form<u32>>⟧) };

    ghost complex_ext_divides_order = { (7215, refl) };
}
