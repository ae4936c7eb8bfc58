//! Registers that are all zero, by the type of their values. No bound of a field is named here, so
//! that a call at a name's own type passes the form of its words alone.
ghost use Rattle.std.specs.Prelude.{◌≡◌, [], ◌∷◌, map, replicate};
ghost use Rattle.p3_theory.specs.Polynomials.Polynomial.{embed};
ghost use Rattle.p3_theory.specs.ResidueRings.Residues.{residues};
ghost use Rattle.p3_calculator.specs.Registers.{canon};
ghost use Rattle.p3_calculator.specs.Coefficients.{one_coefficient, all_coefficients};

use crate::field::Base;
use crate::registers::Registers;
use p3_extension::extension::ExtField;
use p3_prime_fields::form::{Form, Word};
use p3_prime_fields::fp::Fp;

/// Registers of residues that are all zero.
pub fn zero_residues<W: Form<T>, T: Word>() -> Registers<Fp<W, T>>
    ensures { map (one_coefficient canon) result.values ≡ replicate 16 (0 ∷ []) }
{
    let zero = Fp::default();
    Registers { values: [zero; 16] }
}

/// Registers of polynomials of D coefficients over a base that are all zero.
pub fn zero_polynomials<F: Base, const D: usize, S: Copy>() -> Registers<ExtField<F, D, S, F>>
    ensures { map (all_coefficients F.canon) result.values ≡ replicate 16 (embed (residues F.base_order) D 0) }
{
    let zero = F::zero_residue();
    let value = ExtField::new([zero; D]);
    Registers {
        values: [value; 16],
    }
}
