//! Inverses and quotients of extension values, by the product of the images under the Frobenius map.
ghost use Rattle.std.specs.Prelude.{◌≡◌, ◌≢◌, ◌-◌, ℕ, MatchOption};
ghost use Rattle.p3_theory.specs.Rings.Ring.{Ops, Invertible, IsInverse};
ghost use Rattle.p3_theory.specs.FrobeniusMaps.Frobenius.{iterate};
ghost use Rattle.p3_extension.specs.Values.{ext_ops};
ghost use Rattle.p3_extension.specs.Conjugates.{frobenius_map, conjugate_product};

use super::ext_field::ExtField;
use super::{ExtensionShape, FrobeniusExtendable, InverseByFormula};
use p3_field_traits::field::Field;
use p3_ring::ring::PrimeCharacteristicRing;
use std::ops::{Div, DivAssign};

impl<F: FrobeniusExtendable<D, S>, const D: usize, S: ExtensionShape> ExtField<F, D, S, F> {
    /// The Frobenius map: X becomes its image.
    #[inline]
    pub(super) fn frobenius_image(&self) -> Self
        ensures { result ≡ frobenius_map F.ops F.modulus F.image self.now }
    {
        let mut value = self.value;
        F::apply_frobenius(&self.value, &mut value);
        ExtField::<F, D, S, F>::new(value)
    }

    /// The product of the images after 1 to D - 1 times, by D - 2 products.
    #[inline]
    fn conjugates(&self) -> Self
        ensures { result ≡ conjugate_product F.ops F.modulus F.image self.now }
    {
        let mut product = self.frobenius_image();
        for _ in 2..D {
            let next = product * *self;
            product = next.frobenius_image();
        }
        product
    }

    /// The product of the images after 1 to 4 times, by two products.
    #[inline]
    fn quintic_conjugates(&self) -> Self
        requires { D ≡ 5 }
        ensures { result ≡ conjugate_product F.ops F.modulus F.image self.now }
    {
        let image = self.frobenius_image();
        let pair = *self * image;
        let first = pair.frobenius_image();
        let mut value = first.value;
        F::apply_repeated_frobenius(&first.value, 2, &mut value);
        let second = ExtField::<F, D, S, F>::new(value);
        first * second
    }

    /// An inverse, from the product of the conjugates: that divided by the norm, which is the
    /// constant coefficient of the value times its conjugates.
    #[inline]
    fn inverse_from(&self, conjugates: Self) -> Option<Self>
        requires { conjugates ≡ conjugate_product F.ops F.modulus F.image self.now }
        ensures { MatchOption result ((y : _) → (ext_ops F.ops F.modulus).mul self.now y ≢ (ext_ops F.ops F.modulus).one) (λ y. IsInverse (ext_ops F.ops F.modulus) self.now y) }
    {
        let norm = F::constant_of_product(&self.value, &conjugates.value);
        match norm.try_inverse() {
            Some(i) => {
                let mut value = conjugates.value;
                F::ext_base_mul(&conjugates.value, i, &mut value);
                let y = ExtField::<F, D, S, F>::new(value);
                Some(y)
            }
            None => None,
        }
    }

    /// An inverse, by the norm, at any degree.
    #[inline]
    pub(super) fn inverse_by_norm(&self) -> Option<Self>
        ensures { MatchOption result ((y : _) → (ext_ops F.ops F.modulus).mul self.now y ≢ (ext_ops F.ops F.modulus).one) (λ y. IsInverse (ext_ops F.ops F.modulus) self.now y) }
    {
        self.inverse_from(self.conjugates())
    }

    /// An inverse at degree five. Upstream's `quintic_inv`.
    #[inline]
    fn quintic_inv(&self) -> Option<Self>
        requires { D ≡ 5 }
        ensures { MatchOption result ((y : _) → (ext_ops F.ops F.modulus).mul self.now y ≢ (ext_ops F.ops F.modulus).one) (λ y. IsInverse (ext_ops F.ops F.modulus) self.now y) }
    {
        self.inverse_from(self.quintic_conjugates())
    }

    /// An inverse, by the fixed formula of the degree where there is one (`binomial_inv` in
    /// `p3_extension_formulas/src/binomial_extension.rt`), and elsewhere by the norm: lemmas `found_by` and `absent_by`
    /// of `specs/Conjugates`.
    #[inline]
    pub(super) fn exact_inverse(&self) -> Option<Self>
        ensures { MatchOption result ((y : _) → (ext_ops F.ops F.modulus).mul self.now y ≢ (ext_ops F.ops F.modulus).one) (λ y. IsInverse (ext_ops F.ops F.modulus) self.now y) }
    {
        let mut value = self.value;
        match F::inverse_by_formula(&self.value, &mut value) {
            InverseByFormula::Found => Some(ExtField::<F, D, S, F>::new(value)),
            InverseByFormula::NoInverse => None,
            InverseByFormula::NoFormula => {
                if D == 5 {
                    self.quintic_inv()
                } else {
                    self.inverse_by_norm()
                }
            }
        }
    }
}

impl<F: FrobeniusExtendable<D, S>, const D: usize, S: ExtensionShape> Div for ExtField<F, D, S, F> {
    type Output = Self;

    ghost can_div = { λ x y. Invertible (ext_ops F.ops F.modulus) y };

    ghost div_gives = { λ x y r. (ext_ops F.ops F.modulus).mul r y ≡ x };

    #[inline]
    fn div(self, other: Self) -> Self {
        self * other.exact_inverse().unwrap()
    }
}

impl<F: FrobeniusExtendable<D, S>, const D: usize, S: ExtensionShape> DivAssign
    for ExtField<F, D, S, F> {
    ghost can_div_assign = { λ x y. Invertible (ext_ops F.ops F.modulus) y };

    ghost div_assign_gives = { λ x y r. (ext_ops F.ops F.modulus).mul r y ≡ x };

    #[inline]
    fn div_assign(&mut self, other: Self) {
        *self = *self / other;
    }
}

impl<F: FrobeniusExtendable<D, S>, const D: usize, S: ExtensionShape> Field
    for ExtField<F, D, S, F> {
    ghost use Rattle.std.specs.Prelude.{refl};
    ghost use Rattle.p3_theory.specs.Polynomials.Text.{polynomial_text};
    ghost use Rattle.p3_theory.specs.Polynomials.Polynomial.{tabulate};
    ghost use Rattle.p3_theory.specs.Polynomials.Coefficients.{length-tabulate};
    ghost use Rattle.p3_extension.specs.Values.{value_of, constants_apart, decides_equality};
    ghost use Rattle.p3_extension.specs.Orders.{extension_size, extension_values};

    ghost text = { λ x. polynomial_text (λ c. F.eq c F.ops.zero) (λ c. F.eq c F.ops.one) F.text x.value };

    ghost size = { extension_size F.size D };

    ghost generator = { value_of (tabulate D F.generator_coefficients) (length-tabulate D F.generator_coefficients) };

    const BENEFITS_FROM_LOCKSTEP_EVALUATION: bool = false;

    #[inline]
    fn generator() -> Self {
        let mut value = [F::zero(); D];
        for i in 0..D {
            value[i] = F::generator_coefficient(i);
        }
        ExtField::<F, D, S, F>::new(value)
    }

    #[inline]
    fn try_inverse(&self) -> Option<Self> {
        self.exact_inverse()
    }

    #[inline]
    fn order() -> Option<u128> {
        let base = F::order()?;
        let mut order: u128 = 1;
        for _ in 0..D {
            order = order.checked_mul(base)?;
        }
        Some(order)
    }

    ghost values = { extension_values F.size D F.values };

    ghost zero_is_not_one = { constants_apart F.ops D F.at_least_two F.zero_is_not_one };

    ghost equals = { decides_equality F.equals };

    ghost can_divide = { λ x y h. h };

    ghost divides = { λ x y r h. h };

    ghost can_divide_assign = { λ x y h. h };

    ghost divide_assigns = { λ x y r h. h };

    ghost shows = { λ x. refl };
}
