//! The sixteen registers of the chosen field.
ghost use Rattle.std.specs.Prelude.{◌≡◌, ◌<◌, map, length, slice_set};

use crate::field::CalculatorField;
use std::alloc::AllocError;

/// Sixteen registers of values of one field.
pub struct Registers<F> {
    pub values: [F; 16],
    pub ghost full: { length values ≡ 16 },
}

impl<F: Copy> Clone for Registers<F> {
    ghost use Rattle.std.specs.Prelude.{⊤};

    ghost is_clone = { λ x y. y ≡ x };

    ghost is_infallible = { λ _. ⊤ };

    fn clone(&self) -> Result<Self, AllocError> {
        Ok(*self)
    }
}

impl<F: Copy> Copy for Registers<F> {}

impl<F: CalculatorField> Registers<F> {
    ghost use Rattle.p3_calculator.specs.States.{register_at};

    /// The value of a register.
    pub fn get(&self, r: usize) -> F
        requires { r < 16 }
        ensures { F.coefficients result ≡ register_at (map F.coefficients self.now.values) r }
    {
        self.values[r]
    }

    /// Sets a register to a value.
    pub fn set(&mut self, r: usize, x: F)
        requires { r < 16 }
        ensures { map F.coefficients self.new.values ≡ slice_set (map F.coefficients self.old.values) r (F.coefficients x) }
    {
        self.values[r] = x;
    }
}
