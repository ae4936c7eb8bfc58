//! What the twelve integer types have in common: the integer that a value is, and its remainder.
ghost use Rattle.std.specs.Prelude.{◌≡◌, ◌<◌, ◌≤◌, ℤ, pos, MatchOption};
ghost use Rattle.p3_theory.specs.Rings.Multiples.{remainder_of, IsCanonical};

/// An integer type.
pub trait Integer: Copy {
    ghost value: { Self → ℤ };

    /// The remainder from 0 to order - 1.
    fn remainder(self, order: u64) -> u64
        requires { 0 < order }
        ensures { result ≡ remainder_of (value self) order };

    /// The number itself where it is below the order.
    fn canonical(self, order: u64) -> Option<u64>
        ensures { MatchOption result (IsCanonical (value self) order → ⊥) (λ n. (value self ≡ pos n) × (n < order)) };

    /// The number itself, which fits.
    fn word(self) -> u64
        requires { IsCanonical (value self) 18446744073709551616 }
        ensures { value self ≡ pos result };
}

impl Integer for u8 {
    ghost value = { λ n. pos n };

    fn remainder(self, order: u64) -> u64 {
        self as u64 % order
    }

    fn canonical(self, order: u64) -> Option<u64> {
        if (self as u64) < order {
            Some(self as u64)
        } else {
            None
        }
    }

    fn word(self) -> u64 {
        self as u64
    }
}

impl Integer for u16 {
    ghost value = { λ n. pos n };

    fn remainder(self, order: u64) -> u64 {
        self as u64 % order
    }

    fn canonical(self, order: u64) -> Option<u64> {
        if (self as u64) < order {
            Some(self as u64)
        } else {
            None
        }
    }

    fn word(self) -> u64 {
        self as u64
    }
}

impl Integer for u32 {
    ghost value = { λ n. pos n };

    fn remainder(self, order: u64) -> u64 {
        self as u64 % order
    }

    fn canonical(self, order: u64) -> Option<u64> {
        if (self as u64) < order {
            Some(self as u64)
        } else {
            None
        }
    }

    fn word(self) -> u64 {
        self as u64
    }
}

impl Integer for u64 {
    ghost value = { λ n. pos n };

    fn remainder(self, order: u64) -> u64 {
        self % order
    }

    fn canonical(self, order: u64) -> Option<u64> {
        if self < order { Some(self) } else { None }
    }

    fn word(self) -> u64 {
        self
    }
}

impl Integer for u128 {
    ghost value = { λ n. pos n };

    fn remainder(self, order: u64) -> u64 {
        (self % order as u128) as u64
    }

    fn canonical(self, order: u64) -> Option<u64> {
        if self < order as u128 {
            Some(self as u64)
        } else {
            None
        }
    }

    fn word(self) -> u64 {
        self as u64
    }
}

impl Integer for usize {
    ghost value = { λ n. pos n };

    fn remainder(self, order: u64) -> u64 {
        self as u64 % order
    }

    fn canonical(self, order: u64) -> Option<u64> {
        if (self as u64) < order {
            Some(self as u64)
        } else {
            None
        }
    }

    fn word(self) -> u64 {
        self as u64
    }
}

impl Integer for i8 {
    ghost value = { λ z. z };

    fn remainder(self, order: u64) -> u64 {
        if self < 0 {
            order - 1 - (self.unsigned_abs() - 1).remainder(order)
        } else {
            (self as u8).remainder(order)
        }
    }

    fn canonical(self, order: u64) -> Option<u64> {
        if self < 0 {
            None
        } else {
            (self as u8).canonical(order)
        }
    }

    fn word(self) -> u64 {
        self as u64
    }
}

impl Integer for i16 {
    ghost value = { λ z. z };

    fn remainder(self, order: u64) -> u64 {
        if self < 0 {
            order - 1 - (self.unsigned_abs() - 1).remainder(order)
        } else {
            (self as u16).remainder(order)
        }
    }

    fn canonical(self, order: u64) -> Option<u64> {
        if self < 0 {
            None
        } else {
            (self as u16).canonical(order)
        }
    }

    fn word(self) -> u64 {
        self as u64
    }
}

impl Integer for i32 {
    ghost value = { λ z. z };

    fn remainder(self, order: u64) -> u64 {
        if self < 0 {
            order - 1 - (self.unsigned_abs() - 1).remainder(order)
        } else {
            (self as u32).remainder(order)
        }
    }

    fn canonical(self, order: u64) -> Option<u64> {
        if self < 0 {
            None
        } else {
            (self as u32).canonical(order)
        }
    }

    fn word(self) -> u64 {
        self as u64
    }
}

impl Integer for i64 {
    ghost value = { λ z. z };

    fn remainder(self, order: u64) -> u64 {
        if self < 0 {
            order - 1 - (self.unsigned_abs() - 1).remainder(order)
        } else {
            (self as u64).remainder(order)
        }
    }

    fn canonical(self, order: u64) -> Option<u64> {
        if self < 0 {
            None
        } else {
            (self as u64).canonical(order)
        }
    }

    fn word(self) -> u64 {
        self as u64
    }
}

impl Integer for i128 {
    ghost value = { λ z. z };

    fn remainder(self, order: u64) -> u64 {
        if self < 0 {
            order - 1 - (self.unsigned_abs() - 1).remainder(order)
        } else {
            (self as u128).remainder(order)
        }
    }

    fn canonical(self, order: u64) -> Option<u64> {
        if self < 0 {
            None
        } else {
            (self as u128).canonical(order)
        }
    }

    fn word(self) -> u64 {
        self as u64
    }
}

impl Integer for isize {
    ghost value = { λ z. z };

    fn remainder(self, order: u64) -> u64 {
        if self < 0 {
            order - 1 - (self.unsigned_abs() - 1).remainder(order)
        } else {
            (self as usize).remainder(order)
        }
    }

    fn canonical(self, order: u64) -> Option<u64> {
        if self < 0 {
            None
        } else {
            (self as usize).canonical(order)
        }
    }

    fn word(self) -> u64 {
        self as u64
    }
}
