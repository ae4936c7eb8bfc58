//! A ring whose operations note how many products a value depends on, one after the other.
ghost use Rattle.std.specs.Prelude.{◌≡◌, ℕ, ⊤};
ghost use Rattle.test_depths.specs.Held.{held};

use crate::depths::Depths;
use crate::residue::Residue;
use p3_integers::packed_value::{Inhabited, Packable};
use p3_ring::ring::PrimeCharacteristicRing;
use std::alloc::AllocError;
use std::marker::{Brand, PhantomData};
use std::ops::{Add, AddAssign, Mul, MulAssign, Neg, Sub, SubAssign};

/// Where the table of depths lies. All values of a ring refer to the table there, so the reference
/// tells no two of them apart.
pub trait Place {
    ghost place: { ℕ × ℕ };
}

impl Place for Brand {
    ghost place = { (0, 0) };
}

/// A pair of residues, side by side a ring. A pair of unlike sides also refers to the table of depths,
/// in which each operation notes how deep the products lie that made its result: a product one deeper
/// than its deeper factor, a sum, difference, negation or half as deep as its deeper side. The depth is
/// noted for the first side. It is in a cell, so no contract and no comparison sees it. A pair of two
/// like sides is a multiple of one, which is made with no table at hand, and its depth is 0.
pub struct Deep<'a, P: Place> {
    x: Residue,
    y: Residue,
    depths: Option<&'a Depths>,
    of: PhantomData<P>,
    ghost noted: { depths ≡ held x.word y.word P.place },
}

impl<'a, P: Place> Clone for Deep<'a, P> {
    ghost is_clone = { λ x y. y ≡ x };

    ghost is_infallible = { λ _. ⊤ };

    fn clone(&self) -> Result<Self, AllocError> {
        Ok(*self)
    }
}

impl<'a, P: Place> Copy for Deep<'a, P> {}

impl<'a, P: Place> Deep<'a, P> {
    ghost use Rattle.test_depths.specs.Pairs.{pair};

    /// The depth that is noted for the value; 0 where its sides are alike.
    pub fn depth(&self) -> u16 {
        match self.depths {
            None => 0,
            Some(depths) => depths.at(self.x),
        }
    }

    /// A value whose sides are alike.
    pub fn alike(side: Residue) -> Self
        ensures { result ≡ pair P.Place side side }
    {
        Deep {
            x: side,
            y: side,
            depths: None,
            of: PhantomData,
        }
    }

    /// The value with two sides.
    pub fn of_sides(x: Residue, y: Residue, depths: &'a Depths) -> Self
        requires { depths.ref_ptr ≡ P.place }
        ensures { result ≡ pair P.Place x y }
    {
        if x.word == y.word {
            return Self::alike(x);
        }
        Deep {
            x,
            y,
            depths: Some(depths),
            of: PhantomData,
        }
    }

    /// The value with two sides that an operation made of two values, noted at a depth.
    fn joined(x: Residue, y: Residue, left: &Self, right: &Self, depth: u16) -> Self
        requires { left.now.x ≡ left.now.y → right.now.x ≡ right.now.y → x ≡ y }
        ensures { result ≡ pair P.Place x y }
    {
        if x.word == y.word {
            return Self::alike(x);
        }
        let depths = match left.depths {
            None => right.depths,
            Some(depths) => Some(depths),
        };
        if let Some(depths) = depths {
            depths.note(x, depth);
        }
        Deep {
            x,
            y,
            depths,
            of: PhantomData,
        }
    }
}

impl<'a, P: Place> Add for Deep<'a, P> {
    ghost use Rattle.test_depths.specs.Pairs.{pair_ops};

    type Output = Self;

    ghost add_gives = { λ a b r. r ≡ (pair_ops P.Place).add a b };

    fn add(self, other: Self) -> Self {
        let depth = self.depth().max(other.depth());
        let x = self.x.plus(other.x);
        let y = self.y.plus(other.y);
        Self::joined(x, y, &self, &other, depth)
    }
}

impl<'a, P: Place> AddAssign for Deep<'a, P> {
    ghost use Rattle.test_depths.specs.Pairs.{pair_ops};

    ghost add_assign_gives = { λ a b r. r ≡ (pair_ops P.Place).add a b };

    fn add_assign(&mut self, other: Self) {
        *self = *self + other;
    }
}

impl<'a, P: Place> Sub for Deep<'a, P> {
    ghost use Rattle.test_depths.specs.Pairs.{pair_ops};
    ghost use Rattle.p3_theory.specs.Rings.Ring.{subtract};

    type Output = Self;

    ghost sub_gives = { λ a b r. r ≡ subtract (pair_ops P.Place) a b };

    fn sub(self, other: Self) -> Self {
        self + -other
    }
}

impl<'a, P: Place> SubAssign for Deep<'a, P> {
    ghost use Rattle.test_depths.specs.Pairs.{pair_ops};
    ghost use Rattle.p3_theory.specs.Rings.Ring.{subtract};

    ghost sub_assign_gives = { λ a b r. r ≡ subtract (pair_ops P.Place) a b };

    fn sub_assign(&mut self, other: Self) {
        *self = *self - other;
    }
}

impl<'a, P: Place> Neg for Deep<'a, P> {
    ghost use Rattle.test_depths.specs.Pairs.{pair_ops};

    type Output = Self;

    ghost neg_gives = { λ a r. r ≡ (pair_ops P.Place).neg a };

    fn neg(self) -> Self {
        let depth = self.depth();
        let x = self.x.negated();
        let y = self.y.negated();
        Self::joined(x, y, &self, &self, depth)
    }
}

impl<'a, P: Place> Mul for Deep<'a, P> {
    ghost use Rattle.test_depths.specs.Pairs.{pair_ops};

    type Output = Self;

    ghost mul_gives = { λ a b r. r ≡ (pair_ops P.Place).mul a b };

    fn mul(self, other: Self) -> Self {
        let depth = self.depth().max(other.depth()).saturating_add(1);
        let x = self.x.times(other.x);
        let y = self.y.times(other.y);
        Self::joined(x, y, &self, &other, depth)
    }
}

impl<'a, P: Place> MulAssign for Deep<'a, P> {
    ghost use Rattle.test_depths.specs.Pairs.{pair_ops};

    ghost mul_assign_gives = { λ a b r. r ≡ (pair_ops P.Place).mul a b };

    fn mul_assign(&mut self, other: Self) {
        *self = *self * other;
    }
}

impl<'a, P: Place> PrimeCharacteristicRing for Deep<'a, P> {
    ghost use Rattle.test_depths.specs.Pairs.{pair_ops, pair_laws, pair-order};

    type PrimeSubfield = Residue;

    ghost ops = { pair_ops P.Place };

    fn zero() -> Self {
        Self::alike(Residue::of(0))
    }

    fn one() -> Self {
        Self::alike(Residue::of(1))
    }

    fn from_prime_subfield(f: Residue) -> Self {
        Self::alike(f)
    }

    fn halve(&self) -> Self {
        let depth = self.depth();
        let x = self.x.half();
        let y = self.y.half();
        Self::joined(x, y, self, self, depth)
    }

    ghost ring = { pair_laws P.Place };

    ghost characteristic = { pair-order P.Place };

    ghost adds = { record { callable = λ _ _. tt; exact = λ a b r h. h } };

    ghost add_assigns = { record { callable = λ _ _. tt; exact = λ a b r h. h } };

    ghost subs = { record { callable = λ _ _. tt; exact = λ a b r h. h } };

    ghost sub_assigns = { record { callable = λ _ _. tt; exact = λ a b r h. h } };

    ghost negs = { record { callable = λ _. tt; exact = λ a r h. h } };

    ghost muls = { record { callable = λ _ _. tt; exact = λ a b r h. h } };

    ghost mul_assigns = { record { callable = λ _ _. tt; exact = λ a b r h. h } };
}

impl<'a, P: Place> Default for Deep<'a, P> {
    ghost use Rattle.test_depths.specs.Pairs.{pair_ops};

    ghost is_default = { λ a. a ≡ (pair_ops P.Place).zero };

    /// Zero.
    fn default() -> Self {
        Self::zero()
    }
}

impl<'a, P: Place> Inhabited for Deep<'a, P> {
    ghost use Rattle.test_depths.specs.Pairs.{pair_ops};

    ghost inhabitant = { (pair_ops P.Place).zero };
}

impl<'a, P: Place> PartialEq for Deep<'a, P> {
    ghost use Rattle.std.proofs.Common.{rules};
    ghost use Rattle.std.specs.Cmp.Rules.{comparing};
    ghost use Rattle.std.specs.Ordering.{on};
    ghost use Rattle.std.specs.Prelude.{◌==◌, ◌&&◌};

    ghost eq = { λ a b. (a.x.word == b.x.word) && (a.y.word == b.y.word) };

    ghost laws = { Prim.search (comparing, rules) };

    fn eq(&self, other: &Self) -> bool {
        self.x.word == other.x.word && self.y.word == other.y.word
    }
}

impl<'a, P: Place> Eq for Deep<'a, P> {
    ghost use Rattle.std.proofs.Common.{rules};
    ghost use Rattle.std.specs.Cmp.Rules.{comparing};

    ghost laws = { Prim.search (comparing, rules) };
}

impl<'a, P: Place> Packable for Deep<'a, P> {}
