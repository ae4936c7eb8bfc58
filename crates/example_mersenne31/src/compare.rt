//! Equality, order, hash, default and text: those of the canonical values.
ghost use Rattle.std.specs.Prelude.{◌≡◌, ◌==◌, Some};
ghost use Rattle.std.specs.Fmt.{decimal};
ghost use Rattle.std.specs.Ordering.{nat_cmp};
ghost use Rattle.example_mersenne31.specs.Elements.{canon, of};

use crate::value::Mersenne31;
use std::cmp::Ordering;
use std::fmt;
use std::hash::{Hash, Hasher};

impl Default for Mersenne31 {
    ghost is_default = { λ x. x ≡ of 0 };

    /// Zero.
    #[inline]
    fn default() -> Self {
        Self::new(0)
    }
}

impl PartialEq for Mersenne31 {
    ghost use Rattle.std.proofs.Common.{rules};
    ghost use Rattle.std.specs.Cmp.Rules.{comparing};
    ghost use Rattle.std.specs.Ordering.{on};

    ghost eq = { on canon ◌==◌ };

    ghost laws = { Prim.search (comparing, rules) };

    #[inline]
    fn eq(&self, other: &Self) -> bool {
        self.word == other.word
    }
}

impl Eq for Mersenne31 {
    ghost use Rattle.std.proofs.Common.{rules};
    ghost use Rattle.std.specs.Cmp.Rules.{comparing};

    ghost laws = { Prim.search (comparing, rules) };
}

impl PartialOrd for Mersenne31 {
    ghost use Rattle.std.proofs.Common.{rules};
    ghost use Rattle.std.specs.Cmp.Rules.{comparing};
    ghost use Rattle.std.specs.Ordering.{on, as_partial_cmp};

    ghost partial_cmp = { as_partial_cmp (on canon nat_cmp) };

    ghost laws = { Prim.search (comparing, rules) };

    #[inline]
    fn partial_cmp(&self, other: &Self) -> Option<Ordering> {
        Some(self.cmp(other))
    }
}

impl Ord for Mersenne31 {
    ghost use Rattle.std.proofs.Common.{rules};
    ghost use Rattle.std.specs.Cmp.Rules.{comparing};
    ghost use Rattle.std.specs.Ordering.{on};

    ghost cmp = { on canon nat_cmp };

    ghost total = { Prim.search (comparing, rules) };

    ghost matches_partial_cmp = { Prim.search (comparing, rules) };

    ghost matches_eq = { Prim.search (comparing, rules) };

    #[inline]
    fn cmp(&self, other: &Self) -> Ordering {
        self.word.cmp(&other.word)
    }
}

impl Hash for Mersenne31 {
    ghost use Rattle.std.proofs.Common.{rules};
    ghost use Rattle.std.specs.Hash as fed;

    ghost hash_input = { λ x. fed.u32 (canon x) };

    ghost respects_eq = { Prim.search rules };

    #[inline]
    fn hash<H: Hasher>(&self, state: &mut H) {
        self.word.hash(state);
    }
}

impl fmt::Display for Mersenne31 {
    ghost output = { λ x. Some (decimal (canon x)) };

    /// The canonical value in decimal digits.
    fn fmt<O: fmt::Write>(&self, f: &mut fmt::Formatter<O>) -> fmt::Result {
        let word = self.word;
        write!(f, "{word}")
    }
}

impl fmt::Debug for Mersenne31 {
    ghost debug_output = { λ x. Some (decimal (canon x)) };

    /// The canonical value in decimal digits.
    fn fmt<O: fmt::Write>(&self, f: &mut fmt::Formatter<O>) -> fmt::Result {
        fmt::Display::fmt(self, f)
    }
}
