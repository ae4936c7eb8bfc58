//! Small orders: fields for hand-made examples, and one ring of residues that is no field.
ghost use Rattle.std.specs.Prelude.{refl};
ghost use Rattle.std.proofs.Common.{lit<};

use crate::form::{Modulus, ModulusOrder, Order, Plain};
use crate::fp::Fp;

/// The marker of the order 2.
pub struct M2;

impl Order for M2 {
    ghost order = { 2 };

    ghost generator = { 1 };
}

impl Modulus for M2 {
    ghost ORDER = { 2 };

    ghost GENERATOR = { 1 };

    ghost above_one = { lit< tt };

    ghost fits = { lit< tt };

    const ORDER: u32 = 2;

    const GENERATOR: u32 = 1;
}

impl ModulusOrder for M2 {
    ghost same_order = { refl };

    ghost same_generator = { refl };
}

/// The prime field of order 2.
pub type F2 = Fp<Plain<M2>>;

/// The marker of the order 17.
pub struct M17;

impl Order for M17 {
    ghost order = { 17 };

    ghost generator = { 3 };
}

impl Modulus for M17 {
    ghost ORDER = { 17 };

    ghost GENERATOR = { 3 };

    ghost above_one = { lit< tt };

    ghost fits = { lit< tt };

    const ORDER: u32 = 17;

    const GENERATOR: u32 = 3;
}

impl ModulusOrder for M17 {
    ghost same_order = { refl };

    ghost same_generator = { refl };
}

/// The prime field of order 17.
pub type F17 = Fp<Plain<M17>>;

/// A second marker of the order 17.
pub struct M17b;

impl Order for M17b {
    ghost order = { 17 };

    ghost generator = { 3 };
}

impl Modulus for M17b {
    ghost ORDER = { 17 };

    ghost GENERATOR = { 3 };

    ghost above_one = { lit< tt };

    ghost fits = { lit< tt };

    const ORDER: u32 = 17;

    const GENERATOR: u32 = 3;
}

impl ModulusOrder for M17b {
    ghost same_order = { refl };

    ghost same_generator = { refl };
}

/// The prime field of order 17 once more, as a type of its own: it can have other extensions.
pub type F17b = Fp<Plain<M17b>>;

/// The marker of the order 31.
pub struct M31;

impl Order for M31 {
    ghost order = { 31 };

    ghost generator = { 3 };
}

impl Modulus for M31 {
    ghost ORDER = { 31 };

    ghost GENERATOR = { 3 };

    ghost above_one = { lit< tt };

    ghost fits = { lit< tt };

    const ORDER: u32 = 31;

    const GENERATOR: u32 = 3;
}

impl ModulusOrder for M31 {
    ghost same_order = { refl };

    ghost same_generator = { refl };
}

/// The prime field of order 31.
pub type F31 = Fp<Plain<M31>>;

/// The marker of the order 15.
pub struct M15;

impl Order for M15 {
    ghost order = { 15 };

    ghost generator = { 2 };
}

impl Modulus for M15 {
    ghost ORDER = { 15 };

    ghost GENERATOR = { 2 };

    ghost above_one = { lit< tt };

    ghost fits = { lit< tt };

    const ORDER: u32 = 15;

    const GENERATOR: u32 = 2;
}

impl ModulusOrder for M15 {
    ghost same_order = { refl };

    ghost same_generator = { refl };
}

/// The residues modulo 15. The order is composite, so 3, 5 and their multiples have no inverse.
pub type Z15 = Fp<Plain<M15>>;
