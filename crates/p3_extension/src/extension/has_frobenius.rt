//! The Frobenius map of extension values, their orbits and pseudo-inverses.
ghost use Rattle.std.specs.Prelude.{◌≡◌, IfOk};
ghost use Rattle.p3_theory.specs.Rings.Ring.{Ops, Invertible, IsInverse};
ghost use Rattle.p3_theory.specs.FrobeniusMaps.Frobenius.{iterate, IsFrobenius};
ghost use Rattle.p3_theory.specs.FrobeniusMaps.FrobeniusTable.{orbit_list};
ghost use Rattle.p3_extension.specs.Conjugates.{frobenius_map};

use super::ext_field::ExtField;
use super::{ExtensionShape, FrobeniusExtendable};
use p3_extension_traits::extension_field::ExtensionField;
use p3_field_traits::field::Field;
use p3_ring::ring::PrimeCharacteristicRing;
use std::alloc::{AllocError, Allocator, Global};

/// An extension of F with its Frobenius map. Upstream's `HasFrobenius`.
pub trait HasFrobenius<F: Field>: ExtensionField<F> {
    /// The Frobenius map.
    ghost frobenius: { Self → Self };

    /// The Frobenius map of the value.
    fn frobenius(&self) -> Self
        ensures { result ≡ frobenius self.now };

    /// The Frobenius map, taken `count` times.
    fn repeated_frobenius(&self, count: usize) -> Self
        ensures { result ≡ iterate frobenius count self.now };

    /// The inverse, or zero where there is none.
    fn pseudo_inv(&self) -> Self
        ensures inverse { Invertible Self.ops self.now → IsInverse Self.ops self.now result }
        ensures none { ¬ (Invertible Self.ops self.now) → result ≡ Self.ops.zero };

    /// The value and its images under the map, taken up to dimension less one times; `Err` where the
    /// memory for them is refused.
    #[inline]
    fn galois_orbit(self, alloc: Global) -> Result<Vec<Self>, AllocError>
        ensures { IfOk result (λ orbit. orbit.items ≡ orbit_list frobenius Self.DIMENSION self) }
    {
        self.galois_orbit_in(alloc)
    }

    /// `galois_orbit` in any allocator. It asks for memory once. This project's own.
    fn galois_orbit_in<A: Allocator + Copy>(self, alloc: A) -> Result<Vec<Self, A>, AllocError>
        ensures { IfOk result (λ orbit. orbit.items ≡ orbit_list frobenius Self.DIMENSION self) };

    /// The map keeps sums.
    ghost keeps_sums: { (x y : Self) → frobenius (Self.ops.add x y) ≡ Self.ops.add (frobenius x) (frobenius y) };

    /// The map keeps products, fixes the base, is the identity after as many times as the dimension
    /// says, and leaves only base values unchanged.
    ghost frobenius_laws: { IsFrobenius F.ops Self.ops Self.embed Self.DIMENSION frobenius };
}

impl<F: FrobeniusExtendable<D, S>, const D: usize, S: ExtensionShape> ExtField<F, D, S, F> {
    /// The value and its images under the map, D in all.
    #[inline]
    fn orbit_in<A: Allocator + Copy>(self, alloc: A) -> Result<Vec<Self, A>, AllocError>
        ensures { IfOk result (λ orbit. orbit.items ≡ orbit_list (frobenius_map F.ops F.modulus F.image) D self) }
    {
        let mut orbit = Vec::with_capacity(alloc, D)?;
        let mut image = self;
        for _ in 0..D {
            orbit.push(image)?;
            image = image.frobenius_image();
        }
        Ok(orbit)
    }
}

impl<F: FrobeniusExtendable<D, S>, const D: usize, S: ExtensionShape> HasFrobenius<F>
    for ExtField<F, D, S, F> {
    ghost use Rattle.p3_theory.specs.Rings.Ring.{ring_of};
    ghost use Rattle.p3_extension.specs.FrobeniusLaws.{map_keeps_sums, map_is_frobenius};

    ghost frobenius = { frobenius_map F.ops F.modulus F.image };

    #[inline]
    fn frobenius(&self) -> Self {
        self.frobenius_image()
    }

    #[inline]
    fn repeated_frobenius(&self, count: usize) -> Self {
        let turns = count % D;
        let mut value = self.value;
        F::apply_repeated_frobenius(&self.value, turns, &mut value);
        ExtField::<F, D, S, F>::new(value)
    }

    #[inline]
    fn pseudo_inv(&self) -> Self {
        match self.inverse_by_norm() {
            Some(y) => y,
            None => <Self as PrimeCharacteristicRing>::zero(),
        }
    }

    #[inline]
    fn galois_orbit(self, alloc: Global) -> Result<Vec<Self>, AllocError> {
        self.orbit_in(alloc)
    }

    #[inline]
    fn galois_orbit_in<A: Allocator + Copy>(self, alloc: A) -> Result<Vec<Self, A>, AllocError> {
        self.orbit_in(alloc)
    }

    ghost keeps_sums = { map_keeps_sums F.ops F.modulus F.image F.frobenius_laws };

    ghost frobenius_laws = { map_is_frobenius F.ops F.modulus F.image F.frobenius_laws };
}
