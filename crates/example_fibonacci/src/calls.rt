//! A function over every field, called at an extension that has a name.
ghost use Rattle.std.specs.Prelude.{◌≡◌};
ghost use Rattle.p3_field.specs.Powers.{power};

use crate::residues::F97x2;
use p3_field::extension::{ExtField, ExtensionShape, FrobeniusExtendable};
use p3_field::{Field, PrimeCharacteristicRing};

/// The third power.
fn cube<K: Field>(x: K) -> K
    ensures { result ≡ power K.ops x 3 }
{
    x.cube()
}

/// The third power of a value of an extension of F.
fn cube_extension<F: FrobeniusExtendable<D, S>, const D: usize, S: ExtensionShape>(
    x: ExtField<F, D, S, F>,
) -> ExtField<F, D, S, F>
    ensures { result ≡ power ⟦<ExtField<F, D, S, F> as PrimeCharacteristicRing>⟧.ops x 3 }
{
    cube(x)
}

/// The third power of a value of the extension by `X^2 = 5`.
pub fn cube_named(x: F97x2) -> F97x2
    ensures { result ≡ power ⟦<F97x2 as PrimeCharacteristicRing>⟧.ops x 3 }
{
    cube_extension(x)
}
