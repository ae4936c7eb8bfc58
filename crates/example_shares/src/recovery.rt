//! A secret from its shares.
ghost use Rattle.std.specs.Prelude.{◌≡◌, ◌↔◌, ◌<◌, length, take, IfOk, OnOk, IsErrOf};
ghost use Rattle.example_shares.specs.Lagrange.{AreWeights};
ghost use Rattle.example_shares.specs.Secrets.{AreApart, IsSecret};
ghost use Rattle.example_shares.specs.ShareLists.{points, values};
ghost use Rattle.example_shares.specs.declared.recovery.RecoverError.TheVariants.{OutOfMemory};

use crate::lagrange::{combine, denominators, product};
use crate::shares::Share;
use p3_field_traits::field::Field;
use p3_helpers::batch_inverse::batch_multiplicative_inverse;
use std::alloc::{AllocError, Global};
use std::error::Error;
use std::fmt;

/// Why a secret is not recovered.
#[derive(Clone, Copy, Debug, PartialEq, Eq)]
pub enum RecoverError {
    /// There are fewer shares than the threshold.
    TooFewShares,
    /// The difference of two of the points has no inverse, as where one of them comes twice.
    NoInverse,
    /// The memory for the inverses was refused.
    OutOfMemory,
}

impl fmt::Display for RecoverError {
    fn fmt<W: fmt::Write>(&self, f: &mut fmt::Formatter<W>) -> fmt::Result {
        match self {
            RecoverError::TooFewShares => write!(f, "too few shares"),
            RecoverError::NoInverse => write!(f, "the difference of two points has no inverse"),
            RecoverError::OutOfMemory => write!(f, "out of memory"),
        }
    }
}

impl Error for RecoverError {}

impl From<AllocError> for RecoverError {
    ghost from_gives = { λ _ e. e ≡ OutOfMemory };

    fn from(_e: AllocError) -> RecoverError {
        RecoverError::OutOfMemory
    }
}

/// The weights of Lagrange's formula: for each share the inverse of the product of the differences of the
/// other points and its own. All inverses are taken by one batch inversion.
fn weights<F: Field>(alloc: Global, shares: &[Share<F>]) -> Result<Vec<F>, RecoverError>
    ensures lengths { IfOk result (λ ws. length ws.items ≡ length shares.now) }
    ensures weights { IfOk result (λ ws. AreWeights F.ops (points shares.now) ws.items) }
    ensures apart { OnOk result (AreApart F.ops (points shares.now)) }
    ensures inverse { IsErrOf result RecoverError.NoInverse → ¬ AreApart F.ops (points shares.now) }
    ensures enough { ¬ IsErrOf result RecoverError.TooFewShares }
{
    let products = denominators(alloc, shares)?;
    let whole = product(&products);
    match whole.try_inverse() {
        None => Err(RecoverError::NoInverse),
        Some(_) => {
            let inverses = batch_multiplicative_inverse(alloc, &products)?;
            Ok(inverses)
        }
    }
}

/// The secret of shares of a polynomial with at most `threshold` coefficients: its constant coefficient, by
/// Lagrange's formula at zero over the first `threshold` shares, in whatever order they come. It refuses
/// exactly where there are fewer, where the difference of two of their points has no inverse, and where
/// memory is refused.
pub fn recover<F: Field>(
    alloc: Global,
    threshold: usize,
    shares: &[Share<F>],
) -> Result<F, RecoverError>
    ensures secret { let chosen = take threshold shares.now in
        IfOk result (λ s. IsSecret F.ops (points chosen) (values chosen) s) }
    ensures apart { OnOk result (AreApart F.ops (points (take threshold shares.now))) }
    ensures inverse { IsErrOf result RecoverError.NoInverse → ¬ AreApart F.ops (points (take threshold shares.now)) }
    ensures few { IsErrOf result RecoverError.TooFewShares ↔ (length shares.now < threshold) }
{
    if shares.len() < threshold {
        return Err(RecoverError::TooFewShares);
    }
    let chosen = &shares[..threshold];
    let weights = weights(alloc, chosen)?;
    Ok(combine(chosen, &weights))
}
