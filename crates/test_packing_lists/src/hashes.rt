//! Residues that differ hash apart.
use p3_prime_fields::baby_bear::BabyBearModulus;
use p3_prime_fields::form::{Plain, ShortForm};
use p3_prime_fields::fp::Fp;
use p3_prime_fields::montgomery::Montgomery;
use p3_prime_fields::small::M17;
use std::alloc::{AllocError, Global};
use std::hash::{Hash, Hasher};
use std::process::Abort;
use std::test::Fail;
use test_values::canonical::Canonical;

/// A hash of bytes: they are digits in base 257 behind those that came before, modulo 2^64. Up to seven
/// bytes behind a one have a hash of their own.
#[derive(Drop)]
struct Digits(u64);

impl Hasher for Digits {
    ghost use Rattle.std.specs.Prelude.{◌+◌, ◌*◌, ◌%◌, ◌^◌, fold};

    ghost write = { λ s bytes. record { 0 = fold (λ h b. ((h * 257) % 2 ^ 64 + b) % 2 ^ 64) s.0 bytes } };

    ghost finish = { λ s. s.0 };

    fn finish(&self) -> u64 {
        self.0
    }

    fn write(&mut self, bytes: &[u8]) {
        for b in bytes {
            self.0 = self.0.wrapping_mul(257).wrapping_add(*b as u64);
        }
    }
}

/// The hash of a value.
fn hash_of<T: Hash>(x: &T) -> u64 {
    let mut state = Digits(1);
    x.hash(&mut state);
    state.finish()
}

/// Whether the hash of each residue of the first so many numbers differs from those of the ones before it.
fn are_apart<F: Canonical + Hash>(alloc: Global, count: u64) -> Result<bool, AllocError> {
    let mut hashes = Vec::new(alloc);
    for n in 0..count {
        let hash = hash_of(&F::of_number(n));
        for other in &hashes {
            if hash == *other {
                return Ok(false);
            }
        }
        hashes.push(hash)?;
    }
    Ok(true)
}

/// Asserts that the residues of the first so many numbers hash apart.
fn assert_apart<W: ShortForm>(rt: &(impl Abort + AllocGlobal), count: u64) -> Result<(), Fail> {
    assert!(rt; are_apart::<Fp<W>>(rt.alloc(), count)?);
    Ok(())
}

#[test]
fn residues_hash_apart(rt: HostRuntime) -> Result<(), Fail> {
    assert_apart::<Plain<M17>>(&rt, 17)?;
    assert_apart::<Montgomery<BabyBearModulus>>(&rt, 31)
}
