//! Shares and secrets over the residues modulo 17 and modulo 15, worked by hand.

use example_shares::lines::{LineError, answer};
use example_shares::recovery::{RecoverError, recover};
use example_shares::shares::Share;
use p3_field_traits::field::PrimeField64;
use p3_prime_fields::small::{F17, Z15};
use std::alloc::Global;

/// Whether each line is answered by the text beside it, and refused where there is none.
fn all_answered<F: PrimeField64>(alloc: Global, rows: &[(&str, Option<&str>)]) -> bool {
    for (line, wanted) in rows {
        let right = match answer::<F>(alloc, line) {
            Ok(text) => *wanted == Some(text.as_str()),
            Err(_) => wanted.is_none(),
        };
        if !right {
            return false;
        }
    }
    true
}

/// Why shares with these points don't recover a secret at this threshold.
fn refusal<F: PrimeField64>(
    alloc: Global,
    threshold: usize,
    points: &[u64],
) -> Option<RecoverError> {
    let mut shares = Vec::new(alloc);
    for point in points {
        let share = Share {
            point: F::from_u64(*point),
            value: F::one(),
        };
        if shares.push(share).is_err() {
            return Some(RecoverError::OutOfMemory);
        }
    }
    recover(alloc, threshold, &shares).err()
}

/// 5 + 3 X + 7 X^2 modulo 17 has the values 15, 5, 9, 10 and 8 at 1 to 5.
#[test]
fn any_three_shares_of_five(rt: HostRuntime) {
    let rows = [
        ("split 3 5 5 3 7", Some("1 15\n2 5\n3 9\n4 10\n5 8\n")),
        ("recover 1 15 2 5 3 9", Some("5\n")),
        ("recover 5 8 1 15 3 9", Some("5\n")),
        ("recover 4 10 2 5 5 8", Some("5\n")),
        ("recover 2 5 2 5 3 9", None),
        ("recover 1 17", None),
    ];
    assert!(rt; all_answered::<F17>(rt.alloc(), &rows));
}

/// 7 + 4 X has the values 11, 0 and 8 at 1, 2 and 4. Modulo 15 the difference 3 has no inverse.
#[test]
fn needs_differences_with_inverses(rt: HostRuntime) {
    let rows = [
        ("recover 2 0 4 8", Some("7\n")),
        ("recover 1 11 2 0", Some("7\n")),
        ("recover 1 11 4 8", None),
    ];
    assert!(rt; all_answered::<Z15>(rt.alloc(), &rows));
}

#[test]
fn says_why(rt: HostRuntime) {
    let refused = refusal::<F17>(rt.alloc(), 3, &[1, 2]);
    assert!(rt; refused == Some(RecoverError::TooFewShares));
    let refused = refusal::<F17>(rt.alloc(), 2, &[1, 18]);
    assert!(rt; refused == Some(RecoverError::NoInverse));
    assert!(rt; answer::<F17>(rt.alloc(), "combine 1 2").err() == Some(LineError::UnknownCommand));
    assert!(rt; answer::<F17>(rt.alloc(), "split 2 3 5").err() == Some(LineError::WordCount));
    assert!(rt; answer::<F17>(rt.alloc(), "split 2 17 5 3").err() == Some(LineError::BadThreshold));
    assert!(rt; answer::<F17>(rt.alloc(), "recover 1 x").err() == Some(LineError::BadNumber));
}
