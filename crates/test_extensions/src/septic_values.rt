//! The rows of the Frobenius map of the extension by `X^7 = X + 1`, worked by hand.
ghost use Rattle.std.specs.Prelude.{◌<◌};

use p3_extension::extension::{ExtendableModulo, Septic, SepticTrinomialExtendable};
use p3_prime_fields::small::F2;
use test_values::canonical::Canonical;

/// The coefficients of the power i + 1 of the image of X.
fn septic_row<F: SepticTrinomialExtendable + Canonical>(i: usize) -> [u64; 7]
    requires { i < 6 }
{
    let mut row = [0; 7];
    for k in 0..7 {
        row[k] = F::frobenius_coeffs(i, k).canonical();
    }
    row
}

/// The same for a field that gives the table of the polynomial: a test at a field passes that alone.
fn frobenius_row<F: ExtendableModulo<7, Septic> + Canonical>(i: usize) -> [u64; 7]
    requires { i < 6 }
{
    septic_row::<F>(i)
}

#[test]
fn septic_images(rt: HostRuntime) {
    let rows = [
        [0, 0, 1, 0, 0, 0, 0],
        [0, 0, 0, 0, 1, 0, 0],
        [0, 0, 0, 0, 0, 0, 1],
        [0, 1, 1, 0, 0, 0, 0],
        [0, 0, 0, 1, 1, 0, 0],
        [0, 0, 0, 0, 0, 1, 1],
    ];
    for i in 0..6 {
        assert_eq!(rt; frobenius_row::<F2>(i), rows[i]);
    }
}
