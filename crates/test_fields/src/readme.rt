//! What the README shows of a call of the library.

use p3_field::Field;
use p3_fields::{F17, F17x2};

#[test]
fn inverse_of_an_extension_value(rt: HostRuntime) {
    let x = F17x2::new([F17::new(1), F17::new(2)]);
    let inverse = F17x2::new([F17::new(3), F17::new(11)]);
    assert_eq!(rt; x.try_inverse(), Some(inverse));
}
