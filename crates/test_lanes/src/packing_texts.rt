//! The text of a packing, and its copy by `clone`.
use p3_packed_prime_fields::packed::Packed;
use p3_prime_fields::baby_bear::BabyBearModulus;
use p3_prime_fields::form::{Form, Plain};
use p3_prime_fields::fp::Fp;
use p3_prime_fields::montgomery::Montgomery;
use p3_prime_fields::small::M17;
use std::alloc::AllocError;
use std::process::Abort;
use std::test::Fail;
use test_values::numbered::{Numbered, value};

/// The copy that `clone` makes.
fn copy_of<T: Clone>(x: &T) -> Result<T, AllocError> {
    x.clone()
}

/// Asserts that the text of the packing of these numbers is the list of them, and that its copy has them.
fn assert_written<W: Form<u32>>(
    rt: &(impl Abort + AllocGlobal),
    numbers: &[u64],
    text: &str,
) -> Result<(), Fail> {
    let packing = value::<Packed<Fp<W>, 4>>(numbers);
    assert_eq!(rt; format!(in rt.alloc(); "{packing:?}")?.as_str(), text);
    let copy = copy_of(&packing)?;
    for i in 0..numbers.len() {
        assert_eq!(rt; copy.number(i), numbers[i]);
    }
    Ok(())
}

#[test]
fn packings_are_written_and_copied(rt: HostRuntime) -> Result<(), Fail> {
    assert_written::<Plain<M17>>(&rt, &[3, 0, 16, 5], "[3, 0, 16, 5]")?;
    assert_written::<Montgomery<BabyBearModulus>>(
        &rt,
        &[1, 2013265920, 0, 31],
        "[1, 2013265920, 0, 31]",
    )
}
