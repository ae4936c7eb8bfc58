//! Vectors of three residues modulo 17, each a packing of one lane.
use p3_field_traits::field::Field;
use p3_field_traits::packed_traits::{Packable, PackedValue};
use p3_prime_fields::form::{Form, Plain};
use p3_prime_fields::fp::Fp;
use p3_prime_fields::small::{F17, M17};
use p3_vectorized::vectorized::Vectorized;
use test_values::canonical::Canonical;

/// A vector of three residues.
type Three<F> = Vectorized<F, F, 3>;

/// What is asked of a vector: its number of lanes, or its lanes when it is made so.
#[derive(Clone, Copy)]
enum Call {
    Width,
    /// From the residues 4, 5 and 6.
    FromSlice,
    /// From these, and then 16 is written to lane 1.
    SetLane,
    /// From the residue 7 in each lane.
    Broadcast,
    /// From the number of each lane.
    FromFn,
    /// The same, and then its lanes are written to a slice.
    ToSlice,
}

/// The canonical numbers in the lanes.
fn numbers<F: Field + Packable + Canonical>(v: Three<F>) -> (u64, u64, u64) {
    (
        PackedValue::extract(&v, 0).canonical(),
        PackedValue::extract(&v, 1).canonical(),
        PackedValue::extract(&v, 2).canonical(),
    )
}

/// The vector of the numbers of its lanes.
fn counted<F: Field + Packable>() -> Three<F> {
    <Three<F> as PackedValue>::from_fn(|lane: usize| -> F { F::from_usize(lane) })
}

/// What a call answers. Nothing is read of `_rooms`.
fn lanes_of<F: Field + Packable + Canonical>(
    _rooms: Option<([F; 3], Three<F>)>,
    call: Call,
) -> (u64, u64, u64) {
    let residues = [F::from_u64(4), F::from_u64(5), F::from_u64(6)];
    let mut v = <Three<F> as PackedValue>::from_slice(&residues);
    match call {
        Call::Width => (<Three<F> as PackedValue>::WIDTH as u64, 0, 0),
        Call::FromSlice => numbers::<F>(v),
        Call::SetLane => {
            v.set_lane(1, F::from_u64(16));
            numbers::<F>(v)
        }
        Call::Broadcast => numbers::<F>(<Three<F> as PackedValue>::broadcast(F::from_u64(7))),
        Call::FromFn => numbers::<F>(counted::<F>()),
        Call::ToSlice => {
            let mut lanes = [F::zero(); 3];
            counted::<F>().to_slice(&mut lanes);
            let [first, second, third] = lanes;
            (first.canonical(), second.canonical(), third.canonical())
        }
    }
}

/// The same over a prime field.
fn lanes_over<W: Form<u32>>(call: Call) -> (u64, u64, u64) {
    lanes_of::<Fp<W>>(None, call)
}

/// The same modulo 17.
fn lanes(call: Call) -> (u64, u64, u64) {
    lanes_over::<Plain<M17>>(call)
}

#[test]
fn a_vector_is_a_packing(rt: HostRuntime) {
    assert_eq!(rt; lanes(Call::Width), (3, 0, 0));
    assert_eq!(rt; lanes(Call::FromSlice), (4, 5, 6));
    assert_eq!(rt; lanes(Call::SetLane), (4, 16, 6));
    assert_eq!(rt; lanes(Call::Broadcast), (7, 7, 7));
    assert_eq!(rt; lanes(Call::FromFn), (0, 1, 2));
    assert_eq!(rt; lanes(Call::ToSlice), (0, 1, 2));
}

#[test]
fn the_text_lists_the_packings(rt: HostRuntime) -> Result<(), std::test::Fail> {
    let v = Three::<F17>::new([F17::new(4), F17::new(5), F17::new(6)]);
    assert_eq!(rt; format!(in rt.alloc(); "{v:?}")?.as_str(), "[4, 5, 6]");
    Ok(())
}
