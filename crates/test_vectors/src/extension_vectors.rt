//! Vectors of two values of the extension of the residues modulo 17 by `X^2 = 3`, and of two residues. Expected
//! values by hand.
use crate::values::Listed;
use p3_extension::extension::{Binomial, ExtField, ExtensionShape, FrobeniusExtendable};
use p3_field_traits::field::Field;
use p3_field_traits::packed_traits::{Inhabited, Packable};
use p3_prime_fields::binomial_constants::BinomialConstants;
use p3_prime_fields::form::{Form, OverModulus, Plain};
use p3_prime_fields::fp::Fp;
use p3_prime_fields::small::M17;
use p3_ring::ring::{Algebra, PrimeCharacteristicRing};
use p3_vectorized::vectorized::Vectorized;
use p3_vectorized::vectorized_ext::VectorizedExt;
use test_values::canonical::Canonical;

/// An operation on a vector and a vector of residues, or one residue.
#[derive(Clone, Copy)]
enum Operation {
    Add,
    Sub,
    Mul,
}

/// What is asked of vectors.
#[derive(Clone, Copy)]
enum Call {
    /// The values `1 + 3 X` and `2 + 4 X`.
    Start,
    /// These and a vector of the residues 5 and 6.
    ByParts(Operation),
    /// The residues 1 and 2 and the residue 5.
    OfResidues(Operation),
}

/// A value of an extension of degree 2.
type Pair<F, S> = ExtField<F, 2, S, F>;

/// A vector of two such values.
type Two<F, S> = VectorizedExt<F, Pair<F, S>, Pair<F, S>, 2>;

/// The numbers of the coefficients of two values.
type Numbers = ((u64, u64), (u64, u64));

/// A vector of two residues.
fn residues<F: PrimeCharacteristicRing + Inhabited>(
    first: u64,
    second: u64,
) -> Vectorized<F, F, 2> {
    Vectorized::new([F::from_u64(first), F::from_u64(second)])
}

/// The values `1 + 3 X` and `2 + 4 X`, from their coefficients.
fn start<F: FrobeniusExtendable<2, S> + Packable, S: ExtensionShape>() -> Two<F, S> {
    let low = residues::<F>(1, 2);
    let high = residues::<F>(3, 4);
    Two::<F, S>::from_vectorized_basis_coefficients(&[low, high])
}

/// The canonical numbers of the coefficients of both values.
fn numbers<F: FrobeniusExtendable<2, S> + Packable + Canonical, S: ExtensionShape>(
    vector: Two<F, S>,
) -> Numbers {
    let [first, second] = vector.0;
    let (a, b) = (first.list(), second.list());
    ((a[0], a[1]), (b[0], b[1]))
}

/// An operation on a vector of packings and one of residues.
fn mixed<F: PrimeCharacteristicRing + Inhabited, EF: Field, PE: Inhabited + Algebra<F>>(
    operation: Operation,
    v: VectorizedExt<F, EF, PE, 2>,
    w: Vectorized<F, F, 2>,
) -> VectorizedExt<F, EF, PE, 2> {
    match operation {
        Operation::Add => v + w,
        Operation::Sub => v - w,
        Operation::Mul => v * w,
    }
}

/// The values of `start`, and a vector of the residues 5 and 6 where there is an operation.
fn of_values<F: FrobeniusExtendable<2, S> + Packable + Canonical, S: ExtensionShape>(
    _vector: Option<Two<F, S>>,
    operation: Option<Operation>,
) -> Numbers {
    let v = start::<F, S>();
    match operation {
        Some(operation) => {
            let w = residues::<F>(5, 6);
            numbers::<F, S>(mixed::<F, Pair<F, S>, Pair<F, S>>(operation, v, w))
        }
        None => numbers::<F, S>(v),
    }
}

/// The vector of the residues 1 and 2 and the residue 5. A field is an extension of itself.
fn of_residues<W: Form<u32>>(operation: Operation) -> (u64, u64) {
    let v = VectorizedExt::<Fp<W>, Fp<W>, Fp<W>, 2>::new([
        Fp::<W, u32>::new(1),
        Fp::<W, u32>::new(2),
    ]);
    let x = Fp::<W, u32>::new(5);
    let [first, second] = match operation {
        Operation::Add => (v + x).0,
        Operation::Sub => (v - x).0,
        Operation::Mul => (v * x).0,
    };
    (first.canonical(), second.canonical())
}

/// What a call answers over the extension by `X^2 = W`.
fn answer<W: OverModulus<u32>>(call: Call) -> Numbers
where
    W::Modulus: BinomialConstants<2>,
{
    match call {
        Call::Start => of_values::<Fp<W>, Binomial<Fp<W>>>(None, None),
        Call::ByParts(operation) => of_values::<Fp<W>, Binomial<Fp<W>>>(None, Some(operation)),
        Call::OfResidues(operation) => {
            let (first, second) = of_residues::<W>(operation);
            ((first, 0), (second, 0))
        }
    }
}

/// The same modulo 17 and `X^2 = 3`.
fn modulo_17(call: Call) -> Numbers {
    answer::<Plain<M17>>(call)
}

#[test]
fn coefficients_are_put_together(rt: HostRuntime) {
    assert_eq!(rt; modulo_17(Call::Start), ((1, 3), (2, 4)));
}

#[test]
fn one_value_with_each_part(rt: HostRuntime) {
    assert_eq!(rt;
        modulo_17(Call::OfResidues(Operation::Add)),
        ((6, 0), (7, 0))
    );
    assert_eq!(rt;
        modulo_17(Call::OfResidues(Operation::Sub)),
        ((13, 0), (14, 0))
    );
    assert_eq!(rt;
        modulo_17(Call::OfResidues(Operation::Mul)),
        ((5, 0), (10, 0))
    );
}

#[test]
fn a_vector_of_residues_part_by_part(rt: HostRuntime) {
    assert_eq!(rt; modulo_17(Call::ByParts(Operation::Add)), ((6, 3), (8, 4)));
    assert_eq!(rt;
        modulo_17(Call::ByParts(Operation::Sub)),
        ((13, 3), (13, 4))
    );
    assert_eq!(rt;
        modulo_17(Call::ByParts(Operation::Mul)),
        ((5, 15), (12, 7))
    );
}
