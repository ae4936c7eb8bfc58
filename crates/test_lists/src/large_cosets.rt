//! Values of polynomials over cosets of many points and of extensions, beside Horner's rule in plain numbers.
ghost use Rattle.std.specs.Prelude.{◌<◌};

use crate::plain_ring::{List, MOST, PlainRing, at, list_of};
use p3_extension::extension::{
    Binomial, BinomialExtensionField, ExtField, HasTwoAdicBinomialExtension,
};
use p3_field_traits::field::TwoAdicField;
use p3_helpers::coset::TwoAdicMultiplicativeCoset;
use p3_prime_fields::baby_bear::BabyBearModulus;
use p3_prime_fields::form::{Form, OverModulus, Plain, Word};
use p3_prime_fields::fp::Fp;
use p3_prime_fields::goldilocks::GoldilocksForm;
use p3_prime_fields::montgomery::Montgomery;
use p3_prime_fields::small::{M15, M17};
use p3_prime_fields::two_adic::TwoAdicConstants;
use p3_prime_fields::two_adic_constants::TwoAdicBinomialConstants;
use poly_eval::eval_coset_into;
use std::alloc::{AllocError, Global};
use std::process::Abort;
use std::test::Fail;
use test_values::canonical::Canonical;

/// Values that lists of numbers tell.
trait Listed: Copy {
    /// The value with these coefficients.
    fn of_list(list: &List) -> Self;

    /// The canonical numbers of the coefficients.
    fn list(&self) -> List;
}

impl<W: Form<T>, T: Word> Listed for Fp<W, T> {
    fn of_list(list: &List) -> Self {
        Self::of_number(at(list, 0))
    }

    fn list(&self) -> List {
        [self.canonical(), 0, 0, 0, 0, 0, 0, 0]
    }
}

impl<F: Canonical, const D: usize, S: Copy> Listed for ExtField<F, D, S, F> {
    fn of_list(list: &List) -> Self {
        let mut coefficients = [F::of_number(0); D];
        for i in 0..D {
            coefficients[i] = F::of_number(at(list, i));
        }
        ExtField::<F, D, S, F>::new(coefficients)
    }

    fn list(&self) -> List {
        let mut list = [0; MOST];
        for i in 0..D {
            if let Some(number) = list.get_mut(i) {
                let coefficient = self.value[i];
                *number = coefficient.canonical();
            }
        }
        list
    }
}

/// A ring in plain numbers, the top one of its two-adic generators, and for how many bits that is.
#[derive(Clone, Copy)]
struct Numbers {
    ring: PlainRing,
    top: List,
    two_adicity: usize,
}

impl Numbers {
    /// The generator for so many bits: the top one, squared as often as it is for more.
    fn generator(self, bits: usize) -> List {
        let mut generator = self.top;
        for _ in bits..self.two_adicity {
            generator = self.ring.add_mul(&[0; MOST], &generator, &generator);
        }
        generator
    }

    /// Whether values are those of a polynomial at the points `shift`, `shift * generator` and so on.
    fn are_values<F: Listed>(
        self,
        values: &[F],
        coefficients: &[List],
        shift: List,
        bits: usize,
    ) -> bool {
        let generator = self.generator(bits);
        let mut point = shift;
        for value in values {
            if value.list() != self.ring.value_at(coefficients, &point) {
                return false;
            }
            point = self.ring.add_mul(&[0; MOST], &point, &generator);
        }
        true
    }
}

/// Whether the values of a polynomial with so many coefficients over a coset are those in plain numbers. Nothing is
/// read of `_room`, which tells that values have room.
fn coset_agrees<F: TwoAdicField + Listed>(
    alloc: Global,
    _room: Option<F>,
    numbers: Numbers,
    log_size: usize,
    count: usize,
    shift: List,
) -> Result<bool, AllocError> {
    let coefficients = numbers.ring.lists(alloc, count)?;
    let mut coeffs = Vec::new(alloc);
    for list in coefficients.iter() {
        coeffs.push(F::of_list(list))?;
    }
    let Some(coset) = TwoAdicMultiplicativeCoset::new(F::of_list(&shift), log_size) else {
        return Ok(false);
    };
    if coset.log_size() >= 64 {
        return Ok(false);
    }
    let mut out = Vec::new(alloc);
    for _ in 0..coset.size() {
        out.push(F::zero())?;
    }
    if out.len() != coset.size() {
        return Ok(false);
    }
    eval_coset_into(&coeffs, &coset, &mut out);
    Ok(
        out.len() == 1usize.wrapping_shl(log_size as u32)
            && numbers.are_values(&out, &coefficients, shift, log_size),
    )
}

/// Whether the coset of a line like `log size|coefficients|shift` agrees.
fn line_agrees<F: TwoAdicField + Listed>(
    alloc: Global,
    room: Option<F>,
    numbers: Numbers,
    line: &str,
) -> Result<bool, AllocError> {
    let Some((log_size, rest)) = line.split_once('|') else {
        return Ok(false);
    };
    let Some((count, shift)) = rest.split_once('|') else {
        return Ok(false);
    };
    match (log_size.parse::<usize>(), count.parse::<usize>()) {
        (Ok(log_size), Ok(count)) => {
            coset_agrees::<F>(alloc, room, numbers, log_size, count, list_of(shift))
        }
        _ => Ok(false),
    }
}

/// The same over the extension of a field by `X^D = W`.
fn extension_agrees<F: HasTwoAdicBinomialExtension<D> + Canonical, const D: usize>(
    alloc: Global,
    room: Option<BinomialExtensionField<F, D>>,
    numbers: Numbers,
    line: &str,
) -> Result<bool, AllocError> {
    line_agrees::<ExtField<F, D, Binomial<F>, F>>(alloc, room, numbers, line)
}

/// The extension of degree D at a marker's own name.
trait ExtensionCosets<const D: usize>: Form<u32> {
    /// The values. Of an associated type it is known that its values have room.
    type Value: Copy;

    /// Whether the coset of a line agrees. Nothing is read of `room`.
    fn agrees(
        alloc: Global,
        room: Option<Self::Value>,
        numbers: Numbers,
        line: &str,
    ) -> Result<bool, AllocError>;
}

impl<W: OverModulus<u32>, const D: usize> ExtensionCosets<D> for W
where
    W::Modulus: TwoAdicBinomialConstants<D>,
{
    type Value = BinomialExtensionField<Fp<W>, D>;

    fn agrees(
        alloc: Global,
        room: Option<BinomialExtensionField<Fp<W>, D>>,
        numbers: Numbers,
        line: &str,
    ) -> Result<bool, AllocError> {
        extension_agrees::<Fp<W>, D>(alloc, room, numbers, line)
    }
}

/// Asserts the lines over the residues of a marker.
fn assert_residues<W: OverModulus<T>, T: Word>(
    rt: &(impl Abort + AllocGlobal),
    numbers: Numbers,
    lines: &str,
) -> Result<(), Fail>
where
    W::Modulus: TwoAdicConstants,
{
    for line in lines.lines() {
        assert!(rt;
            line_agrees::<Fp<W, T>>(rt.alloc(), None, numbers, line)?,
            "{line}"
        );
    }
    Ok(())
}

/// Asserts the lines over the extension of degree D.
fn assert_extension<W: ExtensionCosets<D>, const D: usize>(
    rt: &(impl Abort + AllocGlobal),
    numbers: Numbers,
    lines: &str,
) -> Result<(), Fail> {
    for line in lines.lines() {
        assert!(rt;
            <W as ExtensionCosets<D>>::agrees(rt.alloc(), None, numbers, line)?,
            "{line}"
        );
    }
    Ok(())
}

/// The residues modulo an order, with a top generator for so many bits.
fn residues(order: u64, top: u64, two_adicity: usize) -> Numbers {
    Numbers {
        ring: PlainRing {
            order,
            degree: 1,
            w: 0,
        },
        top: [top, 0, 0, 0, 0, 0, 0, 0],
        two_adicity,
    }
}

/// The extension of the residues modulo 17 by `X^D = 3`, where X is the top generator.
fn over_seventeen(degree: usize, two_adicity: usize) -> Numbers {
    Numbers {
        ring: PlainRing {
            order: 17,
            degree,
            w: 3,
        },
        top: [0, 1, 0, 0, 0, 0, 0, 0],
        two_adicity,
    }
}

/// The top generator is the power 15 of 31: 15 times 2^27 is the order less one.
#[test]
fn baby_bear(rt: HostRuntime) -> Result<(), Fail> {
    let numbers = residues(2013265921, 440564289, 27);
    assert_residues::<Montgomery<BabyBearModulus>, u32>(
        &rt,
        numbers,
        "5|32|1\n6|64|31\n6|40|2013265920\n7|200|5\n8|256|123456789\n9|100|31\n9|600|2",
    )
}

/// The top generator is the power 2^32 - 1 of 7.
#[test]
fn goldilocks(rt: HostRuntime) -> Result<(), Fail> {
    let numbers = residues(18446744069414584321, 1753635133440165772, 32);
    assert_residues::<GoldilocksForm, u64>(
        &rt,
        numbers,
        "6|64|1\n6|100|18446744069414584320\n7|90|7\n8|300|4294967296\n9|512|3",
    )
}

#[test]
fn modulo_15(rt: HostRuntime) -> Result<(), Fail> {
    assert_residues::<Plain<M15>, u32>(
        &rt,
        residues(15, 14, 1),
        "0|0|1\n0|5|7\n1|1|4\n1|2|2\n1|9|14\n1|30|8",
    )
}

#[test]
fn quadratic_extension(rt: HostRuntime) -> Result<(), Fail> {
    assert_extension::<Plain<M17>, 2>(
        &rt,
        over_seventeen(2, 5),
        "1|3|1 2\n2|4|0 5\n3|20|16 16\n5|32|1 2\n5|7|3\n5|80|0 1",
    )
}

#[test]
fn octic_extension(rt: HostRuntime) -> Result<(), Fail> {
    assert_extension::<Plain<M17>, 8>(
        &rt,
        over_seventeen(8, 7),
        "4|16|0 1\n6|64|1\n6|20|3 0 0 0 2\n7|128|1 2 3 4 5 6 7 8\n7|30|2\n7|150|0 0 1",
    )
}
