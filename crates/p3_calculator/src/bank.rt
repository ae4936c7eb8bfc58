//! The registers of the chosen field, each group of names as a list of types.
ghost use Rattle.std.specs.Prelude.{◌≡◌, ℕ, List, [], ◌∷◌, OnErr, map, replicate};
ghost use Rattle.p3_calculator_text.specs.Tables.{lookup};
ghost use Rattle.p3_calculator_text.specs.Lines.{words};
ghost use Rattle.p3_calculator.specs.Fields.{FieldSpec, ops};
ghost use Rattle.p3_calculator.specs.Names.{field_named};
ghost use Rattle.p3_calculator.specs.States.{State, at_field, no_field};
ghost use Rattle.p3_calculator.specs.Effects.{Computes, ComputesAt, chosen};
ghost use Rattle.p3_calculator.specs.Lists.{rows};
ghost use Rattle.p3_calculator.specs.Outcomes.{outcome, opened_as};

use crate::act::act;
use crate::lists::{ComplexRegisters, NoField, OneOf};
use crate::names::{
    HIGH_NAMES, HighList, MIDDLE_NAMES, MiddleList, NamedBinomial, NamedComplex, NamedPolynomial,
    QUADRATIC_NAMES, QuadraticList, RESIDUE_NAMES, ResidueList,
};
use crate::registers::Registers;
use crate::zeros::{zero_polynomials, zero_residues};
use p3_calculator_text::commands::Operation;
use p3_calculator_text::faults::Fault;
use p3_calculator_text::words::next_word;
use p3_extension::extension::{Binomial, ExtField, IntegerPolynomial, Modulo};
use p3_prime_fields::binomial_constants::BinomialConstants;
use p3_prime_fields::form::{Form, Word};
use p3_prime_fields::fp::Fp;
use p3_prime_fields::polynomial_constants::PolynomialConstants;
use std::alloc::Allocator;
use std::marker::Model;

/// Registers of a field that has a name, with what a list asks of them: no trait of fields, so that a call at
/// a name passes those of its marker alone.
pub trait NamedRegisters: Drop {
    /// The field by numbers.
    ghost field: { FieldSpec };

    /// The registers' coefficients.
    ghost registers: { Self → List (List ℕ) };

    /// Registers that are all zero.
    fn zeros() -> Self
        ensures { registers result ≡ replicate 16 (ops field).zero };

    /// Carries out a line, and answers its text. A fault leaves the registers as before.
    fn act<A: Allocator + Copy>(
        &mut self,
        alloc: A,
        operation: Operation,
        args: &[u8],
    ) -> Result<Vec<u8, A>, Fault>
        ensures computes { Computes operation field (registers self.old) (words args.now) (outcome result (at_field field (registers self.new))) }
        ensures kept { OnErr result (at_field field (registers self.new) ≡ at_field field (registers self.old)) };
}

impl<W: Form<T>, T: Word> NamedRegisters for Registers<Fp<W, T>> {
    ghost use Rattle.p3_calculator.specs.Coefficients.{one_coefficient};
    ghost use Rattle.p3_calculator.specs.Fields.{ResiduesModulo};
    ghost use Rattle.p3_calculator.specs.Registers.{canon};

    ghost field = { ResiduesModulo W.ORDER W.GENERATOR };

    ghost registers = { λ regs. map (one_coefficient canon) regs.values };

    fn zeros() -> Self {
        zero_residues()
    }

    fn act<A: Allocator + Copy>(
        &mut self,
        alloc: A,
        operation: Operation,
        args: &[u8],
    ) -> Result<Vec<u8, A>, Fault> {
        act(alloc, operation, self, args)
    }
}

impl<W: NamedBinomial<D>, const D: usize> NamedRegisters
    for Registers<ExtField<Fp<W>, D, Binomial<Fp<W>>, Fp<W>>>
where
    W::Modulus: BinomialConstants<D>,
{
    ghost use Rattle.p3_calculator.specs.Bases.{binomial_field};
    ghost use Rattle.p3_calculator.specs.Coefficients.{all_coefficients};
    ghost use Rattle.p3_calculator.specs.Registers.{canon};

    ghost field = { binomial_field W.Form ⟦<u32 as Word>⟧ D W.Modulus.W W.Modulus.ext_generator };

    ghost registers = { λ regs. map (all_coefficients canon) regs.values };

    fn zeros() -> Self {
        zero_polynomials()
    }

    fn act<A: Allocator + Copy>(
        &mut self,
        alloc: A,
        operation: Operation,
        args: &[u8],
    ) -> Result<Vec<u8, A>, Fault> {
        act(alloc, operation, self, args)
    }
}

impl<W: NamedPolynomial<D, S>, const D: usize, S: IntegerPolynomial<D>> NamedRegisters
    for Registers<ExtField<Fp<W>, D, Modulo<S, D>, Fp<W>>>
where
    W::Modulus: PolynomialConstants<D, S>,
{
    ghost use Rattle.p3_calculator.specs.Bases.{polynomial_field};
    ghost use Rattle.p3_calculator.specs.Coefficients.{all_coefficients};
    ghost use Rattle.p3_calculator.specs.Registers.{canon};

    ghost field = { polynomial_field W.Form ⟦<u32 as Word>⟧ D S.coefficients W.Modulus.ext_generator };

    ghost registers = { λ regs. map (all_coefficients canon) regs.values };

    fn zeros() -> Self {
        zero_polynomials()
    }

    fn act<A: Allocator + Copy>(
        &mut self,
        alloc: A,
        operation: Operation,
        args: &[u8],
    ) -> Result<Vec<u8, A>, Fault> {
        act(alloc, operation, self, args)
    }
}

impl<F: NamedComplex> NamedRegisters for ComplexRegisters<F> {
    ghost use Rattle.p3_theory.specs.Polynomials.Polynomial.{tabulate, binomial};
    ghost use Rattle.p3_calculator.specs.Coefficients.{all_coefficients};
    ghost use Rattle.p3_calculator.specs.Fields.{PolynomialsModulo};

    ghost field = { PolynomialsModulo F.base_order 2 (map F.canon (binomial F.ops 2 (F.ops.neg F.ops.one))) (map F.canon (tabulate 2 F.complex_generator_coefficient)) };

    ghost registers = { λ regs. map (all_coefficients F.canon) regs.values.values };

    fn zeros() -> Self {
        ComplexRegisters {
            values: zero_polynomials(),
        }
    }

    fn act<A: Allocator + Copy>(
        &mut self,
        alloc: A,
        operation: Operation,
        args: &[u8],
    ) -> Result<Vec<u8, A>, Fault> {
        act(alloc, operation, &mut self.values, args)
    }
}

/// The registers of the chosen field, of one of a list of types.
pub trait FieldList: Drop {
    /// The fields, in the order of the list.
    ghost fields: { List FieldSpec };

    /// The state of the registers.
    ghost state: { Self → State };

    /// The registers of the field of a name, all zero. The names are words, in the order of the list.
    fn open(name: &[u8], names: &[u8]) -> Option<Self>
        ensures { opened_as state result ≡ chosen (lookup (rows fields (words names.now)) name.now) };

    /// Carries out a line, and answers its text. A fault leaves the registers as before.
    fn act<A: Allocator + Copy>(
        &mut self,
        alloc: A,
        operation: Operation,
        args: &[u8],
    ) -> Result<Vec<u8, A>, Fault>
        ensures computes { let old = state self.old in ComputesAt old.field operation old.registers (words args.now) (outcome result (state self.new)) }
        ensures kept { OnErr result (state self.new ≡ state self.old) };
}

impl FieldList for NoField {
    ghost fields = { [] };

    ghost state = { λ registers. no_field };

    fn open(name: &[u8], names: &[u8]) -> Option<Self> {
        None
    }

    fn act<A: Allocator + Copy>(
        &mut self,
        alloc: A,
        operation: Operation,
        args: &[u8],
    ) -> Result<Vec<u8, A>, Fault> {
        Err(Fault::NoField)
    }
}

impl<R: NamedRegisters, L: FieldList> FieldList for OneOf<R, L> {
    ghost use Rattle.p3_calculator.specs.Lists.{state_of_one};

    ghost fields = { R.field ∷ L.fields };

    ghost state = { state_of_one R.field R.registers L.state };

    fn open(name: &[u8], names: &[u8]) -> Option<Self> {
        let (first, rest) = next_word(names)?;
        if name == first {
            return Some(OneOf::This(R::zeros()));
        }
        Some(OneOf::Other(L::open(name, rest)?))
    }

    fn act<A: Allocator + Copy>(
        &mut self,
        alloc: A,
        operation: Operation,
        args: &[u8],
    ) -> Result<Vec<u8, A>, Fault> {
        match self {
            OneOf::This(regs) => regs.act(alloc, operation, args),
            OneOf::Other(other) => other.act(alloc, operation, args),
        }
    }
}

/// Registers of one of a list of types. A contract sees the state that they stand for.
#[derive(Drop)]
pub struct Group<L: FieldList> {
    list: L,
}

impl<L: FieldList> Model for Group<L> {
    ghost Value = { State };

    ghost view = { λ group. L.state group.list };
}

impl<L: FieldList> Group<L> {
    /// The registers of the field of a name, all zero.
    fn open(name: &[u8], names: &str) -> Option<Self>
        ensures { opened_as (λ st. st) result ≡ chosen (lookup (rows L.fields (words names.now)) name.now) }
    {
        let list = L::open(name, names.as_bytes())?;
        Some(Group { list })
    }

    /// Carries out a line, and answers its text. A fault leaves the registers as before.
    fn act<A: Allocator + Copy>(
        &mut self,
        alloc: A,
        operation: Operation,
        args: &[u8],
    ) -> Result<Vec<u8, A>, Fault>
        ensures computes { ComputesAt self.old.field operation self.old.registers (words args.now) (outcome result self.new) }
        ensures kept { OnErr result (self.new ≡ self.old) }
    {
        self.list.act(alloc, operation, args)
    }
}

/// The registers of the chosen field, or none.
#[derive(Drop)]
pub enum Bank {
    /// No field is chosen.
    Empty,
    /// A prime field, or residues modulo a composite order.
    Residues(Group<ResidueList>),
    /// An extension of degree 2.
    Quadratic(Group<QuadraticList>),
    /// An extension of degree 3 or 4.
    Middle(Group<MiddleList>),
    /// An extension of degree 5 or more.
    High(Group<HighList>),
}

impl Bank {
    ghost use Rattle.p3_calculator.specs.Bank.{state_of};

    /// The registers of the field of a name, all zero.
    pub fn open(name: &[u8]) -> Option<Self>
        ensures { opened_as state_of result ≡ chosen (field_named name.now) }
    {
        if let Some(group) = Group::open(name, RESIDUE_NAMES) {
            return Some(Bank::Residues(group));
        }
        if let Some(group) = Group::open(name, QUADRATIC_NAMES) {
            return Some(Bank::Quadratic(group));
        }
        if let Some(group) = Group::open(name, MIDDLE_NAMES) {
            return Some(Bank::Middle(group));
        }
        Some(Bank::High(Group::open(name, HIGH_NAMES)?))
    }

    /// Carries out a line, and answers its text. A fault leaves the registers as before.
    pub fn act<A: Allocator + Copy>(
        &mut self,
        alloc: A,
        operation: Operation,
        args: &[u8],
    ) -> Result<Vec<u8, A>, Fault>
        ensures computes { let old = state_of self.old in ComputesAt old.field operation old.registers (words args.now) (outcome result (state_of self.new)) }
        ensures kept { OnErr result (state_of self.new ≡ state_of self.old) }
    {
        match self {
            Bank::Empty => Err(Fault::NoField),
            Bank::Residues(group) => group.act(alloc, operation, args),
            Bank::Quadratic(group) => group.act(alloc, operation, args),
            Bank::Middle(group) => group.act(alloc, operation, args),
            Bank::High(group) => group.act(alloc, operation, args),
        }
    }
}
