//! The calls that the lines of tables name, and the numbers of their arguments and answers.
use std::alloc::{AllocError, Global};
use test_values::texts::numbers;

/// A constant of a prime field.
#[derive(Clone, Copy)]
pub(crate) enum Constant {
    Generator,
    Order,
    OrderU64,
    Bits,
    TwoAdicity,
}

/// An operation of a ring on up to three values, or on a value and a number.
#[derive(Clone, Copy)]
pub(crate) enum Operation {
    Add,
    Sub,
    Mul,
    Xor,
    Xor3,
    AndNot,
    BoolCheck,
    Cube,
    Exp,
    ExpPowerOf2,
    SeventhPower,
    Mul2Exp,
}

/// A value that a number names.
#[derive(Clone, Copy)]
pub(crate) enum Name {
    Int8(i8),
    Int128(u128),
    Truth(bool),
    PadZero,
    PadOne,
    InterpolationNode,
    UniqueNumber,
    TwoAdicGenerator,
}

/// A call that a quotient comes of.
#[derive(Clone, Copy)]
pub(crate) enum QuotientCall {
    Divide,
    Invert,
    Halve,
    Div2Exp,
}

/// A call on lists.
#[derive(Clone, Copy)]
pub(crate) enum ListCall {
    Sum,
    Product,
    SumOfThree,
    Horner,
    /// The same after a sum that stands for what follows the polynomial.
    HornerAfter,
    SumsOfProducts,
    /// The product of so many minus ones with themselves.
    MinusOnes,
    IteratorProduct,
    AddSlices,
}

/// An exponentiation chain, or a helper of slices and of subgroups.
#[derive(Clone, Copy)]
pub(crate) enum ToolCall {
    Exp1717986917,
    Exp1420470955,
    Exp1725656503,
    Exp10540996611094048183,
    SubgroupSum,
    SubgroupCosetProduct,
    AddScaled,
    ParAddScaled,
    Scale,
    ParScale,
}

/// A call on a coset. Its first arguments are the shift and the log size.
#[derive(Clone, Copy)]
pub(crate) enum CosetCall {
    Refused,
    Parts,
    Contains(bool),
    Element,
    Items,
}

/// What a line calls.
#[derive(Clone, Copy)]
pub(crate) enum Call {
    Constant(Constant),
    Operation(Operation),
    Name(Name),
    Quotient(QuotientCall),
    List(ListCall),
    Tool(ToolCall),
    Coset(CosetCall),
}

/// The index of a name among those of a text, which stand between commas.
fn index_of(names: &str, name: &str) -> Option<usize> {
    let mut index: usize = 0;
    for known in names.split(',') {
        if known == name {
            return Some(index);
        }
        index = index.wrapping_add(1);
    }
    None
}

/// The names of `constant_of`, by their indices.
const CONSTANTS: &str = "generator,order,ORDER_U64,bits,TWO_ADICITY";

/// The constant of a name.
fn constant_of(name: &str) -> Option<Constant> {
    match index_of(CONSTANTS, name)? {
        0 => Some(Constant::Generator),
        1 => Some(Constant::Order),
        2 => Some(Constant::OrderU64),
        3 => Some(Constant::Bits),
        4 => Some(Constant::TwoAdicity),
        _ => None,
    }
}

/// The names of `operation_of`, by their indices.
const OPERATIONS: &str =
    "add,sub,mul,xor,xor3,andn,bool_check,cube,exp_u64,exp_power_of_2,exp_const_u64 7,mul_2exp_u64";

/// The operation of a name.
fn operation_of(name: &str) -> Option<Operation> {
    match index_of(OPERATIONS, name)? {
        0 => Some(Operation::Add),
        1 => Some(Operation::Sub),
        2 => Some(Operation::Mul),
        3 => Some(Operation::Xor),
        4 => Some(Operation::Xor3),
        5 => Some(Operation::AndNot),
        6 => Some(Operation::BoolCheck),
        7 => Some(Operation::Cube),
        8 => Some(Operation::Exp),
        9 => Some(Operation::ExpPowerOf2),
        10 => Some(Operation::SeventhPower),
        11 => Some(Operation::Mul2Exp),
        _ => None,
    }
}

/// The name of a value, with the text of the number.
fn name_of(name: &str, argument: &str) -> Option<Name> {
    match name {
        "from_int i8" => Some(Name::Int8(argument.parse::<i8>().ok()?)),
        "from_int u128" => Some(Name::Int128(argument.parse::<u128>().ok()?)),
        "from_bool" => Some(Name::Truth(argument == "true")),
        "pad_zero" => Some(Name::PadZero),
        "pad_one" => Some(Name::PadOne),
        "interpolation_node" => Some(Name::InterpolationNode),
        "to_unique_u64" => Some(Name::UniqueNumber),
        "two_adic_generator" => Some(Name::TwoAdicGenerator),
        _ => None,
    }
}

/// The names of `quotient_call_of`, by their indices.
const QUOTIENT_CALLS: &str = "div,try_inverse,halve,div_2exp_u64";

/// The call of a name that a quotient comes of.
fn quotient_call_of(name: &str) -> Option<QuotientCall> {
    match index_of(QUOTIENT_CALLS, name)? {
        0 => Some(QuotientCall::Divide),
        1 => Some(QuotientCall::Invert),
        2 => Some(QuotientCall::Halve),
        3 => Some(QuotientCall::Div2Exp),
        _ => None,
    }
}

/// The names of `list_call_of`, by their indices.
const LIST_CALLS: &str =
    "sum,product,sum_array 3,horner,horner_acc,sums of products,dot_product of minus ones,dot_product of iterators,add_slices";

/// The call on lists of a name.
fn list_call_of(name: &str) -> Option<ListCall> {
    match index_of(LIST_CALLS, name)? {
        0 => Some(ListCall::Sum),
        1 => Some(ListCall::Product),
        2 => Some(ListCall::SumOfThree),
        3 => Some(ListCall::Horner),
        4 => Some(ListCall::HornerAfter),
        5 => Some(ListCall::SumsOfProducts),
        6 => Some(ListCall::MinusOnes),
        7 => Some(ListCall::IteratorProduct),
        8 => Some(ListCall::AddSlices),
        _ => None,
    }
}

/// The names of `tool_call_of`, by their indices.
const TOOL_CALLS: &str =
    "exp_1717986917,exp_1420470955,exp_1725656503,exp_10540996611094048183,sum of a subgroup,product of a coset,add_scaled_slice_in_place,par_add_scaled_slice_in_place,scale_slice_in_place_single_core,par_scale_slice_in_place";

/// The chain or helper of a name.
fn tool_call_of(name: &str) -> Option<ToolCall> {
    match index_of(TOOL_CALLS, name)? {
        0 => Some(ToolCall::Exp1717986917),
        1 => Some(ToolCall::Exp1420470955),
        2 => Some(ToolCall::Exp1725656503),
        3 => Some(ToolCall::Exp10540996611094048183),
        4 => Some(ToolCall::SubgroupSum),
        5 => Some(ToolCall::SubgroupCosetProduct),
        6 => Some(ToolCall::AddScaled),
        7 => Some(ToolCall::ParAddScaled),
        8 => Some(ToolCall::Scale),
        9 => Some(ToolCall::ParScale),
        _ => None,
    }
}

/// The call on a coset of a name, and what it answers where that is no number.
fn coset_call_of(name: &str, answer: &str) -> Option<CosetCall> {
    match (name, answer) {
        ("coset", "None") => Some(CosetCall::Refused),
        ("coset sizes, sum and product", _) => Some(CosetCall::Parts),
        ("coset contains", "true") => Some(CosetCall::Contains(true)),
        ("coset contains", "false") => Some(CosetCall::Contains(false)),
        ("coset element", _) => Some(CosetCall::Element),
        ("coset iter", _) => Some(CosetCall::Items),
        _ => None,
    }
}

/// The call of a line.
fn call_of(name: &str, arguments: &str, answer: &str) -> Option<Call> {
    if let Some(constant) = constant_of(name) {
        return Some(Call::Constant(constant));
    }
    if let Some(operation) = operation_of(name) {
        return Some(Call::Operation(operation));
    }
    if let Some(name) = name_of(name, arguments) {
        return Some(Call::Name(name));
    }
    if let Some(call) = quotient_call_of(name) {
        return Some(Call::Quotient(call));
    }
    if let Some(call) = list_call_of(name) {
        return Some(Call::List(call));
    }
    if let Some(call) = tool_call_of(name) {
        return Some(Call::Tool(call));
    }
    Some(Call::Coset(coset_call_of(name, answer)?))
}

/// A line's call, and the numbers of its arguments and its answer.
#[derive(Drop)]
pub(crate) struct Case {
    pub(crate) call: Call,
    pub(crate) arguments: Vec<Vec<u64>>,
    pub(crate) answer: Vec<u64>,
}

impl Case {
    /// The case of a line like `add;3|5;8`, where it names a call.
    pub(crate) fn read(alloc: Global, line: &str) -> Result<Option<Case>, AllocError> {
        let Some((name, sides)) = line.split_once(';') else {
            return Ok(None);
        };
        let Some((texts, answer)) = sides.split_once(';') else {
            return Ok(None);
        };
        let Some(call) = call_of(name, texts, answer) else {
            return Ok(None);
        };
        let mut arguments = Vec::new(alloc);
        for text in texts.split('|') {
            arguments.push(numbers(alloc, text)?)?;
        }
        let answer = numbers(alloc, answer)?;
        Ok(Some(Case {
            call,
            arguments,
            answer,
        }))
    }

    /// The numbers of the argument at an index, none where there is none.
    pub(crate) fn argument(&self, index: usize) -> &[u64] {
        match self.arguments.get(index) {
            Some(numbers) => numbers,
            None => &[],
        }
    }

    /// The first number of the argument at an index, zero where there is none.
    pub(crate) fn number(&self, index: usize) -> u64 {
        match self.argument(index).first() {
            Some(number) => *number,
            None => 0,
        }
    }

    /// The same as a size.
    pub(crate) fn size(&self, index: usize) -> usize {
        self.number(index) as usize
    }

    /// Whether the answer is this number alone.
    pub(crate) fn answers(&self, number: u64) -> bool {
        self.answer.as_slice() == [number].as_slice()
    }
}
