//! The calls on limbs by their names, and the lines that name them.

/// A limit, or a count of bits.
#[derive(Clone, Copy)]
pub(crate) enum Count {
    AbsorbRadixBits,
    InjectivePackBits,
    MaxAbsorb,
    MaxShiftedAbsorb,
    SqueezeFieldOrder,
    MaxPacked,
    MaxShiftedPacked,
}

/// A call that packs values.
#[derive(Clone, Copy)]
pub(crate) enum Reduction {
    /// In radix 2^32.
    Words,
    Packed,
    Shifted,
}

/// A call that splits a value.
#[derive(Clone, Copy)]
pub(crate) enum Split {
    /// In radix 2^64.
    Words,
    FieldOrder,
    Packed,
}

/// A call on limbs.
#[derive(Clone, Copy)]
pub(crate) enum Call {
    Count(Count),
    /// Whether limbs cover an order.
    Covers,
    Reduce(Reduction),
    Split(Split),
}

impl Call {
    /// The call of a name.
    pub(crate) fn of_name(name: &str) -> Option<Call> {
        match name {
            "absorb_radix_bits" => Some(Call::Count(Count::AbsorbRadixBits)),
            "injective_pack_bits" => Some(Call::Count(Count::InjectivePackBits)),
            "max_absorb_injective_limbs" => Some(Call::Count(Count::MaxAbsorb)),
            "max_shifted_absorb_injective_limbs" => Some(Call::Count(Count::MaxShiftedAbsorb)),
            "squeeze_field_order_num_limbs" => Some(Call::Count(Count::SqueezeFieldOrder)),
            "max_packed_injective_limbs" => Some(Call::Count(Count::MaxPacked)),
            "max_shifted_packed_injective_limbs" => Some(Call::Count(Count::MaxShiftedPacked)),
            "pf_packed_limbs_cover_order" => Some(Call::Covers),
            "reduce_32" => Some(Call::Reduce(Reduction::Words)),
            "reduce_packed" => Some(Call::Reduce(Reduction::Packed)),
            "reduce_packed_shifted" => Some(Call::Reduce(Reduction::Shifted)),
            "split_32" => Some(Call::Split(Split::Words)),
            "split_pf_to_field_order_limbs" => Some(Call::Split(Split::FieldOrder)),
            "split_pf_to_packed_limbs" => Some(Call::Split(Split::Packed)),
            _ => None,
        }
    }
}

/// A line of a table.
#[derive(Clone, Copy)]
pub(crate) struct Row<'a> {
    pub(crate) call: &'a str,
    pub(crate) arguments: &'a str,
    pub(crate) answer: &'a str,
}

impl<'a> Row<'a> {
    /// The row of a line like `reduce_packed;5|1,0;1`.
    pub(crate) fn read(line: &'a str) -> Option<Row<'a>> {
        let (call, rest) = line.split_once(';')?;
        let (arguments, answer) = rest.split_once(';')?;
        Some(Row {
            call,
            arguments,
            answer,
        })
    }

    /// The argument at an index, empty past the last one.
    pub(crate) fn argument(self, index: usize) -> &'a str {
        self.arguments.split('|').nth(index).unwrap_or("")
    }
}
