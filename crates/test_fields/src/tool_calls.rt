//! Exponentiation chains, and helpers of slices and of subgroups.
use crate::cases::{Case, ToolCall};
use p3_field::{halve_u32, halve_u64};
use p3_field_traits::field::Field;
use p3_field_traits::packed_traits::Packable;
use p3_helpers::helpers::{
    add_scaled_slice_in_place, cyclic_subgroup_coset_known_order, cyclic_subgroup_known_order,
    field_to_array, par_add_scaled_slice_in_place, par_scale_slice_in_place,
    scale_slice_in_place_single_core,
};
use p3_prime_fields::baby_bear::BabyBear;
use p3_ring::exponentiation::{
    exp_1420470955, exp_1717986917, exp_1725656503, exp_10540996611094048183,
};
use p3_ring::ring::{PrimeCharacteristicRing, RingSums};
use std::alloc::{AllocError, Global};
use test_values::numbered::{Numbered, all_hold, holds, value, values};

/// Whether a chain or a helper has its answer.
pub(crate) fn tool_agrees<F: Field + RingSums + Packable + Numbered>(
    alloc: Global,
    call: ToolCall,
    case: &Case,
) -> Result<bool, AllocError> {
    let x = value::<F>(case.argument(0));
    match call {
        ToolCall::AddScaled | ToolCall::ParAddScaled => added_scaled::<F>(alloc, call, case),
        ToolCall::Scale | ToolCall::ParScale => scaled::<F>(alloc, call, case),
        ToolCall::SubgroupSum | ToolCall::SubgroupCosetProduct => {
            Ok(holds(&total::<F>(call, x, case), &case.answer))
        }
        _ => match power::<F>(call, x) {
            Some(found) => Ok(holds(&found, &case.answer)),
            None => Ok(false),
        },
    }
}

/// The fixed power of a chain.
fn power<R: PrimeCharacteristicRing>(call: ToolCall, x: R) -> Option<R> {
    match call {
        ToolCall::Exp1717986917 => Some(exp_1717986917(x)),
        ToolCall::Exp1420470955 => Some(exp_1420470955(x)),
        ToolCall::Exp1725656503 => Some(exp_1725656503(x)),
        ToolCall::Exp10540996611094048183 => Some(exp_10540996611094048183(x)),
        _ => None,
    }
}

/// The sum of a cyclic subgroup, whose order is the second argument, or the product of so many items, the
/// third argument, of its coset, whose shift is the second one.
fn total<F: Field + RingSums + Numbered>(call: ToolCall, generator: F, case: &Case) -> F {
    match call {
        ToolCall::SubgroupSum => cyclic_subgroup_known_order(generator, case.size(1)).sum(),
        _ => {
            let shift = value::<F>(case.argument(1));
            cyclic_subgroup_coset_known_order(generator, shift, case.size(2)).product()
        }
    }
}

/// Whether a slice is the answer after another one, scaled, is added to it.
fn added_scaled<F: Field + Packable + Numbered>(
    alloc: Global,
    call: ToolCall,
    case: &Case,
) -> Result<bool, AllocError> {
    let mut slice = values::<F>(alloc, case.argument(0))?;
    let other = values::<F>(alloc, case.argument(1))?;
    let s = value::<F>(case.argument(2));
    if slice.len() != other.len() {
        return Ok(false);
    }
    match call {
        ToolCall::AddScaled => add_scaled_slice_in_place::<F, F>(&mut slice, &other, s),
        _ => par_add_scaled_slice_in_place::<F, F>(&mut slice, &other, s),
    }
    Ok(all_hold(&slice, &case.answer))
}

/// Whether a slice is the answer after it is scaled.
fn scaled<F: Field + Packable + Numbered>(
    alloc: Global,
    call: ToolCall,
    case: &Case,
) -> Result<bool, AllocError> {
    let mut slice = values::<F>(alloc, case.argument(0))?;
    let s = value::<F>(case.argument(1));
    match call {
        ToolCall::Scale => scale_slice_in_place_single_core::<F, F>(&mut slice, s),
        _ => par_scale_slice_in_place::<F, F>(&mut slice, s),
    }
    Ok(all_hold(&slice, &case.answer))
}

#[test]
fn halves_modulo_17(rt: HostRuntime) {
    assert_eq!(rt; halve_u32::<17>(5), 11);
    assert_eq!(rt; halve_u64::<17>(5), 11);
}

#[test]
fn a_value_and_zeros(rt: HostRuntime) {
    let array = field_to_array::<BabyBear, 4>(BabyBear::new(9));
    assert!(rt; all_hold(&array, &[9, 0, 0, 0]));
}
