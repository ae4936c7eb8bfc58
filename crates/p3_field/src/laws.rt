//! Laws of the traits, as contracts for other crates to stand on.
pub use crate::run_laws::{
    packed_ext_of_packing, packed_extension_has_a_lane, run_lane_steps_by_coefficients,
    run_packed_extension_steps_by_lanes, run_packed_steps_by_coefficients,
    run_steps_by_coefficients, run_steps_by_lanes, vector_default_is_zero,
    vector_ext_default_is_zero, vector_ext_lanes_keep_operations, vector_ext_of_vector,
    vector_lanes_keep_operations,
};
pub use p3_extension::laws::{
    bytes_are_of_coefficients, default_is_zero, hash_is_of_coefficients, orbit_product_is_norm,
    order_is_lexicographic, product_is_remainder,
};
pub use p3_field_traits::laws::fermat;
pub use p3_helpers::run_laws::{
    field_step_fits_where_its_registers_do, step_fits_where_its_registers_do,
};
pub use p3_packed_extension::laws::packed_ext_default_is_zero;
pub use p3_vectorized::array::laws::{
    array_equality_is_of_entries, array_of_list_has_its_entries, array_quotient_by_entries,
    default_array_is_zero,
};
