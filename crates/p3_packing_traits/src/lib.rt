//! Extension values side by side: the traits of packed extensions, and what goes by their lanes alone.
#![tactic(auto)]

pub mod columns;
pub mod columnwise;
pub mod entries;
pub mod ext_columns;
pub mod ext_lane_items;
pub mod ext_powers;
pub mod extension_lanes;
pub mod packed_field_extension;
pub mod parallel_streams;
pub mod scalar_sums;
pub mod unpacked_ext_rows;
pub mod unpacked_rows;
