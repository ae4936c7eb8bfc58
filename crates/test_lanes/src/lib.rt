//! Tests of the calls on lanes: sums and differences modulo an order, vectors and packings interleaved
//! by blocks, and the calls on packings.
#![tactic(auto)]

#[cfg(test)]
mod cases;
#[cfg(test)]
mod kernel_tables;
#[cfg(test)]
mod kernels;
#[cfg(test)]
mod long_products;
#[cfg(test)]
mod number_rules;
#[cfg(test)]
mod numbers;
#[cfg(test)]
mod operations;
#[cfg(test)]
mod orders;
#[cfg(test)]
mod packing_blocks;
#[cfg(test)]
mod packing_calls;
#[cfg(test)]
mod packing_columns;
#[cfg(test)]
mod packing_lanes;
#[cfg(test)]
mod packing_list_tables;
#[cfg(test)]
mod packing_quotients;
#[cfg(test)]
mod packing_slices;
#[cfg(test)]
mod packing_sum_tables;
#[cfg(test)]
mod packing_sums;
#[cfg(test)]
mod packing_tables;
#[cfg(test)]
mod packing_texts;
#[cfg(test)]
mod packing_types;
#[cfg(test)]
mod power_lists;
#[cfg(test)]
mod stored_products;
#[cfg(test)]
mod vector_blocks;
#[cfg(test)]
mod vector_tables;
