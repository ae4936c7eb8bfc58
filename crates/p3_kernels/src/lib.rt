//! Arithmetic of words on the lanes of vectors, over no field: products in Montgomery's form and modulo small orders
//! and sums of four of them, for blocks of 4 and 8 words and for slices of every length, sums of products of any
//! number, and sums and differences of arrays.
#![tactic(auto)]

pub mod dot_product_blocks;
pub mod dot_product_slices;
mod halfwords;
mod lane_reductions;
pub mod montgomery_blocks;
pub mod montgomery_slices;
pub mod product_sums;
pub mod residue_arrays;
pub mod row_products;
mod row_residues;
mod short_remainders;
pub mod small_dot_products;
pub mod small_products;
pub mod small_row_products;
pub mod small_sums;
pub mod wide_products;
pub mod word_pairs;
mod word_vectors;
