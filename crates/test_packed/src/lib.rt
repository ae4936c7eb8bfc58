//! Tests of packings and packed extensions: rows of tables, and calls at types that are named, as a user writes them.
#![tactic(auto)]

#[cfg(test)]
mod call_tables;
#[cfg(test)]
mod calls;
#[cfg(test)]
mod cases;
#[cfg(test)]
mod column_calls;
#[cfg(test)]
mod columnwise_calls;
#[cfg(test)]
mod extension_calls;
#[cfg(test)]
mod extension_operations;
#[cfg(test)]
mod inverse_calls;
#[cfg(test)]
mod lane_calls;
#[cfg(test)]
mod operation_calls;
#[cfg(test)]
mod own_field;
#[cfg(test)]
mod quadratic;
#[cfg(test)]
mod row_calls;
#[cfg(test)]
mod sequence_calls;
