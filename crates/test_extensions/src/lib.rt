//! Tests of extensions, and of square roots over prime fields and extensions: worked rows and
//! outside values as lines of tables.
#![tactic(auto)]

#[cfg(test)]
mod calls;
#[cfg(test)]
mod cases;
#[cfg(test)]
mod complex_calls;
#[cfg(test)]
mod complex_values;
#[cfg(test)]
mod extension_root_tables;
#[cfg(test)]
mod extension_tables;
#[cfg(test)]
mod extension_values;
#[cfg(test)]
mod extensions;
#[cfg(test)]
mod fields;
#[cfg(test)]
mod markers;
#[cfg(test)]
mod powers;
#[cfg(test)]
mod septic_tables;
#[cfg(test)]
mod septic_values;
#[cfg(test)]
mod slice_tables;
#[cfg(test)]
mod slices;
#[cfg(test)]
mod square_root_tables;
#[cfg(test)]
mod square_roots;
#[cfg(test)]
mod stream_tables;
#[cfg(test)]
mod streams;
#[cfg(test)]
mod trinomial_tables;
#[cfg(test)]
mod two_adic_calls;
#[cfg(test)]
mod values;
#[cfg(test)]
mod worked_tables;
