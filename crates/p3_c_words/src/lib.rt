//! Words that are stored for values of a field, why a call over them is refused, and the calls for one value, for the
//! numbers of a list, and for lists: pairs index by index, totals, and polynomials at points. Each reads the words as
//! values, makes the library's own call, and writes words back. Every call takes every input: what cannot be done is
//! refused by its reason, and then what was lent is as it was.
#![tactic(auto)]

pub mod blocks;
pub mod inverses;
pub mod numbers;
pub mod pairs;
pub mod points;
pub mod products;
pub mod refusal;
pub mod status;
pub mod stored;
pub mod totals;
