//! Definitions and lemmas that the contracts of the other crates cite: all of it stands in `specs/`.
#![tactic(auto)]
