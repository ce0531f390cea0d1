//! Derivations over one relation expression: that it is equality, that it has a property, that it
//! equals its normal form, and what its domain is.
#![tactic(auto)]

pub mod laws;
pub mod row_examples;
