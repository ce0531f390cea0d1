//! Laws over the definitions of the logic, and the nameless terms and rules behind them.
#![tactic(auto)]

pub mod alpha_laws;
pub mod nameless_examples;
pub mod nameless_laws;
pub mod rule_laws;
pub mod theory_laws;
pub mod typing_laws;
