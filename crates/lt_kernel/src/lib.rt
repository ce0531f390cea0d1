//! The kernel: what a theory has declared and stated, and derivations over any store of terms.
#![tactic(auto)]

mod applying;
mod assuming;
mod binding;
mod calls;
mod choosing;
mod derive;
mod equating;
mod implying;
mod passes;
mod premises;
mod proof;
mod proof_store;
mod quantifying;
mod replacing;
mod rule_fault;
mod sequent;
mod steps;
pub mod sure;

pub use proof::{Proof, ProofMark};
pub use rule_fault::RuleFault;
pub use sequent::{Sequent, Step};
