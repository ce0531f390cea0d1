//! Theories that grow by extensions: each item is valid over those before it, or refused.
#![tactic(auto)]

mod derivation;
mod drafts;
mod entering;
mod lemmas;
mod proving;
mod storing;
mod telling;
mod theory;

pub use lt_conditions::{ItemFault, TermSequent};
pub use theory::Theory;
