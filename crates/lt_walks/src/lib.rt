//! Walks through texts, and what is written of them: definitions, and laws over them.
#![tactic(auto)]

pub mod laws;
