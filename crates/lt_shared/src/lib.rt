//! A store of terms in which no node stands twice.
#![tactic(auto)]

mod distinct;
mod shared_store;

pub use shared_store::SharedStore;
