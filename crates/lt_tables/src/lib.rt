//! Terms as short texts in post-order, and derivations as tables of rows.
#![tactic(auto)]

pub mod derivations;
mod letters;
mod post_order;
mod rows;
mod stacks;

pub use letters::{variable_name, word};
pub use post_order::{term_of, term_with, type_with};
pub use rows::Row;
