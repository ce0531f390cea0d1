//! The conditions under which an item extends those before it, and the statements that it adds.
#![tactic(auto)]

mod applied;
mod building;
mod closed;
mod item_fault;
mod item_tests;
mod labels;
mod loose;
mod testing;
mod variables;

pub use building::{
    abs_inverse_statement, definition_statement, fun, new_type, rep_inverse_statement,
    rep_statement,
};
pub use item_fault::{ItemFault, TermSequent};
pub use item_tests::{test_const, test_definition, test_statement, test_type, test_typedef};
pub use labels::{abs_inverse_label, definition_label, rep_inverse_label, rep_label};
pub use testing::Statements;
