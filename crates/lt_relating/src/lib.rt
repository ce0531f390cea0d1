//! Derivations along statements: lines that relate functions and values, on the way to a line that
//! relates a statement to its image.
#![tactic(auto)]

mod abstracting;
mod applying;
mod expansion;
pub mod laws;
mod part;
mod reading;
mod relating;
pub mod row_examples;
mod variable_pair;

pub use abstracting::abstract_related;
pub use applying::apply_related;
pub use part::{RelatorLabels, StatementPart};
pub use relating::relate_statement;
pub use variable_pair::VariablePair;
