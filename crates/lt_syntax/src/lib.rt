//! Types, terms, sequents and items as text.
#![tactic(auto)]

mod binders;
mod items;
mod lines;
mod pieces;
mod sequents;
mod terms;
#[cfg(test)]
mod tests;
mod text;
mod types;

pub use items::{count_line, summary_line};
pub use lines::write_item;
pub use sequents::{print_sequent, write_sequent};
pub use terms::{print_term, write_term};
pub use text::Text;
pub use types::{print_type, write_type};
