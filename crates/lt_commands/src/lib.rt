//! The commands of theory texts as data, and what makes them of what was read.
#![tactic(auto)]

mod command;
mod commands;
mod maker;
mod note;
mod refusal;
mod rows;
mod sinking;
mod term_sink;

pub use command::Command;
pub use maker::Maker;
pub use note::Note;
pub use refusal::{NotParametric, Placed, Refusal, Refused, SequentTerms};
pub use term_sink::TermSink;
