//! The words of the command line.
#![tactic(auto)]

mod command;
pub mod examples;
mod mode;
mod number;
mod read;
mod text;

pub use mode::Mode;
pub use read::{Words, read_words};
pub use text::Text;
