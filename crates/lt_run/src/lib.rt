//! The top call: reads the words, the files and their theory, and writes what was found.
#![tactic(auto)]

mod asked;
mod check;
mod ended;
mod files;
pub mod laws;
mod places;
mod report;
mod run;
mod running;
mod sure;
mod telling;
mod texts;
mod walk;

pub use ended::Ended;
pub use lt_words::Text;
pub use run::lt;
pub use sure::lt_sure;
