//! Sessions: what a theory text's commands have declared, stated and registered so far.
#![tactic(auto)]

mod counts;
mod faults;
pub mod laws;
mod running;
mod session;
mod stepping;

pub use counts::{Counts, count};
pub use lt_commands::{Command, Placed, Refusal, Refused};
pub use running::{Stop, run_text, stop_of, write_piece};
pub use session::{Block, Session};
pub use stepping::{next_command, open_theory};
