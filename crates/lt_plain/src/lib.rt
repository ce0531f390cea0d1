//! Checks plain texts, item by item.
#![tactic(auto)]

mod adding;
mod checking;
mod flattening;
pub mod laws;
mod placing;
mod printing;

pub use adding::{add_item, item_or_command};
pub use checking::{check_plain, next_item, open_plain};
pub use flattening::{line_of, of_fault};
pub use lt_commands::{Placed, Refusal, SequentTerms};
pub use lt_script::Script;
pub use lt_syntax::{summary_line, write_item};
pub use placing::{of_read_error, place_in};
pub use printing::print_refusal;
