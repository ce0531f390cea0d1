//! The texts that the program writes by itself: those of the generator, and that of the laws.
#![tactic(auto)]

mod generated;
mod laws;

pub use generated::generate;
pub use laws::laws_text;
