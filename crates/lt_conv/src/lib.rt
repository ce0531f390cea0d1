//! Conversions: each equates a term with its result, by a derivation.
#![tactic(auto)]

mod conversion;
mod counting;
mod everywhere;
pub mod laws;
mod machine;
mod moves;
mod new_names;
mod normalising;
mod opening;
mod places;
mod settling;
mod steps;
mod unfolding;

pub use conversion::{Beta, Conversion, OrElse, Then};
pub use everywhere::Everywhere;
pub use machine::ConvFault;
pub use normalising::normal_form;
pub use unfolding::Unfold;
