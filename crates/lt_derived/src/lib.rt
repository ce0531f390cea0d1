//! Derivations of several lines over any store: repeated rules, instances of named statements,
//! conjunction and existence, and equations.
#![tactic(auto)]

mod connectives;
pub mod equations;
mod existence;
mod function_values;
mod instances;
mod parts;
mod putting;
mod repeating;
mod soundness;
mod tabled;
pub mod type_lengths;
mod unfolding;

pub use connectives::{conj, left, right};
pub use existence::{chosen_element, exists};
pub use function_values::extensionality;
pub use instances::{instance, instance_at};
pub use repeating::{chain, spec};
pub use soundness::sound;
pub use unfolding::{at_arguments, eqmp_back, unfold};
