//! The search for the first choice list that has a solution.
#![tactic(auto)]

mod choice;
mod expression;
mod solving;
mod walk;

pub use choice::{Choice, Picks, Top};
pub use expression::{Equation, Expression};
pub use solving::{resolve_all, solve_all};
pub use walk::{Prefixes, WalkFault, first_answer};
