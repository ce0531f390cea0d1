//! Terms of higher-order logic: their binders, alpha equality, opening and closing.
#![tactic(auto)]

mod alpha;
mod bound_names;
mod closing;
mod counting;
mod numbering;
mod opening;
mod pending;
mod replacing;
mod scope;
mod term;
mod term_builder;
mod term_instances;
mod up_to_types;

pub use alpha::alpha_eq;
pub use bound_names::{Binder, binders};
pub use closing::close_free;
pub use counting::nodes;
use lt_types::List;
pub use opening::open_binder;
pub use replacing::subst_free;
pub use term::{Term, TermNode};
pub use term_builder::TermBuilder;
pub use term_instances::term_instance;
pub use up_to_types::same_up_to_types;

/// A list of terms.
pub type Terms = List<Term>;
