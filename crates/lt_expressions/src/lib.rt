//! Relation expressions as data.
#![tactic(auto)]

mod parts;
mod rel;
mod rel_builder;

use lt_hol::List;
pub use rel::{Rel, RelNode};
pub use rel_builder::RelBuilder;

/// A list of relation expressions.
pub type Rels = List<Rel>;
