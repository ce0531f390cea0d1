//! What the forms of registered statements and constants are read by.
#![tactic(auto)]

mod constants;
mod names;
mod part;
mod relation_types;
mod statements;

pub use constants::{is_counted, is_declared_as};
pub use names::{are_among, are_distinct, constructor_of, type_names, variable_of};
pub use part::{Part, Shape};
pub use relation_types::relation_sides;
pub use statements::{
    BinderList, body_of, implication, implied_by, is_named, quantified, relation_name,
};
