//! What is registered of relations, and what follows of it.
#![tactic(auto)]

mod corr_form;
mod entries;
mod holdings;
mod property_rules;
mod registering;
mod rel_fault;
mod relations;
mod table;

pub use entries::{
    Correspondence, DomainRule, Param, PropertyRule, RelationVariable, Relator, Sides,
};
pub use rel_fault::RelFault;
pub use relations::{Kind, Relations, RelationsMark};
