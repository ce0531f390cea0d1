//! Stores of terms without binder names, and the passes over any store.
#![tactic(auto)]

mod bounds;
mod change;
mod heads;
mod image;
mod last;
mod memo;
mod naming;
mod node;
mod pass;
mod passes;
mod plain_store;
mod replacing;
mod same;
mod storing;
mod term_store;
mod told;
mod type_numbers;
mod type_work;
mod typing;

pub use bounds::Bounds;
pub use heads::known_type;
pub use memo::Memo;
pub use naming::from_store;
pub use node::{Id, Node, View};
pub use passes::{
    abstract_free, has_free, has_loose, instantiate, longest_free, replace_free, type_instance,
    type_instances,
};
pub use plain_store::PlainStore;
pub use replacing::Replacing;
pub use storing::to_store;
pub use term_store::TermStore;
pub use typing::type_at;
