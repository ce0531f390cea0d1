//! Names, types, terms and signatures of higher-order logic.
#![tactic(auto)]

mod binder_types;
mod built_in;
mod check_type;
mod form_part;
mod instance;
mod item;
mod line;
mod lines;
mod outcome;
mod property;
mod read_type;
mod recent_types;
mod shared_nodes;
mod signature;
mod type_fault;
mod type_table;
mod type_variables;
mod typing;

pub use form_part::{PropertyPart, QuotientPart, RelatorPart, RulePart};
pub use item::Item;
pub use line::Line;
pub use lines::Lines;
pub use lt_definitions::reason::Reason;
pub use lt_terms::{
    Binder, Term, TermBuilder, TermNode, Terms, alpha_eq, binders, close_free, nodes, open_binder,
    same_up_to_types, subst_free, term_instance,
};
pub use lt_types::{
    Ids, List, Memory, Name, Names, TryCopy, Ty, TyBuilder, TyMap, TyNode, Tys, are_clear, is_name,
    long_names, longest, match_type, tsub, variables,
};
pub use outcome::Outcome;
pub use property::Property;
pub use signature::{SigMark, Signature};
pub use type_fault::TypeFault;
pub use type_table::TypeTable;
pub use typing::applied_types;

/// A list of items.
pub type Items = List<Item>;
