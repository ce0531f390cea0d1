//! Names, lists and the types of higher-order logic.
#![tactic(auto)]

mod built_in;
mod list;
mod matching;
mod memory;
mod name;
mod substitute;
mod ty;
mod ty_builder;
mod ty_map;
mod type_variables;

pub use list::{List, TryCopy};
pub use matching::match_type;
pub use memory::Memory;
pub use name::{Name, is_name};
pub use substitute::tsub;
pub use ty::{Ty, TyNode};
pub use ty_builder::TyBuilder;
pub use ty_map::TyMap;
pub use type_variables::{are_clear, long_names, longest, variables};

/// A list of indices.
pub type Ids = List<usize>;

/// A list of names.
pub type Names = List<Name>;

/// A list of types.
pub type Tys = List<Ty>;
