//! The two variables of a binder.
use lt_hol::{Name, Ty};
use lt_store::Id;

/// The variables of a binder, one for the image and one for the statement itself, and the relation
/// between them.
#[derive(Debug, Drop)]
pub struct VariablePair {
    /// The name of the image's variable.
    pub image: Name,
    /// Its type.
    pub left: Ty,
    /// The name of the statement's own variable.
    pub given: Name,
    /// Its type.
    pub right: Ty,
    /// A relation between the two types.
    pub relation: Id,
}
