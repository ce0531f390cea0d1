//! Parts of statements.
use crate::variable_pair::VariablePair;
use lt_hol::Name;
use lt_store::Id;

/// How a part of a statement is related to its image. A statement is its parts in post-order.
#[derive(Debug, Drop)]
pub enum StatementPart {
    /// A constant, by the number of a line that relates it.
    Line(usize),
    /// A bound name, by the formula that the two variables of its binder are related.
    Name(Id),
    /// An application of the part before the last to the last.
    Application,
    /// An abstraction of the last part, by the variables of the binder.
    Abstraction(VariablePair),
}

/// The labels of the two laws of the function relator.
#[derive(Debug, Drop)]
pub struct RelatorLabels {
    /// That of rel_fun_app.
    pub application: Name,
    /// That of rel_fun_abs.
    pub abstraction: Name,
}
