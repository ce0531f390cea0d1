//! What a search answers.
use lt_expressions::Rels;
use lt_hol::{List, Name, Term};

/// Whether a statement is to be equal to its image, or implied by it.
#[derive(Clone, Copy, Debug)]
pub enum Top {
    Equal,
    Implied,
}

/// For each occurrence of a constant, an argument's before its head's, the label of the rule that is
/// chosen, or None where equality is.
pub type Picks = List<Option<Name>>;

/// A choice for each occurrence and for the top, with its least solution.
#[derive(Debug, Drop)]
pub struct Choice {
    /// What is chosen at each occurrence.
    pub rules: Picks,
    /// Equal where equality was chosen at the top, Implied where `imp` was.
    pub top: Top,
    /// The relations of the chosen rules' variables, occurrence by occurrence, and then those of the
    /// binders from the left.
    pub relations: Rels,
    /// What the statement is transported to.
    pub image: Term,
    /// How many prefixes of choice lists were visited.
    pub visits: u64,
}
