//! A transfer rule, as data.
use lt_expressions::Rel;
use lt_hol::{List, Name, Term, Tys};
use lt_relations::{RelationVariable, Sides};

/// A transfer rule: for all relations at its variables with these side conditions, its relation
/// holds between its raw side, where the variables are free, and its constant at its pattern.
#[derive(Debug, Drop)]
pub struct TransferRule {
    pub label: Name,
    pub vars: List<RelationVariable>,
    pub sides: Sides,
    pub rel: Rel,
    pub raw: Term,
    pub constant: Name,
    pub pattern: Tys,
}
