//! Items of a plain theory.
use crate::lines::Lines;
use lt_terms::Term;
use lt_types::{List, Memory, Name, TryCopy, Ty};
use std::alloc::Global;

/// An item of a plain theory: one command's worth, with its parts in the order of the command's
/// text.
#[derive(Debug, Drop)]
pub enum Item {
    /// A type with its arity.
    TypeDecl(Name, usize),
    /// A constant with its type.
    ConstDecl(Name, Ty),
    /// A label and its statement.
    Axiom(Name, Term),
    /// A constant, its type and its body.
    Def(Name, Ty, Term),
    /// A type, its parameters, its predicate, the label of the statement that the predicate holds
    /// somewhere,
    /// and the constants into the type and back.
    Typedef(Name, List<Name>, Term, Name, Name, Name),
    /// A label, its statement and the lines that derive it.
    Lemma(Name, Term, Lines),
}

impl TryCopy for Item {
    fn copy(&self, alloc: Global) -> Result<Item, Memory> {
        match self {
            Item::TypeDecl(name, arity) => Ok(Item::TypeDecl(name.copy(alloc)?, *arity)),
            Item::ConstDecl(name, ty) => Ok(Item::ConstDecl(name.copy(alloc)?, ty.copy(alloc)?)),
            Item::Axiom(label, statement) => {
                Ok(Item::Axiom(label.copy(alloc)?, statement.copy(alloc)?))
            }
            Item::Def(name, ty, body) => {
                Ok(Item::Def(name.copy(alloc)?, ty.copy(alloc)?, body.copy(alloc)?))
            }
            Item::Typedef(name, params, predicate, by, abs, rep) => Ok(Item::Typedef(
                name.copy(alloc)?,
                params.copy(alloc)?,
                predicate.copy(alloc)?,
                by.copy(alloc)?,
                abs.copy(alloc)?,
                rep.copy(alloc)?,
            )),
            Item::Lemma(label, statement, lines) => Ok(Item::Lemma(
                label.copy(alloc)?,
                statement.copy(alloc)?,
                lines.copy(alloc)?,
            )),
        }
    }
}
