//! What is registered, as data.
use lt_hol::{List, Name, Names, Property, Term, Ty};

/// Properties of relation variables, by their numbers.
pub type Sides = List<(Property, usize)>;

/// The relator of a type constructor, the constant that maps, and the labels of three theorems.
#[derive(Debug, Drop)]
pub struct Relator {
    pub con: Name,
    pub rel: Name,
    pub mapping: Name,
    pub eq: Name,
    pub quot: Name,
    pub comp: Name,
}

/// A constant that relates a raw type to an abstract one: a constructor over distinct type
/// variables, its parameters.
#[derive(Debug, Drop)]
pub struct Correspondence {
    pub name: Name,
    pub raw: Ty,
    pub con: Name,
    pub parameters: Names,
}

/// The parametrised form of a correspondence, and the labels of the equation that ties them and of
/// the form's definition.
#[derive(Debug, Drop)]
pub struct Param {
    pub name: Name,
    pub of: Name,
    pub eq: Name,
    pub defined: Name,
}

/// A property of a relation constructor over arguments that have properties.
#[derive(Debug, Drop)]
pub struct PropertyRule {
    pub label: Name,
    pub property: Property,
    pub head: Name,
    pub premises: Sides,
}

/// A relation variable of a statement, with the type variables on its left and on its right.
#[derive(Debug, Drop)]
pub struct RelationVariable {
    pub name: Name,
    pub left_name: Name,
    pub right_name: Name,
}

/// The domain of a relation constructor, as a term over relation variables, or over the type
/// variables of a correspondence.
#[derive(Debug, Drop)]
pub struct DomainRule {
    pub label: Name,
    pub head: Name,
    pub variables: List<RelationVariable>,
    pub type_arguments: Names,
    pub domain: Term,
}
