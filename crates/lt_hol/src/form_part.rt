//! The parts of the forms that statements must have.

/// The part in which the statements for a relator or a correspondence haven't their form.
#[derive(Clone, Copy, Debug, PartialEq, Eq)]
pub enum RelatorPart {
    /// The type of a correspondence.
    Corr,
    /// The type constructor.
    K,
    /// The type of the relator.
    R,
    /// The type of the map.
    M,
    /// The statement on equality.
    E,
    /// The statement on quotients.
    Q,
    /// The statement on composition.
    O,
}

/// The part in which the statement of a property hasn't its form.
#[derive(Clone, Copy, Debug, PartialEq, Eq)]
pub enum PropertyPart {
    Prefix,
    Premise,
    Head,
}

/// The part in which the statement of a transfer rule hasn't its form.
#[derive(Clone, Copy, Debug, PartialEq, Eq)]
pub enum RulePart {
    Prefix,
    Head,
    Relation,
    Types,
}

/// The part in which the statement of a quotient hasn't its form.
#[derive(Clone, Copy, Debug, PartialEq, Eq)]
pub enum QuotientPart {
    Shape,
    Abstract,
    Relation,
    Order,
}
