//! Properties of relations.

/// A property that a relation may have.
#[derive(Clone, Copy, Debug, PartialEq, Eq)]
pub enum Property {
    LeftTotal,
    RightTotal,
    LeftUnique,
    RightUnique,
    BiTotal,
    BiUnique,
}
