//! What is left to write of a term.

/// A piece of a term's text that is still to be written.
#[derive(Clone, Copy, Debug)]
pub(crate) enum Piece {
    /// The term at a place, as the head of an application.
    Head(usize),
    /// A space and the term at a place.
    Argument(usize),
    /// A closing bracket.
    Bracket,
    /// A closing bracket, behind which the innermost binder is no longer open.
    End,
}
