//! Terms as functions applied to variables.
use lt_store::Id;

/// A function and a variable, with a line that says what the function applied to the variable
/// equals.
#[derive(Drop)]
pub(crate) struct Expansion {
    pub function: Id,
    pub variable: Id,
    pub line: usize,
}

/// The parts of `S ((\x. f) x) ((\y. g) y)`, from `S f g`, and the line of it.
#[derive(Drop)]
pub(crate) struct Sides {
    /// `R x y`.
    pub related: Id,
    /// `\x. f`.
    pub image: Id,
    /// `\y. g`.
    pub given: Id,
    pub line: usize,
}
