//! Terms that are being made.
ghost use Rattle.std.specs.Prelude.{◌≡◌, true};
ghost use Rattle.lt_commands.specs.Places.{are_places};

use lt_hol::Lines;
use lt_terms::{Term, TermBuilder};

/// Terms that are being made. Before the first line they are terms of their own; from there on
/// their nodes go straight into the vector that the lines share.
#[derive(Drop)]
pub struct TermSink {
    pub builder: TermBuilder,
    pub wholes: Vec<Term>,
    pub lines: Lines,
    /// The places of the terms of lines that are being made.
    pub roots: Vec<usize>,
    /// The places of the terms of lines that are whole.
    pub places: Vec<usize>,
    pub sharing: bool,
    ghost roots_within: { are_places lines.nodes roots.items ≡ true },
    ghost places_within: { are_places lines.nodes places.items ≡ true },
}
