//! A command with its places.
use lt_commands::Command;
use lt_types::List;

/// A list of places, each a number of bytes from the text's begin.
pub type Places = List<usize>;

/// A command with the place of its first token, the place behind its last one, and, for a lemma,
/// the place of the first token of each of its lines.
#[derive(Debug, Drop)]
pub struct Spanned {
    pub command: Command,
    pub from: usize,
    pub to: usize,
    pub lines: Places,
}
