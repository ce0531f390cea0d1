//! The forms of texts that are read: a header, and the commands that may stand.
ghost use Rattle.std.specs.Prelude.{◌≡◌, []};
ghost use Rattle.lt_script.specs.Openings.{word_of};

use std::alloc::Global;

/// A header by its word and its number. No header stands where the word is empty.
#[derive(Debug, Drop)]
pub struct Opening {
    pub word: String,
    pub number: u32,
}

/// The commands that may stand.
#[derive(Clone, Copy, Debug)]
pub enum Allowed {
    /// Items alone.
    Items,
    /// All commands.
    All,
}

/// No header: its word is empty, which no name is.
pub(crate) fn no_opening(alloc: Global) -> Opening
    ensures word { word_of result ≡ [] }
    ensures number { result.number ≡ 0 }
{
    let word = String::new(alloc);
    Opening { word, number: 0 }
}
