//! Where a conversion is at work in a term.
ghost use Rattle.std.specs.Prelude.{◌≡◌, ℕ, ◌==◌, Some, OnOk, if◌then◌else◌};
ghost use Rattle.lt_conv.specs.Places.{line_in};

use lt_hol::{Memory, Name, Ty};
use lt_store::Id;
use std::collections::HashMap;

/// What is around the place, by the id of the node there.
#[derive(Debug, Drop)]
pub(crate) enum Level {
    /// The place is the head of the application.
    Function(Id),
    /// It is the argument; the number is the head's line.
    Argument(Id, usize),
    /// It is the body, opened by that variable.
    Body(Id, Name, Ty),
}

/// The place: a node that is still to be converted, or the line of one that is.
#[derive(Debug, Drop)]
pub(crate) enum Place {
    Node(Id),
    Line(usize),
}

/// The lines of nodes that were converted.
pub(crate) type Lines = HashMap<Id, usize>;

/// The levels around the place, the outermost first, and the lines of nodes that were converted.
#[derive(Debug, Drop)]
pub(crate) struct Work {
    pub levels: Vec<Level>,
    pub lines: Lines,
}

/// The line that was kept for an id.
pub(crate) fn known(lines: &Lines, id: Id) -> Option<usize>
    ensures { result ≡ line_in lines.now id }
{
    lines.get(&id).copied()
}

/// Keeps the line of an id.
pub(crate) fn keep(lines: &mut Lines, id: Id, line: usize) -> Result<(), Memory>
    ensures { OnOk result ((i : ℕ) → line_in lines.new i
        ≡ (if id == i then Some line else line_in lines.old i)) }
{
    lines.insert(id, line)?;
    Ok(())
}
