//! The lines on the second sink.
ghost use Rattle.std.specs.Prelude.{◌≡◌, ◌++◌, List, codes, IfOk, string_bytes};
ghost use Rattle.lt_texts.specs.Files.{File};
ghost use Rattle.lt_walks.specs.Calls.{read_fault_line};
ghost use Rattle.lt_run.specs.Joining.{IsJoinedOf};
ghost use Rattle.lt_run.specs.Places.{AreNames, IsJoinedOfSome, placed_line};

use crate::files::Joined;
use crate::places::place_text;
use lt_hol::Memory;
use lt_plain::{Placed, print_refusal};
use lt_words::Text;
use std::alloc::{AllocError, Global};

/// The line on a refusal, with its place in its file.
pub(crate) fn refusal_line(
    alloc: Global,
    names: &[Text],
    joined: &Joined,
    placed: &Placed,
) -> Result<String, Memory>
    requires { IsJoinedOfSome names.now joined.now }
    ensures { (held : List File) → AreNames names.now held → IsJoinedOf held joined.now
        → IfOk result (λ line. string_bytes line ≡ placed_line held placed.now) }
{
    let place = place_text(alloc, names, joined, placed.at)?;
    let refusal = print_refusal(alloc, &placed.refusal)?;
    Ok(line_of(alloc, &place, &refusal)?)
}

/// A line of a place and of what stands there.
fn line_of(alloc: Global, place: &str, refusal: &str) -> Result<String, AllocError>
    ensures { IfOk result (λ line. string_bytes line
        ≡ place.now ++ (codes ": " ++ (refusal.now ++ codes "\n"))) }
{
    format!(in alloc; "{place}: {refusal}\n")
}

/// The line on a text that is too long with a file.
pub(crate) fn too_long_line(alloc: Global, file: &str) -> Result<String, AllocError>
    ensures { IfOk result (λ line. string_bytes line ≡ file.now ++ codes ": TooLong\n") }
{
    format!(in alloc; "{file}: TooLong\n")
}

/// The line that says that a read failed.
pub(crate) fn read_fault_text(alloc: Global, file: &str) -> Result<String, AllocError>
    ensures { IfOk result (λ line. string_bytes line ≡ read_fault_line file.now) }
{
    format!(in alloc; "read fault: {file}\n")
}
