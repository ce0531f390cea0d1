//! Refusals with their places.
ghost use Rattle.std.specs.Prelude.{◌≡◌, Some};
ghost use Rattle.lt_definitions.specs.Theory.{refusal};
ghost use Rattle.lt_walks.specs.Walks.{place_of};
ghost use Rattle.lt_script.specs.Promises.{as_wrong};
ghost use Rattle.lt_script.specs.declared.read_error.ReadError.TheVariants.{Memory as NoMemory};
ghost use Rattle.lt_plain.specs.Flattening.{flat, line_in};
ghost use Rattle.lt_plain.specs.Telling.{as_placed};
ghost use Rattle.lt_plain.specs.Placing.{IsPlacedError};

use crate::flattening::{line_of, of_fault};
use lt_commands::{Placed, Refusal};
use lt_extend::ItemFault;
use lt_script::{Places, ReadError};

/// What kept a text from being read on, with its place.
pub fn of_read_error(error: ReadError) -> Placed
    ensures { IsPlacedError error result }
{
    match error {
        ReadError::BadHeader(at) => placed(Refusal::BadHeader, at),
        ReadError::BadCommand(at) => placed(Refusal::BadCommand, at),
        ReadError::Syntax(at) => placed(Refusal::Syntax, at),
        ReadError::BadByte(at) => placed(Refusal::BadByte, at),
        ReadError::BadChar(at) => placed(Refusal::BadChar, at),
        ReadError::Memory => placed(Refusal::Memory, 0),
    }
}

/// The refusal of an item whose first token stands at a place, and those of its lines at others.
pub(crate) fn of_item_fault(fault: ItemFault, from: usize, lines: &Places) -> Placed
    ensures refusal { result.refusal ≡ flat fault }
    ensures at { result.at ≡ place_of from lines.now (line_in fault) }
{
    let at = place_in(from, lines, line_of(&fault));
    placed(of_fault(fault), at)
}

/// The place of a line's first token, where there is such a line, and else that of the command's.
pub fn place_in(from: usize, lines: &Places, line: Option<usize>) -> usize
    ensures { result ≡ place_of from lines.now line }
{
    match line {
        Some(number) => {
            if number == 0 || number > lines.len() {
                return from;
            }
            *lines.at(number - 1)
        }
        None => from,
    }
}

/// A refusal at a place.
fn placed(refusal: Refusal, at: usize) -> Placed
    ensures { result ≡ record { refusal = refusal; at = at } }
{
    Placed { refusal, at }
}
