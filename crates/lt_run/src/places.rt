//! Places in the files that a text is joined of.
ghost use Rattle.std.specs.Prelude.{◌≡◌, ◌≤◌, ◌<◌, ◌-◌, ◌++◌, ◌∷◌, [], ℕ, List, length, take, drop, slice_get, codes, Some, IfOk, string_bytes};
ghost use Rattle.std.specs.Fmt.{decimal};
ghost use Rattle.lt_texts.specs.Files.{File, InFile, in_file, printed_place, line_number, column_number, begins_character};
ghost use Rattle.lt_run.specs.Joining.{IsJoinedOf};
ghost use Rattle.lt_run.specs.Places.{AreNames, IsJoinedOfSome, IsFound, IsBehind};

use crate::files::Joined;
use lt_words::Text;
use std::alloc::{AllocError, Global};

/// A line and a column, from 1.
#[derive(Clone, Copy)]
pub(crate) struct Position {
    pub line: usize,
    pub column: usize,
}

/// A file by its number, from 0, and a front of its bytes by where it stands in the joined text.
#[derive(Clone, Copy)]
pub(crate) struct Front {
    pub file: usize,
    pub from: usize,
    pub to: usize,
}

/// A place in the joined text as FILE:LINE:COL.
///
/// It takes time linear in the number of the files and in the bytes of the file up to the place.
pub(crate) fn place_text(
    alloc: Global,
    names: &[Text],
    joined: &Joined,
    place: usize,
) -> Result<String, AllocError>
    requires { IsJoinedOfSome names.now joined.now }
    ensures { (held : List File) → AreNames names.now held → IsJoinedOf held joined.now
        → (p : InFile) → in_file held place ≡ Some p
        → IfOk result (λ text. string_bytes text ≡ printed_place p) }
{
    let front = find_place(names, joined, place);
    let position = position_behind(bytes_of(joined, front));
    position_text(alloc, name_of(names, front.file), position)
}

/// The bytes of a front.
fn bytes_of<'a>(joined: &'a Joined, front: Front) -> &'a [u8]
    requires from { front.from ≤ front.to }
    requires to { front.to ≤ length joined.now.text.items }
    ensures { result.now ≡ take (front.to - front.from) (drop front.from joined.now.text.items) }
{
    &joined.text[front.from..front.to]
}

/// The name of a file.
fn name_of<'a>(names: &'a [Text], file: usize) -> &'a str
    requires { file < length names.now }
    ensures { slice_get names.now file ≡ Some result.now }
{
    names[file].as_str()
}

/// A file's name with a position in it.
fn position_text(alloc: Global, file: &str, position: Position) -> Result<String, AllocError>
    ensures { IfOk result (λ text. string_bytes text ≡ file.now ++ (codes ":"
        ++ (decimal position.line ++ (codes ":" ++ decimal position.column)))) }
{
    let line = position.line;
    let column = position.column;
    format!(in alloc; "{file}:{line}:{column}")
}

/// The file of a place, and the bytes of the file before the place.
fn find_place(names: &[Text], joined: &Joined, place: usize) -> Front
    requires { IsJoinedOfSome names.now joined.now }
    ensures { IsFound names.now joined.now place result }
{
    let lengths = &joined.lengths;
    let mut file = 0;
    let mut from = 0;
    'files: while file + 1 < lengths.len() && place > from + lengths[file] {
        from += lengths[file] + 1;
        file += 1;
    }
    let within = least(place - from, lengths[file]);
    Front {
        file,
        from,
        to: from + within,
    }
}

/// The lesser of two numbers.
fn least(a: usize, b: usize) -> usize
    ensures first { result ≤ a }
    ensures second { result ≤ b }
    ensures one { (b < a → result ≡ b) }
    ensures other { (a ≤ b → result ≡ a) }
{
    if a > b { b } else { a }
}

/// The position behind some bytes of a file. A line feed ends a line, and columns count characters.
fn position_behind(before: &[u8]) -> Position
    ensures line { result.line ≡ line_number before.now }
    ensures column { result.column ≡ column_number before.now }
{
    let mut position = Position { line: 1, column: 1 };
    for byte in before {
        position = next_position(position, *byte);
    }
    position
}

/// The position behind one more byte.
fn next_position(position: Position, byte: u8) -> Position
    requires line { position.line < usize.MAX }
    requires column { position.column < usize.MAX }
    ensures { (before : List ℕ) → IsBehind before position
        → IsBehind (before ++ byte ∷ []) result }
{
    if byte == b'\n' {
        return Position {
            line: position.line + 1,
            column: 1,
        };
    }
    if begins_one(byte) {
        return Position {
            line: position.line,
            column: position.column + 1,
        };
    }
    position
}

/// Whether a byte is the first of a character.
fn begins_one(byte: u8) -> bool
    ensures { result ≡ begins_character byte }
{
    byte < 128 || byte >= 192
}
