//! What a letter stands for: a variable, a constant or a type.
ghost use Rattle.std.specs.Prelude.{◌≡◌, IfOk, IsTrue};
ghost use Rattle.lt_tables.specs.Letters.{is_plain, letter_name, variable_name, constant_name, relation_constant, property_constant, letter_type};

use lt_types::{Memory, Name, Ty};
use std::alloc::Global;

/// The name that a text of ASCII letters, digits and underscores is.
pub fn word(alloc: Global, text: &str) -> Result<Name, Memory>
    requires { IsTrue (is_plain text.now) }
    ensures { IfOk result (λ name. name ≡ text.now) }
{
    Ok(Name::word(alloc, text)?)
}

/// The name of one letter; of what is no letter, `x`.
fn letter_name(alloc: Global, letter: u8) -> Result<Name, Memory>
    ensures { IfOk result (λ name. name ≡ letter_name letter) }
{
    if letter.is_ascii_alphabetic() {
        Ok(Name::repeated(alloc, letter as char, 0)?)
    } else {
        Ok(word(alloc, "x")?)
    }
}

/// The name of a variable: a letter, or for a digit one of the names of two quotients.
pub fn variable_name(alloc: Global, letter: u8) -> Result<Name, Memory>
    ensures { IfOk result (λ name. name ≡ variable_name letter) }
{
    match letter {
        b'1' => Ok(word(alloc, "R1")?),
        b'2' => Ok(word(alloc, "A1")?),
        b'3' => Ok(word(alloc, "B1")?),
        b'4' => Ok(word(alloc, "T1")?),
        b'5' => Ok(word(alloc, "R2")?),
        b'6' => Ok(word(alloc, "A2")?),
        b'7' => Ok(word(alloc, "B2")?),
        b'8' => Ok(word(alloc, "T2")?),
        _ => Ok(letter_name(alloc, letter)?),
    }
}

/// The name of a property of relations.
fn property_constant(alloc: Global, letter: u8) -> Result<Name, Memory>
    ensures { IfOk result (λ name. name ≡ property_constant letter) }
{
    match letter {
        b'l' => Ok(word(alloc, "left_total")?),
        b'r' => Ok(word(alloc, "right_total")?),
        b'u' => Ok(word(alloc, "left_unique")?),
        b'v' => Ok(word(alloc, "right_unique")?),
        b't' => Ok(word(alloc, "bi_total")?),
        b'b' => Ok(word(alloc, "bi_unique")?),
        _ => Ok(word(alloc, "eq")?),
    }
}

/// The name of another constant of the laws.
fn relation_constant(alloc: Global, letter: u8) -> Result<Name, Memory>
    ensures { IfOk result (λ name. name ≡ relation_constant letter) }
{
    match letter {
        b'm' => Ok(word(alloc, "map_fun")?),
        b'F' => Ok(word(alloc, "rel_fun")?),
        b'R' => Ok(word(alloc, "relcompp")?),
        b'V' => Ok(word(alloc, "conversep")?),
        b'O' => Ok(word(alloc, "eq_onp")?),
        b'D' => Ok(word(alloc, "Domainp")?),
        b'p' => Ok(word(alloc, "part_equivp")?),
        b'Q' => Ok(word(alloc, "Quotient")?),
        _ => Ok(property_constant(alloc, letter)?),
    }
}

/// The name of a constant.
pub(crate) fn constant_name(alloc: Global, letter: u8) -> Result<Name, Memory>
    ensures { IfOk result (λ name. name ≡ constant_name letter) }
{
    match letter {
        b'e' => Ok(word(alloc, "eq")?),
        b'i' => Ok(word(alloc, "imp")?),
        b'a' => Ok(word(alloc, "all")?),
        b's' => Ok(word(alloc, "eps")?),
        b'n' => Ok(word(alloc, "and")?),
        b'x' => Ok(word(alloc, "ex")?),
        b'I' => Ok(word(alloc, "id")?),
        b'C' => Ok(word(alloc, "comp")?),
        _ => Ok(relation_constant(alloc, letter)?),
    }
}

/// The type of a letter that isn't declared.
pub(crate) fn letter_type(alloc: Global, letter: u8) -> Result<Ty, Memory>
    ensures { IfOk result (λ ty. ty ≡ letter_type letter) }
{
    if letter == b'o' {
        return Ok(Ty::bool(alloc)?);
    }
    if letter.is_ascii_alphabetic() {
        Ok(Ty::var(alloc, Name::repeated(alloc, letter as char, 0)?)?)
    } else {
        Ok(Ty::bool(alloc)?)
    }
}
