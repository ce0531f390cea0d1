//! The term of a text.
ghost use Rattle.std.specs.Prelude.{◌≡◌, IfOk, OnOk};
ghost use Rattle.lt_tables.specs.Stacks.{signs, term_of, term_with, type_with, only_term};
ghost use Rattle.lt_tables.specs.Views.{stacks_of};

use crate::stacks::Making;
use lt_terms::{Term, TermBuilder};
use lt_types::{Memory, Ty};
use std::alloc::Global;

/// What a text makes of what was made before.
fn read(alloc: Global, making: &mut Making, text: &str) -> Result<(), Memory>
    ensures { OnOk result (stacks_of making.new ≡ signs text.now (stacks_of making.old)) }
{
    for sign in text.as_bytes() {
        making.sign(alloc, *sign)?;
    }
    Ok(())
}

/// The term of a text in post-order; None where the text isn't that of one term.
///
/// A letter is the last letter until the next one, and a sign makes something of it: `:` its type, `>` and `~` the type of
/// functions and of relations between the last two types, `=` a declaration of the letter with the last type, `#` the
/// constant with all types as its arguments, `!` the constant `all` at its type, `%` its bound name, `$` its free variable, `^` an
/// abstraction over it of the last term, and `.` the application of the last term but one to the last.
pub fn term_of(alloc: Global, text: &str) -> Result<Option<Term>, Memory>
    ensures { IfOk result (λ o. o ≡ term_of text.now) }
{
    let mut making = Making::new(alloc);
    read(alloc, &mut making, text)?;
    let Making { terms, .. } = making;
    Ok(only_term(terms))
}

/// The same, where another text declares the letters.
pub fn term_with(alloc: Global, types: &str, text: &str) -> Result<Option<Term>, Memory>
    ensures { IfOk result (λ o. o ≡ term_with types.now text.now) }
{
    let mut making = Making::new(alloc);
    read(alloc, &mut making, types)?;
    read(alloc, &mut making, text)?;
    let Making { terms, .. } = making;
    Ok(only_term(terms))
}

/// The type with which a text declares a letter.
pub fn type_with(alloc: Global, types: &str, letter: u8) -> Result<Ty, Memory>
    ensures { IfOk result (λ ty. ty ≡ type_with types.now letter) }
{
    let mut making = Making::new(alloc);
    read(alloc, &mut making, types)?;
    Ok(making.type_of(alloc, letter)?)
}

/// The one term that was made.
fn only_term(terms: TermBuilder) -> Option<Term>
    ensures { result ≡ only_term terms }
{
    if terms.len() == 1 {
        Some(terms.finish())
    } else {
        None
    }
}
