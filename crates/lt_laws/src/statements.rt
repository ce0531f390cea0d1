//! The statement of a law.
ghost use Rattle.std.specs.Prelude.{◌≡◌, true, IfOk};
ghost use Rattle.std.specs.Option.{option_copied};
ghost use Rattle.lt_definitions.specs.Types.{found};
ghost use Rattle.lt_transport_definitions.specs.LawTexts.{law_statement};
ghost use Rattle.lt_laws.specs.Tables.{are_ascii, texts, text_of};

use crate::table::LAWS;
use lt_tables::term_of;
use lt_terms::Term;
use lt_types::{Memory, Name};
use std::alloc::Global;

/// The text beside a name.
fn find_text(laws: &[(&'static str, &'static str)], name: &Name) -> Option<&'static str>
    requires { are_ascii laws.now ≡ true }
    ensures { option_copied result ≡ found name.now (texts laws.now) }
{
    for i in 0..laws.len() {
        if name.is_word(laws[i].0) {
            return Some(laws[i].1);
        }
    }
    None
}

/// The text of a law's statement.
fn text_of(name: &Name) -> Option<&'static str>
    ensures { option_copied result ≡ text_of name.now }
{
    find_text(&LAWS, name)
}

/// The closed statement of the law of that name; None where there is no such law.
pub fn law_statement(alloc: Global, name: &Name) -> Result<Option<Term>, Memory>
    ensures { IfOk result (λ o. o ≡ law_statement name.now) }
{
    match text_of(name) {
        Some(text) => Ok(term_of(alloc, text)?),
        None => Ok(None),
    }
}
