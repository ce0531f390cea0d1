//! Sequents as text.
ghost use Rattle.std.specs.Prelude.{◌≡◌, ◌++◌, [], codes, string_bytes, IfOk, OnOk, encode_utf8_all};
ghost use Rattle.lt_definitions.specs.Printing.{printed_hyps, printed_sequent, printed_term};
ghost use Rattle.lt_syntax.specs.SequentText.{later_hyps};

use crate::terms::write_term;
use crate::text::Text;
use lt_hol::{Memory, Term};
use std::alloc::Global;

/// A sequent as text: its hypotheses with commas between, the turnstile and the conclusion.
pub fn print_sequent(alloc: Global, hyps: &[Term], concl: &Term) -> Result<String, Memory>
    ensures { IfOk result (λ text. string_bytes text
        ≡ encode_utf8_all (printed_sequent (record { hyps = hyps.now; concl = concl.now }))) }
{
    let mut text = Text::new(alloc);
    write_sequent(alloc, &mut text, hyps, concl)?;
    Ok(text.finish())
}

/// Adds a sequent to a text.
pub fn write_sequent(
    alloc: Global,
    text: &mut Text,
    hyps: &[Term],
    concl: &Term,
) -> Result<(), Memory>
    ensures { OnOk result (text.new
        ≡ text.old ++ printed_sequent (record { hyps = hyps.now; concl = concl.now })) }
{
    write_hyps(alloc, text, hyps)?;
    text.signs("|- ")?;
    Ok(write_term(alloc, text, concl)?)
}

/// Adds hypotheses with commas between, and a space behind.
fn write_hyps(alloc: Global, text: &mut Text, hyps: &[Term]) -> Result<(), Memory>
    ensures { OnOk result (text.new ≡ text.old ++ printed_hyps hyps.now) }
{
    match hyps {
        [] => Ok(()),
        [first, later @ ..] => Ok(write_some(alloc, text, first, later)?),
    }
}

/// Adds a hypothesis and others behind it, and a space.
fn write_some(alloc: Global, text: &mut Text, first: &Term, later: &[Term]) -> Result<(), Memory>
    ensures { OnOk result (text.new
        ≡ text.old ++ (printed_term [] first.now ++ (later_hyps later.now ++ codes " "))) }
{
    write_term(alloc, text, first)?;
    write_later(alloc, text, later)?;
    Ok(text.signs(" ")?)
}

/// Adds hypotheses, each behind a comma.
fn write_later(alloc: Global, text: &mut Text, hyps: &[Term]) -> Result<(), Memory>
    ensures { OnOk result (text.new ≡ text.old ++ later_hyps hyps.now) }
{
    for hyp in hyps {
        text.signs(", ")?;
        write_term(alloc, text, hyp)?;
    }
    Ok(())
}
