//! Summary lines of items, and the line of counts.
ghost use Rattle.std.specs.Prelude.{◌≡◌, ◌++◌, [], codes, string_bytes, IfOk, OnOk, encode_utf8_all};
ghost use Rattle.lt_definitions.specs.Printing.{printed_head, printed_term, printed_type, summary_line};
ghost use Rattle.lt_hol.specs.Items.{item_of};
ghost use Rattle.lt_syntax.specs.ItemText.{typedef_head, definition_head, line_of_counts};

use crate::terms::write_term;
use crate::text::Text;
use crate::types::write_type;
use lt_hol::{Item, List, Memory, Name, Term, Ty};
use std::alloc::Global;

/// An item's summary line: its command without its end, and for a lemma without its lines, and a line feed.
pub fn summary_line(alloc: Global, item: &Item) -> Result<String, Memory>
    ensures { IfOk result (λ text. string_bytes text ≡ encode_utf8_all (summary_line (item_of item.now))) }
{
    let mut text = Text::new(alloc);
    write_head(alloc, &mut text, item)?;
    text.signs("\n")?;
    Ok(text.finish())
}

/// The line that says how many items, axioms and lemmas there are.
pub fn count_line(
    alloc: Global,
    items: usize,
    axioms: usize,
    lemmas: usize,
) -> Result<String, Memory>
    ensures { IfOk result (λ text. string_bytes text ≡ encode_utf8_all (line_of_counts items axioms lemmas)) }
{
    let mut text = Text::new(alloc);
    text.signs("items ")?;
    text.number(items)?;
    text.signs(" axioms ")?;
    text.number(axioms)?;
    text.signs(" lemmas ")?;
    text.number(lemmas)?;
    text.signs("\n")?;
    Ok(text.finish())
}

/// Adds an item's command without its end, and for a lemma without its lines.
pub(crate) fn write_head(alloc: Global, text: &mut Text, item: &Item) -> Result<(), Memory>
    ensures { OnOk result (text.new ≡ text.old ++ printed_head (item_of item.now)) }
{
    match item {
        Item::TypeDecl(name, arity) => {
            text.signs("type ")?;
            text.name(name)?;
            text.signs(" ")?;
            Ok(text.number(*arity)?)
        }
        Item::ConstDecl(name, ty) => {
            text.signs("const ")?;
            text.name(name)?;
            text.signs(" : ")?;
            Ok(write_type(alloc, text, ty)?)
        }
        Item::Axiom(label, statement) => {
            text.signs("axiom ")?;
            Ok(write_labelled(alloc, text, label, statement)?)
        }
        Item::Def(name, ty, body) => Ok(write_definition(alloc, text, name, ty, body)?),
        Item::Typedef(name, params, predicate, label, abs, rep) => {
            Ok(write_typedef(alloc, text, name, params, predicate, label, abs, rep)?)
        }
        Item::Lemma(label, statement, _) => {
            text.signs("lemma ")?;
            Ok(write_labelled(alloc, text, label, statement)?)
        }
    }
}

/// Adds a label and its statement.
fn write_labelled(
    alloc: Global,
    text: &mut Text,
    label: &Name,
    statement: &Term,
) -> Result<(), Memory>
    ensures { OnOk result (text.new ≡ text.old ++ (label.now ++ (codes " : " ++ printed_term [] statement.now))) }
{
    text.name(label)?;
    text.signs(" : ")?;
    Ok(write_term(alloc, text, statement)?)
}

/// Adds the head of a definition.
fn write_definition(
    alloc: Global,
    text: &mut Text,
    name: &Name,
    ty: &Ty,
    body: &Term,
) -> Result<(), Memory>
    ensures { OnOk result (text.new ≡ text.old ++ definition_head name.now ty.now body.now) }
{
    text.signs("def ")?;
    text.name(name)?;
    text.signs(" : ")?;
    write_type(alloc, text, ty)?;
    text.signs(" := ")?;
    Ok(write_term(alloc, text, body)?)
}

/// Adds the head of a typedef.
fn write_typedef(
    alloc: Global,
    text: &mut Text,
    name: &Name,
    params: &List<Name>,
    predicate: &Term,
    label: &Name,
    abs: &Name,
    rep: &Name,
) -> Result<(), Memory>
    ensures { OnOk result (text.new ≡ text.old ++ typedef_head name.now params.now predicate.now label.now abs.now rep.now) }
{
    text.signs("typedef ")?;
    text.name(name)?;
    for param in params.as_slice() {
        text.signs(" '")?;
        text.name(param)?;
    }
    text.signs(" : ")?;
    write_term(alloc, text, predicate)?;
    text.signs(" by ")?;
    text.name(label)?;
    text.signs(" abs ")?;
    text.name(abs)?;
    text.signs(" rep ")?;
    Ok(text.name(rep)?)
}
