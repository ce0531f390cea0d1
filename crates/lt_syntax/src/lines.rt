//! Items with their lines, as commands.
ghost use Rattle.std.specs.Prelude.{◌≡◌, ◌++◌, ◌∷◌, ◌<◌, [], codes, get_or, length, map, true, string_bytes, IfOk, OnOk, encode_utf8_all};
ghost use Rattle.std.specs.Fmt.{decimal};
ghost use Rattle.lt_definitions.specs.Terms.{bound_name};
ghost use Rattle.lt_definitions.specs.Printing.{printed_item, printed_lines, printed_rule, printed_term, printed_type};
ghost use Rattle.lt_hol.specs.Items.{item_of};
ghost use Rattle.lt_hol.specs.Lines.{trees, rule_of, rules_of, is_within};
ghost use Rattle.lt_syntax.specs.ItemText.{printed_end};
ghost use Rattle.lt_syntax.specs.Signs.{are_ascii};

use crate::items::write_head;
use crate::terms::write_term;
use crate::text::Text;
use crate::types::write_type;
use lt_hol::{Item, Line, Lines, Memory, Name, Ty};
use std::alloc::Global;

/// An item as its command, a lemma with its lines.
///
/// Want of memory is answered too where a number is greater than 2^32 - 1, which no text can have.
pub fn write_item(alloc: Global, item: &Item) -> Result<String, Memory>
    ensures { IfOk result
        (λ text. string_bytes text ≡ encode_utf8_all (printed_item (item_of item.now))) }
{
    let mut text = Text::new(alloc);
    write_head(alloc, &mut text, item)?;
    write_end(alloc, &mut text, item)?;
    Ok(text.finish())
}

/// Adds what stands behind an item's head.
fn write_end(alloc: Global, text: &mut Text, item: &Item) -> Result<(), Memory>
    ensures { OnOk result (text.new ≡ text.old ++ printed_end (item_of item.now)) }
{
    match item {
        Item::Lemma(_, _, lines) => {
            text.signs(" {\n")?;
            write_lines(alloc, text, lines)?;
            Ok(text.signs("};\n")?)
        }
        Item::TypeDecl(_, arity) if *arity > 4_294_967_295 => Err(Memory),
        _ => Ok(text.signs(";\n")?),
    }
}

/// Adds the lines of a lemma, each on one of its own.
fn write_lines(alloc: Global, text: &mut Text, lines: &Lines) -> Result<(), Memory>
    ensures { OnOk result (text.new
        ≡ text.old ++ printed_lines (rules_of lines.now.nodes lines.now.lines)) }
{
    for i in 0..lines.len() {
        text.signs("  ")?;
        write_rule(alloc, text, lines, lines.at(i))?;
        text.signs(";\n")?;
    }
    Ok(())
}

/// Adds a line's rule with its arguments.
fn write_rule(alloc: Global, text: &mut Text, lines: &Lines, line: &Line) -> Result<(), Memory>
    requires { is_within (length lines.now.nodes) line.now ≡ true }
    ensures { OnOk result (text.new
        ≡ text.old ++ printed_rule (rule_of (trees lines.now.nodes) line.now)) }
{
    match line {
        Line::Assume(t) => write_term_rule(alloc, text, lines, "assume", *t),
        Line::Weaken(t, i) => write_term_and_number(alloc, text, lines, "weaken", *t, *i),
        Line::Refl(t) => write_term_rule(alloc, text, lines, "refl", *t),
        Line::Sym(i) => write_number_rule(text, "sym", *i),
        Line::Trans(i, j) => write_numbers(text, "trans", *i, *j),
        Line::Cong(i, j) => write_numbers(text, "cong", *i, *j),
        Line::Abs(x, ty, i) => write_closing(alloc, text, "abs", x, ty, *i),
        Line::Beta(t) => write_term_rule(alloc, text, lines, "beta", *t),
        Line::Eta(t) => write_term_rule(alloc, text, lines, "eta", *t),
        Line::Eqmp(i, j) => write_numbers(text, "eqmp", *i, *j),
        Line::ImpI(t, i) => write_term_and_number(alloc, text, lines, "impI", *t, *i),
        Line::Mp(i, j) => write_numbers(text, "mp", *i, *j),
        Line::AllI(x, ty, i) => write_closing(alloc, text, "allI", x, ty, *i),
        Line::AllE(t, i) => write_term_and_number(alloc, text, lines, "allE", *t, *i),
        Line::Iff(i, j) => write_numbers(text, "iff", *i, *j),
        Line::Inst(x, ty, t, i) => write_instance(alloc, text, lines, x, ty, *t, *i),
        Line::Tinst(a, ty, i) => write_type_instance(alloc, text, a, ty, *i),
        Line::Select(t) => write_term_rule(alloc, text, lines, "select", *t),
        Line::Ccontr(t) => write_term_rule(alloc, text, lines, "ccontr", *t),
        Line::Thm(label) => write_citation(text, label),
    }
}

/// Adds a rule that takes a term.
fn write_term_rule(
    alloc: Global,
    text: &mut Text,
    lines: &Lines,
    word: &str,
    t: usize,
) -> Result<(), Memory>
    requires word { are_ascii word.now ≡ true }
    requires within { t < length lines.now.nodes }
    ensures { OnOk result (text.new ≡ text.old ++ (word.now ++ (codes " "
        ++ printed_term [] (get_or (trees lines.now.nodes) t (bound_name []))))) }
{
    text.signs(word)?;
    text.signs(" ")?;
    Ok(write_place(alloc, text, lines, t)?)
}

/// Adds a rule that takes a term and a line.
fn write_term_and_number(
    alloc: Global,
    text: &mut Text,
    lines: &Lines,
    word: &str,
    t: usize,
    i: usize,
) -> Result<(), Memory>
    requires word { are_ascii word.now ≡ true }
    requires within { t < length lines.now.nodes }
    ensures { OnOk result (text.new ≡ text.old ++ (word.now ++ (codes " "
        ++ (printed_term [] (get_or (trees lines.now.nodes) t (bound_name []))
        ++ (codes " " ++ decimal i))))) }
{
    text.signs(word)?;
    text.signs(" ")?;
    write_place(alloc, text, lines, t)?;
    Ok(write_number(text, i)?)
}

/// Adds a rule that takes a line.
fn write_number_rule(text: &mut Text, word: &str, i: usize) -> Result<(), Memory>
    requires { are_ascii word.now ≡ true }
    ensures { OnOk result (text.new ≡ text.old ++ (word.now ++ (codes " " ++ decimal i))) }
{
    text.signs(word)?;
    Ok(write_number(text, i)?)
}

/// Adds a rule that takes two lines.
fn write_numbers(text: &mut Text, word: &str, i: usize, j: usize) -> Result<(), Memory>
    requires { are_ascii word.now ≡ true }
    ensures { OnOk result (text.new
        ≡ text.old ++ (word.now ++ (codes " " ++ (decimal i ++ (codes " " ++ decimal j))))) }
{
    text.signs(word)?;
    write_number(text, i)?;
    Ok(write_number(text, j)?)
}

/// Adds a rule that closes a line over a variable.
fn write_closing(
    alloc: Global,
    text: &mut Text,
    word: &str,
    name: &Name,
    ty: &Ty,
    i: usize,
) -> Result<(), Memory>
    requires { are_ascii word.now ≡ true }
    ensures { OnOk result (text.new ≡ text.old ++ (word.now ++ (codes " " ++ (name.now
        ++ (codes " " ++ (printed_type ty.now ++ (codes " " ++ decimal i))))))) }
{
    text.signs(word)?;
    text.signs(" ")?;
    write_typed(alloc, text, name, ty)?;
    Ok(write_number(text, i)?)
}

/// Adds the rule that puts a type for a type variable.
fn write_type_instance(
    alloc: Global,
    text: &mut Text,
    name: &Name,
    ty: &Ty,
    i: usize,
) -> Result<(), Memory>
    ensures { OnOk result (text.new ≡ text.old ++ (codes "tinst '" ++ (name.now
        ++ (codes " " ++ (printed_type ty.now ++ (codes " " ++ decimal i)))))) }
{
    text.signs("tinst '")?;
    write_typed(alloc, text, name, ty)?;
    Ok(write_number(text, i)?)
}

/// Adds the rule that puts a term for a variable.
fn write_instance(
    alloc: Global,
    text: &mut Text,
    lines: &Lines,
    name: &Name,
    ty: &Ty,
    t: usize,
    i: usize,
) -> Result<(), Memory>
    requires { t < length lines.now.nodes }
    ensures { OnOk result (text.new ≡ text.old ++ (codes "inst " ++ (name.now
        ++ (codes " " ++ (printed_type ty.now ++ (codes " "
        ++ (printed_term [] (get_or (trees lines.now.nodes) t (bound_name []))
        ++ (codes " " ++ decimal i)))))))) }
{
    text.signs("inst ")?;
    write_typed(alloc, text, name, ty)?;
    text.signs(" ")?;
    write_place(alloc, text, lines, t)?;
    Ok(write_number(text, i)?)
}

/// Adds the rule that cites a statement.
fn write_citation(text: &mut Text, label: &Name) -> Result<(), Memory>
    ensures { OnOk result (text.new ≡ text.old ++ (codes "thm " ++ label.now)) }
{
    text.signs("thm ")?;
    Ok(text.name(label)?)
}

/// Adds the term at a place of the lines' nodes.
fn write_place(alloc: Global, text: &mut Text, lines: &Lines, place: usize) -> Result<(), Memory>
    requires { place < length lines.now.nodes }
    ensures { OnOk result (text.new
        ≡ text.old ++ printed_term [] (get_or (trees lines.now.nodes) place (bound_name []))) }
{
    let term = lines.term(alloc, place)?;
    Ok(write_term(alloc, text, &term)?)
}

/// Adds a name, a space and a type.
fn write_typed(alloc: Global, text: &mut Text, name: &Name, ty: &Ty) -> Result<(), Memory>
    ensures { OnOk result (text.new
        ≡ text.old ++ (name.now ++ (codes " " ++ printed_type ty.now))) }
{
    text.name(name)?;
    text.signs(" ")?;
    Ok(write_type(alloc, text, ty)?)
}

/// Adds a space and the number of a line.
fn write_number(text: &mut Text, number: usize) -> Result<(), Memory>
    ensures { OnOk result (text.new ≡ text.old ++ (codes " " ++ decimal number)) }
{
    if number > 4_294_967_295 {
        return Err(Memory);
    }
    text.signs(" ")?;
    Ok(text.number(number)?)
}
