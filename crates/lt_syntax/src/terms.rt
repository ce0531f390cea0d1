//! Terms as text, binders named by their depths.
ghost use Rattle.std.specs.Prelude.{◌≡◌, ◌++◌, ◌∷◌, [], Bool, true, false, codes, length, string_bytes, IfOk, OnOk, encode_utf8_all};
ghost use Rattle.std.specs.Fmt.{decimal};
ghost use Rattle.lt_definitions.specs.Printing.{printed_type, printed_bound, printed_constant, printed_later_arguments, printed_term};
ghost use Rattle.lt_syntax.specs.TermText.{application_front, application_pieces, term_front, later_pieces, binders_within};

use crate::binders::Binders;
use crate::pieces::Piece;
use crate::text::Text;
use crate::types::write_type;
use lt_hol::{List, Memory, Name, Term, TermNode, Ty};
use std::alloc::Global;

/// A term as text, a binder at depth d, counted from 0, named xd.
///
/// An application prints its head, which is no application, and all its arguments in one pair of brackets.
/// It takes time linear in the text, however deep the term is and however many binders are open.
pub fn print_term(alloc: Global, term: &Term) -> Result<String, Memory>
    ensures { IfOk result (λ text. string_bytes text ≡ encode_utf8_all (printed_term [] term.now)) }
{
    let mut text = Text::new(alloc);
    write_term(alloc, &mut text, term)?;
    Ok(text.finish())
}

/// Adds a term to a text.
pub fn write_term(alloc: Global, text: &mut Text, term: &Term) -> Result<(), Memory>
    ensures { OnOk result (text.new ≡ text.old ++ printed_term [] term.now) }
{
    let mut pieces = Vec::new(alloc);
    let root = term.node(term.len() - 1);
    let mut binders = begin_term(alloc, text, &mut pieces, Binders::new(alloc), false, root)?;
    while let Some(piece) = pieces.pop() {
        match piece {
            Piece::Head(at) => {
                binders = begin_term(alloc, text, &mut pieces, binders, true, term.node(at))?;
            }
            Piece::Argument(at) => {
                text.signs(" ")?;
                binders = begin_term(alloc, text, &mut pieces, binders, false, term.node(at))?;
            }
            Piece::Bracket => text.signs(")")?,
            Piece::End => {
                text.signs(")")?;
                binders = binders.leave()?;
            }
        }
    }
    Ok(())
}

/// Adds what stands before a node's parts, and puts the pieces down that come after it.
fn begin_term(
    alloc: Global,
    text: &mut Text,
    pieces: &mut Vec<Piece>,
    binders: Binders,
    is_head: bool,
    node: &TermNode,
) -> Result<Binders, Memory>
    ensures text { OnOk result (text.new ≡ text.old ++ term_front is_head binders node.now) }
    ensures pieces { OnOk result (pieces.new.items ≡ pieces.old.items ++ later_pieces is_head node.now) }
    ensures binders { IfOk result (λ b. b ≡ binders_within binders node.now) }
{
    match node {
        TermNode::Free(name, ty) => {
            write_free(alloc, text, name, ty)?;
            Ok(binders)
        }
        TermNode::Bound(name) => {
            write_bound(text, &binders, name)?;
            Ok(binders)
        }
        TermNode::Const(name, types) => {
            write_constant(alloc, text, name, types)?;
            Ok(binders)
        }
        TermNode::App(function, argument) => {
            begin_application(text, pieces, is_head, *function, *argument)?;
            Ok(binders)
        }
        TermNode::Lam(name, ty, body) => {
            write_binder(alloc, text, binders.len(), ty)?;
            pieces.push(Piece::End)?;
            pieces.push(Piece::Argument(*body))?;
            Ok(binders.enter(alloc, name)?)
        }
    }
}

/// Puts down head and argument of an application, in brackets where it is no head.
fn begin_application(
    text: &mut Text,
    pieces: &mut Vec<Piece>,
    is_head: bool,
    function: usize,
    argument: usize,
) -> Result<(), Memory>
    ensures text { OnOk result (text.new ≡ text.old ++ application_front is_head) }
    ensures pieces { OnOk result (pieces.new.items ≡ pieces.old.items ++ application_pieces is_head function argument) }
{
    if is_head {
        return Ok(put_parts(pieces, function, argument)?);
    }
    text.signs("(")?;
    pieces.push(Piece::Bracket)?;
    Ok(put_parts(pieces, function, argument)?)
}

/// Puts down the parts of an application, the head to come first.
fn put_parts(pieces: &mut Vec<Piece>, function: usize, argument: usize) -> Result<(), Memory>
    ensures { OnOk result (pieces.new.items ≡ pieces.old.items ++ application_pieces true function argument) }
{
    pieces.push(Piece::Argument(argument))?;
    pieces.push(Piece::Head(function))?;
    Ok(())
}

/// Adds a free variable with its type.
fn write_free(alloc: Global, text: &mut Text, name: &Name, ty: &Ty) -> Result<(), Memory>
    ensures { OnOk result (text.new ≡ text.old ++ (codes "($" ++ (name.now ++ (codes " " ++ (printed_type ty.now ++ codes ")"))))) }
{
    text.signs("($")?;
    text.name(name)?;
    text.signs(" ")?;
    write_type(alloc, text, ty)?;
    Ok(text.signs(")")?)
}

/// Adds a bound name: its binder's depth, or itself where it has no binder.
fn write_bound(text: &mut Text, binders: &Binders, name: &Name) -> Result<(), Memory>
    ensures { OnOk result (text.new ≡ text.old ++ (codes "%" ++ printed_bound name.now binders.now)) }
{
    text.signs("%")?;
    match binders.depth_of(name) {
        Some(depth) => {
            text.signs("x")?;
            Ok(text.number(depth)?)
        }
        None => Ok(text.name(name)?),
    }
}

/// Adds a constant, with its type arguments in square brackets.
fn write_constant(
    alloc: Global,
    text: &mut Text,
    name: &Name,
    types: &List<Ty>,
) -> Result<(), Memory>
    ensures { OnOk result (text.new ≡ text.old ++ printed_constant name.now types.now) }
{
    text.name(name)?;
    match types.as_slice() {
        [] => Ok(()),
        [first, later @ ..] => {
            text.signs("[")?;
            write_type(alloc, text, first)?;
            Ok(write_later_arguments(alloc, text, later)?)
        }
    }
}

/// Adds the type arguments behind the first, and the bracket behind them.
fn write_later_arguments(alloc: Global, text: &mut Text, types: &[Ty]) -> Result<(), Memory>
    ensures { OnOk result (text.new ≡ text.old ++ printed_later_arguments types.now) }
{
    for ty in types {
        text.signs(" ")?;
        write_type(alloc, text, ty)?;
    }
    Ok(text.signs("]")?)
}

/// Adds the front of an abstraction, whose binder is named by its depth.
fn write_binder(alloc: Global, text: &mut Text, depth: usize, ty: &Ty) -> Result<(), Memory>
    ensures { OnOk result (text.new ≡ text.old ++ (codes "(\\x" ++ (decimal depth ++ (codes " " ++ printed_type ty.now)))) }
{
    text.signs("(\\x")?;
    text.number(depth)?;
    text.signs(" ")?;
    Ok(write_type(alloc, text, ty)?)
}
