//! Types as text.
ghost use Rattle.std.specs.Prelude.{◌≡◌, ◌++◌, string_bytes, IfOk, OnOk, encode_utf8_all};
ghost use Rattle.lt_definitions.specs.Printing.{printed_type};
ghost use Rattle.lt_syntax.specs.TypeText.{type_front, argument_rows, targets};

use crate::text::Text;
use lt_hol::{Memory, Ty, TyNode};
use std::alloc::Global;

/// A type as text: a variable behind a quote, a constructor alone, or in brackets with its arguments.
///
/// It takes time linear in the text, however deep the type is.
pub fn print_type(alloc: Global, ty: &Ty) -> Result<String, Memory>
    ensures { IfOk result (λ text. string_bytes text ≡ encode_utf8_all (printed_type ty.now)) }
{
    let mut text = Text::new(alloc);
    write_type(alloc, &mut text, ty)?;
    Ok(text.finish())
}

/// Adds a type to a text.
pub fn write_type(alloc: Global, text: &mut Text, ty: &Ty) -> Result<(), Memory>
    ensures { OnOk result (text.new ≡ text.old ++ printed_type ty.now) }
{
    let mut rows = Vec::new(alloc);
    begin_type(text, &mut rows, ty.node(ty.len() - 1))?;
    while let Some(row) = rows.pop() {
        match row {
            [] => text.signs(")")?,
            [argument, later @ ..] => {
                rows.push(later)?;
                text.signs(" ")?;
                begin_type(text, &mut rows, ty.node(*argument))?;
            }
        }
    }
    Ok(())
}

/// Adds what stands before a node's arguments, and puts their places down as one more row.
fn begin_type<'a>(
    text: &mut Text,
    rows: &mut Vec<&'a [usize]>,
    node: &'a TyNode,
) -> Result<(), Memory>
    ensures text { OnOk result (text.new ≡ text.old ++ type_front node.now) }
    ensures rows { OnOk result (targets rows.new.items ≡ targets rows.old.items ++ argument_rows node.now) }
{
    match node {
        TyNode::Var(name) => {
            text.signs("'")?;
            text.name(name)?;
        }
        TyNode::Con(name, places) => {
            if places.len() == 0 {
                return Ok(text.name(name)?);
            }
            text.signs("(")?;
            text.name(name)?;
            rows.push(places.as_slice())?;
        }
    }
    Ok(())
}
