//! The type variables of terms, numbered in order of first appearance.
ghost use Rattle.std.specs.Prelude.{◌≡◌, ◌++◌, ◌∷◌, List, None, codes, IfOk, OnOk};
ghost use Rattle.std.specs.Fmt.{decimal};
ghost use Rattle.lt_definitions.specs.Types.{Chars, found, type_names, types_names, type_variable, row};
ghost use Rattle.lt_definitions.specs.Terms.{term_variables};
ghost use Rattle.lt_definitions.specs.Alpha.{numbered};
ghost use Rattle.lt_terms.specs.Numberings.{IsUnderway, node_names, parts, variable_names};

use crate::term::{Term, TermNode};
use lt_types::{List, Memory, Name, TryCopy, Ty, TyMap, TyNode};
use std::alloc::Global;

/// The map from a term's type variables to 't1, 't2, .., in order of first appearance.
///
/// It takes time linear in the term with its types, where a look-up counts as one.
pub(crate) fn numbering(alloc: Global, t: &Term) -> Result<TyMap, Memory>
    ensures { IfOk result (λ m. m ≡ numbered 1 (term_variables t.now)) }
{
    let mut map = TyMap::new(alloc);
    let mut places = Vec::new(alloc);
    places.push(t.len() - 1)?;
    while let Some(at) = places.pop() {
        let node = t.node(at);
        map = number_node(alloc, map, node)?;
        push_parts(&mut places, node)?;
    }
    Ok(map)
}

/// Adds the places of a node's parts, the first part last.
fn push_parts(places: &mut Vec<usize>, node: &TermNode) -> Result<(), Memory>
    ensures { OnOk result (places.new.items ≡ places.old.items ++ parts node.now) }
{
    match node {
        TermNode::App(function, argument) => {
            places.push(*argument)?;
            places.push(*function)?;
        }
        TermNode::Lam(_, _, body) => places.push(*body)?,
        TermNode::Free(_, _) | TermNode::Bound(_) | TermNode::Const(_, _) => {}
    }
    Ok(())
}

/// Numbers the type variables of a node.
fn number_node(alloc: Global, map: TyMap, node: &TermNode) -> Result<TyMap, Memory>
    ensures { IfOk result (λ m. (later all : List Chars)
        → IsUnderway map (node_names node.now ++ later) all → IsUnderway m later all) }
{
    match node {
        TermNode::Free(_, ty) => number_type(alloc, map, ty),
        TermNode::Const(_, types) => number_types(alloc, map, types),
        TermNode::Lam(_, ty, _) => number_type(alloc, map, ty),
        TermNode::Bound(_) | TermNode::App(_, _) => Ok(map),
    }
}

/// Numbers the type variables of types.
fn number_types(alloc: Global, map: TyMap, types: &List<Ty>) -> Result<TyMap, Memory>
    ensures { IfOk result (λ m. (later all : List Chars)
        → IsUnderway map (types_names (row types.now) ++ later) all → IsUnderway m later all) }
{
    let mut map = map;
    for ty in types.as_slice() {
        map = number_type(alloc, map, ty)?;
    }
    Ok(map)
}

/// Numbers the type variables of a type.
fn number_type(alloc: Global, map: TyMap, ty: &Ty) -> Result<TyMap, Memory>
    ensures { IfOk result (λ m. (later all : List Chars)
        → IsUnderway map (type_names ty.now ++ later) all → IsUnderway m later all) }
{
    let mut map = map;
    for node in ty.nodes() {
        map = number_variable(alloc, map, node)?;
    }
    Ok(map)
}

/// Numbers the type variable of a node, if it is one.
fn number_variable(alloc: Global, map: TyMap, node: &TyNode) -> Result<TyMap, Memory>
    ensures { IfOk result (λ m. (later all : List Chars)
        → IsUnderway map (variable_names node.now ++ later) all → IsUnderway m later all) }
{
    match node {
        TyNode::Var(name) => number_name(alloc, map, name),
        TyNode::Con(_, _) => Ok(map),
    }
}

/// Numbers a type variable, if it has no number yet.
fn number_name(alloc: Global, map: TyMap, name: &Name) -> Result<TyMap, Memory>
    ensures { IfOk result (λ m. (later all : List Chars) → IsUnderway map (name.now ∷ later) all
        → IsUnderway m later all) }
{
    if map.get(name).is_some() {
        return Ok(map);
    }
    Ok(add_number(alloc, map, name)?)
}

/// Gives the next number to a type variable that has none.
fn add_number(alloc: Global, map: TyMap, name: &Name) -> Result<TyMap, Memory>
    requires { found name.now map ≡ None }
    ensures { IfOk result (λ m. (later all : List Chars) → IsUnderway map (name.now ∷ later) all
        → IsUnderway m later all) }
{
    let mut map = map;
    let image = numbered_variable(alloc, map.len() + 1)?;
    map.put(alloc, name.copy(alloc)?, image)?;
    Ok(map)
}

/// The type variable of a number.
fn numbered_variable(alloc: Global, number: usize) -> Result<Ty, Memory>
    ensures { IfOk result (λ t. t ≡ type_variable (codes "t" ++ decimal number)) }
{
    let text = format!(in alloc; "t{number}")?;
    let name = Name::word(alloc, text.as_str())?;
    Ok(Ty::var(alloc, name)?)
}
