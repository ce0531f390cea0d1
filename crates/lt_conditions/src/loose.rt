//! Type variables of a term that aren't among those that are allowed.
ghost use Rattle.std.specs.Prelude.{◌≡◌, [], ◌∷◌, Option as Maybe, None as Nothing, reverse, IfOk};
ghost use Rattle.lt_definitions.specs.Types.{Chars, row, type_names, types_names};
ghost use Rattle.lt_definitions.specs.Terms.{term_variables};
ghost use Rattle.std.specs.Option.{option_copied};
ghost use Rattle.lt_terms.specs.Numberings.{variable_names};
ghost use Rattle.lt_conditions.specs.LooseNames.{first_loose, loose_in_node, joined_firsts, covered_firsts, loose_grow};

use indexmap::IndexSet;
use lt_hol::{Memory, Name, Term, TermNode, TryCopy, Ty, TyNode};
use std::alloc::Global;

/// The first type variable of a term, from the left, that isn't one of these.
///
/// It takes time linear in the term with its types, where a look-up counts as one.
pub fn loose_variable(
    alloc: Global,
    allowed: &IndexSet<Name>,
    t: &Term,
) -> Result<Option<Name>, Memory>
    ensures { IfOk result (λ o. o ≡ first_loose allowed.now.keys (term_variables t.now)) }
{
    let mut firsts = Vec::new(alloc);
    for node in t.nodes() {
        firsts = add_node(alloc, allowed, firsts, node)?;
    }
    Ok(last_of(firsts))
}

/// The last one.
fn last_of(firsts: Vec<Option<Name>>) -> Option<Name>
    ensures { (o : Maybe Chars) → reverse firsts.items ≡ o ∷ [] → result ≡ o }
{
    let mut firsts = firsts;
    match firsts.pop() {
        Some(first) => first,
        None => None,
    }
}

/// What a node makes of those of the terms before it, the last term last.
fn add_node(
    alloc: Global,
    allowed: &IndexSet<Name>,
    firsts: Vec<Option<Name>>,
    node: &TermNode,
) -> Result<Vec<Option<Name>>, Memory>
    ensures { IfOk result (λ v. reverse v.items
        ≡ loose_grow allowed.now.keys (reverse firsts.items) node.now) }
{
    let own = loose_in_node(alloc, allowed, node)?;
    match node {
        TermNode::App(_, _) => join_last(firsts),
        TermNode::Lam(_, _, _) => cover_last(firsts, own),
        TermNode::Free(_, _) | TermNode::Bound(_) | TermNode::Const(_, _) => one_more(firsts, own),
    }
}

/// One more.
fn one_more(firsts: Vec<Option<Name>>, first: Option<Name>) -> Result<Vec<Option<Name>>, Memory>
    ensures { IfOk result (λ v. reverse v.items ≡ first ∷ reverse firsts.items) }
{
    let mut firsts = firsts;
    firsts.push(first)?;
    Ok(firsts)
}

/// The last two become that of an application.
fn join_last(firsts: Vec<Option<Name>>) -> Result<Vec<Option<Name>>, Memory>
    ensures { IfOk result (λ v. reverse v.items ≡ joined_firsts (reverse firsts.items)) }
{
    let mut firsts = firsts;
    let Some(argument) = firsts.pop() else {
        return Ok(firsts);
    };
    join_to(firsts, argument)
}

/// The last one becomes that of an application to an argument.
fn join_to(firsts: Vec<Option<Name>>, argument: Option<Name>) -> Result<Vec<Option<Name>>, Memory>
    ensures { IfOk result (λ v. reverse v.items
        ≡ joined_firsts (argument ∷ reverse firsts.items)) }
{
    let mut firsts = firsts;
    let Some(function) = firsts.pop() else {
        return Ok(firsts);
    };
    one_more(firsts, function.or(argument))
}

/// The last one becomes that of an abstraction over a type that has this one.
fn cover_last(firsts: Vec<Option<Name>>, own: Option<Name>) -> Result<Vec<Option<Name>>, Memory>
    ensures { IfOk result (λ v. reverse v.items ≡ covered_firsts own (reverse firsts.items)) }
{
    let mut firsts = firsts;
    let Some(body) = firsts.pop() else {
        return Ok(firsts);
    };
    one_more(firsts, own.or(body))
}

/// The first of a node's own types.
fn loose_in_node(
    alloc: Global,
    allowed: &IndexSet<Name>,
    node: &TermNode,
) -> Result<Option<Name>, Memory>
    ensures { IfOk result (λ o. o ≡ loose_in_node allowed.now.keys node.now) }
{
    match node {
        TermNode::Free(_, ty) => loose_in_type(alloc, allowed, ty),
        TermNode::Const(_, types) => loose_in_types(alloc, allowed, types.as_slice()),
        TermNode::Lam(_, ty, _) => loose_in_type(alloc, allowed, ty),
        TermNode::Bound(_) | TermNode::App(_, _) => Ok(None),
    }
}

/// The first of several types.
fn loose_in_types(
    alloc: Global,
    allowed: &IndexSet<Name>,
    types: &[Ty],
) -> Result<Option<Name>, Memory>
    ensures { IfOk result (λ o. o ≡ first_loose allowed.now.keys (types_names (row types.now))) }
{
    for ty in types {
        if let Some(name) = loose_in_type(alloc, allowed, ty)? {
            return Ok(Some(name));
        }
    }
    Ok(None)
}

/// The first of a type.
fn loose_in_type(alloc: Global, allowed: &IndexSet<Name>, ty: &Ty) -> Result<Option<Name>, Memory>
    ensures { IfOk result (λ o. o ≡ first_loose allowed.now.keys (type_names ty.now)) }
{
    for node in ty.nodes() {
        if let Some(name) = loose_name(allowed, node) {
            return Ok(Some(name.copy(alloc)?));
        }
    }
    Ok(None)
}

/// The variable that a node is, where it isn't allowed.
fn loose_name<'a>(allowed: &IndexSet<Name>, node: &'a TyNode) -> Option<&'a Name>
    ensures { option_copied result ≡ first_loose allowed.now.keys (variable_names node.now) }
{
    match node {
        TyNode::Var(name) => {
            if allowed.contains(name) {
                None
            } else {
                Some(name)
            }
        }
        TyNode::Con(_, _) => None,
    }
}
