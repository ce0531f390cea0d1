//! The variables of types: tests on them, and names for new ones.
ghost use Rattle.std.specs.Prelude.{◌≡◌, ◌+◌, ◌<◌, ◌^◌, map, max, IfOk};
ghost use Rattle.std.specs.List.{list_all};
ghost use Rattle.lt_definitions.specs.Types.{has_name, row, type_variable};
ghost use Rattle.lt_types.specs.TypeVariables.{is_clear, is_node_clear, longest_name, longest_variable, longest_in, variable_length, long_names};

use crate::list::{List, TryCopy};
use crate::memory::Memory;
use crate::name::Name;
use crate::ty::{Ty, TyNode};
use std::alloc::Global;

/// Whether no variable of the types is one of the names.
pub fn are_clear(names: &[Name], types: &[Ty]) -> bool
    ensures { result ≡ list_all (is_clear names.now) types.now }
{
    types.iter().all(|ty| is_clear(names, ty))
}

/// Whether no variable of the type is one of the names.
fn is_clear(names: &[Name], ty: &Ty) -> bool
    ensures { result ≡ is_clear names.now ty.now }
{
    are_nodes_clear(names, ty.nodes())
}

/// Whether no node is a variable of one of the names.
fn are_nodes_clear(names: &[Name], nodes: &[TyNode]) -> bool
    ensures { result ≡ list_all (is_node_clear names.now) nodes.now }
{
    nodes.iter().all(|node| is_node_clear(names, node))
}

/// Whether a node isn't a variable of one of the names.
fn is_node_clear(names: &[Name], node: &TyNode) -> bool
    ensures { result ≡ is_node_clear names.now node.now }
{
    match node {
        TyNode::Var(name) => !has_name(names, name),
        TyNode::Con(_, _) => true,
    }
}

/// Whether a name is one of these.
fn has_name(names: &[Name], name: &Name) -> bool
    ensures { result ≡ has_name name.now names.now }
{
    names.iter().any(|other| name == other)
}

/// The greatest length of a name, or of a variable of the types; 0 where there is none.
pub fn longest(names: &[Name], types: &[Ty]) -> usize
    ensures { result ≡ max (longest_name names.now) (longest_in (row types.now)) }
{
    let mut longest = 0;
    for name in names {
        longest = longest.max(name.len());
    }
    for ty in types {
        longest = longest.max(longest_variable(ty));
    }
    longest
}

/// The greatest length of a variable of the type.
fn longest_variable(ty: &Ty) -> usize
    ensures { result ≡ longest_variable ty.now }
{
    let mut longest = 0;
    for node in ty.nodes() {
        longest = longest.max(variable_length(node));
    }
    longest
}

/// The length of a node's variable.
fn variable_length(node: &TyNode) -> usize
    ensures { result ≡ variable_length node.now }
{
    match node {
        TyNode::Var(name) => name.len(),
        TyNode::Con(_, _) => 0,
    }
}

/// So many names, each longer than the one before, the first longer than `length`.
pub fn long_names(alloc: Global, length: usize, count: usize) -> Result<List<Name>, Memory>
    requires { length + count < 2 ^ 64 }
    ensures { IfOk result (λ ns. ns ≡ long_names length count) }
{
    let mut names = Vec::new(alloc);
    for k in 0..count {
        names.push(Name::repeated(alloc, 't', length + k)?)?;
    }
    Ok(List::from_vec(names))
}

/// The type variables of the names.
pub fn variables(alloc: Global, names: &[Name]) -> Result<List<Ty>, Memory>
    ensures { IfOk result (λ ts. ts ≡ map type_variable names.now) }
{
    let mut types = Vec::new(alloc);
    for name in names {
        types.push(Ty::var(alloc, name.copy(alloc)?)?)?;
    }
    Ok(List::from_vec(types))
}
