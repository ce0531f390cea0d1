//! Types put for the type variables of terms.
ghost use Rattle.std.specs.Prelude.{◌≡◌, IfOk, map};
ghost use Rattle.lt_definitions.specs.Types.{type_instance};
ghost use Rattle.lt_definitions.specs.Terms.{term_instance};
ghost use Rattle.lt_terms.specs.TypeInstances.{node_instance};

use crate::term::{Term, TermNode};
use crate::term_builder::TermBuilder;
use lt_types::{List, Memory, TryCopy, Ty, TyMap, tsub};
use std::alloc::Global;

/// The term with types put for its type variables, all at once. No name changes.
///
/// It takes time linear in both terms with their types, where a look-up counts as one.
pub fn term_instance(alloc: Global, t: &Term, by: &TyMap) -> Result<Term, Memory>
    ensures { IfOk result (λ r. r ≡ term_instance by.now t.now) }
{
    let mut builder = TermBuilder::new(alloc);
    for node in t.nodes() {
        builder = builder.node(alloc, node_instance(alloc, node, by)?)?;
    }
    Ok(builder.finish())
}

/// The node with types put for its type variables.
fn node_instance(alloc: Global, node: &TermNode, by: &TyMap) -> Result<TermNode, Memory>
    ensures { IfOk result (λ n. n ≡ node_instance by.now node.now) }
{
    match node {
        TermNode::Free(name, ty) => Ok(TermNode::Free(name.copy(alloc)?, tsub(alloc, ty, by)?)),
        TermNode::Bound(name) => Ok(TermNode::Bound(name.copy(alloc)?)),
        TermNode::Const(name, types) => Ok(TermNode::Const(
            name.copy(alloc)?,
            type_instances(alloc, types, by)?,
        )),
        TermNode::App(function, argument) => Ok(TermNode::App(*function, *argument)),
        TermNode::Lam(name, ty, body) => Ok(TermNode::Lam(
            name.copy(alloc)?,
            tsub(alloc, ty, by)?,
            *body,
        )),
    }
}

/// The types with types put for their variables.
fn type_instances(alloc: Global, types: &List<Ty>, by: &TyMap) -> Result<List<Ty>, Memory>
    ensures { IfOk result (λ ts. ts ≡ map (type_instance by.now) types.now) }
{
    let mut instances = List::new(alloc);
    for ty in types.as_slice() {
        instances.push(alloc, tsub(alloc, ty, by)?)?;
    }
    Ok(instances)
}
