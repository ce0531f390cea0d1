//! The binders of a term's bound names.
ghost use Rattle.std.specs.Prelude.{◌≡◌, [], false, IfOk};
ghost use Rattle.lt_terms.specs.BoundNames.{binders_in, has_bound_name, is_bound_name};

use crate::pending::Pending;
use crate::term::{Term, TermNode};
use lt_types::Memory;
use std::alloc::Global;

/// The binder of a bound name: its place among the term's nodes, and how many binders lie between
/// it and the name.
#[derive(Clone, Copy, Debug, PartialEq, Eq)]
pub struct Binder {
    pub place: usize,
    pub index: usize,
}

/// For each node of a term, in the order of its nodes, the innermost binder of its name, if it is a
/// bound name that has a binder.
///
/// It takes time linear in the nodes, where a look-up counts as one, and looks nothing up in a term
/// without bound names.
pub fn binders(alloc: Global, t: &Term) -> Result<Vec<Option<Binder>>, Memory>
    ensures { IfOk result (λ found. found.items ≡ binders_in 0 [] t.now) }
{
    if !has_bound_name(t) {
        return Ok(no_binders(alloc, t)?);
    }
    Ok(innermost_binders(alloc, t)?)
}

/// Whether a term has a bound name.
fn has_bound_name(t: &Term) -> bool
    ensures { result ≡ has_bound_name t.now }
{
    for node in t.nodes() {
        if is_bound_name(node) {
            return true;
        }
    }
    false
}

/// Whether a node is a bound name.
fn is_bound_name(node: &TermNode) -> bool
    ensures { result ≡ is_bound_name node.now }
{
    match node {
        TermNode::Bound(_) => true,
        _ => false,
    }
}

/// None for each node of a term that has no bound names.
fn no_binders(alloc: Global, t: &Term) -> Result<Vec<Option<Binder>>, Memory>
    requires { has_bound_name t.now ≡ false }
    ensures { IfOk result (λ found. found.items ≡ binders_in 0 [] t.now) }
{
    let count = t.len();
    let mut found = Vec::with_capacity(alloc, count)?;
    for _ in 0..count {
        found.push(None)?;
    }
    Ok(found)
}

/// The innermost binders, found from the last node to the first.
fn innermost_binders(alloc: Global, t: &Term) -> Result<Vec<Option<Binder>>, Memory>
    ensures { IfOk result (λ found. found.items ≡ binders_in 0 [] t.now) }
{
    let nodes = t.nodes();
    let mut pending = Pending::new(alloc)?;
    let mut found = Vec::with_capacity(alloc, nodes.len())?;
    for at in (0..nodes.len()).rev() {
        let (later, binder) = pending.visit(alloc, &nodes[at], at)?;
        pending = later;
        found.push(binder)?;
    }
    found.reverse();
    Ok(found)
}
