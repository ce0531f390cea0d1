//! Alpha equality.
ghost use Rattle.std.specs.Prelude.{◌≡◌, IfOk, length};
ghost use Rattle.lt_definitions.specs.Alpha.{is_alpha};
ghost use Rattle.lt_terms.specs.AlikeNodes.{agree, agrees, is_abstraction, is_application, is_bound, is_constant, is_paired};
ghost use Rattle.lt_terms.specs.FreeNodes.{is_free};

use crate::bound_names::{Binder, binders};
use crate::replacing::is_free;
use crate::term::{Term, TermNode};
use lt_types::{List, Memory, Name, Ty};
use std::alloc::Global;

/// Whether two terms are alpha-equal.
///
/// It takes time linear in both, where a look-up counts as one: the nodes are compared one by one,
/// bound names by the indices of their binders.
pub fn alpha_eq(alloc: Global, s: &Term, t: &Term) -> Result<bool, Memory>
    ensures { IfOk result (λ yes. yes ≡ is_alpha s.now t.now) }
{
    if s.len() != t.len() {
        return Ok(false);
    }
    let left = binders(alloc, s)?;
    let right = binders(alloc, t)?;
    Ok(agree(s.nodes(), left.as_slice(), t.nodes(), right.as_slice()))
}

/// Whether nodes agree one by one, each with the binder of its bound name.
fn agree(
    left: &[TermNode],
    left_binders: &[Option<Binder>],
    right: &[TermNode],
    right_binders: &[Option<Binder>],
) -> bool
    requires same { length left.now ≡ length right.now }
    requires left { length left_binders.now ≡ length left.now }
    requires right { length right_binders.now ≡ length right.now }
    ensures { result ≡ agree left.now left_binders.now right.now right_binders.now }
{
    for at in 0..left.len() {
        if !agrees(&left[at], left_binders[at], &right[at], right_binders[at]) {
            return false;
        }
    }
    true
}

/// Whether two nodes agree, each with the binder of its bound name.
fn agrees(
    node: &TermNode,
    binder: Option<Binder>,
    other: &TermNode,
    other_binder: Option<Binder>,
) -> bool
    ensures { result ≡ agrees node.now binder other.now other_binder }
{
    match node {
        TermNode::Free(name, ty) => is_free(other, name, ty),
        TermNode::Bound(name) => is_bound(name, binder, other, other_binder),
        TermNode::Const(name, types) => is_constant(other, name, types),
        TermNode::App(_, _) => is_application(other),
        TermNode::Lam(_, ty, _) => is_abstraction(other, ty),
    }
}

/// Whether a node is a bound name that stands for the same as another one.
fn is_bound(
    name: &Name,
    binder: Option<Binder>,
    other: &TermNode,
    other_binder: Option<Binder>,
) -> bool
    ensures { result ≡ is_bound name.now binder other.now other_binder }
{
    match other {
        TermNode::Bound(other) => is_paired(name, binder, other, other_binder),
        _ => false,
    }
}

/// Whether two bound names have binders with one index, or are one name without a binder.
fn is_paired(
    name: &Name,
    binder: Option<Binder>,
    other: &Name,
    other_binder: Option<Binder>,
) -> bool
    ensures { result ≡ is_paired name.now binder other.now other_binder }
{
    match (binder, other_binder) {
        (Some(binder), Some(other)) => binder.index == other.index,
        (None, None) => name == other,
        _ => false,
    }
}

/// Whether a node is that constant.
fn is_constant(node: &TermNode, name: &Name, types: &List<Ty>) -> bool
    ensures { result ≡ is_constant name.now types.now node.now }
{
    match node {
        TermNode::Const(other, others) => name == other && types.as_slice() == others.as_slice(),
        _ => false,
    }
}

/// Whether a node is an application.
fn is_application(node: &TermNode) -> bool
    ensures { result ≡ is_application node.now }
{
    match node {
        TermNode::App(_, _) => true,
        _ => false,
    }
}

/// Whether a node is an abstraction over that type.
fn is_abstraction(node: &TermNode, ty: &Ty) -> bool
    ensures { result ≡ is_abstraction ty.now node.now }
{
    match node {
        TermNode::Lam(_, other, _) => ty == other,
        _ => false,
    }
}
