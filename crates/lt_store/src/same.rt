//! Whether two ids stand for one term, node by node.
ghost use Rattle.std.specs.Prelude.{◌≡◌, ◌<◌, ◌↔◌, ◌++◌, length, true, false, IfOk, IsTrue, MatchOption};
ghost use Rattle.lt_definitions.specs.Types.{row, same_types};
ghost use Rattle.lt_store.specs.Trees.{tree_at, IsGrounded};
ghost use Rattle.lt_store.specs.Views.{node_of};
ghost use Rattle.lt_store.specs.Parts.{parts_of};

use crate::memo::{Memo, keep, look};
use crate::node::{Id, Node, View};
use lt_hol::{Memory, Ty, Tys};
use std::alloc::Global;
use std::collections::HashMap;

/// Whether two lists of types are one.
fn same_types(left: &Tys, right: &Tys) -> bool
    ensures { result ≡ same_types (row left.now) (row right.now) }
{
    same_row(left.as_slice(), right.as_slice())
}

/// Whether two slices of types are one.
fn same_row(left: &[Ty], right: &[Ty]) -> bool
    ensures { IsTrue result ↔ (left.now ≡ right.now) }
{
    if left.len() != right.len() {
        return false;
    }
    for at in 0..left.len() {
        if !same_type(&left[at], &right[at]) {
            return false;
        }
    }
    true
}

/// Whether two types are one.
fn same_type(left: &Ty, right: &Ty) -> bool
    ensures { IsTrue result ↔ (left.now ≡ right.now) }
{
    *left == *right
}

/// Adds the pairs of children of two nodes of one kind. It answers false where the nodes differ.
fn push_parts(pairs: &mut Vec<(Id, Id)>, left: View<'_>, right: View<'_>) -> Result<bool, Memory>
    ensures { IfOk result (λ alike. MatchOption (parts_of (node_of left.entry) (node_of right.entry)) (alike ≡ false) (λ parts. (alike ≡ true) × (pairs.new.items ≡ pairs.old.items ++ parts))) }
{
    match left {
        View::Free(name, ty) => match right {
            View::Free(other, of) => Ok(*name == *other && *ty == *of),
            _ => Ok(false),
        },
        View::Bound(index) => match right {
            View::Bound(other) => Ok(index == other),
            _ => Ok(false),
        },
        View::Const(name, types) => match right {
            View::Const(other, of) => Ok(*name == *other && same_types(types, of)),
            _ => Ok(false),
        },
        View::App(function, argument) => match right {
            View::App(other, of) => {
                pairs.push((function, other))?;
                pairs.push((argument, of))?;
                Ok(true)
            }
            _ => Ok(false),
        },
        View::Lam(ty, body) => match right {
            View::Lam(other, of) if *ty == *other => {
                pairs.push((body, of))?;
                Ok(true)
            }
            _ => Ok(false),
        },
    }
}

/// Whether two ids stand for one term.
///
/// Each pair of nodes that lie at one path of both is looked at once, and a node beside itself not at all.
pub(crate) fn is_same(alloc: Global, nodes: &[Node], a: Id, b: Id) -> Result<bool, Memory>
    requires grounded { IsGrounded nodes.now }
    requires a { a < length nodes.now }
    requires b { b < length nodes.now }
    ensures { IfOk result (λ yes. IsTrue yes ↔ (tree_at nodes.now a ≡ tree_at nodes.now b)) }
{
    let mut seen: Memo = HashMap::new(alloc);
    let mut pairs: Vec<(Id, Id)> = Vec::new(alloc);
    pairs.push((a, b))?;
    while let Some((x, y)) = pairs.pop() {
        if x == y {
            continue;
        }
        if look(&seen, x, y).is_some() {
            continue;
        }
        keep(&mut seen, x, y, x)?;
        if !push_parts(&mut pairs, nodes[x].view(), nodes[y].view())? {
            return Ok(false);
        }
    }
    Ok(true)
}
