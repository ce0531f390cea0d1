//! How many nodes a term has, with those of its types.
ghost use Rattle.std.specs.Prelude.{◌≡◌, ◌+◌, ◌-◌, ◌^◌, min};
ghost use Rattle.lt_definitions.specs.Types.{types_nodes, row};
ghost use Rattle.lt_definitions.specs.Terms.{term_nodes};
ghost use Rattle.lt_terms.specs.Counts.{node_count};

use crate::term::{Term, TermNode};
use lt_types::Ty;

/// How many nodes a term has, those of its types too, or 2^64 - 1 where there are more.
///
/// It takes time linear in the nodes of the term alone and the lengths of its constants' lists of
/// types.
pub fn nodes(t: &Term) -> u64
    ensures { result ≡ min (term_nodes t.now) (2 ^ 64 - 1) }
{
    let mut count = 0u64;
    for node in t.nodes() {
        count = count.saturating_add(node_count(node));
    }
    count
}

/// How many nodes a node stands for: itself and those of its types.
fn node_count(node: &TermNode) -> u64
    ensures { result ≡ min (node_count node.now) (2 ^ 64 - 1) }
{
    match node {
        TermNode::Free(_, ty) => (ty.len() as u64).saturating_add(1),
        TermNode::Bound(_) => 1,
        TermNode::Const(_, types) => types_count(types.as_slice()).saturating_add(1),
        TermNode::App(_, _) => 1,
        TermNode::Lam(_, ty, _) => (ty.len() as u64).saturating_add(1),
    }
}

/// How many nodes types have together.
fn types_count(types: &[Ty]) -> u64
    ensures { result ≡ min (types_nodes (row types.now)) (2 ^ 64 - 1) }
{
    let mut count = 0u64;
    for ty in types {
        count = count.saturating_add(ty.len() as u64);
    }
    count
}
