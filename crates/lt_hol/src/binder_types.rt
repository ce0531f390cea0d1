//! The types of the binders of a term's bound names.
ghost use Rattle.std.specs.Prelude.{◌≡◌, [], map, slice_index_or, IfOk, None as Nothing};
ghost use Rattle.lt_hol.specs.Outcomes.{AreHints, IsHint, bound_types, binder_type, at_binder};
ghost use Rattle.lt_hol.specs.TypeTables.{Extends};

use crate::type_table::TypeTable;
use lt_terms::{Binder, Term, TermNode, binders};
use lt_types::Memory;
use std::alloc::Global;

/// For each node of a term the number of the type of its binder, if it is a bound name that has
/// one.
pub(crate) fn bound_types(
    alloc: Global,
    table: &mut TypeTable,
    t: &Term,
) -> Result<Vec<Option<usize>>, Memory>
    ensures hints { IfOk result (λ v. AreHints table.new v.items (bound_types [] t.now)) }
    ensures grows { Extends table.old table.new }
{
    let types = lam_types(alloc, table, t.nodes())?;
    let found = binders(alloc, t)?;
    let mut hints = Vec::with_capacity(alloc, found.len())?;
    for binder in &found {
        hints.push(at_binder(types.as_slice(), *binder))?;
    }
    Ok(hints)
}

/// For each node the number of its type, if it is a binder.
fn lam_types(
    alloc: Global,
    table: &mut TypeTable,
    nodes: &[TermNode],
) -> Result<Vec<Option<usize>>, Memory>
    ensures hints { IfOk result (λ v. AreHints table.new v.items (map binder_type nodes.now)) }
    ensures grows { Extends table.old table.new }
{
    let mut types = Vec::with_capacity(alloc, nodes.len())?;
    for node in nodes {
        let ty = binder_type(alloc, table, node)?;
        types.push(ty)?;
    }
    Ok(types)
}

/// The number of a node's type, if it is a binder.
fn binder_type(
    alloc: Global,
    table: &mut TypeTable,
    node: &TermNode,
) -> Result<Option<usize>, Memory>
    ensures hint { IfOk result (λ h. IsHint table.new h (binder_type node.now)) }
    ensures grows { Extends table.old table.new }
{
    match node {
        TermNode::Lam(_, ty, _) => Ok(Some(table.intern(alloc, ty)?)),
        _ => Ok(None),
    }
}

/// What stands at the place of a binder.
fn at_binder(types: &[Option<usize>], binder: Option<Binder>) -> Option<usize>
    ensures { result ≡ at_binder types.now binder }
{
    match binder {
        Some(binder) => hint_at(types, binder.place),
        None => None,
    }
}

/// What stands at a place.
pub(crate) fn hint_at(hints: &[Option<usize>], place: usize) -> Option<usize>
    ensures { result ≡ slice_index_or hints.now place Nothing }
{
    match hints.get(place) {
        Some(hint) => *hint,
        None => None,
    }
}
