//! How many nodes terms have.
ghost use Rattle.std.specs.Prelude.{min, ◌^◌, ◌-◌, ◌≤◌, ◌+◌, ◌≡◌, ◌<◌, length, IfOk, None, true};
ghost use Rattle.lt_definitions.specs.Types.{types_nodes, row};
ghost use Rattle.lt_store.specs.Trees.{tree_at};
ghost use Rattle.lt_store.specs.Views.{node_of};
ghost use Rattle.lt_reductions.specs.Reducts.{nodes, nodes_over};
ghost use Rattle.lt_conv.specs.declared.machine.ConvFault.TheVariants.{Memory};
ghost use Rattle.lt_derived.specs.Equations.{IsEquation};
ghost use Rattle.lt_conv.specs.Conversions.{node_count, variable_count, Counts};

use lt_derived::equations::right;
use lt_derived::type_lengths::push_children;
use lt_hol::{Memory, Name, Ty};
use lt_kernel::Proof;
use lt_store::{Id, TermStore, View};
use std::alloc::Global;

/// How many nodes types have together, or 2^64 - 1 where there are more.
fn types_count(types: &[Ty]) -> usize
    ensures { result ≡ min (types_nodes (row types.now)) (2 ^ 64 - 1) }
{
    let mut count: usize = 0;
    for ty in types {
        count = count.saturating_add(ty.len());
    }
    count
}

/// How many nodes a free variable has. It counts as a bound name where its name is longer than the floor.
fn variable_count(name: &Name, ty: &Ty, floor: usize) -> usize
    ensures { result ≡ min (variable_count floor name.now ty.now) (2 ^ 64 - 1) }
{
    if floor < name.len() {
        return 1;
    }
    ty.len().saturating_add(1)
}

/// How many nodes a node stands for: itself, and those of its types; or 2^64 - 1 where there are more.
fn node_count(view: View<'_>, floor: usize) -> usize
    ensures { result ≡ min (node_count floor (node_of view.entry)) (2 ^ 64 - 1) }
{
    match view {
        View::Free(name, ty) => variable_count(name, ty, floor),
        View::Bound(_) => 1,
        View::Const(_, types) => types_count(types.as_slice()).saturating_add(1),
        View::App(_, _) => 1,
        View::Lam(ty, _) => ty.len().saturating_add(1),
    }
}

/// The number of nodes of a term; None where there are more than `most`.
pub(crate) fn count<S: TermStore>(
    alloc: Global,
    store: &S,
    t: Id,
    floor: usize,
    most: usize,
) -> Result<Option<usize>, Memory>
    requires t { t < length (S.nodes store.now) }
    requires most { most ≤ 65536 }
    ensures { IfOk result (Counts most (nodes_over floor (tree_at (S.nodes store.now) t))) }
{
    let mut todo: Vec<Id> = Vec::new(alloc);
    todo.push(t)?;
    let mut seen: usize = 0;
    while let Some(id) = todo.pop() {
        let view = store.view(id);
        let more = node_count(view, floor);
        if most - seen < more {
            return Ok(None);
        }
        seen += more;
        push_children(&mut todo, view)?;
    }
    Ok(Some(seen))
}

/// Whether a term has more than 65,536 nodes, also where each free variable counts as one.
///
/// This comes before all that walks the term as a tree, which may have more than can be walked.
pub(crate) fn is_too_large<S: TermStore>(alloc: Global, store: &S, t: Id) -> Result<bool, Memory>
    requires { t < length (S.nodes store.now) }
    ensures { IfOk result (λ yes. yes ≡ true → 65536 < nodes (tree_at (S.nodes store.now) t)) }
{
    let counted = count(alloc, store, t, 0, 65536)?;
    match counted {
        Some(_) => Ok(false),
        None => Ok(true),
    }
}

/// The number of nodes of a right side; None where there are more than `most`.
pub(crate) fn count_right<S: TermStore>(
    alloc: Global,
    proof: &Proof<S>,
    i: usize,
    floor: usize,
    most: usize,
) -> Result<Option<usize>, Memory>
    requires line { IsEquation proof.now i }
    requires most { most ≤ 65536 }
    ensures { (q : IsEquation proof.now i) → IfOk result (Counts most (nodes_over floor q.to)) }
{
    let t = right(proof, i);
    let counted = count(alloc, proof, t, floor, most)?;
    Ok(counted)
}
