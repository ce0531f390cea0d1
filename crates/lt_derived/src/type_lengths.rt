//! How long the type variables of a term are.
ghost use Rattle.std.specs.Prelude.{◌≡◌, ◌<◌, ◌≤◌, ◌++◌, length, IfOk, OnOk};
ghost use Rattle.lt_store.specs.Trees.{tree_at};
ghost use Rattle.lt_store.specs.Views.{node_of};
ghost use Rattle.lt_programs.specs.TypeLengths.{longest_type_variable};
ghost use Rattle.lt_types.specs.TypeVariables.{longest_variable};
ghost use Rattle.lt_derived.specs.NodeTypes.{child_ids, node_length};

use lt_hol::{Memory, TryCopy, Ty, longest};
use lt_store::{Id, TermStore, View};
use std::alloc::Global;

/// Adds the children of a node.
pub fn push_children(todo: &mut Vec<Id>, view: View<'_>) -> Result<(), Memory>
    ensures { OnOk result (todo.new.items ≡ todo.old.items ++ child_ids (node_of view.entry)) }
{
    match view {
        View::App(f, a) => {
            todo.push(f)?;
            todo.push(a)?;
        }
        View::Lam(_, body) => todo.push(body)?,
        View::Free(_, _) | View::Bound(_) | View::Const(_, _) => {}
    }
    Ok(())
}

/// The greatest length of a type's variables.
fn type_length(alloc: Global, ty: &Ty) -> Result<usize, Memory>
    ensures { IfOk result (λ n. n ≡ longest_variable ty.now) }
{
    let one = [ty.copy(alloc)?];
    Ok(longest(&[], &one))
}

/// The greatest length of the variables of a node's types.
fn node_length(alloc: Global, view: View<'_>) -> Result<usize, Memory>
    ensures { IfOk result (λ n. n ≡ node_length (node_of view.entry)) }
{
    match view {
        View::Free(_, ty) => Ok(type_length(alloc, ty)?),
        View::Bound(_) => Ok(0),
        View::Const(_, types) => Ok(longest(&[], types.as_slice())),
        View::App(_, _) => Ok(0),
        View::Lam(ty, _) => Ok(type_length(alloc, ty)?),
    }
}

/// A number that no type variable of the term exceeds in length.
///
/// It walks the term as a tree.
pub(crate) fn longest_type_variable<S: TermStore>(
    alloc: Global,
    store: &S,
    t: Id,
) -> Result<usize, Memory>
    requires { t < length (S.nodes store.now) }
    ensures { IfOk result (λ n. longest_type_variable (tree_at (S.nodes store.now) t) ≤ n) }
{
    let mut todo: Vec<Id> = Vec::new(alloc);
    todo.push(t)?;
    let mut longest: usize = 0;
    while let Some(id) = todo.pop() {
        let view = store.view(id);
        longest = longest.max(node_length(alloc, view)?);
        push_children(&mut todo, view)?;
    }
    Ok(longest)
}
