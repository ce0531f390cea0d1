//! The trees of a term that are still to come when its nodes are read from the last to the first.
ghost use Rattle.std.specs.Prelude.{◌≡◌, ◌∷◌, [], ◌<◌, List, length, reverse, IfOk};
ghost use Rattle.lt_terms.specs.BoundNames.{Places};
ghost use Rattle.lt_terms.specs.Scopes.{binder_at, scopes_of, within};

use crate::bound_names::Binder;
use crate::scope::Scope;
use crate::term::TermNode;
use lt_types::Memory;
use std::alloc::Global;
use std::marker::Model;

/// What is to be done next: a tree comes, or the innermost binder is closed.
#[derive(Clone, Copy, Debug)]
pub(crate) enum Task {
    Tree,
    Close,
}

/// The trees that are still to come, which contracts see as the list of the binders around each,
/// the next one first.
#[derive(Debug, Drop)]
pub(crate) struct Pending {
    scope: Scope,
    tasks: Vec<Task>,
}

impl Model for Pending {
    ghost use Rattle.std.specs.Prelude.{List, ℕ, reverse};
    ghost use Rattle.std.specs.Coded.{coded_list, coded×, coded_ℕ};

    ghost Value = { List (List (List ℕ × ℕ)) };

    ghost coded = { coded_list (coded_list (coded× (coded_list coded_ℕ) coded_ℕ)) };

    ghost use Rattle.lt_terms.specs.Scopes.{scopes_of};

    ghost view = { λ p. scopes_of p.scope (reverse p.tasks.items) };
}

impl Pending {
    /// One tree, with no binder around it.
    pub(crate) fn new(alloc: Global) -> Result<Pending, Memory>
        ensures { IfOk result (λ p. p ≡ [] ∷ []) }
    {
        let mut tasks = Vec::new(alloc);
        tasks.push(Task::Tree)?;
        Ok(Pending {
            scope: Scope::new(alloc),
            tasks,
        })
    }

    /// Takes the last node of the next tree, which stands at a place. The node's parts come in its
    /// stead.
    pub(crate) fn visit(
        self,
        alloc: Global,
        node: &TermNode,
        at: usize,
    ) -> Result<(Pending, Option<Binder>), Memory>
        requires { 0 < length self }
        ensures { IfOk result (λ r. (around : Places) (later : List Places) → self ≡ around ∷ later
            → (r.0 ≡ within at node.now around later) × (r.1 ≡ binder_at around node.now)) }
    {
        let Pending { scope, tasks } = self;
        let (scope, tasks) = next_tree(scope, tasks)?;
        let binder = scope.binder_at(node);
        Ok((descend(alloc, scope, tasks, node, at)?, binder))
    }
}

/// Closes the binders that are done, and takes the next tree.
fn next_tree(scope: Scope, tasks: Vec<Task>) -> Result<(Scope, Vec<Task>), Memory>
    requires { 0 < length (scopes_of scope (reverse tasks.items)) }
    ensures { IfOk result (λ r. scopes_of scope (reverse tasks.items)
        ≡ r.0 ∷ scopes_of r.0 (reverse r.1.items)) }
{
    let mut scope = scope;
    let mut tasks = tasks;
    while let Some(task) = tasks.pop() {
        match task {
            Task::Tree => return Ok((scope, tasks)),
            Task::Close => scope = scope.leave()?,
        }
    }
    unreachable!()
}

/// The parts of a node that stands at a place, before what comes later.
fn descend(
    alloc: Global,
    scope: Scope,
    tasks: Vec<Task>,
    node: &TermNode,
    at: usize,
) -> Result<Pending, Memory>
    ensures { IfOk result (λ p. p
        ≡ within at node.now scope (scopes_of scope (reverse tasks.items))) }
{
    let mut tasks = tasks;
    match node {
        TermNode::App(_, _) => {
            tasks.push(Task::Tree)?;
            tasks.push(Task::Tree)?;
            Ok(Pending { scope, tasks })
        }
        TermNode::Lam(name, _, _) => {
            tasks.push(Task::Close)?;
            tasks.push(Task::Tree)?;
            let scope = scope.enter(alloc, name, at)?;
            Ok(Pending { scope, tasks })
        }
        _ => Ok(Pending { scope, tasks }),
    }
}
