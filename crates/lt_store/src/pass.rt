//! The one driver of all passes over terms.
ghost use Rattle.std.specs.Prelude.{◌≡◌, ◌+◌, ◌<◌, ◌^◌, ◌++◌, ℕ, length, true, Some, slice_get, OnOk, IfOk};
ghost use Rattle.lt_store.specs.declared.node.Node.{Node};
ghost use Rattle.lt_store.specs.Memos.{AllKept, IsKept};
ghost use Rattle.lt_store.specs.Trees.{Extends};
ghost use Rattle.lt_store.specs.Views.{node_of};
ghost use Rattle.lt_store.specs.Tasks.{visits};
ghost use Rattle.lt_store.specs.Passes.{children, step_of, WorkIsIn, IsSound, IsResult};

use crate::change::Work;
use crate::image::{found_in, image_of, measured};
use crate::memo::{Memo, keep, kept, look};
use crate::node::{Id, View};
use crate::term_store::TermStore;
use crate::told::told;
use lt_hol::Memory;
use std::alloc::Global;

/// What is still to be done: to visit an id at a depth, or to make its result from those of its children.
#[derive(Clone, Copy, Debug)]
pub enum Task {
    Visit(Id, usize),
    Finish(Id, usize),
}

/// Adds visits to the children of a node.
fn push_children(
    tasks: &mut Vec<Task>,
    view: View<'_>,
    depth: usize,
    step: usize,
) -> Result<(), Memory>
    requires { depth + step < 2 ^ 64 }
    ensures { OnOk result (tasks.new.items ≡ tasks.old.items ++ visits (children step (node_of view.entry) depth)) }
{
    match view {
        View::App(f, a) => {
            tasks.push(Task::Visit(f, depth))?;
            tasks.push(Task::Visit(a, depth))?;
        }
        View::Lam(_, body) => tasks.push(Task::Visit(body, depth + step))?,
        View::Free(_, _) | View::Bound(_) | View::Const(_, _) => {}
    }
    Ok(())
}

/// The result for one id, where those of its children were kept.
fn result_of<S: TermStore>(
    alloc: Global,
    store: &mut S,
    work: Work<'_>,
    memo: &Memo,
    id: Id,
    depth: usize,
) -> Result<Id, Memory>
    requires id { id < length (S.nodes store.old) }
    requires depth { depth + 1 < 2 ^ 64 }
    requires work { WorkIsIn (length (S.nodes store.old)) work }
    requires sound { IsSound work (S.nodes store.old) memo.now }
    requires ready { (n : Node) → slice_get (S.nodes store.old) id ≡ Some n → AllKept memo.now (children (step_of work) n depth) }
    ensures kept { Extends (S.nodes store.old) (S.nodes store.new) }
    ensures is { IfOk result (IsResult work.entry (S.nodes store.new) id depth) }
{
    match work {
        Work::Make(change) => {
            let made = image_of(alloc, store, change, memo, id, depth)?;
            Ok(made)
        }
        Work::Find(sought) => Ok(found_in(store, sought, memo, id, depth)),
        Work::Measure => Ok(measured(store, memo, id, depth)),
    }
}

/// Whether a result is kept for an id at a depth. One that the store's knowledge tells is kept first.
fn is_settled<S: TermStore>(
    store: &S,
    work: Work<'_>,
    memo: &mut Memo,
    id: Id,
    depth: usize,
) -> Result<bool, Memory>
    requires id { id < length (S.nodes store.now) }
    requires sound { IsSound work (S.nodes store.now) memo.old }
    ensures sound { OnOk result (IsSound work.entry (S.nodes store.now) memo.new) }
    ensures kept { OnOk result ((p : ℕ × ℕ) → IsKept memo.old p → IsKept memo.new p) }
    ensures is { IfOk result (λ yes. yes ≡ true → IsKept memo.new (id, depth)) }
{
    if look(memo, id, depth).is_some() {
        return Ok(true);
    }
    match told(store, work, id, depth) {
        Some(made) => {
            keep(memo, id, depth, made)?;
            Ok(true)
        }
        None => Ok(false),
    }
}

/// The result of a pass for a term.
///
/// Each node is worked on once for each depth at which it lies, or once where the depth doesn't matter.
/// A term that the store knows to be too small for the work isn't gone into.
/// What `memo` has from an earlier pass of the same work isn't worked on again.
pub(crate) fn run<S: TermStore>(
    alloc: Global,
    store: &mut S,
    work: Work<'_>,
    memo: &mut Memo,
    root: Id,
) -> Result<Id, Memory>
    requires root { root < length (S.nodes store.old) }
    requires work { WorkIsIn (length (S.nodes store.old)) work }
    requires sound { IsSound work (S.nodes store.old) memo.old }
    ensures kept { Extends (S.nodes store.old) (S.nodes store.new) }
    ensures sound { OnOk result (IsSound work.entry (S.nodes store.new) memo.new) }
    ensures is { IfOk result (IsResult work.entry (S.nodes store.new) root 0) }
{
    let _end = store.len();
    let step = work.step();
    let mut tasks: Vec<Task> = Vec::new(alloc);
    tasks.push(Task::Visit(root, 0))?;
    while let Some(task) = tasks.pop() {
        match task {
            Task::Visit(id, depth) => {
                if is_settled(store, work, memo, id, depth)? {
                    continue;
                }
                tasks.push(Task::Finish(id, depth))?;
                push_children(&mut tasks, store.view(id), depth, step)?;
            }
            Task::Finish(id, depth) => {
                let made = result_of(alloc, store, work, memo, id, depth)?;
                keep(memo, id, depth, made)?;
            }
        }
    }
    Ok(kept(memo, root, 0))
}
