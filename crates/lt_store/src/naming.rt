//! Terms out of a store, with names for their binders.
ghost use Rattle.std.specs.Prelude.{◌≡◌, ◌+◌, ◌^◌, ◌<◌, ◌≤◌, [], ◌∷◌, length, reverse, IfOk, OnOk};
ghost use Rattle.lt_nameless.specs.Nameless.{Nameless, nameless, IsWhole};
ghost use Rattle.lt_store.specs.declared.naming.NameTask.TheVariants.{Visit as visit, Join as joining, Cover as covering};
ghost use Rattle.lt_store.specs.Trees.{tree_at};
ghost use Rattle.lt_store.specs.NameTasks.{binder_name, HasNames, Leaves, Turns};

use crate::node::{Id, View};
use crate::term_store::TermStore;
use lt_hol::{Memory, Name, Term, TermBuilder, TryCopy, Ty};
use std::alloc::Global;

/// What is still to be done.
#[derive(Debug, Drop)]
pub enum NameTask {
    /// To make the term of an id under so many binders.
    Visit(Id, usize),
    /// To make an application of the last two terms.
    Join,
    /// To make an abstraction of the last term, whose binder has a type and lies under so many others.
    Cover(Ty, usize),
}

/// The name of a binder under so many others: `x` and their number.
fn binder_name(alloc: Global, depth: usize) -> Result<Name, Memory>
    ensures { IfOk result (λ n. n ≡ binder_name depth) }
{
    let text = format!(in alloc; "x{depth}")?;
    Name::word(alloc, text.as_str())
}

/// Adds a name where there is none yet for a binder under so many others.
fn reach(alloc: Global, names: &mut Vec<Name>, depth: usize) -> Result<(), Memory>
    requires within { depth ≤ length names.old.items }
    requires names { HasNames names.old.items }
    ensures names { OnOk result (HasNames names.new.items) }
    ensures reaches { OnOk result (depth < length names.new.items) }
    ensures grows { OnOk result (length names.old.items ≤ length names.new.items) }
{
    if depth < names.len() {
        return Ok(());
    }
    let name = binder_name(alloc, depth)?;
    names.push(name)?;
    Ok(())
}

/// A copy of a name.
fn name_at(alloc: Global, names: &Vec<Name>, at: usize) -> Result<Name, Memory>
    requires within { at < length names.now.items }
    requires names { HasNames names.now.items }
    ensures { IfOk result (λ n. n ≡ binder_name at) }
{
    let name = names[at].copy(alloc)?;
    Ok(name)
}

/// Adds the tasks of an application under so many binders.
fn push_application(tasks: &mut Vec<NameTask>, f: Id, a: Id, depth: usize) -> Result<(), Memory>
    ensures { OnOk result (reverse tasks.new.items ≡ visit f depth ∷ visit a depth ∷ joining ∷ reverse tasks.old.items) }
{
    tasks.push(NameTask::Join)?;
    tasks.push(NameTask::Visit(a, depth))?;
    tasks.push(NameTask::Visit(f, depth))?;
    Ok(())
}

/// Adds the tasks of an abstraction under so many binders.
fn push_abstraction(tasks: &mut Vec<NameTask>, ty: Ty, depth: usize, body: Id) -> Result<(), Memory>
    requires { depth + 1 < 2 ^ 64 }
    ensures { OnOk result (reverse tasks.new.items ≡ visit body (depth + 1) ∷ covering ty depth ∷ reverse tasks.old.items) }
{
    tasks.push(NameTask::Cover(ty, depth))?;
    tasks.push(NameTask::Visit(body, depth + 1))?;
    Ok(())
}

/// Makes the term of an id under so many binders, or adds the tasks for its parts.
fn visit<S: TermStore>(
    alloc: Global,
    store: &S,
    names: &mut Vec<Name>,
    tasks: &mut Vec<NameTask>,
    builder: TermBuilder,
    id: Id,
    depth: usize,
) -> Result<TermBuilder, Memory>
    requires names { HasNames names.old.items }
    requires leaves { (goal : Nameless) × Leaves (S.nodes store.now) (length names.old.items) goal builder (visit id depth ∷ reverse tasks.old.items) }
    ensures names { OnOk result (HasNames names.new.items) }
    ensures turns { IfOk result (λ b. Turns (S.nodes store.now) (visit id depth) (length names.old.items) (length names.new.items) builder b (reverse tasks.old.items) (reverse tasks.new.items)) }
{
    match store.view(id) {
        View::Free(name, ty) => {
            let builder = builder.free(alloc, name.copy(alloc)?, ty.copy(alloc)?)?;
            Ok(builder)
        }
        View::Bound(index) => {
            let name = name_at(alloc, names, depth - 1 - index)?;
            let builder = builder.bound(alloc, name)?;
            Ok(builder)
        }
        View::Const(name, types) => {
            let builder = builder.constant(alloc, name.copy(alloc)?, types.copy(alloc)?)?;
            Ok(builder)
        }
        View::App(f, a) => {
            push_application(tasks, f, a, depth)?;
            Ok(builder)
        }
        View::Lam(ty, body) => {
            let ty = ty.copy(alloc)?;
            reach(alloc, names, depth)?;
            push_abstraction(tasks, ty, depth, body)?;
            Ok(builder)
        }
    }
}

/// Does one task.
fn turn<S: TermStore>(
    alloc: Global,
    store: &S,
    names: &mut Vec<Name>,
    tasks: &mut Vec<NameTask>,
    builder: TermBuilder,
    task: NameTask,
) -> Result<TermBuilder, Memory>
    requires names { HasNames names.old.items }
    requires leaves { (goal : Nameless) × Leaves (S.nodes store.now) (length names.old.items) goal builder (task ∷ reverse tasks.old.items) }
    ensures names { OnOk result (HasNames names.new.items) }
    ensures turns { IfOk result (λ b. Turns (S.nodes store.now) task (length names.old.items) (length names.new.items) builder b (reverse tasks.old.items) (reverse tasks.new.items)) }
{
    match task {
        NameTask::Visit(id, depth) => {
            let builder = visit(alloc, store, names, tasks, builder, id, depth)?;
            Ok(builder)
        }
        NameTask::Join => {
            let builder = builder.app(alloc)?;
            Ok(builder)
        }
        NameTask::Cover(ty, depth) => {
            let name = name_at(alloc, names, depth)?;
            let builder = builder.lam(alloc, name, ty)?;
            Ok(builder)
        }
    }
}

/// A term for which an id stands. Its binders are named `x0`, `x1` and so on, from the outermost one in.
///
/// The condition is that each bound name has its binder.
/// It takes time linear in the answered term, where parts that the store shares are no longer shared.
pub fn from_store<S: TermStore>(alloc: Global, store: &S, t: Id) -> Result<Term, Memory>
    requires t { t < length (S.nodes store.now) }
    requires whole { IsWhole 0 (tree_at (S.nodes store.now) t) }
    ensures { IfOk result (λ r. nameless [] r ≡ tree_at (S.nodes store.now) t) }
{
    let mut names = Vec::new(alloc);
    let mut tasks = Vec::new(alloc);
    tasks.push(NameTask::Visit(t, 0))?;
    let mut builder = TermBuilder::new(alloc);
    while let Some(task) = tasks.pop() {
        builder = turn(alloc, store, &mut names, &mut tasks, builder, task)?;
    }
    Ok(builder.finish())
}
