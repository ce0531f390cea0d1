//! Terms read from nodes that several terms share.
ghost use Rattle.std.specs.Prelude.{◌≡◌, ◌<◌, ◌++◌, [], length, get_or, true, IfOk, OnOk};
ghost use Rattle.lt_definitions.specs.Terms.{bound_name};
ghost use Rattle.lt_hol.specs.Lines.{are_in_order, trees};
ghost use Rattle.lt_hol.specs.Tasks.{visits};

use lt_terms::{Term, TermBuilder, TermNode};
use lt_types::{Memory, TryCopy};
use std::alloc::Global;

/// What is still to be done: to make the term at a place, or to make a node of the terms made last.
#[derive(Clone, Copy, Debug)]
pub(crate) enum Task {
    Visit(usize),
    Make(usize),
}

/// The term at a place of nodes that have their children before them. It takes time linear in that
/// term, as a tree.
pub(crate) fn term_at(alloc: Global, nodes: &[TermNode], place: usize) -> Result<Term, Memory>
    requires order { are_in_order 0 nodes.now ≡ true }
    requires place { place < length nodes.now }
    ensures { IfOk result (λ t. t ≡ get_or (trees nodes.now) place (bound_name [])) }
{
    let mut builder = TermBuilder::new(alloc);
    let mut tasks = Vec::new(alloc);
    tasks.push(Task::Visit(place))?;
    while let Some(task) = tasks.pop() {
        match task {
            Task::Visit(at) => {
                tasks.push(Task::Make(at))?;
                push_children(&mut tasks, &nodes[at])?;
            }
            Task::Make(at) => {
                builder = builder.node(alloc, nodes[at].copy(alloc)?)?;
            }
        }
    }
    Ok(builder.finish())
}

/// Adds visits to the children of a node, the first child to come first.
fn push_children(tasks: &mut Vec<Task>, node: &TermNode) -> Result<(), Memory>
    ensures { OnOk result (tasks.new.items ≡ tasks.old.items ++ visits node.now) }
{
    match node {
        TermNode::App(function, argument) => {
            tasks.push(Task::Visit(*argument))?;
            tasks.push(Task::Visit(*function))?;
        }
        TermNode::Lam(_, _, body) => tasks.push(Task::Visit(*body))?,
        TermNode::Free(_, _) | TermNode::Bound(_) | TermNode::Const(_, _) => {}
    }
    Ok(())
}
