//! Terms with binder names into a store.
ghost use Rattle.std.specs.Prelude.{◌≡◌, ◌<◌, ◌≤◌, [], ◌∷◌, length, IfOk, IsSome};
ghost use Rattle.lt_nameless.specs.Nameless.{nameless, IsWhole};
ghost use Rattle.lt_store.specs.Trees.{tree_at, AllBelow, Extends};
ghost use Rattle.lt_store.specs.Building.{Builds};
ghost use Rattle.lt_store.specs.Stacks.{stack, joined, covered, index_of, grown, HasParts};

use crate::last::take_last;
use crate::node::Id;
use crate::term_store::TermStore;
use lt_hol::{Binder, Memory, Term, TermNode, TryCopy, Ty, binders};
use std::alloc::Global;

/// The number of binders between a bound name and its own.
fn index_of(binder: Option<Binder>) -> usize
    requires { IsSome binder }
    ensures { result ≡ index_of binder }
{
    binder.unwrap().index
}

/// The application of the last term but one to the last. Their ids are taken away.
fn join<S: TermStore>(alloc: Global, store: &mut S, ids: &mut Vec<Id>) -> Result<Id, Memory>
    requires below { AllBelow (length (S.nodes store.old)) ids.old.items }
    requires room { 2 ≤ length ids.old.items }
    ensures kept { Extends (S.nodes store.old) (S.nodes store.new) }
    ensures below { AllBelow (length (S.nodes store.new)) ids.new.items }
    ensures made { IfOk result (λ r. r < length (S.nodes store.new)) }
    ensures is { IfOk result (λ r. tree_at (S.nodes store.new) r ∷ stack (S.nodes store.new) ids.new.items ≡ joined (stack (S.nodes store.old) ids.old.items)) }
{
    let argument = take_last(ids);
    let function = take_last(ids);
    let made = store.mk_app(alloc, function, argument)?;
    Ok(made)
}

/// The abstraction of the last term. Its id is taken away.
fn cover<S: TermStore>(
    alloc: Global,
    store: &mut S,
    ids: &mut Vec<Id>,
    ty: &Ty,
) -> Result<Id, Memory>
    requires below { AllBelow (length (S.nodes store.old)) ids.old.items }
    requires room { 1 ≤ length ids.old.items }
    ensures kept { Extends (S.nodes store.old) (S.nodes store.new) }
    ensures below { AllBelow (length (S.nodes store.new)) ids.new.items }
    ensures made { IfOk result (λ r. r < length (S.nodes store.new)) }
    ensures is { IfOk result (λ r. tree_at (S.nodes store.new) r ∷ stack (S.nodes store.new) ids.new.items ≡ covered ty.now (stack (S.nodes store.old) ids.old.items)) }
{
    let ty = ty.copy(alloc)?;
    let body = take_last(ids);
    let made = store.mk_lam(alloc, ty, body)?;
    Ok(made)
}

/// What a node makes of the last terms. The ids of those that become its children are taken away.
fn add<S: TermStore>(
    alloc: Global,
    store: &mut S,
    ids: &mut Vec<Id>,
    node: &TermNode,
    binder: Option<Binder>,
) -> Result<Id, Memory>
    requires below { AllBelow (length (S.nodes store.old)) ids.old.items }
    requires parts { HasParts (stack (S.nodes store.old) ids.old.items) node.now binder }
    ensures kept { Extends (S.nodes store.old) (S.nodes store.new) }
    ensures below { AllBelow (length (S.nodes store.new)) ids.new.items }
    ensures made { IfOk result (λ r. r < length (S.nodes store.new)) }
    ensures is { IfOk result (λ r. tree_at (S.nodes store.new) r ∷ stack (S.nodes store.new) ids.new.items ≡ grown (stack (S.nodes store.old) ids.old.items) node.now binder) }
{
    match node {
        TermNode::Free(name, ty) => {
            let made = store.mk_free(alloc, name.copy(alloc)?, ty.copy(alloc)?)?;
            Ok(made)
        }
        TermNode::Bound(_) => {
            let made = store.mk_bound(alloc, index_of(binder))?;
            Ok(made)
        }
        TermNode::Const(name, types) => {
            let made = store.mk_const(alloc, name.copy(alloc)?, types.copy(alloc)?)?;
            Ok(made)
        }
        TermNode::App(_, _) => {
            let made = join(alloc, store, ids)?;
            Ok(made)
        }
        TermNode::Lam(_, ty, _) => {
            let made = cover(alloc, store, ids, ty)?;
            Ok(made)
        }
    }
}

/// The term without its binders' names, in the store.
///
/// The condition is that each bound name has its binder. It takes time linear in the nodes of the term.
pub fn to_store<S: TermStore>(alloc: Global, store: &mut S, t: &Term) -> Result<Id, Memory>
    requires { IsWhole 0 (nameless [] t.now) }
    ensures { Builds (S.nodes store.old) (S.nodes store.new) result (nameless [] t.now) }
{
    let nodes = t.nodes();
    let binders = binders(alloc, t)?;
    let mut ids = Vec::new(alloc);
    for at in 0..nodes.len() {
        let made = add(alloc, store, &mut ids, &nodes[at], binders[at])?;
        ids.push(made)?;
    }
    Ok(take_last(&mut ids))
}
