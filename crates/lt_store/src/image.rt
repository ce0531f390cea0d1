//! What one node becomes, where what its children become was kept.
ghost use Rattle.std.specs.Prelude.{◌≡◌, ◌+◌, ◌<◌, ◌^◌, ◌&&◌, length, map, true, Some, slice_get, IfOk};
ghost use Rattle.lt_definitions.specs.Types.{same_name, same_type, type_instance};
ghost use Rattle.lt_nameless.specs.Nameless.{nameless_free, nameless_bound, nameless_constant};
ghost use Rattle.lt_store.specs.declared.node.Node.{Node};
ghost use Rattle.lt_store.specs.declared.change.Work.TheVariants as work;
ghost use Rattle.lt_store.specs.Trees.{tree_at};
ghost use Rattle.lt_store.specs.Building.{Builds};
ghost use Rattle.lt_store.specs.Memos.{AllKept};
ghost use Rattle.lt_store.specs.Passes.{image, occurs, longest_free, children, change_step, sought_step, ChangeIsIn, IsSound, number};

use crate::change::{Change, Sought};
use crate::memo::{Memo, kept};
use crate::node::{Id, View};
use crate::term_store::TermStore;
use lt_hol::{List, Memory, Name, TryCopy, Ty, TyMap, Tys, tsub};
use std::alloc::Global;

/// Whether a free variable has the name and the type.
pub(crate) fn is_variable(name: &Name, ty: &Ty, other: &Name, of: &Ty) -> bool
    ensures { result ≡ (same_name name.now other.now && same_type ty.now of.now) }
{
    *name == *other && *ty == *of
}

/// Types with types put for their variables.
fn types_at(alloc: Global, types: &Tys, by: &TyMap) -> Result<Tys, Memory>
    ensures { IfOk result (λ made. made ≡ map (type_instance by.now) types.now) }
{
    let mut made = List::new(alloc);
    for ty in types.as_slice() {
        made.push(alloc, tsub(alloc, ty, by)?)?;
    }
    Ok(made)
}

/// What a free variable becomes.
fn image_of_free<S: TermStore>(
    alloc: Global,
    store: &mut S,
    change: Change<'_>,
    id: Id,
    depth: usize,
    name: Name,
    ty: Ty,
) -> Result<Id, Memory>
    requires id { id < length (S.nodes store.old) }
    requires is { tree_at (S.nodes store.old) id ≡ nameless_free name ty }
    requires change { ChangeIsIn (length (S.nodes store.old)) change }
    ensures { Builds (S.nodes store.old) (S.nodes store.new) result
        (image (S.nodes store.old) change.entry depth (nameless_free name ty)) }
{
    match change {
        Change::Open(_) => Ok(id),
        Change::Close(x, of) => {
            if is_variable(x, of, &name, &ty) {
                Ok(store.mk_bound(alloc, depth)?)
            } else {
                Ok(id)
            }
        }
        Change::Replace(x, of, by) => {
            if is_variable(x, of, &name, &ty) {
                Ok(by)
            } else {
                Ok(id)
            }
        }
        Change::Types(by) => Ok(store.mk_free(alloc, name, tsub(alloc, &ty, by)?)?),
    }
}

/// What a constant becomes.
fn image_of_constant<S: TermStore>(
    alloc: Global,
    store: &mut S,
    change: Change<'_>,
    id: Id,
    depth: usize,
    name: Name,
    types: Tys,
) -> Result<Id, Memory>
    requires id { id < length (S.nodes store.old) }
    requires is { tree_at (S.nodes store.old) id ≡ nameless_constant name types }
    ensures { Builds (S.nodes store.old) (S.nodes store.new) result
        (image (S.nodes store.old) change.entry depth (nameless_constant name types)) }
{
    match change {
        Change::Open(_) => Ok(id),
        Change::Close(_, _) => Ok(id),
        Change::Replace(_, _, _) => Ok(id),
        Change::Types(by) => Ok(store.mk_const(alloc, name, types_at(alloc, &types, by)?)?),
    }
}

/// What a bound name becomes.
fn image_of_bound<S: TermStore>(
    store: &S,
    change: Change<'_>,
    id: Id,
    depth: usize,
    index: usize,
) -> Id
    requires id { id < length (S.nodes store.now) }
    requires is { tree_at (S.nodes store.now) id ≡ nameless_bound index }
    requires change { ChangeIsIn (length (S.nodes store.now)) change }
    ensures made { result < length (S.nodes store.now) }
    ensures image { tree_at (S.nodes store.now) result ≡ image (S.nodes store.now) change.entry depth (nameless_bound index) }
{
    match change {
        Change::Open(by) => { if index == depth { by } else { id } }
        Change::Close(_, _) => id,
        Change::Replace(_, _, _) => id,
        Change::Types(_) => id,
    }
}

/// Whether two pairs of ids are one.
fn are_same(function: Id, argument: Id, f: Id, a: Id) -> bool
    ensures { result ≡ true → (function ≡ f) × (argument ≡ a) }
{
    function == f && argument == a
}

/// What a node becomes. A node whose children stay is kept.
pub(crate) fn image_of<S: TermStore>(
    alloc: Global,
    store: &mut S,
    change: Change<'_>,
    memo: &Memo,
    id: Id,
    depth: usize,
) -> Result<Id, Memory>
    requires id { id < length (S.nodes store.old) }
    requires depth { depth + 1 < 2 ^ 64 }
    requires change { ChangeIsIn (length (S.nodes store.old)) change }
    requires sound { IsSound (work.Make change) (S.nodes store.old) memo.now }
    requires ready { (n : Node) → slice_get (S.nodes store.old) id ≡ Some n → AllKept memo.now (children (change_step change) n depth) }
    ensures { Builds (S.nodes store.old) (S.nodes store.new) result
        (image (S.nodes store.old) change.entry depth (tree_at (S.nodes store.old) id)) }
{
    match store.view(id) {
        View::App(f, a) => {
            let function = kept(memo, f, depth);
            let argument = kept(memo, a, depth);
            if are_same(function, argument, f, a) {
                return Ok(id);
            }
            let made = store.mk_app(alloc, function, argument)?;
            Ok(made)
        }
        View::Lam(ty, body) => {
            let ty = change.ty(alloc, ty)?;
            let made = store.mk_lam(alloc, ty, kept(memo, body, depth + change.step()))?;
            Ok(made)
        }
        View::Free(name, ty) => {
            let name = name.copy(alloc)?;
            let ty = ty.copy(alloc)?;
            image_of_free(alloc, store, change, id, depth, name, ty)
        }
        View::Const(name, types) => {
            let name = name.copy(alloc)?;
            let types = types.copy(alloc)?;
            image_of_constant(alloc, store, change, id, depth, name, types)
        }
        View::Bound(index) => Ok(image_of_bound(store, change, id, depth, index)),
    }
}

/// A test as a number.
fn number(test: bool) -> usize
    ensures { result ≡ number test }
{
    if test { 1 } else { 0 }
}

/// Whether what is looked for occurs in a node, as a number.
pub(crate) fn found_in<S: TermStore>(
    store: &S,
    sought: Sought<'_>,
    memo: &Memo,
    id: Id,
    depth: usize,
) -> usize
    requires id { id < length (S.nodes store.now) }
    requires depth { depth + 1 < 2 ^ 64 }
    requires sound { IsSound (work.Find sought) (S.nodes store.now) memo.now }
    requires ready { (n : Node) → slice_get (S.nodes store.now) id ≡ Some n → AllKept memo.now (children (sought_step sought) n depth) }
    ensures { result ≡ number (occurs sought.entry depth (tree_at (S.nodes store.now) id)) }
{
    match store.view(id) {
        View::App(f, a) => {
            if kept(memo, f, depth) == 1 {
                1
            } else {
                kept(memo, a, depth)
            }
        }
        View::Lam(_, body) => kept(memo, body, depth + sought.step()),
        View::Free(name, ty) => match sought {
            Sought::Variable(x, of) => number(is_variable(x, of, name, ty)),
            Sought::Loose => 0,
        },
        View::Bound(index) => match sought {
            Sought::Variable(_, _) => 0,
            Sought::Loose => number(index == depth),
        },
        View::Const(_, _) => 0,
    }
}

/// The length of the longest name of a free variable in a node.
pub(crate) fn measured<S: TermStore>(store: &S, memo: &Memo, id: Id, depth: usize) -> usize
    requires id { id < length (S.nodes store.now) }
    requires depth { depth + 1 < 2 ^ 64 }
    requires sound { IsSound work.Measure (S.nodes store.now) memo.now }
    requires ready { (n : Node) → slice_get (S.nodes store.now) id ≡ Some n → AllKept memo.now (children 0 n depth) }
    ensures { result ≡ longest_free (tree_at (S.nodes store.now) id) }
{
    match store.view(id) {
        View::App(f, a) => {
            let function = kept(memo, f, depth);
            let argument = kept(memo, a, depth);
            function.max(argument)
        }
        View::Lam(_, body) => kept(memo, body, depth),
        View::Free(name, _) => name.len(),
        View::Bound(_) | View::Const(_, _) => 0,
    }
}
