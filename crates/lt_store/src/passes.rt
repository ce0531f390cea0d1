//! The passes over the terms of any store.
ghost use Rattle.std.specs.Prelude.{◌≡◌, ◌<◌, length, map, IfOk, OnOk};
ghost use Rattle.std.specs.List.{list_any};
ghost use Rattle.lt_nameless.specs.NamelessRules.{instance_at, abstracted, nameless_replaced, nameless_instance, nameless_has_free, has_index};
ghost use Rattle.lt_store.specs.Trees.{tree_at, trees, AllBelow, Extends};
ghost use Rattle.lt_store.specs.Building.{Builds, BuildsEach};
ghost use Rattle.lt_store.specs.Passes.{image, occurs, longest_free_of, ChangeIsIn, IsSound};
ghost use Rattle.lt_store.specs.Replaced.{AreReplaced};
ghost use Rattle.lt_store.specs.declared.change.Work.TheVariants as work;

use crate::change::{Change, Sought, Work};
use crate::memo::Memo;
use crate::node::Id;
use crate::pass::run;
use crate::replacing::Replacing;
use crate::term_store::TermStore;
use lt_hol::{Ids, List, Memory, Name, TryCopy, Ty, TyMap};
use std::alloc::Global;
use std::collections::HashMap;

/// What a change makes of one term.
fn make_one<S: TermStore>(
    alloc: Global,
    store: &mut S,
    change: Change<'_>,
    root: Id,
) -> Result<Id, Memory>
    requires root { root < length (S.nodes store.old) }
    requires change { ChangeIsIn (length (S.nodes store.old)) change }
    ensures { Builds (S.nodes store.old) (S.nodes store.new) result
        (image (S.nodes store.old) change.entry 0 (tree_at (S.nodes store.old) root)) }
{
    let mut memo = HashMap::new(alloc);
    let made = run(alloc, store, Work::Make(change), &mut memo, root)?;
    Ok(made)
}

/// What a change makes of each of some terms, with one memory of what was worked on.
fn make_each<S: TermStore>(
    alloc: Global,
    store: &mut S,
    change: Change<'_>,
    memo: &mut Memo,
    roots: &[Id],
) -> Result<Ids, Memory>
    requires roots { AllBelow (length (S.nodes store.old)) roots.now }
    requires change { ChangeIsIn (length (S.nodes store.old)) change }
    requires sound { IsSound (work.Make change) (S.nodes store.old) memo.old }
    ensures sound { OnOk result (IsSound (work.Make change.entry) (S.nodes store.new) memo.new) }
    ensures builds { BuildsEach (S.nodes store.old) (S.nodes store.new) result
        (map (image (S.nodes store.old) change.entry 0) (trees (S.nodes store.old) roots.now)) }
{
    let mut made = List::new(alloc);
    for root in roots {
        let id = run(alloc, store, Work::Make(change), memo, *root)?;
        made.push(alloc, id)?;
    }
    Ok(made)
}

/// Whether what is looked for occurs in one of some terms.
fn find_in<S: TermStore>(
    alloc: Global,
    store: &mut S,
    sought: Sought<'_>,
    roots: &[Id],
) -> Result<bool, Memory>
    requires { AllBelow (length (S.nodes store.old)) roots.now }
    ensures kept { Extends (S.nodes store.old) (S.nodes store.new) }
    ensures is { IfOk result (λ yes. yes ≡ list_any (occurs sought.entry 0) (trees (S.nodes store.old) roots.now)) }
{
    let mut memo = HashMap::new(alloc);
    for root in roots {
        if run(alloc, store, Work::Find(sought), &mut memo, *root)? == 1 {
            return Ok(true);
        }
    }
    Ok(false)
}

/// The term `body` with `by` put for its loose bound name 0, the name of the binder that was around it.
///
/// Where `by` has no loose bound name and `body` no other one, this opens the abstraction of `body` by `by`.
pub fn instantiate<S: TermStore>(
    alloc: Global,
    store: &mut S,
    body: Id,
    by: Id,
) -> Result<Id, Memory>
    requires body { body < length (S.nodes store.old) }
    requires by { by < length (S.nodes store.old) }
    ensures { Builds (S.nodes store.old) (S.nodes store.new) result
        (instance_at 0 (tree_at (S.nodes store.old) by) (tree_at (S.nodes store.old) body)) }
{
    make_one(alloc, store, Change::Open(by), body)
}

/// The body that closes a term over a free variable: with the bound name of a binder around it in the variable's place.
/// `mk_lam` adds that binder.
pub fn abstract_free<S: TermStore>(
    alloc: Global,
    store: &mut S,
    t: Id,
    name: &Name,
    ty: &Ty,
) -> Result<Id, Memory>
    requires { t < length (S.nodes store.old) }
    ensures { Builds (S.nodes store.old) (S.nodes store.new) result
        (abstracted 0 name.now ty.now (tree_at (S.nodes store.old) t)) }
{
    make_one(alloc, store, Change::Close(name, ty), t)
}

/// The term with types put for its type variables.
pub fn type_instance<S: TermStore>(
    alloc: Global,
    store: &mut S,
    t: Id,
    by: &TyMap,
) -> Result<Id, Memory>
    requires { t < length (S.nodes store.old) }
    ensures { Builds (S.nodes store.old) (S.nodes store.new) result
        (nameless_instance by.now (tree_at (S.nodes store.old) t)) }
{
    make_one(alloc, store, Change::Types(by), t)
}

/// Each of some terms with types put for its type variables.
pub fn type_instances<S: TermStore>(
    alloc: Global,
    store: &mut S,
    ts: &[Id],
    by: &TyMap,
) -> Result<Ids, Memory>
    requires { AllBelow (length (S.nodes store.old)) ts.now }
    ensures { BuildsEach (S.nodes store.old) (S.nodes store.new) result
        (map (nameless_instance by.now) (trees (S.nodes store.old) ts.now)) }
{
    let mut memo = HashMap::new(alloc);
    let made = make_each(alloc, store, Change::Types(by), &mut memo, ts)?;
    Ok(made)
}

/// What the store kept of the last replacement, if it is this one, else nothing.
fn made_before<S: TermStore>(alloc: Global, store: &mut S, name: &Name, ty: &Ty, by: Id) -> Memo
    ensures kept { S.nodes store.new ≡ S.nodes store.old }
    ensures is { AreReplaced (S.nodes store.new) name.now ty.now by result }
{
    match store.take_replaced(name, ty, by) {
        Some(memo) => memo,
        None => HashMap::new(alloc),
    }
}

/// Each of some terms with `by` put for a free variable.
///
/// A store that keeps what a replacement made has the next one of the same variable by the same
/// term go on with it, so that a term that was met before isn't worked on again.
pub fn replace_free<S: TermStore>(
    alloc: Global,
    store: &mut S,
    ts: &[Id],
    name: &Name,
    ty: &Ty,
    by: Id,
) -> Result<Ids, Memory>
    requires ts { AllBelow (length (S.nodes store.old)) ts.now }
    requires by { by < length (S.nodes store.old) }
    ensures { BuildsEach (S.nodes store.old) (S.nodes store.new) result
        (map (nameless_replaced name.now ty.now (tree_at (S.nodes store.old) by)) (trees (S.nodes store.old) ts.now)) }
{
    let mut memo = made_before(alloc, store, name, ty, by);
    let made = make_each(alloc, store, Change::Replace(name, ty, by), &mut memo, ts)?;
    let name = name.copy(alloc)?;
    let ty = ty.copy(alloc)?;
    store.keep_replaced(Replacing {
        name,
        ty,
        by,
        made: memo,
    });
    Ok(made)
}

/// Whether a free variable occurs in one of some terms.
pub fn has_free<S: TermStore>(
    alloc: Global,
    store: &mut S,
    ts: &[Id],
    name: &Name,
    ty: &Ty,
) -> Result<bool, Memory>
    requires { AllBelow (length (S.nodes store.old)) ts.now }
    ensures kept { Extends (S.nodes store.old) (S.nodes store.new) }
    ensures is { IfOk result (λ yes. yes ≡ list_any (nameless_has_free name.now ty.now) (trees (S.nodes store.old) ts.now)) }
{
    find_in(alloc, store, Sought::Variable(name, ty), ts)
}

/// Whether the loose bound name 0 occurs in a term.
pub fn has_loose<S: TermStore>(alloc: Global, store: &mut S, t: Id) -> Result<bool, Memory>
    requires { t < length (S.nodes store.old) }
    ensures kept { Extends (S.nodes store.old) (S.nodes store.new) }
    ensures is { IfOk result (λ yes. yes ≡ has_index 0 (tree_at (S.nodes store.old) t)) }
{
    let mut memo = HashMap::new(alloc);
    Ok(run(alloc, store, Work::Find(Sought::Loose), &mut memo, t)? == 1)
}

/// The length of the longest name of a free variable in some terms, 0 where there is none.
///
/// A name that is longer is that of no free variable in them.
pub fn longest_free<S: TermStore>(alloc: Global, store: &mut S, ts: &[Id]) -> Result<usize, Memory>
    requires { AllBelow (length (S.nodes store.old)) ts.now }
    ensures kept { Extends (S.nodes store.old) (S.nodes store.new) }
    ensures is { IfOk result (λ n. n ≡ longest_free_of (trees (S.nodes store.old) ts.now)) }
{
    let mut memo = HashMap::new(alloc);
    let mut longest = 0;
    for t in ts {
        longest = longest.max(run(alloc, store, Work::Measure, &mut memo, *t)?);
    }
    Ok(longest)
}
