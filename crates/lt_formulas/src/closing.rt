//! Terms closed over a free variable, made in a store.
ghost use Rattle.std.specs.Prelude.{◌<◌, length};
ghost use Rattle.lt_definitions.specs.Types.{fun};
ghost use Rattle.lt_nameless.specs.Nameless.{nameless_abstraction};
ghost use Rattle.lt_nameless.specs.NamelessRules.{nameless_equation, nameless_for_all, abstracted};
ghost use Rattle.lt_store.specs.Trees.{tree_at};
ghost use Rattle.lt_store.specs.Building.{Builds};

use crate::connectives::{mk_equation, mk_for_all};
use lt_hol::{Memory, Name, TryCopy, Ty};
use lt_store::{Id, TermStore, abstract_free};
use std::alloc::Global;

/// The abstraction of a term over a free variable.
pub(crate) fn mk_closed<S: TermStore>(
    alloc: Global,
    store: &mut S,
    name: &Name,
    ty: &Ty,
    t: Id,
) -> Result<Id, Memory>
    requires { t < length (S.nodes store.old) }
    ensures { Builds (S.nodes store.old) (S.nodes store.new) result
        (nameless_abstraction ty.now (abstracted 0 name.now ty.now (tree_at (S.nodes store.old) t))) }
{
    let body = abstract_free(alloc, store, t, name, ty)?;
    let made = store.mk_lam(alloc, ty.copy(alloc)?, body)?;
    Ok(made)
}

/// `(\x. s) = (\x. t)`, where the sides have the type `at`.
pub fn mk_closed_equation<S: TermStore>(
    alloc: Global,
    store: &mut S,
    name: &Name,
    ty: &Ty,
    at: Ty,
    s: Id,
    t: Id,
) -> Result<Id, Memory>
    requires s { s < length (S.nodes store.old) }
    requires t { t < length (S.nodes store.old) }
    ensures { Builds (S.nodes store.old) (S.nodes store.new) result
        (nameless_equation (fun ty.now at) (nameless_abstraction ty.now (abstracted 0 name.now ty.now (tree_at (S.nodes store.old) s))) (nameless_abstraction ty.now (abstracted 0 name.now ty.now (tree_at (S.nodes store.old) t)))) }
{
    let whole = Ty::fun(alloc, ty.copy(alloc)?, at)?;
    let left = mk_closed(alloc, store, name, ty, s)?;
    let right = mk_closed(alloc, store, name, ty, t)?;
    let made = mk_equation(alloc, store, whole, left, right)?;
    Ok(made)
}

/// `all x. p`
pub fn mk_closed_for_all<S: TermStore>(
    alloc: Global,
    store: &mut S,
    name: &Name,
    ty: &Ty,
    p: Id,
) -> Result<Id, Memory>
    requires { p < length (S.nodes store.old) }
    ensures { Builds (S.nodes store.old) (S.nodes store.new) result
        (nameless_for_all ty.now (nameless_abstraction ty.now (abstracted 0 name.now ty.now (tree_at (S.nodes store.old) p)))) }
{
    let predicate = mk_closed(alloc, store, name, ty, p)?;
    let made = mk_for_all(alloc, store, ty.copy(alloc)?, predicate)?;
    Ok(made)
}
