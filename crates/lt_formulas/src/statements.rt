//! The statements that the rules `select` and `ccontr` give, made in a store.
ghost use Rattle.std.specs.Prelude.{◌<◌, ◌∷◌, [], length, codes};
ghost use Rattle.lt_nameless.specs.Nameless.{nameless_constant, nameless_application, nameless_bound};
ghost use Rattle.lt_nameless.specs.NamelessRules.{nameless_implies, nameless_falsity, nameless_selection};
ghost use Rattle.lt_store.specs.Trees.{tree_at};
ghost use Rattle.lt_store.specs.Building.{Builds};

use crate::connectives::{mk_falsity, mk_for_all, mk_implies};
use crate::constants::mk_eps;
use lt_hol::{Memory, TryCopy, Ty};
use lt_store::{Id, TermStore};
use std::alloc::Global;

/// `p x`, where `x` is the bound name of the innermost binder.
fn mk_of_bound<S: TermStore>(alloc: Global, store: &mut S, p: Id) -> Result<Id, Memory>
    requires { p < length (S.nodes store.old) }
    ensures { Builds (S.nodes store.old) (S.nodes store.new) result
        (nameless_application (tree_at (S.nodes store.old) p) (nameless_bound 0)) }
{
    let x = store.mk_bound(alloc, 0)?;
    let made = store.mk_app(alloc, p, x)?;
    Ok(made)
}

/// `eps p`, where `p` is a predicate over the type.
fn mk_some<S: TermStore>(alloc: Global, store: &mut S, ty: Ty, p: Id) -> Result<Id, Memory>
    requires { p < length (S.nodes store.old) }
    ensures { Builds (S.nodes store.old) (S.nodes store.new) result
        (nameless_application (nameless_constant (codes "eps") (ty ∷ [])) (tree_at (S.nodes store.old) p)) }
{
    let eps = mk_eps(alloc, store, ty)?;
    let made = store.mk_app(alloc, eps, p)?;
    Ok(made)
}

/// `p (eps p)`
fn mk_of_some<S: TermStore>(alloc: Global, store: &mut S, ty: Ty, p: Id) -> Result<Id, Memory>
    requires { p < length (S.nodes store.old) }
    ensures { Builds (S.nodes store.old) (S.nodes store.new) result
        (nameless_application (tree_at (S.nodes store.old) p) (nameless_application (nameless_constant (codes "eps") (ty ∷ [])) (tree_at (S.nodes store.old) p))) }
{
    let some = mk_some(alloc, store, ty, p)?;
    let made = store.mk_app(alloc, p, some)?;
    Ok(made)
}

/// `p x --> p (eps p)`, where `x` is the bound name of the innermost binder.
fn mk_chosen<S: TermStore>(alloc: Global, store: &mut S, ty: Ty, p: Id) -> Result<Id, Memory>
    requires { p < length (S.nodes store.old) }
    ensures { Builds (S.nodes store.old) (S.nodes store.new) result
        (nameless_implies (nameless_application (tree_at (S.nodes store.old) p) (nameless_bound 0)) (nameless_application (tree_at (S.nodes store.old) p) (nameless_application (nameless_constant (codes "eps") (ty ∷ [])) (tree_at (S.nodes store.old) p)))) }
{
    let of_x = mk_of_bound(alloc, store, p)?;
    let of_some = mk_of_some(alloc, store, ty, p)?;
    let made = mk_implies(alloc, store, of_x, of_some)?;
    Ok(made)
}

/// `all x. p x --> p (eps p)`
pub fn mk_selection<S: TermStore>(alloc: Global, store: &mut S, ty: Ty, p: Id) -> Result<Id, Memory>
    requires { p < length (S.nodes store.old) }
    ensures { Builds (S.nodes store.old) (S.nodes store.new) result
        (nameless_selection ty (tree_at (S.nodes store.old) p)) }
{
    let chosen = mk_chosen(alloc, store, ty.copy(alloc)?, p)?;
    let predicate = store.mk_lam(alloc, ty.copy(alloc)?, chosen)?;
    let made = mk_for_all(alloc, store, ty, predicate)?;
    Ok(made)
}

/// `((p --> F) --> F) --> p`
pub fn mk_double_negation<S: TermStore>(alloc: Global, store: &mut S, p: Id) -> Result<Id, Memory>
    requires { p < length (S.nodes store.old) }
    ensures { Builds (S.nodes store.old) (S.nodes store.new) result
        (nameless_implies (nameless_implies (nameless_implies (tree_at (S.nodes store.old) p) nameless_falsity) nameless_falsity) (tree_at (S.nodes store.old) p)) }
{
    let falsity = mk_falsity(alloc, store)?;
    let denied = mk_implies(alloc, store, p, falsity)?;
    let twice = mk_implies(alloc, store, denied, falsity)?;
    let made = mk_implies(alloc, store, twice, p)?;
    Ok(made)
}
