//! Equations, implications, universal statements and falsity, made in a store.
ghost use Rattle.std.specs.Prelude.{◌<◌, length};
ghost use Rattle.lt_nameless.specs.Nameless.{nameless_application};
ghost use Rattle.lt_nameless.specs.NamelessRules.{nameless_equation, nameless_implies, nameless_for_all, nameless_falsity};
ghost use Rattle.lt_store.specs.Trees.{tree_at};
ghost use Rattle.lt_store.specs.Building.{Builds};

use crate::constants::{mk_all, mk_eq, mk_imp};
use lt_hol::{Memory, TryCopy, Ty};
use lt_store::{Id, TermStore};
use std::alloc::Global;

/// A function applied to two arguments.
fn mk_binary<S: TermStore>(alloc: Global, store: &mut S, f: Id, a: Id, b: Id) -> Result<Id, Memory>
    requires f { f < length (S.nodes store.old) }
    requires a { a < length (S.nodes store.old) }
    requires b { b < length (S.nodes store.old) }
    ensures { Builds (S.nodes store.old) (S.nodes store.new) result
        (nameless_application (nameless_application (tree_at (S.nodes store.old) f) (tree_at (S.nodes store.old) a)) (tree_at (S.nodes store.old) b)) }
{
    let half = store.mk_app(alloc, f, a)?;
    let made = store.mk_app(alloc, half, b)?;
    Ok(made)
}

/// `s = t` at a type.
pub fn mk_equation<S: TermStore>(
    alloc: Global,
    store: &mut S,
    ty: Ty,
    s: Id,
    t: Id,
) -> Result<Id, Memory>
    requires s { s < length (S.nodes store.old) }
    requires t { t < length (S.nodes store.old) }
    ensures { Builds (S.nodes store.old) (S.nodes store.new) result
        (nameless_equation ty (tree_at (S.nodes store.old) s) (tree_at (S.nodes store.old) t)) }
{
    let eq = mk_eq(alloc, store, ty)?;
    let made = mk_binary(alloc, store, eq, s, t)?;
    Ok(made)
}

/// `p --> q`
pub fn mk_implies<S: TermStore>(alloc: Global, store: &mut S, p: Id, q: Id) -> Result<Id, Memory>
    requires p { p < length (S.nodes store.old) }
    requires q { q < length (S.nodes store.old) }
    ensures { Builds (S.nodes store.old) (S.nodes store.new) result
        (nameless_implies (tree_at (S.nodes store.old) p) (tree_at (S.nodes store.old) q)) }
{
    let imp = mk_imp(alloc, store)?;
    let made = mk_binary(alloc, store, imp, p, q)?;
    Ok(made)
}

/// `all p`, where `p` is a predicate over a type.
pub fn mk_for_all<S: TermStore>(alloc: Global, store: &mut S, ty: Ty, p: Id) -> Result<Id, Memory>
    requires { p < length (S.nodes store.old) }
    ensures { Builds (S.nodes store.old) (S.nodes store.new) result
        (nameless_for_all ty (tree_at (S.nodes store.old) p)) }
{
    let all = mk_all(alloc, store, ty)?;
    let made = store.mk_app(alloc, all, p)?;
    Ok(made)
}

/// `F`: all q. q at bool.
pub fn mk_falsity<S: TermStore>(alloc: Global, store: &mut S) -> Result<Id, Memory>
    ensures { Builds (S.nodes store.old) (S.nodes store.new) result nameless_falsity }
{
    let bool = Ty::bool(alloc)?;
    let q = store.mk_bound(alloc, 0)?;
    let body = store.mk_lam(alloc, bool.copy(alloc)?, q)?;
    let made = mk_for_all(alloc, store, bool, body)?;
    Ok(made)
}
