//! Applications, made in a store.
ghost use Rattle.std.specs.Prelude.{◌<◌, length};
ghost use Rattle.lt_nameless.specs.Nameless.{nameless_application};
ghost use Rattle.lt_nameless.specs.NamelessRules.{nameless_equation, nameless_at};
ghost use Rattle.lt_store.specs.Trees.{tree_at};
ghost use Rattle.lt_store.specs.Building.{Builds};

use crate::connectives::mk_equation;
use crate::redexes::body_of;
use lt_hol::{Memory, Ty};
use lt_store::{Id, TermStore, instantiate};
use std::alloc::Global;

/// `f a = g b` at a type.
pub fn mk_applied_equation<S: TermStore>(
    alloc: Global,
    store: &mut S,
    ty: Ty,
    f: Id,
    a: Id,
    g: Id,
    b: Id,
) -> Result<Id, Memory>
    requires f { f < length (S.nodes store.old) }
    requires a { a < length (S.nodes store.old) }
    requires g { g < length (S.nodes store.old) }
    requires b { b < length (S.nodes store.old) }
    ensures { Builds (S.nodes store.old) (S.nodes store.new) result
        (nameless_equation ty (nameless_application (tree_at (S.nodes store.old) f) (tree_at (S.nodes store.old) a)) (nameless_application (tree_at (S.nodes store.old) g) (tree_at (S.nodes store.old) b))) }
{
    let left = store.mk_app(alloc, f, a)?;
    let right = store.mk_app(alloc, g, b)?;
    let made = mk_equation(alloc, store, ty, left, right)?;
    Ok(made)
}

/// An abstraction opened by a term, or else the application to it.
pub fn mk_at<S: TermStore>(alloc: Global, store: &mut S, p: Id, t: Id) -> Result<Id, Memory>
    requires p { p < length (S.nodes store.old) }
    requires t { t < length (S.nodes store.old) }
    ensures { Builds (S.nodes store.old) (S.nodes store.new) result
        (nameless_at (tree_at (S.nodes store.old) p) (tree_at (S.nodes store.old) t)) }
{
    match body_of(store, p) {
        Some(body) => Ok(instantiate(alloc, store, body, t)?),
        None => Ok(store.mk_app(alloc, p, t)?),
    }
}
