//! The constants that the rules speak of, made in a store.
ghost use Rattle.std.specs.Prelude.{◌≡◌, ◌∷◌, [], codes, IfOk, IsTrue};
ghost use Rattle.lt_nameless.specs.Nameless.{nameless_constant};
ghost use Rattle.lt_store.specs.Building.{Builds};
ghost use Rattle.lt_formulas.specs.Shapes.{is_word};

use lt_hol::{List, Memory, Name, Ty, Tys};
use lt_store::{Id, TermStore};
use std::alloc::Global;

/// A list of one type.
fn one_type(alloc: Global, ty: Ty) -> Result<Tys, Memory>
    ensures { IfOk result (λ types. types ≡ ty ∷ []) }
{
    let mut types = List::new(alloc);
    types.push(alloc, ty)?;
    Ok(types)
}

/// A constant with its type arguments, by its name.
fn mk_word<S: TermStore>(alloc: Global, store: &mut S, word: &str, types: Tys) -> Result<Id, Memory>
    requires { IsTrue (is_word word.now) }
    ensures { Builds (S.nodes store.old) (S.nodes store.new) result (nameless_constant word.now types) }
{
    let name = Name::word(alloc, word)?;
    let made = store.mk_const(alloc, name, types)?;
    Ok(made)
}

/// A constant at a type, by its name.
fn mk_constant_at<S: TermStore>(
    alloc: Global,
    store: &mut S,
    word: &str,
    ty: Ty,
) -> Result<Id, Memory>
    requires { IsTrue (is_word word.now) }
    ensures { Builds (S.nodes store.old) (S.nodes store.new) result
        (nameless_constant word.now (ty ∷ [])) }
{
    let types = one_type(alloc, ty)?;
    let made = mk_word(alloc, store, word, types)?;
    Ok(made)
}

/// The constant `imp`.
pub(crate) fn mk_imp<S: TermStore>(alloc: Global, store: &mut S) -> Result<Id, Memory>
    ensures { Builds (S.nodes store.old) (S.nodes store.new) result (nameless_constant (codes "imp") []) }
{
    mk_word(alloc, store, "imp", List::new(alloc))
}

/// The constant `eq` at a type.
pub(crate) fn mk_eq<S: TermStore>(alloc: Global, store: &mut S, ty: Ty) -> Result<Id, Memory>
    ensures { Builds (S.nodes store.old) (S.nodes store.new) result
        (nameless_constant (codes "eq") (ty ∷ [])) }
{
    mk_constant_at(alloc, store, "eq", ty)
}

/// The constant `all` at a type.
pub(crate) fn mk_all<S: TermStore>(alloc: Global, store: &mut S, ty: Ty) -> Result<Id, Memory>
    ensures { Builds (S.nodes store.old) (S.nodes store.new) result
        (nameless_constant (codes "all") (ty ∷ [])) }
{
    mk_constant_at(alloc, store, "all", ty)
}

/// The constant `eps` at a type.
pub(crate) fn mk_eps<S: TermStore>(alloc: Global, store: &mut S, ty: Ty) -> Result<Id, Memory>
    ensures { Builds (S.nodes store.old) (S.nodes store.new) result
        (nameless_constant (codes "eps") (ty ∷ [])) }
{
    mk_constant_at(alloc, store, "eps", ty)
}
