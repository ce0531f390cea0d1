//! The types of terms without a fault.
ghost use Rattle.std.specs.Prelude.{◌≡◌, IfOk};
ghost use Rattle.lt_definitions.specs.Types.{bool};
ghost use Rattle.lt_nameless.specs.NamelessRules.{nameless_has_type, nameless_type_of};
ghost use Rattle.lt_store.specs.Trees.{tree_at};
ghost use Rattle.lt_store.specs.Typed.{IsTyped};

use lt_hol::{Memory, Signature, Ty};
use lt_store::{Id, TermStore, known_type};
use std::alloc::Global;

/// Whether a term without a fault has the type.
pub fn has_type<S: TermStore>(
    alloc: Global,
    store: &S,
    sig: &Signature,
    t: Id,
    ty: &Ty,
) -> Result<bool, Memory>
    requires { IsTyped sig.now (S.nodes store.now) t }
    ensures { IfOk result (λ holds. holds ≡ nameless_has_type sig.now (tree_at (S.nodes store.now) t) ty.now) }
{
    let found = known_type(alloc, store, sig, t)?;
    Ok(*ty == found)
}

/// Whether a term without a fault is boolean.
pub fn is_boolean<S: TermStore>(
    alloc: Global,
    store: &S,
    sig: &Signature,
    p: Id,
) -> Result<bool, Memory>
    requires { IsTyped sig.now (S.nodes store.now) p }
    ensures { IfOk result (λ holds. holds ≡ nameless_has_type sig.now (tree_at (S.nodes store.now) p) bool) }
{
    let bool = Ty::bool(alloc)?;
    Ok(has_type(alloc, store, sig, p, &bool)?)
}

/// The type of a term without a fault.
pub fn type_of<S: TermStore>(alloc: Global, store: &S, sig: &Signature, t: Id) -> Result<Ty, Memory>
    requires { IsTyped sig.now (S.nodes store.now) t }
    ensures { IfOk result (λ ty. ty ≡ nameless_type_of sig.now (tree_at (S.nodes store.now) t)) }
{
    let ty = known_type(alloc, store, sig, t)?;
    Ok(ty)
}
