//! The parts of conjunctions and existences, read from a store.
ghost use Rattle.std.specs.Prelude.{◌≡◌, ◌<◌, length, codes, IfOk, IfSome};
ghost use Rattle.std.specs.Option.{option_copied, option_map};
ghost use Rattle.lt_store.specs.Trees.{tree_at};
ghost use Rattle.lt_formulas.specs.Shapes.{only_type, type_argument};
ghost use Rattle.lt_programs.specs.Connectives.{as_conjunction, as_existence};
ghost use Rattle.lt_derived.specs.Sides.{is_and};

use lt_hol::{Memory, TryCopy, Ty, Tys};
use lt_store::{Id, TermStore, View};
use std::alloc::Global;

/// Whether a term is the constant `and`.
fn is_and<S: TermStore>(store: &S, t: Id) -> bool
    requires { t < length (S.nodes store.now) }
    ensures { result ≡ is_and (tree_at (S.nodes store.now) t) }
{
    match store.view(t) {
        View::Const(name, types) => types.len() == 0 && name.is_word("and"),
        _ => false,
    }
}

/// The sides of a conjunction.
pub(crate) fn as_conjunction<S: TermStore>(store: &S, t: Id) -> Option<(Id, Id)>
    requires { t < length (S.nodes store.now) }
    ensures parts { option_map
        (λ e. (tree_at (S.nodes store.now) e.0, tree_at (S.nodes store.now) e.1)) result
        ≡ as_conjunction (tree_at (S.nodes store.now) t) }
    ensures within { IfSome result
        (λ e. (e.0 < length (S.nodes store.now)) × (e.1 < length (S.nodes store.now))) }
{
    match store.view(t) {
        View::App(head, right) => match store.view(head) {
            View::App(constant, left) => {
                if is_and(store, constant) {
                    Some((left, right))
                } else {
                    None
                }
            }
            _ => None,
        },
        _ => None,
    }
}

/// The only one of some types.
fn only_type(types: &Tys) -> Option<&Ty>
    ensures { option_copied result ≡ only_type types.now }
{
    if types.len() == 1 {
        Some(types.at(0))
    } else {
        None
    }
}

/// The type at which a term is the constant `ex`.
fn ex_type<S: TermStore>(store: &S, t: Id) -> Option<&Ty>
    requires { t < length (S.nodes store.now) }
    ensures { option_copied result ≡ type_argument (codes "ex") (tree_at (S.nodes store.now) t) }
{
    match store.view(t) {
        View::Const(name, types) => {
            if name.is_word("ex") {
                only_type(types)
            } else {
                None
            }
        }
        _ => None,
    }
}

/// The type and the predicate of an existence.
pub(crate) fn as_existence<S: TermStore>(
    alloc: Global,
    store: &S,
    t: Id,
) -> Result<Option<(Ty, Id)>, Memory>
    requires { t < length (S.nodes store.now) }
    ensures parts { IfOk result (λ o. option_map (λ e. (e.0, tree_at (S.nodes store.now) e.1)) o
        ≡ as_existence (tree_at (S.nodes store.now) t)) }
    ensures within { IfOk result (λ o. IfSome o (λ e. e.1 < length (S.nodes store.now))) }
{
    match store.view(t) {
        View::App(constant, predicate) => match ex_type(store, constant) {
            Some(ty) => {
                let ty = ty.copy(alloc)?;
                Ok(Some((ty, predicate)))
            }
            None => Ok(None),
        },
        _ => Ok(None),
    }
}
