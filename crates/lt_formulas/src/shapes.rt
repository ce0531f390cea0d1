//! Terms that are equations, implications or universal statements.
ghost use Rattle.std.specs.Prelude.{◌≡◌, ◌<◌, length, codes, IsTrue, IfOk, IfSome, nat_lt};
ghost use Rattle.std.specs.List.{list_all};
ghost use Rattle.std.specs.Option.{option_copied, option_map};
ghost use Rattle.lt_nameless.specs.NamelessRules.{nameless_as_equation, nameless_as_implication, nameless_as_forall};
ghost use Rattle.lt_store.specs.Trees.{tree_at};
ghost use Rattle.lt_formulas.specs.Shapes.{is_imp, only_type, type_argument};

use lt_hol::{Memory, TryCopy, Ty, Tys};
use lt_store::{Id, TermStore, View};
use std::alloc::Global;

/// The type and the sides of an equation.
#[derive(Debug, Drop)]
pub struct Equation {
    pub ty: Ty,
    pub left: Id,
    pub right: Id,
}

/// The type and the predicate of a universal statement.
#[derive(Debug, Drop)]
pub struct Universal {
    pub ty: Ty,
    pub predicate: Id,
}

/// The only one of some types.
fn only_type(types: &Tys) -> Option<&Ty>
    ensures { option_copied result ≡ only_type types.now }
{
    if types.len() == 1 {
        Some(types.at(0))
    } else {
        None
    }
}

/// The type argument of a constant of that name with one type argument.
fn type_argument<'a, S: TermStore>(store: &'a S, t: Id, word: &str) -> Option<&'a Ty>
    requires t { t < length (S.nodes store.now) }
    requires word { IsTrue (list_all (λ c. nat_lt c 128) word.now) }
    ensures { option_copied result ≡ type_argument word.now (tree_at (S.nodes store.now) t) }
{
    match store.view(t) {
        View::Const(name, types) => {
            if name.is_word(word) {
                only_type(types)
            } else {
                None
            }
        }
        _ => None,
    }
}

/// Whether a term is the constant `imp`.
fn is_imp<S: TermStore>(store: &S, t: Id) -> bool
    requires { t < length (S.nodes store.now) }
    ensures { result ≡ is_imp (tree_at (S.nodes store.now) t) }
{
    match store.view(t) {
        View::Const(name, types) => types.len() == 0 && name.is_word("imp"),
        _ => false,
    }
}

/// The type and the sides of an equation.
pub fn as_equation<S: TermStore>(
    alloc: Global,
    store: &S,
    t: Id,
) -> Result<Option<Equation>, Memory>
    requires { t < length (S.nodes store.now) }
    ensures parts { IfOk result (λ o. option_map (λ e. (e.ty, tree_at (S.nodes store.now) e.left, tree_at (S.nodes store.now) e.right)) o ≡ nameless_as_equation (tree_at (S.nodes store.now) t)) }
    ensures within { IfOk result (λ o. IfSome o (λ e. (e.left < length (S.nodes store.now)) × (e.right < length (S.nodes store.now)))) }
{
    match store.view(t) {
        View::App(head, right) => match store.view(head) {
            View::App(constant, left) => match type_argument(store, constant, "eq") {
                Some(ty) => {
                    let ty = ty.copy(alloc)?;
                    Ok(Some(Equation { ty, left, right }))
                }
                None => Ok(None),
            },
            _ => Ok(None),
        },
        _ => Ok(None),
    }
}

/// The sides of an implication.
pub fn as_implication<S: TermStore>(store: &S, t: Id) -> Option<(Id, Id)>
    requires { t < length (S.nodes store.now) }
    ensures parts { option_map (λ e. (tree_at (S.nodes store.now) e.0, tree_at (S.nodes store.now) e.1)) result ≡ nameless_as_implication (tree_at (S.nodes store.now) t) }
    ensures within { IfSome result (λ e. (e.0 < length (S.nodes store.now)) × (e.1 < length (S.nodes store.now))) }
{
    match store.view(t) {
        View::App(head, right) => match store.view(head) {
            View::App(constant, left) => {
                if is_imp(store, constant) {
                    Some((left, right))
                } else {
                    None
                }
            }
            _ => None,
        },
        _ => None,
    }
}

/// The type and the predicate of a universal statement.
pub fn as_forall<S: TermStore>(alloc: Global, store: &S, t: Id) -> Result<Option<Universal>, Memory>
    requires { t < length (S.nodes store.now) }
    ensures parts { IfOk result (λ o. option_map (λ u. (u.ty, tree_at (S.nodes store.now) u.predicate)) o ≡ nameless_as_forall (tree_at (S.nodes store.now) t)) }
    ensures within { IfOk result (λ o. IfSome o (λ u. u.predicate < length (S.nodes store.now))) }
{
    match store.view(t) {
        View::App(constant, predicate) => match type_argument(store, constant, "all") {
            Some(ty) => {
                let ty = ty.copy(alloc)?;
                Ok(Some(Universal { ty, predicate }))
            }
            None => Ok(None),
        },
        _ => Ok(None),
    }
}
