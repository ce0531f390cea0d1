//! Abstractions and redexes.
ghost use Rattle.std.specs.Prelude.{◌≡◌, ◌<◌, length, IfSome};
ghost use Rattle.std.specs.Option.{option_map};
ghost use Rattle.lt_store.specs.Trees.{tree_at};
ghost use Rattle.lt_formulas.specs.Redexes.{body_of, redex_parts, is_innermost, body_parts, expanded};

use lt_store::{Id, TermStore, View};

/// The body of an abstraction.
pub(crate) fn body_of<S: TermStore>(store: &S, t: Id) -> Option<Id>
    requires { t < length (S.nodes store.now) }
    ensures is { option_map (tree_at (S.nodes store.now)) result ≡ body_of (tree_at (S.nodes store.now) t) }
    ensures within { IfSome result (λ b. b < length (S.nodes store.now)) }
{
    match store.view(t) {
        View::Lam(_, body) => Some(body),
        _ => None,
    }
}

/// The body of an abstraction that is applied, and its argument.
pub fn redex_parts<S: TermStore>(store: &S, t: Id) -> Option<(Id, Id)>
    requires { t < length (S.nodes store.now) }
    ensures parts { option_map (λ e. (tree_at (S.nodes store.now) e.0, tree_at (S.nodes store.now) e.1)) result ≡ redex_parts (tree_at (S.nodes store.now) t) }
    ensures within { IfSome result (λ e. (e.0 < length (S.nodes store.now)) × (e.1 < length (S.nodes store.now))) }
{
    match store.view(t) {
        View::App(function, argument) => match store.view(function) {
            View::Lam(_, body) => Some((body, argument)),
            _ => None,
        },
        _ => None,
    }
}

/// Whether a term is the bound name of the innermost binder.
fn is_innermost<S: TermStore>(store: &S, t: Id) -> bool
    requires { t < length (S.nodes store.now) }
    ensures { result ≡ is_innermost (tree_at (S.nodes store.now) t) }
{
    match store.view(t) {
        View::Bound(index) => index == 0,
        _ => false,
    }
}

/// The function and the argument of an application under a binder.
fn body_parts<S: TermStore>(store: &S, t: Id) -> Option<(Id, Id)>
    requires { t < length (S.nodes store.now) }
    ensures parts { option_map (λ e. (tree_at (S.nodes store.now) e.0, tree_at (S.nodes store.now) e.1)) result ≡ body_parts (tree_at (S.nodes store.now) t) }
    ensures within { IfSome result (λ e. (e.0 < length (S.nodes store.now)) × (e.1 < length (S.nodes store.now))) }
{
    match store.view(t) {
        View::Lam(_, body) => match store.view(body) {
            View::App(function, argument) => Some((function, argument)),
            _ => None,
        },
        _ => None,
    }
}

/// The function of an application, under a binder, to that binder's bound name.
pub fn expanded<S: TermStore>(store: &S, t: Id) -> Option<Id>
    requires { t < length (S.nodes store.now) }
    ensures is { option_map (tree_at (S.nodes store.now)) result ≡ expanded (tree_at (S.nodes store.now) t) }
    ensures within { IfSome result (λ f. f < length (S.nodes store.now)) }
{
    let Some((function, argument)) = body_parts(store, t) else {
        return None;
    };
    if is_innermost(store, argument) {
        Some(function)
    } else {
        None
    }
}
