//! Applications and constants, read from a store.
ghost use Rattle.std.specs.Prelude.{◌≡◌, ◌<◌, length, true};
ghost use Rattle.lt_nameless.specs.Nameless.{nameless_application, nameless_constant};
ghost use Rattle.lt_store.specs.Trees.{tree_at};
ghost use Rattle.lt_formulas.specs.Shapes.{is_application, is_constant};

use lt_hol::{Name, Tys};
use lt_store::{Id, TermStore, View};

/// Whether a term is an application.
pub fn is_application<S: TermStore>(store: &S, t: Id) -> bool
    requires { t < length (S.nodes store.now) }
    ensures { result ≡ is_application (tree_at (S.nodes store.now) t) }
{
    match store.view(t) {
        View::App(_, _) => true,
        _ => false,
    }
}

/// The function and the argument of an application; `is_application` is the test.
pub fn application<S: TermStore>(store: &S, t: Id) -> (Id, Id)
    requires t { t < length (S.nodes store.now) }
    requires form { is_application (tree_at (S.nodes store.now) t) ≡ true }
    ensures function { result.0 < length (S.nodes store.now) }
    ensures argument { result.1 < length (S.nodes store.now) }
    ensures is { tree_at (S.nodes store.now) t
        ≡ nameless_application (tree_at (S.nodes store.now) result.0) (tree_at (S.nodes store.now) result.1) }
{
    match store.view(t) {
        View::App(function, argument) => (function, argument),
        _ => unreachable!(),
    }
}

/// Whether a term is a constant.
pub fn is_constant<S: TermStore>(store: &S, t: Id) -> bool
    requires { t < length (S.nodes store.now) }
    ensures { result ≡ is_constant (tree_at (S.nodes store.now) t) }
{
    match store.view(t) {
        View::Const(_, _) => true,
        _ => false,
    }
}

/// The name and the type arguments of a constant; `is_constant` is the test.
pub fn constant<S: TermStore>(store: &S, t: Id) -> (&Name, &Tys)
    requires t { t < length (S.nodes store.now) }
    requires form { is_constant (tree_at (S.nodes store.now) t) ≡ true }
    ensures { tree_at (S.nodes store.now) t ≡ nameless_constant result.0.now result.1.now }
{
    match store.view(t) {
        View::Const(name, types) => (name, types),
        _ => unreachable!(),
    }
}
