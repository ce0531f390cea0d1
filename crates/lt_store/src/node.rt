//! The nodes of terms without binder names, and how a store shows them.
ghost use Rattle.std.specs.Prelude.{◌≡◌};
ghost use Rattle.lt_store.specs.Views.{node_of};

use lt_hol::{Name, Ty, Tys};

/// The index of a term in a store.
pub type Id = usize;

/// A node of a term: a free variable with its type; a bound name, as the number of binders
/// between it and its own; a constant with its type arguments; a function applied to an argument;
/// an abstraction, as its binder's type and its body.
#[derive(Debug, Drop, PartialEq, Eq, Hash)]
pub enum Node {
    Free(Name, Ty),
    Bound(usize),
    Const(Name, Tys),
    App(usize, usize),
    Lam(Ty, usize),
}

/// A node as a store lends it.
#[derive(Clone, Copy, Debug)]
pub enum View<'a> {
    Free(&'a Name, &'a Ty),
    Bound(usize),
    Const(&'a Name, &'a Tys),
    App(usize, usize),
    Lam(&'a Ty, usize),
}

impl Node {
    /// The node as a store lends it.
    pub fn view(&self) -> View<'_>
        ensures { node_of result ≡ self.now }
    {
        match self {
            Node::Free(name, ty) => View::Free(name, ty),
            Node::Bound(index) => View::Bound(*index),
            Node::Const(name, types) => View::Const(name, types),
            Node::App(function, argument) => View::App(*function, *argument),
            Node::Lam(ty, body) => View::Lam(ty, *body),
        }
    }
}
