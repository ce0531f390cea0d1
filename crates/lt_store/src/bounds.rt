//! What a store knows of a term beside its node.
ghost use Rattle.std.specs.Prelude.{List, IfSome};
ghost use Rattle.lt_nameless.specs.Nameless.{Nameless, nameless_bound, nameless_application, nameless_abstraction};
ghost use Rattle.lt_definitions.specs.Types.{TypeTree};
ghost use Rattle.lt_store.specs.declared.node.Node.{Node};
ghost use Rattle.lt_store.specs.Bounds.{IsBounded, AreBounded};
ghost use Rattle.lt_store.specs.Trees.{node_tree};
ghost use Rattle.lt_store.specs.Views.{node_of};

use crate::node::View;

/// A number of binders under which each bound name of a term has its own, and the length of the
/// longest name of a free variable in it, 0 where there is none.
#[derive(Clone, Copy, Debug)]
pub struct Bounds {
    pub binders: usize,
    pub names: usize,
}

impl Bounds {
    /// The bounds of a node's term, from those of the terms that stand before it, by their ids.
    ///
    /// None where a child isn't among these, or where the bounds don't fit.
    pub fn of_node(view: View<'_>, known: &[Bounds]) -> Option<Bounds>
        ensures { (ns : List Node) → AreBounded ns known.now
            → IfSome result (IsBounded (node_tree ns (node_of view.entry))) }
    {
        match view {
            View::Free(name, _) => Some(Bounds {
                binders: 0,
                names: name.len(),
            }),
            View::Bound(index) => Bounds::of_index(index),
            View::Const(_, _) => Some(Bounds {
                binders: 0,
                names: 0,
            }),
            View::App(f, a) => {
                let Some(function) = known.get(f) else {
                    return None;
                };
                let Some(argument) = known.get(a) else {
                    return None;
                };
                Some(function.joined(*argument))
            }
            View::Lam(_, body) => {
                let Some(body) = known.get(body) else {
                    return None;
                };
                Some(body.covered())
            }
        }
    }

    /// Those of a bound name.
    fn of_index(index: usize) -> Option<Bounds>
        ensures { IfSome result (IsBounded (nameless_bound index)) }
    {
        match index.checked_add(1) {
            Some(binders) => Some(Bounds { binders, names: 0 }),
            None => None,
        }
    }

    /// Those of an application.
    fn joined(self, argument: Bounds) -> Bounds
        ensures { (f a : Nameless) → IsBounded f self → IsBounded a argument
            → IsBounded (nameless_application f a) result }
    {
        Bounds {
            binders: self.binders.max(argument.binders),
            names: self.names.max(argument.names),
        }
    }

    /// Those of an abstraction.
    fn covered(self) -> Bounds
        ensures { (b : Nameless) (ty : TypeTree) → IsBounded b self
            → IsBounded (nameless_abstraction ty b) result }
    {
        Bounds {
            binders: self.binders.saturating_sub(1),
            names: self.names,
        }
    }
}
