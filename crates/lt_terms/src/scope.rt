//! The binders around a node of a term.
ghost use Rattle.std.specs.Prelude.{◌≡◌, ◌∷◌, [], length, drop, IfOk};
ghost use Rattle.lt_terms.specs.BoundNames.{binder_of};
ghost use Rattle.lt_terms.specs.Scopes.{opening_of, binder_at};

use crate::bound_names::Binder;
use crate::term::TermNode;
use indexmap::IndexMap;
use lt_types::{Memory, Name, TryCopy};
use std::alloc::Global;
use std::marker::Model;

/// An open binder: its place, and how many binders are around it.
#[derive(Clone, Copy, Debug)]
pub(crate) struct Opening {
    pub place: usize,
    pub depth: usize,
}

/// A name that was bound, and the binder that it has outside of this one.
#[derive(Debug, Drop)]
pub(crate) struct Entered {
    pub name: Name,
    pub place: usize,
    pub outside: Option<Opening>,
}

/// Open binders, which contracts see as the list of their names and places, the innermost first.
///
/// A look-up takes constant time, however many binders are open.
#[derive(Debug, Drop)]
pub(crate) struct Scope {
    entered: Vec<Entered>,
    innermost: IndexMap<Name, Option<Opening>>,
}

impl Model for Scope {
    ghost use Rattle.std.specs.Prelude.{List, ℕ, []};
    ghost use Rattle.std.specs.Coded.{coded_list, coded×, coded_ℕ};

    ghost Value = { List (List ℕ × ℕ) };

    ghost coded = { coded_list (coded× (coded_list coded_ℕ) coded_ℕ) };

    ghost use Rattle.lt_terms.specs.Scopes.{places_of, IsKept};

    ghost view = { λ s. places_of s.entered.items [] };

    ghost invariant = { λ s. IsKept s.entered.items s.innermost.entries };
}

impl Scope {
    /// No binders.
    pub(crate) fn new(alloc: Global) -> Scope
        ensures { result ≡ [] }
    {
        Scope {
            entered: Vec::new(alloc),
            innermost: IndexMap::new(alloc),
        }
    }

    /// How many binders are open.
    pub(crate) fn len(&self) -> usize
        ensures { result ≡ length self.now }
    {
        self.entered.len()
    }

    /// The innermost binder of a name, as it was opened.
    fn opening_of(&self, name: &Name) -> Option<Opening>
        ensures { result ≡ opening_of name.now self.now }
    {
        match self.innermost.get(name) {
            Some(opening) => *opening,
            None => None,
        }
    }

    /// The innermost binder of a name.
    fn binder_of(&self, name: &Name) -> Option<Binder>
        ensures { result ≡ binder_of name.now self.now }
    {
        match self.opening_of(name) {
            Some(opening) => Some(Binder {
                place: opening.place,
                index: self.len() - 1 - opening.depth,
            }),
            None => None,
        }
    }

    /// The binder of a node, if it is a bound name that has one.
    pub(crate) fn binder_at(&self, node: &TermNode) -> Option<Binder>
        ensures { result ≡ binder_at self.now node.now }
    {
        match node {
            TermNode::Bound(name) => self.binder_of(name),
            _ => None,
        }
    }

    /// One more binder within the others.
    pub(crate) fn enter(self, alloc: Global, name: &Name, place: usize) -> Result<Scope, Memory>
        ensures { IfOk result (λ s. s ≡ (name.now, place) ∷ self) }
    {
        let outside = self.opening_of(name);
        let Scope {
            mut entered,
            mut innermost,
        } = self;
        let opening = Opening {
            place,
            depth: entered.len(),
        };
        innermost.insert(name.copy(alloc)?, Some(opening))?;
        entered.push(Entered {
            name: name.copy(alloc)?,
            place,
            outside,
        })?;
        Ok(Scope { entered, innermost })
    }

    /// The binders without the innermost.
    pub(crate) fn leave(self) -> Result<Scope, Memory>
        ensures { IfOk result (λ s. s ≡ drop 1 self) }
    {
        let Scope {
            mut entered,
            mut innermost,
        } = self;
        match entered.pop() {
            Some(last) => {
                innermost.insert(last.name, last.outside)?;
                Ok(Scope { entered, innermost })
            }
            None => Ok(Scope { entered, innermost }),
        }
    }
}
