//! The binders around a place of a term.
ghost use Rattle.std.specs.Prelude.{◌≡◌, ◌∷◌, [], length, drop, IfOk};
ghost use Rattle.lt_syntax.specs.Depths.{depth_of};

use indexmap::IndexMap;
use lt_hol::{Memory, Name, TryCopy};
use std::alloc::Global;
use std::marker::Model;

/// Open binders, which contracts see as the list of their names, the innermost first.
///
/// A look-up takes constant time, however many binders are open.
#[derive(Debug, Drop)]
pub(crate) struct Binders {
    /// Each binder with the depth that its name has outside of it.
    entered: Vec<(Name, Option<usize>)>,
    depths: IndexMap<Name, Option<usize>>,
}

impl Model for Binders {
    ghost use Rattle.std.specs.Prelude.{List, ℕ, []};
    ghost use Rattle.std.specs.Coded.{coded_list, coded_ℕ};

    ghost Value = { List (List ℕ) };

    ghost coded = { coded_list (coded_list coded_ℕ) };

    ghost use Rattle.lt_syntax.specs.Depths.{names_of, IsKept};

    ghost view = { λ b. names_of b.entered.items [] };

    ghost invariant = { λ b. IsKept b.entered.items b.depths.entries };
}

impl Binders {
    /// No binders.
    pub(crate) fn new(alloc: Global) -> Binders
        ensures { result ≡ [] }
    {
        Binders {
            entered: Vec::new(alloc),
            depths: IndexMap::new(alloc),
        }
    }

    /// How many binders are open.
    pub(crate) fn len(&self) -> usize
        ensures { result ≡ length self.now }
    {
        self.entered.len()
    }

    /// The depth of the innermost binder with this name, counted from 0 outside.
    pub(crate) fn depth_of(&self, name: &Name) -> Option<usize>
        ensures { result ≡ depth_of name.now self.now }
    {
        match self.depths.get(name) {
            Some(depth) => *depth,
            None => None,
        }
    }

    /// One more binder within the others.
    pub(crate) fn enter(self, alloc: Global, name: &Name) -> Result<Binders, Memory>
        ensures { IfOk result (λ b. b ≡ name.now ∷ self) }
    {
        let outer = self.depth_of(name);
        let Binders {
            mut entered,
            mut depths,
        } = self;
        depths.insert(name.copy(alloc)?, Some(entered.len()))?;
        entered.push((name.copy(alloc)?, outer))?;
        Ok(Binders { entered, depths })
    }

    /// The binders without the innermost.
    pub(crate) fn leave(self) -> Result<Binders, Memory>
        ensures { IfOk result (λ b. b ≡ drop 1 self) }
    {
        let Binders {
            mut entered,
            mut depths,
        } = self;
        match entered.pop() {
            Some((name, outer)) => {
                depths.insert(name, outer)?;
                Ok(Binders { entered, depths })
            }
            None => Ok(Binders { entered, depths }),
        }
    }
}
