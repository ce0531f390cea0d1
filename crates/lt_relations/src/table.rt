//! Things under names.
ghost use Rattle.std.specs.Prelude.{◌≡◌, [], ◌∷◌, ◌++◌, length, take, false, is_some, OnOk, OnErr};
ghost use Rattle.std.specs.Option.{option_copied};
ghost use Rattle.lt_definitions.specs.Types.{found};

use indexmap::IndexMap;
use lt_hol::{Memory, Name};
use std::alloc::Global;
use std::marker::Model;

/// Things under names, in the order in which they were added; no name has two.
///
/// A look-up takes constant time.
#[derive(Debug, Drop)]
pub(crate) struct Table<T> {
    entries: IndexMap<Name, T>,
}

impl<T> Model for Table<T> {
    ghost use Rattle.std.specs.Prelude.{List, ℕ};
    ghost use Rattle.std.specs.Coded.{coded_list, coded×, coded_ℕ};

    ghost Value = { List (List ℕ × T) };

    ghost coded = { coded_list (coded× (coded_list coded_ℕ) T.code) };

    ghost view = { λ t. t.entries.entries };
}

impl<T> Table<T> {
    /// No things.
    pub(crate) fn new(alloc: Global) -> Table<T>
        ensures { result ≡ [] }
    {
        Table {
            entries: IndexMap::new(alloc),
        }
    }

    /// How many things there are.
    pub(crate) fn len(&self) -> usize
        ensures { result ≡ length self.now }
    {
        self.entries.len()
    }

    /// The thing of a name.
    pub(crate) fn get(&self, name: &Name) -> Option<&T>
        ensures { option_copied result ≡ found name.now self.now }
    {
        self.entries.get(name)
    }

    /// Whether a name has a thing.
    pub(crate) fn has(&self, name: &Name) -> bool
        ensures { result ≡ is_some (found name.now self.now) }
    {
        self.get(name).is_some()
    }
}

impl<T: Drop> Table<T> {
    /// Adds a thing under a name that has none.
    pub(crate) fn add(&mut self, name: Name, thing: T) -> Result<(), Memory>
        requires { is_some (found name self.old) ≡ false }
        ensures ok { OnOk result (self.new ≡ self.old ++ (name, thing) ∷ []) }
        ensures err { OnErr result (self.new ≡ self.old) }
    {
        self.entries.insert(name, thing)?;
        Ok(())
    }

    /// Drops the things behind the first so many.
    pub(crate) fn cut(&mut self, count: usize)
        ensures { self.new ≡ take count self.old }
    {
        self.entries.truncate(count);
    }
}
