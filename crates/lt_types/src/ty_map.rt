//! Maps from type variables to types.
ghost use Rattle.std.specs.Prelude.{◌≡◌, ◌<◌, ◌^◌, [], OnOk, OnErr, true, length, map, slice_get, Some};
ghost use Rattle.std.specs.Option.{option_copied};
ghost use Rattle.lt_definitions.specs.Types.{are_distinct, found};
ghost use Rattle.lt_types.specs.Maps.{with_pair};

use crate::list::TryCopy;
use crate::memory::Memory;
use crate::name::Name;
use crate::ty::Ty;
use indexmap::IndexMap;
use std::alloc::Global;
use std::marker::Model;

/// Types for type variables, which contracts see as a list of pairs, one for a name.
///
/// A look-up takes constant time.
#[derive(Debug, Drop)]
pub struct TyMap {
    pairs: IndexMap<Name, Ty>,
}

impl Model for TyMap {
    ghost use Rattle.std.specs.Prelude.{List, ℕ};
    ghost use Rattle.std.specs.Coded.{coded_list, coded×, coded_ℕ};
    ghost use Rattle.lt_definitions.specs.Types.{Chars, TypeTree};
    ghost use Rattle.lt_types.specs.Codes.{coded_type};

    ghost Value = { List (List ℕ × TypeTree) };

    ghost coded = { coded_list (coded× (coded_list coded_ℕ) coded_type) };

    ghost view = { λ m. m.pairs.entries };
}

impl TyMap {
    /// The empty map.
    pub fn new(alloc: Global) -> TyMap
        ensures { result ≡ [] }
    {
        TyMap {
            pairs: IndexMap::new(alloc),
        }
    }

    /// How many pairs there are.
    pub fn len(&self) -> usize
        ensures len { result ≡ length self.now }
        ensures small { result < 2 ^ 63 }
        ensures unique { are_distinct (map (λ p. p.0) self.now) ≡ true }
    {
        self.pairs.len()
    }

    /// The pair at a place, from 0, which is that of its name.
    pub fn at(&self, i: usize) -> (&Name, &Ty)
        requires { i < length self.now }
        ensures pair { slice_get self.now i ≡ Some (result.0.now, result.1.now) }
        ensures of_name { found result.0.now self.now ≡ Some result.1.now }
        ensures unique { are_distinct (map (λ p. p.0) self.now) ≡ true }
    {
        match self.pairs.as_slice().get_index(i) {
            Some(pair) => pair,
            None => unreachable!(),
        }
    }

    /// Sets the pair of a name: in its place where there is one, else at the end.
    pub fn put(&mut self, _alloc: Global, name: Name, ty: Ty) -> Result<(), Memory>
        ensures ok { OnOk result (self.new ≡ with_pair name ty self.old) }
        ensures err { OnErr result (self.new ≡ self.old) }
    {
        self.pairs.insert(name, ty)?;
        Ok(())
    }

    /// The type of a name's pair.
    pub fn get(&self, name: &Name) -> Option<&Ty>
        ensures { option_copied result ≡ found name.now self.now }
    {
        self.pairs.get(name)
    }
}

impl TryCopy for TyMap {
    fn copy(&self, alloc: Global) -> Result<TyMap, Memory> {
        let mut map = TyMap::new(alloc);
        for i in 0..self.len() {
            let (name, ty) = self.at(i);
            map.put(alloc, name.copy(alloc)?, ty.copy(alloc)?)?;
        }
        Ok(map)
    }
}
