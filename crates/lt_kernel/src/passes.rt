//! The passes over a proof's own terms. What is declared, the named statements and the lines stay.
ghost use Rattle.std.specs.Prelude.{◌<◌, length};
ghost use Rattle.lt_nameless.specs.Nameless.{nameless_abstraction};
ghost use Rattle.lt_nameless.specs.NamelessRules.{instance_at, abstracted, nameless_instance};
ghost use Rattle.lt_store.specs.Building.{Builds};
ghost use Rattle.lt_store.specs.Trees.{tree_at};
ghost use Rattle.lt_kernel.specs.State.{Keeps};
ghost use Rattle.lt_kernel.specs.Growing.{Carries};

use crate::proof::Proof;
use lt_hol::{Memory, Name, TryCopy, Ty, TyMap};
use lt_store::{Id, TermStore, abstract_free, instantiate, type_instance};
use std::alloc::Global;

impl<S: TermStore> Proof<S> {
    /// The body of an abstraction opened by a term, as lt_store's `instantiate`.
    pub fn instantiate(&mut self, alloc: Global, body: Id, by: Id) -> Result<Id, Memory>
        requires body { body < length self.old.nodes }
        requires by { by < length self.old.nodes }
        ensures keeps { Keeps self.old self.new }
        ensures carries { Carries self.old self.new }
        ensures builds { Builds self.old.nodes self.new.nodes result
            (instance_at 0 (tree_at self.old.nodes by) (tree_at self.old.nodes body)) }
    {
        let made = instantiate(alloc, &mut self.store, body, by)?;
        Ok(made)
    }

    /// The body that closes a term over a free variable, as lt_store's `abstract_free`.
    pub fn abstract_free(
        &mut self,
        alloc: Global,
        t: Id,
        name: &Name,
        ty: &Ty,
    ) -> Result<Id, Memory>
        requires { t < length self.old.nodes }
        ensures keeps { Keeps self.old self.new }
        ensures carries { Carries self.old self.new }
        ensures builds { Builds self.old.nodes self.new.nodes result
            (abstracted 0 name.now ty.now (tree_at self.old.nodes t)) }
    {
        let made = abstract_free(alloc, &mut self.store, t, name, ty)?;
        Ok(made)
    }

    /// The term with types put for its type variables, as lt_store's `type_instance`.
    pub fn put_types(&mut self, alloc: Global, t: Id, by: &TyMap) -> Result<Id, Memory>
        requires { t < length self.old.nodes }
        ensures keeps { Keeps self.old self.new }
        ensures carries { Carries self.old self.new }
        ensures builds { Builds self.old.nodes self.new.nodes result
            (nameless_instance by.now (tree_at self.old.nodes t)) }
    {
        let made = type_instance(alloc, &mut self.store, t, by)?;
        Ok(made)
    }

    /// The abstraction of a term over a free variable.
    pub fn close(&mut self, alloc: Global, name: &Name, ty: &Ty, t: Id) -> Result<Id, Memory>
        requires { t < length self.old.nodes }
        ensures keeps { Keeps self.old self.new }
        ensures carries { Carries self.old self.new }
        ensures builds { Builds self.old.nodes self.new.nodes result
            (nameless_abstraction ty.now (abstracted 0 name.now ty.now
            (tree_at self.old.nodes t))) }
    {
        let body = self.abstract_free(alloc, t, name, ty)?;
        let made = self.mk_lam(alloc, ty.copy(alloc)?, body)?;
        Ok(made)
    }
}
