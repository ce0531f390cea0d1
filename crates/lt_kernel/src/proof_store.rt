//! A proof as a store itself: that of its terms. What is declared, the named statements and the lines stay.
ghost use Rattle.std.specs.Prelude.{◌<◌, length, IfOk};
ghost use Rattle.lt_store.specs.declared.node.Node.TheVariants.{Free, Bound, Const, App, Lam};
ghost use Rattle.lt_store.specs.Trees.{Extends, Makes};
ghost use Rattle.lt_kernel.specs.State.{Keeps};
ghost use Rattle.lt_kernel.specs.Growing.{Carries};

use crate::proof::Proof;
use lt_hol::{Memory, Name, Ty, Tys};
use lt_store::{Bounds, Id, Memo, Replacing, TermStore, View};
use std::alloc::Global;

impl<S: TermStore> TermStore for Proof<S> {
    ghost nodes = { λ p. p.nodes };

    fn len(&self) -> usize {
        self.store.len()
    }

    fn view(&self, id: Id) -> View<'_> {
        self.store.view(id)
    }

    fn bounds(&self, id: Id) -> Option<Bounds> {
        self.store.bounds(id)
    }

    fn mk_free(&mut self, alloc: Global, name: Name, ty: Ty) -> Result<Id, Memory>
        ensures ok { IfOk result (Makes self.old.nodes self.new.nodes (Free name ty)) }
        ensures kept { Extends self.old.nodes self.new.nodes }
        ensures keeps { Keeps self.old self.new }
        ensures carries { Carries self.old self.new }
    {
        self.store.mk_free(alloc, name, ty)
    }

    fn mk_bound(&mut self, alloc: Global, index: usize) -> Result<Id, Memory>
        ensures ok { IfOk result (Makes self.old.nodes self.new.nodes (Bound index)) }
        ensures kept { Extends self.old.nodes self.new.nodes }
        ensures keeps { Keeps self.old self.new }
        ensures carries { Carries self.old self.new }
    {
        self.store.mk_bound(alloc, index)
    }

    fn mk_const(&mut self, alloc: Global, name: Name, types: Tys) -> Result<Id, Memory>
        ensures ok { IfOk result (Makes self.old.nodes self.new.nodes (Const name types)) }
        ensures kept { Extends self.old.nodes self.new.nodes }
        ensures keeps { Keeps self.old self.new }
        ensures carries { Carries self.old self.new }
    {
        self.store.mk_const(alloc, name, types)
    }

    fn mk_app(&mut self, alloc: Global, f: Id, a: Id) -> Result<Id, Memory>
        requires f { f < length self.old.nodes }
        requires a { a < length self.old.nodes }
        ensures ok { IfOk result (Makes self.old.nodes self.new.nodes (App f a)) }
        ensures kept { Extends self.old.nodes self.new.nodes }
        ensures keeps { Keeps self.old self.new }
        ensures carries { Carries self.old self.new }
    {
        self.store.mk_app(alloc, f, a)
    }

    fn mk_lam(&mut self, alloc: Global, ty: Ty, body: Id) -> Result<Id, Memory>
        requires { body < length self.old.nodes }
        ensures ok { IfOk result (Makes self.old.nodes self.new.nodes (Lam ty body)) }
        ensures kept { Extends self.old.nodes self.new.nodes }
        ensures keeps { Keeps self.old self.new }
        ensures carries { Carries self.old self.new }
    {
        self.store.mk_lam(alloc, ty, body)
    }

    fn take_replaced(&mut self, name: &Name, ty: &Ty, by: Id) -> Option<Memo> {
        self.store.take_replaced(name, ty, by)
    }

    fn keep_replaced(&mut self, replacing: Replacing) {
        self.store.keep_replaced(replacing);
    }

    fn same(&self, alloc: Global, a: Id, b: Id) -> Result<bool, Memory> {
        self.store.same(alloc, a, b)
    }
}
