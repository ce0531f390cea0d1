//! What a store of terms promises.
ghost use Rattle.std.specs.Prelude.{◌≡◌, ◌<◌, ◌↔◌, List, length, Some, slice_get, IfOk, IfSome, IsTrue};
ghost use Rattle.lt_store.specs.declared.node.Node.{Node};
ghost use Rattle.lt_store.specs.declared.node.Node.TheVariants.{Free, Bound, Const, App, Lam};
ghost use Rattle.lt_store.specs.Trees.{Extends, Makes, IsBelow, node_tree, tree_at};
ghost use Rattle.lt_store.specs.Bounds.{IsBounded};
ghost use Rattle.lt_store.specs.Replaced.{AreReplaced, IsReplacing};
ghost use Rattle.lt_store.specs.Views.{node_of};

use crate::bounds::Bounds;
use crate::memo::Memo;
use crate::node::{Id, View};
use crate::replacing::Replacing;
use lt_hol::{Memory, Name, Ty, Tys};
use std::alloc::Global;

/// A store of terms, which are told by their ids.
///
/// An id stands for a term without binder names, which is one form of all alpha-equal terms.
/// What an id stands for never changes. Each `mk_*` answers an id of what it was given, or that it
/// is out of memory; the nodes that were there stay either way.
pub trait TermStore: Drop {
    /// The nodes, each behind its children; the place of a node is its id.
    ghost nodes: { Self → List Node };

    /// How many nodes there are: each id is below it.
    fn len(&self) -> usize
        ensures { result ≡ length (nodes self.now) };

    /// The node of an id.
    fn view(&self, id: Id) -> View<'_>
        requires { id < length (nodes self.now) }
        ensures node { slice_get (nodes self.now) id ≡ Some (node_of result) }
        ensures below { IsBelow id (node_of result) }
        ensures stands { tree_at (nodes self.now) id ≡ node_tree (nodes self.now) (node_of result) };

    /// What the store knows of the term of an id beside its node, so that a pass needn't go into
    /// it; None where it knows nothing. It takes constant time.
    fn bounds(&self, id: Id) -> Option<Bounds>
        requires { id < length (nodes self.now) }
        ensures { IfSome result (IsBounded (tree_at (nodes self.now) id)) };

    /// A free variable.
    fn mk_free(&mut self, alloc: Global, name: Name, ty: Ty) -> Result<Id, Memory>
        ensures ok { IfOk result (Makes (nodes self.old) (nodes self.new) (Free name ty)) }
        ensures kept { Extends (nodes self.old) (nodes self.new) };

    /// A bound name, as the number of binders between it and its own.
    fn mk_bound(&mut self, alloc: Global, index: usize) -> Result<Id, Memory>
        ensures ok { IfOk result (Makes (nodes self.old) (nodes self.new) (Bound index)) }
        ensures kept { Extends (nodes self.old) (nodes self.new) };

    /// A constant with its type arguments.
    fn mk_const(&mut self, alloc: Global, name: Name, types: Tys) -> Result<Id, Memory>
        ensures ok { IfOk result (Makes (nodes self.old) (nodes self.new) (Const name types)) }
        ensures kept { Extends (nodes self.old) (nodes self.new) };

    /// The application of `f` to `a`.
    fn mk_app(&mut self, alloc: Global, f: Id, a: Id) -> Result<Id, Memory>
        requires f { f < length (nodes self.old) }
        requires a { a < length (nodes self.old) }
        ensures ok { IfOk result (Makes (nodes self.old) (nodes self.new) (App f a)) }
        ensures kept { Extends (nodes self.old) (nodes self.new) };

    /// The abstraction of `body` over a binder of the type.
    fn mk_lam(&mut self, alloc: Global, ty: Ty, body: Id) -> Result<Id, Memory>
        requires { body < length (nodes self.old) }
        ensures ok { IfOk result (Makes (nodes self.old) (nodes self.new) (Lam ty body)) }
        ensures kept { Extends (nodes self.old) (nodes self.new) };

    /// Takes out what was kept of the last replacement of a free variable, if it is this one.
    fn take_replaced(&mut self, name: &Name, ty: &Ty, by: Id) -> Option<Memo>
        ensures kept { nodes self.new ≡ nodes self.old }
        ensures is { IfSome result (AreReplaced (nodes self.new) name.now ty.now by) };

    /// Keeps what a replacement made, in place of what was kept of the one before.
    fn keep_replaced(&mut self, replacing: Replacing)
        requires { IsReplacing (nodes self.old) replacing }
        ensures { nodes self.new ≡ nodes self.old };

    /// Whether the two ids stand for alpha-equal terms.
    fn same(&self, alloc: Global, a: Id, b: Id) -> Result<bool, Memory>
        requires a { a < length (nodes self.now) }
        requires b { b < length (nodes self.now) }
        ensures { IfOk result (λ yes. IsTrue yes ↔ (tree_at (nodes self.now) a ≡ tree_at (nodes self.now) b)) };
}
