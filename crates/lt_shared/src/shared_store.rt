//! A store that keeps each node once.
ghost use Rattle.std.specs.Prelude.{◌≡◌, ◌<◌, ℕ, List, [], length, slice_get, Some, IfOk, IfSome};
ghost use Rattle.lt_store.specs.declared.node.Node.{Node};
ghost use Rattle.lt_store.specs.Bounds.{IsBounded, AreBounded};
ghost use Rattle.lt_store.specs.Replaced.{AreReplaced, IsReplacing};
ghost use Rattle.lt_store.specs.Trees.{Extends, IsBelow, Makes, node_tree, tree_at};
ghost use Rattle.lt_store.specs.Views.{node_of};

use crate::distinct::Distinct;
use lt_hol::{Memory, Name, Ty, Tys};
use lt_store::{Bounds, Id, Memo, Node, Replacing, TermStore, View};
use std::alloc::Global;
use std::marker::Model;

/// Distinct nodes: a node that was made before is found again, so that each term stands once and
/// `same` compares two numbers.
///
/// The bounds of each node's term stand beside it, so that a pass doesn't go into a term that it
/// can't change. Where memory ran out between a node and its bounds, they are wanting from it on.
/// What the last replacement of a free variable made is kept, too.
#[derive(Debug, Drop)]
pub struct SharedStore {
    nodes: Distinct,
    bounds: Vec<Bounds>,
    replaced: Option<Replacing>,
}

impl Model for SharedStore {
    ghost use Rattle.std.specs.Prelude.{List, IfSome};
    ghost use Rattle.lt_store.specs.declared.node.Node.{Node};
    ghost use Rattle.lt_store.specs.Bounds.{AreBounded};
    ghost use Rattle.lt_store.specs.Replaced.{IsReplacing};

    ghost Value = { List Node };

    ghost use Rattle.std.specs.Coded.{coded_list, codes};
    ghost use Rattle.lt_types.specs.Codes.{coded_type};

    ghost coded = { coded_list (Prim.hlevel (codes, coded_type)) };

    ghost view = { λ s. s.nodes };

    ghost invariant = { λ s. record { bounded : AreBounded s.nodes s.bounds.items; replaced : IfSome s.replaced (IsReplacing s.nodes) } };
}

impl SharedStore {
    /// The store without nodes. It takes no memory.
    pub fn new(alloc: Global) -> SharedStore
        ensures { result ≡ [] }
    {
        SharedStore {
            nodes: Distinct::new(alloc),
            bounds: Vec::new(alloc),
            replaced: None,
        }
    }

    /// The id of a node, which is added where it isn't there yet.
    fn add(&mut self, node: Node) -> Result<Id, Memory>
        requires { IsBelow (length self.old) node }
        ensures ok { IfOk result (Makes self.old self.new node) }
        ensures kept { Extends self.old self.new }
    {
        let id = self.nodes.insert(node)?;
        note(&self.nodes, &mut self.bounds, id)?;
        Ok(id)
    }
}

/// Adds the bounds of a node's term, where they are known and the next to be added.
fn note(nodes: &Distinct, bounds: &mut Vec<Bounds>, id: Id) -> Result<(), Memory>
    requires id { id < length nodes.now }
    requires bounded { AreBounded nodes.now bounds.old.items }
    ensures { AreBounded nodes.now bounds.new.items }
{
    if id != bounds.len() {
        return Ok(());
    }
    let Some(known) = Bounds::of_node(nodes.view(id), bounds.as_slice()) else {
        return Ok(());
    };
    bounds.push(known)?;
    Ok(())
}

impl TermStore for SharedStore {
    ghost nodes = { λ s. s };

    fn len(&self) -> usize {
        self.nodes.len()
    }

    /// The node of an id. No other id has it.
    fn view(&self, id: Id) -> View<'_>
        requires { id < length self.now }
        ensures node { slice_get self.now id ≡ Some (node_of result) }
        ensures below { IsBelow id (node_of result) }
        ensures stands { tree_at self.now id ≡ node_tree self.now (node_of result) }
        ensures once { (other : ℕ) → slice_get self.now other ≡ Some (node_of result) → other ≡ id }
    {
        self.nodes.view(id)
    }

    /// The bounds that stand beside the node.
    fn bounds(&self, id: Id) -> Option<Bounds> {
        self.bounds.get(id).copied()
    }

    fn mk_free(&mut self, _alloc: Global, name: Name, ty: Ty) -> Result<Id, Memory> {
        self.add(Node::Free(name, ty))
    }

    fn mk_bound(&mut self, _alloc: Global, index: usize) -> Result<Id, Memory> {
        self.add(Node::Bound(index))
    }

    fn mk_const(&mut self, _alloc: Global, name: Name, types: Tys) -> Result<Id, Memory> {
        self.add(Node::Const(name, types))
    }

    fn mk_app(&mut self, _alloc: Global, f: Id, a: Id) -> Result<Id, Memory> {
        self.add(Node::App(f, a))
    }

    fn mk_lam(&mut self, _alloc: Global, ty: Ty, body: Id) -> Result<Id, Memory> {
        self.add(Node::Lam(ty, body))
    }

    fn take_replaced(&mut self, name: &Name, ty: &Ty, by: Id) -> Option<Memo> {
        let last = self.replaced.take();
        made_by(last, name, ty, by)
    }

    fn keep_replaced(&mut self, replacing: Replacing) {
        self.replaced = Some(replacing);
    }

    /// Whether the two ids are one, which takes constant time.
    fn same(&self, _alloc: Global, a: Id, b: Id) -> Result<bool, Memory> {
        Ok(self.nodes.same(a, b))
    }
}

/// What was made by a replacement, if it is this one.
fn made_by(last: Option<Replacing>, name: &Name, ty: &Ty, by: Id) -> Option<Memo>
    ensures { (ns : List Node) → IfSome last (IsReplacing ns)
        → IfSome result (AreReplaced ns name.now ty.now by) }
{
    let Some(last) = last else {
        return None;
    };
    if last.is_of(name, ty, by) {
        Some(last.made)
    } else {
        None
    }
}
