//! Nodes of which none stands twice.
ghost use Rattle.std.specs.Prelude.{◌≡◌, ◌↔◌, ◌<◌, ℕ, [], length, slice_get, Some, IfOk, IsTrue};
ghost use Rattle.lt_store.specs.Trees.{Extends, IsBelow, Makes, node_tree, tree_at};
ghost use Rattle.lt_store.specs.Views.{node_of};

use indexmap::IndexSet;
use lt_hol::Memory;
use lt_store::{Id, Node, View};
use std::alloc::Global;
use std::marker::Model;

/// The nodes as keys of a set, in the order in which they were first made, each behind those of its
/// parts.
#[derive(Debug, Drop)]
pub(crate) struct Distinct {
    set: IndexSet<Node>,
}

impl Model for Distinct {
    ghost use Rattle.std.specs.Prelude.{List};
    ghost use Rattle.lt_store.specs.declared.node.Node.{Node};
    ghost use Rattle.lt_store.specs.Trees.{IsGrounded};
    ghost use Rattle.lt_shared.specs.Separate.{IsSeparate};

    ghost Value = { List Node };

    ghost use Rattle.std.specs.Coded.{coded_list, codes};
    ghost use Rattle.lt_types.specs.Codes.{coded_type};

    ghost coded = { coded_list (Prim.hlevel (codes, coded_type)) };

    ghost view = { λ d. d.set.keys };

    ghost invariant = { λ d. record { grounded : IsGrounded d.set.keys; separate : IsSeparate d.set.keys } };
}

impl Distinct {
    /// No nodes. It takes no memory.
    pub(crate) fn new(alloc: Global) -> Distinct
        ensures { result ≡ [] }
    {
        Distinct {
            set: IndexSet::new(alloc),
        }
    }

    /// How many there are.
    pub(crate) fn len(&self) -> usize
        ensures { result ≡ length self.now }
    {
        self.set.len()
    }

    /// The place of a node, which is added where it isn't there yet.
    pub(crate) fn insert(&mut self, node: Node) -> Result<Id, Memory>
        requires { IsBelow (length self.old) node }
        ensures ok { IfOk result (Makes self.old self.new node) }
        ensures kept { Extends self.old self.new }
    {
        let (id, _) = self.set.insert_full(node)?;
        Ok(id)
    }

    /// The node at a place. It stands at no other.
    pub(crate) fn view(&self, id: Id) -> View<'_>
        requires { id < length self.now }
        ensures node { slice_get self.now id ≡ Some (node_of result) }
        ensures below { IsBelow id (node_of result) }
        ensures stands { tree_at self.now id ≡ node_tree self.now (node_of result) }
        ensures once { (other : ℕ) → slice_get self.now other ≡ Some (node_of result) → other ≡ id }
    {
        self.set[id].view()
    }

    /// Whether two places have one term, which is whether they are one place.
    pub(crate) fn same(&self, a: Id, b: Id) -> bool
        requires a { a < length self.now }
        requires b { b < length self.now }
        ensures { IsTrue result ↔ (tree_at self.now a ≡ tree_at self.now b) }
    {
        let _ = &self.set;
        a == b
    }
}
