//! A store that makes each node anew.
ghost use Rattle.std.specs.Prelude.{◌≡◌, ◌<◌, [], length, IfOk};
ghost use Rattle.lt_store.specs.declared.node.Node.{Node};
ghost use Rattle.lt_store.specs.declared.node.Node.TheVariants.{Free, Bound, Const, App, Lam};
ghost use Rattle.lt_store.specs.Trees.{Makes, Appends, IsBelow, Extends};

use crate::bounds::Bounds;
use crate::memo::Memo;
use crate::node::{Id, Node, View};
use crate::replacing::Replacing;
use crate::same::is_same;
use crate::term_store::TermStore;
use lt_hol::{Memory, Name, Ty, Tys};
use std::alloc::Global;
use std::marker::Model;

/// A vector of nodes, each made anew.
///
/// `same` takes time linear in the pairs of nodes that lie at one path of both terms, each pair once.
#[derive(Debug, Drop)]
pub struct PlainStore {
    nodes: Vec<Node>,
}

impl Model for PlainStore {
    ghost use Rattle.std.specs.Prelude.{List};
    ghost use Rattle.lt_store.specs.declared.node.Node.{Node};
    ghost use Rattle.lt_store.specs.Trees.{IsGrounded};

    ghost Value = { List Node };

    ghost use Rattle.std.specs.Coded.{coded_list, codes};
    ghost use Rattle.lt_types.specs.Codes.{coded_type};

    ghost coded = { coded_list (Prim.hlevel (codes, coded_type)) };

    ghost view = { λ s. s.nodes.items };

    ghost invariant = { λ s. IsGrounded s.nodes.items };
}

impl PlainStore {
    /// The store without nodes. It takes no memory.
    pub fn new(alloc: Global) -> PlainStore
        ensures { result ≡ [] }
    {
        PlainStore {
            nodes: Vec::new(alloc),
        }
    }

    /// Adds a node.
    fn add(&mut self, node: Node) -> Result<Id, Memory>
        requires { IsBelow (length self.old) node }
        ensures ok { IfOk result (Makes self.old self.new node) }
        ensures kept { Extends self.old self.new }
        ensures anew { IfOk result (Appends self.old self.new node) }
    {
        let id = self.nodes.len();
        self.nodes.push(node)?;
        Ok(id)
    }
}

impl TermStore for PlainStore {
    ghost nodes = { λ s. s };

    fn len(&self) -> usize {
        self.nodes.len()
    }

    fn view(&self, id: Id) -> View<'_> {
        self.nodes[id].view()
    }

    /// None: nothing is kept beside the nodes.
    fn bounds(&self, _id: Id) -> Option<Bounds> {
        None
    }

    fn mk_free(&mut self, _alloc: Global, name: Name, ty: Ty) -> Result<Id, Memory>
        ensures ok { IfOk result (Makes self.old self.new (Free name ty)) }
        ensures kept { Extends self.old self.new }
        ensures anew { IfOk result (Appends self.old self.new (Free name ty)) }
    {
        self.add(Node::Free(name, ty))
    }

    fn mk_bound(&mut self, _alloc: Global, index: usize) -> Result<Id, Memory>
        ensures ok { IfOk result (Makes self.old self.new (Bound index)) }
        ensures kept { Extends self.old self.new }
        ensures anew { IfOk result (Appends self.old self.new (Bound index)) }
    {
        self.add(Node::Bound(index))
    }

    fn mk_const(&mut self, _alloc: Global, name: Name, types: Tys) -> Result<Id, Memory>
        ensures ok { IfOk result (Makes self.old self.new (Const name types)) }
        ensures kept { Extends self.old self.new }
        ensures anew { IfOk result (Appends self.old self.new (Const name types)) }
    {
        self.add(Node::Const(name, types))
    }

    fn mk_app(&mut self, _alloc: Global, f: Id, a: Id) -> Result<Id, Memory>
        requires f { f < length self.old }
        requires a { a < length self.old }
        ensures ok { IfOk result (Makes self.old self.new (App f a)) }
        ensures kept { Extends self.old self.new }
        ensures anew { IfOk result (Appends self.old self.new (App f a)) }
    {
        self.add(Node::App(f, a))
    }

    fn mk_lam(&mut self, _alloc: Global, ty: Ty, body: Id) -> Result<Id, Memory>
        requires { body < length self.old }
        ensures ok { IfOk result (Makes self.old self.new (Lam ty body)) }
        ensures kept { Extends self.old self.new }
        ensures anew { IfOk result (Appends self.old self.new (Lam ty body)) }
    {
        self.add(Node::Lam(ty, body))
    }

    fn take_replaced(&mut self, _name: &Name, _ty: &Ty, _by: Id) -> Option<Memo> {
        None
    }

    fn keep_replaced(&mut self, _replacing: Replacing) {}

    fn same(&self, alloc: Global, a: Id, b: Id) -> Result<bool, Memory> {
        is_same(alloc, self.nodes.as_slice(), a, b)
    }
}
