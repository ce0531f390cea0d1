//! Relation expressions as shared vectors of nodes, which contracts see as trees.
ghost use Rattle.std.specs.Prelude.{◌≡◌, ◌<◌, slice_get, Some, IfOk};
ghost use Rattle.lt_expressions.specs.Layout.{arguments, relation_size, relation_nodes, relation_of_nodes};

use lt_hol::{Ids, Memory, Name, TryCopy, Ty, Tys};
use std::alloc::Global;
use std::marker::Model;
use std::rc::Rc;

/// A node of an expression: a variable with its number and right type, equality at a type, or a
/// constructor with its type arguments and the places of its relation arguments.
#[derive(Debug, Drop)]
pub enum RelNode {
    Var(usize, Ty),
    Eq(Ty),
    Con(Name, Tys, Ids),
}

/// A relation expression, which contracts see as a tree.
///
/// Its nodes lie in a vector in post-order: arguments from the left, before their constructor.
/// A copy shares the vector and takes constant time.
#[derive(Debug, Drop)]
pub struct Rel {
    nodes: Rc<Vec<RelNode>>,
}

impl Model for Rel {
    ghost use Rattle.lt_transport_definitions.specs.Relations.{Relation};
    ghost use Rattle.lt_expressions.specs.Codes.{coded_relation};

    ghost Value = { Relation };

    ghost coded = { coded_relation };

    ghost use Rattle.std.specs.Prelude.{◌≡◌};
    ghost use Rattle.lt_expressions.specs.Layout.{relation_of_nodes, relation_nodes};

    ghost view = { λ r. relation_of_nodes r.nodes.value.items };

    ghost invariant = { λ r. r.nodes.value.items
        ≡ relation_nodes 0 (relation_of_nodes r.nodes.value.items) };
}

impl RelNode {
    /// How many relation arguments the node has.
    pub fn arguments(&self) -> usize
        ensures { result ≡ arguments self.now }
    {
        match self {
            RelNode::Var(_, _) => 0,
            RelNode::Eq(_) => 0,
            RelNode::Con(_, _, places) => places.len(),
        }
    }
}

impl Rel {
    /// The expression that nodes in post-order hold.
    pub(crate) fn from_nodes(alloc: Global, nodes: Vec<RelNode>) -> Result<Rel, Memory>
        requires { nodes.items ≡ relation_nodes 0 (relation_of_nodes nodes.items) }
        ensures { IfOk result (λ r. r ≡ relation_of_nodes nodes.items) }
    {
        Ok(Rel {
            nodes: Rc::new(alloc, nodes)?,
        })
    }

    /// The nodes, children before parents; the root is the last.
    pub fn nodes(&self) -> &[RelNode]
        ensures { result.now ≡ relation_nodes 0 self.now }
    {
        self.nodes.as_ref().as_slice()
    }

    /// The node at a place.
    pub fn node(&self, at: usize) -> &RelNode
        requires { at < relation_size self.now }
        ensures { slice_get (relation_nodes 0 self.now) at ≡ Some result.now }
    {
        &self.nodes()[at]
    }

    /// How many nodes the expression has.
    pub fn len(&self) -> usize
        ensures { result ≡ relation_size self.now }
    {
        self.nodes().len()
    }
}

impl TryCopy for Rel {
    fn copy(&self, _alloc: Global) -> Result<Rel, Memory> {
        Ok(Rel {
            nodes: self.nodes.clone()?,
        })
    }
}
