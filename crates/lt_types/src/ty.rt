//! Types as shared vectors of nodes, which contracts see as trees.
ghost use Rattle.std.specs.Prelude.{◌≡◌, ◌<◌, slice_get, Some, IfOk, IsTrue, ◌↔◌};
ghost use Rattle.lt_definitions.specs.Types.{type_variable, type_constructor, row, same_type};
ghost use Rattle.lt_types.specs.Layout.{arguments, type_size, type_nodes, type_of_nodes};
ghost use Rattle.lt_types.specs.Equality.{same_type-equiv, same_type-alike};
ghost use Rattle.std.specs.Hash as fed;
ghost use Rattle.std.specs.Cmp.{partial_equiv_from_equiv};

use crate::list::{List, TryCopy};
use crate::memory::Memory;
use crate::name::Name;
use crate::ty_builder::TyBuilder;
use std::alloc::Global;
use std::hash::{Hash, Hasher};
use std::marker::Model;
use std::rc::Rc;

/// A node of a type: a variable, or a constructor with the places of its arguments.
#[derive(Debug, Drop, PartialEq, Eq, Hash)]
pub enum TyNode {
    Var(Name),
    Con(Name, List<usize>),
}

/// A type, which contracts see as a tree.
///
/// Its nodes lie in a vector in post-order: arguments from the left, before their constructor.
/// A copy shares the vector and takes constant time.
#[derive(Debug, Drop)]
pub struct Ty {
    nodes: Rc<Vec<TyNode>>,
}

impl Model for Ty {
    ghost use Rattle.lt_definitions.specs.Types.{TypeTree};
    ghost use Rattle.lt_types.specs.Codes.{coded_type};

    ghost Value = { TypeTree };

    ghost coded = { coded_type };

    ghost use Rattle.std.specs.Prelude.{◌≡◌};
    ghost use Rattle.lt_types.specs.Layout.{type_of_nodes, type_nodes};

    ghost view = { λ t. type_of_nodes t.nodes.value.items };

    ghost invariant = { λ t. t.nodes.value.items ≡ type_nodes 0 (type_of_nodes t.nodes.value.items) };
}

impl TyNode {
    /// How many arguments the node has.
    pub fn arguments(&self) -> usize
        ensures { result ≡ arguments self.now }
    {
        match self {
            TyNode::Var(_) => 0,
            TyNode::Con(_, places) => places.len(),
        }
    }

    /// Whether two nodes are one.
    fn same(&self, other: &TyNode) -> bool
        ensures { IsTrue result ↔ (self.now ≡ other.now) }
    {
        match (self, other) {
            (TyNode::Var(x), TyNode::Var(y)) => x == y,
            (TyNode::Con(c, ids), TyNode::Con(d, places)) => {
                c == d && ids.as_slice() == places.as_slice()
            }
            _ => false,
        }
    }
}

impl Ty {
    /// A type variable.
    pub fn var(alloc: Global, name: Name) -> Result<Ty, Memory>
        ensures { IfOk result (λ t. t ≡ type_variable name) }
    {
        TyBuilder::new(alloc).var(alloc, name)?.finish(alloc)
    }

    /// A constructor with its arguments.
    pub fn con(alloc: Global, name: Name, args: List<Ty>) -> Result<Ty, Memory>
        ensures { IfOk result (λ t. t ≡ type_constructor name (row args)) }
    {
        let mut builder = TyBuilder::new(alloc);
        for arg in args.as_slice() {
            builder = builder.ty(alloc, arg)?;
        }
        builder.con(alloc, name, args.len())?.finish(alloc)
    }

    /// The type that nodes in post-order hold.
    pub(crate) fn from_nodes(alloc: Global, nodes: Vec<TyNode>) -> Result<Ty, Memory>
        requires { nodes.items ≡ type_nodes 0 (type_of_nodes nodes.items) }
        ensures { IfOk result (λ t. t ≡ type_of_nodes nodes.items) }
    {
        Ok(Ty {
            nodes: Rc::new(alloc, nodes)?,
        })
    }

    /// The nodes, children before parents; the root is the last.
    pub fn nodes(&self) -> &[TyNode]
        ensures { result.now ≡ type_nodes 0 self.now }
    {
        self.nodes.as_ref().as_slice()
    }

    /// The node at a place.
    pub fn node(&self, at: usize) -> &TyNode
        requires { at < type_size self.now }
        ensures { slice_get (type_nodes 0 self.now) at ≡ Some result.now }
    {
        &self.nodes()[at]
    }

    /// How many nodes the type has.
    pub fn len(&self) -> usize
        ensures { result ≡ type_size self.now }
    {
        self.nodes().len()
    }
}

impl TryCopy for Ty {
    fn copy(&self, _alloc: Global) -> Result<Ty, Memory> {
        Ok(Ty {
            nodes: self.nodes.clone()?,
        })
    }
}

impl PartialEq for Ty {
    ghost eq = { same_type };

    ghost laws = { partial_equiv_from_equiv same_type-equiv };

    /// Whether two types are one. It takes time linear in the shorter.
    fn eq(&self, other: &Ty) -> bool {
        same_nodes(self.nodes(), other.nodes())
    }
}

impl Eq for Ty {
    ghost laws = { same_type-equiv };
}

impl Hash for Ty {
    ghost hash_input = { λ t. fed.slice ⟦<TyNode as Hash>⟧.hash_input (type_nodes 0 t) };

    ghost respects_eq = { (same_type-alike (λ t. fed.slice ⟦<TyNode as Hash>⟧.hash_input (type_nodes 0 t))).fed };

    fn hash<H: Hasher>(&self, state: &mut H) {
        self.nodes().hash(state);
    }
}

/// Whether two lists of nodes are one.
fn same_nodes(left: &[TyNode], right: &[TyNode]) -> bool
    ensures { IsTrue result ↔ (left.now ≡ right.now) }
{
    if left.len() != right.len() {
        return false;
    }
    for at in 0..left.len() {
        if !left[at].same(&right[at]) {
            return false;
        }
    }
    true
}
