//! Terms as vectors of nodes, which contracts see as trees.
ghost use Rattle.std.specs.Prelude.{◌≡◌, ◌<◌, slice_get, Some, IfOk};
ghost use Rattle.lt_definitions.specs.Terms.{free_variable, bound_name, constant, application, abstraction};
ghost use Rattle.lt_terms.specs.Layout.{term_size, term_nodes, term_of_nodes};

use crate::term_builder::TermBuilder;
use lt_types::{List, Memory, Name, TryCopy, Ty};
use std::alloc::Global;
use std::marker::Model;

/// A node of a term: a free variable with its type, a bound name, a constant with its type
/// arguments,
/// an application with the places of function and argument, or an abstraction with the place of its
/// body.
#[derive(Debug, Drop)]
pub enum TermNode {
    Free(Name, Ty),
    Bound(Name),
    Const(Name, List<Ty>),
    App(usize, usize),
    Lam(Name, Ty, usize),
}

/// A term, which contracts see as a tree.
///
/// Its nodes lie in a vector in post-order: function, argument, application; body, abstraction.
#[derive(Debug, Drop)]
pub struct Term {
    nodes: Vec<TermNode>,
}

impl Model for Term {
    ghost use Rattle.lt_definitions.specs.Terms.{TermTree};
    ghost use Rattle.lt_terms.specs.Codes.{coded_term};

    ghost Value = { TermTree };

    ghost coded = { coded_term };

    ghost use Rattle.std.specs.Prelude.{◌≡◌};
    ghost use Rattle.lt_terms.specs.Layout.{term_of_nodes, term_nodes};

    ghost view = { λ t. term_of_nodes t.nodes.items };

    ghost invariant = { λ t. t.nodes.items ≡ term_nodes 0 (term_of_nodes t.nodes.items) };
}

impl TryCopy for TermNode {
    fn copy(&self, alloc: Global) -> Result<TermNode, Memory> {
        match self {
            TermNode::Free(name, ty) => Ok(TermNode::Free(name.copy(alloc)?, ty.copy(alloc)?)),
            TermNode::Bound(name) => Ok(TermNode::Bound(name.copy(alloc)?)),
            TermNode::Const(name, types) => {
                Ok(TermNode::Const(name.copy(alloc)?, types.copy(alloc)?))
            }
            TermNode::App(function, argument) => Ok(TermNode::App(*function, *argument)),
            TermNode::Lam(name, ty, body) => {
                Ok(TermNode::Lam(name.copy(alloc)?, ty.copy(alloc)?, *body))
            }
        }
    }
}

impl Term {
    /// A free variable.
    pub fn free(alloc: Global, name: Name, ty: Ty) -> Result<Term, Memory>
        ensures { IfOk result (λ t. t ≡ free_variable name ty) }
    {
        let builder = TermBuilder::new(alloc).free(alloc, name, ty)?;
        Ok(builder.finish())
    }

    /// A bound name.
    pub fn bound(alloc: Global, name: Name) -> Result<Term, Memory>
        ensures { IfOk result (λ t. t ≡ bound_name name) }
    {
        let builder = TermBuilder::new(alloc).bound(alloc, name)?;
        Ok(builder.finish())
    }

    /// A constant with its type arguments.
    pub fn constant(alloc: Global, name: Name, types: List<Ty>) -> Result<Term, Memory>
        ensures { IfOk result (λ t. t ≡ constant name types) }
    {
        let builder = TermBuilder::new(alloc).constant(alloc, name, types)?;
        Ok(builder.finish())
    }

    /// An application. It takes time linear in the argument.
    pub fn app(alloc: Global, f: Term, a: Term) -> Result<Term, Memory>
        ensures { IfOk result (λ t. t ≡ application f a) }
    {
        let builder = TermBuilder::after(alloc, f)?.term(alloc, &a)?.app(alloc)?;
        Ok(builder.finish())
    }

    /// An abstraction. It takes constant time.
    pub fn lam(alloc: Global, name: Name, ty: Ty, body: Term) -> Result<Term, Memory>
        ensures { IfOk result (λ t. t ≡ abstraction name ty body) }
    {
        let builder = TermBuilder::after(alloc, body)?.lam(alloc, name, ty)?;
        Ok(builder.finish())
    }

    /// The term that nodes in post-order hold.
    pub(crate) fn from_nodes(nodes: Vec<TermNode>) -> Term
        requires { nodes.items ≡ term_nodes 0 (term_of_nodes nodes.items) }
        ensures { result ≡ term_of_nodes nodes.items }
    {
        Term { nodes }
    }

    /// The nodes as a vector.
    pub(crate) fn into_nodes(self) -> Vec<TermNode>
        ensures { result.items ≡ term_nodes 0 self }
    {
        let Term { nodes } = self;
        nodes
    }

    /// The nodes, children before parents; the root is the last.
    pub fn nodes(&self) -> &[TermNode]
        ensures { result.now ≡ term_nodes 0 self.now }
    {
        self.nodes.as_slice()
    }

    /// The node at a place.
    pub fn node(&self, at: usize) -> &TermNode
        requires { at < term_size self.now }
        ensures { slice_get (term_nodes 0 self.now) at ≡ Some result.now }
    {
        &self.nodes()[at]
    }

    /// How many nodes the term has, those of its types left out.
    pub fn len(&self) -> usize
        ensures { result ≡ term_size self.now }
    {
        self.nodes().len()
    }
}

impl TryCopy for Term {
    fn copy(&self, alloc: Global) -> Result<Term, Memory> {
        let mut nodes = Vec::with_capacity(alloc, self.len())?;
        for node in self.nodes() {
            nodes.push(node.copy(alloc)?)?;
        }
        Ok(Term::from_nodes(nodes))
    }
}
