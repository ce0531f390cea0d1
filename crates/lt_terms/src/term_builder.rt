//! Terms that are made one after another, from their nodes in post-order.
ghost use Rattle.std.specs.Prelude.{◌≡◌, ◌≤◌, [], ◌∷◌, length, IfOk, OnOk, OnErr};
ghost use Rattle.lt_definitions.specs.Terms.{free_variable, bound_name, constant};
ghost use Rattle.lt_terms.specs.Layout.{HasRoom, IsLeaf, applied, abstracted, grow};

use crate::term::{Term, TermNode};
use lt_types::{List, Memory, Name, TryCopy, Ty};
use std::alloc::Global;
use std::marker::Model;

/// Terms that are being made, which contracts see as the list of those made so far, the last one
/// first.
///
/// It is the way to make a term in time linear in its nodes, however deep it is. After want of memory
/// the calls that begin with `push` leave it as it was.
#[derive(Debug, Drop)]
pub struct TermBuilder {
    nodes: Vec<TermNode>,
    roots: Vec<usize>,
}

impl Model for TermBuilder {
    ghost use Rattle.std.specs.Prelude.{List, []};
    ghost use Rattle.std.specs.Coded.{coded_list};
    ghost use Rattle.lt_definitions.specs.Terms.{TermTree};
    ghost use Rattle.lt_terms.specs.Codes.{coded_term};

    ghost Value = { List TermTree };

    ghost coded = { coded_list coded_term };

    ghost use Rattle.lt_terms.specs.Layout.{forest, IsStack};

    ghost view = { λ b. forest [] b.nodes.items };

    ghost invariant = { λ b. IsStack b.nodes.items b.roots.items (forest [] b.nodes.items) };
}

impl TermBuilder {
    /// No terms yet.
    pub fn new(alloc: Global) -> TermBuilder
        ensures { result ≡ [] }
    {
        TermBuilder {
            nodes: Vec::new(alloc),
            roots: Vec::new(alloc),
        }
    }

    /// One term, whose nodes are taken over in constant time.
    pub fn after(alloc: Global, term: Term) -> Result<TermBuilder, Memory>
        ensures { IfOk result (λ b. b ≡ term ∷ []) }
    {
        let nodes = term.into_nodes();
        let roots = Vec::new(alloc);
        Ok(TermBuilder { nodes, roots })
    }

    /// How many terms were made and are no part of another yet.
    pub fn len(&self) -> usize
        ensures { result ≡ length self.now }
    {
        if self.nodes.len() == 0 {
            return 0;
        }
        self.roots.len() + 1
    }

    /// One more node without children.
    fn push_leaf(&mut self, node: TermNode) -> Result<(), Memory>
        requires { IsLeaf node }
        ensures ok { OnOk result (self.new ≡ grow self.old node) }
        ensures err { OnErr result (self.new ≡ self.old) }
    {
        let count = self.nodes.len();
        if count == 0 {
            self.nodes.push(node)?;
            return Ok(());
        }
        self.roots.reserve(1)?;
        self.nodes.push(node)?;
        self.roots.push_reserved(count - 1);
        Ok(())
    }

    /// One more term, a free variable.
    pub fn push_free(&mut self, _alloc: Global, name: Name, ty: Ty) -> Result<(), Memory>
        ensures ok { OnOk result (self.new ≡ free_variable name ty ∷ self.old) }
        ensures err { OnErr result (self.new ≡ self.old) }
    {
        self.push_leaf(TermNode::Free(name, ty))
    }

    /// One more term, a bound name.
    pub fn push_bound(&mut self, _alloc: Global, name: Name) -> Result<(), Memory>
        ensures ok { OnOk result (self.new ≡ bound_name name ∷ self.old) }
        ensures err { OnErr result (self.new ≡ self.old) }
    {
        self.push_leaf(TermNode::Bound(name))
    }

    /// One more term, a constant with its type arguments.
    pub fn push_constant(
        &mut self,
        _alloc: Global,
        name: Name,
        types: List<Ty>,
    ) -> Result<(), Memory>
        ensures ok { OnOk result (self.new ≡ constant name types ∷ self.old) }
        ensures err { OnErr result (self.new ≡ self.old) }
    {
        self.push_leaf(TermNode::Const(name, types))
    }

    /// The last two terms become function and argument of an application.
    pub fn push_app(&mut self, _alloc: Global) -> Result<(), Memory>
        requires { 2 ≤ length self.old }
        ensures ok { OnOk result (self.new ≡ applied self.old) }
        ensures err { OnErr result (self.new ≡ self.old) }
    {
        let function = self.roots[self.roots.len() - 1];
        let argument = self.nodes.len() - 1;
        self.nodes.push(TermNode::App(function, argument))?;
        let _function = self.roots.take_last();
        Ok(())
    }

    /// The last term becomes the body of an abstraction.
    pub fn push_lam(&mut self, _alloc: Global, name: Name, ty: Ty) -> Result<(), Memory>
        requires { 1 ≤ length self.old }
        ensures ok { OnOk result (self.new ≡ abstracted name ty self.old) }
        ensures err { OnErr result (self.new ≡ self.old) }
    {
        let body = self.nodes.len() - 1;
        self.nodes.push(TermNode::Lam(name, ty, body))?;
        Ok(())
    }

    /// What a node makes of the last terms; its places are made anew.
    pub fn push_node(&mut self, alloc: Global, node: TermNode) -> Result<(), Memory>
        requires { HasRoom self.old node }
        ensures ok { OnOk result (self.new ≡ grow self.old node) }
        ensures err { OnErr result (self.new ≡ self.old) }
    {
        match node {
            TermNode::Free(name, ty) => self.push_free(alloc, name, ty),
            TermNode::Bound(name) => self.push_bound(alloc, name),
            TermNode::Const(name, types) => self.push_constant(alloc, name, types),
            TermNode::App(_, _) => self.push_app(alloc),
            TermNode::Lam(name, ty, _) => self.push_lam(alloc, name, ty),
        }
    }

    /// As `push_free`, for a builder that is handed on.
    pub fn free(self, alloc: Global, name: Name, ty: Ty) -> Result<TermBuilder, Memory>
        ensures { IfOk result (λ b. b ≡ free_variable name ty ∷ self) }
    {
        let mut builder = self;
        builder.push_free(alloc, name, ty)?;
        Ok(builder)
    }

    /// As `push_bound`, for a builder that is handed on.
    pub fn bound(self, alloc: Global, name: Name) -> Result<TermBuilder, Memory>
        ensures { IfOk result (λ b. b ≡ bound_name name ∷ self) }
    {
        let mut builder = self;
        builder.push_bound(alloc, name)?;
        Ok(builder)
    }

    /// As `push_constant`, for a builder that is handed on.
    pub fn constant(self, alloc: Global, name: Name, types: List<Ty>) -> Result<TermBuilder, Memory>
        ensures { IfOk result (λ b. b ≡ constant name types ∷ self) }
    {
        let mut builder = self;
        builder.push_constant(alloc, name, types)?;
        Ok(builder)
    }

    /// As `push_app`, for a builder that is handed on.
    pub fn app(self, alloc: Global) -> Result<TermBuilder, Memory>
        requires { 2 ≤ length self }
        ensures { IfOk result (λ b. b ≡ applied self) }
    {
        let mut builder = self;
        builder.push_app(alloc)?;
        Ok(builder)
    }

    /// As `push_lam`, for a builder that is handed on.
    pub fn lam(self, alloc: Global, name: Name, ty: Ty) -> Result<TermBuilder, Memory>
        requires { 1 ≤ length self }
        ensures { IfOk result (λ b. b ≡ abstracted name ty self) }
    {
        let mut builder = self;
        builder.push_lam(alloc, name, ty)?;
        Ok(builder)
    }

    /// As `push_node`, for a builder that is handed on.
    pub fn node(self, alloc: Global, node: TermNode) -> Result<TermBuilder, Memory>
        requires { HasRoom self node }
        ensures { IfOk result (λ b. b ≡ grow self node) }
    {
        let mut builder = self;
        builder.push_node(alloc, node)?;
        Ok(builder)
    }

    /// One more term, equal to `term`.
    pub fn term(self, alloc: Global, term: &Term) -> Result<TermBuilder, Memory>
        ensures { IfOk result (λ b. b ≡ term.now ∷ self) }
    {
        let mut builder = self;
        for node in term.nodes() {
            builder.push_node(alloc, node.copy(alloc)?)?;
        }
        Ok(builder)
    }

    /// The one term that was made, in a vector of just its nodes where memory allows it.
    pub fn finish(self) -> Term
        requires { length self ≡ 1 }
        ensures { self ≡ result ∷ [] }
    {
        let TermBuilder {
            mut nodes,
            roots: _,
        } = self;
        nodes.shrink_to_fit();
        Term::from_nodes(nodes)
    }
}
