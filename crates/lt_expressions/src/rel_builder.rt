//! Relation expressions that are made one after another, from their nodes in post-order.
ghost use Rattle.std.specs.Prelude.{◌≡◌, ℕ, ◌<◌, ◌≤◌, ◌-◌, ◌^◌, [], ◌∷◌, ◌++◌, length, take, drop, IfOk};
ghost use Rattle.lt_transport_definitions.specs.Relations.{Relation, relation_variable, equality, constructed, relation_row};
ghost use Rattle.lt_expressions.specs.Layout.{HasRoom, grow, relation_nodes, behind};

use crate::rel::{Rel, RelNode};
use lt_hol::{List, Memory, Name, TryCopy, Ty, Tys};
use std::alloc::Global;
use std::marker::Model;

/// Expressions that are being made, which contracts see as the list of those made so far.
///
/// It is the way to make an expression in time linear in its nodes, however deep it is.
#[derive(Debug, Drop)]
pub struct RelBuilder {
    nodes: Vec<RelNode>,
    roots: Vec<usize>,
}

impl Model for RelBuilder {
    ghost use Rattle.std.specs.Prelude.{List, []};
    ghost use Rattle.std.specs.Coded.{coded_list};
    ghost use Rattle.lt_transport_definitions.specs.Relations.{Relation};
    ghost use Rattle.lt_expressions.specs.Codes.{coded_relation};

    ghost Value = { List Relation };

    ghost coded = { coded_list coded_relation };

    ghost use Rattle.lt_expressions.specs.Layout.{forest, IsRow};

    ghost view = { λ b. forest [] b.nodes.items };

    ghost invariant = { λ b. IsRow b.nodes.items b.roots.items (forest [] b.nodes.items) };
}

impl RelBuilder {
    /// No expressions yet.
    pub fn new(alloc: Global) -> RelBuilder
        ensures { result ≡ [] }
    {
        RelBuilder {
            nodes: Vec::new(alloc),
            roots: Vec::new(alloc),
        }
    }

    /// How many expressions were made and are no arguments yet.
    pub fn len(&self) -> usize
        ensures { result ≡ length self.now }
    {
        self.roots.len()
    }

    /// One more expression, a variable with its number and right type.
    pub fn var(self, _alloc: Global, number: usize, ty: Ty) -> Result<RelBuilder, Memory>
        ensures { IfOk result (λ b. b ≡ self ++ relation_variable number ty ∷ []) }
    {
        let RelBuilder {
            mut nodes,
            mut roots,
        } = self;
        roots.push(nodes.len())?;
        nodes.push(RelNode::Var(number, ty))?;
        Ok(RelBuilder { nodes, roots })
    }

    /// One more expression, equality at a type.
    pub fn equality(self, _alloc: Global, ty: Ty) -> Result<RelBuilder, Memory>
        ensures { IfOk result (λ b. b ≡ self ++ equality ty ∷ []) }
    {
        let RelBuilder {
            mut nodes,
            mut roots,
        } = self;
        roots.push(nodes.len())?;
        nodes.push(RelNode::Eq(ty))?;
        Ok(RelBuilder { nodes, roots })
    }

    /// The last `count` expressions become the arguments of a constructor.
    pub fn con(
        self,
        _alloc: Global,
        name: Name,
        types: Tys,
        count: usize,
    ) -> Result<RelBuilder, Memory>
        requires { count ≤ length self }
        ensures { IfOk result (λ b. b ≡ take (length self - count) self
            ++ constructed name types (relation_row (drop (length self - count) self)) ∷ []) }
    {
        let RelBuilder {
            mut nodes,
            mut roots,
        } = self;
        let places = roots.split_off(roots.len() - count)?;
        roots.push(nodes.len())?;
        nodes.push(RelNode::Con(name, types, List::from_vec(places)))?;
        Ok(RelBuilder { nodes, roots })
    }

    /// What a node makes of the last expressions.
    pub fn node(self, alloc: Global, node: &RelNode) -> Result<RelBuilder, Memory>
        requires { HasRoom self node.now }
        ensures { IfOk result (λ b. b ≡ grow self node.now) }
    {
        match node {
            RelNode::Var(number, ty) => Ok(self.var(alloc, *number, ty.copy(alloc)?)?),
            RelNode::Eq(ty) => Ok(self.equality(alloc, ty.copy(alloc)?)?),
            RelNode::Con(name, types, places) => {
                let name = name.copy(alloc)?;
                let types = types.copy(alloc)?;
                Ok(self.con(alloc, name, types, places.len())?)
            }
        }
    }

    /// One more expression, equal to `rel`.
    pub fn rel(self, alloc: Global, rel: &Rel) -> Result<RelBuilder, Memory>
        ensures { IfOk result (λ b. b ≡ self ++ rel.now ∷ []) }
    {
        let mut builder = self;
        for node in rel.nodes() {
            builder = builder.node(alloc, node)?;
        }
        Ok(builder)
    }

    /// The expressions before the last one, and the last one. It takes time linear in the last one.
    pub fn split_last(self, alloc: Global) -> Result<(RelBuilder, Rel), Memory>
        requires { 0 < length self }
        ensures { IfOk result (λ x. self ≡ x.0 ++ x.1 ∷ []) }
    {
        let RelBuilder {
            mut nodes,
            mut roots,
        } = self;
        roots.truncate(roots.len() - 1);
        let last = nodes.split_off(behind(roots.as_slice()))?;
        let last = remade(alloc, last.as_slice())?;
        Ok((RelBuilder { nodes, roots }, last))
    }

    /// The one expression that was made.
    pub fn finish(self, alloc: Global) -> Result<Rel, Memory>
        requires { length self ≡ 1 }
        ensures { IfOk result (λ r. self ≡ r ∷ []) }
    {
        let RelBuilder { nodes, roots: _ } = self;
        Rel::from_nodes(alloc, nodes)
    }
}

/// The place behind the nodes of expressions with these roots.
fn behind(roots: &[usize]) -> usize
    requires { behind roots.now < 2 ^ 64 }
    ensures { result ≡ behind roots.now }
{
    match roots.last() {
        Some(root) => *root + 1,
        None => 0,
    }
}

/// The expression of nodes that lay from any place on.
fn remade(alloc: Global, nodes: &[RelNode]) -> Result<Rel, Memory>
    requires { (from : ℕ) × (r : Relation) × (nodes.now ≡ relation_nodes from r) }
    ensures { IfOk result (λ made. (from : ℕ) (r : Relation) → nodes.now ≡ relation_nodes from r
        → made ≡ r) }
{
    let mut builder = RelBuilder::new(alloc);
    for node in nodes {
        builder = builder.node(alloc, node)?;
    }
    builder.finish(alloc)
}
