//! Types that are made one after another, from their nodes in post-order.
ghost use Rattle.std.specs.Prelude.{◌≡◌, ◌≤◌, ◌-◌, [], ◌∷◌, ◌++◌, length, take, drop, IfOk};
ghost use Rattle.lt_definitions.specs.Types.{type_variable, type_constructor, row};
ghost use Rattle.lt_types.specs.Layout.{HasRoom, grow, all_roots};

use crate::list::{List, TryCopy};
use crate::memory::Memory;
use crate::name::Name;
use crate::ty::{Ty, TyNode};
use std::alloc::Global;
use std::marker::Model;

/// Types that are being made, which contracts see as the list of those made so far.
///
/// It is the way to make a type in time linear in its nodes, however deep it is. The roots of all
/// types but the last are kept, so that a type of one node needs no place for roots.
#[derive(Debug, Drop)]
pub struct TyBuilder {
    nodes: Vec<TyNode>,
    roots: Vec<usize>,
}

impl Model for TyBuilder {
    ghost use Rattle.std.specs.Prelude.{List, [], length};
    ghost use Rattle.std.specs.Coded.{coded_list};
    ghost use Rattle.lt_definitions.specs.Types.{TypeTree};
    ghost use Rattle.lt_types.specs.Codes.{coded_type};

    ghost Value = { List TypeTree };

    ghost coded = { coded_list coded_type };

    ghost use Rattle.lt_types.specs.Layout.{forest, all_roots, IsRow};

    ghost view = { λ b. forest [] b.nodes.items };

    ghost invariant = { λ b. IsRow b.nodes.items (all_roots (length b.nodes.items) b.roots.items)
        (forest [] b.nodes.items) };
}

impl TyBuilder {
    /// No types yet.
    pub fn new(alloc: Global) -> TyBuilder
        ensures { result ≡ [] }
    {
        TyBuilder {
            nodes: Vec::new(alloc),
            roots: Vec::new(alloc),
        }
    }

    /// How many types were made and are no arguments yet.
    pub fn len(&self) -> usize
        ensures { result ≡ length self.now }
    {
        if self.nodes.len() == 0 {
            return 0;
        }
        self.roots.len() + 1
    }

    /// One more type, a variable.
    pub fn var(self, _alloc: Global, name: Name) -> Result<TyBuilder, Memory>
        ensures { IfOk result (λ b. b ≡ self ++ type_variable name ∷ []) }
    {
        let TyBuilder { mut nodes, roots } = self;
        let all = all_roots(nodes.len(), roots)?;
        nodes.push(TyNode::Var(name))?;
        Ok(TyBuilder { nodes, roots: all })
    }

    /// The last `count` types become the arguments of a constructor.
    pub fn con(self, _alloc: Global, name: Name, count: usize) -> Result<TyBuilder, Memory>
        requires { count ≤ length self }
        ensures { IfOk result (λ b. b
            ≡ take (length self - count) self ++ type_constructor name (row (drop
            (length self - count) self)) ∷ []) }
    {
        let TyBuilder { mut nodes, roots } = self;
        let mut all = all_roots(nodes.len(), roots)?;
        let places = all.split_off(all.len() - count)?;
        nodes.push(TyNode::Con(name, List::from_vec(places)))?;
        Ok(TyBuilder { nodes, roots: all })
    }

    /// What a node makes of the last types.
    pub fn node(self, alloc: Global, node: &TyNode) -> Result<TyBuilder, Memory>
        requires { HasRoom self node.now }
        ensures { IfOk result (λ b. b ≡ grow self node.now) }
    {
        match node {
            TyNode::Var(name) => self.var(alloc, name.copy(alloc)?),
            TyNode::Con(name, places) => self.con(alloc, name.copy(alloc)?, places.len()),
        }
    }

    /// One more type, equal to `ty`.
    pub fn ty(self, alloc: Global, ty: &Ty) -> Result<TyBuilder, Memory>
        ensures { IfOk result (λ b. b ≡ self ++ ty.now ∷ []) }
    {
        let mut builder = self;
        for node in ty.nodes() {
            builder = builder.node(alloc, node)?;
        }
        Ok(builder)
    }

    /// The one type that was made.
    pub fn finish(self, alloc: Global) -> Result<Ty, Memory>
        requires { length self ≡ 1 }
        ensures { IfOk result (λ t. self ≡ t ∷ []) }
    {
        let TyBuilder { nodes, roots: _ } = self;
        Ty::from_nodes(alloc, nodes)
    }
}

/// The roots of all types that so many nodes make, where those of all but the last are given.
fn all_roots(count: usize, roots: Vec<usize>) -> Result<Vec<usize>, Memory>
    ensures { IfOk result (λ all. all.items ≡ all_roots count roots.items) }
{
    let mut roots = roots;
    if count == 0 {
        return Ok(roots);
    }
    roots.push(count - 1)?;
    Ok(roots)
}
