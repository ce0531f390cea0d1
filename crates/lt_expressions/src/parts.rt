//! The parts of an expression, by the places between which their nodes lie.
ghost use Rattle.std.specs.Prelude.{◌≡◌, ◌<◌, ◌≤◌, ◌↔◌, ◌∷◌, [], ◌++◌, take, IfOk, IsTrue};
ghost use Rattle.lt_expressions.specs.Layout.{relation_nodes, relation_size, forest};
ghost use Rattle.lt_expressions.specs.Parts.{BeginsAt, HaveOneHead};

use crate::rel::{Rel, RelNode};
use crate::rel_builder::RelBuilder;
use lt_hol::{Memory, Name, Ty, Tys};
use std::alloc::Global;

impl Rel {
    /// Where the last expression begins that the nodes before a place make. It takes time linear in
    /// that expression.
    pub fn start_of(&self, end: usize) -> usize
        requires above { 0 < end }
        requires within { end ≤ relation_size self.now }
        ensures { BeginsAt (relation_nodes 0 self.now) end result }
    {
        let nodes = self.nodes();
        let mut missing = 1;
        for at in (0..end).rev() {
            missing = missing - 1 + nodes[at].arguments();
            if missing == 0 {
                return at;
            }
        }
        unreachable!()
    }

    /// The expression that lies between two places. It takes time linear in that expression.
    pub fn part(&self, alloc: Global, start: usize, end: usize) -> Result<Rel, Memory>
        requires within { end ≤ relation_size self.now }
        requires begins { BeginsAt (relation_nodes 0 self.now) end start }
        ensures { IfOk result (λ r. forest [] (take end (relation_nodes 0 self.now))
            ≡ forest [] (take start (relation_nodes 0 self.now)) ++ r ∷ []) }
    {
        let nodes = self.nodes();
        let mut builder = RelBuilder::new(alloc);
        for at in start..end {
            builder = builder.node(alloc, &nodes[at])?;
        }
        builder.finish(alloc)
    }

    /// Whether two expressions are one. It takes time linear in the shorter and in the types of its
    /// nodes.
    pub fn same(&self, other: &Rel) -> bool
        ensures { IsTrue result ↔ (self.now ≡ other.now) }
    {
        same_nodes(self.nodes(), other.nodes())
    }
}

impl RelNode {
    /// Whether two nodes are one.
    fn same(&self, other: &RelNode) -> bool
        ensures { IsTrue result ↔ (self.now ≡ other.now) }
    {
        match (self, other) {
            (RelNode::Var(n, t), RelNode::Var(m, u)) => is_one_variable(*n, t, *m, u),
            (RelNode::Eq(t), RelNode::Eq(u)) => is_one_type(t, u),
            (RelNode::Con(c, ts, ids), RelNode::Con(d, us, places)) => {
                is_one_head(c, ts, d, us) && ids.as_slice() == places.as_slice()
            }
            _ => false,
        }
    }

    /// Whether two nodes are one constructor with the same type arguments and as many arguments.
    pub fn same_head(&self, other: &RelNode) -> bool
        ensures { IsTrue result ↔ HaveOneHead self.now other.now }
    {
        match (self, other) {
            (RelNode::Con(c, ts, ids), RelNode::Con(d, us, places)) => {
                is_one_head(c, ts, d, us) && ids.len() == places.len()
            }
            _ => false,
        }
    }
}

/// Whether two types are one.
fn is_one_type(t: &Ty, u: &Ty) -> bool
    ensures { IsTrue result ↔ (t.now ≡ u.now) }
{
    *t == *u
}

/// Whether two variables with their right types are one.
fn is_one_variable(n: usize, t: &Ty, m: usize, u: &Ty) -> bool
    ensures { IsTrue result ↔ ((n ≡ m) × (t.now ≡ u.now)) }
{
    n == m && is_one_type(t, u)
}

/// Whether two constructors with their type arguments are one.
fn is_one_head(c: &Name, ts: &Tys, d: &Name, us: &Tys) -> bool
    ensures { IsTrue result ↔ ((c.now ≡ d.now) × (ts.now ≡ us.now)) }
{
    *c == *d && *ts == *us
}

/// Whether two lists of nodes are one.
fn same_nodes(left: &[RelNode], right: &[RelNode]) -> bool
    ensures { IsTrue result ↔ (left.now ≡ right.now) }
{
    if left.len() != right.len() {
        return false;
    }
    for at in 0..left.len() {
        if !left[at].same(&right[at]) {
            return false;
        }
    }
    true
}
