//! Parts of terms, which are read as trees.
ghost use Rattle.std.specs.Prelude.{◌≡◌, ℕ, ◌+◌, ◌∷◌, ◌++◌, [], length, IfOk};
ghost use Rattle.lt_terms.specs.Layout.{term_nodes, term_of_nodes, term_size};
ghost use Rattle.lt_forms.specs.Shapes.{IsPart, tree_of, AreSmaller};

use lt_hol::{Memory, Name, Term, TermBuilder, TermNode, TryCopy, Ty, Tys};
use std::alloc::Global;
use std::marker::Model;

/// A part of a term, which contracts see as a tree. It borrows the term's nodes.
#[derive(Debug, Drop)]
pub struct Part<'a> {
    nodes: &'a [TermNode],
    from: usize,
}

impl<'a> Model for Part<'a> {
    ghost use Rattle.lt_definitions.specs.Terms.{TermTree};
    ghost use Rattle.lt_terms.specs.Codes.{coded_term};

    ghost Value = { TermTree };

    ghost coded = { coded_term };

    ghost use Rattle.lt_terms.specs.Layout.{term_of_nodes};
    ghost use Rattle.lt_forms.specs.Shapes.{IsPart};

    ghost view = { λ p. term_of_nodes p.nodes.now };

    ghost invariant = { λ p. IsPart p.from p.nodes.now };
}

/// What a term is made of at its root.
#[derive(Debug, Drop)]
pub enum Shape<'a> {
    Free(&'a Name, &'a Ty),
    Bound(&'a Name),
    Const(&'a Name, &'a Tys),
    App(Part<'a>, Part<'a>),
    Lam(&'a Name, &'a Ty, Part<'a>),
}

impl<'a> Part<'a> {
    /// A whole term.
    pub fn of(term: &'a Term) -> Part<'a>
        ensures { result ≡ term.now }
    {
        part_from(term.nodes(), 0)
    }

    /// The same part.
    pub fn same(&self) -> Part<'a>
        ensures { result ≡ self.now }
    {
        Part {
            nodes: self.nodes,
            from: self.from,
        }
    }

    /// How many nodes the part has, those of its types left out.
    pub fn len(&self) -> usize
        ensures { result ≡ term_size self.now }
    {
        self.nodes.len()
    }

    /// The part's nodes, children before parents; the root is the last.
    pub fn nodes(&self) -> &'a [TermNode]
        ensures { (from : ℕ) × (result.now ≡ term_nodes from self.now) }
    {
        self.nodes
    }

    /// What the part is made of. It takes constant time.
    pub fn shape(&self) -> Shape<'a>
        ensures made { tree_of result ≡ self.now }
        ensures smaller { AreSmaller (term_size self.now) result }
    {
        match self.nodes.split_last() {
            Some((root, below)) => made_of(root, below, self.from),
            None => unreachable!(),
        }
    }

    /// The part as a term of its own. It takes time linear in its nodes.
    pub fn term(&self, alloc: Global) -> Result<Term, Memory>
        ensures { IfOk result (λ t. t ≡ self.now) }
    {
        let mut builder = TermBuilder::new(alloc);
        for node in self.nodes {
            builder = builder.node(alloc, node.copy(alloc)?)?;
        }
        Ok(builder.finish())
    }
}

/// The part that nodes from a place on hold.
fn part_from<'a>(nodes: &'a [TermNode], from: usize) -> Part<'a>
    requires { IsPart from nodes.now }
    ensures { result ≡ term_of_nodes nodes.now }
{
    Part { nodes, from }
}

/// What a node makes of the nodes below it, which stand from a place on.
fn made_of<'a>(root: &'a TermNode, below: &'a [TermNode], from: usize) -> Shape<'a>
    requires { IsPart from (below.now ++ root.now ∷ []) }
    ensures made { tree_of result ≡ term_of_nodes (below.now ++ root.now ∷ []) }
    ensures smaller { AreSmaller (length below.now + 1) result }
{
    match root {
        TermNode::Free(name, ty) => Shape::Free(name, ty),
        TermNode::Bound(name) => Shape::Bound(name),
        TermNode::Const(name, types) => Shape::Const(name, types),
        TermNode::App(function, _) => {
            let (front, back) = below.split_at(*function - from + 1);
            Shape::App(part_from(front, from), part_from(back, from + front.len()))
        }
        TermNode::Lam(name, ty, _) => Shape::Lam(name, ty, part_from(below, from)),
    }
}
