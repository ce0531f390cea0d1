//! The lines of a derivation, over one vector of nodes.
ghost use Rattle.std.specs.Prelude.{◌≡◌, [], ◌∷◌, ◌++◌, ◌<◌, length, slice_get, get_or, true, Some, IfOk, OnOk, OnErr};
ghost use Rattle.std.specs.List.{list_all};
ghost use Rattle.lt_definitions.specs.Terms.{bound_name};
ghost use Rattle.lt_hol.specs.Lines.{are_in_order, has_children_below, is_within, rule_of, rules_of, trees};

use crate::line::Line;
use crate::shared_nodes::term_at;
use lt_terms::{Term, TermNode};
use lt_types::{List, Memory, TryCopy};
use std::alloc::Global;

/// The lines of a derivation. Their terms are places among nodes that all lines share,
/// children before parents.
#[derive(Debug, Drop)]
pub struct Lines {
    pub nodes: List<TermNode>,
    pub lines: List<Line>,
    ghost in_order: { are_in_order 0 nodes ≡ true },
    ghost within: { list_all (is_within (length nodes)) lines ≡ true },
}

impl Lines {
    /// No lines, and no nodes.
    pub fn new(alloc: Global) -> Lines
        ensures nodes { result.nodes ≡ [] }
        ensures lines { result.lines ≡ [] }
    {
        Lines {
            nodes: List::new(alloc),
            lines: List::new(alloc),
        }
    }

    /// One more node, whose place is the answer. Its children's places have to be there already.
    pub fn add_node(&mut self, alloc: Global, node: TermNode) -> Result<usize, Memory>
        requires { has_children_below (length self.old.nodes) node ≡ true }
        ensures place { IfOk result (λ place. place ≡ length self.old.nodes) }
        ensures ok { OnOk result (self.new.nodes ≡ self.old.nodes ++ node ∷ []) }
        ensures err { OnErr result (self.new.nodes ≡ self.old.nodes) }
        ensures lines { self.new.lines ≡ self.old.lines }
        ensures rules { rules_of self.new.nodes self.new.lines
            ≡ rules_of self.old.nodes self.old.lines }
    {
        let place = self.nodes.len();
        self.nodes.push(alloc, node)?;
        Ok(place)
    }

    /// One more line. The places of its terms have to be there already.
    pub fn push(&mut self, alloc: Global, line: Line) -> Result<(), Memory>
        requires { is_within (length self.old.nodes) line ≡ true }
        ensures ok { OnOk result (self.new.lines ≡ self.old.lines ++ line ∷ []) }
        ensures rules { OnOk result (rules_of self.new.nodes self.new.lines
            ≡ rules_of self.old.nodes self.old.lines ++ rule_of (trees self.old.nodes) line ∷ []) }
        ensures err { OnErr result (self.new.lines ≡ self.old.lines) }
        ensures nodes { self.new.nodes ≡ self.old.nodes }
    {
        self.lines.push(alloc, line)
    }

    /// How many lines there are.
    pub fn len(&self) -> usize
        ensures { result ≡ length self.now.lines }
    {
        self.lines.len()
    }

    /// The line at a place, from 0.
    pub fn at(&self, i: usize) -> &Line
        requires { i < length self.now.lines }
        ensures { slice_get self.now.lines i ≡ Some result.now }
    {
        self.lines.at(i)
    }

    /// The term at a place among the nodes. It takes time linear in that term, as a tree.
    pub fn term(&self, alloc: Global, place: usize) -> Result<Term, Memory>
        requires { place < length self.now.nodes }
        ensures { IfOk result (λ t. t ≡ get_or (trees self.now.nodes) place (bound_name [])) }
    {
        term_at(alloc, self.nodes.as_slice(), place)
    }
}

impl TryCopy for Lines {
    fn copy(&self, alloc: Global) -> Result<Lines, Memory> {
        Ok(Lines {
            nodes: self.nodes.copy(alloc)?,
            lines: self.lines.copy(alloc)?,
        })
    }
}
