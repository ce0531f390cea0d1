//! How terms grow: those of statements in a builder, those of lines among the nodes that the lines
//! share.
ghost use Rattle.std.specs.Prelude.{◌≡◌, ◌∷◌, ◌++◌, [], length, true, false, OnOk, MatchOption, ⊤};
ghost use Rattle.lt_terms.specs.Layout.{IsLeaf, grow, applied, abstracted};
ghost use Rattle.lt_hol.specs.Lines.{has_children_below, is_within, rule_of, trees, tree_of};
ghost use Rattle.lt_commands.specs.Places.{term_at, IsPlaceWithin};
ghost use Rattle.lt_commands.specs.Sinks.{sunk, sunk_by, nothing_sunk, kept_by};

use crate::term_sink::TermSink;
use lt_hol::{Line, Lines};
use lt_terms::{TermBuilder, TermNode};
use lt_types::{Memory, Name, Ty};
use std::alloc::Global;
use std::mem;

impl TermSink {
    /// No terms yet.
    pub(crate) fn new(alloc: Global) -> TermSink
        ensures { sunk result ≡ nothing_sunk }
    {
        TermSink {
            builder: TermBuilder::new(alloc),
            wholes: Vec::new(alloc),
            lines: Lines::new(alloc),
            roots: Vec::new(alloc),
            places: Vec::new(alloc),
            sharing: false,
        }
    }

    /// Lines begin: further terms are theirs.
    pub(crate) fn begin(&mut self)
        ensures { sunk self.new ≡ record (sunk self.old) { growing = []; sharing = true } }
    {
        self.roots.clear();
        self.sharing = true;
    }

    /// One more term, a node without children.
    pub(crate) fn leaf(&mut self, alloc: Global, node: TermNode) -> Result<(), Memory>
        requires { IsLeaf node }
        ensures { OnOk result (sunk self.new
            ≡ record (sunk self.old) { growing = grow (sunk self.old).growing node }) }
    {
        if self.sharing {
            return self.share(alloc, node);
        }
        let builder = mem::replace(&mut self.builder, TermBuilder::new(alloc));
        self.builder = builder.node(alloc, node)?;
        Ok(())
    }

    /// The newest two terms become an application; if there are no two, none stays.
    pub(crate) fn app(&mut self, alloc: Global) -> Result<(), Memory>
        ensures { OnOk result (sunk self.new
            ≡ record (sunk self.old) { growing = applied (sunk self.old).growing }) }
    {
        if self.sharing {
            return self.share_app(alloc);
        }
        let builder = mem::replace(&mut self.builder, TermBuilder::new(alloc));
        if builder.len() >= 2 {
            self.builder = builder.app(alloc)?;
        }
        Ok(())
    }

    /// The newest term, if there is one, becomes the body of an abstraction.
    pub(crate) fn lam(&mut self, alloc: Global, name: Name, ty: Ty) -> Result<(), Memory>
        ensures { OnOk result (sunk self.new
            ≡ record (sunk self.old) { growing = abstracted name ty (sunk self.old).growing }) }
    {
        if self.sharing {
            return self.share_lam(alloc, name, ty);
        }
        let builder = mem::replace(&mut self.builder, TermBuilder::new(alloc));
        if builder.len() >= 1 {
            self.builder = builder.lam(alloc, name, ty)?;
        }
        Ok(())
    }

    /// The newest term is whole; a statement's, if it is the only one.
    pub(crate) fn keep(&mut self, alloc: Global) -> Result<(), Memory>
        ensures { OnOk result (sunk self.new
            ≡ kept_by self.old.sharing (sunk self.old).growing (sunk self.old)) }
    {
        if self.sharing {
            return self.share_keep();
        }
        if self.builder.len() == 1 {
            let builder = mem::replace(&mut self.builder, TermBuilder::new(alloc));
            self.wholes.push(builder.finish())?;
        }
        Ok(())
    }

    /// One more node behind those of the lines, as a term that is being made.
    fn share(&mut self, alloc: Global, node: TermNode) -> Result<(), Memory>
        requires { has_children_below (length self.old.lines.nodes) node ≡ true }
        ensures { OnOk result (sunk_by true self.new ≡ record (sunk_by true self.old) {
          growing = tree_of (trees self.old.lines.nodes) node
              ∷ (sunk_by true self.old).growing;
        }) }
    {
        let place = self.lines.add_node(alloc, node)?;
        self.roots.push(place)?;
        Ok(())
    }

    /// The newest two terms become an application among the nodes of the lines.
    fn share_app(&mut self, alloc: Global) -> Result<(), Memory>
        ensures { OnOk result (sunk_by true self.new ≡ record (sunk_by true self.old) {
          growing = applied (sunk_by true self.old).growing;
        }) }
    {
        let Some(argument) = self.roots.pop() else {
            return Ok(());
        };
        let Some(function) = self.roots.pop() else {
            return Ok(());
        };
        self.share(alloc, TermNode::App(function, argument))
    }

    /// The newest term becomes the body of an abstraction among the nodes of the lines.
    fn share_lam(&mut self, alloc: Global, name: Name, ty: Ty) -> Result<(), Memory>
        ensures { OnOk result (sunk_by true self.new ≡ record (sunk_by true self.old) {
          growing = abstracted name ty (sunk_by true self.old).growing;
        }) }
    {
        let Some(body) = self.roots.pop() else {
            return Ok(());
        };
        self.share(alloc, TermNode::Lam(name, ty, body))
    }

    /// The newest term of a line is whole.
    fn share_keep(&mut self) -> Result<(), Memory>
        ensures { OnOk result (sunk_by true self.new
            ≡ kept_by true (sunk_by true self.old).growing (sunk_by true self.old)) }
    {
        let Some(root) = self.roots.pop() else {
            return Ok(());
        };
        self.places.push(root)?;
        Ok(())
    }

    /// One more line. The places of its terms have to be there already.
    pub(crate) fn push_line(&mut self, alloc: Global, line: Line) -> Result<(), Memory>
        requires { is_within (length self.old.lines.nodes) line ≡ true }
        ensures { OnOk result (sunk self.new ≡ record (sunk self.old) {
          lines = (sunk self.old).lines ++ rule_of (trees self.old.lines.nodes) line ∷ [];
        }) }
    {
        self.lines.push(alloc, line)
    }

    /// The place of the newest term of a line that is whole.
    pub(crate) fn place(&mut self) -> Option<usize>
        ensures place { MatchOption result ((sunk self.old).shared ≡ [])
            (λ p. (sunk self.old).shared
            ≡ term_at self.old.lines.nodes p ∷ (sunk self.new).shared) }
        ensures left { sunk self.new ≡ record (sunk self.old) { shared = (sunk self.new).shared } }
        ensures none { MatchOption result ((sunk self.new).shared ≡ []) (λ p. ⊤) }
        ensures nodes { self.new.lines.nodes ≡ self.old.lines.nodes }
        ensures within { IsPlaceWithin self.old.lines.nodes result }
    {
        self.places.pop()
    }
}
