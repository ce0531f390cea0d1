//! Opening of abstractions.
ghost use Rattle.std.specs.Prelude.{◌≡◌, [], Some, true, IfOk};
ghost use Rattle.lt_terms.specs.BoundNames.{binders_in};
ghost use Rattle.lt_terms.specs.Layout.{HasRoom};
ghost use Rattle.lt_terms.specs.Openings.{grow_open, is_abstraction, is_at, is_lambda, opening};

use crate::bound_names::{Binder, binders};
use crate::term::{Term, TermNode};
use crate::term_builder::TermBuilder;
use lt_types::{Memory, TryCopy};
use std::alloc::Global;

/// The body of an abstraction with another term put for the bound names of its binder; None where
/// the term is no abstraction.
///
/// It takes time linear in the term and in what is answered, where a look-up counts as one.
pub fn open_binder(alloc: Global, lam: &Term, by: &Term) -> Result<Option<Term>, Memory>
    ensures { IfOk result (λ r. r ≡ opening lam.now by.now) }
{
    if !is_abstraction(lam) {
        return Ok(None);
    }
    Ok(Some(opened_body(alloc, lam, by)?))
}

/// Whether a term is an abstraction.
fn is_abstraction(t: &Term) -> bool
    ensures { result ≡ is_abstraction t.now }
{
    is_lambda(t.node(t.len() - 1))
}

/// Whether a node is that of an abstraction.
fn is_lambda(node: &TermNode) -> bool
    ensures { result ≡ is_lambda node.now }
{
    match node {
        TermNode::Lam(_, _, _) => true,
        _ => false,
    }
}

/// The body of an abstraction with another term put for the bound names of its binder, which stands
/// at the root.
fn opened_body(alloc: Global, lam: &Term, by: &Term) -> Result<Term, Memory>
    requires { is_abstraction lam.now ≡ true }
    ensures { IfOk result (λ t. opening lam.now by.now ≡ Some t) }
{
    let binders = binders(alloc, lam)?;
    let nodes = lam.nodes();
    let root = nodes.len() - 1;
    let mut builder = TermBuilder::new(alloc);
    for at in 0..root {
        builder = put(builder, alloc, &nodes[at], binders[at], root, by)?;
    }
    Ok(builder.finish())
}

/// What a node makes of terms in which a term was put for the bound names of the binder at a place.
fn put(
    builder: TermBuilder,
    alloc: Global,
    node: &TermNode,
    binder: Option<Binder>,
    place: usize,
    by: &Term,
) -> Result<TermBuilder, Memory>
    requires { HasRoom builder node.now }
    ensures { IfOk result (λ b. b ≡ grow_open place by.now builder node.now binder) }
{
    if is_at(binder, place) {
        return Ok(builder.term(alloc, by)?);
    }
    Ok(builder.node(alloc, node.copy(alloc)?)?)
}

/// Whether a binder stands at a place.
fn is_at(binder: Option<Binder>, place: usize) -> bool
    ensures { result ≡ is_at place binder }
{
    match binder {
        Some(binder) => binder.place == place,
        None => false,
    }
}
