//! Statements that apply a predicate.
ghost use Rattle.std.specs.Prelude.{◌≡◌, ◌<◌, Some as Just, IfOk, length};
ghost use Rattle.lt_definitions.specs.Terms.{TermTree};
ghost use Rattle.lt_definitions.specs.Theory.{is_applied};
ghost use Rattle.lt_terms.specs.Layout.{term_nodes, term_size};
ghost use Rattle.lt_conditions.specs.Applied.{function_of, IsFrontPlace};

use lt_hol::{Memory, Term, TermBuilder, TermNode, TryCopy, alpha_eq};
use std::alloc::Global;

/// Whether a statement applies a term that is alpha-equal to the predicate.
pub fn is_applied(alloc: Global, predicate: &Term, statement: &Term) -> Result<bool, Memory>
    ensures { IfOk result (λ yes. yes ≡ is_applied predicate.now (Just statement.now)) }
{
    match function_of(alloc, statement)? {
        Some(head) => alpha_eq(alloc, predicate, &head),
        None => Ok(false),
    }
}

/// The function of an application; None where the term is none.
fn function_of(alloc: Global, t: &Term) -> Result<Option<Term>, Memory>
    ensures { IfOk result (λ o. o ≡ function_of t.now) }
{
    match t.node(t.len() - 1) {
        TermNode::App(function, _) => Ok(Some(term_to(alloc, t, *function)?)),
        _ => Ok(None),
    }
}

/// The term that the nodes up to the one at a place make.
fn term_to(alloc: Global, t: &Term, place: usize) -> Result<Term, Memory>
    requires { IsFrontPlace t.now place }
    ensures { IfOk result (λ f. function_of t.now ≡ Just f) }
{
    let nodes = t.nodes();
    let count = place + 1;
    term_of(alloc, &nodes[..count])
}

/// The term that nodes make.
fn term_of(alloc: Global, nodes: &[TermNode]) -> Result<Term, Memory>
    requires { (f : TermTree) × (nodes.now ≡ term_nodes 0 f) }
    ensures { IfOk result (λ t. (f : TermTree) → nodes.now ≡ term_nodes 0 f → t ≡ f) }
{
    let mut builder = TermBuilder::new(alloc);
    for node in nodes {
        builder = builder.node(alloc, node.copy(alloc)?)?;
    }
    Ok(builder.finish())
}
