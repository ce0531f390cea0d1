//! Abstraction over a free variable.
ghost use Rattle.std.specs.Prelude.{◌≡◌, [], IfOk, false};
ghost use Rattle.lt_definitions.specs.Binding.{Closes, longest, new_binder};
ghost use Rattle.lt_nameless.specs.Nameless.{nameless, nameless_abstraction};
ghost use Rattle.lt_nameless.specs.NamelessRules.{abstracted};
ghost use Rattle.lt_terms.specs.NodeNames.{has_bound, is_bound_at, name_length};

use crate::replacing::subst_free;
use crate::term::{Term, TermNode};
use lt_types::{Memory, Name, TryCopy, Ty};
use std::alloc::Global;

/// The abstraction over the free variable of that name and type.
///
/// Its binder has the variable's name where the term has no binder and no bound name of that name,
/// else a name that is longer than those of the term; the clauses leave it free.
/// It takes time linear in the term and in the names of its binders.
pub fn close_free(alloc: Global, t: &Term, name: &Name, ty: &Ty) -> Result<Term, Memory>
    ensures closes { IfOk result (Closes name.now ty.now t.now) }
    ensures nameless { IfOk result (λ r. nameless [] r
        ≡ nameless_abstraction ty.now (abstracted 0 name.now ty.now (nameless [] t.now))) }
{
    let binder = unused_name(alloc, t, name)?;
    let bound = Term::bound(alloc, binder.copy(alloc)?)?;
    let body = subst_free(alloc, t, name, ty, &bound)?;
    Ok(Term::lam(alloc, binder, ty.copy(alloc)?, body)?)
}

/// That name or a longer one, which is no name of a binder and no bound name of the term.
fn unused_name(alloc: Global, t: &Term, name: &Name) -> Result<Name, Memory>
    ensures { IfOk result (λ n. has_bound n t.now ≡ false) }
{
    if has_bound(t, name) {
        return Ok(new_binder(alloc, t)?);
    }
    Ok(name.copy(alloc)?)
}

/// Whether the name is that of a binder or a bound name of the term.
fn has_bound(t: &Term, name: &Name) -> bool
    ensures { result ≡ has_bound name.now t.now }
{
    for node in t.nodes() {
        if is_bound_at(node, name) {
            return true;
        }
    }
    false
}

/// Whether the name is that of a node's binder, or the bound name of the node.
fn is_bound_at(node: &TermNode, name: &Name) -> bool
    ensures { result ≡ is_bound_at name.now node.now }
{
    match node {
        TermNode::Bound(other) => name == other,
        TermNode::Lam(other, _, _) => name == other,
        _ => false,
    }
}

/// A name that is longer than that of each binder and each bound name of the term.
fn new_binder(alloc: Global, t: &Term) -> Result<Name, Memory>
    ensures { IfOk result (λ n. n ≡ new_binder t.now) }
{
    Name::repeated(alloc, 'x', longest(t))
}

/// The greatest length of the name of a binder or a bound name.
fn longest(t: &Term) -> usize
    ensures { result ≡ longest t.now }
{
    let mut longest = 0;
    for node in t.nodes() {
        longest = longest.max(name_length(node));
    }
    longest
}

/// The length of the name of a node's binder, or of the bound name of the node.
fn name_length(node: &TermNode) -> usize
    ensures { result ≡ name_length node.now }
{
    match node {
        TermNode::Bound(name) => name.len(),
        TermNode::Lam(name, _, _) => name.len(),
        _ => 0,
    }
}
