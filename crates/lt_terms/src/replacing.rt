//! Terms put for free variables.
ghost use Rattle.std.specs.Prelude.{◌≡◌, IfOk, List, map};
ghost use Rattle.lt_definitions.specs.Terms.{TermTree};
ghost use Rattle.lt_definitions.specs.Binding.{replaced};
ghost use Rattle.lt_terms.specs.FreeNodes.{is_free};
ghost use Rattle.lt_terms.specs.Layout.{HasRoom, grow};

use crate::term::{Term, TermNode};
use crate::term_builder::TermBuilder;
use lt_types::{Memory, Name, TryCopy, Ty};
use std::alloc::Global;

/// The term with another one put for each place of the free variable of that name and type.
///
/// It takes time linear in the term and in what is answered.
pub fn subst_free(alloc: Global, t: &Term, name: &Name, ty: &Ty, by: &Term) -> Result<Term, Memory>
    ensures { IfOk result (λ r. r ≡ replaced name.now ty.now by.now t.now) }
{
    let mut builder = TermBuilder::new(alloc);
    for node in t.nodes() {
        builder = put(builder, alloc, node, name, ty, by)?;
    }
    Ok(builder.finish())
}

/// What a node makes of terms in which the variable was replaced.
fn put(
    builder: TermBuilder,
    alloc: Global,
    node: &TermNode,
    name: &Name,
    ty: &Ty,
    by: &Term,
) -> Result<TermBuilder, Memory>
    requires { HasRoom builder node.now }
    ensures { IfOk result (λ b. (before : List TermTree)
        → builder ≡ map (replaced name.now ty.now by.now) before
        → b ≡ map (replaced name.now ty.now by.now) (grow before node.now)) }
{
    if is_free(node, name, ty) {
        return Ok(builder.term(alloc, by)?);
    }
    Ok(builder.node(alloc, node.copy(alloc)?)?)
}

/// Whether a node is the free variable of that name and type.
pub(crate) fn is_free(node: &TermNode, name: &Name, ty: &Ty) -> bool
    ensures { result ≡ is_free name.now ty.now node.now }
{
    match node {
        TermNode::Free(other, other_ty) => name == other && ty == other_ty,
        _ => false,
    }
}
