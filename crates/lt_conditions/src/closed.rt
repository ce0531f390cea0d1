//! Whether a term is closed.
ghost use Rattle.std.specs.Prelude.{◌≡◌};
ghost use Rattle.lt_definitions.specs.Terms.{is_closed};
ghost use Rattle.lt_conditions.specs.FreeNodes.{is_free};

use lt_hol::{Term, TermNode};

/// Whether a term has no free variable. It takes time linear in its nodes.
pub fn is_closed(t: &Term) -> bool
    ensures { result ≡ is_closed t.now }
{
    for node in t.nodes() {
        if is_free(node) {
            return false;
        }
    }
    true
}

/// Whether a node is a free variable.
fn is_free(node: &TermNode) -> bool
    ensures { result ≡ is_free node.now }
{
    matches!(node, TermNode::Free(_, _))
}
