//! The variables of a type.
ghost use Rattle.std.specs.Prelude.{◌≡◌, IfOk};
ghost use Rattle.lt_definitions.specs.Types.{type_variables};

use indexmap::IndexSet;
use lt_types::{Memory, Name, TryCopy, Ty, TyNode};
use std::alloc::Global;

/// The type's variables in order of first appearance.
///
/// It takes time linear in the type, where a look-up counts as one.
pub(crate) fn type_variables(alloc: Global, ty: &Ty) -> Result<IndexSet<Name>, Memory>
    ensures { IfOk result (λ names. names.keys ≡ type_variables ty.now) }
{
    let mut names = IndexSet::new(alloc);
    for node in ty.nodes() {
        if let TyNode::Var(name) = node {
            names.insert(name.copy(alloc)?)?;
        }
    }
    Ok(names)
}
