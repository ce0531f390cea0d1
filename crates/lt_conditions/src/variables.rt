//! The variables of types, and lists of names as sets.
ghost use Rattle.std.specs.Prelude.{◌≡◌, [], map, length, IfOk, OnOk};
ghost use Rattle.lt_definitions.specs.Types.{names_joined, type_variable, type_variables};

use indexmap::IndexSet;
use lt_hol::{List, Memory, Name, TryCopy, Ty, TyNode, Tys};
use std::alloc::Global;

/// The type's variables in order of first appearance.
///
/// It takes time linear in the type, where a look-up counts as one.
pub fn type_variables(alloc: Global, ty: &Ty) -> Result<IndexSet<Name>, Memory>
    ensures { IfOk result (λ names. names.keys ≡ type_variables ty.now) }
{
    let mut names = IndexSet::new(alloc);
    for node in ty.nodes() {
        if let TyNode::Var(name) = node {
            names.insert(name.copy(alloc)?)?;
        }
    }
    Ok(names)
}

/// The names, each once, in order of first appearance.
///
/// It takes time linear in their number, where a look-up counts as one.
pub fn name_set(alloc: Global, names: &[Name]) -> Result<IndexSet<Name>, Memory>
    ensures { IfOk result (λ set. set.keys ≡ names_joined [] names.now) }
{
    let mut set = IndexSet::new(alloc);
    for name in names {
        set.insert(name.copy(alloc)?)?;
    }
    Ok(set)
}

/// The type's variables as types, in order of first appearance.
pub fn own_variables(alloc: Global, ty: &Ty) -> Result<Tys, Memory>
    ensures { IfOk result (λ ts. ts ≡ map type_variable (type_variables ty.now)) }
{
    let names = type_variables(alloc, ty)?;
    let mut types = List::new(alloc);
    for name in &names {
        types.push(alloc, Ty::var(alloc, name.copy(alloc)?)?)?;
    }
    Ok(types)
}
