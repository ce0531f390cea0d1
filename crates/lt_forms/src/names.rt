//! The variables of types, and lists of names.
ghost use Rattle.std.specs.Prelude.{◌≡◌, ◌&&◌, IfOk, OnOk, ◌++◌};
ghost use Rattle.std.specs.List.{list_all};
ghost use Rattle.std.specs.Option.{option_copied};
ghost use Rattle.lt_definitions.specs.Types.{Chars, has_name, are_distinct, type_names};
ghost use Rattle.lt_terms.specs.Numberings.{variable_names};
ghost use Rattle.lt_transport_definitions.specs.Forms.{are_among};
ghost use Rattle.lt_forms.specs.Constructors.{constructor_at, constructor_of, variable_at, variable_of};

use indexmap::IndexSet;
use lt_hol::{List, Memory, Name, Names, TryCopy, Ty, TyNode};
use std::alloc::Global;

/// The variables of a type, each place from the left. It takes time linear in the type.
pub fn type_names(alloc: Global, ty: &Ty) -> Result<Names, Memory>
    ensures { IfOk result (λ names. names ≡ type_names ty.now) }
{
    let mut names = Vec::new(alloc);
    for node in ty.nodes() {
        push_variable(alloc, &mut names, node)?;
    }
    Ok(List::from_vec(names))
}

/// Adds the name of a node that is a variable.
fn push_variable(alloc: Global, names: &mut Vec<Name>, node: &TyNode) -> Result<(), Memory>
    ensures { OnOk result (names.new.items ≡ names.old.items ++ variable_names node.now) }
{
    match node {
        TyNode::Var(name) => {
            names.push(name.copy(alloc)?)?;
            Ok(())
        }
        TyNode::Con(_, _) => Ok(()),
    }
}

/// The constructor of a type; None where the type is a variable.
pub fn constructor_of(ty: &Ty) -> Option<&Name>
    ensures { option_copied result ≡ constructor_of ty.now }
{
    constructor_at(ty.node(ty.len() - 1))
}

/// The constructor of a node.
fn constructor_at(node: &TyNode) -> Option<&Name>
    ensures { option_copied result ≡ constructor_at node.now }
{
    match node {
        TyNode::Var(_) => None,
        TyNode::Con(name, _) => Some(name),
    }
}

/// The name of a type that is a variable; None where it is a constructor's.
pub fn variable_of(ty: &Ty) -> Option<&Name>
    ensures { option_copied result ≡ variable_of ty.now }
{
    variable_at(ty.node(ty.len() - 1))
}

/// The variable of a node.
fn variable_at(node: &TyNode) -> Option<&Name>
    ensures { option_copied result ≡ variable_at node.now }
{
    match node {
        TyNode::Var(name) => Some(name),
        TyNode::Con(_, _) => None,
    }
}

/// Whether no name stands twice. It takes time linear in their number, where a look-up counts as
/// one.
pub fn are_distinct(alloc: Global, names: &[Name]) -> Result<bool, Memory>
    ensures { IfOk result (λ b. b ≡ are_distinct names.now) }
{
    let mut later = IndexSet::new(alloc);
    let mut distinct = true;
    let mut at = names.len();
    while 0 < at {
        at -= 1;
        let new = later.insert(names[at].copy(alloc)?)?;
        distinct = both(new, distinct);
    }
    Ok(distinct)
}

/// Whether both hold.
fn both(left: bool, right: bool) -> bool
    ensures { result ≡ (left && right) }
{
    left && right
}

/// Whether all names of the first list are in the second. It takes time linear in both, where a
/// look-up counts as one.
pub fn are_among(alloc: Global, names: &[Name], others: &[Name]) -> Result<bool, Memory>
    ensures { IfOk result (λ b. b ≡ are_among names.now others.now) }
{
    let set = name_set(alloc, others)?;
    Ok(are_in(&set, names))
}

/// A set that has these names.
fn name_set(alloc: Global, names: &[Name]) -> Result<IndexSet<Name>, Memory>
    ensures { IfOk result (λ set. (x : Chars) → has_name x set.keys ≡ has_name x names.now) }
{
    let mut set = IndexSet::new(alloc);
    for name in names {
        set.insert(name.copy(alloc)?)?;
    }
    Ok(set)
}

/// Whether all names are in a set.
fn are_in(set: &IndexSet<Name>, names: &[Name]) -> bool
    ensures { result ≡ list_all (λ x. has_name x set.now.keys) names.now }
{
    names.iter().all(|name| set.contains(name))
}
