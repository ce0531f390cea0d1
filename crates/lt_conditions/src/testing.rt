//! The tests that items have in common.
ghost use Rattle.std.specs.Prelude.{◌≡◌, [], Ok as Fine};
ghost use Rattle.lt_definitions.specs.Types.{same_type, bool, row};
ghost use Rattle.lt_definitions.specs.Typing.{type_fault, typed};
ghost use Rattle.lt_definitions.specs.Derivations.{term_fault};
ghost use Rattle.lt_definitions.specs.Theory.{fault_test, boolean_test, new_name, closed_test, variables_test};
ghost use Rattle.lt_conditions.specs.Refusing.{Tests};
ghost use Rattle.lt_conditions.specs.Testing.{IsTypeOf};

use crate::closed::is_closed;
use crate::item_fault::{ItemFault, of_type};
use crate::loose::loose_variable;
use indexmap::{IndexMap, IndexSet};
use lt_hol::{Name, Signature, Term, TryCopy, Ty};
use std::alloc::Global;

/// The named statements, by label, in the order in which they came.
pub type Statements = IndexMap<Name, Term>;

/// Refuses a type that has a fault.
pub fn check_type(alloc: Global, sig: &Signature, ty: &Ty) -> Result<(), ItemFault>
    ensures { Tests (fault_test (type_fault sig.now ty.now)) result }
{
    match sig.check_type(alloc, ty) {
        Ok(()) => Ok(()),
        Err(fault) => Err(of_type(fault)),
    }
}

/// The type of a term, or its first fault.
pub fn type_of(alloc: Global, sig: &Signature, t: &Term) -> Result<Ty, ItemFault>
    ensures { IsTypeOf sig.now t.now result }
{
    match sig.type_of(alloc, t) {
        Ok(ty) => Ok(ty),
        Err(fault) => Err(of_type(fault)),
    }
}

/// Refuses a term that has another type than that of truth values, or none.
pub fn check_boolean(alloc: Global, sig: &Signature, t: &Term) -> Result<(), ItemFault>
    ensures { Tests (boolean_test (typed sig.now [] t.now)) result }
{
    match type_of(alloc, sig, t) {
        Ok(ty) => check_bool(alloc, ty),
        Err(fault) => Err(fault),
    }
}

/// Refuses a type that isn't that of truth values.
fn check_bool(alloc: Global, ty: Ty) -> Result<(), ItemFault>
    ensures { Tests (boolean_test (Fine ty)) result }
{
    let bool = Ty::bool(alloc)?;
    if ty == bool {
        return Ok(());
    }
    Err(ItemFault::NotBool(ty))
}

/// Refuses the name of a type that is there.
pub fn check_new_type(alloc: Global, sig: &Signature, name: &Name) -> Result<(), ItemFault>
    ensures { Tests (new_name sig.now.types name.now) result }
{
    if sig.arity(name).is_some() {
        return Err(ItemFault::Duplicate(name.copy(alloc)?));
    }
    Ok(())
}

/// Refuses the name of a constant that is there.
pub fn check_new_const(alloc: Global, sig: &Signature, name: &Name) -> Result<(), ItemFault>
    ensures { Tests (new_name sig.now.consts name.now) result }
{
    if sig.const_type(name).is_some() {
        return Err(ItemFault::Duplicate(name.copy(alloc)?));
    }
    Ok(())
}

/// Refuses the label of a statement that is there.
pub fn check_new_label(
    alloc: Global,
    statements: &Statements,
    label: &Name,
) -> Result<(), ItemFault>
    ensures { Tests (new_name statements.now.entries label.now) result }
{
    if statements.get(label).is_some() {
        return Err(ItemFault::Duplicate(label.copy(alloc)?));
    }
    Ok(())
}

/// Refuses a term that has a free variable.
pub fn check_closed(t: &Term) -> Result<(), ItemFault>
    ensures { Tests (closed_test t.now) result }
{
    if is_closed(t) {
        return Ok(());
    }
    Err(ItemFault::OpenTerm)
}

/// Refuses a term that has a type variable which isn't one of these. The first from the left is told.
pub fn check_variables(alloc: Global, allowed: &IndexSet<Name>, t: &Term) -> Result<(), ItemFault>
    ensures { Tests (variables_test allowed.now.keys t.now) result }
{
    match loose_variable(alloc, allowed, t)? {
        Some(name) => Err(ItemFault::LooseTypeVar(name)),
        None => Ok(()),
    }
}
