//! The tests of an item over those before it, in their order.
ghost use Rattle.std.specs.Prelude.{◌≡◌, ◌∷◌, [], Ok as Fine};
ghost use Rattle.lt_definitions.specs.Types.{same_name, type_variables};
ghost use Rattle.lt_definitions.specs.Items.{rep_label, rep_inverse_label, abs_inverse_label, type_item, const_item, axiom_item, def_item, typedef_item};
ghost use Rattle.lt_definitions.specs.Theory.{duplicate, refusal, first_of, refused_where, new_name, closed_test, variables_test, stated_type_test};
ghost use Rattle.lt_conditions.specs.Refusing.{Tests, context_at};
ghost use Rattle.lt_conditions.specs.ItemTests.{IsRawType, IsNamed, IsPredicate, HasShape};

use crate::applied::is_applied;
use crate::item_fault::ItemFault;
use crate::labels::{abs_inverse_label, definition_label, rep_inverse_label, rep_label};
use crate::testing::{
    Statements, check_boolean, check_closed, check_new_const, check_new_label, check_new_type,
    check_type, check_variables, type_of,
};
use crate::variables::{name_set, type_variables};
use lt_formulas::predicate_over;
use lt_hol::{Name, Names, Signature, Term, TryCopy, Ty};
use std::alloc::Global;

/// The tests of a type that is declared.
pub fn test_type(
    alloc: Global,
    sig: &Signature,
    statements: &Statements,
    name: &Name,
    _arity: usize,
) -> Result<(), ItemFault>
    ensures { Tests (refusal (context_at sig.now statements.now.entries)
        (type_item name.now _arity)) result }
{
    check_new_type(alloc, sig, name)
}

/// The tests of a constant that is declared.
pub fn test_const(
    alloc: Global,
    sig: &Signature,
    _statements: &Statements,
    name: &Name,
    ty: &Ty,
) -> Result<(), ItemFault>
    ensures { Tests (refusal (context_at sig.now _statements.now.entries)
        (const_item name.now ty.now)) result }
{
    match check_type(alloc, sig, ty) {
        Ok(()) => {}
        Err(fault) => return Err(fault),
    }
    check_new_const(alloc, sig, name)
}

/// The tests of an axiom, and those of a lemma that come before its lines.
pub fn test_statement(
    alloc: Global,
    sig: &Signature,
    statements: &Statements,
    label: &Name,
    statement: &Term,
) -> Result<(), ItemFault>
    ensures { Tests (refusal (context_at sig.now statements.now.entries)
        (axiom_item label.now statement.now)) result }
{
    match check_boolean(alloc, sig, statement) {
        Ok(()) => {}
        Err(fault) => return Err(fault),
    }
    match check_new_label(alloc, statements, label) {
        Ok(()) => {}
        Err(fault) => return Err(fault),
    }
    check_closed(statement)
}

/// The tests of a definition.
pub fn test_definition(
    alloc: Global,
    sig: &Signature,
    statements: &Statements,
    name: &Name,
    ty: &Ty,
    body: &Term,
) -> Result<(), ItemFault>
    ensures { Tests (refusal (context_at sig.now statements.now.entries)
        (def_item name.now ty.now body.now)) result }
{
    match check_type(alloc, sig, ty) {
        Ok(()) => {}
        Err(fault) => return Err(fault),
    }
    let found = match type_of(alloc, sig, body) {
        Ok(found) => found,
        Err(fault) => return Err(fault),
    };
    match check_new_const(alloc, sig, name) {
        Ok(()) => {}
        Err(fault) => return Err(fault),
    }
    let label = definition_label(alloc, name)?;
    match check_new_label(alloc, statements, &label) {
        Ok(()) => {}
        Err(fault) => return Err(fault),
    }
    check_body(alloc, ty, found, body)
}

/// The tests of a definition's body of this type: the stated type, no free variable, no loose type
/// variable.
fn check_body(alloc: Global, ty: &Ty, found: Ty, body: &Term) -> Result<(), ItemFault>
    ensures { Tests (first_of (stated_type_test ty.now (Fine found) ∷ closed_test body.now
        ∷ variables_test (type_variables ty.now) body.now ∷ [])) result }
{
    match check_stated(alloc, ty, found) {
        Ok(()) => {}
        Err(fault) => return Err(fault),
    }
    match check_closed(body) {
        Ok(()) => {}
        Err(fault) => return Err(fault),
    }
    let allowed = type_variables(alloc, ty)?;
    check_variables(alloc, &allowed, body)
}

/// Refuses a body of another type than is stated.
fn check_stated(alloc: Global, ty: &Ty, found: Ty) -> Result<(), ItemFault>
    ensures { Tests (stated_type_test ty.now (Fine found)) result }
{
    if *ty == found {
        return Ok(());
    }
    Err(ItemFault::Mismatch(ty.copy(alloc)?, found))
}

/// The tests of a typedef. It answers the type that the predicate is over.
pub fn test_typedef(
    alloc: Global,
    sig: &Signature,
    statements: &Statements,
    name: &Name,
    params: &Names,
    predicate: &Term,
    by: &Name,
    abs: &Name,
    rep: &Name,
) -> Result<Ty, ItemFault>
    ensures { IsRawType (context_at sig.now statements.now.entries) name.now params.now
        predicate.now by.now abs.now rep.now result }
{
    let found = match type_of(alloc, sig, predicate) {
        Ok(found) => found,
        Err(fault) => return Err(fault),
    };
    let inhabited = match named(alloc, sig, statements, by) {
        Ok(inhabited) => inhabited,
        Err(fault) => return Err(fault),
    };
    match check_typedef_names(alloc, sig, name, abs, rep) {
        Ok(()) => {}
        Err(fault) => return Err(fault),
    }
    match check_typedef_labels(alloc, statements, name) {
        Ok(()) => {}
        Err(fault) => return Err(fault),
    }
    check_predicate(alloc, params, predicate, found, inhabited)
}

/// The statement of a label.
fn named<'a>(
    alloc: Global,
    _sig: &Signature,
    statements: &'a Statements,
    label: &Name,
) -> Result<&'a Term, ItemFault>
    ensures { IsNamed (context_at _sig.now statements.now.entries) label.now result }
{
    match statements.get(label) {
        Some(statement) => Ok(statement),
        None => Err(ItemFault::UnknownLabel(label.copy(alloc)?)),
    }
}

/// Refuses a typedef's names that aren't new.
fn check_typedef_names(
    alloc: Global,
    sig: &Signature,
    name: &Name,
    abs: &Name,
    rep: &Name,
) -> Result<(), ItemFault>
    ensures { Tests (first_of (new_name sig.now.types name.now ∷ new_name sig.now.consts rep.now
        ∷ new_name sig.now.consts abs.now
        ∷ refused_where (same_name abs.now rep.now) (duplicate abs.now) ∷ [])) result }
{
    match check_new_type(alloc, sig, name) {
        Ok(()) => {}
        Err(fault) => return Err(fault),
    }
    match check_new_const(alloc, sig, rep) {
        Ok(()) => {}
        Err(fault) => return Err(fault),
    }
    match check_new_const(alloc, sig, abs) {
        Ok(()) => {}
        Err(fault) => return Err(fault),
    }
    check_other(alloc, abs, rep)
}

/// Refuses a name that is the other one.
fn check_other(alloc: Global, name: &Name, other: &Name) -> Result<(), ItemFault>
    ensures { Tests (refused_where (same_name name.now other.now) (duplicate name.now)) result }
{
    if name == other {
        return Err(ItemFault::Duplicate(name.copy(alloc)?));
    }
    Ok(())
}

/// Refuses a typedef's labels that aren't new.
fn check_typedef_labels(
    alloc: Global,
    statements: &Statements,
    name: &Name,
) -> Result<(), ItemFault>
    ensures { Tests (first_of (new_name statements.now.entries (rep_label name.now)
        ∷ new_name statements.now.entries (rep_inverse_label name.now)
        ∷ new_name statements.now.entries (abs_inverse_label name.now) ∷ [])) result }
{
    let label = rep_label(alloc, name)?;
    match check_new_label(alloc, statements, &label) {
        Ok(()) => {}
        Err(fault) => return Err(fault),
    }
    let label = rep_inverse_label(alloc, name)?;
    match check_new_label(alloc, statements, &label) {
        Ok(()) => {}
        Err(fault) => return Err(fault),
    }
    let label = abs_inverse_label(alloc, name)?;
    check_new_label(alloc, statements, &label)
}

/// The tests of a typedef's predicate of this type: no free variable, no loose type variable, and
/// the shape. It answers the type that the predicate is over.
fn check_predicate(
    alloc: Global,
    params: &Names,
    predicate: &Term,
    found: Ty,
    inhabited: &Term,
) -> Result<Ty, ItemFault>
    ensures { IsPredicate params.now predicate.now found inhabited.now result }
{
    match check_closed(predicate) {
        Ok(()) => {}
        Err(fault) => return Err(fault),
    }
    let allowed = name_set(alloc, params.as_slice())?;
    match check_variables(alloc, &allowed, predicate) {
        Ok(()) => {}
        Err(fault) => return Err(fault),
    }
    let distinct = allowed.len() == params.len();
    check_shape(alloc, distinct, predicate, found, inhabited)
}

/// Refuses what isn't of a typedef's shape. It answers the type that the predicate is over.
fn check_shape(
    alloc: Global,
    distinct: bool,
    predicate: &Term,
    found: Ty,
    inhabited: &Term,
) -> Result<Ty, ItemFault>
    ensures { HasShape distinct predicate.now found inhabited.now result }
{
    let Some(raw) = predicate_over(alloc, &found)? else {
        return Err(ItemFault::TypedefShape);
    };
    if !distinct {
        return Err(ItemFault::TypedefShape);
    }
    if !is_applied(alloc, predicate, inhabited)? {
        return Err(ItemFault::TypedefShape);
    }
    Ok(raw)
}
