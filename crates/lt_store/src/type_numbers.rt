//! Types of parts of terms by their numbers.
ghost use Rattle.std.specs.Prelude.{◌≡◌, ◌<◌, ◌≤◌, ◌++◌, ◌∷◌, length, reverse, slice_get, None, Some, Result, Ok, IfOk, IfErr, OnOk};
ghost use Rattle.lt_definitions.specs.Types.{TypeTree, found};
ghost use Rattle.lt_definitions.specs.Typing.{Fault, applied_type, constant_type, type_fault, unless};
ghost use Rattle.lt_hol.specs.Faults.{Finds};
ghost use Rattle.lt_hol.specs.Outcomes.{IsOutcome};
ghost use Rattle.lt_hol.specs.TypeTables.{type_at, Extends};
ghost use Rattle.lt_store.specs.TypeNumbers.{GivesType, Enters};

use lt_hol::{Name, Outcome, Signature, Ty, TypeFault, TypeTable, Tys, applied_types};
use std::alloc::Global;

/// The number of a type where it is known, else what is wrong.
fn number_of(alloc: Global, types: &TypeTable, outcome: Outcome) -> Result<usize, TypeFault>
    requires { (typed : Result TypeTree Fault) × IsOutcome types.now outcome typed }
    ensures { (typed : Result TypeTree Fault) → IsOutcome types.now outcome typed → GivesType types.now typed result }
{
    match outcome {
        Outcome::Known(number) => Ok(number),
        Outcome::Mismatch(f, a) => {
            let function = types.ty(alloc, f)?;
            let argument = types.ty(alloc, a)?;
            Err(TypeFault::Mismatch(function, argument))
        }
        Outcome::Wrong(fault) => Err(fault),
    }
}

/// The number of a type without fault.
pub(crate) fn checked(
    alloc: Global,
    sig: &Signature,
    types: &mut TypeTable,
    ty: &Ty,
) -> Result<usize, TypeFault>
    ensures kept { Extends types.old types.new }
    ensures is { GivesType types.new (unless (type_fault sig.now ty.now) (Ok ty.now)) result }
{
    let outcome = sig.of_type(alloc, types, ty)?;
    number_of(alloc, types, outcome)
}

/// The number of a constant's type.
pub(crate) fn constant_number(
    alloc: Global,
    sig: &Signature,
    types: &mut TypeTable,
    name: &Name,
    args: &Tys,
) -> Result<usize, TypeFault>
    ensures kept { Extends types.old types.new }
    ensures is { GivesType types.new (constant_type sig.now name.now args.now (found name.now sig.now.consts)) result }
{
    let outcome = sig.of_constant(alloc, types, name, args)?;
    number_of(alloc, types, outcome)
}

/// The number of the type of an application.
pub(crate) fn applied(
    alloc: Global,
    types: &TypeTable,
    f: usize,
    a: usize,
) -> Result<usize, TypeFault>
    requires f { f < length types.now }
    requires a { a < length types.now }
    ensures { GivesType types.now (applied_type (type_at types.now f) (type_at types.now a)) result }
{
    number_of(alloc, types, applied_types(types, f, a))
}

/// The number of the type of a bound name's binder.
pub(crate) fn binder_number(binders: &Vec<usize>, index: usize) -> usize
    requires { index < length binders.now.items }
    ensures { slice_get (reverse binders.now.items) index ≡ Some result }
{
    binders[binders.len() - 1 - index]
}

/// Enters a binder of a type without fault. It answers the number that tells the types of the binders then.
pub(crate) fn enter(
    alloc: Global,
    sig: &Signature,
    types: &mut TypeTable,
    binders: &mut Vec<usize>,
    context: usize,
    ty: &Ty,
) -> Result<usize, TypeFault>
    requires { context < length types.old }
    ensures kept { Extends types.old types.new }
    ensures ok { IfOk result (Enters types.old types.new binders.old.items binders.new.items context ty.now) }
    ensures right { OnOk result (type_fault sig.now ty.now ≡ None) }
    ensures wrong { IfErr result (Finds (type_fault sig.now ty.now)) }
{
    match checked(alloc, sig, types, ty) {
        Ok(number) => {
            let inner = types.fun(alloc, number, context)?;
            binders.push(number)?;
            Ok(inner)
        }
        Err(fault) => Err(fault),
    }
}
