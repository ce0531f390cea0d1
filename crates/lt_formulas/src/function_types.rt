//! Types of functions: what they go from and to.
ghost use Rattle.std.specs.Prelude.{◌≡◌, IfOk};
ghost use Rattle.lt_definitions.specs.Rules.{joined_type, predicate_over};
ghost use Rattle.lt_types.specs.FunctionTypes.{function_parts};

use lt_hol::{Memory, Name, TryCopy, Ty, match_type, tsub};
use std::alloc::Global;

/// The types that a function's type goes from and to; None where it is no function's type.
///
/// It takes time linear in the type, which is matched against the type of functions from 'a to 'x.
fn function_parts(alloc: Global, ty: &Ty) -> Result<Option<(Ty, Ty)>, Memory>
    ensures { IfOk result (λ parts. parts ≡ function_parts ty.now) }
{
    let from = Ty::var(alloc, Name::word(alloc, "a")?)?;
    let to = Ty::var(alloc, Name::word(alloc, "x")?)?;
    let pattern = Ty::fun(alloc, from.copy(alloc)?, to.copy(alloc)?)?;
    let Some(map) = match_type(alloc, &pattern, ty)? else {
        return Ok(None);
    };
    let from = tsub(alloc, &from, &map)?;
    let to = tsub(alloc, &to, &map)?;
    Ok(Some((from, to)))
}

/// The type of a function of one type applied to an argument of another; None where it doesn't take it.
pub fn joined_type(alloc: Global, function: &Ty, argument: &Ty) -> Result<Option<Ty>, Memory>
    ensures { IfOk result (λ ty. ty ≡ joined_type function.now argument.now) }
{
    let Some((from, to)) = function_parts(alloc, function)? else {
        return Ok(None);
    };
    if from == *argument {
        Ok(Some(to))
    } else {
        Ok(None)
    }
}

/// The type that a predicate's type is over; None where it is no predicate's type.
pub fn predicate_over(alloc: Global, ty: &Ty) -> Result<Option<Ty>, Memory>
    ensures { IfOk result (λ over. over ≡ predicate_over ty.now) }
{
    let Some((from, to)) = function_parts(alloc, ty)? else {
        return Ok(None);
    };
    let bool = Ty::bool(alloc)?;
    if to == bool { Ok(Some(from)) } else { Ok(None) }
}
