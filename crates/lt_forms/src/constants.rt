//! Constants that are declared with a type, and those of the laws.
ghost use Rattle.std.specs.Prelude.{◌≡◌, Some, IfOk};
ghost use Rattle.lt_definitions.specs.Types.{found};
ghost use Rattle.lt_tables.specs.Stacks.{type_with};
ghost use Rattle.lt_transport_definitions.specs.Constants.{constant_types, is_declared_as, is_counted};
ghost use Rattle.lt_transport_definitions.specs.Patterns.{is_same_type_up_to_names};

use lt_hol::{Memory, Name, Signature, Term, TryCopy, Ty, same_up_to_types};
use lt_tables::{type_with, word};
use std::alloc::Global;

/// Whether a constant is declared with this type, up to type names. It takes time linear in both
/// types, where a look-up counts as one.
pub fn is_declared_as(alloc: Global, sig: &Signature, name: &Name, ty: &Ty) -> Result<bool, Memory>
    ensures { IfOk result (λ b. b ≡ is_declared_as sig.now name.now ty.now) }
{
    match sig.const_type(name) {
        Some(declared) => Ok(is_same_type(alloc, ty, declared)?),
        None => Ok(false),
    }
}

/// Whether two types are the same up to type names.
fn is_same_type(alloc: Global, left: &Ty, right: &Ty) -> Result<bool, Memory>
    ensures { IfOk result (λ b. b ≡ is_same_type_up_to_names left.now right.now) }
{
    let s = Term::free(alloc, word(alloc, "x")?, left.copy(alloc)?)?;
    let t = Term::free(alloc, word(alloc, "x")?, right.copy(alloc)?)?;
    Ok(same_up_to_types(alloc, &s, &t)?)
}

/// Whether a constant of the laws counts as such: it is declared with the type of the table, which
/// is the one with which the text declares the letter `x`.
pub fn is_counted(alloc: Global, sig: &Signature, name: &Name, types: &str) -> Result<bool, Memory>
    requires { found name.now constant_types ≡ Some (type_with types.now 120) }
    ensures { IfOk result (λ b. b ≡ is_counted sig.now name.now) }
{
    let ty = type_with(alloc, types, b'x')?;
    Ok(is_declared_as(alloc, sig, name, &ty)?)
}
