//! The types of relations.
ghost use Rattle.std.specs.Prelude.{◌≡◌, IfOk, codes};
ghost use Rattle.lt_definitions.specs.Types.{type_variable, type_instance};
ghost use Rattle.lt_transport_definitions.specs.Patterns.{relation_sides};

use lt_hol::{Memory, Ty, TyMap, match_type, tsub};
use lt_tables::type_with;
use std::alloc::Global;

/// The two types between which the relations of a type are; None where it is no type of relations.
///
/// It takes time linear in the type.
pub fn relation_sides(alloc: Global, ty: &Ty) -> Result<Option<(Ty, Ty)>, Memory>
    ensures { IfOk result (λ o. o ≡ relation_sides ty.now) }
{
    let relation = type_with(alloc, "a:b:~x=", b'x')?;
    match match_type(alloc, &relation, ty)? {
        Some(map) => Ok(Some(sides_by(alloc, &map)?)),
        None => Ok(None),
    }
}

/// What a map has for the two sides.
fn sides_by(alloc: Global, map: &TyMap) -> Result<(Ty, Ty), Memory>
    ensures { IfOk result (λ s. s ≡ (
      type_instance map.now (type_variable (codes "a")),
      type_instance map.now (type_variable (codes "b")),
    )) }
{
    let left = type_with(alloc, "", b'a')?;
    let right = type_with(alloc, "", b'b')?;
    Ok((tsub(alloc, &left, map)?, tsub(alloc, &right, map)?))
}
