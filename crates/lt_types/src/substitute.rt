//! Substitution of types for type variables.
ghost use Rattle.std.specs.Prelude.{◌≡◌, IfOk, List, map};
ghost use Rattle.lt_definitions.specs.Types.{TypeTree, type_instance};
ghost use Rattle.lt_types.specs.Layout.{HasRoom, grow};

use crate::list::TryCopy;
use crate::memory::Memory;
use crate::ty::{Ty, TyNode};
use crate::ty_builder::TyBuilder;
use crate::ty_map::TyMap;
use std::alloc::Global;

/// The type with types put for its variables, all at once.
///
/// It takes time linear in the nodes of both types, where a look-up counts as one.
pub fn tsub(alloc: Global, ty: &Ty, by: &TyMap) -> Result<Ty, Memory>
    ensures { IfOk result (λ t. t ≡ type_instance by.now ty.now) }
{
    let mut builder = TyBuilder::new(alloc);
    for node in ty.nodes() {
        builder = put(builder, alloc, node, by)?;
    }
    builder.finish(alloc)
}

/// What a node makes of types whose variables were replaced.
fn put(builder: TyBuilder, alloc: Global, node: &TyNode, by: &TyMap) -> Result<TyBuilder, Memory>
    requires { HasRoom builder node.now }
    ensures { IfOk result (λ b. (before : List TypeTree)
        → builder ≡ map (type_instance by.now) before
        → b ≡ map (type_instance by.now) (grow before node.now)) }
{
    match node {
        TyNode::Var(name) => match by.get(name) {
            Some(image) => builder.ty(alloc, image),
            None => builder.var(alloc, name.copy(alloc)?),
        },
        TyNode::Con(name, places) => Ok(builder.con(alloc, name.copy(alloc)?, places.len())?),
    }
}
