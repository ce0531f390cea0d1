//! Matching of a type against a pattern.
ghost use Rattle.std.specs.Prelude.{◌≡◌, ◌<◌, ◌≤◌, ◌∷◌, [], ◌++◌, IfOk, MatchOption, length, take};
ghost use Rattle.lt_definitions.specs.Types.{TypeMap, Matches, type_instance};
ghost use Rattle.lt_types.specs.Layout.{type_nodes, type_size, forest};
ghost use Rattle.lt_types.specs.Matching.{firsts_behind, AreOccurrences, BeginsAt};

use crate::list::TryCopy;
use crate::memory::Memory;
use crate::name::Name;
use crate::substitute::tsub;
use crate::ty::{Ty, TyNode};
use crate::ty_builder::TyBuilder;
use crate::ty_map::TyMap;
use std::alloc::Global;

/// The map on the pattern's variables that makes it the type, in order of first appearance; None
/// where there is none.
///
/// It takes time linear in both: the only map that can serve is read off, then it is tried.
pub fn match_type(alloc: Global, pattern: &Ty, ty: &Ty) -> Result<Option<TyMap>, Memory>
    ensures { IfOk result (λ o. MatchOption o ((m : TypeMap) → Matches pattern.now m ty.now
        → ⊥) (λ m. Matches pattern.now m ty.now)) }
{
    let Some(pairs) = occurrences(alloc, pattern, ty)? else {
        return Ok(None);
    };
    let map = firsts(alloc, pairs.as_slice())?;
    let instance = tsub(alloc, pattern, &map)?;
    if instance == *ty {
        Ok(Some(map))
    } else {
        Ok(None)
    }
}

/// The first pair of each name.
fn firsts(alloc: Global, pairs: &[(Name, Ty)]) -> Result<TyMap, Memory>
    ensures { IfOk result (λ m. m ≡ firsts_behind [] pairs.now) }
{
    let mut map = TyMap::new(alloc);
    for pair in pairs {
        if map.get(&pair.0).is_some() {
            continue;
        }
        map.put(alloc, pair.0.copy(alloc)?, pair.1.copy(alloc)?)?;
    }
    Ok(map)
}

/// What stands in the places of the pattern's variables, from the left; None where the type is no
/// instance.
fn occurrences(alloc: Global, pattern: &Ty, ty: &Ty) -> Result<Option<Vec<(Name, Ty)>>, Memory>
    ensures { IfOk result (λ o. MatchOption o ((m : TypeMap) → type_instance m pattern.now ≡ ty.now
        → ⊥) (λ v. AreOccurrences pattern.now ty.now v.items)) }
{
    let nodes = pattern.nodes();
    let mut pairs = Vec::new(alloc);
    let mut end = ty.len();
    for at in (0..nodes.len()).rev() {
        if end == 0 {
            return Ok(None);
        }
        match &nodes[at] {
            TyNode::Var(name) => {
                let start = start_of(ty, end);
                pairs.push((name.copy(alloc)?, part(alloc, ty, start, end)?))?;
                end = start;
            }
            TyNode::Con(_, _) => end -= 1,
        }
    }
    pairs.reverse();
    Ok(Some(pairs))
}

/// Where the last type begins that the nodes before a place make.
fn start_of(ty: &Ty, end: usize) -> usize
    requires above { 0 < end }
    requires within { end ≤ type_size ty.now }
    ensures { BeginsAt (type_nodes 0 ty.now) end result }
{
    let nodes = ty.nodes();
    let mut missing = 1;
    for at in (0..end).rev() {
        missing = missing - 1 + nodes[at].arguments();
        if missing == 0 {
            return at;
        }
    }
    unreachable!()
}

/// The type that lies between two places.
fn part(alloc: Global, ty: &Ty, start: usize, end: usize) -> Result<Ty, Memory>
    requires within { end ≤ type_size ty.now }
    requires begins { BeginsAt (type_nodes 0 ty.now) end start }
    ensures { IfOk result (λ t. forest [] (take end (type_nodes 0 ty.now))
        ≡ forest [] (take start (type_nodes 0 ty.now)) ++ t ∷ []) }
{
    let nodes = ty.nodes();
    let mut builder = TyBuilder::new(alloc);
    for at in start..end {
        builder = builder.node(alloc, &nodes[at])?;
    }
    builder.finish(alloc)
}
