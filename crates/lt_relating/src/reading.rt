//! The parts of formulas that say that terms are related.
ghost use Rattle.std.specs.Prelude.{◌≡◌, ◌<◌, length, IfOk, IfSome};
ghost use Rattle.std.specs.Option.{option_map};
ghost use Rattle.lt_store.specs.Trees.{tree_at, trees, AllBelow};
ghost use Rattle.lt_relating.specs.RelatedSteps.{as_related, as_applied, four_types};
ghost use Rattle.lt_relating.specs.RelatorLaws.{relator_names};
ghost use Rattle.lt_relating.specs.Triples.{three_trees};

use lt_hol::{Ids, Memory, Names, TryCopy, Tys};
use lt_store::{Id, TermStore, View};
use lt_tables::word;
use std::alloc::Global;

/// The relation and the two terms of `R x y`.
pub(crate) fn related_parts<S: TermStore>(store: &S, t: Id) -> Option<(Id, Id, Id)>
    requires { t < length (S.nodes store.now) }
    ensures parts { option_map (three_trees (S.nodes store.now)) result
        ≡ as_related (tree_at (S.nodes store.now) t) }
    ensures within { IfSome result (λ p. (p.0 < length (S.nodes store.now))
        × (p.1 < length (S.nodes store.now)) × (p.2 < length (S.nodes store.now))) }
{
    match store.view(t) {
        View::App(left, y) => match store.view(left) {
            View::App(relation, x) => Some((relation, x, y)),
            _ => None,
        },
        _ => None,
    }
}

/// The type arguments of a constant that has four.
fn four_types<S: TermStore>(alloc: Global, store: &S, t: Id) -> Result<Option<Tys>, Memory>
    requires { t < length (S.nodes store.now) }
    ensures { IfOk result (λ o. o ≡ four_types (tree_at (S.nodes store.now) t)) }
{
    match store.view(t) {
        View::Const(_, types) => {
            if types.len() != 4 {
                return Ok(None);
            }
            Ok(Some(types.copy(alloc)?))
        }
        _ => Ok(None),
    }
}

/// Of `K R S f g` and `Q x y`: the type arguments of `K`, where it has four, and `R`, `S`, `f`,
/// `g`, `x`, `y`.
pub(crate) fn applied_parts<S: TermStore>(
    alloc: Global,
    store: &S,
    first: Id,
    second: Id,
) -> Result<Option<(Tys, Ids)>, Memory>
    requires first { first < length (S.nodes store.now) }
    requires second { second < length (S.nodes store.now) }
    ensures parts { IfOk result (λ o. option_map (λ p. (p.0, trees (S.nodes store.now) p.1)) o
        ≡ as_applied (tree_at (S.nodes store.now) first) (tree_at (S.nodes store.now) second)) }
    ensures within { IfOk result (λ o. IfSome o (λ p. AllBelow (length (S.nodes store.now)) p.1)) }
{
    let Some((functions, f, g)) = related_parts(store, first) else {
        return Ok(None);
    };
    let Some((head, r, s)) = related_parts(store, functions) else {
        return Ok(None);
    };
    let Some((_, x, y)) = related_parts(store, second) else {
        return Ok(None);
    };
    let Some(types) = four_types(alloc, store, head)? else {
        return Ok(None);
    };
    let terms = vec![in alloc; r, s, f, g, x, y]?;
    Ok(Some((types, Ids::from_vec(terms))))
}

/// The type variables of the two laws, in the order of the type arguments of `rel_fun`.
pub(crate) fn relator_names(alloc: Global) -> Result<Names, Memory>
    ensures { IfOk result (λ names. names ≡ relator_names) }
{
    let names = vec![in alloc;
        word(alloc, "a")?,
        word(alloc, "c")?,
        word(alloc, "b")?,
        word(alloc, "d")?,
    ]?;
    Ok(Names::from_vec(names))
}
