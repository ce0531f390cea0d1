//! Lists of hypotheses: removal and union up to alpha equality.
ghost use Rattle.std.specs.Prelude.{◌≡◌, ◌<◌, ◌∷◌, [], length, IfOk};
ghost use Rattle.std.specs.List.{list_any};
ghost use Rattle.lt_nameless.specs.NamelessRules.{same_nameless, nameless_union, nameless_without};
ghost use Rattle.lt_store.specs.Trees.{tree_at, trees, AllBelow};

use lt_hol::{Ids, Memory, TryCopy};
use lt_store::{Id, TermStore};
use std::alloc::Global;

/// A list of one hypothesis.
pub fn one(alloc: Global, p: Id) -> Result<Ids, Memory>
    ensures { IfOk result (λ ids. ids ≡ p ∷ []) }
{
    let mut ids = Ids::new(alloc);
    ids.push(alloc, p)?;
    Ok(ids)
}

/// Whether two terms are alpha-equal.
pub fn are_same<S: TermStore>(alloc: Global, store: &S, s: Id, t: Id) -> Result<bool, Memory>
    requires s { s < length (S.nodes store.now) }
    requires t { t < length (S.nodes store.now) }
    ensures { IfOk result (λ same. same ≡ same_nameless (tree_at (S.nodes store.now) s) (tree_at (S.nodes store.now) t)) }
{
    let same = store.same(alloc, s, t)?;
    Ok(same)
}

/// Whether a term alpha-equal to `p` is in the list.
fn has_term<S: TermStore>(alloc: Global, store: &S, p: Id, ids: &[Id]) -> Result<bool, Memory>
    requires p { p < length (S.nodes store.now) }
    requires ids { AllBelow (length (S.nodes store.now)) ids.now }
    ensures { IfOk result (λ yes. yes ≡ list_any (same_nameless (tree_at (S.nodes store.now) p)) (trees (S.nodes store.now) ids.now)) }
{
    for h in ids {
        if store.same(alloc, p, *h)? {
            return Ok(true);
        }
    }
    Ok(false)
}

/// The hypotheses that aren't alpha-equal to `p`.
pub fn without<S: TermStore>(alloc: Global, store: &S, p: Id, hyps: &Ids) -> Result<Ids, Memory>
    requires p { p < length (S.nodes store.now) }
    requires hyps { AllBelow (length (S.nodes store.now)) hyps.now }
    ensures within { IfOk result (AllBelow (length (S.nodes store.now))) }
    ensures is { IfOk result (λ left. trees (S.nodes store.now) left ≡ nameless_without (tree_at (S.nodes store.now) p) (trees (S.nodes store.now) hyps.now)) }
{
    Ok(left_of(alloc, store, p, hyps.as_slice())?)
}

/// The hypotheses that aren't alpha-equal to `p`.
fn left_of<S: TermStore>(alloc: Global, store: &S, p: Id, hyps: &[Id]) -> Result<Ids, Memory>
    requires p { p < length (S.nodes store.now) }
    requires hyps { AllBelow (length (S.nodes store.now)) hyps.now }
    ensures within { IfOk result (AllBelow (length (S.nodes store.now))) }
    ensures is { IfOk result (λ left. trees (S.nodes store.now) left ≡ nameless_without (tree_at (S.nodes store.now) p) (trees (S.nodes store.now) hyps.now)) }
{
    let mut left = Ids::new(alloc);
    for h in hyps {
        if store.same(alloc, p, *h)? {
            continue;
        }
        left.push(alloc, *h)?;
    }
    Ok(left)
}

/// The hypotheses `hyps`, then those of `more` that aren't alpha-equal to an earlier one.
pub fn union<S: TermStore>(alloc: Global, store: &S, hyps: &Ids, more: &Ids) -> Result<Ids, Memory>
    requires hyps { AllBelow (length (S.nodes store.now)) hyps.now }
    requires more { AllBelow (length (S.nodes store.now)) more.now }
    ensures within { IfOk result (AllBelow (length (S.nodes store.now))) }
    ensures is { IfOk result (λ all. trees (S.nodes store.now) all ≡ nameless_union (trees (S.nodes store.now) hyps.now) (trees (S.nodes store.now) more.now)) }
{
    Ok(joined(alloc, store, hyps.copy(alloc)?, more.as_slice())?)
}

/// The hypotheses `hyps`, then those of `more` that aren't alpha-equal to an earlier one.
fn joined<S: TermStore>(alloc: Global, store: &S, hyps: Ids, more: &[Id]) -> Result<Ids, Memory>
    requires hyps { AllBelow (length (S.nodes store.now)) hyps }
    requires more { AllBelow (length (S.nodes store.now)) more.now }
    ensures within { IfOk result (AllBelow (length (S.nodes store.now))) }
    ensures is { IfOk result (λ all. trees (S.nodes store.now) all ≡ nameless_union (trees (S.nodes store.now) hyps) (trees (S.nodes store.now) more.now)) }
{
    let mut all = hyps;
    for h in more {
        if has_term(alloc, store, *h, all.as_slice())? {
            continue;
        }
        all.push(alloc, *h)?;
    }
    Ok(all)
}
