//! The rules that replace variables: `inst` and `tinst`.
ghost use Rattle.std.specs.Prelude.{◌≡◌, ◌<◌, ◌∷◌, [], length, IfOk};
ghost use Rattle.lt_nameless.specs.NamelessRules.{nameless_replaced, nameless_inst_gives, nameless_tinst_gives};
ghost use Rattle.lt_store.specs.Building.{Builds};
ghost use Rattle.lt_store.specs.Typed.{IsTyped};
ghost use Rattle.lt_store.specs.Trees.{tree_at, Extends};
ghost use Rattle.lt_kernel.specs.Sequents.{sequents_at, AreWithin, Gives};

use crate::premises::{check_type, line_at};
use crate::rule_fault::RuleFault;
use crate::sequent::{Sequent, Step};
use lt_formulas::{one, union};
use lt_hol::{Ids, Memory, Name, Signature, TryCopy, Ty, TyMap};
use lt_store::{Id, TermStore, replace_free, type_instance, type_instances};
use std::alloc::Global;

/// From `H |- p`: `H |- p`, everywhere with `t` in place of the variable `x`
pub(crate) fn inst<S: TermStore>(
    alloc: Global,
    store: &mut S,
    sig: &Signature,
    done: &[Step],
    x: &Name,
    ty: &Ty,
    t: Id,
    i: usize,
) -> Result<Sequent, RuleFault>
    requires done { AreWithin (length (S.nodes store.old)) done.now }
    requires t { IsTyped sig.now (S.nodes store.old) t }
    ensures kept { Extends (S.nodes store.old) (S.nodes store.new) }
    ensures step { Gives (S.nodes store.new) result
        (nameless_inst_gives sig.now (sequents_at (S.nodes store.old) done.now) x.now ty.now
        (tree_at (S.nodes store.old) t) i) }
{
    let from = line_at(store, done, i)?;
    // A term of another type would leave an untyped sequent.
    check_type(alloc, store, sig, t, ty)?;
    let each = replace_free(alloc, store, from.hyps.as_slice(), x, ty, t)?;
    let hyps = union(alloc, store, &Ids::new(alloc), &each)?;
    let concl = replaced(alloc, store, from.concl, x, ty, t)?;
    Ok(Sequent { hyps, concl })
}

/// From `H |- p`: `H |- p`, everywhere with the type `ty` in place of the type variable `a`
pub(crate) fn tinst<S: TermStore>(
    alloc: Global,
    store: &mut S,
    done: &[Step],
    a: &Name,
    ty: &Ty,
    i: usize,
) -> Result<Sequent, RuleFault>
    requires { AreWithin (length (S.nodes store.old)) done.now }
    ensures kept { Extends (S.nodes store.old) (S.nodes store.new) }
    ensures step { Gives (S.nodes store.new) result
        (nameless_tinst_gives (sequents_at (S.nodes store.old) done.now) a.now ty.now i) }
{
    let from = line_at(store, done, i)?;
    let by = one_pair(alloc, a, ty)?;
    let each = type_instances(alloc, store, from.hyps.as_slice(), &by)?;
    let hyps = union(alloc, store, &Ids::new(alloc), &each)?;
    let concl = type_instance(alloc, store, from.concl, &by)?;
    Ok(Sequent { hyps, concl })
}

/// A term with `by` in place of a free variable.
fn replaced<S: TermStore>(
    alloc: Global,
    store: &mut S,
    t: Id,
    x: &Name,
    ty: &Ty,
    by: Id,
) -> Result<Id, Memory>
    requires t { t < length (S.nodes store.old) }
    requires by { by < length (S.nodes store.old) }
    ensures { Builds (S.nodes store.old) (S.nodes store.new) result
        (nameless_replaced x.now ty.now (tree_at (S.nodes store.old) by)
        (tree_at (S.nodes store.old) t)) }
{
    let ts = one(alloc, t)?;
    let made = replace_free(alloc, store, ts.as_slice(), x, ty, by)?;
    Ok(only(&made))
}

/// The only one of some ids.
fn only(ids: &Ids) -> Id
    requires { length ids.now ≡ 1 }
    ensures { ids.now ≡ result ∷ [] }
{
    *ids.at(0)
}

/// The map of one type variable.
fn one_pair(alloc: Global, a: &Name, ty: &Ty) -> Result<TyMap, Memory>
    ensures { IfOk result (λ m. m ≡ (a.now, ty.now) ∷ []) }
{
    let mut map = TyMap::new(alloc);
    map.put(alloc, a.copy(alloc)?, ty.copy(alloc)?)?;
    Ok(map)
}
