//! The rules on universal statements: `allI` and `allE`.
ghost use Rattle.std.specs.Prelude.{◌<◌, length};
ghost use Rattle.lt_nameless.specs.NamelessRules.{nameless_allI_gives, nameless_allE_gives};
ghost use Rattle.lt_store.specs.Typed.{IsTyped};
ghost use Rattle.lt_store.specs.Trees.{tree_at, Extends};
ghost use Rattle.lt_kernel.specs.Sequents.{sequents_at, AreWithin, Gives};

use crate::premises::{check_absent, check_type, forall_of, line_at};
use crate::rule_fault::RuleFault;
use crate::sequent::{Sequent, Step};
use lt_formulas::{mk_at, mk_closed_for_all};
use lt_hol::{Name, Signature, TryCopy, Ty};
use lt_store::{Id, TermStore};
use std::alloc::Global;

/// From `H |- p`, where `H` doesn't have the variable `x`: `H |- all x. p`
pub(crate) fn allI<S: TermStore>(
    alloc: Global,
    store: &mut S,
    done: &[Step],
    x: &Name,
    ty: &Ty,
    i: usize,
) -> Result<Sequent, RuleFault>
    requires { AreWithin (length (S.nodes store.old)) done.now }
    ensures kept { Extends (S.nodes store.old) (S.nodes store.new) }
    ensures step { Gives (S.nodes store.new) result
        (nameless_allI_gives (sequents_at (S.nodes store.old) done.now) x.now ty.now i) }
{
    let from = line_at(store, done, i)?;
    // A hypothesis on x speaks of one x, and the conclusion would of each.
    check_absent(alloc, store, &from.hyps, x, ty)?;
    let hyps = from.hyps.copy(alloc)?;
    let concl = mk_closed_for_all(alloc, store, x, ty, from.concl)?;
    Ok(Sequent { hyps, concl })
}

/// From `H |- all x. p`: `H |- p`, opened by `t`
pub(crate) fn allE<S: TermStore>(
    alloc: Global,
    store: &mut S,
    sig: &Signature,
    done: &[Step],
    t: Id,
    i: usize,
) -> Result<Sequent, RuleFault>
    requires done { AreWithin (length (S.nodes store.old)) done.now }
    requires t { IsTyped sig.now (S.nodes store.old) t }
    ensures kept { Extends (S.nodes store.old) (S.nodes store.new) }
    ensures step { Gives (S.nodes store.new) result
        (nameless_allE_gives sig.now (sequents_at (S.nodes store.old) done.now)
        (tree_at (S.nodes store.old) t) i) }
{
    let from = line_at(store, done, i)?;
    let all = forall_of(alloc, store, from.concl)?;
    // The statement is of all terms of this type alone.
    check_type(alloc, store, sig, t, &all.ty)?;
    let hyps = from.hyps.copy(alloc)?;
    let concl = mk_at(alloc, store, all.predicate, t)?;
    Ok(Sequent { hyps, concl })
}
