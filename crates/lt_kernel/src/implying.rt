//! The rules on implications: `impI` and `mp`.
ghost use Rattle.std.specs.Prelude.{◌<◌, length};
ghost use Rattle.lt_nameless.specs.NamelessRules.{nameless_impI_gives, nameless_mp_gives};
ghost use Rattle.lt_store.specs.Typed.{IsTyped};
ghost use Rattle.lt_store.specs.Trees.{tree_at, Extends};
ghost use Rattle.lt_kernel.specs.Sequents.{sequents_at, AreWithin, Gives};

use crate::premises::{check_boolean, implication_of, line_at, meet};
use crate::rule_fault::RuleFault;
use crate::sequent::{Sequent, Step};
use lt_formulas::{mk_implies, union, without};
use lt_hol::Signature;
use lt_store::{Id, TermStore};
use std::alloc::Global;

/// From `H |- q`: `H` without `p |- p --> q`
pub(crate) fn impI<S: TermStore>(
    alloc: Global,
    store: &mut S,
    sig: &Signature,
    done: &[Step],
    p: Id,
    i: usize,
) -> Result<Sequent, RuleFault>
    requires done { AreWithin (length (S.nodes store.old)) done.now }
    requires p { IsTyped sig.now (S.nodes store.old) p }
    ensures kept { Extends (S.nodes store.old) (S.nodes store.new) }
    ensures step { Gives (S.nodes store.new) result
        (nameless_impI_gives sig.now (sequents_at (S.nodes store.old) done.now)
        (tree_at (S.nodes store.old) p) i) }
{
    let from = line_at(store, done, i)?;
    check_boolean(alloc, store, sig, p)?;
    let hyps = without(alloc, store, p, &from.hyps)?;
    let concl = mk_implies(alloc, store, p, from.concl)?;
    Ok(Sequent { hyps, concl })
}

/// From `H |- p --> q` and `K |- p`: `H, K |- q`
pub(crate) fn mp<S: TermStore>(
    alloc: Global,
    store: &S,
    done: &[Step],
    i: usize,
    j: usize,
) -> Result<Sequent, RuleFault>
    requires { AreWithin (length (S.nodes store.now)) done.now }
    ensures step { Gives (S.nodes store.now) result
        (nameless_mp_gives (sequents_at (S.nodes store.now) done.now) i j) }
{
    let major = line_at(store, done, i)?;
    let minor = line_at(store, done, j)?;
    let (p, q) = implication_of(store, major.concl)?;
    // The premise itself has to be known, up to names of binders.
    meet(alloc, store, p, minor.concl)?;
    let hyps = union(alloc, store, &major.hyps, &minor.hyps)?;
    Ok(Sequent { hyps, concl: q })
}
