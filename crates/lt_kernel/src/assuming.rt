//! The rules that bring in a statement: `assume`, `weaken` and `thm`.
ghost use Rattle.std.specs.Prelude.{◌<◌, length};
ghost use Rattle.lt_nameless.specs.NamelessRules.{nameless_assume_gives, nameless_weaken_gives, nameless_thm_gives};
ghost use Rattle.lt_store.specs.Typed.{IsTyped};
ghost use Rattle.lt_store.specs.Trees.{tree_at};
ghost use Rattle.lt_kernel.specs.Sequents.{sequents_at, statements_at, AreWithin, NamedWithin, Gives};

use crate::premises::{check_boolean, line_at};
use crate::rule_fault::RuleFault;
use crate::sequent::{Sequent, Step};
use indexmap::IndexMap;
use lt_formulas::{one, union};
use lt_hol::{Name, Reason, Signature};
use lt_store::{Id, TermStore};
use std::alloc::Global;

/// `p |- p`
pub(crate) fn assume<S: TermStore>(
    alloc: Global,
    store: &S,
    sig: &Signature,
    p: Id,
) -> Result<Sequent, RuleFault>
    requires { IsTyped sig.now (S.nodes store.now) p }
    ensures step { Gives (S.nodes store.now) result
        (nameless_assume_gives sig.now (tree_at (S.nodes store.now) p)) }
{
    check_boolean(alloc, store, sig, p)?;
    let hyps = one(alloc, p)?;
    Ok(Sequent { hyps, concl: p })
}

/// From `H |- q`: `H, p |- q`. Derivable by `impI`, `assume` and `mp`, up to the order of hypotheses, but included for
/// short derivations.
pub(crate) fn weaken<S: TermStore>(
    alloc: Global,
    store: &S,
    sig: &Signature,
    done: &[Step],
    p: Id,
    i: usize,
) -> Result<Sequent, RuleFault>
    requires done { AreWithin (length (S.nodes store.now)) done.now }
    requires p { IsTyped sig.now (S.nodes store.now) p }
    ensures step { Gives (S.nodes store.now) result
        (nameless_weaken_gives sig.now (sequents_at (S.nodes store.now) done.now)
        (tree_at (S.nodes store.now) p) i) }
{
    let from = line_at(store, done, i)?;
    check_boolean(alloc, store, sig, p)?;
    let more = one(alloc, p)?;
    let hyps = union(alloc, store, &from.hyps, &more)?;
    Ok(Sequent {
        hyps,
        concl: from.concl,
    })
}

/// `|-` the statement of the label
pub(crate) fn thm<S: TermStore>(
    alloc: Global,
    _store: &S,
    named: &IndexMap<Name, Id>,
    label: &Name,
) -> Result<Sequent, RuleFault>
    requires { NamedWithin (length (S.nodes _store.now)) named.now.entries }
    ensures step { Gives (S.nodes _store.now) result
        (nameless_thm_gives (statements_at (S.nodes _store.now) named.now.entries) label.now) }
{
    let Some(concl) = named.get(label).copied() else {
        return Err(RuleFault::Bad(Reason::UnknownLabel));
    };
    Ok(Sequent::without_hyps(alloc, concl))
}
