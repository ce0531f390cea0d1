//! The axioms of choice and of classical logic: `select` and `ccontr`.
ghost use Rattle.std.specs.Prelude.{◌<◌};
ghost use Rattle.lt_nameless.specs.NamelessRules.{nameless_select_gives, nameless_ccontr_gives};
ghost use Rattle.lt_store.specs.Typed.{IsTyped};
ghost use Rattle.lt_store.specs.Trees.{tree_at, Extends};
ghost use Rattle.lt_kernel.specs.Sequents.{Gives};

use crate::premises::check_boolean;
use crate::rule_fault::RuleFault;
use crate::sequent::Sequent;
use lt_formulas::{mk_double_negation, mk_selection, predicate_over, type_of};
use lt_hol::{Reason, Signature};
use lt_store::{Id, TermStore};
use std::alloc::Global;

/// `|- all x. p x --> p (eps p)`
pub(crate) fn select<S: TermStore>(
    alloc: Global,
    store: &mut S,
    sig: &Signature,
    p: Id,
) -> Result<Sequent, RuleFault>
    requires { IsTyped sig.now (S.nodes store.old) p }
    ensures kept { Extends (S.nodes store.old) (S.nodes store.new) }
    ensures step { Gives (S.nodes store.new) result
        (nameless_select_gives sig.now (tree_at (S.nodes store.old) p)) }
{
    let of = type_of(alloc, store, sig, p)?;
    let Some(ty) = predicate_over(alloc, &of)? else {
        return Err(RuleFault::Bad(Reason::TypeDiffers));
    };
    let concl = mk_selection(alloc, store, ty, p)?;
    Ok(Sequent::without_hyps(alloc, concl))
}

/// `|- ((p --> F) --> F) --> p`
pub(crate) fn ccontr<S: TermStore>(
    alloc: Global,
    store: &mut S,
    sig: &Signature,
    p: Id,
) -> Result<Sequent, RuleFault>
    requires { IsTyped sig.now (S.nodes store.old) p }
    ensures kept { Extends (S.nodes store.old) (S.nodes store.new) }
    ensures step { Gives (S.nodes store.new) result
        (nameless_ccontr_gives sig.now (tree_at (S.nodes store.old) p)) }
{
    check_boolean(alloc, store, sig, p)?;
    let concl = mk_double_negation(alloc, store, p)?;
    Ok(Sequent::without_hyps(alloc, concl))
}
