//! The rules on abstractions: `abs`, `beta` and `eta`.
ghost use Rattle.std.specs.Prelude.{◌<◌, length};
ghost use Rattle.lt_nameless.specs.NamelessRules.{nameless_abs_gives, nameless_beta_gives, nameless_eta_gives};
ghost use Rattle.lt_store.specs.Typed.{IsTyped};
ghost use Rattle.lt_store.specs.Trees.{tree_at, Extends};
ghost use Rattle.lt_kernel.specs.Sequents.{sequents_at, AreWithin, Gives};

use crate::premises::{check_absent, equation_of, line_at};
use crate::rule_fault::RuleFault;
use crate::sequent::{Sequent, Step};
use lt_formulas::{expanded, mk_closed_equation, mk_equation, redex_parts, type_of};
use lt_hol::{Name, Reason, Signature, TryCopy, Ty};
use lt_store::{Id, TermStore, has_loose, instantiate};
use std::alloc::Global;

/// From `H |- s = t`, where `H` doesn't have the variable `x`: `H |- (\x. s) = (\x. t)`
pub(crate) fn abs<S: TermStore>(
    alloc: Global,
    store: &mut S,
    done: &[Step],
    x: &Name,
    ty: &Ty,
    i: usize,
) -> Result<Sequent, RuleFault>
    requires { AreWithin (length (S.nodes store.old)) done.now }
    ensures kept { Extends (S.nodes store.old) (S.nodes store.new) }
    ensures step { Gives (S.nodes store.new) result
        (nameless_abs_gives (sequents_at (S.nodes store.old) done.now) x.now ty.now i) }
{
    let from = line_at(store, done, i)?;
    let sides = equation_of(alloc, store, from.concl)?;
    // A hypothesis on x speaks of one x, and the conclusion would of each.
    check_absent(alloc, store, &from.hyps, x, ty)?;
    let hyps = from.hyps.copy(alloc)?;
    let concl = mk_closed_equation(alloc, store, x, ty, sides.ty, sides.left, sides.right)?;
    Ok(Sequent { hyps, concl })
}

/// `|- (\x. b) a = b`, the body opened by `a`
pub(crate) fn beta<S: TermStore>(
    alloc: Global,
    store: &mut S,
    sig: &Signature,
    t: Id,
) -> Result<Sequent, RuleFault>
    requires { IsTyped sig.now (S.nodes store.old) t }
    ensures kept { Extends (S.nodes store.old) (S.nodes store.new) }
    ensures step { Gives (S.nodes store.new) result
        (nameless_beta_gives sig.now (tree_at (S.nodes store.old) t)) }
{
    let Some((body, argument)) = redex_parts(store, t) else {
        return Err(RuleFault::Bad(Reason::NotRedex));
    };
    let ty = type_of(alloc, store, sig, t)?;
    let opened = instantiate(alloc, store, body, argument)?;
    let concl = mk_equation(alloc, store, ty, t, opened)?;
    Ok(Sequent::without_hyps(alloc, concl))
}

/// `|- (\x. f x) = f`, where `f` doesn't have the bound name `x`
pub(crate) fn eta<S: TermStore>(
    alloc: Global,
    store: &mut S,
    sig: &Signature,
    t: Id,
) -> Result<Sequent, RuleFault>
    requires { IsTyped sig.now (S.nodes store.old) t }
    ensures kept { Extends (S.nodes store.old) (S.nodes store.new) }
    ensures step { Gives (S.nodes store.new) result
        (nameless_eta_gives sig.now (tree_at (S.nodes store.old) t)) }
{
    let Some(function) = expanded(store, t) else {
        return Err(RuleFault::Bad(Reason::NotRedex));
    };
    let ty = type_of(alloc, store, sig, t)?;
    // A function that has the bound name is another one for each argument.
    if has_loose(alloc, store, function)? {
        return Err(RuleFault::Bad(Reason::NotRedex));
    }
    let concl = mk_equation(alloc, store, ty, t, function)?;
    Ok(Sequent::without_hyps(alloc, concl))
}
