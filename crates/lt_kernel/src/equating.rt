//! The rules on equations: `refl`, `sym`, `trans`, `eqmp` and `iff`.
ghost use Rattle.std.specs.Prelude.{◌<◌, length};
ghost use Rattle.lt_nameless.specs.NamelessRules.{nameless_refl_gives, nameless_sym_gives, nameless_trans_gives, nameless_eqmp_gives, nameless_iff_gives};
ghost use Rattle.lt_store.specs.Typed.{IsTyped};
ghost use Rattle.lt_store.specs.Trees.{tree_at, Extends};
ghost use Rattle.lt_kernel.specs.Sequents.{sequents_at, AreWithin, Gives};

use crate::premises::{equation_of, implication_of, line_at, meet};
use crate::rule_fault::RuleFault;
use crate::sequent::{Sequent, Step};
use lt_formulas::{mk_equation, type_of, union};
use lt_hol::{Signature, TryCopy, Ty};
use lt_store::{Id, TermStore};
use std::alloc::Global;

/// `|- t = t`
pub(crate) fn refl<S: TermStore>(
    alloc: Global,
    store: &mut S,
    sig: &Signature,
    t: Id,
) -> Result<Sequent, RuleFault>
    requires { IsTyped sig.now (S.nodes store.old) t }
    ensures kept { Extends (S.nodes store.old) (S.nodes store.new) }
    ensures step { Gives (S.nodes store.new) result
        (nameless_refl_gives sig.now (tree_at (S.nodes store.old) t)) }
{
    let ty = type_of(alloc, store, sig, t)?;
    let concl = mk_equation(alloc, store, ty, t, t)?;
    Ok(Sequent::without_hyps(alloc, concl))
}

/// From `H |- s = t`: `H |- t = s`. Derivable by `refl`, `cong` and `eqmp`, but included for short derivations.
pub(crate) fn sym<S: TermStore>(
    alloc: Global,
    store: &mut S,
    done: &[Step],
    i: usize,
) -> Result<Sequent, RuleFault>
    requires { AreWithin (length (S.nodes store.old)) done.now }
    ensures kept { Extends (S.nodes store.old) (S.nodes store.new) }
    ensures step { Gives (S.nodes store.new) result
        (nameless_sym_gives (sequents_at (S.nodes store.old) done.now) i) }
{
    let from = line_at(store, done, i)?;
    let sides = equation_of(alloc, store, from.concl)?;
    let hyps = from.hyps.copy(alloc)?;
    let concl = mk_equation(alloc, store, sides.ty, sides.right, sides.left)?;
    Ok(Sequent { hyps, concl })
}

/// From `H |- r = s` and `K |- s = t`: `H, K |- r = t`. Derivable by `refl`, `cong` and `eqmp`, but included for short
/// derivations.
pub(crate) fn trans<S: TermStore>(
    alloc: Global,
    store: &mut S,
    done: &[Step],
    i: usize,
    j: usize,
) -> Result<Sequent, RuleFault>
    requires { AreWithin (length (S.nodes store.old)) done.now }
    ensures kept { Extends (S.nodes store.old) (S.nodes store.new) }
    ensures step { Gives (S.nodes store.new) result
        (nameless_trans_gives (sequents_at (S.nodes store.old) done.now) i j) }
{
    let first = line_at(store, done, i)?;
    let second = line_at(store, done, j)?;
    let one = equation_of(alloc, store, first.concl)?;
    let other = equation_of(alloc, store, second.concl)?;
    // The first ends where the second begins: else any two equations would give r = t.
    meet(alloc, store, one.right, other.left)?;
    let hyps = union(alloc, store, &first.hyps, &second.hyps)?;
    let concl = mk_equation(alloc, store, one.ty, one.left, other.right)?;
    Ok(Sequent { hyps, concl })
}

/// From `H |- p = q` and `K |- p`: `H, K |- q`
pub(crate) fn eqmp<S: TermStore>(
    alloc: Global,
    store: &S,
    done: &[Step],
    i: usize,
    j: usize,
) -> Result<Sequent, RuleFault>
    requires { AreWithin (length (S.nodes store.now)) done.now }
    ensures step { Gives (S.nodes store.now) result
        (nameless_eqmp_gives (sequents_at (S.nodes store.now) done.now) i j) }
{
    let major = line_at(store, done, i)?;
    let minor = line_at(store, done, j)?;
    let sides = equation_of(alloc, store, major.concl)?;
    // What is known is the left side: an equation isn't turned on the way.
    meet(alloc, store, sides.left, minor.concl)?;
    let hyps = union(alloc, store, &major.hyps, &minor.hyps)?;
    Ok(Sequent {
        hyps,
        concl: sides.right,
    })
}

/// From `H |- p --> q` and `K |- q --> p`: `H, K |- p = q`. Nothing else makes an equation of truth values that imply
/// each other.
pub(crate) fn iff<S: TermStore>(
    alloc: Global,
    store: &mut S,
    done: &[Step],
    i: usize,
    j: usize,
) -> Result<Sequent, RuleFault>
    requires { AreWithin (length (S.nodes store.old)) done.now }
    ensures kept { Extends (S.nodes store.old) (S.nodes store.new) }
    ensures step { Gives (S.nodes store.new) result
        (nameless_iff_gives (sequents_at (S.nodes store.old) done.now) i j) }
{
    let first = line_at(store, done, i)?;
    let second = line_at(store, done, j)?;
    let (p, q) = implication_of(store, first.concl)?;
    let (r, s) = implication_of(store, second.concl)?;
    // Both, since either alone would make two implications of one side an equation.
    meet(alloc, store, p, s)?;
    meet(alloc, store, q, r)?;
    let ty = Ty::bool(alloc)?;
    let hyps = union(alloc, store, &first.hyps, &second.hyps)?;
    let concl = mk_equation(alloc, store, ty, p, q)?;
    Ok(Sequent { hyps, concl })
}
