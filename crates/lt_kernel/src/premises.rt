//! What a rule looks for and tests: what is there, or the reason why the rule gives nothing.
ghost use Rattle.std.specs.Prelude.{◌<◌, length, not, None, IfOk};
ghost use Rattle.std.specs.List.{list_any};
ghost use Rattle.lt_definitions.specs.Types.{bool};
ghost use Rattle.lt_definitions.specs.Rules.{line_at};
ghost use Rattle.lt_nameless.specs.NamelessRules.{nameless_as_equation, nameless_as_implication, nameless_as_forall, nameless_has_type, nameless_has_free, same_nameless};
ghost use Rattle.lt_definitions.specs.declared.reason.Reason.TheVariants as reason;
ghost use Rattle.lt_store.specs.Typed.{IsTyped};
ghost use Rattle.lt_store.specs.Trees.{tree_at, trees, AllBelow, Extends};
ghost use Rattle.lt_kernel.specs.Sequents.{sequent_at, sequents_at, AreWithin, IsWithin, Finds, Tests};

use crate::rule_fault::RuleFault;
use crate::sequent::{Sequent, Step};
use crate::steps::sequent_at;
use lt_formulas::{
    Equation, Universal, are_same, as_equation, as_forall, as_implication, has_type, is_boolean,
};
use lt_hol::{Ids, Name, Reason, Signature, Ty};
use lt_store::{Id, TermStore, has_free};
use std::alloc::Global;

/// The sequent of the line with a number. `MissingLine`.
pub(crate) fn line_at<'a, S: TermStore>(
    store: &S,
    done: &'a [Step],
    number: usize,
) -> Result<&'a Sequent, RuleFault>
    requires { AreWithin (length (S.nodes store.now)) done.now }
    ensures finds { Finds (λ s. sequent_at (S.nodes store.now) s.now) result reason.MissingLine
        (line_at (sequents_at (S.nodes store.now) done.now) number) }
    ensures within { IfOk result (λ s. IsWithin (length (S.nodes store.now)) s.now) }
{
    match sequent_at(store, done, number) {
        Some(sequent) => Ok(sequent),
        None => Err(RuleFault::Bad(Reason::MissingLine)),
    }
}

/// The type and the sides of an equation. `NotEquation`.
pub(crate) fn equation_of<S: TermStore>(
    alloc: Global,
    store: &S,
    t: Id,
) -> Result<Equation, RuleFault>
    requires { t < length (S.nodes store.now) }
    ensures finds { Finds
        (λ e. (
          e.ty,
          tree_at (S.nodes store.now) e.left,
          tree_at
              (S.nodes store.now) e.right,
        )) result reason.NotEquation
        (nameless_as_equation (tree_at (S.nodes store.now) t)) }
    ensures within { IfOk result
        (λ e. (e.left < length (S.nodes store.now)) × (e.right < length (S.nodes store.now))) }
{
    match as_equation(alloc, store, t)? {
        Some(sides) => Ok(sides),
        None => Err(RuleFault::Bad(Reason::NotEquation)),
    }
}

/// The sides of an implication. `NotImplication`.
pub(crate) fn implication_of<S: TermStore>(store: &S, t: Id) -> Result<(Id, Id), RuleFault>
    requires { t < length (S.nodes store.now) }
    ensures finds { Finds
        (λ e. (
          tree_at (S.nodes store.now) e.0,
          tree_at
              (S.nodes store.now) e.1,
        )) result reason.NotImplication
        (nameless_as_implication (tree_at (S.nodes store.now) t)) }
    ensures within { IfOk result
        (λ e. (e.0 < length (S.nodes store.now)) × (e.1 < length (S.nodes store.now))) }
{
    match as_implication(store, t) {
        Some(sides) => Ok(sides),
        None => Err(RuleFault::Bad(Reason::NotImplication)),
    }
}

/// The type and the predicate of a universal statement. `NotForall`.
pub(crate) fn forall_of<S: TermStore>(
    alloc: Global,
    store: &S,
    t: Id,
) -> Result<Universal, RuleFault>
    requires { t < length (S.nodes store.now) }
    ensures finds { Finds
        (λ a. (a.ty, tree_at (S.nodes store.now) a.predicate)) result reason.NotForall
        (nameless_as_forall (tree_at (S.nodes store.now) t)) }
    ensures within { IfOk result (λ a. a.predicate < length (S.nodes store.now)) }
{
    match as_forall(alloc, store, t)? {
        Some(all) => Ok(all),
        None => Err(RuleFault::Bad(Reason::NotForall)),
    }
}

/// That two terms are alpha-equal. `MiddleDiffers`.
pub(crate) fn meet<S: TermStore>(alloc: Global, store: &S, s: Id, t: Id) -> Result<(), RuleFault>
    requires s { s < length (S.nodes store.now) }
    requires t { t < length (S.nodes store.now) }
    ensures { Tests result reason.MiddleDiffers
        (same_nameless (tree_at (S.nodes store.now) s) (tree_at (S.nodes store.now) t)) }
{
    if !are_same(alloc, store, s, t)? {
        return Err(RuleFault::Bad(Reason::MiddleDiffers));
    }
    Ok(())
}

/// That a term is boolean. `NotBool`.
pub(crate) fn check_boolean<S: TermStore>(
    alloc: Global,
    store: &S,
    sig: &Signature,
    p: Id,
) -> Result<(), RuleFault>
    requires { IsTyped sig.now (S.nodes store.now) p }
    ensures { Tests result reason.NotBool
        (nameless_has_type sig.now (tree_at (S.nodes store.now) p) bool) }
{
    if !is_boolean(alloc, store, sig, p)? {
        return Err(RuleFault::Bad(Reason::NotBool));
    }
    Ok(())
}

/// That a term has the type. `TypeDiffers`.
pub(crate) fn check_type<S: TermStore>(
    alloc: Global,
    store: &S,
    sig: &Signature,
    t: Id,
    ty: &Ty,
) -> Result<(), RuleFault>
    requires { IsTyped sig.now (S.nodes store.now) t }
    ensures { Tests result reason.TypeDiffers
        (nameless_has_type sig.now (tree_at (S.nodes store.now) t) ty.now) }
{
    if !has_type(alloc, store, sig, t, ty)? {
        return Err(RuleFault::Bad(Reason::TypeDiffers));
    }
    Ok(())
}

/// That a free variable is in none of the hypotheses. `VariableInHypothesis`.
///
/// It writes into the store: a pass may keep there what it makes.
pub(crate) fn check_absent<S: TermStore>(
    alloc: Global,
    store: &mut S,
    hyps: &Ids,
    x: &Name,
    ty: &Ty,
) -> Result<(), RuleFault>
    requires { AllBelow (length (S.nodes store.old)) hyps.now }
    ensures kept { Extends (S.nodes store.old) (S.nodes store.new) }
    ensures tests { Tests result reason.VariableInHypothesis
        (not (list_any (nameless_has_free x.now ty.now) (trees (S.nodes store.old) hyps.now))) }
{
    if has_free(alloc, store, hyps.as_slice(), x, ty)? {
        return Err(RuleFault::Bad(Reason::VariableInHypothesis));
    }
    Ok(())
}
