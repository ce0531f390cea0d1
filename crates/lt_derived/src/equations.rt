//! Lines that equate terms. Want of memory is their only refusal.
ghost use Rattle.std.specs.Prelude.{◌≡◌, None, Some, is_some, true, IfOk};
ghost use Rattle.lt_definitions.specs.Typing.{type_fault};
ghost use Rattle.lt_nameless.specs.Nameless.{Nameless, nameless_application, nameless_abstraction};
ghost use Rattle.lt_nameless.specs.NamelessRules.{nameless_beta, abstracted};
ghost use Rattle.lt_store.specs.Trees.{tree_at};
ghost use Rattle.lt_store.specs.Typed.{IsTyped};
ghost use Rattle.lt_kernel.specs.Growing.{Carries};
ghost use Rattle.lt_derived.specs.Equations.{Equates, Stands, IsEquation, Meet, Apply};

use lt_formulas::application;
use lt_hol::{Memory, Name, Ty};
use lt_kernel::{Proof, sure};
use lt_store::{Id, TermStore};
use std::alloc::Global;

/// `|- t = t`.
pub fn refl<S: TermStore>(alloc: Global, proof: &mut Proof<S>, t: Id) -> Result<usize, Memory>
    requires { IsTyped proof.old.signature proof.old.nodes t }
    ensures carries { Carries proof.old proof.new }
    ensures line { IfOk result (λ n. Equates proof.new n (tree_at proof.old.nodes t)
        (tree_at proof.old.nodes t)) }
{
    let line = sure::refl(alloc, proof, t)?;
    Ok(line)
}

/// `|- t = b`, the body of a redex opened.
pub fn beta<S: TermStore>(alloc: Global, proof: &mut Proof<S>, t: Id) -> Result<usize, Memory>
    requires t { IsTyped proof.old.signature proof.old.nodes t }
    requires redex { is_some (nameless_beta (tree_at proof.old.nodes t)) ≡ true }
    ensures carries { Carries proof.old proof.new }
    ensures line { (r : Nameless) → nameless_beta (tree_at proof.old.nodes t) ≡ Some r
        → IfOk result (λ n. Equates proof.new n (tree_at proof.old.nodes t) r) }
{
    let line = sure::beta(alloc, proof, t)?;
    Ok(line)
}

/// From `s = t`: `t = s`.
pub fn sym<S: TermStore>(alloc: Global, proof: &mut Proof<S>, i: usize) -> Result<usize, Memory>
    requires { IsEquation proof.old i }
    ensures carries { Carries proof.old proof.new }
    ensures line { (q : IsEquation proof.old i)
        → IfOk result (λ n. Equates proof.new n q.to q.from) }
{
    let line = sure::sym(alloc, proof, i)?;
    Ok(line)
}

/// From `r = s` and `s = t`: `r = t`.
pub fn trans<S: TermStore>(
    alloc: Global,
    proof: &mut Proof<S>,
    i: usize,
    j: usize,
) -> Result<usize, Memory>
    requires { Meet proof.old i j }
    ensures carries { Carries proof.old proof.new }
    ensures line { (q : Meet proof.old i j) → IfOk result (λ n. Equates proof.new n q.from q.to) }
{
    let line = sure::trans(alloc, proof, i, j)?;
    Ok(line)
}

/// From `f = g` and `a = b`: `f a = g b`.
pub fn cong<S: TermStore>(
    alloc: Global,
    proof: &mut Proof<S>,
    i: usize,
    j: usize,
) -> Result<usize, Memory>
    requires { Apply proof.old i j }
    ensures carries { Carries proof.old proof.new }
    ensures line { (q : Apply proof.old i j) → IfOk result
        (λ n. Equates proof.new n (nameless_application q.f q.a) (nameless_application q.g q.b)) }
{
    let line = sure::cong(alloc, proof, i, j)?;
    Ok(line)
}

/// From `s = t`: `(\x. s) = (\x. t)`.
pub fn abs<S: TermStore>(
    alloc: Global,
    proof: &mut Proof<S>,
    x: &Name,
    ty: &Ty,
    i: usize,
) -> Result<usize, Memory>
    requires ty { type_fault proof.old.signature ty.now ≡ None }
    requires line { IsEquation proof.old i }
    ensures carries { Carries proof.old proof.new }
    ensures line { (q : IsEquation proof.old i) → IfOk result
        (λ n. Equates proof.new n (nameless_abstraction ty.now (abstracted 0 x.now ty.now q.from))
        (nameless_abstraction ty.now (abstracted 0 x.now ty.now q.to))) }
{
    let line = sure::abs(alloc, proof, x, ty, i)?;
    Ok(line)
}

/// The right side of an equation.
pub fn right<S: TermStore>(proof: &Proof<S>, i: usize) -> Id
    requires { IsEquation proof.now i }
    ensures { (q : IsEquation proof.now i) → Stands proof.now result q.to }
{
    let concl = proof.conclusion(i);
    let (_, to) = application(proof, concl);
    to
}
