//! Equations on the way to a normal form.
ghost use Rattle.std.specs.Prelude.{IfOk};
ghost use Rattle.lt_nameless.specs.Nameless.{nameless_application, nameless_abstraction};
ghost use Rattle.lt_nameless.specs.NamelessRules.{instance_at, abstracted};
ghost use Rattle.lt_kernel.specs.Growing.{Carries};
ghost use Rattle.lt_derived.specs.Equations.{Equates, Stands};
ghost use Rattle.lt_conv.specs.Conversions.{IsApplied, IsRedexAt, Joins, Shuts};

use lt_derived::equations::{abs, beta, cong, refl, right, trans};
use lt_hol::{Memory, Name, Ty};
use lt_kernel::Proof;
use lt_store::{Id, TermStore, View};
use std::alloc::Global;

/// From `s = (\x. b) a`: `s = b`, the body opened.
pub(crate) fn reduce<S: TermStore>(
    alloc: Global,
    proof: &mut Proof<S>,
    i: usize,
) -> Result<usize, Memory>
    requires { IsRedexAt proof.old i }
    ensures carries { Carries proof.old proof.new }
    ensures line { (q : IsRedexAt proof.old i) → IfOk result (λ n. Equates proof.new n q.from (instance_at 0 q.a q.b)) }
{
    let redex = right(proof, i);
    let opened = beta(alloc, proof, redex)?;
    let line = trans(alloc, proof, i, opened)?;
    Ok(line)
}

/// The function and the argument of a right side.
pub(crate) fn parts<S: TermStore>(proof: &Proof<S>, i: usize) -> (Id, Id)
    requires { IsApplied proof.now i }
    ensures function { (q : IsApplied proof.now i) → Stands proof.now result.0 q.f }
    ensures argument { (q : IsApplied proof.now i) → Stands proof.now result.1 q.a }
{
    match proof.sequent(i) {
        Some(sequent) => match proof.store().view(sequent.concl) {
            View::App(_, to) => match proof.store().view(to) {
                View::App(f, a) => (f, a),
                _ => unreachable!(),
            },
            _ => unreachable!(),
        },
        None => unreachable!(),
    }
}

/// From `s = f a`: `f = f`.
pub(crate) fn function<S: TermStore>(
    alloc: Global,
    proof: &mut Proof<S>,
    i: usize,
) -> Result<usize, Memory>
    requires { IsApplied proof.old i }
    ensures carries { Carries proof.old proof.new }
    ensures line { (q : IsApplied proof.old i) → IfOk result (λ n. Equates proof.new n q.f q.f) }
{
    let (f, _) = parts(proof, i);
    let line = refl(alloc, proof, f)?;
    Ok(line)
}

/// From `s = f a`: `a = a`.
pub(crate) fn argument<S: TermStore>(
    alloc: Global,
    proof: &mut Proof<S>,
    i: usize,
) -> Result<usize, Memory>
    requires { IsApplied proof.old i }
    ensures carries { Carries proof.old proof.new }
    ensures line { (q : IsApplied proof.old i) → IfOk result (λ n. Equates proof.new n q.a q.a) }
{
    let (_, a) = parts(proof, i);
    let line = refl(alloc, proof, a)?;
    Ok(line)
}

/// From `s = f a`, `f = g` and `a = c`: `s = g c`.
pub(crate) fn join<S: TermStore>(
    alloc: Global,
    proof: &mut Proof<S>,
    i: usize,
    function: usize,
    argument: usize,
) -> Result<usize, Memory>
    requires { Joins proof.old i function argument }
    ensures carries { Carries proof.old proof.new }
    ensures line { (q : Joins proof.old i function argument) → IfOk result (λ n. Equates proof.new n q.from (nameless_application q.g q.c)) }
{
    let both = cong(alloc, proof, function, argument)?;
    let line = trans(alloc, proof, i, both)?;
    Ok(line)
}

/// From `s = \x. b` and `b = c`, where x isn't in b: `s = \x. c`.
pub(crate) fn shut<S: TermStore>(
    alloc: Global,
    proof: &mut Proof<S>,
    i: usize,
    x: Name,
    ty: Ty,
    body: usize,
) -> Result<usize, Memory>
    requires { Shuts proof.old i x ty body }
    ensures carries { Carries proof.old proof.new }
    ensures line { (q : Shuts proof.old i x ty body) → IfOk result (λ n. Equates proof.new n q.from (nameless_abstraction ty (abstracted 0 x ty q.c))) }
{
    let closed = abs(alloc, proof, &x, &ty, body)?;
    let line = trans(alloc, proof, i, closed)?;
    Ok(line)
}
