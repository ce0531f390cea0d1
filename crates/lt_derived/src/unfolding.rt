//! Equations of functions at arguments, and definitions unfolded.
ghost use Rattle.std.specs.Prelude.{◌≡◌, ◌<◌, length, map, is_some, true, None, Some, IfOk};
ghost use Rattle.std.specs.List.{All};
ghost use Rattle.lt_definitions.specs.Types.{row};
ghost use Rattle.lt_definitions.specs.Typing.{types_fault, with_ok};
ghost use Rattle.lt_definitions.specs.Rules.{line_at, with_line};
ghost use Rattle.lt_nameless.specs.NamelessRules.{nameless_at, nameless_beta, nameless_equation, turned, carried_over};
ghost use Rattle.lt_store.specs.Trees.{tree_at, trees};
ghost use Rattle.lt_store.specs.Typed.{IsTyped};
ghost use Rattle.lt_kernel.specs.State.{sequents, statements};
ghost use Rattle.lt_kernel.specs.Growing.{Carries, IsSound};
ghost use Rattle.lt_kernel.specs.Reaching.{Reaches};
ghost use Rattle.lt_programs.specs.Programs.{at_argument, at_arguments, unfolded_at};
ghost use Rattle.lt_derived.specs.Equations.{OfApplication};

use crate::instances::instance;
use lt_formulas::{application, redex_parts};
use lt_hol::{Memory, Name, Reason, TyMap};
use lt_kernel::{Proof, RuleFault, sure};
use lt_store::{Id, TermStore};
use std::alloc::Global;

/// Whether a term is a redex.
pub(crate) fn is_redex<S: TermStore>(store: &S, t: Id) -> bool
    requires { t < length (S.nodes store.now) }
    ensures { result ≡ is_some (nameless_beta (tree_at (S.nodes store.now) t)) }
{
    redex_parts(store, t).is_some()
}

/// From `H |- l = f t`: `H |- l = f` opened by `t`, or the line itself where `f` is no abstraction.
fn open_right<S: TermStore>(alloc: Global, proof: &mut Proof<S>, i: usize) -> Result<usize, Memory>
    requires sound { IsSound proof.old }
    requires form { OfApplication proof.old i }
    ensures line { (q : OfApplication proof.old i) → IfOk result (λ n. line_at (sequents proof.new) n
        ≡ Some (record { hyps = q.hyps; concl = nameless_equation q.ty q.left (nameless_at q.f q.t) })) }
    ensures carries { Carries proof.old proof.new }
{
    let concl = proof.conclusion(i);
    let (_, right) = application(proof, concl);
    if !is_redex(proof, right) {
        return Ok(i);
    }
    let opened = sure::beta(alloc, proof, right)?;
    let line = sure::trans(alloc, proof, i, opened)?;
    Ok(line)
}

/// From `H |- f = g`: `H |- f t = g` opened by `t`, or `g t` where `g` is no abstraction.
fn at_argument<S: TermStore>(
    alloc: Global,
    proof: &mut Proof<S>,
    t: Id,
    i: usize,
) -> Result<usize, RuleFault>
    requires sound { IsSound proof.old }
    requires there { is_some (line_at (sequents proof.old) i) ≡ true }
    requires t { IsTyped proof.old.signature proof.old.nodes t }
    ensures reaches { Reaches proof.new result (with_line (sequents proof.old) i
        (at_argument proof.old.signature (tree_at proof.old.nodes t))) }
    ensures carries { Carries proof.old proof.new }
{
    let same = sure::refl(alloc, proof, t)?;
    let applied = match proof.cong(alloc, i, same) {
        Ok(number) => number,
        Err(fault) => return Err(fault),
    };
    let line = open_right(alloc, proof, applied)?;
    Ok(line)
}

/// From `H |- f = g`: both sides at the terms, one after another, the right one opened wherever it is an abstraction; over no
/// terms the line itself.
///
/// `MissingLine` where there is no line, `NotEquation` where it is no equation, `TypeDiffers` at the first term to which the sides
/// don't apply.
pub fn at_arguments<S: TermStore>(
    alloc: Global,
    proof: &mut Proof<S>,
    i: usize,
    terms: &[Id],
) -> Result<usize, RuleFault>
    requires sound { IsSound proof.old }
    requires terms { All (IsTyped proof.old.signature proof.old.nodes) terms.now }
    ensures reaches { Reaches proof.new result (with_line (sequents proof.old) i
        (at_arguments proof.old.signature (trees proof.old.nodes terms.now))) }
    ensures carries { Carries proof.old proof.new }
{
    if !proof.is_line(i) {
        return Err(RuleFault::Bad(Reason::MissingLine));
    }
    let mut line = i;
    for t in terms {
        line = match at_argument(alloc, proof, *t, line) {
            Ok(number) => number,
            Err(fault) => return Err(fault),
        };
    }
    Ok(line)
}

/// A named equation, as that of a definition, with types put for type variables at once, and then its sides at the terms: of
/// `c = \x y .. b` the line `|- c t u .. = b` opened by these.
///
/// `UnknownLabel`, then as `at_arguments`.
pub fn unfold<S: TermStore>(
    alloc: Global,
    proof: &mut Proof<S>,
    label: &Name,
    types: &TyMap,
    terms: &[Id],
) -> Result<usize, RuleFault>
    requires sound { IsSound proof.old }
    requires types { types_fault proof.old.signature (row (map (λ p. p.1) types.now)) ≡ None }
    requires terms { All (IsTyped proof.old.signature proof.old.nodes) terms.now }
    ensures reaches { Reaches proof.new result
        (unfolded_at proof.old.signature (statements proof.old) label.now types.now
        (trees proof.old.nodes terms.now)) }
    ensures carries { Carries proof.old proof.new }
{
    let line = match instance(alloc, proof, label, types, &[]) {
        Ok(number) => number,
        Err(fault) => return Err(fault),
    };
    at_arguments(alloc, proof, line, terms)
}

/// From `H |- p = q` and `K |- q`: `H, K |- p`.
///
/// `MissingLine` and `NotEquation` of the first line, then `MissingLine` and `MiddleDiffers` of the second.
pub fn eqmp_back<S: TermStore>(
    alloc: Global,
    proof: &mut Proof<S>,
    i: usize,
    j: usize,
) -> Result<usize, RuleFault>
    ensures reaches { Reaches proof.new result
        (with_line (sequents proof.old) i (λ s. with_ok (turned s)
        (λ v. with_line (sequents proof.old) j (carried_over v)))) }
    ensures carries { Carries proof.old proof.new }
{
    let known = proof.is_line(j);
    let turned = match proof.sym(alloc, i) {
        Ok(number) => number,
        Err(fault) => return Err(fault),
    };
    if !known {
        return Err(RuleFault::Bad(Reason::MissingLine));
    }
    proof.eqmp(alloc, turned, j)
}
