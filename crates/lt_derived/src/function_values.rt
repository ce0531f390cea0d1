//! Functions that have one value at a new variable are equal.
ghost use Rattle.std.specs.Prelude.{◌≡◌, None, Some, IfOk};
ghost use Rattle.lt_definitions.specs.Typing.{type_fault};
ghost use Rattle.lt_definitions.specs.Rules.{line_at, with_line};
ghost use Rattle.lt_nameless.specs.NamelessRules.{nameless_equation};
ghost use Rattle.lt_store.specs.Trees.{tree_at};
ghost use Rattle.lt_store.specs.Typed.{IsTyped};
ghost use Rattle.lt_kernel.specs.State.{sequents};
ghost use Rattle.lt_kernel.specs.Growing.{Carries, IsSound};
ghost use Rattle.lt_kernel.specs.Reaching.{Reaches};
ghost use Rattle.lt_programs.specs.Extensionality.{contracted, functions_equal};
ghost use Rattle.lt_derived.specs.Equations.{Contracts, IsEquationUnder};

use lt_formulas::application;
use lt_hol::{Memory, Name, TryCopy, Ty};
use lt_kernel::{Proof, RuleFault, sure};
use lt_store::{Id, TermStore};
use std::alloc::Global;

/// `|- t = f`, where `t` is `\x. f x` and `f` doesn't have that bound name; None for other terms.
fn contraction<S: TermStore>(
    alloc: Global,
    proof: &mut Proof<S>,
    t: Id,
) -> Result<Option<usize>, Memory>
    requires { IsTyped proof.old.signature proof.old.nodes t }
    ensures contracts { IfOk result
        (Contracts proof.new proof.old.signature (tree_at proof.old.nodes t)) }
    ensures carries { Carries proof.old proof.new }
{
    match proof.eta(alloc, t) {
        Ok(number) => Ok(Some(number)),
        Err(RuleFault::Bad(_)) => Ok(None),
        Err(_) => Err(Memory),
    }
}

/// From `H |- s = t`: `H |- s = f`, where `t` is `\x. f x` and `f` doesn't have that bound name;
/// else the line itself.
fn contract_right<S: TermStore>(
    alloc: Global,
    proof: &mut Proof<S>,
    i: usize,
) -> Result<usize, Memory>
    requires sound { IsSound proof.old }
    requires form { IsEquationUnder proof.old i }
    ensures line { (q : IsEquationUnder proof.old i) → IfOk result (λ n. line_at (sequents proof.new) n
        ≡ Some (record { hyps = q.hyps; concl = nameless_equation q.ty q.left (contracted q.right) })) }
    ensures carries { Carries proof.old proof.new }
{
    let concl = proof.conclusion(i);
    let (_, right) = application(proof, concl);
    let contracts = contraction(alloc, proof, right)?;
    match contracts {
        Some(number) => {
            let line = sure::trans(alloc, proof, i, number)?;
            Ok(line)
        }
        None => Ok(i),
    }
}

/// From `H |- s = t`: `H |- f = g`, both sides with their eta redexes contracted.
fn contract_both<S: TermStore>(
    alloc: Global,
    proof: &mut Proof<S>,
    i: usize,
) -> Result<usize, Memory>
    requires sound { IsSound proof.old }
    requires form { IsEquationUnder proof.old i }
    ensures line { (q : IsEquationUnder proof.old i) → IfOk result (λ n. line_at (sequents proof.new) n
        ≡ Some (record { hyps = q.hyps; concl = nameless_equation q.ty (contracted q.left) (contracted q.right) })) }
    ensures carries { Carries proof.old proof.new }
{
    let right = contract_right(alloc, proof, i)?;
    let turned = sure::sym(alloc, proof, right)?;
    let left = contract_right(alloc, proof, turned)?;
    let line = sure::sym(alloc, proof, left)?;
    Ok(line)
}

/// From `H |- s = t`, where `x` is new: `H |- f = g`, the sides as functions of `x`. Of `f x`, where
/// `f` doesn't have `x`, this is `f`, and of another term `\x. t`. So of `f x = g x` it gives `f = g`.
/// It adds three to seven lines.
///
/// `MissingLine` where there is no line, `NotEquation` where it is no equation,
/// `VariableInHypothesis` where `x` is free in a hypothesis.
pub fn extensionality<S: TermStore>(
    alloc: Global,
    proof: &mut Proof<S>,
    x: &Name,
    ty: &Ty,
    i: usize,
) -> Result<usize, RuleFault>
    requires sound { IsSound proof.old }
    requires ty { type_fault proof.old.signature ty.now ≡ None }
    ensures reaches { Reaches proof.new result
        (with_line (sequents proof.old) i (functions_equal x.now ty.now)) }
    ensures carries { Carries proof.old proof.new }
{
    let x = x.copy(alloc)?;
    let ty = ty.copy(alloc)?;
    let closed = match proof.abs(alloc, x, ty, i) {
        Ok(number) => number,
        Err(fault) => return Err(fault),
    };
    let line = contract_both(alloc, proof, closed)?;
    Ok(line)
}
