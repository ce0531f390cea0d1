//! The call of each rule.
ghost use Rattle.std.specs.Prelude.{◌≡◌, None};
ghost use Rattle.lt_definitions.specs.Typing.{type_fault};
ghost use Rattle.lt_store.specs.Typed.{IsTyped};

use crate::terms::{begun, name, put, ty};
use lt_hol::{Name, Ty};
use lt_kernel::{Proof, RuleFault};
use lt_store::{Id, TermStore};
use std::alloc::Global;
use std::process::Abort;
use std::test::Fail;

/// A line: its rule, the text of its term, and its earlier lines. What the rule doesn't ask for isn't looked at.
type Given<'a> = (&'a str, &'a str, usize, usize);

/// A line by each rule.
const LINES: [Given<'static>; 20] = [
    ("assume", "p$", 0, 0),
    ("weaken", "q$", 1, 0),
    ("refl", "p$", 0, 0),
    ("sym", "p$", 3, 0),
    ("trans", "p$", 3, 4),
    ("eta", "f$p%.p^", 0, 0),
    ("cong", "p$", 6, 3),
    ("abs", "p$", 3, 0),
    ("beta", "p%p^p$.", 0, 0),
    ("eqmp", "p$", 3, 1),
    ("impI", "p$", 1, 0),
    ("mp", "p$", 11, 1),
    ("allI", "p$", 11, 0),
    ("allE", "q$", 13, 0),
    ("iff", "p$", 11, 11),
    ("inst", "q$", 11, 0),
    ("tinst", "p$", 11, 0),
    ("select", "f$", 0, 0),
    ("ccontr", "p$", 0, 0),
    ("thm", "p$", 0, 0),
];

#[test]
fn each_rule_is_called(rt: HostRuntime) -> Result<(), Fail> {
    let mut proof = begun(rt.alloc())?;
    derive_all(rt.alloc(), &rt, &mut proof)
}

/// Adds all lines.
fn derive_all<S: TermStore>(
    alloc: Global,
    rt: &impl Abort,
    proof: &mut Proof<S>,
) -> Result<(), Fail> {
    state(alloc, proof)?;
    for given in &LINES {
        derive(alloc, proof, *given)?;
    }
    assert_eq!(rt; proof.steps().len(), 20);
    Ok(())
}

/// States `p` under its name.
fn state<S: TermStore>(alloc: Global, proof: &mut Proof<S>) -> Result<(), Fail> {
    let statement = put(alloc, proof, "p$")?;
    proof.add_statement(alloc, name(alloc)?, statement)?;
    Ok(())
}

/// Adds a line.
fn derive<S: TermStore>(alloc: Global, proof: &mut Proof<S>, given: Given<'_>) -> Result<(), Fail> {
    let (rule, text, i, j) = given;
    let t = put(alloc, proof, text)?;
    let of = ty(alloc)?;
    proof.signature().check_type(alloc, &of)?;
    call(alloc, proof, rule, name(alloc)?, of, t, i, j)?;
    Ok(())
}

/// The call of a rule's name.
fn call<S: TermStore>(
    alloc: Global,
    proof: &mut Proof<S>,
    rule: &str,
    x: Name,
    ty: Ty,
    t: Id,
    i: usize,
    j: usize,
) -> Result<usize, RuleFault>
    requires ty { type_fault proof.old.signature ty ≡ None }
    requires t { IsTyped proof.old.signature proof.old.nodes t }
{
    match rule {
        "assume" => proof.assume(alloc, t),
        "weaken" => proof.weaken(alloc, t, i),
        "refl" => proof.refl(alloc, t),
        "beta" => proof.beta(alloc, t),
        "eta" => proof.eta(alloc, t),
        _ => call_of_lines(alloc, proof, rule, x, ty, t, i, j),
    }
}

/// The call of a rule that is given lines alone.
fn call_of_lines<S: TermStore>(
    alloc: Global,
    proof: &mut Proof<S>,
    rule: &str,
    x: Name,
    ty: Ty,
    t: Id,
    i: usize,
    j: usize,
) -> Result<usize, RuleFault>
    requires ty { type_fault proof.old.signature ty ≡ None }
    requires t { IsTyped proof.old.signature proof.old.nodes t }
{
    match rule {
        "sym" => proof.sym(alloc, i),
        "trans" => proof.trans(alloc, i, j),
        "cong" => proof.cong(alloc, i, j),
        "eqmp" => proof.eqmp(alloc, i, j),
        "mp" => proof.mp(alloc, i, j),
        "iff" => proof.iff(alloc, i, j),
        _ => call_of_term(alloc, proof, rule, x, ty, t, i),
    }
}

/// The call of a rule that is given a term, and of `select` and `ccontr`.
fn call_of_term<S: TermStore>(
    alloc: Global,
    proof: &mut Proof<S>,
    rule: &str,
    x: Name,
    ty: Ty,
    t: Id,
    i: usize,
) -> Result<usize, RuleFault>
    requires ty { type_fault proof.old.signature ty ≡ None }
    requires t { IsTyped proof.old.signature proof.old.nodes t }
{
    match rule {
        "impI" => proof.impI(alloc, t, i),
        "allE" => proof.allE(alloc, t, i),
        "select" => proof.select(alloc, t),
        "ccontr" => proof.ccontr(alloc, t),
        _ => call_of_name(alloc, proof, rule, x, ty, t, i),
    }
}

/// The call of a rule that is given a name.
fn call_of_name<S: TermStore>(
    alloc: Global,
    proof: &mut Proof<S>,
    rule: &str,
    x: Name,
    ty: Ty,
    t: Id,
    i: usize,
) -> Result<usize, RuleFault>
    requires ty { type_fault proof.old.signature ty ≡ None }
    requires t { IsTyped proof.old.signature proof.old.nodes t }
{
    match rule {
        "abs" => proof.abs(alloc, x, ty, i),
        "allI" => proof.allI(alloc, x, ty, i),
        "inst" => proof.inst(alloc, x, ty, t, i),
        "tinst" => proof.tinst(alloc, x, ty, i),
        _ => proof.thm(alloc, x),
    }
}
