//! Conjunction, by the definition of `and`.
ghost use Rattle.std.specs.Prelude.{◌≡◌, is_some, true, IsTrue, Ok, Some, codes};
ghost use Rattle.lt_definitions.specs.Rules.{line_at, where_holds, with_line, with_lines};
ghost use Rattle.lt_definitions.specs.declared.reason.Reason.TheVariants.{UnknownLabel as NoLabel};
ghost use Rattle.lt_nameless.specs.Nameless.{IsWhole, Nameless};
ghost use Rattle.lt_nameless.specs.NamelessRules.{IsBooleanNameless};
ghost use Rattle.lt_kernel.specs.State.{sequents, statements};
ghost use Rattle.lt_kernel.specs.Growing.{Carries, IsSound};
ghost use Rattle.lt_kernel.specs.Reaching.{Reaches};
ghost use Rattle.lt_programs.specs.Programs.{theorem};
ghost use Rattle.lt_programs.specs.Connectives.{and_definition, is_stated, with_and, conjunction_law, conjoined, left_law, left_side, right_law, right_side};
ghost use Rattle.lt_tables.specs.Letters.{is_plain};
ghost use Rattle.lt_tables.specs.Rules.{form_with};
ghost use Rattle.lt_programs.specs.Derivations.{and_meaning};
ghost use Rattle.lt_derived.specs.Sides.{side_by, side_law};

use crate::parts::as_conjunction;
use crate::repeating::{chain, spec};
use crate::tabled::{put_text, tabled};
use lt_formulas::are_same;
use lt_hol::Reason;
use lt_kernel::{Proof, RuleFault};
use lt_store::TermStore;
use lt_tables::derivations::{AND, AND_INTRODUCED, AND_LEFT, AND_RIGHT, AND_UNFOLDED, TRUTHS};
use lt_tables::word;
use std::alloc::Global;

/// The line of a named statement that is this one; `UnknownLabel` where it is another one or none.
pub(crate) fn stated<S: TermStore>(
    alloc: Global,
    proof: &mut Proof<S>,
    label: &str,
    types: &str,
    text: &str,
) -> Result<usize, RuleFault>
    requires label { IsTrue (is_plain label.now) }
    requires statement { IsWhole 0 (form_with types.now text.now) }
    ensures reaches { Reaches proof.new result
        (where_holds (is_stated (statements proof.old) label.now (form_with types.now text.now))
        NoLabel (Ok (theorem (form_with types.now text.now)))) }
    ensures carries { Carries proof.old proof.new }
{
    let label = word(alloc, label)?;
    let line = match proof.thm(alloc, label) {
        Ok(number) => number,
        Err(fault) => return Err(fault),
    };
    let statement = put_text(alloc, proof, types, text)?;
    let concl = proof.conclusion(line);
    let is_same = are_same(alloc, proof, statement, concl)?;
    if !is_same {
        return Err(RuleFault::Bad(Reason::UnknownLabel));
    }
    Ok(line)
}

/// `|- and p q = all r. (p --> q --> r) --> r`, over free variables.
fn and_meaning<S: TermStore>(alloc: Global, proof: &mut Proof<S>) -> Result<usize, RuleFault>
    requires { IsSound proof.old }
    ensures reaches { Reaches proof.new result
        (with_and (statements proof.old) (Ok (theorem and_meaning))) }
    ensures carries { Carries proof.old proof.new }
{
    let definition = match stated(alloc, proof, "and_def", TRUTHS, AND) {
        Ok(number) => number,
        Err(fault) => return Err(fault),
    };
    tabled(alloc, proof, definition, TRUTHS, &AND_UNFOLDED)
}

/// `|- all p q. p --> q --> and p q`.
fn conjunction_law<S: TermStore>(alloc: Global, proof: &mut Proof<S>) -> Result<usize, RuleFault>
    requires { IsSound proof.old }
    ensures reaches { Reaches proof.new result
        (with_and (statements proof.old) (Ok (theorem conjunction_law))) }
    ensures carries { Carries proof.old proof.new }
{
    let meaning = match and_meaning(alloc, proof) {
        Ok(number) => number,
        Err(fault) => return Err(fault),
    };
    tabled(alloc, proof, meaning, TRUTHS, &AND_INTRODUCED)
}

/// From `H |- p` and `K |- q`: `H, K |- and p q`, each hypothesis once.
///
/// `MissingLine`, then `UnknownLabel` where no statement of the label `and_def` is the definition of `and`.
pub fn conj<S: TermStore>(
    alloc: Global,
    proof: &mut Proof<S>,
    i: usize,
    j: usize,
) -> Result<usize, RuleFault>
    requires { IsSound proof.old }
    ensures reaches { Reaches proof.new result
        (with_lines (sequents proof.old) i j (conjoined (statements proof.old))) }
    ensures carries { Carries proof.old proof.new }
{
    if !proof.is_line(i) {
        return Err(RuleFault::Bad(Reason::MissingLine));
    }
    if !proof.is_line(j) {
        return Err(RuleFault::Bad(Reason::MissingLine));
    }
    let law = match conjunction_law(alloc, proof) {
        Ok(number) => number,
        Err(fault) => return Err(fault),
    };
    let left = proof.conclusion(i);
    let right = proof.conclusion(j);
    let at = match spec(alloc, proof, law, &[left, right]) {
        Ok(number) => number,
        Err(fault) => return Err(fault),
    };
    chain(alloc, proof, at, &[i, j])
}

/// `|- all p q. and p q --> p`.
fn left_law<S: TermStore>(alloc: Global, proof: &mut Proof<S>) -> Result<usize, RuleFault>
    requires { IsSound proof.old }
    ensures reaches { Reaches proof.new result
        (with_and (statements proof.old) (Ok (theorem left_law))) }
    ensures carries { Carries proof.old proof.new }
{
    let meaning = match and_meaning(alloc, proof) {
        Ok(number) => number,
        Err(fault) => return Err(fault),
    };
    tabled(alloc, proof, meaning, TRUTHS, &AND_LEFT)
}

/// `|- all p q. and p q --> q`.
fn right_law<S: TermStore>(alloc: Global, proof: &mut Proof<S>) -> Result<usize, RuleFault>
    requires { IsSound proof.old }
    ensures reaches { Reaches proof.new result
        (with_and (statements proof.old) (Ok (theorem right_law))) }
    ensures carries { Carries proof.old proof.new }
{
    let meaning = match and_meaning(alloc, proof) {
        Ok(number) => number,
        Err(fault) => return Err(fault),
    };
    tabled(alloc, proof, meaning, TRUTHS, &AND_RIGHT)
}

/// From `|- all p q. and p q --> r` and `H |- and p q`: `H |- r`.
fn side<S: TermStore>(
    alloc: Global,
    proof: &mut Proof<S>,
    law: usize,
    i: usize,
) -> Result<usize, RuleFault>
    requires sound { IsSound proof.old }
    requires definition { IsBooleanNameless proof.old.signature and_definition }
    requires there { is_some (line_at (sequents proof.old) i) ≡ true }
    ensures reaches { (r : Nameless)
        → line_at (sequents proof.old) law ≡ Some (theorem (side_law r))
        → Reaches proof.new result (with_line (sequents proof.old) i (side_by r)) }
    ensures carries { Carries proof.old proof.new }
{
    let concl = proof.conclusion(i);
    let (p, q) = match as_conjunction(proof, concl) {
        Some(sides) => sides,
        None => return Err(RuleFault::Bad(Reason::MiddleDiffers)),
    };
    let at = match spec(alloc, proof, law, &[p, q]) {
        Ok(number) => number,
        Err(fault) => return Err(fault),
    };
    proof.mp(alloc, at, i)
}

/// From `H |- and p q`: `H |- p`, each hypothesis once. It adds 22 lines.
///
/// `MissingLine`; then `UnknownLabel` where no statement of the label `and_def` is the definition of
/// `and`; then `MiddleDiffers` where the line is no conjunction.
pub fn left<S: TermStore>(alloc: Global, proof: &mut Proof<S>, i: usize) -> Result<usize, RuleFault>
    requires { IsSound proof.old }
    ensures reaches { Reaches proof.new result
        (with_line (sequents proof.old) i (left_side (statements proof.old))) }
    ensures carries { Carries proof.old proof.new }
{
    if !proof.is_line(i) {
        return Err(RuleFault::Bad(Reason::MissingLine));
    }
    let law = match left_law(alloc, proof) {
        Ok(number) => number,
        Err(fault) => return Err(fault),
    };
    side(alloc, proof, law, i)
}

/// From `H |- and p q`: `H |- q`, each hypothesis once. It adds 22 lines.
///
/// `MissingLine`; then `UnknownLabel` where no statement of the label `and_def` is the definition of
/// `and`; then `MiddleDiffers` where the line is no conjunction.
pub fn right<S: TermStore>(
    alloc: Global,
    proof: &mut Proof<S>,
    i: usize,
) -> Result<usize, RuleFault>
    requires { IsSound proof.old }
    ensures reaches { Reaches proof.new result
        (with_line (sequents proof.old) i (right_side (statements proof.old))) }
    ensures carries { Carries proof.old proof.new }
{
    if !proof.is_line(i) {
        return Err(RuleFault::Bad(Reason::MissingLine));
    }
    let law = match right_law(alloc, proof) {
        Ok(number) => number,
        Err(fault) => return Err(fault),
    };
    side(alloc, proof, law, i)
}
