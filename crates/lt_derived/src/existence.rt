//! Existence, by the definition of `ex`.
ghost use Rattle.std.specs.Prelude.{◌≡◌, ◌<◌, ◌||◌, [], length, is_some, true, None, Some, IfOk, Ok};
ghost use Rattle.lt_definitions.specs.Types.{bool, fun};
ghost use Rattle.lt_definitions.specs.Typing.{type_fault};
ghost use Rattle.lt_definitions.specs.Rules.{line_at, predicate_over, where_holds, with_line};
ghost use Rattle.lt_definitions.specs.declared.reason.Reason.TheVariants.{MiddleDiffers as NoPremise};
ghost use Rattle.lt_nameless.specs.Nameless.{nameless_application};
ghost use Rattle.lt_nameless.specs.NamelessRules.{nameless_at, nameless_gives, nameless_implies, nameless_type_of, nameless_union, same_nameless};
ghost use Rattle.lt_store.specs.Trees.{tree_at};
ghost use Rattle.lt_store.specs.Typed.{IsTyped};
ghost use Rattle.lt_kernel.specs.State.{sequents, statements};
ghost use Rattle.lt_kernel.specs.Growing.{Carries, IsSound};
ghost use Rattle.lt_kernel.specs.Reaching.{Reaches};
ghost use Rattle.lt_programs.specs.Programs.{theorem};
ghost use Rattle.lt_programs.specs.Connectives.{any_type, choice_law, chosen, chosen_element, existence, existence_law, exists_at, with_ex};
ghost use Rattle.lt_programs.specs.Derivations.{ex_meaning};
ghost use Rattle.lt_programs.specs.TypedTerms.{IsOfType};

use crate::connectives::stated;
use crate::parts::as_existence;
use crate::putting::put_one;
use crate::repeating::spec;
use crate::tabled::tabled;
use crate::unfolding::is_redex;
use lt_formulas::{are_same, has_type, predicate_over, type_of};
use lt_hol::{Memory, Reason, Ty};
use lt_kernel::{Proof, RuleFault, sure};
use lt_store::{Id, TermStore};
use lt_tables::derivations::{EX, EX_CHOSEN, EX_INTRODUCED, EX_UNFOLDED, PREDICATES};
use lt_tables::word;
use std::alloc::Global;

/// `|- ex P = all q. (all x. P x --> q) --> q`, over free variables.
fn ex_meaning<S: TermStore>(alloc: Global, proof: &mut Proof<S>) -> Result<usize, RuleFault>
    requires { IsSound proof.old }
    ensures reaches { Reaches proof.new result
        (with_ex (statements proof.old) (Ok (theorem ex_meaning))) }
    ensures carries { Carries proof.old proof.new }
{
    let definition = match stated(alloc, proof, "ex_def", PREDICATES, EX) {
        Ok(number) => number,
        Err(fault) => return Err(fault),
    };
    tabled(alloc, proof, definition, PREDICATES, &EX_UNFOLDED)
}

/// `|- all P x. P x --> ex P`, over `'a`.
fn existence_law<S: TermStore>(alloc: Global, proof: &mut Proof<S>) -> Result<usize, RuleFault>
    requires { IsSound proof.old }
    ensures reaches { Reaches proof.new result
        (with_ex (statements proof.old) (Ok (theorem (existence_law any_type)))) }
    ensures carries { Carries proof.old proof.new }
{
    let meaning = match ex_meaning(alloc, proof) {
        Ok(number) => number,
        Err(fault) => return Err(fault),
    };
    tabled(alloc, proof, meaning, PREDICATES, &EX_INTRODUCED)
}

/// The type over which a term is a predicate.
fn over_type<S: TermStore>(alloc: Global, proof: &Proof<S>, p: Id) -> Result<Option<Ty>, Memory>
    requires { IsTyped proof.now.signature proof.now.nodes p }
    ensures { IfOk result (λ o. o
        ≡ predicate_over (nameless_type_of proof.now.signature (tree_at proof.now.nodes p))) }
{
    let ty = type_of(alloc, proof, proof.signature(), p)?;
    Ok(predicate_over(alloc, &ty)?)
}

/// From `|- all P x. P x --> ex P`, over `'a`: `|- p t --> ex p`.
fn existence_at<S: TermStore>(
    alloc: Global,
    proof: &mut Proof<S>,
    law: usize,
    p: Id,
    t: Id,
    ty: &Ty,
) -> Result<usize, Memory>
    requires sound { IsSound proof.old }
    requires law { line_at (sequents proof.old) law ≡ Some (theorem (existence_law any_type)) }
    requires p { IsTyped proof.old.signature proof.old.nodes p }
    requires t { IsTyped proof.old.signature proof.old.nodes t }
    requires predicate { IsOfType proof.old.signature (tree_at proof.old.nodes p)
        (fun ty.now bool) }
    requires element { IsOfType proof.old.signature (tree_at proof.old.nodes t) ty.now }
    ensures line { IfOk result (λ n. line_at (sequents proof.new) n ≡ Some (theorem
        (nameless_implies (nameless_application (tree_at proof.old.nodes p)
        (tree_at proof.old.nodes t)) (existence ty.now (tree_at proof.old.nodes p))))) }
    ensures carries { Carries proof.old proof.new }
{
    let a = word(alloc, "a")?;
    let at = put_one(alloc, proof, law, &a, ty)?;
    match spec(alloc, proof, at, &[p, t]) {
        Ok(line) => Ok(line),
        Err(fault) => Err(fault.into_memory()),
    }
}

/// From `|- p t --> ex p` and a line that is `p t`, or `p` opened by `t`: `ex p`.
fn from_element<S: TermStore>(
    alloc: Global,
    proof: &mut Proof<S>,
    p: Id,
    t: Id,
    i: usize,
    at: usize,
    _ty: &Ty,
) -> Result<usize, RuleFault>
    requires there { is_some (line_at (sequents proof.old) i) ≡ true }
    requires at { line_at (sequents proof.old) at ≡ Some (theorem
        (nameless_implies (nameless_application (tree_at proof.old.nodes p)
        (tree_at proof.old.nodes t)) (existence _ty.now (tree_at proof.old.nodes p)))) }
    requires p { p < length proof.old.nodes }
    requires t { t < length proof.old.nodes }
    requires predicate { IsOfType proof.old.signature (tree_at proof.old.nodes p)
        (fun _ty.now bool) }
    requires element { IsOfType proof.old.signature (tree_at proof.old.nodes t) _ty.now }
    ensures reaches { Reaches proof.new result (with_line (sequents proof.old) i (λ s.
        where_holds (same_nameless (nameless_application (tree_at proof.old.nodes p)
        (tree_at proof.old.nodes t)) s.concl
        || same_nameless (nameless_at (tree_at proof.old.nodes p)
        (tree_at proof.old.nodes t)) s.concl) NoPremise (nameless_gives
        (nameless_union [] s.hyps) (existence _ty.now (tree_at proof.old.nodes p))))) }
    ensures carries { Carries proof.old proof.new }
{
    let applied = proof.mk_app(alloc, p, t)?;
    let concl = proof.conclusion(i);
    let is_applied = are_same(alloc, proof, applied, concl)?;
    if is_applied {
        return proof.mp(alloc, at, i);
    }
    if !is_redex(proof, applied) {
        return Err(RuleFault::Bad(Reason::MiddleDiffers));
    }
    let opens = sure::beta(alloc, proof, applied)?;
    let back = sure::sym(alloc, proof, opens)?;
    let moved = match proof.eqmp(alloc, back, i) {
        Ok(number) => number,
        Err(fault) => return Err(fault),
    };
    proof.mp(alloc, at, moved)
}

/// From `H |- p t`, or `H |- p` opened by `t`: `H |- ex p`, each hypothesis once.
///
/// `MissingLine`; then `UnknownLabel` where no statement of the label `ex_def` is the definition of
/// `ex`; then `TypeDiffers` where `p` is no predicate on the type of `t`; then `MiddleDiffers` where
/// the line is neither of the two.
pub fn exists<S: TermStore>(
    alloc: Global,
    proof: &mut Proof<S>,
    p: Id,
    t: Id,
    i: usize,
) -> Result<usize, RuleFault>
    requires sound { IsSound proof.old }
    requires p { IsTyped proof.old.signature proof.old.nodes p }
    requires t { IsTyped proof.old.signature proof.old.nodes t }
    ensures reaches { Reaches proof.new result (with_line (sequents proof.old) i
        (exists_at proof.old.signature (statements proof.old) (tree_at proof.old.nodes p)
        (tree_at proof.old.nodes t))) }
    ensures carries { Carries proof.old proof.new }
{
    if !proof.is_line(i) {
        return Err(RuleFault::Bad(Reason::MissingLine));
    }
    let law = match existence_law(alloc, proof) {
        Ok(number) => number,
        Err(fault) => return Err(fault),
    };
    let over = over_type(alloc, proof, p)?;
    let ty = match over {
        Some(ty) => ty,
        None => return Err(RuleFault::Bad(Reason::TypeDiffers)),
    };
    let is_element = has_type(alloc, proof, proof.signature(), t, &ty)?;
    if !is_element {
        return Err(RuleFault::Bad(Reason::TypeDiffers));
    }
    let at = existence_at(alloc, proof, law, p, t, &ty)?;
    from_element(alloc, proof, p, t, i, at, &ty)
}

/// `|- all P. ex P --> P (eps P)`, over `'a`.
fn choice_law<S: TermStore>(alloc: Global, proof: &mut Proof<S>) -> Result<usize, RuleFault>
    requires { IsSound proof.old }
    ensures reaches { Reaches proof.new result
        (with_ex (statements proof.old) (Ok (theorem (choice_law any_type)))) }
    ensures carries { Carries proof.old proof.new }
{
    let meaning = match ex_meaning(alloc, proof) {
        Ok(number) => number,
        Err(fault) => return Err(fault),
    };
    tabled(alloc, proof, meaning, PREDICATES, &EX_CHOSEN)
}

/// From `|- all P. ex P --> P (eps P)`, over `'a`: `|- ex p --> p (eps p)`.
fn choice_at<S: TermStore>(
    alloc: Global,
    proof: &mut Proof<S>,
    law: usize,
    p: Id,
    ty: &Ty,
) -> Result<usize, Memory>
    requires law { line_at (sequents proof.old) law ≡ Some (theorem (choice_law any_type)) }
    requires ty { type_fault proof.old.signature ty.now ≡ None }
    requires p { IsTyped proof.old.signature proof.old.nodes p }
    requires predicate { IsOfType proof.old.signature (tree_at proof.old.nodes p)
        (fun ty.now bool) }
    ensures line { IfOk result (λ n. line_at (sequents proof.new) n ≡ Some (theorem
        (nameless_implies (existence ty.now (tree_at proof.old.nodes p)) (nameless_application
        (tree_at proof.old.nodes p) (chosen ty.now (tree_at proof.old.nodes p)))))) }
    ensures carries { Carries proof.old proof.new }
{
    let a = word(alloc, "a")?;
    let at = put_one(alloc, proof, law, &a, ty)?;
    match spec(alloc, proof, at, &[p]) {
        Ok(line) => Ok(line),
        Err(fault) => Err(fault.into_memory()),
    }
}

/// From `H |- ex p`: `H |- p (eps p)`, each hypothesis once. It adds 15 lines.
///
/// `MissingLine`; then `UnknownLabel` where no statement of the label `ex_def` is the definition of
/// `ex`; then `MiddleDiffers` where the line is no existence.
pub fn chosen_element<S: TermStore>(
    alloc: Global,
    proof: &mut Proof<S>,
    i: usize,
) -> Result<usize, RuleFault>
    requires { IsSound proof.old }
    ensures reaches { Reaches proof.new result
        (with_line (sequents proof.old) i (chosen_element (statements proof.old))) }
    ensures carries { Carries proof.old proof.new }
{
    if !proof.is_line(i) {
        return Err(RuleFault::Bad(Reason::MissingLine));
    }
    let law = match choice_law(alloc, proof) {
        Ok(number) => number,
        Err(fault) => return Err(fault),
    };
    let concl = proof.conclusion(i);
    let parts = as_existence(alloc, proof, concl)?;
    let (ty, p) = match parts {
        Some(parts) => parts,
        None => return Err(RuleFault::Bad(Reason::MiddleDiffers)),
    };
    let at = choice_at(alloc, proof, law, p, &ty)?;
    proof.mp(alloc, at, i)
}
