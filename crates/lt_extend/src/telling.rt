//! Tells lines of the kernel as lines over terms.
ghost use Rattle.std.specs.Prelude.{◌≡◌, ◌<◌, ◌≤◌, ◌++◌, ◌∷◌, [], length, slice_get, Some, IfOk, OnOk};
ghost use Rattle.lt_definitions.specs.Typing.{Signature};
ghost use Rattle.lt_nameless.specs.Nameless.{IsWhole};
ghost use Rattle.lt_store.specs.Trees.{tree_at};
ghost use Rattle.lt_kernel.specs.Lines.{rule_at, IsGoodLine};
ghost use Rattle.lt_extend.specs.Telling.{rules_at, rules_in, KeepsRules, IsPlaced, IsTold, IsToldLine};
ghost use Rattle.lt_extend.specs.Placing.{HasPlaces, TakesPlaces};

use lt_hol::{Line, Lines, Memory, Term, TermNode, TryCopy};
use lt_kernel::{Proof, Step};
use lt_store::{Id, TermStore, from_store};
use std::alloc::Global;

/// The first so many lines of a proof, over terms. It takes time linear in their terms, as trees.
pub(crate) fn told_lines<S: TermStore>(
    alloc: Global,
    proof: &Proof<S>,
    count: usize,
) -> Result<Lines, Memory>
    requires { count ≤ length proof.now.steps }
    ensures { IfOk result (λ lines. rules_in lines ≡ rules_at proof.now count) }
{
    let mut lines = Lines::new(alloc);
    let steps = proof.steps();
    for i in 0..count {
        add_told(alloc, proof.store(), &mut lines, &step_at(steps, i).line)?;
    }
    Ok(lines)
}

/// The line at a place, from 0, with its sequent.
fn step_at(steps: &[Step], at: usize) -> &Step
    requires { at < length steps.now }
    ensures { slice_get steps.now at ≡ Some result.now }
{
    &steps[at]
}

/// One more line, that of a kernel.
fn add_told<S: TermStore>(
    alloc: Global,
    store: &S,
    lines: &mut Lines,
    line: &Line,
) -> Result<(), Memory>
    requires { (sig : Signature) × IsGoodLine sig (S.nodes store.now) line.now }
    ensures { OnOk result (rules_in lines.new
        ≡ rules_in lines.old ++ rule_at (S.nodes store.now) line.now ∷ []) }
{
    let told = told_line(alloc, store, lines, line)?;
    lines.push(alloc, told)
}

/// A line of a kernel over places of nodes, which are added.
fn told_line<S: TermStore>(
    alloc: Global,
    store: &S,
    lines: &mut Lines,
    line: &Line,
) -> Result<Line, Memory>
    requires { (sig : Signature) × IsGoodLine sig (S.nodes store.now) line.now }
    ensures kept { KeepsRules lines.old lines.new }
    ensures told { IfOk result (IsToldLine lines.new.nodes (S.nodes store.now) line.now) }
{
    match line {
        Line::Assume(p) => Ok(Line::Assume(told_term(alloc, store, lines, *p)?)),
        Line::Weaken(p, i) => Ok(Line::Weaken(told_term(alloc, store, lines, *p)?, *i)),
        Line::Refl(t) => Ok(Line::Refl(told_term(alloc, store, lines, *t)?)),
        Line::Beta(t) => Ok(Line::Beta(told_term(alloc, store, lines, *t)?)),
        Line::Eta(t) => Ok(Line::Eta(told_term(alloc, store, lines, *t)?)),
        Line::ImpI(p, i) => Ok(Line::ImpI(told_term(alloc, store, lines, *p)?, *i)),
        Line::AllE(t, i) => Ok(Line::AllE(told_term(alloc, store, lines, *t)?, *i)),
        Line::Inst(x, ty, t, i) => {
            let t = told_term(alloc, store, lines, *t)?;
            Ok(Line::Inst(x.copy(alloc)?, ty.copy(alloc)?, t, *i))
        }
        Line::Select(p) => Ok(Line::Select(told_term(alloc, store, lines, *p)?)),
        Line::Ccontr(p) => Ok(Line::Ccontr(told_term(alloc, store, lines, *p)?)),
        Line::Sym(_)
        | Line::Trans(_, _)
        | Line::Cong(_, _)
        | Line::Abs(_, _, _)
        | Line::Eqmp(_, _)
        | Line::Mp(_, _)
        | Line::AllI(_, _, _)
        | Line::Iff(_, _)
        | Line::Tinst(_, _, _)
        | Line::Thm(_) => line.copy(alloc),
    }
}

/// The place of a term for which an id stands, whose nodes are added.
fn told_term<S: TermStore>(
    alloc: Global,
    store: &S,
    lines: &mut Lines,
    id: Id,
) -> Result<usize, Memory>
    requires within { id < length (S.nodes store.now) }
    requires whole { IsWhole 0 (tree_at (S.nodes store.now) id) }
    ensures kept { KeepsRules lines.old lines.new }
    ensures told { IfOk result (IsTold lines.new.nodes (S.nodes store.now) id) }
{
    let t = from_store(alloc, store, id)?;
    add_term(alloc, lines, &t)
}

/// The place of a term, whose nodes are added.
fn add_term(alloc: Global, lines: &mut Lines, t: &Term) -> Result<usize, Memory>
    ensures kept { KeepsRules lines.old lines.new }
    ensures placed { IfOk result (λ place. IsPlaced lines.new.nodes place t.now) }
{
    let mut places = Vec::new(alloc);
    for node in t.nodes() {
        let placed = placed_node(alloc, &mut places, node)?;
        let place = lines.add_node(alloc, placed)?;
        places.push(place)?;
    }
    Ok(last_of(places))
}

/// A node whose children stand at the last places, which are taken away.
fn placed_node(alloc: Global, places: &mut Vec<usize>, node: &TermNode) -> Result<TermNode, Memory>
    requires { HasPlaces places.old.items node.now }
    ensures { IfOk result (TakesPlaces places.old.items places.new.items node.now) }
{
    match node {
        TermNode::App(_, _) => {
            let argument = pop(places);
            let function = pop(places);
            Ok(TermNode::App(function, argument))
        }
        TermNode::Lam(name, ty, _) => {
            let body = pop(places);
            Ok(TermNode::Lam(name.copy(alloc)?, ty.copy(alloc)?, body))
        }
        TermNode::Free(_, _) | TermNode::Bound(_) | TermNode::Const(_, _) => node.copy(alloc),
    }
}

/// The last place, which is taken away.
fn pop(places: &mut Vec<usize>) -> usize
    requires { 1 ≤ length places.old.items }
    ensures { places.old.items ≡ places.new.items ++ result ∷ [] }
{
    match places.pop() {
        Some(place) => place,
        None => unreachable!(),
    }
}

/// The one place that is there.
fn last_of(places: Vec<usize>) -> usize
    requires { length places.items ≡ 1 }
    ensures { places.items ≡ result ∷ [] }
{
    places[0]
}
