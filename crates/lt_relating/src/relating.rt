//! Statements that are related to their images, part by part.
ghost use Rattle.std.specs.Prelude.{◌≡◌, ◌<◌, List, [], ◌∷◌, ◌++◌, length, slice_get, drop, reverse, is_some, Some, IfOk};
ghost use Rattle.std.specs.List.{All};
ghost use Rattle.lt_definitions.specs.Rules.{line_at};
ghost use Rattle.lt_nameless.specs.Nameless.{NamelessSequent};
ghost use Rattle.lt_kernel.specs.State.{sequents, statements};
ghost use Rattle.lt_kernel.specs.Growing.{Carries, IsSound};
ghost use Rattle.lt_kernel.specs.Reaching.{Reaches};
ghost use Rattle.lt_relating.specs.Pairs.{binding_of, IsPair};
ghost use Rattle.lt_relating.specs.Parts.{applied_last, abstracted_last, walked};
ghost use Rattle.lt_relating.specs.Walks.{parts_at, laws_of, AreHeld, AreLines, IsPart, IsAt, LeadsOn};

use crate::abstracting::abstract_related;
use crate::applying::apply_related;
use crate::part::{RelatorLabels, StatementPart};
use crate::variable_pair::VariablePair;
use lt_hol::{Memory, Name, Reason};
use lt_kernel::{Proof, RuleFault};
use lt_store::TermStore;
use std::alloc::Global;

/// The last two lines, of functions and of arguments, are taken: what the functions give at the
/// arguments.
fn apply_last<S: TermStore>(
    alloc: Global,
    proof: &mut Proof<S>,
    law: &Name,
    lines: &mut Vec<usize>,
) -> Result<usize, RuleFault>
    requires sound { IsSound proof.old }
    requires lines { AreLines proof.old (reverse lines.old.items) }
    ensures reaches { (qs : List NamelessSequent) → AreHeld proof.old (reverse lines.old.items) qs
        → Reaches proof.new result
        (applied_last proof.old.signature (statements proof.old) law.now qs) }
    ensures held { (qs : List NamelessSequent) → AreHeld proof.old (reverse lines.old.items) qs
        → IfOk result (λ _. AreHeld proof.new (reverse lines.new.items) (drop 2 qs)) }
    ensures carries { Carries proof.old proof.new }
{
    let Some(arguments) = lines.pop() else {
        return Err(RuleFault::Bad(Reason::MissingLine));
    };
    let Some(functions) = lines.pop() else {
        return Err(RuleFault::Bad(Reason::MissingLine));
    };
    apply_related(alloc, proof, law, functions, arguments)
}

/// The last line, of values, is taken: what the functions of the pair's variables give.
fn abstract_last<S: TermStore>(
    alloc: Global,
    proof: &mut Proof<S>,
    law: &Name,
    pair: &VariablePair,
    lines: &mut Vec<usize>,
) -> Result<usize, RuleFault>
    requires sound { IsSound proof.old }
    requires pair { IsPair proof.old pair.now }
    requires lines { AreLines proof.old (reverse lines.old.items) }
    ensures reaches { (qs : List NamelessSequent) → AreHeld proof.old (reverse lines.old.items) qs
        → Reaches proof.new result (abstracted_last proof.old.signature (statements proof.old)
        law.now (binding_of proof.old.nodes pair.now) qs) }
    ensures held { (qs : List NamelessSequent) → AreHeld proof.old (reverse lines.old.items) qs
        → IfOk result (λ _. AreHeld proof.new (reverse lines.new.items) (drop 1 qs)) }
    ensures carries { Carries proof.old proof.new }
{
    let Some(values) = lines.pop() else {
        return Err(RuleFault::Bad(Reason::MissingLine));
    };
    abstract_related(alloc, proof, law, pair, values)
}

/// How many lines there are.
fn count_lines<S: TermStore>(proof: &Proof<S>) -> usize
    ensures { result ≡ length (sequents proof.now) }
{
    proof.steps().len()
}

/// The part at a place.
fn part_at(parts: &[StatementPart], place: usize) -> &StatementPart
    requires { place < length parts.now }
    ensures { slice_get parts.now place ≡ Some result.now }
{
    &parts[place]
}

/// A line behind the others.
fn keep_line(lines: &mut Vec<usize>, line: usize) -> Result<(), Memory>
    ensures { IfOk result (λ _. lines.new.items ≡ lines.old.items ++ line ∷ []) }
{
    lines.push(line)?;
    Ok(())
}

/// Whether a number is that of one of so many lines.
fn is_among(count: usize, n: usize) -> bool
    ensures { (done : List NamelessSequent) → count ≡ length done
        → result ≡ is_some (line_at done n) }
{
    0 < n && n <= count
}

/// The line of the part that comes next, which takes the lines of its own parts.
fn relate_next<S: TermStore>(
    alloc: Global,
    proof: &mut Proof<S>,
    labels: &RelatorLabels,
    count: usize,
    lines: &mut Vec<usize>,
    part: &StatementPart,
) -> Result<usize, RuleFault>
    requires { IsAt proof.old labels.now count (reverse lines.old.items) part.now }
    ensures carries { Carries proof.old proof.new }
    ensures leads { (q : IsAt proof.old labels.now count (reverse lines.old.items) part.now)
        → LeadsOn proof.new q.first labels.now (reverse lines.new.items) q.rest q.whole result }
{
    match part {
        StatementPart::Line(n) => {
            if is_among(count, *n) {
                Ok(*n)
            } else {
                Err(RuleFault::Bad(Reason::MissingLine))
            }
        }
        StatementPart::Name(p) => proof.assume(alloc, *p),
        StatementPart::Application => apply_last(alloc, proof, &labels.application, lines),
        StatementPart::Abstraction(pair) => {
            abstract_last(alloc, proof, &labels.abstraction, pair, lines)
        }
    }
}

/// From lines that relate the constants of a statement: the line that relates the statement to its
/// image.
///
/// The parts stand in post-order. `MissingLine` where a constant's number is that of no line, or a
/// part isn't there that another one takes, or there is none at all; `NotBool` of a bound name's
/// formula; then the reasons of `apply_related` and of `abstract_related`. The first that fails in
/// post-order tells.
pub fn relate_statement<S: TermStore>(
    alloc: Global,
    proof: &mut Proof<S>,
    labels: &RelatorLabels,
    parts: &[StatementPart],
) -> Result<usize, RuleFault>
    requires sound { IsSound proof.old }
    requires parts { All (IsPart proof.old) parts.now }
    ensures reaches { Reaches proof.new result (walked proof.old.signature
        (laws_of proof.old labels.now) (sequents proof.old) []
        (parts_at proof.old.nodes parts.now)) }
    ensures carries { Carries proof.old proof.new }
{
    let count = count_lines(proof);
    let mut lines: Vec<usize> = Vec::new(alloc);
    for k in 0..parts.len() {
        let part = part_at(parts, k);
        let line = match relate_next(alloc, proof, labels, count, &mut lines, part) {
            Ok(number) => number,
            Err(fault) => return Err(fault),
        };
        keep_line(&mut lines, line)?;
    }
    match lines.pop() {
        Some(line) => Ok(line),
        None => Err(RuleFault::Bad(Reason::MissingLine)),
    }
}
