//! Rules that are repeated.
ghost use Rattle.std.specs.Prelude.{◌≡◌, ◌<◌, ◌≤◌, length, get_or, take, drop};
ghost use Rattle.std.specs.List.{All};
ghost use Rattle.lt_definitions.specs.Rules.{with_line};
ghost use Rattle.lt_store.specs.Trees.{trees};
ghost use Rattle.lt_store.specs.Typed.{IsTyped};
ghost use Rattle.lt_kernel.specs.State.{sequents};
ghost use Rattle.lt_kernel.specs.Growing.{Carries};
ghost use Rattle.lt_kernel.specs.Reaching.{Reaches};
ghost use Rattle.lt_programs.specs.Programs.{at_each, detached_by};
ghost use Rattle.lt_derived.specs.Premises.{AreKnown, IsMissing};

use lt_hol::Reason;
use lt_kernel::{Proof, RuleFault};
use lt_store::{Id, TermStore};
use std::alloc::Global;

/// From `H |- all x y .. p`: `H |- p` at the terms, by `allE` for each; over no terms the line itself.
///
/// `MissingLine` where there is no line, else the reason of the first `allE` that fails.
pub fn spec<S: TermStore>(
    alloc: Global,
    proof: &mut Proof<S>,
    i: usize,
    terms: &[Id],
) -> Result<usize, RuleFault>
    requires { All (IsTyped proof.old.signature proof.old.nodes) terms.now }
    ensures reaches { Reaches proof.new result
        (with_line (sequents proof.old) i
        (at_each proof.old.signature (trees proof.old.nodes terms.now))) }
    ensures carries { Carries proof.old proof.new }
{
    if !proof.is_line(i) {
        return Err(RuleFault::Bad(Reason::MissingLine));
    }
    let mut line = i;
    for t in terms {
        line = match proof.allE(alloc, *t, line) {
            Ok(number) => number,
            Err(fault) => return Err(fault),
        };
    }
    Ok(line)
}

/// From `H |- p --> q --> .. r` and a line for each premise: `r`, by `mp` for each; over no premises the line itself.
///
/// `MissingLine` where there is no line, else the reason of the first `mp` that fails. A premise is a line of before.
pub fn chain<S: TermStore>(
    alloc: Global,
    proof: &mut Proof<S>,
    i: usize,
    premises: &[usize],
) -> Result<usize, RuleFault>
    ensures reaches { Reaches proof.new result
        (with_line (sequents proof.old) i (detached_by (sequents proof.old) premises.now)) }
    ensures carries { Carries proof.old proof.new }
{
    if !proof.is_line(i) {
        return Err(RuleFault::Bad(Reason::MissingLine));
    }
    let known = known(proof, premises);
    let mut line = i;
    for k in 0..known {
        line = match proof.mp(alloc, line, premise(premises, k)) {
            Ok(number) => number,
            Err(fault) => return Err(fault),
        };
    }
    if known < premises.len() {
        return Err(RuleFault::Bad(Reason::MissingLine));
    }
    Ok(line)
}

/// The premise at a place.
fn premise(premises: &[usize], place: usize) -> usize
    requires { place < length premises.now }
    ensures { result ≡ get_or premises.now place 0 }
{
    premises[place]
}

/// How many of these numbers, from the left, are numbers of lines, up to the first that isn't one.
fn known<S: TermStore>(proof: &Proof<S>, numbers: &[usize]) -> usize
    ensures within { result ≤ length numbers.now }
    ensures known { AreKnown (sequents proof.now) (take result numbers.now) }
    ensures missing { IsMissing (sequents proof.now) (drop result numbers.now) }
{
    for k in 0..numbers.len() {
        if !proof.is_line(numbers[k]) {
            return k;
        }
    }
    numbers.len()
}
