//! Functions that are related, at arguments that are.
ghost use Rattle.std.specs.Prelude.{◌≡◌, is_some, true};
ghost use Rattle.lt_definitions.specs.Rules.{line_at, with_lines};
ghost use Rattle.lt_kernel.specs.State.{sequents, statements};
ghost use Rattle.lt_kernel.specs.Growing.{Carries, IsSound};
ghost use Rattle.lt_kernel.specs.Reaching.{Reaches};
ghost use Rattle.lt_relating.specs.RelatedSteps.{applied_by};

use crate::reading::{applied_parts, relator_names};
use lt_derived::{chain, instance_at};
use lt_hol::{Name, Reason};
use lt_kernel::{Proof, RuleFault};
use lt_store::TermStore;
use std::alloc::Global;

/// From `H |- rel_fun R S f g` and `K |- R x y`: `H, K |- S (f x) (g y)`, by the law of the label.
///
/// `MiddleDiffers` where the lines haven't this form; then the reasons of the law's instance and of
/// the two `mp`.
pub fn apply_related<S: TermStore>(
    alloc: Global,
    proof: &mut Proof<S>,
    law: &Name,
    i: usize,
    j: usize,
) -> Result<usize, RuleFault>
    requires sound { IsSound proof.old }
    requires first { is_some (line_at (sequents proof.old) i) ≡ true }
    requires second { is_some (line_at (sequents proof.old) j) ≡ true }
    ensures reaches { Reaches proof.new result (with_lines (sequents proof.old) i j
        (applied_by proof.old.signature (statements proof.old) law.now)) }
    ensures carries { Carries proof.old proof.new }
{
    let first = proof.conclusion(i);
    let second = proof.conclusion(j);
    let parts = applied_parts(alloc, proof, first, second)?;
    let (types, terms) = match parts {
        Some(parts) => parts,
        None => return Err(RuleFault::Bad(Reason::MiddleDiffers)),
    };
    let names = relator_names(alloc)?;
    let line = match instance_at(
        alloc,
        proof,
        law,
        names.as_slice(),
        types.as_slice(),
        terms.as_slice(),
    ) {
        Ok(number) => number,
        Err(fault) => return Err(fault),
    };
    chain(alloc, proof, line, &[i, j])
}
