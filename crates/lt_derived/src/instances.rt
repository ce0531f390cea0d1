//! Instances of named statements.
ghost use Rattle.std.specs.Prelude.{◌≡◌, length, map, None};
ghost use Rattle.std.specs.List.{All};
ghost use Rattle.lt_definitions.specs.Types.{row};
ghost use Rattle.lt_definitions.specs.Typing.{types_fault};
ghost use Rattle.lt_store.specs.Trees.{trees};
ghost use Rattle.lt_store.specs.Typed.{IsTyped};
ghost use Rattle.lt_kernel.specs.State.{statements};
ghost use Rattle.lt_kernel.specs.Growing.{Carries};
ghost use Rattle.lt_kernel.specs.Reaching.{Reaches};
ghost use Rattle.lt_programs.specs.Programs.{named_at, paired};

use crate::putting::{names_of, put_at_once, types_of};
use crate::repeating::spec;
use lt_hol::{Name, TryCopy, Ty, TyMap};
use lt_kernel::{Proof, RuleFault};
use lt_store::{Id, TermStore};
use std::alloc::Global;

/// A named statement with types put for type variables at once, and then at terms: `|-` what `allE` for each term gives.
///
/// `UnknownLabel`, then the reason of the first `allE` that fails.
pub fn instance<S: TermStore>(
    alloc: Global,
    proof: &mut Proof<S>,
    label: &Name,
    types: &TyMap,
    terms: &[Id],
) -> Result<usize, RuleFault>
    requires sound { types_fault proof.old.signature (row (map (λ p. p.1) types.now)) ≡ None }
    requires terms { All (IsTyped proof.old.signature proof.old.nodes) terms.now }
    ensures reaches { Reaches proof.new result
        (named_at proof.old.signature (statements proof.old) label.now types.now
        (trees proof.old.nodes terms.now)) }
    ensures carries { Carries proof.old proof.new }
{
    let names = names_of(alloc, types)?;
    let types = types_of(alloc, types)?;
    instance_at(
        alloc,
        proof,
        label,
        names.as_slice(),
        types.as_slice(),
        terms,
    )
}

/// The same, with the names and their types side by side.
pub fn instance_at<S: TermStore>(
    alloc: Global,
    proof: &mut Proof<S>,
    label: &Name,
    names: &[Name],
    types: &[Ty],
    terms: &[Id],
) -> Result<usize, RuleFault>
    requires count { length names.now ≡ length types.now }
    requires sound { types_fault proof.old.signature (row types.now) ≡ None }
    requires terms { All (IsTyped proof.old.signature proof.old.nodes) terms.now }
    ensures reaches { Reaches proof.new result
        (named_at proof.old.signature (statements proof.old) label.now
        (paired names.now types.now) (trees proof.old.nodes terms.now)) }
    ensures carries { Carries proof.old proof.new }
{
    let label = label.copy(alloc)?;
    let law = match proof.thm(alloc, label) {
        Ok(number) => number,
        Err(fault) => return Err(fault),
    };
    let line = put_at_once(alloc, proof, law, names, types)?;
    spec(alloc, proof, line, terms)
}
