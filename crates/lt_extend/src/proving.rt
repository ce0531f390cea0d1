//! Whether a line of a derivation is a statement without hypotheses.
ghost use Rattle.std.specs.Prelude.{◌≡◌, ◌<◌, [], List, length, map, IfOk};
ghost use Rattle.std.specs.Option.{option_map};
ghost use Rattle.lt_definitions.specs.Terms.{TermTree};
ghost use Rattle.lt_definitions.specs.Rules.{Sequent as Sequents, line_at};
ghost use Rattle.lt_definitions.specs.Theory.{is_proved};
ghost use Rattle.lt_nameless.specs.Nameless.{nameless, IsWhole};
ghost use Rattle.lt_store.specs.Trees.{tree_at, trees, AllBelow};
ghost use Rattle.std.specs.List.{All};
ghost use Rattle.lt_kernel.specs.Sequents.{sequent_at, IsWithin};
ghost use Rattle.lt_kernel.specs.State.{sequents};
ghost use Rattle.lt_conditions.specs.Refusing.{Tests, shown};
ghost use Rattle.lt_extend.specs.Deriving.{HasSequents};
ghost use Rattle.lt_extend.specs.Proving.{AreWhole, IsWholeSequent, unproved};

use lt_conditions::{ItemFault, TermSequent};
use lt_hol::{Ids, List, Memory, Terms};
use lt_kernel::{Proof, Sequent};
use lt_store::{Id, TermStore, from_store};
use std::alloc::Global;

/// Refuses a statement that isn't that of the line with a number, without hypotheses.
pub(crate) fn check_proved<S: TermStore>(
    alloc: Global,
    proof: &Proof<S>,
    number: usize,
    statement: Id,
) -> Result<(), ItemFault>
    requires statement { statement < length proof.now.nodes }
    requires whole { AreWhole (sequents proof.now) }
    ensures { (done : List Sequents) (t : TermTree) → HasSequents proof.now done
        → tree_at proof.now.nodes statement ≡ nameless [] t
        → Tests (unproved t (line_at done number)) result }
{
    if is_proved(alloc, proof, number, statement)? {
        return Ok(());
    }
    Err(ItemFault::NotProved(last_sequent(alloc, proof, number)?))
}

/// Whether the line with a number has no hypotheses and this conclusion.
fn is_proved<S: TermStore>(
    alloc: Global,
    proof: &Proof<S>,
    number: usize,
    statement: Id,
) -> Result<bool, Memory>
    requires { statement < length proof.now.nodes }
    ensures { IfOk result
        (λ yes. (done : List Sequents) (t : TermTree) → HasSequents proof.now done
        → tree_at proof.now.nodes statement ≡ nameless [] t
        → yes ≡ is_proved t (line_at done number)) }
{
    let Some(sequent) = proof.sequent(number) else {
        return Ok(false);
    };
    if sequent.hyps.len() != 0 {
        return Ok(false);
    }
    proof.store().same(alloc, sequent.concl, statement)
}

/// The sequent of the line with a number, as terms.
fn last_sequent<S: TermStore>(
    alloc: Global,
    proof: &Proof<S>,
    number: usize,
) -> Result<Option<TermSequent>, Memory>
    requires { AreWhole (sequents proof.now) }
    ensures { IfOk result (λ o. option_map shown o ≡ line_at (sequents proof.now) number) }
{
    match proof.sequent(number) {
        Some(sequent) => Ok(Some(sequent_of(alloc, proof.store(), sequent)?)),
        None => Ok(None),
    }
}

/// A sequent as terms.
fn sequent_of<S: TermStore>(
    alloc: Global,
    store: &S,
    sequent: &Sequent,
) -> Result<TermSequent, Memory>
    requires within { IsWithin (length (S.nodes store.now)) sequent.now }
    requires whole { IsWholeSequent (sequent_at (S.nodes store.now) sequent.now) }
    ensures { IfOk result (λ s. shown s ≡ sequent_at (S.nodes store.now) sequent.now) }
{
    let hyps = terms_of(alloc, store, &sequent.hyps)?;
    let concl = from_store(alloc, store, sequent.concl)?;
    Ok(TermSequent { hyps, concl })
}

/// The terms of ids.
fn terms_of<S: TermStore>(alloc: Global, store: &S, ids: &Ids) -> Result<Terms, Memory>
    requires within { AllBelow (length (S.nodes store.now)) ids.now }
    requires whole { All (IsWhole 0) (trees (S.nodes store.now) ids.now) }
    ensures { IfOk result (λ ts. map (nameless []) ts ≡ trees (S.nodes store.now) ids.now) }
{
    let mut terms = List::new(alloc);
    for at in 0..ids.len() {
        let term = from_store(alloc, store, *ids.at(at))?;
        terms.push(alloc, term)?;
    }
    Ok(terms)
}
