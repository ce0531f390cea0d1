//! Derives lemmas.
ghost use Rattle.std.specs.Prelude.{◌≡◌, ◌<◌, [], List, Option as Maybe, None as Nothing, length, IfOk};
ghost use Rattle.lt_definitions.specs.Items.{Context, Item as Items, empty, context_of};
ghost use Rattle.lt_definitions.specs.Rules.{Sequent};
ghost use Rattle.lt_definitions.specs.Theory.{IsPlainTheory, refusal, proof_test};
ghost use Rattle.lt_definitions.specs.Derivations.{derived};
ghost use Rattle.lt_nameless.specs.Nameless.{nameless, IsWhole};
ghost use Rattle.lt_hol.specs.Lines.{rules_of};
ghost use Rattle.lt_store.specs.Trees.{tree_at};
ghost use Rattle.lt_hol.specs.Items.{item_of};
ghost use Rattle.lt_hol.specs.declared.item.Item.TheVariants.{Lemma};
ghost use Rattle.lt_kernel.specs.State.{Stays, Keeps};
ghost use Rattle.lt_extend.specs.Lemmas.{Proves};
ghost use Rattle.lt_extend.specs.Proving.{unproved};
ghost use Rattle.lt_extend.specs.Standing.{StandsFor};
ghost use Rattle.lt_extend.specs.Theories.{context_behind, IsHeld, IsLine, AddsLemma};

use crate::derivation::add_lines;
use crate::drafts::{commit, mark_of};
use crate::entering::enter_stored;
use crate::proving::check_proved;
use lt_conditions::{ItemFault, Statements};
use lt_hol::{Item, Items, Lines, Name, Term};
use lt_kernel::Proof;
use lt_store::{Id, TermStore};
use std::alloc::Global;

/// Derives a statement by its lines, and answers its id. The lines that were there are dropped.
pub(crate) fn derive_lemma<S: TermStore>(
    alloc: Global,
    proof: &mut Proof<S>,
    statement: &Term,
    lines: &Lines,
) -> Result<Id, ItemFault>
    requires whole { IsWhole 0 (nameless [] statement.now) }
    requires valid { (items : List Items) × IsPlainTheory items
        × StandsFor (context_of empty items) proof.old }
    ensures stays { Stays proof.old proof.new }
    ensures made { IfOk result (λ id. id < length proof.new.nodes) }
    ensures is { IfOk result (λ id. tree_at proof.new.nodes id ≡ nameless [] statement.now) }
    ensures proves { (ctx : Context) → StandsFor ctx proof.old → Proves (proof_test statement.now
        (derived ctx.signature ctx.statements [] (rules_of lines.now.nodes lines.now.lines)))
        result }
{
    proof.clear();
    match add_lines(alloc, proof, lines) {
        Ok(()) => {}
        Err(fault) => return Err(fault),
    }
    let id = proof.add_term(alloc, statement)?;
    match check_proved(alloc, proof, lines.len(), id) {
        Ok(()) => {}
        Err(fault) => return Err(fault),
    }
    Ok(id)
}

/// The id of a statement that the line with a number proves.
pub(crate) fn check_kept<S: TermStore>(
    alloc: Global,
    proof: &mut Proof<S>,
    statement: &Term,
    line: usize,
) -> Result<Id, ItemFault>
    requires whole { IsWhole 0 (nameless [] statement.now) }
    requires valid { (items : List Items) × IsPlainTheory items
        × StandsFor (context_of empty items) proof.old }
    ensures keeps { Keeps proof.old proof.new }
    ensures made { IfOk result (λ id. id < length proof.new.nodes) }
    ensures is { IfOk result (λ id. tree_at proof.new.nodes id ≡ nameless [] statement.now) }
    ensures proves { (last : Maybe Sequent) × IsLine proof.old line last
        × Proves (unproved statement.now last) result }
{
    let _lines = proof.steps();
    let id = proof.add_term(alloc, statement)?;
    match check_proved(alloc, proof, line, id) {
        Ok(()) => {}
        Err(fault) => return Err(fault),
    }
    Ok(id)
}

/// Adds a lemma that was found valid, whose statement is in the store, and drops the lines.
pub(crate) fn enter_lemma<S: TermStore>(
    alloc: Global,
    proof: &mut Proof<S>,
    statements: &mut Statements,
    items: &mut Items,
    label: Name,
    statement: Term,
    lines: Lines,
    id: Id,
) -> Result<(), ItemFault>
    requires stored { id < length proof.old.nodes }
    requires is { tree_at proof.old.nodes id ≡ nameless [] statement }
    requires held { IsHeld items.old statements.old.entries }
    requires in_step { StandsFor (context_behind items.old) proof.old }
    requires accepted { refusal (context_behind items.old) (item_of (Lemma label statement lines))
        ≡ Nothing }
    ensures held { IsHeld items.new statements.new.entries }
    ensures in_step { StandsFor (context_behind items.new) proof.new }
    ensures adds { AddsLemma (record { items = items.old; proof = proof.old })
        (Lemma label statement lines) (record { items = items.new; proof = proof.new }) result }
{
    proof.clear();
    let mark = mark_of(proof, statements);
    let entered = enter_stored(alloc, proof, statements, &label, &statement, id);
    let item = Item::Lemma(label, statement, lines);
    commit(alloc, proof, statements, items, mark, entered, item)
}
