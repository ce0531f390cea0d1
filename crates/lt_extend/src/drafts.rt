//! Items that are added behind a mark: where something is wanting, what was added is dropped again.
ghost use Rattle.std.specs.Prelude.{◌≡◌, ◌≤◌, ◌++◌, ◌∷◌, [], take, length, IfErr, IsOk, OnOk, OnErr};
ghost use Rattle.lt_hol.specs.Faults.{cut};
ghost use Rattle.lt_conditions.specs.declared.item_fault.ItemFault.TheVariants.{Memory as OutOfMemory};
ghost use Rattle.lt_definitions.specs.Theory.{IsPlainTheory};
ghost use Rattle.lt_hol.specs.Items.{item_of};
ghost use Rattle.lt_extend.specs.Theories.{items_of, context_behind};
ghost use Rattle.lt_extend.specs.Drafts.{IsMark, IsMarkOf, IsAtLeast, IsWithout, additions, before};

use lt_conditions::{ItemFault, Statements};
use lt_hol::{Item, Items, List, Memory};
use lt_kernel::{Proof, ProofMark};
use lt_store::TermStore;
use std::alloc::Global;
use std::mem;

/// How much was declared and stated before an item.
#[derive(Clone, Copy)]
pub(crate) struct Mark {
    pub proof: ProofMark,
    pub statements: usize,
}

/// How much is declared and stated.
pub(crate) fn mark_of<S: TermStore>(proof: &Proof<S>, statements: &Statements) -> Mark
    ensures { IsMark proof.now statements.now.entries result }
{
    Mark {
        proof: proof.mark(),
        statements: statements.len(),
    }
}

/// Drops what came after the mark, and all lines.
pub(crate) fn go_back<S: TermStore>(proof: &mut Proof<S>, statements: &mut Statements, mark: Mark)
    ensures proof { proof.new ≡ before mark proof.old }
    ensures statements { statements.new.entries ≡ take mark.statements statements.old.entries }
{
    proof.back(mark.proof);
    statements.truncate(mark.statements);
}

/// Adds an item behind what it declares and states; where either is wanting, goes back to the mark.
pub(crate) fn commit<S: TermStore>(
    alloc: Global,
    proof: &mut Proof<S>,
    statements: &mut Statements,
    items: &mut Items,
    mark: Mark,
    entered: Result<(), Memory>,
    item: Item,
) -> Result<(), ItemFault>
    ensures entered { OnOk result (IsOk entered) }
    ensures proof { OnOk result (proof.new ≡ proof.old) }
    ensures statements { OnOk result (statements.new.entries ≡ statements.old.entries) }
    ensures items { OnOk result (items.new ≡ items.old ++ item ∷ []) }
    ensures memory { IfErr result (λ e. e ≡ OutOfMemory) }
    ensures proof_back { OnErr result (proof.new ≡ before mark proof.old) }
    ensures statements_back { OnErr result (statements.new.entries
        ≡ take mark.statements statements.old.entries) }
    ensures items_back { OnErr result (items.new ≡ items.old) }
{
    let added = match entered {
        Ok(()) => items.push(alloc, item),
        Err(memory) => Err(memory),
    };
    match added {
        Ok(()) => Ok(()),
        Err(_) => {
            go_back(proof, statements, mark);
            Err(ItemFault::Memory)
        }
    }
}

/// The mark of the first so many of the items, from that of all.
///
/// It takes time linear in the number of the others.
pub(crate) fn mark_before(now: Mark, items: &Items, count: usize) -> Mark
    requires within { count ≤ length items.now }
    requires valid { IsPlainTheory (items_of items.now) }
    requires now { IsMarkOf (context_behind items.now) now }
    ensures { IsMarkOf (context_behind (take count items.now)) result }
{
    let mut mark = now;
    for at in count..items.len() {
        mark = without(mark, items.at(at));
    }
    mark
}

/// The mark without what an item adds.
fn without(mark: Mark, item: &Item) -> Mark
    requires { IsAtLeast (additions (item_of item.now)) mark }
    ensures { IsWithout (additions (item_of item.now)) mark result }
{
    let mut mark = mark;
    match item {
        Item::TypeDecl(_, _) => mark.proof.sig.types -= 1,
        Item::ConstDecl(_, _) => mark.proof.sig.constants -= 1,
        Item::Axiom(_, _) | Item::Lemma(_, _, _) => {
            mark.proof.statements -= 1;
            mark.statements -= 1;
        }
        Item::Def(_, _, _) => {
            mark.proof.sig.constants -= 1;
            mark.proof.statements -= 1;
            mark.statements -= 1;
        }
        Item::Typedef(_, _, _, _, _, _) => {
            mark.proof.sig.types -= 1;
            mark.proof.sig.constants -= 2;
            mark.proof.statements -= 3;
            mark.statements -= 3;
        }
    }
    mark
}

/// Drops all but the first so many items.
pub(crate) fn truncate(alloc: Global, items: &mut Items, count: usize)
    ensures { items.new ≡ take count items.old }
{
    let whole = mem::replace(items, List::new(alloc));
    let mut things = whole.into_vec();
    things.truncate(count);
    *items = List::from_vec(things);
}
