//! The check of the text that is joined of files.
ghost use Rattle.std.specs.Prelude.{◌≡◌, ◌≢◌, ◌≤◌, ◌<◌, ◌⊎◌, [], List, ℕ, length, Some, slice_get};
ghost use Rattle.lt_definitions.specs.Theory.{Refusal};
ghost use Rattle.lt_io.specs.Causes.{Rose};
ghost use Rattle.lt_io.specs.Files.{StaysSame};
ghost use Rattle.lt_io.specs.Written.{Grew};
ghost use Rattle.lt_extend.specs.Theories.{items_of, IsInStep};
ghost use Rattle.lt_walks.specs.Walks.{End, accepted};
ghost use Rattle.lt_walks.specs.Calls.{CheckEnds, CheckStops, read_fault_line};
ghost use Rattle.lt_run.specs.Joining.{KeepsTold};
ghost use Rattle.lt_run.specs.Places.{IsJoinedOfSome};
ghost use Rattle.lt_run.specs.Walked.{IsCut};
ghost use Rattle.lt_run.specs.Endings.{IsTold};

use crate::ended::{Ended, without_items};
use crate::files::{Joined, join_files};
use crate::telling::{tell_unjoined, tell_walk};
use crate::walk::walk_text;
use lt_extend::Theory;
use lt_io::{Library, Sink};
use lt_shared::SharedStore;
use lt_store::TermStore;
use lt_words::Text;
use std::alloc::Global;

/// How many bytes a joined plain text may have.
const PLAIN_LIMIT: usize = 268_435_456;

/// Checks the plain text that is joined of files.
pub(crate) fn check_files<L: Library, O: Sink, E: Sink>(
    alloc: Global,
    names: &[Text],
    lib: &mut L,
    out: &mut O,
    err: &mut E,
) -> Ended
    requires { 0 < length names.now }
    ensures status { (result.status ≡ 0) ⊎ (result.status ≡ 1) ⊎ (result.status ≡ 3)
        ⊎ (result.status ≡ 4) ⊎ (result.status ≡ 5) }
    ensures accepted { result.status ≡ 0
        → CheckEnds (L.files lib.new) names.now (items_of result.items) accepted
        (O.written out.old) (O.written out.new) (E.written err.old) (E.written err.new) }
    ensures refused { result.status ≡ 1 → (end : End Refusal) × (end ≢ accepted)
        × CheckEnds (L.files lib.new) names.now (items_of result.items) end
        (O.written out.old) (O.written out.new) (E.written err.old) (E.written err.new) }
    ensures read { result.status ≡ 3 → (name : List ℕ) × (n : ℕ)
        × (slice_get names.now n ≡ Some name) × (result.items ≡ [])
        × Rose (L.faults lib.old) (L.faults lib.new)
        × Grew (O.written out.old) (O.written out.new) []
        × Grew (E.written err.old) (E.written err.new) (read_fault_line name) }
    ensures write { result.status ≡ 4
        → Rose (O.faults out.old) (O.faults out.new) ⊎ Rose (E.faults err.old) (E.faults err.new) }
    ensures front { (result.status ≡ 4) ⊎ (result.status ≡ 5)
        → ((result.items ≡ []) × Grew (O.written out.old) (O.written out.new) [])
        ⊎ CheckStops (L.files lib.new) names.now (items_of result.items)
        (O.written out.old) (O.written out.new) }
    ensures same { StaysSame (L.files lib.old) (L.files lib.new) }
    ensures told { KeepsTold (L.files lib.old) (L.files lib.new) names.now }
    ensures later { (L.faults lib.old ≤ L.faults lib.new) × (O.faults out.old ≤ O.faults out.new)
        × (E.faults err.old ≤ E.faults err.new) }
{
    match join_files(alloc, names, PLAIN_LIMIT, lib) {
        Ok(joined) => check_joined(alloc, names, &joined, out, err),
        Err(fault) => without_items(alloc, tell_unjoined(alloc, names, fault, err)),
    }
}

/// Checks a joined text.
fn check_joined<O: Sink, E: Sink>(
    alloc: Global,
    names: &[Text],
    joined: &Joined,
    out: &mut O,
    err: &mut E,
) -> Ended
    requires { IsJoinedOfSome names.now joined.now }
    ensures status { (result.status ≡ 0) ⊎ (result.status ≡ 1) ⊎ (result.status ≡ 4)
        ⊎ (result.status ≡ 5) }
    ensures accepted { result.status ≡ 0
        → IsTold names.now joined.now (items_of result.items) accepted
        (O.written out.old) (O.written out.new) (E.written err.old) (E.written err.new) }
    ensures refused { result.status ≡ 1 → (end : End Refusal) × (end ≢ accepted)
        × IsTold names.now joined.now (items_of result.items) end
        (O.written out.old) (O.written out.new) (E.written err.old) (E.written err.new) }
    ensures write { result.status ≡ 4
        → Rose (O.faults out.old) (O.faults out.new) ⊎ Rose (E.faults err.old) (E.faults err.new) }
    ensures front { (result.status ≡ 4) ⊎ (result.status ≡ 5)
        → ((result.items ≡ []) × Grew (O.written out.old) (O.written out.new) [])
        ⊎ IsCut joined.now.text.items (items_of result.items)
        (O.written out.old) (O.written out.new) }
    ensures later { (O.faults out.old ≤ O.faults out.new) × (E.faults err.old ≤ E.faults err.new) }
{
    let store = SharedStore::new(alloc);
    match Theory::new(alloc, store) {
        Ok(theory) => check_over(alloc, names, joined, theory, out, err),
        Err(_) => without_items(alloc, 5),
    }
}

/// Checks a joined text with a theory without items, and answers the theory's.
fn check_over<S: TermStore, O: Sink, E: Sink>(
    alloc: Global,
    names: &[Text],
    joined: &Joined,
    theory: Theory<S>,
    out: &mut O,
    err: &mut E,
) -> Ended
    requires joined { IsJoinedOfSome names.now joined.now }
    requires in_step { IsInStep theory }
    requires empty { theory.items ≡ [] }
    ensures status { (result.status ≡ 0) ⊎ (result.status ≡ 1) ⊎ (result.status ≡ 4)
        ⊎ (result.status ≡ 5) }
    ensures accepted { result.status ≡ 0
        → IsTold names.now joined.now (items_of result.items) accepted
        (O.written out.old) (O.written out.new) (E.written err.old) (E.written err.new) }
    ensures refused { result.status ≡ 1 → (end : End Refusal) × (end ≢ accepted)
        × IsTold names.now joined.now (items_of result.items) end
        (O.written out.old) (O.written out.new) (E.written err.old) (E.written err.new) }
    ensures write { result.status ≡ 4
        → Rose (O.faults out.old) (O.faults out.new) ⊎ Rose (E.faults err.old) (E.faults err.new) }
    ensures front { (result.status ≡ 4) ⊎ (result.status ≡ 5)
        → IsCut joined.now.text.items (items_of result.items)
        (O.written out.old) (O.written out.new) }
    ensures later { (O.faults out.old ≤ O.faults out.new) × (E.faults err.old ≤ E.faults err.new) }
{
    let mut th = theory;
    let status = check_into(alloc, names, joined, &mut th, out, err);
    let items = th.into_items();
    Ended { status, items }
}

/// Checks a joined text with a theory without items.
fn check_into<S: TermStore, O: Sink, E: Sink>(
    alloc: Global,
    names: &[Text],
    joined: &Joined,
    th: &mut Theory<S>,
    out: &mut O,
    err: &mut E,
) -> u8
    requires joined { IsJoinedOfSome names.now joined.now }
    requires in_step { IsInStep th.old }
    requires empty { th.old.items ≡ [] }
    ensures status { (result ≡ 0) ⊎ (result ≡ 1) ⊎ (result ≡ 4) ⊎ (result ≡ 5) }
    ensures accepted { result ≡ 0 → IsTold names.now joined.now (items_of th.new.items) accepted
        (O.written out.old) (O.written out.new) (E.written err.old) (E.written err.new) }
    ensures refused { result ≡ 1 → (end : End Refusal) × (end ≢ accepted)
        × IsTold names.now joined.now (items_of th.new.items) end
        (O.written out.old) (O.written out.new) (E.written err.old) (E.written err.new) }
    ensures write { result ≡ 4
        → Rose (O.faults out.old) (O.faults out.new) ⊎ Rose (E.faults err.old) (E.faults err.new) }
    ensures front { (result ≡ 4) ⊎ (result ≡ 5) → IsCut joined.now.text.items
        (items_of th.new.items) (O.written out.old) (O.written out.new) }
    ensures later { (O.faults out.old ≤ O.faults out.new) × (E.faults err.old ≤ E.faults err.new) }
{
    let walked = walk_text(alloc, &joined.text, th, out);
    tell_walk(alloc, names, joined, walked, err)
}
