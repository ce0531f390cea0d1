//! The run of the theory text that is joined of files.
ghost use Rattle.std.specs.Prelude.{◌≡◌, ◌≢◌, ◌≤◌, ◌<◌, ◌⊎◌, [], List, ℕ, length, Some, slice_get};
ghost use Rattle.lt_definitions.specs.Theory.{IsPlainTheory};
ghost use Rattle.lt_io.specs.Causes.{Rose};
ghost use Rattle.lt_io.specs.Files.{StaysSame};
ghost use Rattle.lt_io.specs.Written.{Grew};
ghost use Rattle.lt_extend.specs.Theories.{items_of};
ghost use Rattle.lt_walks.specs.Walks.{End, accepted};
ghost use Rattle.lt_walks.specs.Calls.{read_fault_line};
ghost use Rattle.lt_session.specs.Sessions.{new_holding};
ghost use Rattle.lt_session.specs.Walks.{RunRefusal};
ghost use Rattle.lt_session.specs.Running.{IsCut};
ghost use Rattle.lt_run.specs.Joining.{KeepsTold};
ghost use Rattle.lt_run.specs.Places.{IsJoinedOfSome};
ghost use Rattle.lt_run.specs.Runs.{IsRunTold, RunEnds, RunStops};

use crate::ended::{Ended, without_items};
use crate::files::{Joined, join_files};
use crate::telling::{tell_unjoined, tell_walk};
use lt_io::{Library, Sink};
use lt_session::{Session, run_text};
use lt_words::Text;
use std::alloc::Global;

/// How many bytes a joined theory text may have.
const THEORY_LIMIT: usize = 16_777_216;

/// Runs the theory text that is joined of files, where a search may make so many visits.
pub(crate) fn run_files<L: Library, O: Sink, E: Sink>(
    alloc: Global,
    names: &[Text],
    limit: u32,
    summary: bool,
    lib: &mut L,
    out: &mut O,
    err: &mut E,
) -> Ended
    requires { 0 < length names.now }
    ensures status { (result.status ≡ 0) ⊎ (result.status ≡ 1) ⊎ (result.status ≡ 3)
        ⊎ (result.status ≡ 4) ⊎ (result.status ≡ 5) }
    ensures accepted { result.status ≡ 0
        → RunEnds (L.files lib.new) names.now limit summary (items_of result.items) accepted
        (O.written out.old) (O.written out.new) (E.written err.old) (E.written err.new) }
    ensures refused { result.status ≡ 1 → (end : End RunRefusal) × (end ≢ accepted)
        × RunEnds (L.files lib.new) names.now limit summary (items_of result.items) end
        (O.written out.old) (O.written out.new) (E.written err.old) (E.written err.new) }
    ensures read { result.status ≡ 3 → (name : List ℕ) × (n : ℕ)
        × (slice_get names.now n ≡ Some name) × (result.items ≡ [])
        × Rose (L.faults lib.old) (L.faults lib.new)
        × Grew (O.written out.old) (O.written out.new) []
        × Grew (E.written err.old) (E.written err.new) (read_fault_line name) }
    ensures write { result.status ≡ 4
        → Rose (O.faults out.old) (O.faults out.new) ⊎ Rose (E.faults err.old) (E.faults err.new) }
    ensures front { (result.status ≡ 4) ⊎ (result.status ≡ 5)
        → ((result.items ≡ []) × Grew (O.written out.old) (O.written out.new) [])
        ⊎ RunStops (L.files lib.new) names.now limit summary (items_of result.items)
        (O.written out.old) (O.written out.new) }
    ensures same { StaysSame (L.files lib.old) (L.files lib.new) }
    ensures told { KeepsTold (L.files lib.old) (L.files lib.new) names.now }
    ensures later { (L.faults lib.old ≤ L.faults lib.new) × (O.faults out.old ≤ O.faults out.new)
        × (E.faults err.old ≤ E.faults err.new) }
{
    match join_files(alloc, names, THEORY_LIMIT, lib) {
        Ok(joined) => run_joined(alloc, names, &joined, limit, summary, out, err),
        Err(fault) => without_items(alloc, tell_unjoined(alloc, names, fault, err)),
    }
}

/// Runs a joined text.
fn run_joined<O: Sink, E: Sink>(
    alloc: Global,
    names: &[Text],
    joined: &Joined,
    limit: u32,
    summary: bool,
    out: &mut O,
    err: &mut E,
) -> Ended
    requires { IsJoinedOfSome names.now joined.now }
    ensures status { (result.status ≡ 0) ⊎ (result.status ≡ 1) ⊎ (result.status ≡ 4)
        ⊎ (result.status ≡ 5) }
    ensures accepted { result.status ≡ 0
        → IsRunTold limit summary names.now joined.now (items_of result.items) accepted
        (O.written out.old) (O.written out.new) (E.written err.old) (E.written err.new) }
    ensures refused { result.status ≡ 1 → (end : End RunRefusal) × (end ≢ accepted)
        × IsRunTold limit summary names.now joined.now (items_of result.items) end
        (O.written out.old) (O.written out.new) (E.written err.old) (E.written err.new) }
    ensures write { result.status ≡ 4
        → Rose (O.faults out.old) (O.faults out.new) ⊎ Rose (E.faults err.old) (E.faults err.new) }
    ensures front { (result.status ≡ 4) ⊎ (result.status ≡ 5)
        → ((result.items ≡ []) × Grew (O.written out.old) (O.written out.new) [])
        ⊎ IsCut limit summary joined.now.text.items (items_of result.items)
        (O.written out.old) (O.written out.new) }
    ensures valid { IsPlainTheory (items_of result.items) }
    ensures later { (O.faults out.old ≤ O.faults out.new) × (E.faults err.old ≤ E.faults err.new) }
{
    match Session::new(alloc, limit as u64) {
        Ok(session) => run_over(alloc, names, joined, session, summary, out, err),
        Err(_) => without_items(alloc, 5),
    }
}

/// Runs a joined text with a session in which nothing is declared, stated or registered, and answers
/// the session's items.
fn run_over<O: Sink, E: Sink>(
    alloc: Global,
    names: &[Text],
    joined: &Joined,
    session: Session,
    summary: bool,
    out: &mut O,
    err: &mut E,
) -> Ended
    requires joined { IsJoinedOfSome names.now joined.now }
    requires empty { session ≡ new_holding session.limit }
    ensures status { (result.status ≡ 0) ⊎ (result.status ≡ 1) ⊎ (result.status ≡ 4)
        ⊎ (result.status ≡ 5) }
    ensures accepted { result.status ≡ 0
        → IsRunTold session.limit summary names.now joined.now (items_of result.items) accepted
        (O.written out.old) (O.written out.new) (E.written err.old) (E.written err.new) }
    ensures refused { result.status ≡ 1 → (end : End RunRefusal) × (end ≢ accepted)
        × IsRunTold session.limit summary names.now joined.now (items_of result.items) end
        (O.written out.old) (O.written out.new) (E.written err.old) (E.written err.new) }
    ensures write { result.status ≡ 4
        → Rose (O.faults out.old) (O.faults out.new) ⊎ Rose (E.faults err.old) (E.faults err.new) }
    ensures front { (result.status ≡ 4) ⊎ (result.status ≡ 5)
        → IsCut session.limit summary joined.now.text.items (items_of result.items)
        (O.written out.old) (O.written out.new) }
    ensures valid { IsPlainTheory (items_of result.items) }
    ensures later { (O.faults out.old ≤ O.faults out.new) × (E.faults err.old ≤ E.faults err.new) }
{
    let mut session = session;
    let status = run_into(alloc, names, joined, &mut session, summary, out, err);
    let items = session.into_items();
    Ended { status, items }
}

/// Runs a joined text with a session in which nothing is declared, stated or registered.
fn run_into<O: Sink, E: Sink>(
    alloc: Global,
    names: &[Text],
    joined: &Joined,
    session: &mut Session,
    summary: bool,
    out: &mut O,
    err: &mut E,
) -> u8
    requires joined { IsJoinedOfSome names.now joined.now }
    requires empty { session.old ≡ new_holding session.old.limit }
    ensures status { (result ≡ 0) ⊎ (result ≡ 1) ⊎ (result ≡ 4) ⊎ (result ≡ 5) }
    ensures accepted { result ≡ 0
        → IsRunTold session.old.limit summary names.now joined.now (items_of session.new.items)
        accepted (O.written out.old) (O.written out.new) (E.written err.old) (E.written err.new) }
    ensures refused { result ≡ 1 → (end : End RunRefusal) × (end ≢ accepted)
        × IsRunTold session.old.limit summary names.now joined.now (items_of session.new.items) end
        (O.written out.old) (O.written out.new) (E.written err.old) (E.written err.new) }
    ensures write { result ≡ 4
        → Rose (O.faults out.old) (O.faults out.new) ⊎ Rose (E.faults err.old) (E.faults err.new) }
    ensures front { (result ≡ 4) ⊎ (result ≡ 5)
        → IsCut session.old.limit summary joined.now.text.items (items_of session.new.items)
        (O.written out.old) (O.written out.new) }
    ensures later { (O.faults out.old ≤ O.faults out.new) × (E.faults err.old ≤ E.faults err.new) }
{
    let walked = run_text(alloc, &joined.text, session, summary, out);
    tell_walk(alloc, names, joined, walked, err)
}
