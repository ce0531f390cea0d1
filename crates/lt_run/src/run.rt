//! The top call.
ghost use Rattle.std.specs.Prelude.{◌≡◌, ◌≤◌, ◌⊎◌, [], List, ℕ, Some, None, false, slice_get};
ghost use Rattle.lt_io.specs.Causes.{Rose};
ghost use Rattle.lt_io.specs.Files.{StaysSame};
ghost use Rattle.lt_io.specs.Written.{Grew};
ghost use Rattle.lt_extend.specs.Theories.{items_of};
ghost use Rattle.lt_walks.specs.Calls.{usage_line, read_fault_line};
ghost use Rattle.lt_words.specs.Calls.{Call, call_of, reads_files};
ghost use Rattle.lt_run.specs.Joining.{KeepsTold};
ghost use Rattle.lt_run.specs.Outcomes.{IsBroken, IsDone, IsRefused};

use crate::asked::do_asked;
use crate::ended::{Ended, without_items};
use crate::telling::refuse_words;
use lt_io::{Library, Sink};
use lt_words::{Text, read_words};
use std::alloc::Global;

/// Does what the words behind the program's name ask for, and answers the status and the accepted
/// items.
///
/// `run FILE..` reads the files and joins them to a theory text, takes its commands one after
/// another, and writes the items of each to `out` as the command is accepted: as a plain theory, or
/// with `--summary` a line for each item, and at the end the line of counts. `--limit N` says how
/// many visits a search may make. `check FILE..` checks that the files are a plain theory, and
/// writes its summary. `laws` writes the text of the laws to `out`, and `gen N` the generated text of
/// size N. The status is 0 where all was accepted and written, 1 where the text is refused, with a
/// line on `err`, 2 where the words aren't accepted, 3 where a read failed, 4 where a write failed,
/// and 5 where memory ran out.
pub fn lt<L: Library, O: Sink, E: Sink>(
    alloc: Global,
    words: &[Text],
    lib: &mut L,
    out: &mut O,
    err: &mut E,
) -> Ended
    ensures status { result.status ≤ 5 }
    // All that the files have is accepted, or the text that is asked for is written.
    ensures accepted { result.status ≡ 0 → (call : Call) × (call_of words.now ≡ Some call)
        × IsDone call (L.files lib.new) (items_of result.items)
        (O.written out.old) (O.written out.new) (E.written err.old) (E.written err.new) }
    ensures refused { result.status ≡ 1 → (call : Call) × (call_of words.now ≡ Some call)
        × IsRefused call (L.files lib.new) (items_of result.items)
        (O.written out.old) (O.written out.new) (E.written err.old) (E.written err.new) }
    ensures words { result.status ≡ 2 → (call_of words.now ≡ None) × (result.items ≡ [])
        × Grew (O.written out.old) (O.written out.new) []
        × Grew (E.written err.old) (E.written err.new) usage_line }
    ensures read { result.status ≡ 3 → (call : Call) × (name : List ℕ) × (n : ℕ)
        × (call_of words.now ≡ Some call) × (slice_get call.files n ≡ Some name)
        × (result.items ≡ []) × Rose (L.faults lib.old) (L.faults lib.new)
        × Grew (O.written out.old) (O.written out.new) []
        × Grew (E.written err.old) (E.written err.new) (read_fault_line name) }
    ensures write { result.status ≡ 4
        → Rose (O.faults out.old) (O.faults out.new) ⊎ Rose (E.faults err.old) (E.faults err.new) }
    // Where a write failed or memory ran out, the items and what was written stand as far as they
    // came.
    ensures front { (result.status ≡ 4) ⊎ (result.status ≡ 5)
        → ((result.items ≡ []) × Grew (O.written out.old) (O.written out.new) [])
        ⊎ ((call : Call) × (call_of words.now ≡ Some call)
        × IsBroken call (L.files lib.new) (items_of result.items)
        (O.written out.old) (O.written out.new)) }
    ensures same { StaysSame (L.files lib.old) (L.files lib.new) }
    // No other file is read: where the files are told and have all that are named, they are told
    // behind.
    ensures told { (call : Call) → call_of words.now ≡ Some call
        → KeepsTold (L.files lib.old) (L.files lib.new) call.files }
    // Words that ask for no files read none.
    ensures untouched { ((call : Call) → call_of words.now ≡ Some call
        → reads_files call.mode ≡ false) → lib.new ≡ lib.old }
    // Words that aren't accepted get the usage line, or memory runs out.
    ensures other { call_of words.now ≡ None
        → (result.status ≡ 2) ⊎ (result.status ≡ 4) ⊎ (result.status ≡ 5) }
    // No count of faults falls.
    ensures later { (L.faults lib.old ≤ L.faults lib.new) × (O.faults out.old ≤ O.faults out.new)
        × (E.faults err.old ≤ E.faults err.new) }
{
    let Ok(read) = read_words(alloc, words) else {
        return without_items(alloc, 5);
    };
    let Some(asked) = read else {
        return without_items(alloc, refuse_words(err));
    };
    do_asked(alloc, &asked, lib, out, err)
}
