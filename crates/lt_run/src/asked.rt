//! What a call asks for.
ghost use Rattle.std.specs.Prelude.{◌≡◌, ◌<◌, ◌≤◌, ◌⊎◌, [], List, ℕ, length, Some, true, false};
ghost use Rattle.std.specs.Prelude.{slice_get};
ghost use Rattle.lt_io.specs.Causes.{Rose};
ghost use Rattle.lt_io.specs.Files.{StaysSame};
ghost use Rattle.lt_io.specs.Written.{Grew};
ghost use Rattle.lt_extend.specs.Theories.{items_of};
ghost use Rattle.lt_walks.specs.Calls.{read_fault_line};
ghost use Rattle.lt_words.specs.Calls.{asked, reads_files};
ghost use Rattle.lt_run.specs.Joining.{KeepsTold};
ghost use Rattle.lt_run.specs.Outcomes.{IsBroken, IsDone, IsRefused};

use crate::check::check_files;
use crate::ended::{Ended, without_items};
use crate::running::run_files;
use crate::texts::{write_generated, write_laws};
use lt_io::{Library, Sink};
use lt_words::{Mode, Words};
use std::alloc::Global;

/// Does what accepted words ask for.
pub(crate) fn do_asked<L: Library, O: Sink, E: Sink>(
    alloc: Global,
    words: &Words,
    lib: &mut L,
    out: &mut O,
    err: &mut E,
) -> Ended
    requires { reads_files words.now.mode ≡ true → 0 < length words.now.files.items }
    ensures status { (result.status ≡ 0) ⊎ (result.status ≡ 1) ⊎ (result.status ≡ 3)
        ⊎ (result.status ≡ 4) ⊎ (result.status ≡ 5) }
    ensures accepted { result.status ≡ 0
        → IsDone (asked words.now) (L.files lib.new) (items_of result.items)
        (O.written out.old) (O.written out.new) (E.written err.old) (E.written err.new) }
    ensures refused { result.status ≡ 1
        → IsRefused (asked words.now) (L.files lib.new) (items_of result.items)
        (O.written out.old) (O.written out.new) (E.written err.old) (E.written err.new) }
    ensures read { result.status ≡ 3 → (name : List ℕ) × (n : ℕ)
        × (slice_get words.now.files.items n ≡ Some name) × (result.items ≡ [])
        × Rose (L.faults lib.old) (L.faults lib.new)
        × Grew (O.written out.old) (O.written out.new) []
        × Grew (E.written err.old) (E.written err.new) (read_fault_line name) }
    ensures write { result.status ≡ 4
        → Rose (O.faults out.old) (O.faults out.new) ⊎ Rose (E.faults err.old) (E.faults err.new) }
    ensures front { (result.status ≡ 4) ⊎ (result.status ≡ 5)
        → ((result.items ≡ []) × Grew (O.written out.old) (O.written out.new) [])
        ⊎ IsBroken (asked words.now) (L.files lib.new) (items_of result.items)
        (O.written out.old) (O.written out.new) }
    ensures same { StaysSame (L.files lib.old) (L.files lib.new) }
    ensures told { KeepsTold (L.files lib.old) (L.files lib.new) words.now.files.items }
    ensures untouched { reads_files words.now.mode ≡ false → lib.new ≡ lib.old }
    ensures later { (L.faults lib.old ≤ L.faults lib.new) × (O.faults out.old ≤ O.faults out.new)
        × (E.faults err.old ≤ E.faults err.new) }
{
    match words.mode {
        Mode::Run => run_files(
            alloc,
            &words.files,
            words.limit,
            words.summary,
            lib,
            out,
            err,
        ),
        Mode::Check => check_files(alloc, &words.files, lib, out, err),
        Mode::Laws => without_items(alloc, write_laws(alloc, out)),
        Mode::Gen(n) => without_items(alloc, write_generated(alloc, n, out)),
    }
}
