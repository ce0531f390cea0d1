//! What is told on the second sink, and the status of it.
ghost use Rattle.std.specs.Prelude.{◌≡◌, ◌≤◌, ◌⊎◌, ◌++◌, ℕ, List, Some, slice_get, codes, IsErrOf};
ghost use Rattle.lt_texts.specs.Files.{File};
ghost use Rattle.lt_io.specs.Causes.{Rose};
ghost use Rattle.lt_io.specs.Written.{Grew};
ghost use Rattle.lt_walks.specs.Calls.{usage_line, read_fault_line};
ghost use Rattle.lt_run.specs.Joining.{IsJoinedOf};
ghost use Rattle.lt_run.specs.Places.{AreNames, IsJoinedOfSome, placed_line};
ghost use Rattle.lt_run.specs.Endings.{IsAmong, TellsWalk};

use crate::files::{Joined, Unjoined};
use crate::report::{read_fault_text, refusal_line, too_long_line};
use lt_io::{Sink, write_all};
use lt_plain::Placed;
use lt_session::Stop;
use lt_words::Text;
use std::alloc::Global;

/// Writes the line that other words get.
pub(crate) fn refuse_words<E: Sink>(err: &mut E) -> u8
    ensures words { result ≡ 2 → Grew (E.written err.old) (E.written err.new) usage_line }
    ensures write { result ≡ 4 → Rose (E.faults err.old) (E.faults err.new) }
    ensures later { E.faults err.old ≤ E.faults err.new }
    ensures status { (result ≡ 2) ⊎ (result ≡ 4) }
{
    match write_all(err, b"usage: lt MODE [--summary] [--limit N] FILE..\n") {
        Ok(()) => 2,
        Err(_) => 4,
    }
}

/// Writes why files weren't joined.
pub(crate) fn tell_unjoined<E: Sink>(
    alloc: Global,
    names: &[Text],
    fault: Unjoined,
    err: &mut E,
) -> u8
    requires { IsAmong names.now fault }
    ensures read { result ≡ 3 → (name : List ℕ) × (n : ℕ) × (fault ≡ Unjoined.Fault n)
        × (slice_get names.now n ≡ Some name)
        × Grew (E.written err.old) (E.written err.new) (read_fault_line name) }
    ensures line { result ≡ 1 → (name : List ℕ) × (n : ℕ) × (fault ≡ Unjoined.TooLong n)
        × (slice_get names.now n ≡ Some name)
        × Grew (E.written err.old) (E.written err.new) (name ++ codes ": TooLong\n") }
    ensures write { result ≡ 4 → Rose (E.faults err.old) (E.faults err.new) }
    ensures later { E.faults err.old ≤ E.faults err.new }
    ensures status { (result ≡ 1) ⊎ (result ≡ 3) ⊎ (result ≡ 4) ⊎ (result ≡ 5) }
{
    match fault {
        Unjoined::Fault(at) => tell_read_fault(alloc, names[at].as_str(), err),
        Unjoined::TooLong(at) => tell_too_long(alloc, names[at].as_str(), err),
        Unjoined::Memory => 5,
    }
}

/// Writes that a file can't be read.
fn tell_read_fault<E: Sink>(alloc: Global, file: &str, err: &mut E) -> u8
    ensures read { result ≡ 3
        → Grew (E.written err.old) (E.written err.new) (read_fault_line file.now) }
    ensures write { result ≡ 4 → Rose (E.faults err.old) (E.faults err.new) }
    ensures later { E.faults err.old ≤ E.faults err.new }
    ensures status { (result ≡ 3) ⊎ (result ≡ 4) ⊎ (result ≡ 5) }
{
    let Ok(line) = read_fault_text(alloc, file) else {
        return 5;
    };
    match write_all(err, line.as_bytes()) {
        Ok(()) => 3,
        Err(_) => 4,
    }
}

/// Writes that the text is too long with a file.
fn tell_too_long<E: Sink>(alloc: Global, file: &str, err: &mut E) -> u8
    ensures line { result ≡ 1
        → Grew (E.written err.old) (E.written err.new) (file.now ++ codes ": TooLong\n") }
    ensures write { result ≡ 4 → Rose (E.faults err.old) (E.faults err.new) }
    ensures later { E.faults err.old ≤ E.faults err.new }
    ensures status { (result ≡ 1) ⊎ (result ≡ 4) ⊎ (result ≡ 5) }
{
    let Ok(line) = too_long_line(alloc, file) else {
        return 5;
    };
    match write_all(err, line.as_bytes()) {
        Ok(()) => 1,
        Err(_) => 4,
    }
}

/// Writes the refusal at which a walk ended, if it did at one.
pub(crate) fn tell_walk<E: Sink>(
    alloc: Global,
    names: &[Text],
    joined: &Joined,
    walked: Result<(), Stop>,
    err: &mut E,
) -> u8
    requires { IsJoinedOfSome names.now joined.now }
    ensures told { TellsWalk names.now joined.now walked result (E.written err.old)
        (E.written err.new) }
    ensures write { result ≡ 4 → IsErrOf walked Stop.Fault ⊎ Rose (E.faults err.old) (E.faults err.new) }
    ensures later { E.faults err.old ≤ E.faults err.new }
{
    match walked {
        Ok(()) => 0,
        Err(Stop::Refused(placed)) => tell_refusal(alloc, names, joined, &placed, err),
        Err(Stop::Fault) => 4,
        Err(Stop::Memory) => 5,
    }
}

/// Writes a refusal with its place.
fn tell_refusal<E: Sink>(
    alloc: Global,
    names: &[Text],
    joined: &Joined,
    placed: &Placed,
    err: &mut E,
) -> u8
    requires { IsJoinedOfSome names.now joined.now }
    ensures line { result ≡ 1 → (held : List File) → AreNames names.now held
        → IsJoinedOf held joined.now
        → Grew (E.written err.old) (E.written err.new) (placed_line held placed.now) }
    ensures write { result ≡ 4 → Rose (E.faults err.old) (E.faults err.new) }
    ensures later { E.faults err.old ≤ E.faults err.new }
    ensures status { (result ≡ 1) ⊎ (result ≡ 4) ⊎ (result ≡ 5) }
{
    let Ok(line) = refusal_line(alloc, names, joined, placed) else {
        return 5;
    };
    match write_all(err, line.as_bytes()) {
        Ok(()) => 1,
        Err(_) => 4,
    }
}
