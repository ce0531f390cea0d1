//! The files of a call, joined to one text.
ghost use Rattle.std.specs.Prelude.{◌≡◌, ◌≤◌, ◌<◌, ◌++◌, ◌∷◌, [], length, IfOk, IfErr, IsErrOf};
ghost use Rattle.lt_io.specs.Causes.{Rose};
ghost use Rattle.lt_io.specs.Files.{StaysSame, StaysTold, HoldsFile};
ghost use Rattle.lt_run.specs.Joining.{AreJoined, FailsToJoin, KeepsTold, Joins, Passes};

use lt_hol::Memory;
use lt_io::{Library, ReadFault, read_all};
use lt_words::Text;
use std::alloc::Global;

/// Files joined to one text, a line feed behind each, and how many bytes each file has.
#[derive(Drop)]
pub(crate) struct Joined {
    pub text: Vec<u8>,
    pub lengths: Vec<usize>,
}

/// Why files weren't joined: a read of the file with a number, from 0, failed, or the text is too
/// long with that file, or memory ran out.
#[derive(Clone, Copy, Debug, Drop)]
pub(crate) enum Unjoined {
    Fault(usize),
    TooLong(usize),
    Memory,
}

/// Reads the files in order and joins them to a text of so many bytes at most. The first that can't be
/// read, or with which the text is longer, ends it.
pub(crate) fn join_files<L: Library>(
    alloc: Global,
    names: &[Text],
    most: usize,
    lib: &mut L,
) -> Result<Joined, Unjoined>
    ensures joined { IfOk result (λ j. AreJoined most (L.files lib.new) names.now j) }
    ensures failed { IfErr result (λ e. FailsToJoin most (L.files lib.new) (L.faults lib.old)
        (L.faults lib.new) names.now e) }
    ensures same { StaysSame (L.files lib.old) (L.files lib.new) }
    ensures told { KeepsTold (L.files lib.old) (L.files lib.new) names.now }
    ensures later { L.faults lib.old ≤ L.faults lib.new }
{
    let mut joined = Joined {
        text: Vec::new(alloc),
        lengths: Vec::new(alloc),
    };
    for at in 0..names.len() {
        joined = match join_file(alloc, names[at].as_str(), most, lib, joined) {
            Ok(more) => more,
            Err(fault) => return Err(of_fault(fault, at)),
        };
    }
    Ok(joined)
}

/// Why the files weren't joined, where this kept the one with a number from being so.
fn of_fault(fault: ReadFault, at: usize) -> Unjoined
    ensures fault { fault ≡ ReadFault.Fault → result ≡ Unjoined.Fault at }
    ensures too_long { fault ≡ ReadFault.TooLong → result ≡ Unjoined.TooLong at }
    ensures memory { fault ≡ ReadFault.Memory → result ≡ Unjoined.Memory }
{
    match fault {
        ReadFault::Fault => Unjoined::Fault(at),
        ReadFault::TooLong => Unjoined::TooLong(at),
        ReadFault::Memory => Unjoined::Memory,
    }
}

/// Reads one more file and joins it.
fn join_file<L: Library>(
    alloc: Global,
    name: &str,
    most: usize,
    lib: &mut L,
    joined: Joined,
) -> Result<Joined, ReadFault>
    requires { length joined.text.items ≤ most }
    ensures joins { IfOk result (λ j. Joins most (L.files lib.new) name.now joined j) }
    ensures too_long { IsErrOf result ReadFault.TooLong
        → Passes most (L.files lib.new) name.now joined }
    ensures fault { IsErrOf result ReadFault.Fault → Rose (L.faults lib.old) (L.faults lib.new) }
    ensures same { StaysSame (L.files lib.old) (L.files lib.new) }
    ensures told { StaysTold (L.files lib.old) (L.files lib.new) name.now }
    ensures later { L.faults lib.old ≤ L.faults lib.new }
{
    let room = most - joined.text.len();
    let file = match read_all(alloc, lib, name, room as u64) {
        Ok(file) => file,
        Err(fault) => return Err(fault),
    };
    if file.len() == room {
        return Err(ReadFault::TooLong);
    }
    match with_file(joined, file) {
        Ok(more) => Ok(more),
        Err(_) => Err(ReadFault::Memory),
    }
}

/// The files with one more.
fn with_file(joined: Joined, file: Vec<u8>) -> Result<Joined, Memory>
    ensures text { IfOk result (λ j. j.text.items ≡ joined.text.items ++ (file.items ++ 10 ∷ [])) }
    ensures lengths { IfOk result
        (λ j. j.lengths.items ≡ joined.lengths.items ++ length file.items ∷ []) }
{
    let Joined { text, mut lengths } = joined;
    lengths.push(file.len())?;
    let mut text = appended(text, file)?;
    text.push(b'\n')?;
    Ok(Joined { text, lengths })
}

/// The bytes of both, one behind the other. Behind none, the second are taken as they are.
fn appended(first: Vec<u8>, second: Vec<u8>) -> Result<Vec<u8>, Memory>
    ensures { IfOk result (λ both. both.items ≡ first.items ++ second.items) }
{
    if first.len() == 0 {
        return Ok(second);
    }
    let mut both = first;
    both.extend_from_slice(&second)?;
    Ok(both)
}
