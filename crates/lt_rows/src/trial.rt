//! A row is tried: as it stands, over what never fails, with the items that are answered read once
//! more, and with each of its reads and writes failing in turn.
use crate::row::{Row, RowFault};
use lt_hol::Items;
use lt_io::{MemoryLibrary, MemorySink, Name8, SureLibrary, SureSink};
use lt_run::{Ended, Text, lt, lt_sure};
use lt_syntax::write_item;
use std::alloc::Global;

/// What a call answered and wrote, and the items that it answered, written as a plain theory.
#[derive(Drop)]
pub(crate) struct Ran {
    pub status: u8,
    pub out: Vec<u8>,
    pub err: Vec<u8>,
    pub theory: Vec<u8>,
}

/// A trial that went otherwise than the row says: which one, and what came of it.
#[derive(Drop)]
pub(crate) struct Difference {
    pub trial: String,
    pub ran: Ran,
}

/// Tries a row, and answers the first trial that differs.
pub(crate) fn try_row(alloc: Global, row: &Row) -> Result<Option<Difference>, RowFault> {
    let ran = run(alloc, row, &row.read_fails, &row.out.fails, &row.err.fails)?;
    if !is_wanted(row, &ran) {
        let trial = String::from_str(alloc, "the row as it stands")?;
        return Ok(Some(Difference { trial, ran }));
    }
    if !row.is_sure() || row.size() > LARGE {
        return Ok(None);
    }
    let ran = run_sure(alloc, row)?;
    if !is_wanted(row, &ran) {
        let trial = String::from_str(alloc, "over what never fails")?;
        return Ok(Some(Difference { trial, ran }));
    }
    let again = run_theory(alloc, row, &ran.theory)?;
    if !is_same_theory(row, &ran, &again) {
        let trial = String::from_str(alloc, "the answered items, read once more")?;
        return Ok(Some(Difference { trial, ran: again }));
    }
    for failing in [Failing::Read, Failing::Out, Failing::Err] {
        let found = fail_in_turn(alloc, row, failing)?;
        if found.is_some() {
            return Ok(found);
        }
    }
    Ok(None)
}

/// A row whose files have more bytes is tried once, as it stands.
const LARGE: usize = 65_536;

/// How many calls are made to fail in turn, at most.
const CALLS: u64 = 10_000;

/// Which call fails.
#[derive(Clone, Copy)]
enum Failing {
    Read,
    Out,
    Err,
}

/// Lets the first call fail, then the second, and so on, until one isn't made any more.
fn fail_in_turn(
    alloc: Global,
    row: &Row,
    failing: Failing,
) -> Result<Option<Difference>, RowFault> {
    for call in 1..=CALLS {
        let ran = match failing {
            Failing::Read => run(alloc, row, &[call], &[], &[])?,
            Failing::Out => run(alloc, row, &[], &[call], &[])?,
            Failing::Err => run(alloc, row, &[], &[], &[call])?,
        };
        if is_wanted(row, &ran) {
            return Ok(None);
        }
        let is_right = match failing {
            Failing::Read => is_read_fault(row, &ran),
            _ => is_write_fault(row, &ran),
        };
        if !is_right {
            return Ok(Some(Difference {
                trial: format!(in alloc; "{} {call} fails", name_of(failing))?,
                ran,
            }));
        }
    }
    Ok(None)
}

fn name_of(failing: Failing) -> &'static str {
    match failing {
        Failing::Read => "read",
        Failing::Out => "write to out",
        Failing::Err => "write to err",
    }
}

/// Whether a call answered and wrote what the row says.
fn is_wanted(row: &Row, ran: &Ran) -> bool {
    let told = ran.out.as_slice() == row.out.bytes.as_slice();
    told && ran.err.as_slice() == row.err.bytes.as_slice() && ran.status == row.status
}

/// Whether a call told a read fault at a file that one of its words names, and nothing else.
fn is_read_fault(row: &Row, ran: &Ran) -> bool {
    let Some(rest) = ran.err.strip_prefix(b"read fault: ") else {
        return false;
    };
    let Some(name) = rest.strip_suffix(b"\n") else {
        return false;
    };
    let named = row.words.iter().any(|word| word.as_bytes() == name);
    named && ran.status == 3 && ran.out.is_empty()
}

/// Whether a call ended at a failed write, behind fronts of what it writes.
fn is_write_fault(row: &Row, ran: &Ran) -> bool {
    let fronts = row.out.bytes.starts_with(&ran.out) && row.err.bytes.starts_with(&ran.err);
    fronts && ran.status == 4
}

/// Whether the items that a call answered are accepted, are answered alike, and are those that it
/// wrote: as a report, or of whose lines; all of them, where the text was accepted with its line of
/// counts. A call that writes a theory text answers none.
fn is_same_theory(row: &Row, ran: &Ran, again: &Ran) -> bool {
    let read = again.status == 0 && again.err.is_empty();
    let lines = if ran.out.starts_with(b"theory ") {
        again.out.as_slice() == b"items 0 axioms 0 lemmas 0\n".as_slice()
    } else if ran.out.starts_with(b"plain ") {
        ran.out.as_slice() == ran.theory.as_slice()
    } else if row.status == 0 {
        again.out.as_slice() == ran.out.as_slice()
    } else {
        match again.out.strip_prefix(ran.out.as_slice()) {
            Some(rest) => rest.starts_with(b"items ")
                && rest.iter().position(|b| *b == b'\n') == Some(rest.len().saturating_sub(1)),
            None => false,
        }
    };
    read && lines && again.theory.as_slice() == ran.theory.as_slice()
}

/// Calls with items that were answered, over what never fails.
fn run_theory(alloc: Global, row: &Row, theory: &[u8]) -> Result<Ran, RowFault> {
    let mut words = Vec::new(alloc);
    words.push(Text::new(alloc, "check")?)?;
    words.push(Text::new(alloc, "answered.lt")?)?;
    let mut lib = SureLibrary::new(alloc);
    lib.put(
        alloc,
        Name8::new(alloc, "answered.lt")?,
        theory.to_vec(alloc)?,
    )?;
    let mut out = SureSink::new(alloc, row.out.room.saturating_add(COUNTS))?;
    let mut err = SureSink::new(alloc, row.err.room)?;
    let ended = lt_sure(alloc, &words, &mut lib, &mut out, &mut err);
    ran_to(
        alloc,
        &ended,
        out.bytes().unwrap_or(&[]),
        err.bytes().unwrap_or(&[]),
    )
}

/// Room for the line of counts.
const COUNTS: usize = 100;

/// What came of a call.
fn ran_to(alloc: Global, ended: &Ended, out: &[u8], err: &[u8]) -> Result<Ran, RowFault> {
    Ok(Ran {
        status: ended.status,
        out: out.to_vec(alloc)?,
        err: err.to_vec(alloc)?,
        theory: written(alloc, &ended.items)?,
    })
}

/// Items as a plain theory, with the lines of their lemmas.
fn written(alloc: Global, items: &Items) -> Result<Vec<u8>, RowFault> {
    let mut theory = Vec::new(alloc);
    theory.extend_from_slice(b"plain 1;\n")?;
    for item in items.as_slice() {
        let text = write_item(alloc, item)?;
        theory.extend_from_slice(text.as_bytes())?;
    }
    Ok(theory)
}

/// The words of a row as a call takes them.
fn words_of(alloc: Global, row: &Row) -> Result<Vec<Text>, RowFault> {
    let mut words = Vec::new(alloc);
    for word in &row.words {
        words.push(Text::new(alloc, word.as_str())?)?;
    }
    Ok(words)
}

/// Calls with a row's words over a library and sinks that fail at these calls.
fn run(
    alloc: Global,
    row: &Row,
    reads: &[u64],
    outs: &[u64],
    errs: &[u64],
) -> Result<Ran, RowFault> {
    let words = words_of(alloc, row)?;
    let mut lib = MemoryLibrary::new(alloc, reads.to_vec(alloc)?);
    for file in &row.files {
        let name = Name8::new(alloc, file.name.as_str())?;
        lib.put(alloc, name, file.bytes.clone()?)?;
    }
    let mut out = MemorySink::new(alloc, outs.to_vec(alloc)?, row.out.room)?;
    let mut err = MemorySink::new(alloc, errs.to_vec(alloc)?, row.err.room)?;
    let ended = lt(alloc, &words, &mut lib, &mut out, &mut err);
    ran_to(alloc, &ended, out.bytes(), err.bytes())
}

/// Calls with a row's words over a library and sinks that never fail.
fn run_sure(alloc: Global, row: &Row) -> Result<Ran, RowFault> {
    let words = words_of(alloc, row)?;
    let mut lib = SureLibrary::new(alloc);
    for file in &row.files {
        let name = Name8::new(alloc, file.name.as_str())?;
        lib.put(alloc, name, file.bytes.clone()?)?;
    }
    let mut out = SureSink::new(alloc, row.out.room)?;
    let mut err = SureSink::new(alloc, row.err.room)?;
    let ended = lt_sure(alloc, &words, &mut lib, &mut out, &mut err);
    ran_to(
        alloc,
        &ended,
        out.bytes().unwrap_or(&[]),
        err.bytes().unwrap_or(&[]),
    )
}
