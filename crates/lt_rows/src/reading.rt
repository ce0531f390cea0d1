//! Rows, read from a text that is written by hand, a line after another.
use crate::bytes::append_bytes;
use crate::row::{Row, RowFault, RowFile, RowSink};
use anyhow::{Context, Result};
use std::alloc::Global;
use std::str::FromStr;

/// What a line with text goes on.
#[derive(Clone, Copy)]
enum Part {
    Nothing,
    File,
    Out,
    Err,
}

/// All rows of a text.
pub(crate) fn read_rows(alloc: Global, text: &str) -> Result<Vec<Row>> {
    let mut rows = Vec::new(alloc);
    let mut part = Part::Nothing;
    let mut number = 0usize;
    for line in text.lines() {
        number = number.saturating_add(1);
        part = take_line(alloc, &mut rows, part, line).context(format_args!("line {number}"))?;
    }
    Ok(rows)
}

/// Takes one line: an empty one or one that begins with # says nothing.
fn take_line(alloc: Global, rows: &mut Vec<Row>, part: Part, line: &str) -> Result<Part, RowFault> {
    if line.is_empty() || line.starts_with('#') {
        return Ok(part);
    }
    let (word, rest) = line.split_once(' ').unwrap_or((line, ""));
    if word == "case" {
        rows.push(Row::new(alloc, rest)?)?;
        return Ok(Part::Nothing);
    }
    let Some(row) = rows.last_mut() else {
        return Err(RowFault::NoCase);
    };
    if word == "again" {
        let next = row.again(alloc, rest)?;
        rows.push(next)?;
        return Ok(Part::Nothing);
    }
    take_word(alloc, row, part, word, rest)
}

/// Takes a line by its first word.
fn take_word(
    alloc: Global,
    row: &mut Row,
    part: Part,
    word: &str,
    rest: &str,
) -> Result<Part, RowFault> {
    match word {
        "words" => {
            row.words = words_of(alloc, rest)?;
            Ok(Part::Nothing)
        }
        "file" => {
            let name = String::from_str(alloc, rest)?;
            let bytes = Vec::new(alloc);
            row.files.push(RowFile { name, bytes })?;
            Ok(Part::File)
        }
        "copy" => {
            let bytes = bytes_named(alloc, row, rest)?;
            bytes_of(row, part)?.extend_from_slice(&bytes)?;
            Ok(part)
        }
        "reads" => {
            row.read_fails = numbers_behind(alloc, rest, "fail")?;
            Ok(Part::Nothing)
        }
        "out" => {
            take_sink(alloc, &mut row.out, rest)?;
            Ok(Part::Out)
        }
        "err" => {
            take_sink(alloc, &mut row.err, rest)?;
            Ok(Part::Err)
        }
        "status" => {
            row.status = number(rest)?;
            Ok(Part::Nothing)
        }
        _ => {
            take_text(alloc, bytes_of(row, part)?, word, rest)?;
            Ok(part)
        }
    }
}

/// The bytes that a line with text goes on.
fn bytes_of(row: &mut Row, part: Part) -> Result<&mut Vec<u8>, RowFault> {
    match part {
        Part::Nothing => Err(RowFault::NoPlace),
        Part::File => match row.files.last_mut() {
            Some(file) => Ok(&mut file.bytes),
            None => Err(RowFault::NoPlace),
        },
        Part::Out => Ok(&mut row.out.bytes),
        Part::Err => Ok(&mut row.err.bytes),
    }
}

/// A copy of the bytes that a file of the row has so far, the newest one of that name.
fn bytes_named(alloc: Global, row: &Row, name: &str) -> Result<Vec<u8>, RowFault> {
    match row
        .files
        .iter()
        .rev()
        .find(|file| file.name.as_str() == name)
    {
        Some(file) => Ok(file.bytes.as_slice().to_vec(alloc)?),
        None => Err(RowFault::NoFile),
    }
}

/// Takes a line of text: `|` with its line feed, `>` without, and `times` a text over and over.
fn take_text(alloc: Global, bytes: &mut Vec<u8>, word: &str, rest: &str) -> Result<(), RowFault> {
    match word {
        "|" => {
            append_bytes(rest, bytes)?;
            Ok(bytes.push(b'\n')?)
        }
        ">" => append_bytes(rest, bytes),
        "times" => {
            let (count, text) = rest.split_once(' ').unwrap_or((rest, ""));
            let count: u64 = number(count)?;
            append_times(alloc, bytes, count, text)
        }
        _ => Err(RowFault::Unknown),
    }
}

/// Appends the bytes of a text that many times.
fn append_times(
    alloc: Global,
    bytes: &mut Vec<u8>,
    count: u64,
    text: &str,
) -> Result<(), RowFault> {
    let mut once = Vec::new(alloc);
    append_bytes(text, &mut once)?;
    // A long text is put together of long pieces.
    let mut piece = Vec::new(alloc);
    for _ in 0..AT_ONCE {
        piece.extend_from_slice(&once)?;
    }
    for _ in 0..count / AT_ONCE {
        bytes.extend_from_slice(&piece)?;
    }
    for _ in 0..count % AT_ONCE {
        bytes.extend_from_slice(&once)?;
    }
    Ok(())
}

/// How many copies of a text a long piece has.
const AT_ONCE: u64 = 1024;

/// Takes what is said of a sink: its room, the writes that fail, or that its bytes follow.
fn take_sink(alloc: Global, sink: &mut RowSink, rest: &str) -> Result<(), RowFault> {
    if rest.is_empty() {
        sink.bytes.clear();
        return Ok(());
    }
    if let Some(room) = rest.strip_prefix("room ") {
        sink.room = number(room)?;
        return Ok(());
    }
    sink.fails = numbers_behind(alloc, rest, "fail")?;
    Ok(())
}

/// The words of a call.
fn words_of(alloc: Global, text: &str) -> Result<Vec<String>, RowFault> {
    let mut words = Vec::new(alloc);
    for word in text.split_whitespace() {
        let mut bytes = Vec::new(alloc);
        append_bytes(word, &mut bytes)?;
        match String::from_utf8(bytes) {
            Ok(word) => words.push(word)?,
            Err(_) => return Err(RowFault::NoText),
        }
    }
    Ok(words)
}

/// The numbers behind a word that must stand there.
fn numbers_behind(alloc: Global, text: &str, word: &str) -> Result<Vec<u64>, RowFault> {
    let Some(rest) = text.strip_prefix(word) else {
        return Err(RowFault::Unknown);
    };
    let mut numbers = Vec::new(alloc);
    for text in rest.split_whitespace() {
        numbers.push(number(text)?)?;
    }
    Ok(numbers)
}

/// A number in decimal digits.
fn number<N: FromStr>(text: &str) -> Result<N, RowFault>
where
    N::Err: Drop,
{
    match text.parse::<N>() {
        Ok(number) => Ok(number),
        Err(_) => Err(RowFault::Number),
    }
}
