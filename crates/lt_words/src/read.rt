//! What the words of a call ask for.
ghost use Rattle.std.specs.Prelude.{◌≡◌, ◌↔◌, IsTrue, IfOk, map, option_map};
ghost use Rattle.clap.specs.Words.{found_of, kind_of, rows_of};
ghost use Rattle.lt_words.specs.Command.{given_in};
ghost use Rattle.lt_words.specs.Calls.{asked, call_given, call_of, files_of, limit_of, mode_of};
ghost use Rattle.lt_words.specs.Calls.{over_files, with_size, without_files};

use crate::command::matches_in;
use crate::mode::Mode;
use crate::number::number;
use crate::text::Text;
use clap::error::ErrorKind;
use clap::{ArgMatches, Error};
use lt_types::Memory;
use std::alloc::Global;

/// What the words of a call ask for: what is done, whether the summary alone is wanted of it, the
/// limit of a search, and the files that are read for it, in order.
#[derive(Drop)]
pub struct Words {
    pub mode: Mode,
    pub summary: bool,
    pub limit: u32,
    pub files: Vec<Text>,
}

/// Reads the words behind the program's name. `None` says that they aren't accepted.
///
/// `MODE [--summary] [--limit N] FILE..`: `run` and `check` read one FILE or more, `laws` none, and
/// `gen` has one word in its place, a number of at most 4 decimal digits from 1 to 1,000. N is a
/// number of at most 8 decimal digits from 1 to 10,000,000, and 100,000 where the option isn't
/// there.
pub fn read_words(alloc: Global, words: &[Text]) -> Result<Option<Words>, Memory>
    ensures { IfOk result (λ w. option_map asked w ≡ call_of words.now) }
{
    match matches_in(alloc, words) {
        Ok(matches) => Ok(words_in(alloc, &matches)?),
        Err(error) => {
            if ran_out(&error) {
                return Err(Memory);
            }
            Ok(None)
        }
    }
}

/// Whether memory ran out.
fn ran_out(error: &Error) -> bool
    ensures { IsTrue result ↔ (kind_of error.now ≡ ErrorKind.OutOfMemory) }
{
    matches!(error.kind(), ErrorKind::OutOfMemory)
}

/// What the matches of the command ask for.
fn words_in(alloc: Global, matches: &ArgMatches<'_>) -> Result<Option<Words>, Memory>
    ensures { IfOk result (λ w. option_map asked w
        ≡ call_given (given_in (rows_of (found_of matches.now)))) }
{
    let word = matches.get_str("mode");
    let limit = matches.get_str("limit");
    let summary = wants_summary(matches);
    match matches.get_strs("file") {
        Some(others) => Ok(words_given(alloc, word, others, summary, limit)?),
        None => Ok(words_given(alloc, word, &[], summary, limit)?),
    }
}

/// What a first word, the others, and the options ask for.
fn words_given(
    alloc: Global,
    word: Option<&str>,
    others: &[&str],
    summary: bool,
    limit: Option<&str>,
) -> Result<Option<Words>, Memory>
    ensures { IfOk result (λ w. option_map asked w ≡ call_given (record {
      mode = option_map (λ s. s.now) word.entry;
      files = map (λ s. s.now) others.now;
      summary = summary;
      limit = option_map (λ s. s.now) limit.entry;
    })) }
{
    let Some(word) = word else {
        return Ok(None);
    };
    let Some(mode) = mode_of(word, others) else {
        return Ok(None);
    };
    let Some(limit) = limit_of(limit) else {
        return Ok(None);
    };
    let files = files_of(alloc, mode, others)?;
    Ok(Some(Words {
        mode,
        summary,
        limit,
        files,
    }))
}

/// Whether the summary is asked for.
fn wants_summary(matches: &ArgMatches<'_>) -> bool
    ensures { result ≡ (given_in (rows_of (found_of matches.now))).summary }
{
    match matches.get_str("summary") {
        Some(text) => text == "true",
        None => false,
    }
}

/// The limit that a word names, or what it is without one.
fn limit_of(word: Option<&str>) -> Option<u32>
    ensures { result ≡ limit_of (option_map (λ w. w.now) word.entry) }
{
    match word {
        Some(word) => number(word, 8, 10_000_000),
        None => Some(100_000),
    }
}

/// The mode that a first word and the others name.
fn mode_of(word: &str, others: &[&str]) -> Option<Mode>
    ensures { result ≡ mode_of word.now (map (λ v. v.now) others.now) }
{
    if word == "run" {
        return over_files(Mode::Run, others);
    }
    if word == "check" {
        return over_files(Mode::Check, others);
    }
    if word == "laws" {
        return without_files(others);
    }
    if word == "gen" {
        return with_size(others);
    }
    None
}

/// A mode for which one file or more are read.
fn over_files(mode: Mode, others: &[&str]) -> Option<Mode>
    ensures { result ≡ over_files mode (map (λ v. v.now) others.now) }
{
    match others {
        [] => None,
        _ => Some(mode),
    }
}

/// The laws, for which no word follows.
fn without_files(others: &[&str]) -> Option<Mode>
    ensures { result ≡ without_files (map (λ v. v.now) others.now) }
{
    match others {
        [] => Some(Mode::Laws),
        _ => None,
    }
}

/// The generator, for which its size follows.
fn with_size(others: &[&str]) -> Option<Mode>
    ensures { result ≡ with_size (map (λ v. v.now) others.now) }
{
    match others {
        [size] => match number(size, 4, 1_000) {
            Some(n) => Some(Mode::Gen(n)),
            None => None,
        },
        _ => None,
    }
}

/// Copies of the files that are read among the words behind a mode.
fn files_of(alloc: Global, mode: Mode, others: &[&str]) -> Result<Vec<Text>, Memory>
    ensures { IfOk result (λ files. files.items ≡ files_of mode (map (λ v. v.now) others.now)) }
{
    match mode {
        Mode::Run => Ok(copies(alloc, others)?),
        Mode::Check => Ok(copies(alloc, others)?),
        Mode::Laws => Ok(Vec::new(alloc)),
        Mode::Gen(_) => Ok(Vec::new(alloc)),
    }
}

/// Copies of words.
fn copies(alloc: Global, words: &[&str]) -> Result<Vec<Text>, Memory>
    ensures { IfOk result (λ texts. texts.items ≡ map (λ v. v.now) words.now) }
{
    let mut texts = Vec::new(alloc);
    for word in words {
        texts.push(Text::new(alloc, word)?)?;
    }
    Ok(texts)
}
