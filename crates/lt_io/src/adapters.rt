//! The adapters over the system's files and std's writers. They tell no content.
ghost use Rattle.std.specs.Prelude.{◌≡◌, ◌<◌, ◌≤◌, length, IfOk, IsErr, OnErr, Ok, MatchResult, None};
ghost use Rattle.std.specs.Io.{ReadsAtMost};
ghost use Rattle.std.specs.Io.KnownBytes.{ReadConsumes, WriteAppends};
ghost use Rattle.lt_io.specs.Causes.{HasCause, CountsFault, Rose, one_more};
ghost use Rattle.lt_io.specs.Files.{IsPiece, HoldsFile};

use crate::library::PIECE;
use crate::{Failed, Library, Sink};
use std::alloc::Global;
use std::fs::File;
use std::io;
use std::io::{ErrorKind, Read, Seek, SeekFrom, Write};
use std::marker::Model;
use std::rt::Files;

/// What a call of the system answered, as an adapter answers it: a fault is Failed, and is counted.
fn counted(answer: io::Result<usize>, faults: &mut u64) -> Result<usize, Failed>
    ensures told { MatchResult answer
        (λ n. (result ≡ Ok n) × (faults.new ≡ faults.old))
        (λ _. IsErr result × (faults.new ≡ one_more faults.old)) }
    ensures cause { HasCause faults.old faults.new result }
{
    match answer {
        Ok(count) => Ok(count),
        Err(_) => {
            *faults = faults.saturating_add(1);
            Err(Failed)
        }
    }
}

/// An open file, with the place where its next byte stands.
#[derive(Drop)]
struct OpenedFile<F> {
    file: F,
    place: u64,
}

impl<F: Read + Seek> OpenedFile<F> {
    /// Goes to a place, and seeks only where the file doesn't stand there.
    fn go_to(&mut self, at: u64) -> io::Result<()> {
        if self.place != at {
            self.file.seek(SeekFrom::Start(at))?;
            self.place = at;
        }
        Ok(())
    }

    /// Reads on from where it stands, by one read of the file. Of a file whose bytes are known, these are
    /// the next ones, and no byte is its end.
    fn read_on(&mut self, into: &mut [u8]) -> io::Result<usize>
        ensures bound { ReadsAtMost result into.new }
        ensures bytes { ReadConsumes (F.remaining self.old.file) (F.remaining self.new.file) result into.new }
    {
        let count = self.file.read(into)?;
        self.place = self.place.saturating_add(count as u64);
        Ok(count)
    }
}

/// The files of a runtime, by their paths. Contracts see its count of faults.
///
/// A read opens its file at most once. The file stays open for the next piece: a read that goes on
/// where the one before it ended, in the same file, neither opens nor seeks. A read at place 0 opens
/// anew. A folder is a fault, and a pipe or a device gives its bytes in turn. The library holds a piece of
/// 65,536 bytes, by which its reads go.
#[derive(Drop)]
pub struct FileLibrary<'a, R: Files> {
    files: &'a R,
    name: String,
    opened: Option<OpenedFile<R::File>>,
    piece: [u8; PIECE],
    faults: u64,
}

impl<'a, R: Files> Model for FileLibrary<'a, R> {
    ghost use Rattle.std.specs.Prelude.{ℕ};

    ghost Value = { ℕ };

    ghost view = { λ s. s.faults };
}

impl<'a, R: Files> FileLibrary<'a, R> {
    /// A library that has no file open.
    pub fn new(alloc: Global, files: &'a R) -> Self
        ensures { result ≡ 0 }
    {
        FileLibrary {
            files,
            name: String::new(alloc),
            opened: None,
            piece: [0; PIECE],
            faults: 0,
        }
    }

    /// The open file, where it is the named one and the read isn't at its front. Else it is opened.
    fn take_opened(&mut self, name: &str, at: u64) -> io::Result<OpenedFile<R::File>>
        ensures count { self.new ≡ self.old }
    {
        let opened = self.opened.take();
        if let Some(opened) = opened
            && at > 0
            && self.name.as_str() == name
        {
            return Ok(opened);
        }
        let file = File::open(self.files, name)?;
        Ok(OpenedFile { file, place: 0 })
    }

    /// Keeps the file open for the next piece. Without memory for its name it is closed.
    fn keep_opened(&mut self, name: &str, opened: OpenedFile<R::File>)
        ensures count { self.new ≡ self.old }
    {
        if self.name.as_str() != name {
            self.name.clear();
            if self.name.push_str(name).is_err() {
                return;
            }
        }
        self.opened = Some(opened);
    }

    /// Reads by way of the library's own piece, so that a failed read leaves the caller's slice alone.
    fn read_piece(&mut self, name: &str, at: u64, into: &mut [u8]) -> io::Result<usize>
        ensures bound { IfOk result (λ n. n ≤ length into.new) }
        ensures untouched { OnErr result (into.new ≡ into.old) }
        ensures count { self.new ≡ self.old }
    {
        let mut opened = self.take_opened(name, at)?;
        opened.go_to(at)?;
        let room = into.len().min(PIECE);
        let count = opened.read_on(&mut self.piece[..room])?;
        into[..count].copy_from_slice(&self.piece[..count]);
        if count > 0 {
            self.keep_opened(name, opened);
        }
        Ok(count)
    }
}

impl<'a, R: Files> Library for FileLibrary<'a, R> {
    ghost files = { λ _. None };

    ghost faults = { λ count. count };

    fn read(&mut self, name: &str, at: u64, into: &mut [u8]) -> Result<usize, Failed>
        ensures bound { IfOk result (λ n. n ≤ length into.new) }
        ensures bytes { IfOk result (λ n. HoldsFile None name.now
            (λ file. IsPiece file at n into.new)) }
        ensures untouched { OnErr result (into.new ≡ into.old) }
        ensures counted { CountsFault self.old self.new result }
        ensures cause { HasCause self.old self.new result }
    {
        let answer = self.read_piece(name, at, into);
        counted(answer, &mut self.faults)
    }
}

/// A writer of std as a sink. Contracts see the writer and the count of faults.
#[derive(Drop)]
pub struct StdSink<W> {
    inner: W,
    faults: u64,
}

impl<W> Model for StdSink<W> {
    ghost use Rattle.lt_io.specs.Written.{CountedWriter};

    ghost Value = { CountedWriter W };

    ghost view = { λ s. record { inner = s.inner; faults = s.faults } };
}

impl<W: Write> StdSink<W> {
    /// The writer, without a fault so far.
    pub fn new(inner: W) -> Self
        ensures { result ≡ record { inner = inner; faults = 0 } }
    {
        StdSink { inner, faults: 0 }
    }
}

impl<W: Write> Sink for StdSink<W> {
    ghost written = { λ _. None };

    ghost faults = { λ s. s.faults };

    fn write(&mut self, piece: &[u8]) -> Result<usize, Failed>
        // A writer whose bytes are known got the front that is answered, and nothing at a failure.
        ensures bytes { WriteAppends (W.contents self.old.inner) (W.contents self.new.inner) result piece.now }
        ensures bound { IfOk result (λ n. n ≤ length piece.now) }
        ensures none { IfOk result (λ n. n ≡ 0 → 0 < length piece.now
            → Rose self.old.faults self.new.faults) }
        ensures counted { CountsFault self.old.faults self.new.faults result }
        ensures cause { HasCause self.old.faults self.new.faults result }
    {
        let answer = self.inner.write(piece);
        counted(some_taken(answer, piece), &mut self.faults)
    }
}

/// What a writer answered, where to take none of a piece that has bytes is a fault too.
fn some_taken(answer: io::Result<usize>, piece: &[u8]) -> io::Result<usize>
    ensures taken { IfOk result (λ n. answer ≡ Ok n) }
    ensures none { IfOk result (λ n. n ≡ 0 → length piece.now ≡ 0) }
    ensures failed { OnErr result (IfOk answer (λ n. n ≡ 0)) }
{
    match answer {
        Ok(0) if !piece.is_empty() => Err(io::Error::from(ErrorKind::WriteZero)),
        answer => answer,
    }
}
