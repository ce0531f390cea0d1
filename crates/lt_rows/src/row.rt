//! A row: one call of the program, and what must come of it.
use std::alloc::{AllocError, AllocFailed, Global};
use thiserror::Error;

/// A file that the library holds.
#[derive(Clone, Drop)]
pub(crate) struct RowFile {
    pub name: String,
    pub bytes: Vec<u8>,
}

/// A sink: its room, the writes that fail, counted from 1, and the bytes that it must get.
#[derive(Clone, Drop)]
pub(crate) struct RowSink {
    pub room: usize,
    pub fails: Vec<u64>,
    pub bytes: Vec<u8>,
}

/// A call: its words, the files, the reads that fail, counted from 1, both sinks and the status.
#[derive(Clone, Drop)]
pub(crate) struct Row {
    pub title: String,
    pub variant: String,
    pub words: Vec<String>,
    pub files: Vec<RowFile>,
    pub read_fails: Vec<u64>,
    pub out: RowSink,
    pub err: RowSink,
    pub status: u8,
}

/// The room of a sink where a row names none.
const ROOM: usize = 65_536;

impl RowSink {
    /// A sink that never fails, and must get nothing.
    fn new(alloc: Global) -> RowSink {
        RowSink {
            room: ROOM,
            fails: Vec::new(alloc),
            bytes: Vec::new(alloc),
        }
    }
}

impl Row {
    /// A row of that title, without words and files, that must get status 0.
    pub(crate) fn new(alloc: Global, title: &str) -> Result<Row, AllocError> {
        Ok(Row {
            title: String::from_str(alloc, title)?,
            variant: String::new(alloc),
            words: Vec::new(alloc),
            files: Vec::new(alloc),
            read_fails: Vec::new(alloc),
            out: RowSink::new(alloc),
            err: RowSink::new(alloc),
            status: 0,
        })
    }

    /// The same row once more, as a variant of its title.
    pub(crate) fn again(&self, alloc: Global, variant: &str) -> Result<Row, AllocError> {
        let mut row = self.clone()?;
        row.variant = String::from_str(alloc, variant)?;
        Ok(row)
    }

    /// Whether no call is to fail, by its number or for want of room.
    pub(crate) fn is_sure(&self) -> bool {
        let named = self.read_fails.is_empty() && self.out.fails.is_empty();
        named && self.err.fails.is_empty() && self.status != 3 && self.status != 4
    }

    /// How many bytes all its files have.
    pub(crate) fn size(&self) -> usize {
        let mut size = 0usize;
        for file in &self.files {
            size = size.saturating_add(file.bytes.len());
        }
        size
    }
}

/// Why a file of rows wasn't read, or a row not tried.
#[derive(Debug, Drop, Error)]
pub(crate) enum RowFault {
    #[error("out of memory")]
    Memory,
    #[error("a row begins with `case` and its title")]
    NoCase,
    #[error("no line of a row begins so")]
    Unknown,
    #[error("a text stands behind `file`, `out` or `err`")]
    NoPlace,
    #[error("the row has no file of that name")]
    NoFile,
    #[error("a number is wanted")]
    Number,
    #[error("two hexadecimal digits are wanted behind ^")]
    Digits,
    #[error("a word of a call is no text")]
    NoText,
}

impl From<AllocError> for RowFault {
    fn from(_: AllocError) -> RowFault {
        RowFault::Memory
    }
}

impl<T: Drop> From<AllocFailed<T>> for RowFault {
    fn from(_: AllocFailed<T>) -> RowFault {
        RowFault::Memory
    }
}

impl From<lt_io::Memory> for RowFault {
    fn from(_: lt_io::Memory) -> RowFault {
        RowFault::Memory
    }
}

impl From<lt_hol::Memory> for RowFault {
    fn from(_: lt_hol::Memory) -> RowFault {
        RowFault::Memory
    }
}
