//! Bytes as a row writes them: a text stands for its bytes, and `^` with two hexadecimal digits for any byte.
use crate::row::RowFault;
use std::alloc::{AllocError, Global};

/// What is still to come of a byte that is written by its digits.
#[derive(Clone, Copy)]
enum Pending {
    Nothing,
    Both,
    Low(u8),
}

/// Appends the bytes that a text stands for.
pub(crate) fn append_bytes(text: &str, into: &mut Vec<u8>) -> Result<(), RowFault> {
    let mut pending = Pending::Nothing;
    for byte in text.bytes() {
        pending = match pending {
            Pending::Nothing if byte == b'^' => Pending::Both,
            Pending::Nothing => {
                into.push(byte)?;
                Pending::Nothing
            }
            Pending::Both => Pending::Low(digit(byte)?),
            Pending::Low(high) => {
                into.push((high << 4) | digit(byte)?)?;
                Pending::Nothing
            }
        };
    }
    match pending {
        Pending::Nothing => Ok(()),
        _ => Err(RowFault::Digits),
    }
}

/// The value of a hexadecimal digit.
fn digit(byte: u8) -> Result<u8, RowFault> {
    match byte {
        b'0'..=b'9' => Ok(byte - b'0'),
        b'a'..=b'f' => Ok(byte - b'a' + 10),
        _ => Err(RowFault::Digits),
    }
}

/// The lines of a row that stand for these bytes. Long texts are cut off.
pub(crate) fn shown(alloc: Global, bytes: &[u8]) -> Result<String, AllocError> {
    let mut text = String::new(alloc);
    for line in bytes
        .split_inclusive(|byte| *byte == b'\n')
        .take(SHOWN_LINES)
    {
        let (mark, line) = match line.strip_suffix(b"\n") {
            Some(line) => ("| ", line),
            None => ("> ", line),
        };
        text.push_str(mark)?;
        for byte in line.iter().take(SHOWN_BYTES) {
            push_byte(*byte, &mut text)?;
        }
        text.push_str("\n")?;
    }
    Ok(text)
}

/// How many lines of a text, and how many bytes of a line, are shown.
const SHOWN_LINES: usize = 100;

const SHOWN_BYTES: usize = 1000;

/// Writes a byte as a row does.
fn push_byte(byte: u8, text: &mut String) -> Result<(), AllocError> {
    if (byte == b' ' || byte.is_ascii_graphic()) && byte != b'^' {
        text.push(char::from(byte))?;
        return Ok(());
    }
    write!(text, "^{byte:02x}")
}
