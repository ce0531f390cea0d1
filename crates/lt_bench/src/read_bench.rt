//! Reading a whole file over the system's files.
use anyhow::Result;
use lt_io::{FileLibrary, read_all};
use std::time::Instant;

/// The longest file that is read: the limit of a plain text.
const MOST: u64 = 268_435_456;

/// Reads the named file and prints its bytes and the speed in millions of bytes a second. Without a name
/// it reads a small file, and prints no speed.
pub fn run(rt: &HostRuntime, words: &[String]) -> Result<()> {
    let mut lib = FileLibrary::new(rt.alloc(), rt);
    let Some(name) = words.first() else {
        let bytes = read_all(rt.alloc(), &mut lib, "small.lt", MOST)?;
        println!(rt; "read: {} bytes", bytes.len())?;
        return Ok(());
    };
    let start = Instant::now(rt)?;
    let bytes = read_all(rt.alloc(), &mut lib, name.as_str(), MOST)?;
    let micros = start.elapsed(rt)?.as_micros().max(1);
    let speed = bytes.len() as u128 / micros;
    println!(rt;
        "read: {} bytes in {} ms, {speed} MB/s",
        bytes.len(),
        micros / 1000
    )?;
    Ok(())
}
