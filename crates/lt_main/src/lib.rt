//! The program `lt` as one call: the top call over the words, the files and the streams of a process.
#![tactic(auto)]

use lt_hol::Memory;
use lt_io::{FileLibrary, StdSink};
use lt_run::{Text, lt};
use std::env;
use std::io::ErrorKind;
use std::process::ExitCode;

/// Does what the words behind the program's name say, and answers the status to end with.
pub fn run(rt: &HostRuntime) -> ExitCode {
    let Ok(words) = read_words(rt) else {
        return ExitCode::from(5);
    };
    let mut lib = FileLibrary::new(rt.alloc(), rt);
    let mut out = StdSink::new(rt.stdout());
    let mut err = StdSink::new(rt.stderr());
    let ended = lt(rt.alloc(), &words, &mut lib, &mut out, &mut err);
    ExitCode::from(ended.status)
}

/// The words behind the program's name. Arguments of which one is no text are no words.
fn read_words(rt: &HostRuntime) -> Result<Vec<Text>, Memory> {
    let mut words = Vec::new(rt.alloc());
    let args = match env::args(rt) {
        Ok(args) => args,
        Err(fault) if fault.kind() == ErrorKind::OutOfMemory => return Err(Memory),
        Err(_) => return Ok(words),
    };
    for arg in args.skip(1) {
        let word = Text::new(rt.alloc(), arg.as_str())?;
        if words.push(word).is_err() {
            return Err(Memory);
        }
    }
    Ok(words)
}
