//! Runs the top call on rows: calls that are written by hand, with what must come of each.
#![tactic(auto)]

mod bytes;
mod reading;
mod row;
mod trial;

use anyhow::{Context, Result};
use bytes::shown;
use lt_io::{FileLibrary, read_all};
use reading::read_rows;
use row::Row;
use std::alloc::Global;
use std::process::ExitCode;
use std::{env, str};
use trial::{Difference, try_row};

/// The longest file of rows.
const MOST: u64 = 10_000_000;

/// Prints a line for a row, and both texts where it differs. Answers whether it passed.
fn report(rt: &HostRuntime, row: &Row) -> Result<bool> {
    let mark = if row.variant.is_empty() { "" } else { ": " };
    let found = try_row(rt.alloc(), row)?;
    match found {
        None => {
            println!(rt; "ok   {}{mark}{}", row.title, row.variant)?;
            Ok(true)
        }
        Some(difference) => {
            println!(rt; "FAIL {}{mark}{}", row.title, row.variant)?;
            tell(rt, row, &difference)?;
            Ok(false)
        }
    }
}

/// Prints what was wanted and what was found.
fn tell(rt: &HostRuntime, row: &Row, difference: &Difference) -> Result<()> {
    let ran = &difference.ran;
    println!(rt; "{}", difference.trial)?;
    println!(rt; "status {}, wanted {}", ran.status, row.status)?;
    tell_text(rt, "out", &row.out.bytes, &ran.out)?;
    tell_text(rt, "err", &row.err.bytes, &ran.err)
}

/// Prints what a sink should have got, and what it got.
fn tell_text(rt: &HostRuntime, sink: &str, wanted: &[u8], found: &[u8]) -> Result<()> {
    let alloc: Global = rt.alloc();
    if wanted != found {
        print!(rt; "{sink}, wanted\n{}", shown(alloc, wanted)?)?;
        print!(rt; "{sink}, found\n{}", shown(alloc, found)?)?;
    }
    Ok(())
}

fn main(rt: HostRuntime) -> Result<ExitCode> {
    let alloc = rt.alloc();
    let mut lib = FileLibrary::new(alloc, &rt);
    let mut passed = 0u64;
    let mut failed = 0u64;
    for file in env::args(&rt)?.skip(1) {
        let bytes = read_all(alloc, &mut lib, file.as_str(), MOST)?;
        let text = str::from_utf8(&bytes)?;
        let rows = read_rows(alloc, text).context(format_args!("{file}"))?;
        for row in &rows {
            if report(&rt, row)? {
                passed = passed.saturating_add(1);
            } else {
                failed = failed.saturating_add(1);
            }
        }
    }
    println!(rt; "{passed} passed, {failed} failed")?;
    Ok(ExitCode::from(u8::from(failed > 0)))
}
