//! The walk through a theory text: its items are added and written one block after another.
ghost use Rattle.std.specs.Prelude.{◌≡◌, map, OnOk, OnErr, IfOk, string_bytes, encode_utf8_all};
ghost use Rattle.lt_hol.specs.Items.{item_of};
ghost use Rattle.lt_io.specs.Written.{Grew, GrewByFront};
ghost use Rattle.lt_extend.specs.Theories.{items_of};
ghost use Rattle.lt_session.specs.Sessions.{new_holding};
ghost use Rattle.lt_session.specs.Running.{CutByCause, IsNoRefusal, IsStop, IsRun, written_first, written_item, written_items, written_last};

use crate::counts::count;
use crate::session::Session;
use crate::stepping::{next_command, open_theory};
use lt_commands::{Placed, Refusal};
use lt_hol::{Item, Memory};
use lt_io::{Sink, write_all};
use lt_syntax::{count_line, summary_line, write_item};
use std::alloc::Global;

/// What kept a walk from accepting all: something is refused, a write failed, or memory ran out.
#[derive(Debug, Drop)]
pub enum Stop {
    Refused(Placed),
    Fault,
    Memory,
}

impl From<Memory> for Stop {
    ghost use Rattle.std.specs.Prelude.{◌≡◌};
    ghost use Rattle.lt_session.specs.declared.running.Stop.TheVariants.{Memory as OutOfMemory};

    ghost from_gives = { λ _ e. e ≡ OutOfMemory };

    fn from(_memory: Memory) -> Stop {
        Stop::Memory
    }
}

/// Walks through a theory text with a session in which nothing is declared, stated or registered.
/// Each accepted command's items are written at once: as commands behind the header of a plain text,
/// or, where a summary is asked for, as summary lines, with the line of counts behind them where all
/// was accepted.
pub fn run_text<O: Sink>(
    alloc: Global,
    text: &[u8],
    session: &mut Session,
    summary: bool,
    out: &mut O,
) -> Result<(), Stop>
    requires { session.old ≡ new_holding session.old.limit }
    ensures run { IsRun session.old.limit summary text.now (items_of session.new.items)
        (O.written out.old) (O.written out.new) result }
    ensures cause { CutByCause (O.faults out.old) (O.faults out.new) result }
{
    let mut script = match open_theory(alloc, text) {
        Ok(script) => script,
        Err(placed) => return Err(stop_of(placed)),
    };
    match write_first(summary, out) {
        Ok(()) => {}
        Err(stop) => return Err(stop),
    }
    'commands: loop {
        let block = match next_command(alloc, &mut script, session) {
            Ok(Some(block)) => block,
            Ok(None) => return finish(alloc, session.items().as_slice(), summary, out),
            Err(placed) => return Err(stop_of(placed)),
        };
        match write_block(alloc, session.block(block), summary, out) {
            Ok(()) => {}
            Err(stop) => return Err(stop),
        }
    }
}

/// What a refusal with its place is to a walk.
pub fn stop_of(placed: Placed) -> Stop
    ensures { IsStop placed result }
{
    match placed.refusal {
        Refusal::Memory => Stop::Memory,
        refusal => Stop::Refused(Placed {
            refusal,
            at: placed.at,
        }),
    }
}

/// Writes what stands before the items.
fn write_first<O: Sink>(summary: bool, out: &mut O) -> Result<(), Stop>
    ensures all { OnOk result (Grew (O.written out.old) (O.written out.new)
        (encode_utf8_all (written_first summary))) }
    ensures front { OnErr result (GrewByFront (O.written out.old) (O.written out.new)
        (encode_utf8_all (written_first summary))) }
    ensures written { IsNoRefusal result }
    ensures cause { CutByCause (O.faults out.old) (O.faults out.new) result }
{
    if summary {
        return Ok(());
    }
    write_piece(out, b"plain 1;\n")
}

/// Writes the items of a block.
fn write_block<O: Sink>(
    alloc: Global,
    block: &[Item],
    summary: bool,
    out: &mut O,
) -> Result<(), Stop>
    ensures all { OnOk result (Grew (O.written out.old) (O.written out.new)
        (written_items summary (map item_of block.now))) }
    ensures front { OnErr result (GrewByFront (O.written out.old) (O.written out.new)
        (written_items summary (map item_of block.now))) }
    ensures written { IsNoRefusal result }
    ensures cause { CutByCause (O.faults out.old) (O.faults out.new) result }
{
    for item in block {
        match write_one(alloc, item, summary, out) {
            Ok(()) => {}
            Err(stop) => return Err(stop),
        }
    }
    Ok(())
}

/// Writes an item, as its command or as its summary line.
fn write_one<O: Sink>(alloc: Global, item: &Item, summary: bool, out: &mut O) -> Result<(), Stop>
    ensures all { OnOk result (Grew (O.written out.old) (O.written out.new)
        (encode_utf8_all (written_item summary (item_of item.now)))) }
    ensures front { OnErr result (GrewByFront (O.written out.old) (O.written out.new)
        (encode_utf8_all (written_item summary (item_of item.now)))) }
    ensures written { IsNoRefusal result }
    ensures cause { CutByCause (O.faults out.old) (O.faults out.new) result }
{
    let text = item_text(alloc, item, summary)?;
    write_piece(out, text.as_bytes())
}

/// The text of an item: its summary line, or its command.
fn item_text(alloc: Global, item: &Item, summary: bool) -> Result<String, Memory>
    ensures { IfOk result (λ text. string_bytes text
        ≡ encode_utf8_all (written_item summary (item_of item.now))) }
{
    if summary {
        return Ok(summary_line(alloc, item)?);
    }
    Ok(write_item(alloc, item)?)
}

/// Writes the line of counts, where a summary is asked for.
fn finish<O: Sink>(alloc: Global, items: &[Item], summary: bool, out: &mut O) -> Result<(), Stop>
    ensures all { OnOk result (Grew (O.written out.old) (O.written out.new)
        (encode_utf8_all (written_last summary (map item_of items.now)))) }
    ensures front { OnErr result (GrewByFront (O.written out.old) (O.written out.new)
        (encode_utf8_all (written_last summary (map item_of items.now)))) }
    ensures written { IsNoRefusal result }
    ensures cause { CutByCause (O.faults out.old) (O.faults out.new) result }
{
    if !summary {
        return Ok(());
    }
    let counts = count(items);
    let line = count_line(alloc, counts.items, counts.axioms, counts.lemmas)?;
    write_piece(out, line.as_bytes())
}

/// Writes a piece whole, or a front of it.
pub fn write_piece<O: Sink>(out: &mut O, piece: &[u8]) -> Result<(), Stop>
    ensures all { OnOk result (Grew (O.written out.old) (O.written out.new) piece.now) }
    ensures front { OnErr result (GrewByFront (O.written out.old) (O.written out.new) piece.now) }
    ensures written { IsNoRefusal result }
    ensures cause { CutByCause (O.faults out.old) (O.faults out.new) result }
{
    match write_all(out, piece) {
        Ok(()) => Ok(()),
        Err(_) => Err(Stop::Fault),
    }
}
