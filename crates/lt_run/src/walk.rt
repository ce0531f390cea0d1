//! The walk of `check` through a text: its items are added and reported one after another.
ghost use Rattle.std.specs.Prelude.{◌≡◌, ◌∷◌, ◌++◌, [], List, OnOk, OnErr, encode_utf8_all, map};
ghost use Rattle.lt_definitions.specs.Printing.{summary_line, count_line};
ghost use Rattle.lt_hol.specs.declared.item.Item.{Item as Stated};
ghost use Rattle.lt_hol.specs.Items.{item_of};
ghost use Rattle.lt_io.specs.Written.{Grew, GrewByFront};
ghost use Rattle.lt_extend.specs.Theories.{items_of, IsInStep};
ghost use Rattle.lt_session.specs.Running.{CutByCause, IsNoRefusal};
ghost use Rattle.lt_run.specs.Walked.{IsWalked};

use lt_extend::Theory;
use lt_hol::Item;
use lt_io::Sink;
use lt_plain::{next_item, open_plain, summary_line};
use lt_session::{Stop, count, stop_of, write_piece};
use lt_store::TermStore;
use lt_syntax::count_line;
use std::alloc::Global;

/// Walks through a text with a theory without items. Each accepted item is added, and its summary
/// line is written at once; where all were accepted the line of counts is written too.
pub(crate) fn walk_text<S: TermStore, O: Sink>(
    alloc: Global,
    text: &[u8],
    th: &mut Theory<S>,
    out: &mut O,
) -> Result<(), Stop>
    requires in_step { IsInStep th.old }
    requires empty { th.old.items ≡ [] }
    ensures walked { IsWalked text.now (items_of th.new.items) (O.written out.old)
        (O.written out.new) result }
    ensures cause { CutByCause (O.faults out.old) (O.faults out.new) result }
{
    let mut script = match open_plain(alloc, text) {
        Ok(script) => script,
        Err(placed) => return Err(stop_of(placed)),
    };
    'items: loop {
        match next_item(alloc, &mut script, th) {
            Ok(true) => {}
            Ok(false) => return finish(alloc, th.items().as_slice(), out),
            Err(placed) => return Err(stop_of(placed)),
        }
        match report_last(alloc, th.items().as_slice(), out) {
            Ok(()) => {}
            Err(stop) => return Err(stop),
        }
    }
}

/// Writes the summary line of the last item.
fn report_last<O: Sink>(alloc: Global, items: &[Item], out: &mut O) -> Result<(), Stop>
    ensures all { OnOk result ((before : List Stated) (item : Stated)
        → items.now ≡ before ++ item ∷ [] → Grew (O.written out.old) (O.written out.new)
        (encode_utf8_all (summary_line (item_of item)))) }
    ensures front { OnErr result ((before : List Stated) (item : Stated)
        → items.now ≡ before ++ item ∷ [] → GrewByFront (O.written out.old) (O.written out.new)
        (encode_utf8_all (summary_line (item_of item)))) }
    ensures written { IsNoRefusal result }
    ensures cause { CutByCause (O.faults out.old) (O.faults out.new) result }
{
    match items.last() {
        Some(item) => report_item(alloc, item, out),
        None => Ok(()),
    }
}

/// Writes an item's summary line.
fn report_item<O: Sink>(alloc: Global, item: &Item, out: &mut O) -> Result<(), Stop>
    ensures all { OnOk result (Grew (O.written out.old) (O.written out.new)
        (encode_utf8_all (summary_line (item_of item.now)))) }
    ensures front { OnErr result (GrewByFront (O.written out.old) (O.written out.new)
        (encode_utf8_all (summary_line (item_of item.now)))) }
    ensures written { IsNoRefusal result }
    ensures cause { CutByCause (O.faults out.old) (O.faults out.new) result }
{
    let line = summary_line(alloc, item)?;
    write_piece(out, line.as_bytes())
}

/// Writes the line of counts, which ends a summary.
fn finish<O: Sink>(alloc: Global, items: &[Item], out: &mut O) -> Result<(), Stop>
    ensures all { OnOk result (Grew (O.written out.old) (O.written out.new)
        (encode_utf8_all (count_line (map item_of items.now)))) }
    ensures front { OnErr result (GrewByFront (O.written out.old) (O.written out.new)
        (encode_utf8_all (count_line (map item_of items.now)))) }
    ensures written { IsNoRefusal result }
    ensures cause { CutByCause (O.faults out.old) (O.faults out.new) result }
{
    let counts = count(items);
    let line = count_line(alloc, counts.items, counts.axioms, counts.lemmas)?;
    write_piece(out, line.as_bytes())
}
