//! Texts that are written as they stand.
ghost use Rattle.std.specs.Prelude.{◌≡◌, ◌≤◌, ◌⊎◌, encode_utf8_all};
ghost use Rattle.lt_io.specs.Causes.{Rose};
ghost use Rattle.lt_io.specs.Written.{Grew, GrewByFront};
ghost use Rattle.lt_transport_definitions.specs.LawTexts.{laws_text};
ghost use Rattle.lt_transport_definitions.specs.GeneratedTexts.{generated_text};

use lt_gen::{generate, laws_text};
use lt_io::{Sink, write_all};
use std::alloc::Global;

/// Writes the text of the laws.
pub(crate) fn write_laws<O: Sink>(alloc: Global, out: &mut O) -> u8
    ensures given { result ≡ 0
        → Grew (O.written out.old) (O.written out.new) (encode_utf8_all laws_text) }
    ensures front { (result ≡ 4) ⊎ (result ≡ 5)
        → GrewByFront (O.written out.old) (O.written out.new) (encode_utf8_all laws_text) }
    ensures write { result ≡ 4 → Rose (O.faults out.old) (O.faults out.new) }
    ensures status { (result ≡ 0) ⊎ (result ≡ 4) ⊎ (result ≡ 5) }
    ensures later { O.faults out.old ≤ O.faults out.new }
{
    match laws_text(alloc) {
        Ok(text) => write_text(&text, out),
        Err(_) => 5,
    }
}

/// Writes the generated text of size n.
pub(crate) fn write_generated<O: Sink>(alloc: Global, n: u32, out: &mut O) -> u8
    ensures given { result ≡ 0
        → Grew (O.written out.old) (O.written out.new) (encode_utf8_all (generated_text n)) }
    ensures front { (result ≡ 4) ⊎ (result ≡ 5)
        → GrewByFront (O.written out.old) (O.written out.new)
        (encode_utf8_all (generated_text n)) }
    ensures write { result ≡ 4 → Rose (O.faults out.old) (O.faults out.new) }
    ensures status { (result ≡ 0) ⊎ (result ≡ 4) ⊎ (result ≡ 5) }
    ensures later { O.faults out.old ≤ O.faults out.new }
{
    match generate(alloc, n) {
        Ok(text) => write_text(&text, out),
        Err(_) => 5,
    }
}

/// Writes a text whole, or a front of it.
fn write_text<O: Sink>(text: &[u8], out: &mut O) -> u8
    ensures given { result ≡ 0 → Grew (O.written out.old) (O.written out.new) text.now }
    ensures front { result ≡ 4 → GrewByFront (O.written out.old) (O.written out.new) text.now }
    ensures write { result ≡ 4 → Rose (O.faults out.old) (O.faults out.new) }
    ensures status { (result ≡ 0) ⊎ (result ≡ 4) }
    ensures later { O.faults out.old ≤ O.faults out.new }
{
    match write_all(out, text) {
        Ok(()) => 0,
        Err(_) => 4,
    }
}
