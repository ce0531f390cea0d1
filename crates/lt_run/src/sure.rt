//! The top call over a library and sinks that never fail.
ghost use Rattle.std.specs.Prelude.{◌≡◌, ◌≢◌, ◌⊎◌, [], List, ℕ, Some, None, false};
ghost use Rattle.lt_definitions.specs.Items.{Item};
ghost use Rattle.lt_definitions.specs.Theory.{Refusal};
ghost use Rattle.lt_texts.specs.Files.{File, joined_text};
ghost use Rattle.lt_io.specs.Files.{StaysSame};
ghost use Rattle.lt_io.specs.InMemory.{told_files, told_bytes};
ghost use Rattle.lt_io.specs.Written.{Grew};
ghost use Rattle.lt_extend.specs.Theories.{items_of};
ghost use Rattle.lt_walks.specs.Walks.{End, accepted, Walks};
ghost use Rattle.lt_walks.specs.PlainWalks.{Checks};
ghost use Rattle.lt_walks.specs.Calls.{usage_line};
ghost use Rattle.lt_words.specs.declared.mode.Mode.TheVariants.{Run, Check};
ghost use Rattle.lt_words.specs.Calls.{Call, call_of, reads_files};
ghost use Rattle.lt_session.specs.Walks.{RunRefusal, built_commands};
ghost use Rattle.lt_run.specs.Joining.{HoldsAll, KeepsTold};
ghost use Rattle.lt_run.specs.Outcomes.{IsBroken, IsDone, IsRefused};

use crate::{Ended, Text, lt};
use lt_io::{SureLibrary, SureSink};
use std::alloc::Global;

/// As `lt`, which over these answers no fault.
pub fn lt_sure(
    alloc: Global,
    words: &[Text],
    lib: &mut SureLibrary,
    out: &mut SureSink,
    err: &mut SureSink,
) -> Ended
    ensures status { (result.status ≡ 0) ⊎ (result.status ≡ 1) ⊎ (result.status ≡ 2)
        ⊎ (result.status ≡ 5) }
    ensures accepted { result.status ≡ 0 → (call : Call) × (call_of words.now ≡ Some call)
        × IsDone call (told_files lib.new) (items_of result.items)
        (told_bytes out.old) (told_bytes out.new) (told_bytes err.old) (told_bytes err.new) }
    ensures refused { result.status ≡ 1 → (call : Call) × (call_of words.now ≡ Some call)
        × IsRefused call (told_files lib.new) (items_of result.items)
        (told_bytes out.old) (told_bytes out.new) (told_bytes err.old) (told_bytes err.new) }
    ensures words { result.status ≡ 2 → (call_of words.now ≡ None) × (result.items ≡ [])
        × Grew (told_bytes out.old) (told_bytes out.new) []
        × Grew (told_bytes err.old) (told_bytes err.new) usage_line }
    ensures front { result.status ≡ 5
        → ((result.items ≡ []) × Grew (told_bytes out.old) (told_bytes out.new) [])
        ⊎ ((call : Call) × (call_of words.now ≡ Some call)
        × IsBroken call (told_files lib.new) (items_of result.items)
        (told_bytes out.old) (told_bytes out.new)) }
    ensures same { StaysSame (told_files lib.old) (told_files lib.new) }
    ensures told { (call : Call) → call_of words.now ≡ Some call
        → KeepsTold (told_files lib.old) (told_files lib.new) call.files }
    ensures untouched { ((call : Call) → call_of words.now ≡ Some call
        → reads_files call.mode ≡ false) → lib.new ≡ lib.old }
    // Words that aren't accepted get the usage line, unless memory runs out.
    ensures other { call_of words.now ≡ None → (result.status ≡ 2) ⊎ (result.status ≡ 5) }
    // A text that is asked for is written, unless memory runs out.
    ensures written { (call : Call) → call_of words.now ≡ Some call → reads_files call.mode ≡ false
        → (result.status ≡ 0) ⊎ (result.status ≡ 5) }
    // A theory text whose commands are all accepted is run, unless memory runs out.
    ensures runs { (call : Call) (held : List File) (blocks : List (List Item))
        → call_of words.now ≡ Some call → call.mode ≡ Run
        → HoldsAll (told_files lib.old) call.files held
        → Walks (built_commands call.limit) (joined_text held) blocks accepted
        → (result.status ≡ 0) ⊎ (result.status ≡ 5) }
    // Any other is refused, unless memory runs out.
    ensures stopping { (call : Call) (held : List File) (blocks : List (List Item))
        (end : End RunRefusal) → call_of words.now ≡ Some call → call.mode ≡ Run
        → HoldsAll (told_files lib.old) call.files held
        → Walks (built_commands call.limit) (joined_text held) blocks end → end ≢ accepted
        → (result.status ≡ 1) ⊎ (result.status ≡ 5) }
    // A valid plain theory is accepted by `check`, with its items, unless memory runs out.
    ensures complete { (call : Call) (held : List File) (items : List Item)
        → call_of words.now ≡ Some call → call.mode ≡ Check
        → HoldsAll (told_files lib.old) call.files held
        → Checks (joined_text held) items accepted
        → ((result.status ≡ 0) × (items_of result.items ≡ items)) ⊎ (result.status ≡ 5) }
    // Any other text is refused, with the items before the refusal, unless memory runs out.
    ensures refusing { (call : Call) (held : List File) (items : List Item) (end : End Refusal)
        → call_of words.now ≡ Some call → call.mode ≡ Check
        → HoldsAll (told_files lib.old) call.files held → Checks (joined_text held) items end
        → end ≢ accepted
        → ((result.status ≡ 1) × (items_of result.items ≡ items)) ⊎ (result.status ≡ 5) }
{
    lt(alloc, words, lib, out, err)
}
