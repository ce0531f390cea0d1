//! The walk through a plain text.
ghost use Rattle.std.specs.Prelude.{◌≡◌, ◌<◌, [], length, true, IfOk, IfErr, Ok};
ghost use Rattle.std.specs.Bool.{MatchBool};
ghost use Rattle.lt_texts.specs.Forms.{plain_text, header_text, a_command, IsAllowed};
ghost use Rattle.lt_texts.specs.Texts.{left_of};
ghost use Rattle.lt_texts.specs.WrongPlaces.{Stands};
ghost use Rattle.lt_commands.specs.Views.{command_of};
ghost use Rattle.lt_extend.specs.Theories.{items_of, IsInStep};
ghost use Rattle.lt_plain.specs.Stepping.{IsPlain, RefusesHeader, Steps, AddsSpanned};
ghost use Rattle.lt_plain.specs.Telling.{IsChecked};

use crate::adding::{add_item, item_from};
use crate::placing::{of_item_fault, of_read_error};
use lt_commands::Placed;
use lt_extend::Theory;
use lt_script::{Script, Spanned};
use lt_store::TermStore;
use std::alloc::Global;

/// Adds the items of a plain text to a theory without items.
///
/// All are added exactly where the text is a valid plain theory; else the first refusal is answered
/// with its place, and the theory has the items before it. It takes time linear in the text, but for
/// what the rules of lemmas take.
pub fn check_plain<S: TermStore>(
    alloc: Global,
    text: &[u8],
    th: &mut Theory<S>,
) -> Result<(), Placed>
    requires in_step { IsInStep th.old }
    requires empty { th.old.items ≡ [] }
    ensures checked { IsChecked text.now (items_of th.new.items) result }
    ensures in_step { IsInStep th.new }
{
    let mut script = match open_plain(alloc, text) {
        Ok(script) => script,
        Err(placed) => return Err(placed),
    };
    'items: loop {
        match next_item(alloc, &mut script, th) {
            Ok(true) => {}
            Ok(false) => return Ok(()),
            Err(placed) => return Err(placed),
        }
    }
}

/// A plain text behind its header.
///
/// `BadHeader` has the first place at which the text can't go on as the header; `BadByte` and
/// `BadChar` come before it.
pub fn open_plain<'a>(alloc: Global, text: &'a [u8]) -> Result<Script<'a>, Placed>
    ensures plain { IfOk result (λ s. IsPlain s) }
    ensures header { IfOk result
        (λ s. Stands (left_of text.now) (header_text plain_text) s.left) }
    ensures wrong { IfErr result (λ p. RefusesHeader (left_of text.now) p) }
{
    let mut script = Script::new(alloc, text);
    match script.header(alloc, "plain", 1) {
        Ok(()) => Ok(script),
        Err(error) => Err(of_read_error(error)),
    }
}

/// Adds the next item of a plain text to a theory, and says whether there was one.
///
/// It answers what is wrong in the text before the item's end, or the item's first refusal; then the
/// theory's items are as before.
pub fn next_item<S: TermStore>(
    alloc: Global,
    script: &mut Script<'_>,
    th: &mut Theory<S>,
) -> Result<bool, Placed>
    requires in_step { IsInStep th.old }
    requires plain { IsPlain script.old }
    ensures steps { Steps script.old.left th.old.items script.new.left th.new.items result }
    ensures shorter { IfOk result
        (λ more. MatchBool more (length script.new.left.ahead < length script.old.left.ahead)
        (script.new ≡ script.old)) }
    ensures plain { IsPlain script.new }
    ensures in_step { IsInStep th.new }
{
    let next = match script.parse_item(alloc) {
        Ok(next) => next,
        Err(error) => return Err(of_read_error(error)),
    };
    let Some(spanned) = next else {
        return Ok(false);
    };
    match add_spanned(alloc, spanned, th) {
        Ok(()) => Ok(true),
        Err(placed) => Err(placed),
    }
}

/// Adds what was read, or answers its first refusal with the place.
fn add_spanned<S: TermStore>(
    alloc: Global,
    spanned: Spanned,
    th: &mut Theory<S>,
) -> Result<(), Placed>
    requires in_step { IsInStep th.old }
    requires allowed { IsAllowed plain_text (a_command (command_of spanned.command)) }
    ensures adds { AddsSpanned spanned th.old.items th.new.items result }
    ensures in_step { IsInStep th.new }
{
    let Spanned {
        command,
        from,
        to: _,
        lines,
    } = spanned;
    match add_item(alloc, th, item_from(command)) {
        Ok(()) => Ok(()),
        Err(fault) => Err(of_item_fault(fault, from, &lines)),
    }
}
