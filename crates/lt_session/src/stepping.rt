//! The walk through a theory text, command by command.
ghost use Rattle.std.specs.Prelude.{◌≡◌, ◌<◌, length, IfOk, IfErr, MatchOption};
ghost use Rattle.lt_texts.specs.Forms.{theory_text, header_text};
ghost use Rattle.lt_texts.specs.Texts.{left_of};
ghost use Rattle.lt_texts.specs.WrongPlaces.{Stands};
ghost use Rattle.lt_session.specs.Stepping.{IsTheory, RefusesHeader, Steps, TakesSpanned};

use crate::session::{Block, Session};
use lt_commands::{Placed, Refused};
use lt_plain::{of_read_error, place_in};
use lt_script::{Script, Spanned};
use std::alloc::Global;

/// A theory text behind its header.
///
/// `BadHeader` has the first place at which the text can't go on as the header; `BadByte` and
/// `BadChar` come before it.
pub fn open_theory<'a>(alloc: Global, text: &'a [u8]) -> Result<Script<'a>, Placed>
    ensures theory { IfOk result (λ s. IsTheory s) }
    ensures header { IfOk result
        (λ s. Stands (left_of text.now) (header_text theory_text) s.left) }
    ensures wrong { IfErr result (λ p. RefusesHeader (left_of text.now) p) }
{
    let mut script = Script::new(alloc, text);
    match script.header(alloc, "theory", 1) {
        Ok(()) => Ok(script),
        Err(error) => Err(of_read_error(error)),
    }
}

/// Takes the next command of a theory text, and answers its block, or None at the text's end.
///
/// It refuses what is wrong in the text before the command's end, and then the command that the
/// session doesn't take; the session is as before.
pub fn next_command(
    alloc: Global,
    script: &mut Script<'_>,
    session: &mut Session,
) -> Result<Option<Block>, Placed>
    requires theory { IsTheory script.old }
    ensures steps { Steps script.old.left session.old script.new.left session.new result }
    ensures shorter { IfOk result
        (λ next. MatchOption next (script.new ≡ script.old)
        (λ block. length script.new.left.ahead < length script.old.left.ahead)) }
    ensures theory { IsTheory script.new }
{
    let next = match script.parse_command(alloc) {
        Ok(next) => next,
        Err(error) => return Err(of_read_error(error)),
    };
    let Some(spanned) = next else {
        return Ok(None);
    };
    match take_spanned(alloc, spanned, session) {
        Ok(block) => Ok(Some(block)),
        Err(placed) => Err(placed),
    }
}

/// Takes what was read, or answers why it isn't taken, with the place.
fn take_spanned(alloc: Global, spanned: Spanned, session: &mut Session) -> Result<Block, Placed>
    ensures { TakesSpanned spanned session.old session.new result }
{
    let Spanned {
        command,
        from,
        to: _,
        lines,
    } = spanned;
    match session.step(alloc, command) {
        Ok(block) => Ok(block),
        Err(Refused { refusal, line }) => {
            let at = place_in(from, &lines, line);
            Err(Placed { refusal, at })
        }
    }
}
