//! Lines by their numbers.
ghost use Rattle.std.specs.Prelude.{◌≡◌, length, IfSome};
ghost use Rattle.std.specs.Option.{option_copied, option_map};
ghost use Rattle.lt_definitions.specs.Rules.{line_at};
ghost use Rattle.lt_kernel.specs.Sequents.{sequent_at, sequents_at, AreWithin, IsWithin};

use crate::sequent::{Sequent, Step};
use lt_store::TermStore;

/// The line with a number, from 1.
pub(crate) fn step_at(steps: &[Step], number: usize) -> Option<&Step>
    ensures { option_copied result ≡ line_at steps.now number }
{
    if number == 0 {
        return None;
    }
    if number > steps.len() {
        return None;
    }
    Some(&steps[number - 1])
}

/// The sequent of the line with a number.
pub(crate) fn sequent_at<'a, S: TermStore>(
    _store: &S,
    done: &'a [Step],
    number: usize,
) -> Option<&'a Sequent>
    requires { AreWithin (length (S.nodes _store.now)) done.now }
    ensures is { option_map (sequent_at (S.nodes _store.now)) (option_copied result) ≡ line_at
        (sequents_at (S.nodes _store.now) done.now) number }
    ensures within { IfSome result (λ s. IsWithin (length (S.nodes _store.now)) s.now) }
{
    match step_at(done, number) {
        Some(step) => Some(&step.sequent),
        None => None,
    }
}
