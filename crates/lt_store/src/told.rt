//! Results that what a store knows of a term tells at once.
ghost use Rattle.std.specs.Prelude.{◌<◌, length, IfSome};
ghost use Rattle.lt_store.specs.Passes.{IsResult};

use crate::change::Work;
use crate::node::Id;
use crate::term_store::TermStore;

/// The result for an id at a depth, where what the store knows of the term tells it: a term that
/// is too small to be changed stays, and nothing is found in one that is too small to have it.
pub(crate) fn told<S: TermStore>(store: &S, work: Work<'_>, id: Id, depth: usize) -> Option<Id>
    requires { id < length (S.nodes store.now) }
    ensures { IfSome result (IsResult work.entry (S.nodes store.now) id depth) }
{
    let Some(known) = store.bounds(id) else {
        return None;
    };
    match work {
        Work::Make(change) => {
            if change.leaves(known, depth) {
                Some(id)
            } else {
                None
            }
        }
        Work::Find(sought) => {
            if sought.lacks(known, depth) {
                Some(0)
            } else {
                None
            }
        }
        Work::Measure => Some(known.names),
    }
}
