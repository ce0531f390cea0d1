//! The types of terms in a store.
ghost use Rattle.std.specs.Prelude.{◌<◌, [], length};
ghost use Rattle.lt_nameless.specs.Nameless.{IsWhole};
ghost use Rattle.lt_nameless.specs.NamelessRules.{nameless_typed};
ghost use Rattle.lt_hol.specs.Faults.{Gives};
ghost use Rattle.lt_store.specs.Trees.{tree_at};

use crate::memo::kept;
use crate::node::Id;
use crate::term_store::TermStore;
use crate::type_work::{TypeTask, TypeWork};
use lt_hol::{Signature, Ty, TypeFault, TypeTable};
use std::alloc::Global;
use std::collections::HashMap;

/// The type of a term, or its first fault in the order of the text:
/// a function, then its argument, then their application; a binder's type, then its body.
///
/// The condition is that each bound name has its binder.
/// Each node is worked on once for each list of the types of the binders around it.
pub fn type_at<S: TermStore>(
    alloc: Global,
    store: &S,
    sig: &Signature,
    t: Id,
) -> Result<Ty, TypeFault>
    requires t { t < length (S.nodes store.now) }
    requires whole { IsWhole 0 (tree_at (S.nodes store.now) t) }
    ensures { Gives (nameless_typed sig.now [] (tree_at (S.nodes store.now) t)) result }
{
    let mut types = TypeTable::new(alloc)?;
    let no_binders = types.intern(alloc, &Ty::bool(alloc)?)?;
    let mut tasks = Vec::new(alloc);
    tasks.push(TypeTask::Visit(t, no_binders))?;
    let mut work = TypeWork {
        types,
        binders: Vec::new(alloc),
        found: HashMap::new(alloc),
        tasks,
    };
    while let Some(task) = work.tasks.pop() {
        match work.turn(alloc, store, sig, task) {
            Ok(()) => {}
            Err(fault) => return Err(fault),
        }
    }
    let number = kept(&work.found, t, no_binders);
    let ty = work.types.ty(alloc, number)?;
    Ok(ty)
}
