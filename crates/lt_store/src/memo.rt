//! What was worked on before, by two numbers.
ghost use Rattle.std.specs.Prelude.{◌≡◌, ℕ, ◌==◌, ◌&&◌, Some, IsSome, OnOk, if◌then◌else◌};
ghost use Rattle.lt_store.specs.Memos.{result_at};

use crate::node::Id;
use lt_hol::Memory;
use std::collections::HashMap;

/// Results by an id and a number beside it.
pub type Memo = HashMap<(Id, usize), Id>;

/// The result that was kept.
pub(crate) fn look(memo: &Memo, id: Id, beside: usize) -> Option<Id>
    ensures { result ≡ result_at memo.now id beside }
{
    memo.get(&(id, beside)).copied()
}

/// Keeps a result.
pub(crate) fn keep(memo: &mut Memo, id: Id, beside: usize, made: Id) -> Result<(), Memory>
    ensures { OnOk result ((i d : ℕ) → result_at memo.new i d ≡ (if (id == i) && (beside == d) then Some made else result_at memo.old i d)) }
{
    memo.insert((id, beside), made)?;
    Ok(())
}

/// The result that was kept, where there is one.
pub(crate) fn kept(memo: &Memo, id: Id, beside: usize) -> Id
    requires { IsSome (result_at memo.now id beside) }
    ensures { result_at memo.now id beside ≡ Some result }
{
    look(memo, id, beside).unwrap()
}
