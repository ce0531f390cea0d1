//! `check` accepts what `run` writes. The function does nothing: its contract is the law.
ghost use Rattle.std.specs.Prelude.{List, ℕ};
ghost use Rattle.lt_definitions.specs.Items.{Item};
ghost use Rattle.lt_walks.specs.Walks.{End, Walks};
ghost use Rattle.lt_transport_definitions.specs.TheoryWalks.{items_of_blocks};
ghost use Rattle.lt_session.specs.Walks.{RunRefusal, built_commands};
ghost use Rattle.lt_run.specs.Reports.{IsReadBack};

/// The items that a walk of `run` adds have names that are names, numbers below 2^32 and terms
/// without loose bound names. So what is written of them is a plain theory, which `check` accepts
/// where it is short enough, as items that differ in binder names alone.
pub fn reports_are_accepted()
    ensures { (limit : ℕ) (text : List ℕ) (blocks : List (List Item)) (end : End RunRefusal)
        → Walks (built_commands limit) text blocks end → IsReadBack (items_of_blocks blocks) }
{}
