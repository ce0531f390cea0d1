//! The walk of the built commands against that of the whole table. The function does nothing: its
//! contract is the law.
ghost use Rattle.std.specs.Prelude.{ℕ, List};
ghost use Rattle.lt_definitions.specs.Items.{Item};
ghost use Rattle.lt_walks.specs.Walks.{End, Walks, AreTotal, AreOne};
ghost use Rattle.lt_transport_definitions.specs.Commands.{CommandRefusal};
ghost use Rattle.lt_transport_definitions.specs.TheoryWalks.{RunsText};
ghost use Rattle.lt_session.specs.Walks.{built_commands, built_end};

/// Where the walk of the built commands doesn't end at one that isn't built, it is the walk of the
/// whole table. Each command gives one block or is refused for one reason, so each text has one walk.
pub fn built_walks_are_runs()
    ensures run { (limit : ℕ) (text : List ℕ) (blocks : List (List Item)) (end : End CommandRefusal)
        → Walks (built_commands limit) text blocks (built_end end) → RunsText limit text blocks end }
    ensures total { (limit : ℕ) → AreTotal (built_commands limit) }
    ensures one { (limit : ℕ) → AreOne (built_commands limit) }
{}
