//! Laws of what `run` writes. Each function does nothing: its contract is the law.
#![tactic(auto)]

ghost use Rattle.std.specs.Prelude.{List, ℕ};
ghost use Rattle.lt_definitions.specs.Items.{Item};
ghost use Rattle.lt_walks.specs.Walks.{End, Walks};
ghost use Rattle.lt_session.specs.Walks.{RunRefusal, built_commands};
ghost use Rattle.lt_run_laws.specs.Axioms.{HasAxiomsOfCommands};

/// The axioms of a report are those of the text's `axiom` commands, in their order: the commands
/// that were accepted are the first ones of the text, a block each, and the axioms among the items
/// of all blocks are those that these commands state, one after another.
pub fn axioms_are_the_commands()
    ensures { (limit : ℕ) (text : List ℕ) (blocks : List (List Item)) (end : End RunRefusal)
        → Walks (built_commands limit) text blocks end → HasAxiomsOfCommands text blocks }
{}
