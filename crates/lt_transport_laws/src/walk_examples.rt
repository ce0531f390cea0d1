//! An example of a run over the bytes of a text.
ghost use Rattle.std.specs.Prelude.{[], ◌∷◌, codes};
ghost use Rattle.lt_definitions.specs.Items.{type_item};
ghost use Rattle.lt_definitions.specs.Theory.{unknown_statement};
ghost use Rattle.lt_walks.specs.Walks.{refused};
ghost use Rattle.lt_transport_definitions.specs.Commands.{as_item};
ghost use Rattle.lt_transport_definitions.specs.TheoryWalks.{RunsText};

/// The second command of a text is refused: the items of the first stand, and the place is that of
/// the second.
pub fn run_to_a_refusal()
    ensures { RunsText 5 (codes "theory 1;\ntype n 0;\nlaw w l;")
        ((type_item (codes "n") 0 ∷ []) ∷ [])
        (refused (as_item (unknown_statement (codes "l"))) 20) }
{}
