//! The definitions that derivations of conjunction and existence read are those of the laws'
//! constants. The function does nothing: its contract is the law.
ghost use Rattle.std.specs.Prelude.{◌≡◌, [], ◌∷◌, codes};
ghost use Rattle.lt_definitions.specs.Terms.{constant, equation};
ghost use Rattle.lt_nameless.specs.Nameless.{nameless};
ghost use Rattle.lt_programs.specs.Connectives.{and_definition, ex_definition};
ghost use Rattle.lt_transport_definitions.specs.Letters.{a};
ghost use Rattle.lt_transport_definitions.specs.Constants.{table_type};
ghost use Rattle.lt_transport_definitions.specs.Bodies.{and_body, ex_body};

/// `and` and `ex` equal their bodies in the table, as the statements of their definitions say.
pub fn connectives_are_defined()
    ensures conjunction { nameless [] (equation (table_type (codes "and"))
        (constant (codes "and") []) and_body.term) ≡ and_definition }
    ensures existence { nameless [] (equation (table_type (codes "ex"))
        (constant (codes "ex") (a ∷ [])) ex_body.term) ≡ ex_definition }
{}
