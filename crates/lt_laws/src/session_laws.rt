//! What is registered here is what a session of the definitions registers. The function does
//! nothing: its contract is the law.
ghost use Rattle.std.specs.Prelude.{◌≡◌, [], ◌∷◌, List, option_map, None};
ghost use Rattle.lt_definitions.specs.Types.{Chars};
ghost use Rattle.lt_definitions.specs.Terms.{TermTree};
ghost use Rattle.lt_nameless.specs.Nameless.{nameless};
ghost use Rattle.lt_transport_definitions.specs.Sessions.{Session};
ghost use Rattle.lt_transport_definitions.specs.Commands.{because, law_registered, with_registration};
ghost use Rattle.lt_transport_definitions.specs.Rows.{law_test};
ghost use Rattle.lt_laws.specs.Registering.{first_missing, law_fault, with_law};
ghost use Rattle.lt_laws.specs.Instances.{law_form};

/// A law's registration, the test of the laws that a command asks for, and the form of a statement
/// that was accepted.
pub fn laws_are_the_sessions()
    ensures registered { (s : Session) (w l : Chars) → with_registration s (law_registered w l)
        ≡ record s { laws = with_law w l s.laws } }
    ensures missing { (s : Session) (names : List Chars) → law_test s names ≡ option_map
        (λ w. because "MissingLaw" (w ∷ [])) (first_missing names s.laws) }
    ensures accepted { (w : Chars) (t : TermTree) → law_fault w t ≡ None
        → nameless [] t ≡ law_form w }
{}
