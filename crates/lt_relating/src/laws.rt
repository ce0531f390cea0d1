//! Laws of derivations along statements. Each function does nothing: its contract is the law.
ghost use Rattle.std.specs.Prelude.{◌≡◌, List, [], ◌∷◌, Some, Ok, codes};
ghost use Rattle.std.specs.Option.{option_map};
ghost use Rattle.lt_definitions.specs.Types.{found};
ghost use Rattle.lt_definitions.specs.Typing.{Signature};
ghost use Rattle.lt_nameless.specs.Booleans.{IsSoundSignature};
ghost use Rattle.lt_nameless.specs.Nameless.{nameless, NamelessSequent};
ghost use Rattle.lt_programs.specs.Programs.{theorem};
ghost use Rattle.lt_transport_definitions.specs.LawTexts.{law_statement};
ghost use Rattle.lt_relating.specs.TypedRelations.{TypedRelation, related, HasRelator};
ghost use Rattle.lt_relating.specs.RelatorLaws.{application_law, abstraction_law};
ghost use Rattle.lt_relating.specs.Parts.{Laws, walked};
ghost use Rattle.lt_relating.specs.Plans.{Plan, Relates, image_of, given_of, parts_of};

/// The two laws of the function relator are those of the table.
pub fn relator_laws_are_the_tables()
    ensures application { option_map (nameless []) (law_statement (codes "rel_fun_app"))
        ≡ Some application_law }
    ensures abstraction { option_map (nameless []) (law_statement (codes "rel_fun_abs"))
        ≡ Some abstraction_law }
{}

/// Where a statement corresponds with its image, its parts give the line that relates both, without
/// hypotheses.
pub fn correspondences_are_derived()
    ensures { (sig : Signature) (laws : Laws) (done : List NamelessSequent) (t : Plan)
        (e : TypedRelation) → IsSoundSignature sig → HasRelator sig → found laws.application laws.named ≡ Some application_law
        → found laws.abstraction laws.named ≡ Some abstraction_law → Relates sig done [] t e
        → walked sig laws done [] (parts_of 0 t)
        ≡ Ok (theorem (related e.term (image_of t) (given_of t))) }
{}
