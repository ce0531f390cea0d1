//! Worked rows. Each function does nothing: its contract is the row.
ghost use Rattle.std.specs.Prelude.{◌≡◌, [], Ok, codes};
ghost use Rattle.lt_definitions.specs.Types.{bool, fun};
ghost use Rattle.lt_nameless.specs.Nameless.{nameless};
ghost use Rattle.lt_nameless.specs.NamelessRules.{nameless_equation};
ghost use Rattle.lt_programs.specs.Programs.{theorem};
ghost use Rattle.lt_transport_definitions.specs.Expressions.{left, right, normal};
ghost use Rattle.lt_transport_definitions.specs.Relations.{equality};
ghost use Rattle.lt_transport_definitions.specs.RelationTerms.{plain_domain, domain_of};
ghost use Rattle.lt_transport_definitions.specs.Notation.{◌~◌};
ghost use Rattle.lt_relation_lines.specs.Grounds.{term_of, has_property};
ghost use Rattle.lt_relation_lines.specs.Equalities.{equality_gives};
ghost use Rattle.lt_relation_lines.specs.SideLines.{side_gives};
ghost use Rattle.lt_relation_lines.specs.NormalLines.{normal_gives};
ghost use Rattle.lt_relation_lines.specs.DomainLines.{domain_gives};
ghost use Rattle.lt_relation_lines.specs.SampleLines.{equal_throughout, predicates, sample};

/// A relator over equalities equals equality at its type.
pub fn an_equality()
    ensures { equality_gives sample equal_throughout ≡ Ok (theorem (nameless_equation
        (right sample.registry equal_throughout ~ right sample.registry equal_throughout)
        (term_of sample.registry equal_throughout)
        (term_of sample.registry (equality (right sample.registry equal_throughout))))) }
{}

/// A property by a registered rule, with a premise by another rule and one by the law on equality.
pub fn a_side_condition()
    ensures { side_gives sample predicates (codes "right_unique")
        ≡ Ok (theorem (has_property sample.registry (codes "right_unique") predicates)) }
{}

/// A property of a relator over equalities.
pub fn a_side_condition_of_equality()
    ensures { side_gives sample equal_throughout (codes "right_unique")
        ≡ Ok (theorem (has_property sample.registry (codes "right_unique") equal_throughout)) }
{}

/// Equality at a function type equals its normal form.
pub fn a_normal_form()
    ensures { normal_gives sample (equality (right sample.registry equal_throughout))
        ≡ Ok (theorem (nameless_equation
        (right sample.registry equal_throughout ~ right sample.registry equal_throughout)
        (term_of sample.registry (equality (right sample.registry equal_throughout)))
        (term_of sample.registry
        (normal sample.registry (equality (right sample.registry equal_throughout)))))) }
{}

/// The domain of related functions, with the domain of the arguments' relation put in.
pub fn a_domain()
    ensures { domain_gives sample predicates ≡ Ok (theorem (nameless_equation
        (fun (left sample.registry predicates) bool)
        (nameless [] (plain_domain sample.registry predicates))
        (nameless [] (domain_of sample.registry predicates)))) }
{}
