//! Laws of derivations over one expression. Each function does nothing: its contract is the law.
ghost use Rattle.std.specs.Prelude.{◌≡◌, Bool, true, None, Ok};
ghost use Rattle.lt_definitions.specs.Types.{TypeTree};
ghost use Rattle.lt_definitions.specs.Typing.{type_fault};
ghost use Rattle.lt_nameless.specs.NamelessRules.{nameless_equation};
ghost use Rattle.lt_programs.specs.Programs.{theorem};
ghost use Rattle.lt_transport_definitions.specs.Below.{Side};
ghost use Rattle.lt_transport_definitions.specs.Expressions.{left, right, is_equality, normal, normal_equality, IsExpression};
ghost use Rattle.lt_transport_definitions.specs.Notation.{◌~◌};
ghost use Rattle.lt_transport_definitions.specs.Relations.{equality, Property, Relation};
ghost use Rattle.lt_transport_laws.specs.Statements.{IsRegistry};
ghost use Rattle.lt_relation_lines.specs.NormalLines.{normal_gives};
ghost use Rattle.lt_relation_lines.specs.Grounds.{Ground, has_property, term_of};
ghost use Rattle.lt_relation_lines.specs.Equalities.{equality_gives};
ghost use Rattle.lt_relation_lines.specs.Equated.{equal_at, HasRules, IsGround, IsPlain};
ghost use Rattle.lt_relation_lines.specs.SideLines.{side_gives};

/// An expression that is equality throughout, at a type without a fault, is derived to equal
/// equality at its type.
pub fn equalities_are_derived()
    ensures { (g : Ground) (r : Relation) → IsGround g → is_equality g.registry r ≡ true
        → IsExpression g.registry r → type_fault g.signature (right g.registry r) ≡ None
        → equality_gives g r ≡ Ok (theorem (nameless_equation
        (right g.registry r ~ right g.registry r) (term_of g.registry r)
        (equal_at (right g.registry r)))) }
{}

/// A side condition that holds, at a type without a fault, is derived.
pub fn sides_are_derived()
    ensures { (g : Ground) (wanted : Property → Bool) (r : Relation) (p : Property) → IsGround g
        → HasRules g wanted → wanted p ≡ true → IsExpression g.registry r
        → type_fault g.signature (right g.registry r) ≡ None → Side g.registry r p
        → side_gives g r p ≡ Ok (theorem (has_property g.registry p r)) }
{}

/// Equality at a type without a fault is derived to equal its normal form.
pub fn equalities_have_normal_forms()
    ensures { (g : Ground) (t : TypeTree) → IsGround g → IsRegistry g.registry
        → type_fault g.signature t ≡ None
        → normal_gives g (equality t) ≡ Ok (theorem (nameless_equation (t ~ t) (equal_at t)
        (term_of g.registry (normal_equality g.registry t)))) }
{}

/// An expression in which no correspondence has a parametrised form is derived to equal its normal
/// form.
pub fn normal_forms_are_derived()
    ensures { (g : Ground) (r : Relation) → IsGround g → IsRegistry g.registry → IsPlain g r
        → normal_gives g r ≡ Ok (theorem (nameless_equation
        (left g.registry r ~ right g.registry r) (term_of g.registry r)
        (term_of g.registry (normal g.registry r)))) }
{}
