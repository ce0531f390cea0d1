//! Laws of relation expressions. Each function does nothing: its contract is the law.
ghost use Rattle.lt_transport_laws.specs.ExpressionStatements.{EqualitiesAreExpressions, NormalFormsAreExpressions};

/// Equality at a type is an expression, and so is the normal form of an expression, where the name
/// of each registered form is that of nothing else.
pub fn normal_forms_are_expressions()
    ensures equality { EqualitiesAreExpressions }
    ensures normal { NormalFormsAreExpressions }
{}
