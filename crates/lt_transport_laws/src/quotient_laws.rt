//! Laws of quotients between types. Each function does nothing: its contract is the law.
ghost use Rattle.lt_transport_laws.specs.QuotientStatements.{QuotientsExist};
ghost use Rattle.lt_transport_laws.specs.OrderStatements.{NewSessionsAreOrdered, SessionsStayOrdered, SessionsHaveQuotients, OutcomesExist};

/// Between two types without a fault there is a quotient, where the raw type of each registered one
/// is declared before its abstract type.
pub fn quotients_exist()
    ensures { QuotientsExist }
{}

/// So it is in each session to which commands lead: what it declares and states is what a valid
/// plain theory does, and its typedefs and quotients are in order.
pub fn sessions_stay_ordered()
    ensures new { NewSessionsAreOrdered }
    ensures kept { SessionsStayOrdered }
    ensures exist { SessionsHaveQuotients }
{}

/// Some outcome comes in such a session of each command that asks for no image, and not for the
/// quotient with which a constant was lifted before.
pub fn outcomes_exist()
    ensures { OutcomesExist }
{}
