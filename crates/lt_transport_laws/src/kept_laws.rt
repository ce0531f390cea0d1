//! Laws of the sessions to which commands lead. Each function does nothing: its contract is the law.
ghost use Rattle.lt_transport_laws.specs.KeptStatements.{NewSessionsAreKept, SessionsAreKept, KeptSessionsAreScoped, KeptStatementsAreBoolean, WalksAreOne, RunsHaveOneEnd, RunsHaveOneSummary};

/// What commands give leaves a session in order, sound, with binders, and in step; and then the
/// premises of the other laws on sessions hold, and each of its statements is boolean.
pub fn sessions_are_kept()
    ensures new { NewSessionsAreKept }
    ensures kept { SessionsAreKept }
    ensures scoped { KeptSessionsAreScoped }
    ensures boolean { KeptStatementsAreBoolean }
{}

/// A walk from such a session has at most one end, so a run over a text has.
pub fn walks_are_one()
    ensures walk { WalksAreOne }
    ensures run { RunsHaveOneEnd }
{}

/// A run over a text has at most one summary.
pub fn runs_have_one_summary()
    ensures { RunsHaveOneSummary }
{}
