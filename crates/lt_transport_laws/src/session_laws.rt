//! Laws of sessions and walks. Each function does nothing: its contract is the law.
ghost use Rattle.lt_transport_laws.specs.LineStatements.{LinesAreReadable, NamedLinesAreOfText, RunsHaveLinesOfText, RunsAreReadBack};
ghost use Rattle.lt_transport_laws.specs.SessionStatements.{EachOutcomeIsOne, SessionsAreOne, WalksArePlain, RunsArePlain, AlikeItemsPrintAlike, AlikeRefusalsPrintAlike, RegistriesStaySound, SessionsStayInStep};

/// At most one outcome comes of each command, transports included, where each statement of the
/// session has its binders.
pub fn each_outcome_is_one()
    ensures { EachOutcomeIsOne }
{}

/// A command leads to at most one session.
pub fn sessions_are_one()
    ensures { SessionsAreOne }
{}

/// The items that a walk gives are valid, and those of a run are a valid plain theory.
pub fn walks_are_plain()
    ensures walk { WalksArePlain }
    ensures run { RunsArePlain }
{}

/// What a call answers up to alpha equality prints as what the walk gives, and what it refuses
/// alike is written as what the walk refuses.
pub fn alike_items_print_alike()
    ensures items { AlikeItemsPrintAlike }
    ensures refusals { AlikeRefusalsPrintAlike }
{}

/// A block leaves the registry one that meets what the laws ask.
pub fn registries_stay_sound()
    ensures { RegistriesStaySound }
{}

/// A session in step gives one in step: each label that it keeps has a statement.
pub fn sessions_stay_in_step()
    ensures { SessionsStayInStep }
{}

/// Each line of a lemma of a run is one that some text has, those of lemmas that blocks add too. In
/// such a line names are names and numbers below 2^32, so it is read back; and a line whose names
/// are names, those of its binders too, is such a line.
pub fn lines_are_of_text()
    ensures run { RunsHaveLinesOfText }
    ensures readable { LinesAreReadable }
    ensures named { NamedLinesAreOfText }
{}

/// What is printed of a run is read back as items alike, where what its items state is readable: of
/// the lines of their lemmas nothing is asked but that in a term fewer than 2^64 binders stand.
pub fn runs_are_read_back()
    ensures { RunsAreReadBack }
{}
