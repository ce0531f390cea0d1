//! Laws of what a text goes on with: that no list of lexemes does so that no bytes spell. Each
//! function does nothing: its contract is the law.
ghost use Rattle.std.specs.Prelude.{◌<◌, ◌^◌, ◌++◌, List, ℕ};
ghost use Rattle.lt_texts.specs.Commands.{Command};
ghost use Rattle.lt_texts.specs.Forms.{Form, HasCommands};
ghost use Rattle.lt_texts.specs.Lexemes.{Lexeme};
ghost use Rattle.lt_texts.specs.Named.{IsName};
ghost use Rattle.lt_texts.specs.Reading.{Reads, IsRead};
ghost use Rattle.lt_texts.specs.Texts.{Left, left_of};
ghost use Rattle.lt_texts.specs.WrongPlaces.{IsWhole, IsViable, BeginsWithType, BeginsWithTerm};

/// Where a text of a form goes on with lexemes that were read, one of bytes does.
pub fn what_goes_on_has_bytes()
    ensures { (f : Form) (text : List ℕ) (ws : List Lexeme) (at : Left)
        → IsName f.word × (f.number < 2 ^ 32)
        → Reads (left_of text) ws at → IsViable (IsWhole f) ws
        → (longer : List ℕ) × (more : List Lexeme) × IsRead longer (ws ++ more)
        × (cs : List Command) × HasCommands f longer cs }
{}

/// So it is of a type and of a term.
pub fn what_goes_on_alone_has_bytes()
    ensures types { (text : List ℕ) (ws : List Lexeme) (at : Left)
        → Reads (left_of text) ws at → IsViable BeginsWithType ws
        → (longer : List ℕ) × (more : List Lexeme) × IsRead longer (ws ++ more)
        × BeginsWithType (ws ++ more) }
    ensures terms { (text : List ℕ) (ws : List Lexeme) (at : Left)
        → Reads (left_of text) ws at → IsViable BeginsWithTerm ws
        → (longer : List ℕ) × (more : List Lexeme) × IsRead longer (ws ++ more)
        × BeginsWithTerm (ws ++ more) }
{}
