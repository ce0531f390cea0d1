//! Laws of what stands next in a text, by the longest gap and the longest token. Each function does
//! nothing: its contract is the law.
ghost use Rattle.std.specs.Prelude.{◌≡◌, ◌↔◌, ℕ, List, IsUtf8};
ghost use Rattle.lt_texts.specs.declared.lexical.Lexed.{Lexed};
ghost use Rattle.lt_texts.specs.declared.lexical.Lexed.TheVariants.{BadByte};
ghost use Rattle.lt_texts.specs.Lexemes.{Lexeme, Spans, HasLexemes};
ghost use Rattle.lt_texts.specs.Reading.{Shows, Reads, IsRead};
ghost use Rattle.lt_texts.specs.Texts.{Left, left_of, lexed, IsToken};

/// What stands next is what is found there by going through the text.
pub fn what_is_next_is_found()
    ensures { (s : Left) (l : Lexed) → Shows s l ↔ (lexed s ≡ l) }
{}

/// The lexemes from one place to another are those that are found by going through the text.
pub fn lexemes_are_found()
    ensures { (s : Left) (ws : List Lexeme) (s' : Left) → Reads s ws s' ↔ Spans s ws s' }
{}

/// So are those of a whole text.
pub fn texts_are_found()
    ensures { (text : List ℕ) (ws : List Lexeme) → IsRead text ws ↔ HasLexemes text ws }
{}

/// A text of bytes is one list of lexemes.
pub fn texts_are_read_once()
    ensures { (text : List ℕ) (ws vs : List Lexeme) → IsRead text ws → IsRead text vs → ws ≡ vs }
{}

/// From each place on stand lexemes, up to the text's end, a byte that is no UTF-8, or a character
/// that begins no token.
pub fn each_text_has_lexemes()
    ensures { (s : Left) → (ws : List Lexeme) × (s' : Left) × Reads s ws s'
        × (l : Lexed) × Shows s' l × (IsToken l → ⊥) }
{}

/// In a text that is UTF-8 no byte is wrong.
pub fn utf8_has_no_bad_byte()
    ensures { (text : List ℕ) (ws : List Lexeme) (s : Left) (n : ℕ)
        → IsUtf8 text → Reads (left_of text) ws s → Shows s (BadByte n) → ⊥ }
{}
