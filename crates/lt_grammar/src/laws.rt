//! Laws of the grammar. Each function does nothing: its contract is the law.
ghost use Rattle.std.specs.Prelude.{◌≡◌, ◌⊎◌, ◌++◌, ◌∷◌, [], List, ℕ, true, map, encode_utf8_all};
ghost use Rattle.lt_definitions.specs.Alpha.{IsAlphaEqual};
ghost use Rattle.lt_definitions.specs.Items.{Item};
ghost use Rattle.lt_definitions.specs.Printing.{words, printed_type, printed_term, printed_rule, printed_head, report};
ghost use Rattle.lt_definitions.specs.Rules.{Rule};
ghost use Rattle.lt_definitions.specs.Terms.{TermTree};
ghost use Rattle.lt_definitions.specs.Types.{Chars, TypeTree};
ghost use Rattle.lt_texts.specs.CommandPlaces.{NextPlaced};
ghost use Rattle.lt_texts.specs.Commands.{Command};
ghost use Rattle.lt_texts.specs.Forms.{Form, without_header, header_text, IsText, HasCommands, HasPlainItems};
ghost use Rattle.lt_texts.specs.Lexemes.{Lexeme};
ghost use Rattle.lt_texts.specs.Named.{IsTypeNamed, IsReadable, AreReadableItems, AreAlikeItems};
ghost use Rattle.lt_texts.specs.Pieces.{rule_text, head_text, printed_piece};
ghost use Rattle.lt_texts.specs.Reading.{Shows, Reads, IsRead};
ghost use Rattle.lt_texts.specs.Spelling.{stops};
ghost use Rattle.lt_texts.specs.Texts.{Left, left_of};
ghost use Rattle.lt_texts.specs.WrongPlaces.{Wrong, IsClear, Stands, Begins, NextCommand, AtEnd, FailsAt, HeaderFailsAt, IsFirstWrong, IsTypeAt, IsTermAt, TypeFailsAt, TermFailsAt};
ghost use Rattle.lt_texts.specs.Writing.{TermText, term_of_text, type_lexemes, term_lexemes};
ghost use Rattle.lt_texts.specs.declared.lexical.Lexed.TheVariants.{End};
ghost use Rattle.lt_texts.specs.declared.lexical.TokenKind.TheVariants.{Name};

/// A list of lexemes is the text of one list of commands.
pub fn one_writing()
    ensures { (f : Form) (ws : List Lexeme) (cs ds : List Command)
        → IsText f ws cs → IsText f ws ds → cs ≡ ds }
{}

/// A text of bytes has one reading.
pub fn one_reading()
    ensures { (f : Form) (text : List ℕ) (cs ds : List Command)
        → HasCommands f text cs → HasCommands f text ds → cs ≡ ds }
{}

/// A text of bytes is a plain text of one list of items.
pub fn one_plain_reading()
    ensures { (text : List ℕ) (items others : List Item)
        → HasPlainItems text items → HasPlainItems text others → items ≡ others }
{}

/// Lexemes begin with one type, whatever is behind it.
pub fn one_type()
    ensures { (s u : TypeTree) (x y : List Lexeme)
        → type_lexemes s x ≡ type_lexemes u y → (s ≡ u) × (x ≡ y) }
{}

/// Lexemes begin with one term, where what is behind it goes on none.
pub fn one_term()
    ensures { (s u : TermText) (x y : List Lexeme)
        → IsClear x → IsClear y → term_lexemes s x ≡ term_lexemes u y → (s ≡ u) × (x ≡ y) }
{}

/// A text begins with its header, and has no command there.
pub fn header_begins()
    ensures { (f : Form) (text : List ℕ) (s : Left)
        → Stands (left_of text) (header_text f) s → Begins f text [] s }
{}

/// Behind the next command a text has that command more.
pub fn command_goes_on()
    ensures { (f : Form) (text : List ℕ) (cs : List Command) (s s' : Left) (c : Command)
        → Begins f text cs s → NextCommand f s c s' → Begins f text (cs ++ c ∷ []) s' }
{}

/// At its end a text has the commands that were read.
pub fn end_has_commands()
    ensures { (f : Form) (text : List ℕ) (cs : List Command) (s : Left)
        → Begins f text cs s → AtEnd f s → HasCommands f text cs }
{}

/// Up to a place a text has one list of commands.
pub fn one_beginning()
    ensures { (f : Form) (text : List ℕ) (cs ds : List Command) (s : Left)
        → Begins f text cs s → Begins f text ds s → cs ≡ ds }
{}

/// At a place one command stands, and it ends at one place.
pub fn one_command()
    ensures { (f : Form) (s : Left) (c : Command) (s' : Left) (d : Command) (z : Left)
        → NextCommand f s c s' → NextCommand f s d z → (c ≡ d) × (s' ≡ z) }
{}

/// Where a command stands is not the end.
pub fn no_command_at_the_end()
    ensures { (f : Form) (s : Left) (c : Command) (s' : Left)
        → NextCommand f s c s' → AtEnd f s → ⊥ }
{}

/// Where a fault stands no command does.
pub fn no_fault_at_a_command()
    ensures { (f : Form) (s : Left) (e : Wrong) (c : Command) (s' : Left)
        → FailsAt f s e → NextCommand f s c s' → ⊥ }
{}

/// Where a fault stands is not the end.
pub fn no_fault_at_the_end()
    ensures { (f : Form) (s : Left) (e : Wrong) → FailsAt f s e → AtEnd f s → ⊥ }
{}

/// At a place one fault stands, with one place and one name.
pub fn one_fault()
    ensures { (f : Form) (s : Left) (e d : Wrong) → FailsAt f s e → FailsAt f s d → e ≡ d }
{}

/// A fault behind the commands that were read is the first wrong place of the whole text.
pub fn fault_is_first_wrong()
    ensures { (f : Form) (text : List ℕ) (cs : List Command) (s : Left) (e : Wrong)
        → Begins f text cs s → FailsAt f s e → IsFirstWrong f text e }
{}

/// So is a fault in its header.
pub fn header_fault_is_first_wrong()
    ensures { (f : Form) (text : List ℕ) (e : Wrong)
        → HeaderFailsAt f (left_of text) e → IsFirstWrong f text e }
{}

/// A text has one first wrong place, with one name.
pub fn one_first_wrong()
    ensures { (f : Form) (text : List ℕ) (e d : Wrong)
        → IsFirstWrong f text e → IsFirstWrong f text d → e ≡ d }
{}

/// A text with a wrong place has no reading.
pub fn wrong_text_is_no_text()
    ensures { (f : Form) (text : List ℕ) (e : Wrong) (cs : List Command)
        → IsFirstWrong f text e → HasCommands f text cs → ⊥ }
{}

/// At each place where a command may begin stands a command, the text's end or a fault.
pub fn each_place()
    ensures { (f : Form) (s : Left) → ((c : Command) × (s' : Left) × NextCommand f s c s')
        ⊎ AtEnd f s ⊎ ((e : Wrong) × FailsAt f s e) }
{}

/// A command that stands next has a place, as has each line of a lemma.
pub fn commands_have_places()
    ensures { (f : Form) (s : Left) (c : Command) (s' : Left) → NextCommand f s c s'
        → (from : ℕ) × (lines : List ℕ) × (to : ℕ) × NextPlaced f s c from lines to s' }
{}

/// What stands with places stands.
pub fn placed_commands_are_commands()
    ensures { (f : Form) (s : Left) (c : Command) (from : ℕ) (lines : List ℕ) (to : ℕ) (s' : Left)
        → NextPlaced f s c from lines to s' → NextCommand f s c s' }
{}

/// At a place one command stands, with one place, and with one of each of its lines.
pub fn one_placed_command()
    ensures { (f : Form) (s : Left) (c : Command) (from : ℕ) (lines : List ℕ) (to : ℕ) (a : Left)
        (d : Command) (begin : ℕ) (marks : List ℕ) (end : ℕ) (b : Left)
        → NextPlaced f s c from lines to a → NextPlaced f s d begin marks end b
        → (c ≡ d) × (from ≡ begin) × (lines ≡ marks) × (to ≡ end) × (a ≡ b) }
{}

/// At each place stands a header or a fault in it.
pub fn header_or_fault()
    ensures { (f : Form) (s : Left) → ((s' : Left) × Stands s (header_text f) s')
        ⊎ ((e : Wrong) × HeaderFailsAt f s e) }
{}

/// A header ends at one place.
pub fn one_header()
    ensures { (f : Form) (s a b : Left)
        → Stands s (header_text f) a → Stands s (header_text f) b → a ≡ b }
{}

/// Where a header stands no fault in it does.
pub fn no_fault_at_a_header()
    ensures { (f : Form) (s a : Left) (e : Wrong)
        → Stands s (header_text f) a → HeaderFailsAt f s e → ⊥ }
{}

/// In a header one fault stands, with one place and one name.
pub fn one_header_fault()
    ensures { (f : Form) (s : Left) (e d : Wrong)
        → HeaderFailsAt f s e → HeaderFailsAt f s d → e ≡ d }
{}

/// Where no header was read yet, none is passed over: its word would be empty.
pub fn no_header_without_a_word()
    ensures { (words : List Chars) (s a : Left)
        → Stands s (header_text (without_header words)) a → ⊥ }
{}

/// A text of bytes has a reading or a first wrong place.
pub fn reading_or_wrong_place()
    ensures { (f : Form) (text : List ℕ) → ((cs : List Command) × HasCommands f text cs)
        ⊎ ((e : Wrong) × IsFirstWrong f text e) }
{}

/// At each place stands a type or a fault in it.
pub fn type_or_fault()
    ensures { (s : Left) → ((ty : TypeTree) × (s' : Left) × IsTypeAt s ty s')
        ⊎ ((e : Wrong) × TypeFailsAt s e) }
{}

/// At a place one type stands, and it ends at one place.
pub fn one_type_at()
    ensures { (s : Left) (t u : TypeTree) (a b : Left)
        → IsTypeAt s t a → IsTypeAt s u b → (t ≡ u) × (a ≡ b) }
{}

/// Where a type stands no fault in it does.
pub fn no_fault_at_a_type()
    ensures { (s : Left) (t : TypeTree) (a : Left) (e : Wrong)
        → IsTypeAt s t a → TypeFailsAt s e → ⊥ }
{}

/// In a type one fault stands, with one place and one name.
pub fn one_type_fault()
    ensures { (s : Left) (e d : Wrong) → TypeFailsAt s e → TypeFailsAt s d → e ≡ d }
{}

/// At each place stands a term or a fault in it.
pub fn term_or_fault()
    ensures { (s : Left) → ((t : TermTree) × (s' : Left) × IsTermAt s t s')
        ⊎ ((e : Wrong) × TermFailsAt s e) }
{}

/// At a place one term stands, and it ends at one place.
pub fn one_term_at()
    ensures { (s : Left) (t u : TermTree) (a b : Left)
        → IsTermAt s t a → IsTermAt s u b → (t ≡ u) × (a ≡ b) }
{}

/// Where a term stands no fault in it does.
pub fn no_fault_at_a_term()
    ensures { (s : Left) (t : TermTree) (a : Left) (e : Wrong)
        → IsTermAt s t a → TermFailsAt s e → ⊥ }
{}

/// In a term one fault stands, with one place and one name.
pub fn one_term_fault()
    ensures { (s : Left) (e d : Wrong) → TermFailsAt s e → TermFailsAt s d → e ≡ d }
{}

/// What is printed of a type whose names are names is read as that type.
pub fn printed_types_are_read()
    ensures { (t : TypeTree)
        → IsTypeNamed t → IsRead (encode_utf8_all (printed_type t)) (type_lexemes t []) }
{}

/// What is printed of a term without loose bound names, whose other names are names, is read as an
/// alpha-equal term.
pub fn printed_terms_are_read()
    ensures { (t : TermTree) → IsReadable t
        → (x : TermText) × IsRead (encode_utf8_all (printed_term [] t)) (term_lexemes x [])
        × IsAlphaEqual (term_of_text x) t }
{}

/// So it is within a text, where what is behind it doesn't go on a name.
pub fn printed_terms_are_read_within()
    ensures { (t : TermTree) → IsReadable t → (x : TermText) × IsAlphaEqual (term_of_text x) t
        × ((s : Left) (rest : List ℕ) → s.ahead ≡ printed_term [] t ++ rest → stops Name rest ≡ true
        → Reads s (term_lexemes x []) (record s { ahead = rest })) }
{}

/// What is printed of a type stands alone in its text.
pub fn printed_types_stand_alone()
    ensures { (t : TypeTree) → IsTypeNamed t → (s : Left)
        × IsTypeAt (left_of (encode_utf8_all (printed_type t))) t s × Shows s End }
{}

/// What is printed of a term stands alone in its text, as an alpha-equal term.
pub fn printed_terms_stand_alone()
    ensures { (t : TermTree) → IsReadable t → (u : TermTree) × (s : Left)
        × IsTermAt (left_of (encode_utf8_all (printed_term [] t))) u s × Shows s End
        × IsAlphaEqual u t }
{}

/// What is printed of a line are its pieces, with one space between.
pub fn rules_are_printed_by_pieces()
    ensures { (r : Rule TermTree) → printed_rule r ≡ words (map printed_piece (rule_text r)) }
{}

/// So it is of an item, for a lemma without its lines.
pub fn items_are_printed_by_pieces()
    ensures { (i : Item) → printed_head i ≡ words (map printed_piece (head_text i)) }
{}

/// What is printed of items, for names that are names and numbers below 2^32, is read back as items
/// alike.
pub fn printed_items_are_read()
    ensures { (items : List Item) → AreReadableItems items
        → (others : List Item) × AreAlikeItems others items
        × HasPlainItems (encode_utf8_all (report items)) others }
{}
