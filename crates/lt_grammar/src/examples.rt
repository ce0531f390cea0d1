//! Examples of wrong places, and of places in files. Each function does nothing: its contract is
//! the example.
ghost use Rattle.std.specs.Prelude.{◌≡◌, ◌∷◌, ◌++◌, [], Some, codes, encode_utf8_all};
ghost use Rattle.lt_definitions.specs.Items.{lemma_item};
ghost use Rattle.lt_definitions.specs.Rules.{by_thm};
ghost use Rattle.lt_definitions.specs.Samples.{p};
ghost use Rattle.lt_texts.specs.CommandPlaces.{NextPlaced};
ghost use Rattle.lt_texts.specs.Commands.{item_command};
ghost use Rattle.lt_texts.specs.Files.{joined_text, in_file, printed_place};
ghost use Rattle.lt_texts.specs.Forms.{plain_text};
ghost use Rattle.lt_texts.specs.Texts.{left_of};
ghost use Rattle.lt_texts.specs.WrongPlaces.{bad_header, bad_command, bad_syntax, bad_byte, bad_char, IsFirstWrong, TermFailsAt};

/// A word that begins no item: `law` is a command of theory texts alone.
pub fn wrong_command()
    ensures { IsFirstWrong plain_text (codes "plain 1; law a b;") (bad_command 9) }
{}

/// A type where a colon is wanted.
pub fn wrong_token()
    ensures { IsFirstWrong plain_text (codes "plain 1; const p bool;") (bad_syntax 17) }
{}

/// The text's end within a command.
pub fn wrong_end()
    ensures { IsFirstWrong plain_text (codes "plain 1; const p") (bad_syntax 16) }
{}

/// Another number in the header, and in one that stands again.
pub fn wrong_header()
    ensures first { IsFirstWrong plain_text (codes "plain 2;") (bad_header 6) }
    ensures again { IsFirstWrong plain_text (codes "plain 1; plain 2;") (bad_header 15) }
{}

/// A character that begins no token.
pub fn wrong_character()
    ensures { IsFirstWrong plain_text (codes "plain 1; @") (bad_char 9) }
{}

/// A byte that is no UTF-8, within a comment.
pub fn wrong_byte()
    ensures { IsFirstWrong plain_text (codes "plain 1; #" ++ 255 ∷ []) (bad_byte 10) }
{}

/// A term alone is read as far as it goes: behind `[` its type arguments are wanted.
pub fn wrong_term()
    ensures { TermFailsAt (left_of (codes "f [")) (bad_syntax 3) }
{}

/// Two files whose joint lies within a command: places in the second begin anew, and the line feed
/// that is joined is the first one's end.
pub fn places_in_two_files()
    ensures joined { joined_text (record { name = codes "a.lt"; bytes = codes "plain 1;\nconst p" }
        ∷ record { name = codes "b.lt"; bytes = codes ": bool;\n law c;" } ∷ [])
        ≡ codes "plain 1;\nconst p\n: bool;\n law c;\n" }
    ensures second { in_file (record { name = codes "a.lt"; bytes = codes "plain 1;\nconst p" }
        ∷ record { name = codes "b.lt"; bytes = codes ": bool;\n law c;" } ∷ []) 26
        ≡ Some (record { name = codes "b.lt"; before = codes ": bool;\n " }) }
    ensures printed { printed_place (record { name = codes "b.lt"; before = codes ": bool;\n " })
        ≡ codes "b.lt:2:2" }
    ensures joint { in_file (record { name = codes "a.lt"; bytes = codes "plain 1;\nconst p" }
        ∷ record { name = codes "b.lt"; bytes = codes ": bool;\n law c;" } ∷ []) 16
        ≡ Some (record { name = codes "a.lt"; before = codes "plain 1;\nconst p" }) }
    ensures begin { in_file (record { name = codes "a.lt"; bytes = codes "plain 1;\nconst p" }
        ∷ record { name = codes "b.lt"; bytes = codes ": bool;\n law c;" } ∷ []) 17
        ≡ Some (record { name = codes "b.lt"; before = [] }) }
    ensures first { printed_place (record { name = codes "b.lt"; before = [] })
        ≡ codes "b.lt:1:1" }
{}

/// The text's end is the place behind the last file's last byte, and columns count characters: the
/// name `α` has two bytes.
pub fn places_at_the_end()
    ensures end { in_file (record { name = codes "a.lt"; bytes = codes "plain 1;" } ∷ []) 9
        ≡ Some (record { name = codes "a.lt"; before = codes "plain 1;" }) }
    ensures printed { printed_place (record { name = codes "a.lt"; before = codes "plain 1;" })
        ≡ codes "a.lt:1:9" }
    ensures bytes { encode_utf8_all (945 ∷ []) ≡ 206 ∷ 177 ∷ [] }
    ensures column { printed_place (record { name = codes "a.lt"; before = 10 ∷ 206 ∷ 177 ∷ [] })
        ≡ codes "a.lt:2:2" }
{}

/// A lemma's place is that of its word, and a line's that of the line's word.
pub fn places_of_a_lemma()
    ensures { NextPlaced plain_text (record {
      source = codes "plain 1;\nlemma l : p {\n  thm a;\n};";
      ahead = codes "\nlemma l : p {\n  thm a;\n};";
    })
        (item_command (lemma_item (codes "l") p (by_thm (codes "a") ∷ []))) 9 (25 ∷ []) 34
        (record { source = codes "plain 1;\nlemma l : p {\n  thm a;\n};"; ahead = [] }) }
{}
