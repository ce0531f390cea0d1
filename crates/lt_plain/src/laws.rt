//! What `check` accepts can be printed and read back. The function does nothing: its contract is the
//! law.
ghost use Rattle.std.specs.Prelude.{List, ℕ, encode_utf8_all};
ghost use Rattle.lt_definitions.specs.Items.{Item};
ghost use Rattle.lt_definitions.specs.Printing.{report};
ghost use Rattle.lt_definitions.specs.Theory.{Refusal};
ghost use Rattle.lt_texts.specs.Named.{AreReadableItems, AreAlikeItems};
ghost use Rattle.lt_walks.specs.Walks.{End, accepted};
ghost use Rattle.lt_walks.specs.PlainWalks.{Checks, ChecksText};

/// The items that a walk of `check` accepts have names that are names, numbers below 2^32 and terms
/// without loose bound names. So the walk through what is printed of them, however long it is,
/// accepts all of it, as items that differ in binder names alone.
pub fn accepted_items_are_readable()
    ensures readable { (text : List ℕ) (items : List Item) (end : End Refusal)
        → Checks text items end → AreReadableItems items }
    ensures read { (text : List ℕ) (items : List Item) (end : End Refusal)
        → Checks text items end → (others : List Item) × AreAlikeItems others items
        × ChecksText (encode_utf8_all (report items)) others accepted }
{}
