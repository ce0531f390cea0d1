//! Each text has one walk; that of `check` accepts exactly the valid plain theories.
ghost use Rattle.std.specs.Prelude.{◌≡◌, ◌↔◌, ◌≤◌, List, ℕ, length};
ghost use Rattle.lt_definitions.specs.Items.{Item};
ghost use Rattle.lt_definitions.specs.Theory.{Refusal, IsPlainTheory};
ghost use Rattle.lt_texts.specs.Forms.{HasPlainItems};
ghost use Rattle.lt_texts.specs.Walks.{plain_limit};
ghost use Rattle.lt_walks.specs.Walks.{End, accepted};
ghost use Rattle.lt_walks.specs.PlainWalks.{Checks, ChecksText};

/// A text has a walk, where each command adds something or is refused.
pub fn each_text_has_a_walk()
    ensures { (text : List ℕ) → (items : List Item) × (end : End Refusal) × Checks text items end }
{}

/// It has one walk.
pub fn one_walk()
    ensures { (text : List ℕ) (items others : List Item) (end last : End Refusal)
        → Checks text items end → Checks text others last → (items ≡ others) × (end ≡ last) }
{}

/// What a walk accepts is a valid plain theory.
pub fn walks_accept_plain_theories()
    ensures { (text : List ℕ) (items : List Item) (end : End Refusal)
        → Checks text items end → IsPlainTheory items }
{}

/// A walk accepts all exactly where the text is within the limit and is that of a valid plain
/// theory, whose items are those of the walk.
pub fn accepted_texts_are_plain_theories()
    ensures { (text : List ℕ) (items : List Item) → Checks text items accepted
        ↔ ((length text ≤ plain_limit) × HasPlainItems text items × IsPlainTheory items) }
{}

/// The same of a text, however long it is.
pub fn accepted_texts_of_any_length()
    ensures { (text : List ℕ) (items : List Item) → ChecksText text items accepted
        ↔ (HasPlainItems text items × IsPlainTheory items) }
{}

/// However long a text is, it has a walk.
pub fn each_text_of_any_length()
    ensures { (text : List ℕ)
        → (items : List Item) × (end : End Refusal) × ChecksText text items end }
{}

/// However long it is, it has one.
pub fn one_walk_of_any_length()
    ensures { (text : List ℕ) (items others : List Item) (end last : End Refusal)
        → ChecksText text items end → ChecksText text others last → (items ≡ others) × (end ≡ last) }
{}
