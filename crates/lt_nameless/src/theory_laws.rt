//! Laws of items and valid plain theories. Each function does nothing: its contract is the law.
ghost use Rattle.std.specs.Prelude.{◌≡◌, ◌↔◌, List, Some, None};
ghost use Rattle.lt_definitions.specs.Types.{Chars, found};
ghost use Rattle.lt_definitions.specs.Terms.{TermTree};
ghost use Rattle.lt_nameless.specs.Booleans.{IsSoundSignature};
ghost use Rattle.lt_definitions.specs.Items.{Context, Item, empty, context_of};
ghost use Rattle.lt_definitions.specs.Theory.{refusal, AreValid, IsPlainTheory, checked};
ghost use Rattle.lt_definitions.specs.Extensions.{IsExtension, AreExtensions, IsStatement};

/// An item is refused for no reason exactly where it is a valid extension: the ordered tests are no weaker and no stronger.
pub fn accepted_is_valid()
    ensures { (ctx : Context) (item : Item) → (refusal ctx item ≡ None) ↔ IsExtension ctx item }
{}

/// Items are valid exactly where they are extensions one after another.
pub fn valid_is_extending()
    ensures { (ctx : Context) (items : List Item) → AreValid ctx items ↔ AreExtensions ctx items }
{}

/// A list of items is valid exactly where none is refused.
pub fn validity_is_computed()
    ensures { (ctx : Context) (items : List Item) → AreValid ctx items ↔ (checked ctx items ≡ (items, None)) }
{}

/// Each named statement of a valid theory is closed and boolean, those of definitions and typedefs too.
pub fn statements_are_boolean()
    ensures { (items : List Item) → IsPlainTheory items → (l : Chars) (p : TermTree)
        → found l (context_of empty items).statements ≡ Some p → IsStatement (context_of empty items) p }
{}

/// The signature of a valid theory has the built-in types and constants, and no declared type has a fault.
pub fn signatures_are_sound()
    ensures { (items : List Item) → IsPlainTheory items → IsSoundSignature (context_of empty items).signature }
{}
