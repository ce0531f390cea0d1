//! Laws of alpha equality. Each function does nothing: its contract is the law.
ghost use Rattle.std.specs.Prelude.{◌≡◌, ◌↔◌, [], true};
ghost use Rattle.lt_definitions.specs.Types.{Chars, TypeTree, TypeMap};
ghost use Rattle.lt_definitions.specs.Terms.{TermTree, abstraction, has_free, has_loose, HasNoLooseNames, term_instance};
ghost use Rattle.lt_definitions.specs.Typing.{Signature, typed};
ghost use Rattle.lt_definitions.specs.Alpha.{IsAlphaEqual, is_alpha};
ghost use Rattle.lt_definitions.specs.Binding.{opened, replaced, Closes, closed_over};
ghost use Rattle.lt_nameless.specs.Nameless.{nameless};
ghost use Rattle.lt_definitions.specs.Printing.{printed_term};

/// The test of alpha equality tells the relation.
pub fn alpha_is_tested()
    ensures { (s t : TermTree) → (is_alpha s t ≡ true) ↔ IsAlphaEqual s t }
{}

/// Two terms are alpha-equal exactly where their nameless forms are equal.
pub fn alpha_is_nameless()
    ensures { (s t : TermTree) → IsAlphaEqual s t ↔ (nameless [] s ≡ nameless [] t) }
{}

/// Alpha equality is an equivalence.
pub fn alpha_is_an_equivalence()
    ensures reflexive { (t : TermTree) → IsAlphaEqual t t }
    ensures symmetric { (s t : TermTree) → IsAlphaEqual s t → IsAlphaEqual t s }
    ensures transitive { (r s t : TermTree) → IsAlphaEqual r s → IsAlphaEqual s t → IsAlphaEqual r t }
{}

/// Bodies of alpha-equal abstractions, opened by alpha-equal terms without loose names, are alpha-equal.
pub fn alpha_kept_by_opening()
    ensures { (x y : Chars) (ty u : TypeTree) (b c by also : TermTree) → IsAlphaEqual (abstraction x ty b) (abstraction y u c) → IsAlphaEqual by also
        → HasNoLooseNames by → IsAlphaEqual (opened x by b) (opened y also c) }
{}

/// Closings of alpha-equal terms are alpha-equal.
pub fn alpha_kept_by_closing()
    ensures { (x : Chars) (ty : TypeTree) (s t c d : TermTree) → IsAlphaEqual s t → Closes x ty s c → Closes x ty t d → IsAlphaEqual c d }
{}

/// Alpha-equal terms stay so where a free variable is replaced by alpha-equal terms without loose names.
pub fn alpha_kept_by_replacing()
    ensures { (x : Chars) (ty : TypeTree) (s t by also : TermTree) → IsAlphaEqual s t → IsAlphaEqual by also
        → HasNoLooseNames by → IsAlphaEqual (replaced x ty by s) (replaced x ty also t) }
{}

/// Type instances of alpha-equal terms are alpha-equal.
pub fn alpha_kept_by_type_instances()
    ensures { (m : TypeMap) (s t : TermTree) → IsAlphaEqual s t → IsAlphaEqual (term_instance m s) (term_instance m t) }
{}

/// Alpha-equal terms have one type, or the same first fault.
pub fn alpha_equal_terms_have_one_type()
    ensures { (sig : Signature) (s t : TermTree) → IsAlphaEqual s t → typed sig [] s ≡ typed sig [] t }
{}

/// Alpha-equal terms have the same free variables and the same loose names.
pub fn alpha_equal_terms_have_the_same_names()
    ensures free { (s t : TermTree) (x : Chars) (ty : TypeTree) → IsAlphaEqual s t → has_free x ty s ≡ has_free x ty t }
    ensures loose { (s t : TermTree) (x : Chars) → IsAlphaEqual s t → has_loose x s ≡ has_loose x t }
{}

/// The abstraction to which the rules close a term is a closing.
pub fn closing_is_one()
    ensures { (x : Chars) (ty : TypeTree) (t : TermTree) → Closes x ty t (closed_over x ty t) }
{}

/// Each closing is alpha-equal to that one.
pub fn closings_are_alpha()
    ensures { (x : Chars) (ty : TypeTree) (t c : TermTree) → Closes x ty t c → IsAlphaEqual c (closed_over x ty t) }
{}

/// Alpha-equal terms print alike.
pub fn alpha_prints_alike()
    ensures { (s t : TermTree) → IsAlphaEqual s t → printed_term [] s ≡ printed_term [] t }
{}
