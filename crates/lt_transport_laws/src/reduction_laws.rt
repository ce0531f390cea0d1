//! Laws of reduction. Each function does nothing: its contract is the law.
ghost use Rattle.std.specs.Prelude.{◌≡◌, ℕ, [], true};
ghost use Rattle.lt_definitions.specs.Terms.{TermTree, HasNoLooseNames};
ghost use Rattle.lt_definitions.specs.Alpha.{IsAlphaEqual};
ghost use Rattle.lt_transport_definitions.specs.Reduction.{Steps, has_redex, IsNormalForm, IsNormLimit, as_printed};

/// Alpha-equal terms take alpha-equal steps; what takes a step has a redex.
pub fn steps_are_one()
    ensures one { (s t u w : TermTree) → Steps s u → Steps t w → IsAlphaEqual s t
        → HasNoLooseNames s → IsAlphaEqual u w }
    ensures redex { (s u : TermTree) → Steps s u → has_redex s ≡ true }
{}

/// A term has at most one normal form, or else at most one limit.
pub fn normal_forms_are_one()
    ensures normal { (t u w : TermTree) → HasNoLooseNames t → IsNormalForm t u → IsNormalForm t w
        → IsAlphaEqual u w }
    ensures limit { (t : TermTree) (j k : ℕ) → IsNormLimit t j → IsNormLimit t k → j ≡ k }
    ensures either { (t u : TermTree) (k : ℕ) → HasNoLooseNames t → IsNormalForm t u
        → IsNormLimit t k → ⊥ }
{}

/// Alpha-equal terms are one term where binders are named as they print.
pub fn printed_names_are_one()
    ensures { (s t : TermTree) → IsAlphaEqual s t → as_printed [] s ≡ as_printed [] t }
{}
