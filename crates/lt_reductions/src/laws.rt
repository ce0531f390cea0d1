//! Laws of reduction over indices. Each function does nothing: its contract is the law.
ghost use Rattle.std.specs.Prelude.{◌≡◌, ℕ, [], Some, Ok, Err};
ghost use Rattle.lt_definitions.specs.Types.{TypeTree};
ghost use Rattle.lt_definitions.specs.Terms.{TermTree};
ghost use Rattle.lt_definitions.specs.Typing.{Signature, HasType};
ghost use Rattle.lt_nameless.specs.Nameless.{Nameless, nameless};
ghost use Rattle.lt_transport_definitions.specs.Reduction.{Steps, IsNormalForm, IsNormLimit};
ghost use Rattle.lt_reductions.specs.Reducts.{reduct, normal_form_of};

/// A step of a typed term is the step of its nameless form.
pub fn steps_are_reducts()
    ensures { (sig : Signature) (t u : TermTree) (ty : TypeTree) → HasType sig [] t ty
        → Steps t u → reduct (nameless [] t) ≡ Some (nameless [] u) }
{}

/// What the limits make of a typed term's nameless form is what they make of the term: its normal form, or the first step at which
/// one is passed.
pub fn limits_are_those_of_steps()
    ensures normal { (sig : Signature) (t : TermTree) (ty : TypeTree) → HasType sig [] t ty
        → (m : Nameless) → normal_form_of (nameless [] t) ≡ Ok m
        → (u : TermTree) × (nameless [] u ≡ m) × IsNormalForm t u }
    ensures limit { (sig : Signature) (t : TermTree) (ty : TypeTree) → HasType sig [] t ty
        → (k : ℕ) → normal_form_of (nameless [] t) ≡ Err k → IsNormLimit t k }
{}
