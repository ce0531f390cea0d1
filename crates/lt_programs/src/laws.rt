//! Laws of derivations of several lines. Each function does nothing: its contract is the law.
ghost use Rattle.std.specs.Prelude.{◌≡◌, ℕ, ◌≤◌, List, length, reverse, map, false, Ok, Some};
ghost use Rattle.lt_definitions.specs.Types.{Chars, TypeTree, type_variable, row};
ghost use Rattle.lt_definitions.specs.Typing.{Signature, with_ok};
ghost use Rattle.lt_nameless.specs.Nameless.{Nameless, NamelessSequent, nameless_application, nameless_free, IsWhole};
ghost use Rattle.lt_nameless.specs.NamelessRules.{nameless_instance, nameless_as_equation, nameless_equation, nameless_eta, nameless_has_free, abstracted_both, linked, turned, IsBooleanNameless};
ghost use Rattle.lt_nameless.specs.Booleans.{IsSoundSignature};
ghost use Rattle.lt_types.specs.TypeVariables.{long_names, longest_name, longest_in};
ghost use Rattle.lt_programs.specs.Programs.{theorem, at_each, put_each, paired};
ghost use Rattle.lt_programs.specs.Openings.{for_alls, filled, HaveTypes};
ghost use Rattle.lt_programs.specs.Connectives.{and_definition, ex_definition, any_type, conjunction_law, left_law, right_law, existence_law, choice_law};
ghost use Rattle.lt_programs.specs.Derivations.{Derives, p_variable, q_variable, and_meaning, and_unfolded, and_introduced, and_projected, ex_meaning, ex_unfolded, ex_introduced, ex_chosen};
ghost use Rattle.lt_programs.specs.Extensionality.{right_contracted, function_of, functions_equal};
ghost use Rattle.lt_programs.specs.TypeLengths.{longest_type_variable};

/// A statement over variables, at terms of their types, is its body with the terms put at once.
pub fn instances_are_filled()
    ensures { (sig : Signature) (tys : List TypeTree) (ts : List Nameless) (b : Nameless)
        → HaveTypes sig ts tys
        → at_each sig ts (theorem (for_alls tys b)) ≡ Ok (theorem (filled (reverse ts) 0 b)) }
{}

/// Types put one after another, through names that are longer than all others, are put at once.
pub fn types_are_put_at_once()
    ensures { (k : ℕ) (names : List Chars) (types : List TypeTree) (p : Nameless)
        → length names ≡ length types → longest_name names ≤ k → longest_in (row types) ≤ k
        → longest_type_variable p ≤ k
        → put_each (paired (long_names k (length names)) types)
        (put_each (paired names (map type_variable (long_names k (length names)))) (theorem p))
        ≡ theorem (nameless_instance (paired names types) p) }
{}

/// Where the definition of `and` is a boolean statement, the laws of conjunction are derived from it.
pub fn conjunctions_are_derived()
    ensures unfolded { (sig : Signature) → IsSoundSignature sig
        → IsBooleanNameless sig and_definition
        → Derives sig and_definition and_unfolded and_meaning }
    ensures introduced { (sig : Signature) → IsSoundSignature sig
        → IsBooleanNameless sig and_definition
        → Derives sig and_meaning and_introduced conjunction_law }
    ensures left { (sig : Signature) → IsSoundSignature sig
        → IsBooleanNameless sig and_definition
        → Derives sig and_meaning (and_projected p_variable) left_law }
    ensures right { (sig : Signature) → IsSoundSignature sig
        → IsBooleanNameless sig and_definition
        → Derives sig and_meaning (and_projected q_variable) right_law }
{}

/// Where the definition of `ex` is a boolean statement, the laws of existence are derived from it.
pub fn existences_are_derived()
    ensures unfolded { (sig : Signature) → IsSoundSignature sig
        → IsBooleanNameless sig ex_definition
        → Derives sig ex_definition ex_unfolded ex_meaning }
    ensures introduced { (sig : Signature) → IsSoundSignature sig
        → IsBooleanNameless sig ex_definition
        → Derives sig ex_meaning ex_introduced (existence_law any_type) }
    ensures chosen { (sig : Signature) → IsSoundSignature sig
        → IsBooleanNameless sig ex_definition
        → Derives sig ex_meaning ex_chosen (choice_law any_type) }
{}

/// Functions are equal where their values at a new variable are: `f x`, where `f` doesn't have the
/// variable, is `f` as a function of it. `abs` and `eta` derive it: a right side is contracted by
/// the equation that `eta` gives, and then the other one, turned round.
pub fn functions_are_equal_by_their_values()
    ensures value { (x : Chars) (ty : TypeTree) (f : Nameless) → IsWhole 0 f
        → nameless_has_free x ty f ≡ false
        → function_of x ty (nameless_application f (nameless_free x ty)) ≡ f }
    ensures contracted { (s : NamelessSequent) (ty u : TypeTree) (l r f : Nameless)
        → nameless_as_equation s.concl ≡ Some (ty, l, r) → nameless_eta r ≡ Some f
        → linked s (theorem (nameless_equation u r f)) ≡ right_contracted s }
    ensures derived { (x : Chars) (ty : TypeTree) (s : NamelessSequent) → functions_equal x ty s
        ≡ with_ok (abstracted_both x ty s) (λ u. with_ok (right_contracted u)
        (λ v. with_ok (turned v) (λ w. with_ok (right_contracted w) turned))) }
{}
