//! Laws of types and typing. Each function does nothing: its contract is the law.
ghost use Rattle.std.specs.Prelude.{◌≡◌, ◌↔◌, List, [], ◌∷◌, Ok, None, map};
ghost use Rattle.lt_definitions.specs.Types.{Chars, TypeTree, TypeMap, fun, row, type_instance, Matches};
ghost use Rattle.lt_definitions.specs.Terms.{TermTree, HasNoLooseNames, term_instance};
ghost use Rattle.lt_definitions.specs.Typing.{Signature, type_fault, types_fault, typed, HasType};
ghost use Rattle.lt_definitions.specs.Binding.{opened, replaced, Closes};
ghost use Rattle.lt_nameless.specs.Booleans.{IsSoundSignature};

/// The two typings agree: the function gives a type exactly where the relation holds of it.
pub fn typing_is_a_relation()
    ensures { (sig : Signature) (env : List (Chars × TypeTree)) (t : TermTree) (ty : TypeTree) → (typed sig env t ≡ Ok ty) ↔ HasType sig env t ty }
{}

/// The type of a term has no fault, where no declared type has one.
pub fn types_of_terms_are_sound()
    ensures { (sig : Signature) (t : TermTree) (ty : TypeTree) → IsSoundSignature sig → HasType sig [] t ty → type_fault sig ty ≡ None }
{}

/// A typed term has no loose bound name, so it meets the condition of opening and replacing.
pub fn typed_terms_have_no_loose_names()
    ensures { (sig : Signature) (t : TermTree) (ty : TypeTree) → HasType sig [] t ty → HasNoLooseNames t }
{}

/// An abstraction's body opened by a term of the binder's type keeps its type.
pub fn opening_keeps_types()
    ensures { (sig : Signature) (x : Chars) (u : TypeTree) (by t : TermTree) (ty : TypeTree)
        → HasType sig [] by u → HasType sig ((x, u) ∷ []) t ty → HasType sig [] (opened x by t) ty }
{}

/// A closing is a function from the free variable's type.
pub fn closing_keeps_types()
    ensures { (sig : Signature) (x : Chars) (u : TypeTree) (t c : TermTree) (ty : TypeTree)
        → type_fault sig u ≡ None → HasType sig [] t ty → Closes x u t c → HasType sig [] c (fun u ty) }
{}

/// A term keeps its type where a free variable is replaced by a term of the variable's type.
pub fn replacing_keeps_types()
    ensures { (sig : Signature) (x : Chars) (u : TypeTree) (by t : TermTree) (ty : TypeTree)
        → HasType sig [] by u → HasType sig [] t ty → HasType sig [] (replaced x u by t) ty }
{}

/// A type instance of a term has that instance of its type.
pub fn instances_keep_types()
    ensures { (sig : Signature) (m : TypeMap) (t : TermTree) (ty : TypeTree) → types_fault sig (row (map (λ p. p.1) m)) ≡ None
        → HasType sig [] t ty → HasType sig [] (term_instance m t) (type_instance m ty) }
{}

/// A type is an instance of a pattern by one map at most.
pub fn match_is_one()
    ensures { (pattern : TypeTree) (m k : TypeMap) (ty : TypeTree) → Matches pattern m ty → Matches pattern k ty → m ≡ k }
{}

/// Whatever map makes a type of a pattern, one on the pattern's variables alone does.
pub fn instance_matches()
    ensures { (pattern : TypeTree) (m : TypeMap) → (k : TypeMap) × Matches pattern k (type_instance m pattern) }
{}
