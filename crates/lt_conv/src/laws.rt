//! Laws of what conversions give. Each function does nothing: its contract is the law.
ghost use Rattle.std.specs.Prelude.{◌≡◌, ◌<◌, ◌^◌, ◌↔◌, List, length, true, false, Option};
ghost use Rattle.lt_definitions.specs.Types.{Chars, TypeTree, TypeMap};
ghost use Rattle.lt_nameless.specs.Nameless.{Nameless, nameless_constant, nameless_application, nameless_abstraction};
ghost use Rattle.lt_nameless.specs.NamelessRules.{nameless_instance};
ghost use Rattle.lt_formulas.specs.Shapes.{is_application};
ghost use Rattle.lt_reductions.specs.Reducts.{is_abstraction};
ghost use Rattle.lt_conv.specs.Everywhere.{free_names, new_name, settled, opened_new, closed_new, everywhere};
ghost use Rattle.lt_conv.specs.Walks.{IsFirstNew};
ghost use Rattle.lt_conv.specs.Unfolding.{is_instance};

/// `Everywhere` converts the parts of a term first, the body of an abstraction opened by a new
/// variable and closed again, and then the term that they make, which stays where nothing is given.
pub fn parts_come_first()
    ensures application { (f : Nameless → Option Nameless) (g a : Nameless)
        → everywhere f (nameless_application g a)
        ≡ settled f (nameless_application (everywhere f g) (everywhere f a)) }
    ensures abstraction { (f : Nameless → Option Nameless) (ty : TypeTree) (b : Nameless)
        → everywhere f (nameless_abstraction ty b)
        ≡ settled f (closed_new ty b (everywhere f (opened_new ty b))) }
    ensures leaf { (f : Nameless → Option Nameless) (t : Nameless) → is_application t ≡ false
        → is_abstraction t ≡ false → everywhere f t ≡ settled f t }
{}

/// The new name is vN with the least N such that no free variable has it, in a term of fewer than
/// 2^64 free variables.
pub fn new_names_are_the_least()
    ensures { (t : Nameless) → length (free_names t) < 2 ^ 64
        → IsFirstNew (free_names t) (new_name t) }
{}

/// `Unfold` takes the instances of its constant: the terms that some types make of it.
pub fn instances_are_unfolded()
    ensures { (c : Chars) (ps : List TypeTree) (t : Nameless)
        → (is_instance (nameless_constant c ps) t ≡ true)
        ↔ ((m : TypeMap) × (nameless_instance m (nameless_constant c ps) ≡ t)) }
{}
