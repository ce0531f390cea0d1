//! Examples of alpha equality, of opening, closing, replacing and type instances. Each clause is one of them.
ghost use Rattle.std.specs.Prelude.{◌≡◌, [], ◌∷◌, true, false, codes};
ghost use Rattle.lt_definitions.specs.Types.{TypeMap, bool, fun};
ghost use Rattle.lt_definitions.specs.Terms.{has_loose, term_instance};
ghost use Rattle.lt_definitions.specs.Alpha.{is_alpha, is_same_up_to_types};
ghost use Rattle.lt_definitions.specs.Binding.{opened, replaced, closed_over};
ghost use Rattle.lt_definitions.specs.Samples.{tyvar, free, bound, con_at, app, lambda, all_equal};

/// A binder hides an outer one of its name.
pub fn alpha_with_shadowing()
    ensures inner { is_alpha (lambda "x" bool (lambda "x" bool (bound "x"))) (lambda "x" bool (lambda "y" bool (bound "y"))) ≡ true }
    ensures outer { is_alpha (lambda "x" bool (lambda "x" bool (bound "x"))) (lambda "x" bool (lambda "y" bool (bound "x"))) ≡ false }
    ensures crossed { is_alpha (lambda "x" bool (lambda "y" bool (app (bound "x") (bound "y")))) (lambda "y" bool (lambda "x" bool (app (bound "y") (bound "x")))) ≡ true }
    ensures types_count { is_alpha (lambda "x" bool (bound "x")) (lambda "x" (tyvar "a") (bound "x")) ≡ false }
{}

/// A name without a binder is equal to itself alone, and a free variable is no bound name.
pub fn alpha_with_loose_names()
    ensures same { is_alpha (bound "x") (bound "x") ≡ true }
    ensures other { is_alpha (bound "x") (bound "y") ≡ false }
    ensures beside_a_binder { is_alpha (lambda "x" bool (bound "z")) (lambda "y" bool (bound "z")) ≡ true }
    ensures taken_on_one_side { is_alpha (lambda "x" bool (bound "y")) (lambda "y" bool (bound "y")) ≡ false }
    ensures free_is_not_bound { is_alpha (free "x" bool) (bound "x") ≡ false }
    ensures free_of_two_types { is_alpha (free "x" bool) (free "x" (tyvar "a")) ≡ false }
{}

/// Statements are the same up to type names where type variables stand in the same places.
pub fn same_up_to_type_names()
    ensures renamed { is_same_up_to_types (all_equal (tyvar "a")) (all_equal (tyvar "b")) ≡ true }
    ensures confused { is_same_up_to_types (free "x" (fun (tyvar "a") (tyvar "b"))) (free "x" (fun (tyvar "a") (tyvar "a"))) ≡ false }
    ensures crossed { is_same_up_to_types (free "x" (fun (tyvar "t2") (tyvar "t1"))) (free "x" (fun (tyvar "t1") (tyvar "t2"))) ≡ true }
{}

/// Opening puts the term for the names of this binder alone, and nothing is captured.
pub fn opening()
    ensures body { opened (codes "x") (free "y" bool) (app (bound "x") (bound "z")) ≡ app (free "y" bool) (bound "z") }
    ensures hidden { opened (codes "x") (free "y" bool) (lambda "x" bool (bound "x")) ≡ lambda "x" bool (bound "x") }
    ensures no_capture { opened (codes "x") (free "y" bool) (lambda "y" bool (bound "x")) ≡ lambda "y" bool (free "y" bool) }
{}

/// A free variable is told by its name and its type.
pub fn replacing()
    ensures replaced { replaced (codes "x") bool (free "y" bool) (lambda "y" bool (free "x" bool)) ≡ lambda "y" bool (free "y" bool) }
    ensures other_type { replaced (codes "x") bool (free "y" bool) (free "x" (tyvar "a")) ≡ free "x" (tyvar "a") }
    ensures bound_stays { replaced (codes "x") bool (free "y" bool) (lambda "x" bool (bound "x")) ≡ lambda "x" bool (bound "x") }
{}

/// A closing binds the free variable and no other name.
pub fn closing()
    ensures closed { is_alpha (closed_over (codes "x") bool (free "x" bool)) (lambda "x" bool (bound "x")) ≡ true }
    ensures under_its_name { is_alpha (closed_over (codes "x") bool (lambda "x" bool (app (free "x" bool) (bound "x")))) (lambda "y" bool (lambda "z" bool (app (bound "y") (bound "z")))) ≡ true }
    ensures other_type { is_alpha (closed_over (codes "x") bool (free "x" (tyvar "a"))) (lambda "y" bool (free "x" (tyvar "a"))) ≡ true }
{}

/// A type is put under a binder and captures nothing: the binder and the free variable of its name get one type and stay two.
pub fn type_instance_under_a_binder()
    ensures instance { term_instance ((codes "a", bool) ∷ []) (lambda "x" (tyvar "a") (free "x" bool)) ≡ lambda "x" bool (free "x" bool) }
    ensures not_captured { is_alpha (term_instance ((codes "a", bool) ∷ []) (lambda "x" (tyvar "a") (free "x" bool))) (lambda "x" bool (bound "x")) ≡ false }
    ensures constants_too { term_instance ((codes "a", bool) ∷ []) (con_at "eq" (tyvar "a" ∷ [])) ≡ con_at "eq" (bool ∷ []) }
    ensures free_variables_too { term_instance ((codes "a", bool) ∷ []) (free "x" (tyvar "a")) ≡ free "x" bool }
    ensures at_once { term_instance ((codes "a", tyvar "b") ∷ (codes "b", tyvar "a") ∷ []) (lambda "x" (tyvar "a") (free "y" (tyvar "b"))) ≡ lambda "x" (tyvar "b") (free "y" (tyvar "a")) }
{}

/// A bound name is loose where no binder of it stands around it.
pub fn loose_names()
    ensures loose { has_loose (codes "x") (lambda "y" bool (bound "x")) ≡ true }
    ensures bound_by_its_binder { has_loose (codes "x") (lambda "x" bool (bound "x")) ≡ false }
    ensures free_is_not_loose { has_loose (codes "x") (free "x" bool) ≡ false }
{}
