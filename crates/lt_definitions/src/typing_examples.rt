//! Examples of types, and of the types and first faults of terms. Each clause is one of them.
ghost use Rattle.std.specs.Prelude.{◌≡◌, true, false, [], ◌∷◌, ◌++◌, Some, None, Ok, Err, codes};
ghost use Rattle.lt_definitions.specs.Types.{bool, fun, type_variables, type_instance, Matches};
ghost use Rattle.lt_definitions.specs.Terms.{term_variables, is_closed, term_nodes};
ghost use Rattle.lt_definitions.specs.Typing.{Signature, built_in, type_fault, typed, unknown_type, arity, unknown_const, type_args, unbound, mismatch};
ghost use Rattle.lt_definitions.specs.Samples.{tyvar, type_of_args, nat, free, bound, con, con_at, app, lambda};

/// Type variables come in order of first appearance, and a substitution replaces all of them at once.
pub fn type_variables_and_substitution()
    ensures first_appearance { type_variables (fun (tyvar "b") (fun (tyvar "a") (tyvar "b"))) ≡ codes "b" ∷ codes "a" ∷ [] }
    ensures at_once { type_instance ((codes "a", tyvar "b") ∷ (codes "b", tyvar "a") ∷ []) (fun (tyvar "a") (tyvar "b")) ≡ fun (tyvar "b") (tyvar "a") }
    ensures others_stay { type_instance ((codes "a", bool) ∷ []) (fun (tyvar "a") (tyvar "c")) ≡ fun bool (tyvar "c") }
{}

/// The map of an instance has the pattern's variables in order of first appearance.
pub fn instance_of_a_pattern()
    ensures matches { Matches (fun (tyvar "b") (fun (tyvar "a") (tyvar "b"))) ((codes "b", bool) ∷ (codes "a", nat) ∷ []) (fun bool (fun nat bool)) }
{}

/// A free variable has its own type, a bound name that of its innermost binder, a constant its declared type at its type arguments.
pub fn types_of_terms()
    ensures free_variable { typed built_in [] (free "x" bool) ≡ Ok bool }
    ensures equality { typed built_in [] (con_at "eq" (tyvar "b" ∷ [])) ≡ Ok (fun (tyvar "b") (fun (tyvar "b") bool)) }
    ensures implication { typed built_in [] (con "imp") ≡ Ok (fun bool (fun bool bool)) }
    ensures quantifier { typed built_in [] (con_at "all" (tyvar "b" ∷ [])) ≡ Ok (fun (fun (tyvar "b") bool) bool) }
    ensures choice { typed built_in [] (con_at "eps" (tyvar "b" ∷ [])) ≡ Ok (fun (fun (tyvar "b") bool) (tyvar "b")) }
    ensures arguments_by_first_appearance { let two : Signature = record built_in { consts = (codes "k", fun (tyvar "b") (tyvar "a")) ∷ [] } in
        typed two [] (con_at "k" (bool ∷ tyvar "c" ∷ [])) ≡ Ok (fun bool (tyvar "c")) }
    ensures application { typed built_in [] (app (con "imp") (free "x" bool)) ≡ Ok (fun bool bool) }
    ensures abstraction { typed built_in [] (lambda "x" bool (bound "x")) ≡ Ok (fun bool bool) }
    ensures innermost_binder { typed built_in [] (lambda "x" bool (lambda "x" (tyvar "a") (bound "x"))) ≡ Ok (fun bool (fun (tyvar "a") (tyvar "a"))) }
{}

/// The two faults of a type, each once.
pub fn faults_of_types()
    ensures unknown_type { type_fault built_in nat ≡ Some (unknown_type (codes "nat")) }
    ensures arity { type_fault built_in (type_of_args "bool" (tyvar "a" ∷ [])) ≡ Some (arity (codes "bool")) }
    ensures none { type_fault built_in (fun (tyvar "a") bool) ≡ None }
{}

/// A constructor is looked at before its arguments, and these from the left.
pub fn order_of_type_faults()
    ensures constructor_before_arguments { type_fault built_in (type_of_args "bool" (nat ∷ [])) ≡ Some (arity (codes "bool")) }
    ensures unknown_before_arity { type_fault built_in (type_of_args "list" []) ≡ Some (unknown_type (codes "list")) }
    ensures from_the_left { type_fault built_in (fun nat (type_of_args "list" [])) ≡ Some (unknown_type (codes "nat")) }
{}

/// The faults of a term, each once.
pub fn faults_of_terms()
    ensures unknown_type { typed built_in [] (free "x" nat) ≡ Err (unknown_type (codes "nat")) }
    ensures arity { typed built_in [] (lambda "x" (type_of_args "fun" []) (bound "x")) ≡ Err (arity (codes "fun")) }
    ensures unknown_const { typed built_in [] (con "k") ≡ Err (unknown_const (codes "k")) }
    ensures type_args_wanting { typed built_in [] (con "eq") ≡ Err (type_args (codes "eq")) }
    ensures type_args_beyond { typed built_in [] (con_at "imp" (bool ∷ [])) ≡ Err (type_args (codes "imp")) }
    ensures unbound { typed built_in [] (bound "x") ≡ Err (unbound (codes "x")) }
    ensures mismatch_of_argument { typed built_in [] (app (con "imp") (lambda "x" bool (bound "x"))) ≡ Err (mismatch (fun bool (fun bool bool)) (fun bool bool)) }
    ensures mismatch_of_no_function { typed built_in [] (app (free "x" bool) (free "y" bool)) ≡ Err (mismatch bool bool) }
{}

/// The first fault is the first in the text: a function before its argument, both before their application.
pub fn order_of_term_faults()
    ensures function_before_argument { typed built_in [] (app (con "k") (bound "x")) ≡ Err (unknown_const (codes "k")) }
    ensures argument_before_application { typed built_in [] (app (free "x" bool) (bound "y")) ≡ Err (unbound (codes "y")) }
    ensures binder_before_body { typed built_in [] (lambda "x" nat (con "k")) ≡ Err (unknown_type (codes "nat")) }
    ensures constant_before_its_types { typed built_in [] (con_at "k" (nat ∷ [])) ≡ Err (unknown_const (codes "k")) }
    ensures count_before_types { typed built_in [] (con_at "eq" (nat ∷ bool ∷ [])) ≡ Err (type_args (codes "eq")) }
    ensures types_last { typed built_in [] (con_at "eq" (nat ∷ [])) ≡ Err (unknown_type (codes "nat")) }
{}

/// The type variables of a term come in the order of its text: a function before its argument, a binder's type before the body.
pub fn type_variables_of_terms()
    ensures function_first { term_variables (app (con_at "k" (tyvar "b" ∷ [])) (con_at "k" (tyvar "a" ∷ tyvar "b" ∷ []))) ≡ codes "b" ∷ codes "a" ∷ [] }
    ensures binder_first { term_variables (lambda "x" (tyvar "b") (free "y" (tyvar "a"))) ≡ codes "b" ∷ codes "a" ∷ [] }
{}

/// A term is closed where it has no free variable; bound names and type variables don't count.
pub fn closed_terms()
    ensures free_variable { is_closed (free "x" bool) ≡ false }
    ensures in_function { is_closed (app (free "x" bool) (con "k")) ≡ false }
    ensures in_argument { is_closed (app (con "k") (free "x" bool)) ≡ false }
    ensures in_body { is_closed (lambda "x" bool (free "x" bool)) ≡ false }
    ensures closed { is_closed (lambda "x" (tyvar "a") (app (con "k") (bound "x"))) ≡ true }
{}

/// The nodes of a term are its own and those of the types in it.
pub fn nodes_of_terms()
    ensures constant { term_nodes (con_at "eq" (nat ∷ [])) ≡ 2 }
    ensures abstraction { term_nodes (lambda "x" nat (bound "x")) ≡ 3 }
{}
