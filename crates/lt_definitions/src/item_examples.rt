//! Examples of items: what is accepted, each refusal of each kind of item, and their order.
//! The theory `numbers` has the type nat, the constants z, P and Q, and the axiom `Pz : P z`.
ghost use Rattle.std.specs.Prelude.{◌≡◌, [], ◌∷◌, ◌++◌, Some, None, codes};
ghost use Rattle.lt_definitions.specs.Types.{bool, fun, found};
ghost use Rattle.lt_definitions.specs.Terms.{equation, implies, for_all};
ghost use Rattle.lt_definitions.specs.Typing.{unknown_type, arity, unknown_const, unbound, mismatch};
ghost use Rattle.lt_definitions.specs.Rules.{Sequent, by_assume, by_refl, by_mp, by_impI, by_allI, by_thm, by_tinst};
ghost use Rattle.lt_definitions.specs.declared.reason.Reason.TheVariants.{VariableInHypothesis, UnknownLabel};
ghost use Rattle.lt_definitions.specs.Items.{type_item, const_item, axiom_item, def_item, typedef_item, lemma_item, empty, with_item};
ghost use Rattle.lt_definitions.specs.Theory.{refusal, checked, at_fault, not_boolean, unknown_statement, duplicate, open_term, loose_type_var, typedef_shape, in_line, bad_line, not_proved};
ghost use Rattle.lt_definitions.specs.Samples.{tyvar, type_of_args, nat, free, bound, con, con_at, app, lambda, all_equal, p, q, numbers, over_numbers, typedef_t, implication, over_implication};

/// `type N k`: the name has to be new among types.
pub fn declared_types()
    ensures accepted { refusal over_numbers (type_item (codes "z") 2) ≡ None }
    ensures duplicate { refusal over_numbers (type_item (codes "nat") 2) ≡ Some (duplicate (codes "nat")) }
    ensures built_in { refusal empty (type_item (codes "fun") 2) ≡ Some (duplicate (codes "fun")) }
{}

/// `const N : T`: the type is looked at before the name.
pub fn declared_constants()
    ensures accepted { refusal over_numbers (const_item (codes "nat") (fun nat (tyvar "a"))) ≡ None }
    ensures fault { refusal empty (const_item (codes "c") nat) ≡ Some (at_fault (unknown_type (codes "nat"))) }
    ensures duplicate { refusal over_numbers (const_item (codes "z") nat) ≡ Some (duplicate (codes "z")) }
    ensures fault_before_duplicate { refusal empty (const_item (codes "eq") nat) ≡ Some (at_fault (unknown_type (codes "nat"))) }
{}

/// `axiom N : t`: a fault, a type that isn't bool, a label that is there, then a free variable.
pub fn axioms()
    ensures accepted { refusal over_numbers (axiom_item (codes "all") (all_equal (tyvar "a"))) ≡ None }
    ensures fault { refusal empty (axiom_item (codes "a") p) ≡ Some (at_fault (unknown_const (codes "p"))) }
    ensures not_boolean { refusal over_numbers (axiom_item (codes "a") (con "P")) ≡ Some (not_boolean (fun nat bool)) }
    ensures duplicate { refusal over_numbers (axiom_item (codes "Pz") (all_equal nat)) ≡ Some (duplicate (codes "Pz")) }
    ensures open_term { refusal over_numbers (axiom_item (codes "a") (free "x" bool)) ≡ Some open_term }
    ensures duplicate_before_open { refusal over_numbers (axiom_item (codes "Pz") (free "x" bool)) ≡ Some (duplicate (codes "Pz")) }
    ensures type_before_duplicate { refusal over_numbers (axiom_item (codes "Pz") (con "P")) ≡ Some (not_boolean (fun nat bool)) }
{}

/// `def N : T := t`: each refusal once.
pub fn definitions()
    ensures accepted { refusal over_numbers (def_item (codes "n") nat (con "z")) ≡ None }
    ensures fault_of_type { refusal empty (def_item (codes "n") nat (con "z")) ≡ Some (at_fault (unknown_type (codes "nat"))) }
    ensures fault_of_body { refusal over_numbers (def_item (codes "n") nat (con "o")) ≡ Some (at_fault (unknown_const (codes "o"))) }
    ensures duplicate_constant { refusal over_numbers (def_item (codes "z") nat (con "z")) ≡ Some (duplicate (codes "z")) }
    ensures duplicate_label { refusal (with_item over_numbers (axiom_item (codes "n_def") (all_equal nat))) (def_item (codes "n") nat (con "z")) ≡ Some (duplicate (codes "n_def")) }
    ensures mismatch { refusal over_numbers (def_item (codes "n") nat (con "P")) ≡ Some (at_fault (mismatch nat (fun nat bool))) }
    ensures open_term { refusal over_numbers (def_item (codes "n") nat (free "x" nat)) ≡ Some open_term }
    ensures mismatch_before_open { refusal over_numbers (def_item (codes "n") nat (free "x" bool)) ≡ Some (at_fault (mismatch nat bool)) }
    ensures constant_before_label { refusal (with_item over_numbers (axiom_item (codes "z_def") (all_equal nat))) (def_item (codes "z") nat (con "z")) ≡ Some (duplicate (codes "z")) }
    ensures duplicate_before_mismatch { refusal over_numbers (def_item (codes "z") bool (con "z")) ≡ Some (duplicate (codes "z")) }
    ensures open_before_variables { refusal empty (def_item (codes "k") bool (app (lambda "y" (tyvar "a") (free "x" bool)) (free "z" (tyvar "a")))) ≡ Some open_term }
{}

/// A type variable of the body that the type lacks: the first one is told.
pub fn loose_type_variable_of_a_definition()
    ensures refused { refusal empty (def_item (codes "k") bool (all_equal (tyvar "a"))) ≡ Some (loose_type_var (codes "a")) }
    ensures first { refusal empty (def_item (codes "k") (fun (tyvar "b") bool) (lambda "y" (tyvar "b") (all_equal (fun (tyvar "c") (tyvar "a"))))) ≡ Some (loose_type_var (codes "c")) }
    ensures accepted { refusal empty (def_item (codes "k") (fun (tyvar "a") bool) (lambda "y" (tyvar "a") (all_equal (tyvar "a")))) ≡ None }
{}

/// What a definition states: `k_def : k = \y. ..`, with k at the variables of its type.
pub fn statement_of_a_definition()
    ensures stated { (with_item empty (def_item (codes "k") (fun (tyvar "a") (tyvar "a")) (lambda "y" (tyvar "a") (bound "y")))).statements
        ≡ (codes "k_def", equation (fun (tyvar "a") (tyvar "a")) (con_at "k" (tyvar "a" ∷ [])) (lambda "y" (tyvar "a") (bound "y"))) ∷ [] }
    ensures declared { found (codes "k") (with_item empty (def_item (codes "k") (fun (tyvar "a") (tyvar "a")) (lambda "y" (tyvar "a") (bound "y")))).signature.consts
        ≡ Some (fun (tyvar "a") (tyvar "a")) }
{}

/// `typedef N 'a.. : P by L abs A rep B`: each refusal once; N, B, A and the labels in this order.
pub fn typedefs()
    ensures accepted { refusal over_numbers (typedef_t [] (con "P")) ≡ None }
    ensures accepted_with_parameter { refusal over_numbers (typedef_t (codes "a" ∷ []) (con "P")) ≡ None }
    ensures fault { refusal over_numbers (typedef_t [] (con "R")) ≡ Some (at_fault (unknown_const (codes "R"))) }
    ensures unknown_label { refusal over_numbers (typedef_item (codes "nat") [] (con "P") (codes "Qz") (codes "z") (codes "z")) ≡ Some (unknown_statement (codes "Qz")) }
    ensures duplicate_type { refusal over_numbers (typedef_item (codes "nat") [] (con "P") (codes "Pz") (codes "P") (codes "z")) ≡ Some (duplicate (codes "nat")) }
    ensures duplicate_rep { refusal over_numbers (typedef_item (codes "t") [] (con "P") (codes "Pz") (codes "P") (codes "z")) ≡ Some (duplicate (codes "z")) }
    ensures duplicate_abs { refusal over_numbers (typedef_item (codes "t") [] (con "P") (codes "Pz") (codes "z") (codes "r")) ≡ Some (duplicate (codes "z")) }
    ensures abs_as_rep { refusal over_numbers (typedef_item (codes "t") [] (con "P") (codes "Pz") (codes "f") (codes "f")) ≡ Some (duplicate (codes "f")) }
    ensures duplicate_third_label { refusal (with_item over_numbers (axiom_item (codes "t_abs_inverse") (all_equal nat))) (typedef_t [] (con "P")) ≡ Some (duplicate (codes "t_abs_inverse")) }
    ensures open_term { refusal over_numbers (typedef_t [] (free "x" (fun nat bool))) ≡ Some open_term }
    ensures loose_type_variable { refusal over_numbers (typedef_t (codes "b" ∷ []) (lambda "y" (tyvar "a") (equation (tyvar "a") (bound "y") (bound "y")))) ≡ Some (loose_type_var (codes "a")) }
    ensures fault_before_label { refusal over_numbers (typedef_item (codes "t") [] (con "R") (codes "Qz") (codes "a") (codes "r")) ≡ Some (at_fault (unknown_const (codes "R"))) }
    ensures first_label_first { refusal (with_item (with_item over_numbers (axiom_item (codes "t_rep_inverse") (all_equal nat))) (axiom_item (codes "t_rep") (all_equal nat))) (typedef_t [] (con "P"))
        ≡ Some (duplicate (codes "t_rep")) }
    ensures second_label_second { refusal (with_item (with_item over_numbers (axiom_item (codes "t_abs_inverse") (all_equal nat))) (axiom_item (codes "t_rep_inverse") (all_equal nat))) (typedef_t [] (con "P"))
        ≡ Some (duplicate (codes "t_rep_inverse")) }
    ensures duplicate_before_open { refusal over_numbers (typedef_item (codes "t") [] (free "x" (fun nat bool)) (codes "Pz") (codes "z") (codes "r")) ≡ Some (duplicate (codes "z")) }
    ensures open_before_variables { refusal over_numbers (typedef_t [] (free "x" (fun (tyvar "a") bool))) ≡ Some open_term }
{}

/// The statement has to apply the predicate, up to alpha equality; the parameters are distinct, and the predicate is one.
pub fn typedef_of_another_predicate()
    ensures another { checked empty (numbers ++ typedef_t [] (con "Q") ∷ []) ≡ (numbers, Some typedef_shape) }
    ensures same { checked empty (numbers ++ typedef_t [] (con "P") ∷ []) ≡ (numbers ++ typedef_t [] (con "P") ∷ [], None) }
    ensures up_to_alpha { let by_x = lambda "x" nat (app (con "P") (bound "x")) in
        let by_y = lambda "y" nat (app (con "P") (bound "y")) in
        refusal (with_item over_numbers (axiom_item (codes "Pz'") (app by_x (con "z")))) (typedef_item (codes "t") [] by_y (codes "Pz'") (codes "a") (codes "r")) ≡ None }
    ensures repeated_parameter { refusal over_numbers (typedef_t (codes "a" ∷ codes "a" ∷ []) (con "P")) ≡ Some typedef_shape }
    ensures no_predicate { refusal over_numbers (typedef_t [] (con "z")) ≡ Some typedef_shape }
{}

/// What a typedef declares and states, over the variables of its parameters.
pub fn statements_of_a_typedef()
    ensures stated { let t = type_of_args "t" (tyvar "a" ∷ []) in
        let rep = con_at "rep_t" (tyvar "a" ∷ []) in
        let abs = con_at "abs_t" (tyvar "a" ∷ []) in
        (with_item over_numbers (typedef_t (codes "a" ∷ []) (con "P"))).statements
        ≡ (codes "Pz", app (con "P") (con "z"))
        ∷ (codes "t_rep", for_all t (lambda "a" t (app (con "P") (app rep (bound "a")))))
        ∷ (codes "t_rep_inverse", for_all t (lambda "a" t (equation t (app abs (app rep (bound "a"))) (bound "a"))))
        ∷ (codes "t_abs_inverse", for_all nat (lambda "r" nat (implies (app (con "P") (bound "r")) (equation nat (app rep (app abs (bound "r"))) (bound "r")))))
        ∷ [] }
    ensures type_declared { found (codes "t") (with_item over_numbers (typedef_t (codes "a" ∷ []) (con "P"))).signature.types ≡ Some 1 }
    ensures rep_declared { found (codes "rep_t") (with_item over_numbers (typedef_t (codes "a" ∷ []) (con "P"))).signature.consts ≡ Some (fun (type_of_args "t" (tyvar "a" ∷ [])) nat) }
    ensures abs_declared { found (codes "abs_t") (with_item over_numbers (typedef_t (codes "a" ∷ []) (con "P"))).signature.consts ≡ Some (fun nat (type_of_args "t" (tyvar "a" ∷ []))) }
{}

/// `lemma N : t { lines }`: the statement's own refusals, then the lines, then whether the last one is the statement.
pub fn lemmas()
    ensures accepted { refusal over_implication (lemma_item (codes "l") (implies p q) (by_thm (codes "pq") ∷ by_assume p ∷ by_mp 1 2 ∷ by_impI p 3 ∷ [])) ≡ None }
    ensures up_to_alpha { let by_x = lambda "x" bool (bound "x") in
        let by_y = lambda "y" bool (bound "y") in
        refusal empty (lemma_item (codes "l") (equation (fun bool bool) by_x by_y) (by_refl by_x ∷ [])) ≡ None }
    ensures fault { refusal empty (lemma_item (codes "l") p []) ≡ Some (at_fault (unknown_const (codes "p"))) }
    ensures not_boolean { refusal over_numbers (lemma_item (codes "l") (con "z") []) ≡ Some (not_boolean nat) }
    ensures duplicate { refusal over_implication (lemma_item (codes "pq") (free "x" bool) []) ≡ Some (duplicate (codes "pq")) }
    ensures open_term { refusal over_implication (lemma_item (codes "l") (free "x" bool) (by_assume (bound "y") ∷ [])) ≡ Some open_term }
    ensures fault_in_line { refusal over_implication (lemma_item (codes "l") p (by_assume p ∷ by_assume (bound "y") ∷ [])) ≡ Some (in_line 2 (unbound (codes "y"))) }
    ensures no_line { refusal over_implication (lemma_item (codes "l") p []) ≡ Some (not_proved None) }
{}

/// A hypothesis that is left, or another statement: the last sequent is told.
pub fn lemmas_that_are_not_proved()
    ensures hypothesis_left { checked empty (implication ++ lemma_item (codes "l") q (by_thm (codes "pq") ∷ by_assume p ∷ by_mp 1 2 ∷ []) ∷ [])
        ≡ (implication, Some (not_proved (Some (record { hyps = p ∷ []; concl = q })))) }
    ensures another_statement { refusal over_implication (lemma_item (codes "l") (implies q p) (by_thm (codes "pq") ∷ []))
        ≡ Some (not_proved (Some (record { hyps = []; concl = implies p q }))) }
{}

/// A hypothesis bars a quantifier over its free variable.
pub fn hypothesis_that_bars_a_quantifier()
    ensures barred { refusal empty (lemma_item (codes "l") (for_all bool (lambda "x" bool (bound "x"))) (by_assume (free "x" bool) ∷ by_allI (codes "x") bool 1 ∷ []))
        ≡ Some (bad_line 2 VariableInHypothesis) }
    ensures discharged_first { refusal empty (lemma_item (codes "l") (for_all bool (lambda "x" bool (implies (bound "x") (bound "x"))))
        (by_assume (free "x" bool) ∷ by_impI (free "x" bool) 1 ∷ by_allI (codes "x") bool 2 ∷ [])) ≡ None }
{}

/// A lemma in whose derivation a type is put under a binder, and nothing is captured.
pub fn lemma_without_capture()
    ensures accepted { let constant_y = lambda "z" bool (bound "y") in
        refusal empty (lemma_item (codes "c") (for_all bool (lambda "y" bool (equation (fun bool bool) constant_y constant_y)))
        (by_refl (lambda "x" (tyvar "a") (free "x" bool)) ∷ by_tinst (codes "a") bool 1 ∷ by_allI (codes "x") bool 2 ∷ [])) ≡ None }
{}

/// A lemma may cite what stands before it alone.
pub fn statements_before()
    ensures unknown { refusal empty (lemma_item (codes "l") (all_equal bool) (by_thm (codes "l") ∷ [])) ≡ Some (bad_line 1 UnknownLabel) }
    ensures known { refusal over_numbers (lemma_item (codes "l") (app (con "P") (con "z")) (by_thm (codes "Pz") ∷ [])) ≡ None }
{}
