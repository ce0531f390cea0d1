//! Examples of the rules, a function for each: what it gives, up to alpha equality, and each of its reasons once.
//! Lines are numbered from 1; the named statements are `ff : f = f`, `pq : p --> q`, `qp : q --> p`, `fs : all y. f y` and `fx : all f`.
ghost use Rattle.std.specs.Prelude.{◌≡◌, [], ◌∷◌, true, Some, None, codes};
ghost use Rattle.lt_definitions.specs.Types.{bool, fun};
ghost use Rattle.lt_definitions.specs.Terms.{equation, implies, for_all, some_of, falsity};
ghost use Rattle.lt_definitions.specs.Typing.{unbound, unknown_type};
ghost use Rattle.lt_definitions.specs.Rules.{by_assume, by_weaken, by_refl, by_sym, by_trans, by_cong, by_abs, by_beta, by_eta, by_eqmp, by_impI, by_mp, by_allI, by_allE, by_iff, by_inst, by_tinst, by_select, by_ccontr, by_thm};
ghost use Rattle.lt_definitions.specs.declared.reason.Reason.TheVariants.{MissingLine, NotBool, NotEquation, MiddleDiffers, TypeDiffers, VariableInHypothesis, NotRedex, NotImplication, NotForall, UnknownLabel};
ghost use Rattle.lt_definitions.specs.Derivations.{no_step, ill_typed};
ghost use Rattle.lt_definitions.specs.Samples.{tyvar, nat, free, bound, con_at, app, lambda, p, q, f, x, f_of, derive, refused_line};

/// `assume p`: `p |- p`.
pub fn assume_by_example()
    ensures gives { derive (by_assume p ∷ []) (p ∷ []) p ≡ true }
    ensures not_bool { refused_line (by_assume f ∷ []) ≡ Some (1, no_step NotBool) }
{}

/// `weaken p i`: from `H |- q`, `H` and `p |- q`; a hypothesis that is there up to alpha equality isn't added again.
pub fn weaken_by_example()
    ensures gives { derive (by_assume p ∷ by_weaken q 1 ∷ []) (p ∷ q ∷ []) p ≡ true }
    ensures there_already { let all_x = for_all bool (lambda "x" bool (bound "x")) in
        derive (by_assume falsity ∷ by_weaken all_x 1 ∷ []) (falsity ∷ []) falsity ≡ true }
    ensures missing_line { refused_line (by_weaken p 1 ∷ []) ≡ Some (1, no_step MissingLine) }
    ensures not_bool { refused_line (by_assume p ∷ by_weaken f 1 ∷ []) ≡ Some (2, no_step NotBool) }
    ensures line_before_type { refused_line (by_weaken f 0 ∷ []) ≡ Some (1, no_step MissingLine) }
{}

/// `refl t`: `|- t = t`.
pub fn refl_by_example()
    ensures gives { derive (by_refl f ∷ []) [] (equation (fun bool bool) f f) ≡ true }
{}

/// `sym i`: from `H |- s = t`, `H |- t = s`.
pub fn sym_by_example()
    ensures gives { derive (by_beta (app f_of p) ∷ by_sym 1 ∷ []) [] (equation bool (app f p) (app f_of p)) ≡ true }
    ensures missing_line { refused_line (by_refl p ∷ by_sym 0 ∷ []) ≡ Some (2, no_step MissingLine) }
    ensures own_line { refused_line (by_sym 1 ∷ []) ≡ Some (1, no_step MissingLine) }
    ensures not_equation { refused_line (by_assume p ∷ by_sym 1 ∷ []) ≡ Some (2, no_step NotEquation) }
    ensures hypotheses_stay { derive (by_assume (equation bool p q) ∷ by_sym 1 ∷ []) (equation bool p q ∷ []) (equation bool q p) ≡ true }
{}

/// `trans i j`: from `H |- r = s` and `K |- s = t`, `H` and `K |- r = t`; the middle terms are compared up to alpha equality.
pub fn trans_by_example()
    ensures gives { derive (by_eta f_of ∷ by_thm (codes "ff") ∷ by_trans 1 2 ∷ []) [] (equation (fun bool bool) f_of f) ≡ true }
    ensures up_to_alpha { let also = lambda "z" bool (app f (bound "z")) in
        derive (by_refl f_of ∷ by_refl also ∷ by_trans 1 2 ∷ []) [] (equation (fun bool bool) f_of also) ≡ true }
    ensures missing_first { refused_line (by_assume p ∷ by_trans 2 1 ∷ []) ≡ Some (2, no_step MissingLine) }
    ensures missing_second { refused_line (by_assume p ∷ by_trans 1 2 ∷ []) ≡ Some (2, no_step MissingLine) }
    ensures not_equation_first { refused_line (by_assume p ∷ by_refl p ∷ by_trans 1 2 ∷ []) ≡ Some (3, no_step NotEquation) }
    ensures not_equation_second { refused_line (by_refl p ∷ by_assume p ∷ by_trans 1 2 ∷ []) ≡ Some (3, no_step NotEquation) }
    ensures middle_differs { refused_line (by_refl p ∷ by_refl q ∷ by_trans 1 2 ∷ []) ≡ Some (3, no_step MiddleDiffers) }
    ensures hypotheses_in_order { let pq = equation bool p q in
        let qp = equation bool q p in
        derive (by_assume pq ∷ by_assume qp ∷ by_trans 1 2 ∷ []) (pq ∷ qp ∷ []) (equation bool p p) ≡ true }
{}

/// `cong i j`: from `H |- f = g` and `K |- a = b`, `H` and `K |- f a = g b`.
pub fn cong_by_example()
    ensures gives { derive (by_eta f_of ∷ by_refl p ∷ by_cong 1 2 ∷ []) [] (equation bool (app f_of p) (app f p)) ≡ true }
    ensures missing_first { refused_line (by_refl p ∷ by_cong 2 1 ∷ []) ≡ Some (2, no_step MissingLine) }
    ensures missing_second { refused_line (by_refl f ∷ by_cong 1 2 ∷ []) ≡ Some (2, no_step MissingLine) }
    ensures not_equation_first { refused_line (by_assume p ∷ by_refl p ∷ by_cong 1 2 ∷ []) ≡ Some (3, no_step NotEquation) }
    ensures not_equation_second { refused_line (by_refl f ∷ by_assume p ∷ by_cong 1 2 ∷ []) ≡ Some (3, no_step NotEquation) }
    ensures type_differs { refused_line (by_refl f ∷ by_refl f ∷ by_cong 1 2 ∷ []) ≡ Some (3, no_step TypeDiffers) }
    ensures hypotheses_in_order { let ff = equation (fun bool bool) f f in
        let pq = equation bool p q in
        derive (by_assume ff ∷ by_assume pq ∷ by_cong 1 2 ∷ []) (ff ∷ pq ∷ []) (equation bool (app f p) (app f q)) ≡ true }
{}

/// `abs x T i`: from `H |- s = t`, `H |- (\x. s) = (\x. t)`. A variable of the same name and another type bars nothing.
pub fn abs_by_example()
    ensures gives { derive (by_refl (app f x) ∷ by_abs (codes "x") bool 1 ∷ []) [] (equation (fun bool bool) f_of f_of) ≡ true }
    ensures other_type { let k = lambda "z" (tyvar "a") (app f x) in
        derive (by_refl (app f x) ∷ by_weaken x 1 ∷ by_abs (codes "x") (tyvar "a") 2 ∷ []) (x ∷ []) (equation (fun (tyvar "a") bool) k k) ≡ true }
    ensures missing_line { refused_line (by_abs (codes "x") bool 1 ∷ []) ≡ Some (1, no_step MissingLine) }
    ensures not_equation { refused_line (by_assume x ∷ by_abs (codes "x") bool 1 ∷ []) ≡ Some (2, no_step NotEquation) }
    ensures variable_in_hypothesis { refused_line (by_refl x ∷ by_weaken x 1 ∷ by_abs (codes "x") bool 2 ∷ []) ≡ Some (3, no_step VariableInHypothesis) }
{}

/// `beta t`: `|- t = b`, where t is an abstraction applied to a, and b its body opened by a.
pub fn beta_by_example()
    ensures gives { derive (by_beta (app f_of p) ∷ []) [] (equation bool (app f_of p) (app f p)) ≡ true }
    ensures inner_binder_stays { let inner = lambda "y" bool (bound "y") in
        derive (by_beta (app (lambda "y" bool inner) p) ∷ []) [] (equation (fun bool bool) (app (lambda "y" bool inner) p) inner) ≡ true }
    ensures not_redex { refused_line (by_beta (app f p) ∷ []) ≡ Some (1, no_step NotRedex) }
{}

/// `eta t`: `|- t = f`, where t is `\x. f x`, and f doesn't have that bound name.
pub fn eta_by_example()
    ensures gives { derive (by_eta f_of ∷ []) [] (equation (fun bool bool) f_of f) ≡ true }
    ensures not_redex { refused_line (by_eta f ∷ []) ≡ Some (1, no_step NotRedex) }
    ensures name_in_function { refused_line (by_eta (lambda "y" bool (app (lambda "z" bool (bound "y")) (bound "y"))) ∷ []) ≡ Some (1, no_step NotRedex) }
{}

/// `eqmp i j`: from `H |- p = q` and `K |- p`, `H` and `K |- q`. Line j need be no equation.
pub fn eqmp_by_example()
    ensures gives { derive (by_thm (codes "pq") ∷ by_thm (codes "qp") ∷ by_iff 1 2 ∷ by_assume p ∷ by_eqmp 3 4 ∷ []) (p ∷ []) q ≡ true }
    ensures missing_first { refused_line (by_assume p ∷ by_eqmp 2 1 ∷ []) ≡ Some (2, no_step MissingLine) }
    ensures missing_second { refused_line (by_refl p ∷ by_eqmp 1 2 ∷ []) ≡ Some (2, no_step MissingLine) }
    ensures not_equation { refused_line (by_assume p ∷ by_eqmp 1 1 ∷ []) ≡ Some (2, no_step NotEquation) }
    ensures middle_differs { refused_line (by_refl p ∷ by_assume q ∷ by_eqmp 1 2 ∷ []) ≡ Some (3, no_step MiddleDiffers) }
    ensures hypotheses_in_order { let pq = equation bool p q in
        derive (by_assume pq ∷ by_assume p ∷ by_eqmp 1 2 ∷ []) (pq ∷ p ∷ []) q ≡ true }
{}

/// `impI p i`: from `H |- q`, `H` without `p |- p --> q`; each hypothesis that is alpha-equal to p goes, and none need be there.
pub fn impI_by_example()
    ensures gives { derive (by_assume p ∷ by_impI p 1 ∷ []) [] (implies p p) ≡ true }
    ensures others_stay { derive (by_assume p ∷ by_weaken q 1 ∷ by_impI p 2 ∷ []) (q ∷ []) (implies p p) ≡ true }
    ensures not_there { derive (by_assume p ∷ by_impI q 1 ∷ []) (p ∷ []) (implies q p) ≡ true }
    ensures missing_line { refused_line (by_impI p 1 ∷ []) ≡ Some (1, no_step MissingLine) }
    ensures not_bool { refused_line (by_assume p ∷ by_impI f 1 ∷ []) ≡ Some (2, no_step NotBool) }
    ensures line_before_type { refused_line (by_impI f 1 ∷ []) ≡ Some (1, no_step MissingLine) }
{}

/// `mp i j`: from `H |- p --> q` and `K |- p`, `H` and `K |- q`.
pub fn mp_by_example()
    ensures gives { derive (by_thm (codes "pq") ∷ by_assume p ∷ by_mp 1 2 ∷ []) (p ∷ []) q ≡ true }
    ensures missing_first { refused_line (by_assume p ∷ by_mp 2 1 ∷ []) ≡ Some (2, no_step MissingLine) }
    ensures missing_second { refused_line (by_thm (codes "pq") ∷ by_mp 1 2 ∷ []) ≡ Some (2, no_step MissingLine) }
    ensures not_implication { refused_line (by_assume p ∷ by_mp 1 1 ∷ []) ≡ Some (2, no_step NotImplication) }
    ensures middle_differs { refused_line (by_thm (codes "pq") ∷ by_assume q ∷ by_mp 1 2 ∷ []) ≡ Some (3, no_step MiddleDiffers) }
    ensures hypotheses_in_order { derive (by_assume (implies q p) ∷ by_assume q ∷ by_mp 1 2 ∷ []) (implies q p ∷ q ∷ []) p ≡ true }
{}

/// `allI x T i`: from `H |- p`, `H |- all x. p`. A hypothesis with the free variable bars it, and one of another type doesn't.
pub fn allI_by_example()
    ensures gives { derive (by_refl x ∷ by_allI (codes "x") bool 1 ∷ []) [] (for_all bool (lambda "y" bool (equation bool (bound "y") (bound "y")))) ≡ true }
    ensures other_type { derive (by_assume x ∷ by_allI (codes "x") (tyvar "a") 1 ∷ []) (x ∷ []) (for_all (tyvar "a") (lambda "y" (tyvar "a") x)) ≡ true }
    ensures missing_line { refused_line (by_allI (codes "x") bool 1 ∷ []) ≡ Some (1, no_step MissingLine) }
    ensures variable_in_hypothesis { refused_line (by_assume x ∷ by_allI (codes "x") bool 1 ∷ []) ≡ Some (2, no_step VariableInHypothesis) }
{}

/// `allE t i`: from `H |- all p`, `H |- p` opened by t where p is an abstraction, else `p t`.
pub fn allE_by_example()
    ensures opens { derive (by_thm (codes "fs") ∷ by_allE p 1 ∷ []) [] (app f p) ≡ true }
    ensures applies { derive (by_thm (codes "fx") ∷ by_allE p 1 ∷ []) [] (app f p) ≡ true }
    ensures missing_line { refused_line (by_allE p 1 ∷ []) ≡ Some (1, no_step MissingLine) }
    ensures not_forall { refused_line (by_assume p ∷ by_allE p 1 ∷ []) ≡ Some (2, no_step NotForall) }
    ensures type_differs { refused_line (by_thm (codes "fs") ∷ by_allE f 1 ∷ []) ≡ Some (2, no_step TypeDiffers) }
    ensures hypotheses_stay { derive (by_assume falsity ∷ by_allE p 1 ∷ []) (falsity ∷ []) p ≡ true }
    ensures form_before_type { refused_line (by_assume p ∷ by_allE f 1 ∷ []) ≡ Some (2, no_step NotForall) }
{}

/// `iff i j`: from `H |- p --> q` and `K |- q --> p`, `H` and `K |- p = q`.
pub fn iff_by_example()
    ensures gives { derive (by_thm (codes "pq") ∷ by_thm (codes "qp") ∷ by_iff 1 2 ∷ []) [] (equation bool p q) ≡ true }
    ensures missing_first { refused_line (by_thm (codes "pq") ∷ by_iff 2 1 ∷ []) ≡ Some (2, no_step MissingLine) }
    ensures missing_second { refused_line (by_thm (codes "pq") ∷ by_iff 1 2 ∷ []) ≡ Some (2, no_step MissingLine) }
    ensures not_implication_first { refused_line (by_assume p ∷ by_thm (codes "qp") ∷ by_iff 1 2 ∷ []) ≡ Some (3, no_step NotImplication) }
    ensures not_implication_second { refused_line (by_thm (codes "pq") ∷ by_assume p ∷ by_iff 1 2 ∷ []) ≡ Some (3, no_step NotImplication) }
    ensures middle_differs { refused_line (by_thm (codes "pq") ∷ by_thm (codes "pq") ∷ by_iff 1 2 ∷ []) ≡ Some (3, no_step MiddleDiffers) }
    ensures second_pair_differs { let pp = implies p p in
        refused_line (by_assume pp ∷ by_thm (codes "qp") ∷ by_iff 1 2 ∷ []) ≡ Some (3, no_step MiddleDiffers) }
    ensures hypotheses_in_order { derive (by_assume (implies p q) ∷ by_assume (implies q p) ∷ by_iff 1 2 ∷ []) (implies p q ∷ implies q p ∷ []) (equation bool p q) ≡ true }
    ensures first_pair_differs { refused_line (by_thm (codes "pq") ∷ by_assume (implies q q) ∷ by_iff 1 2 ∷ []) ≡ Some (3, no_step MiddleDiffers) }
{}

/// `inst x T t i`: from `H |- p`, the free variable replaced by t throughout; hypotheses that become alpha-equal are one.
pub fn inst_by_example()
    ensures gives { derive (by_assume x ∷ by_inst (codes "x") bool q 1 ∷ []) (q ∷ []) q ≡ true }
    ensures one_hypothesis { derive (by_assume x ∷ by_weaken q 1 ∷ by_inst (codes "x") bool q 2 ∷ []) (q ∷ []) q ≡ true }
    ensures missing_line { refused_line (by_inst (codes "x") bool q 1 ∷ []) ≡ Some (1, no_step MissingLine) }
    ensures type_differs { refused_line (by_assume x ∷ by_inst (codes "x") bool f 1 ∷ []) ≡ Some (2, no_step TypeDiffers) }
    ensures line_before_type { refused_line (by_inst (codes "x") bool f 1 ∷ []) ≡ Some (1, no_step MissingLine) }
{}

/// `tinst 'a T i`: from `H |- p`, the type variable replaced throughout, in the hypotheses too, and nothing is captured.
pub fn tinst_by_example()
    ensures gives { let at = lambda "x" (tyvar "a") (free "x" bool) in
        let to = lambda "x" bool (free "x" bool) in
        derive (by_refl at ∷ by_tinst (codes "a") bool 1 ∷ []) [] (equation (fun bool bool) to to) ≡ true }
    ensures hypotheses_too { let at = equation (tyvar "a") (free "y" (tyvar "a")) (free "y" (tyvar "a")) in
        let to = equation bool (free "y" bool) (free "y" bool) in
        derive (by_assume at ∷ by_tinst (codes "a") bool 1 ∷ []) (to ∷ []) to ≡ true }
    ensures missing_line { refused_line (by_tinst (codes "a") bool 1 ∷ []) ≡ Some (1, no_step MissingLine) }
    ensures one_hypothesis { let at = equation (tyvar "a") (free "y" (tyvar "a")) (free "y" (tyvar "a")) in
        let to = equation bool (free "y" bool) (free "y" bool) in
        derive (by_assume at ∷ by_weaken to 1 ∷ by_tinst (codes "a") bool 2 ∷ []) (to ∷ []) to ≡ true }
{}

/// `select p`: `|- all x. p x --> p (eps p)`.
pub fn select_by_example()
    ensures gives { derive (by_select f ∷ []) [] (for_all bool (lambda "z" bool (implies (app f (bound "z")) (app f (some_of bool f))))) ≡ true }
    ensures type_differs { refused_line (by_select p ∷ []) ≡ Some (1, no_step TypeDiffers) }
{}

/// `ccontr p`: `|- ((p --> F) --> F) --> p`, where F is `all q. q`.
pub fn ccontr_by_example()
    ensures gives { let no = for_all bool (lambda "z" bool (bound "z")) in
        derive (by_ccontr p ∷ []) [] (implies (implies (implies p no) no) p) ≡ true }
    ensures not_bool { refused_line (by_ccontr f ∷ []) ≡ Some (1, no_step NotBool) }
{}

/// `thm L`: `|-` the statement of L.
pub fn thm_by_example()
    ensures gives { derive (by_thm (codes "pq") ∷ []) [] (implies p q) ≡ true }
    ensures unknown_label { refused_line (by_thm (codes "pp") ∷ []) ≡ Some (1, no_step UnknownLabel) }
{}

/// A line's types and terms are looked at before its rule, from the left, and the first line that has no sequent is told.
pub fn order_in_a_line()
    ensures fault_before_reason { refused_line (by_weaken (bound "y") 0 ∷ []) ≡ Some (1, ill_typed (unbound (codes "y"))) }
    ensures type_before_term { refused_line (by_inst (codes "x") nat (bound "y") 0 ∷ []) ≡ Some (1, ill_typed (unknown_type (codes "nat"))) }
    ensures first_line { refused_line (by_assume p ∷ by_mp 1 1 ∷ by_sym 9 ∷ []) ≡ Some (2, no_step NotImplication) }
{}
