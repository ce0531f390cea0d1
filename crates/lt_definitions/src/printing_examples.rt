//! Examples of printing: types, terms, sequents, items, summaries and the count line.
ghost use Rattle.std.specs.Prelude.{◌≡◌, [], ◌∷◌, ◌++◌, codes};
ghost use Rattle.lt_definitions.specs.Types.{bool, fun};
ghost use Rattle.lt_definitions.specs.Terms.{equation, implies, for_all};
ghost use Rattle.lt_definitions.specs.Rules.{by_refl, by_assume, by_weaken, by_sym, by_trans, by_cong, by_abs, by_beta, by_eta, by_eqmp, by_impI, by_mp, by_allI, by_allE, by_iff, by_inst, by_tinst, by_select, by_ccontr, by_thm};
ghost use Rattle.lt_definitions.specs.Items.{type_item, const_item, axiom_item, def_item, lemma_item};
ghost use Rattle.lt_definitions.specs.Printing.{printed_type, printed_term, printed_sequent, printed_lines, printed_item, report, summary_line, count_line};
ghost use Rattle.lt_definitions.specs.Samples.{tyvar, type_of_args, nat, free, bound, con, con_at, app, lambda, all_equal, p, q, x, f, typedef_t};

/// Types.
pub fn printed_types()
    ensures variable { printed_type (tyvar "a") ≡ codes "'a" }
    ensures constant { printed_type nat ≡ codes "nat" }
    ensures arguments { printed_type (fun (tyvar "a") (type_of_args "list" (nat ∷ []))) ≡ codes "(fun 'a (list nat))" }
{}

/// Terms. A binder at depth d, counted from 0, is named xd.
pub fn printed_terms()
    ensures free_variable { printed_term [] (free "x" nat) ≡ codes "($x nat)" }
    ensures constant { printed_term [] (con_at "k" (nat ∷ tyvar "a" ∷ [])) ≡ codes "k[nat 'a]" }
    ensures application { printed_term [] (app (app (con "f") p) (app (con "g") q)) ≡ codes "(f p (g q))" }
    ensures binders { printed_term [] (lambda "y" bool (lambda "y" nat (app (bound "y") (lambda "z" bool (bound "z"))))) ≡ codes "(\\x0 bool (\\x1 nat (%x1 (\\x2 bool %x2))))" }
    ensures beside { printed_term [] (app (lambda "y" bool (bound "y")) (lambda "z" bool (bound "z"))) ≡ codes "((\\x0 bool %x0) (\\x0 bool %x0))" }
    ensures free_names_stay { printed_term [] (lambda "y" bool (free "x0" bool)) ≡ codes "(\\x0 bool ($x0 bool))" }
{}

/// Sequents: hypotheses with commas between, and a space if there are any.
pub fn printed_sequents()
    ensures no_hypothesis { printed_sequent (record { hyps = []; concl = p }) ≡ codes "|- p" }
    ensures one { printed_sequent (record { hyps = p ∷ []; concl = q }) ≡ codes "p |- q" }
    ensures two { printed_sequent (record { hyps = implies p q ∷ p ∷ []; concl = q }) ≡ codes "(imp p q), p |- q" }
{}

/// Summary lines of the six kinds of item.
pub fn printed_summaries()
    ensures declared_type { summary_line (type_item (codes "nat") 0) ≡ codes "type nat 0\n" }
    ensures declared_constant { summary_line (const_item (codes "z") nat) ≡ codes "const z : nat\n" }
    ensures axiom { summary_line (axiom_item (codes "pq") (implies p q)) ≡ codes "axiom pq : (imp p q)\n" }
    ensures definition { summary_line (def_item (codes "k") (fun (tyvar "a") bool) (lambda "y" (tyvar "a") (all_equal (tyvar "a"))))
        ≡ codes "def k : (fun 'a bool) := (\\x0 'a (all['a] (\\x1 'a (eq['a] %x1 %x1))))\n" }
    ensures typedef { summary_line (typedef_t [] (con "P")) ≡ codes "typedef t : P by Pz abs abs_t rep rep_t\n" }
    ensures typedef_with_parameters { summary_line (typedef_t (codes "a" ∷ codes "b" ∷ []) (con "P")) ≡ codes "typedef t 'a 'b : P by Pz abs abs_t rep rep_t\n" }
    ensures lemma { summary_line (lemma_item (codes "r") (equation (fun bool bool) (lambda "p" bool (bound "p")) (lambda "q" bool (bound "q"))) (by_refl (lambda "p" bool (bound "p")) ∷ []))
        ≡ codes "lemma r : (eq[(fun bool bool)] (\\x0 bool %x0) (\\x0 bool %x0))\n" }
{}

/// Items as commands, a report, and the count line.
pub fn printed_items()
    ensures command { printed_item (def_item (codes "k") bool p) ≡ codes "def k : bool := p;\n" }
    ensures lemma { printed_item (lemma_item (codes "m") (implies p p) (by_assume p ∷ by_impI p 1 ∷ []))
        ≡ codes "lemma m : (imp p p) {\n  assume p;\n  impI p 1;\n};\n" }
    ensures report { report (const_item (codes "p") bool ∷ axiom_item (codes "a") p ∷ []) ≡ codes "plain 1;\nconst p : bool;\naxiom a : p;\n" }
    ensures count { count_line (const_item (codes "p") bool ∷ axiom_item (codes "a") p ∷ lemma_item (codes "m") p [] ∷ []) ≡ codes "items 3 axioms 1 lemmas 1\n" }
{}

/// The lines of a lemma, one of each rule.
pub fn printed_rules()
    ensures terms { printed_lines (by_assume p ∷ by_refl p ∷ by_beta p ∷ by_eta p ∷ by_select f ∷ by_ccontr p ∷ by_thm (codes "pq") ∷ [])
        ≡ codes "  assume p;\n  refl p;\n  beta p;\n  eta p;\n  select f;\n  ccontr p;\n  thm pq;\n" }
    ensures numbers { printed_lines (by_weaken p 1 ∷ by_sym 2 ∷ by_trans 1 2 ∷ by_cong 1 2 ∷ by_eqmp 1 2 ∷ by_impI p 3 ∷ by_mp 1 2 ∷ by_allE x 4 ∷ by_iff 1 12 ∷ [])
        ≡ codes "  weaken p 1;\n  sym 2;\n  trans 1 2;\n  cong 1 2;\n  eqmp 1 2;\n  impI p 3;\n  mp 1 2;\n  allE ($x bool) 4;\n  iff 1 12;\n" }
    ensures names { printed_lines (by_abs (codes "x") bool 1 ∷ by_allI (codes "x") nat 2 ∷ by_inst (codes "x") bool p 3 ∷ by_tinst (codes "a") (fun nat nat) 4 ∷ [])
        ≡ codes "  abs x bool 1;\n  allI x nat 2;\n  inst x bool p 3;\n  tinst 'a (fun nat nat) 4;\n" }
{}
