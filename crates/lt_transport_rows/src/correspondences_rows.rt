//! Rows over declared correspondences, and over a typedef.
ghost use Rattle.std.specs.Prelude.{◌≡◌, ◌++◌, codes};
ghost use Rattle.lt_transport_rows.specs.Computing.{text_of};
ghost use Rattle.lt_transport_rows.specs.LawCommands.{law_commands, law_lines};
ghost use Rattle.lt_transport_rows.specs.BaseCommands.{base_commands, base_lines};
ghost use Rattle.lt_transport_rows.specs.Correspondences.{a_constant, a_redex, unknown_law, other_relations, one_relation, two_generated, second_property, no_rule_head, no_relation_type, bounded, unbounded, implied, implied_first, open_statement, subset};

/// A constant without rules is related to itself.
pub fn a_constant_row()
    ensures text { text_of (base_commands ++ a_constant) ≡ base_lines
        ++ codes "const p : bool\nlemma e : (eq[bool] p p)\n" }
{}

/// A statement with a redex: the image is its normal form.
pub fn a_redex_row()
    ensures text { text_of (base_commands ++ a_redex) ≡ base_lines
        ++ codes "const p : bool\nlemma e : (eq[bool] (imp p p) ((\\x0 bool (imp %x0 %x0)) p))\n" }
{}

/// No law has the name.
pub fn unknown_law_row()
    ensures text { text_of (base_commands ++ unknown_law) ≡ base_lines
        ++ codes "UnknownLaw nothing\n" }
{}

/// Two rules whose relations differ: no transport (the last command, which the runs leave off, is
/// refused).
pub fn other_relations_row()
    ensures text { text_of (base_commands ++ other_relations) ≡ base_lines
        ++ codes "type u 0\ntype q 0\nconst a : u\nconst z : q\nconst r : (fun u (fun q bool))\nconst r2 : (fun u (fun q bool))\nconst p : (fun u bool)\nconst s : (fun q bool)\naxiom az : (r a z)\naxiom ps : (rel_fun[u q bool bool] r2 eq[bool] p s)\n" }
{}

/// The same rules over one relation.
pub fn one_relation_row()
    ensures text { text_of (base_commands ++ one_relation) ≡ base_lines
        ++ codes "type u 0\ntype q 0\nconst a : u\nconst z : q\nconst r : (fun u (fun q bool))\nconst r2 : (fun u (fun q bool))\nconst p : (fun u bool)\nconst s : (fun q bool)\naxiom az : (r a z)\naxiom ps : (rel_fun[u q bool bool] r eq[bool] p s)\nlemma n : (eq[bool] (p a) (s z))\n" }
{}

/// The text of size 2, as commands.
pub fn two_generated_row()
    ensures text { text_of (base_commands ++ two_generated) ≡ base_lines
        ++ codes "type u 0\ntype q 0\nconst r : (fun u (fun q bool))\nconst a : u\nconst z : q\nconst f : (fun u u)\nconst g : (fun q q)\nconst p : (fun u bool)\nconst s : (fun q bool)\naxiom az : (r a z)\naxiom fg : (rel_fun[u q u q] r r f g)\naxiom ps : (rel_fun[u q bool bool] r eq[bool] p s)\nlemma t1 : (eq[bool] (p (f a)) (s (g z)))\nlemma t2 : (eq[bool] (p (f (f a))) (s (g (g z))))\n" }
{}

/// A second rule for one property of one constructor.
pub fn second_property_row()
    ensures text { text_of (law_commands ++ second_property) ≡ law_lines
        ++ codes "DuplicateProperty bi_total rel_fun\n" }
{}

/// A rule whose statement is no application to two arguments.
pub fn no_rule_head_row()
    ensures text { text_of (base_commands ++ no_rule_head) ≡ base_lines
        ++ codes "const p : bool\naxiom b : p\nRuleShape Head\n" }
{}

/// A correspondence of a type that is no relation.
pub fn no_relation_type_row()
    ensures text { text_of (base_commands ++ no_relation_type) ≡ base_lines
        ++ codes "const r : bool\nRelatorShape Corr\n" }
{}

/// A bounded quantifier.
pub fn bounded_row()
    ensures text { text_of (law_commands ++ bounded) ≡ law_lines
        ++ codes "type u 0\ntype q 0\nconst r : (fun u (fun q bool))\nconst p : (fun u bool)\nconst s : (fun q bool)\naxiom ps : (rel_fun[u q bool bool] r eq[bool] p s)\naxiom rt : (right_total[u q] r)\nlemma b : (eq[bool] (all[u] (\\x0 u (imp (Domainp[u q] r %x0) (p %x0)))) (all[q] (\\x0 q (s %x0))))\n" }
{}

/// No rule for the quantifier fits without right_total.
pub fn unbounded_row()
    ensures text { text_of (law_commands ++ unbounded) ≡ law_lines
        ++ codes "type u 0\ntype q 0\nconst r : (fun u (fun q bool))\nconst p : (fun u bool)\nconst s : (fun q bool)\naxiom ps : (rel_fun[u q bool bool] r eq[bool] p s)\naxiom rt : (right_total[u q] r)\n" }
{}

/// An implied statement, the bounded rule first.
pub fn implied_row()
    ensures text { text_of (law_commands ++ implied) ≡ law_lines
        ++ codes "type u 0\ntype q 0\nconst r : (fun u (fun q bool))\nconst p : (fun u bool)\nconst s : (fun q bool)\naxiom ps : (rel_fun[u q bool bool] r eq[bool] p s)\naxiom rt : (right_total[u q] r)\nlemma i : (imp (all[u] (\\x0 u (imp (Domainp[u q] r %x0) (p %x0)))) (all[q] (\\x0 q (s %x0))))\n" }
{}

/// The same with the implied rule first.
pub fn implied_first_row()
    ensures text { text_of (law_commands ++ implied_first) ≡ law_lines
        ++ codes "type u 0\ntype q 0\nconst r : (fun u (fun q bool))\nconst p : (fun u bool)\nconst s : (fun q bool)\naxiom ps : (rel_fun[u q bool bool] r eq[bool] p s)\naxiom rt : (right_total[u q] r)\nlemma i : (imp (all[u] (\\x0 u (p %x0))) (all[q] (\\x0 q (s %x0))))\n" }
{}

/// A statement with a free variable.
pub fn open_statement_row()
    ensures text { text_of (base_commands ++ open_statement) ≡ base_lines ++ codes "OpenTerm\n" }
{}

/// A typedef: equivalence, implication, and the equation of rep.
pub fn subset_row()
    ensures text { text_of (law_commands ++ subset) ≡ law_lines
        ++ codes "type nat 0\nconst z : nat\nconst P : (fun nat bool)\nconst h : (fun nat bool)\naxiom Pz : (P z)\ntypedef t : P by Pz abs abs_t rep rep_t\ndef cr_t : (fun nat (fun t bool)) := (\\x0 nat (\\x1 t (eq[nat] %x0 (rep_t %x1))))\nlemma Quotient_t : (Quotient[nat t] (eq_onp[nat] P) abs_t rep_t cr_t)\nlemma t_bi_unique : (bi_unique[nat t] cr_t)\nlemma t_right_total : (right_total[nat t] cr_t)\nlemma t_right_unique : (right_unique[nat t] cr_t)\nlemma t_rel : (rel_fun[nat t (fun nat bool) (fun t bool)] cr_t (rel_fun[nat t bool bool] cr_t eq[bool]) (eq_onp[nat] P) eq[t])\nlemma t_domain : (eq[(fun nat bool)] (Domainp[nat t] cr_t) P)\naxiom k_resp : (rel_fun[nat nat bool bool] (eq_onp[nat] P) eq[bool] h h)\ndef k : (fun t bool) := (map_fun[t nat bool bool] rep_t id[bool] h)\nlemma k_transfer : (rel_fun[nat t bool bool] cr_t eq[bool] h k)\nlemma e : (eq[bool] (all[nat] (\\x0 nat (imp (P %x0) (h %x0)))) (all[t] (\\x0 t (k %x0))))\nlemma i : (imp (all[nat] (\\x0 nat (h %x0))) (all[t] (\\x0 t (k %x0))))\nlemma k_rep_eq : (all[t] (\\x0 t (eq[bool] (id[bool] (k %x0)) (h (rep_t %x0)))))\n" }
{}
