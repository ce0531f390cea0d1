//! The text of the laws.
ghost use Rattle.std.specs.Prelude.{◌≡◌, IfOk, encode_utf8_all};
ghost use Rattle.lt_transport_definitions.specs.LawTexts.{laws_text};

use lt_hol::Memory;
use lt_syntax::Text;
use std::alloc::Global;

/// The text of the laws.
const LAWS: &str = "\
theory 1;\n\
def true : bool := (eq[(fun bool bool)] (\\x0 bool %x0) (\\x0 bool %x0));\n\
def false : bool := (all[bool] (\\x0 bool %x0));\n\
def not : (fun bool bool) := (\\x0 bool (imp %x0 false));\n\
def and : (fun bool (fun bool bool)) := (\\x0 bool (\\x1 bool (all[bool] (\\x2 bool (imp \
    (imp %x0 (imp %x1 %x2)) %x2)))));\n\
def or : (fun bool (fun bool bool)) := (\\x0 bool (\\x1 bool (all[bool] (\\x2 bool (imp (imp \
    %x0 %x2) (imp (imp %x1 %x2) %x2))))));\n\
def ex : (fun (fun 'a bool) bool) := (\\x0 (fun 'a bool) (all[bool] (\\x1 bool (imp (all['a] \
    (\\x2 'a (imp (%x0 %x2) %x1))) %x1))));\n\
def id : (fun 'a 'a) := (\\x0 'a %x0);\n\
def comp : (fun (fun 'b 'c) (fun (fun 'a 'b) (fun 'a 'c))) := (\\x0 (fun 'b 'c) (\\x1 (fun \
    'a 'b) (\\x2 'a (%x0 (%x1 %x2)))));\n\
def map_fun : (fun (fun 'c 'a) (fun (fun 'b 'd) (fun (fun 'a 'b) (fun 'c 'd)))) := (\\x0 \
    (fun 'c 'a) (\\x1 (fun 'b 'd) (\\x2 (fun 'a 'b) (\\x3 'c (%x1 (%x2 (%x0 %x3)))))));\n\
def rel_fun : (fun (fun 'a (fun 'c bool)) (fun (fun 'b (fun 'd bool)) (fun (fun 'a 'b) (fun \
    (fun 'c 'd) bool)))) := (\\x0 (fun 'a (fun 'c bool)) (\\x1 (fun 'b (fun 'd bool)) (\\x2 (fun \
    'a 'b) (\\x3 (fun 'c 'd) (all['a] (\\x4 'a (all['c] (\\x5 'c (imp (%x0 %x4 %x5) (%x1 (%x2 \
    %x4) (%x3 %x5)))))))))));\n\
def relcompp : (fun (fun 'a (fun 'b bool)) (fun (fun 'b (fun 'c bool)) (fun 'a (fun 'c \
    bool)))) := (\\x0 (fun 'a (fun 'b bool)) (\\x1 (fun 'b (fun 'c bool)) (\\x2 'a (\\x3 'c \
    (ex['b] (\\x4 'b (and (%x0 %x2 %x4) (%x1 %x4 %x3))))))));\n\
def conversep : (fun (fun 'a (fun 'b bool)) (fun 'b (fun 'a bool))) := (\\x0 (fun 'a (fun 'b \
    bool)) (\\x1 'b (\\x2 'a (%x0 %x2 %x1))));\n\
def eq_onp : (fun (fun 'a bool) (fun 'a (fun 'a bool))) := (\\x0 (fun 'a bool) (\\x1 'a \
    (\\x2 'a (and (%x0 %x1) (eq['a] %x1 %x2)))));\n\
def Domainp : (fun (fun 'a (fun 'b bool)) (fun 'a bool)) := (\\x0 (fun 'a (fun 'b bool)) \
    (\\x1 'a (ex['b] (\\x2 'b (%x0 %x1 %x2)))));\n\
def left_total : (fun (fun 'a (fun 'b bool)) bool) := (\\x0 (fun 'a (fun 'b bool)) (all['a] \
    (\\x1 'a (ex['b] (\\x2 'b (%x0 %x1 %x2))))));\n\
def right_total : (fun (fun 'a (fun 'b bool)) bool) := (\\x0 (fun 'a (fun 'b bool)) (all['b] \
    (\\x1 'b (ex['a] (\\x2 'a (%x0 %x2 %x1))))));\n\
def left_unique : (fun (fun 'a (fun 'b bool)) bool) := (\\x0 (fun 'a (fun 'b bool)) (all['a] \
    (\\x1 'a (all['a] (\\x2 'a (all['b] (\\x3 'b (imp (%x0 %x1 %x3) (imp (%x0 %x2 %x3) (eq['a] \
    %x1 %x2))))))))));\n\
def right_unique : (fun (fun 'a (fun 'b bool)) bool) := (\\x0 (fun 'a (fun 'b bool)) \
    (all['a] (\\x1 'a (all['b] (\\x2 'b (all['b] (\\x3 'b (imp (%x0 %x1 %x2) (imp (%x0 %x1 %x3) \
    (eq['b] %x2 %x3))))))))));\n\
def bi_total : (fun (fun 'a (fun 'b bool)) bool) := (\\x0 (fun 'a (fun 'b bool)) (and \
    (left_total['a 'b] %x0) (right_total['a 'b] %x0)));\n\
def bi_unique : (fun (fun 'a (fun 'b bool)) bool) := (\\x0 (fun 'a (fun 'b bool)) (and \
    (left_unique['a 'b] %x0) (right_unique['a 'b] %x0)));\n\
def part_equivp : (fun (fun 'a (fun 'a bool)) bool) := (\\x0 (fun 'a (fun 'a bool)) (and \
    (ex['a] (\\x1 'a (%x0 %x1 %x1))) (and (all['a] (\\x1 'a (all['a] (\\x2 'a (imp (%x0 %x1 %x2) \
    (%x0 %x2 %x1)))))) (all['a] (\\x1 'a (all['a] (\\x2 'a (all['a] (\\x3 'a (imp (%x0 %x1 %x2) \
    (imp (%x0 %x2 %x3) (%x0 %x1 %x3))))))))))));\n\
def Quotient : (fun (fun 'a (fun 'a bool)) (fun (fun 'a 'b) (fun (fun 'b 'a) (fun (fun 'a \
    (fun 'b bool)) bool)))) := (\\x0 (fun 'a (fun 'a bool)) (\\x1 (fun 'a 'b) (\\x2 (fun 'b 'a) \
    (\\x3 (fun 'a (fun 'b bool)) (and (all['b] (\\x4 'b (eq['b] (%x1 (%x2 %x4)) %x4))) (and \
    (all['b] (\\x4 'b (%x0 (%x2 %x4) (%x2 %x4)))) (and (all['a] (\\x4 'a (all['a] (\\x5 'a \
    (eq[bool] (%x0 %x4 %x5) (and (%x0 %x4 %x4) (and (%x0 %x5 %x5) (eq['b] (%x1 %x4) (%x1 \
    %x5))))))))) (eq[(fun 'a (fun 'b bool))] %x3 (\\x4 'a (\\x5 'b (and (%x0 %x4 %x4) (eq['b] \
    (%x1 %x4) %x5))))))))))));\n\
axiom rel_fun_app : (all[(fun 'a (fun 'c bool))] (\\x0 (fun 'a (fun 'c bool)) (all[(fun 'b \
    (fun 'd bool))] (\\x1 (fun 'b (fun 'd bool)) (all[(fun 'a 'b)] (\\x2 (fun 'a 'b) (all[(fun \
    'c 'd)] (\\x3 (fun 'c 'd) (all['a] (\\x4 'a (all['c] (\\x5 'c (imp (rel_fun['a 'c 'b 'd] %x0 \
    %x1 %x2 %x3) (imp (%x0 %x4 %x5) (%x1 (%x2 %x4) (%x3 %x5))))))))))))))));\n\
law rel_fun_app rel_fun_app;\n\
axiom rel_fun_abs : (all[(fun 'a (fun 'c bool))] (\\x0 (fun 'a (fun 'c bool)) (all[(fun 'b \
    (fun 'd bool))] (\\x1 (fun 'b (fun 'd bool)) (all[(fun 'a 'b)] (\\x2 (fun 'a 'b) (all[(fun \
    'c 'd)] (\\x3 (fun 'c 'd) (imp (all['a] (\\x4 'a (all['c] (\\x5 'c (imp (%x0 %x4 %x5) (%x1 \
    (%x2 %x4) (%x3 %x5))))))) (rel_fun['a 'c 'b 'd] %x0 %x1 %x2 %x3))))))))));\n\
law rel_fun_abs rel_fun_abs;\n\
axiom rel_fun_eq : (eq[(fun (fun 'a 'b) (fun (fun 'a 'b) bool))] (rel_fun['a 'a 'b 'b] \
    eq['a] eq['b]) eq[(fun 'a 'b)]);\n\
law rel_fun_eq rel_fun_eq;\n\
axiom left_total_eq : (left_total['a 'a] eq['a]);\n\
law left_total_eq left_total_eq;\n\
axiom right_total_eq : (right_total['a 'a] eq['a]);\n\
law right_total_eq right_total_eq;\n\
axiom left_unique_eq : (left_unique['a 'a] eq['a]);\n\
law left_unique_eq left_unique_eq;\n\
axiom right_unique_eq : (right_unique['a 'a] eq['a]);\n\
law right_unique_eq right_unique_eq;\n\
axiom bi_total_eq : (bi_total['a 'a] eq['a]);\n\
law bi_total_eq bi_total_eq;\n\
axiom bi_unique_eq : (bi_unique['a 'a] eq['a]);\n\
law bi_unique_eq bi_unique_eq;\n\
axiom id_quotient : (Quotient['a 'a] eq['a] id['a] id['a] eq['a]);\n\
law id_quotient id_quotient;\n\
axiom fun_quotient : (all[(fun 'a (fun 'a bool))] (\\x0 (fun 'a (fun 'a bool)) (all[(fun 'a \
    'c)] (\\x1 (fun 'a 'c) (all[(fun 'c 'a)] (\\x2 (fun 'c 'a) (all[(fun 'a (fun 'c bool))] \
    (\\x3 (fun 'a (fun 'c bool)) (all[(fun 'b (fun 'b bool))] (\\x4 (fun 'b (fun 'b bool)) \
    (all[(fun 'b 'd)] (\\x5 (fun 'b 'd) (all[(fun 'd 'b)] (\\x6 (fun 'd 'b) (all[(fun 'b (fun 'd \
    bool))] (\\x7 (fun 'b (fun 'd bool)) (imp (Quotient['a 'c] %x0 %x1 %x2 %x3) (imp \
    (Quotient['b 'd] %x4 %x5 %x6 %x7) (Quotient[(fun 'a 'b) (fun 'c 'd)] (rel_fun['a 'a 'b 'b] \
    %x0 %x4) (map_fun['c 'a 'b 'd] %x2 %x5) (map_fun['a 'c 'd 'b] %x1 %x6) (rel_fun['a 'c 'b 'd] \
    %x3 %x7))))))))))))))))))));\n\
law fun_quotient fun_quotient;\n\
axiom quotient_compose : (all[(fun 'a (fun 'a bool))] (\\x0 (fun 'a (fun 'a bool)) (all[(fun \
    'a 'b)] (\\x1 (fun 'a 'b) (all[(fun 'b 'a)] (\\x2 (fun 'b 'a) (all[(fun 'a (fun 'b bool))] \
    (\\x3 (fun 'a (fun 'b bool)) (all[(fun 'b (fun 'b bool))] (\\x4 (fun 'b (fun 'b bool)) \
    (all[(fun 'b 'c)] (\\x5 (fun 'b 'c) (all[(fun 'c 'b)] (\\x6 (fun 'c 'b) (all[(fun 'b (fun 'c \
    bool))] (\\x7 (fun 'b (fun 'c bool)) (imp (Quotient['a 'b] %x0 %x1 %x2 %x3) (imp \
    (Quotient['b 'c] %x4 %x5 %x6 %x7) (Quotient['a 'c] (relcompp['a 'b 'a] %x3 (relcompp['b 'b \
    'a] %x4 (conversep['a 'b] %x3))) (comp['b 'c 'a] %x5 %x1) (comp['b 'a 'c] %x2 %x6) \
    (relcompp['a 'b 'c] %x3 %x7))))))))))))))))))));\n\
law quotient_compose quotient_compose;\n\
axiom quotient_lift : (all[(fun 'a (fun 'a bool))] (\\x0 (fun 'a (fun 'a bool)) (all[(fun 'a \
    'b)] (\\x1 (fun 'a 'b) (all[(fun 'b 'a)] (\\x2 (fun 'b 'a) (all[(fun 'a (fun 'b bool))] \
    (\\x3 (fun 'a (fun 'b bool)) (all['a] (\\x4 'a (all['b] (\\x5 'b (imp (Quotient['a 'b] %x0 \
    %x1 %x2 %x3) (imp (%x0 %x4 %x4) (imp (eq['b] %x5 (%x1 %x4)) (%x3 %x4 %x5))))))))))))))));\n\
law quotient_lift quotient_lift;\n\
axiom quotient_right_total : (all[(fun 'a (fun 'a bool))] (\\x0 (fun 'a (fun 'a bool)) \
    (all[(fun 'a 'b)] (\\x1 (fun 'a 'b) (all[(fun 'b 'a)] (\\x2 (fun 'b 'a) (all[(fun 'a (fun 'b \
    bool))] (\\x3 (fun 'a (fun 'b bool)) (imp (Quotient['a 'b] %x0 %x1 %x2 %x3) (right_total['a \
    'b] %x3))))))))));\n\
law quotient_right_total quotient_right_total;\n\
axiom quotient_right_unique : (all[(fun 'a (fun 'a bool))] (\\x0 (fun 'a (fun 'a bool)) \
    (all[(fun 'a 'b)] (\\x1 (fun 'a 'b) (all[(fun 'b 'a)] (\\x2 (fun 'b 'a) (all[(fun 'a (fun 'b \
    bool))] (\\x3 (fun 'a (fun 'b bool)) (imp (Quotient['a 'b] %x0 %x1 %x2 %x3) (right_unique['a \
    'b] %x3))))))))));\n\
law quotient_right_unique quotient_right_unique;\n\
axiom quotient_rel : (all[(fun 'a (fun 'a bool))] (\\x0 (fun 'a (fun 'a bool)) (all[(fun 'a \
    'b)] (\\x1 (fun 'a 'b) (all[(fun 'b 'a)] (\\x2 (fun 'b 'a) (all[(fun 'a (fun 'b bool))] \
    (\\x3 (fun 'a (fun 'b bool)) (imp (Quotient['a 'b] %x0 %x1 %x2 %x3) (rel_fun['a 'b (fun 'a \
    bool) (fun 'b bool)] %x3 (rel_fun['a 'b bool bool] %x3 eq[bool]) %x0 eq['b]))))))))));\n\
law quotient_rel quotient_rel;\n\
axiom quotient_domain : (all[(fun 'a (fun 'a bool))] (\\x0 (fun 'a (fun 'a bool)) (all[(fun \
    'a 'b)] (\\x1 (fun 'a 'b) (all[(fun 'b 'a)] (\\x2 (fun 'b 'a) (all[(fun 'a (fun 'b bool))] \
    (\\x3 (fun 'a (fun 'b bool)) (imp (Quotient['a 'b] %x0 %x1 %x2 %x3) (eq[(fun 'a bool)] \
    (Domainp['a 'b] %x3) (\\x4 'a (%x0 %x4 %x4))))))))))));\n\
law quotient_domain quotient_domain;\n\
axiom typedef_quotient : (all[(fun 'a bool)] (\\x0 (fun 'a bool) (all[(fun 'a 'b)] (\\x1 \
    (fun 'a 'b) (all[(fun 'b 'a)] (\\x2 (fun 'b 'a) (all[(fun 'a (fun 'b bool))] (\\x3 (fun 'a \
    (fun 'b bool)) (imp (all['b] (\\x4 'b (%x0 (%x2 %x4)))) (imp (all['b] (\\x4 'b (eq['b] (%x1 \
    (%x2 %x4)) %x4))) (imp (all['a] (\\x4 'a (imp (%x0 %x4) (eq['a] (%x2 (%x1 %x4)) %x4)))) (imp \
    (eq[(fun 'a (fun 'b bool))] %x3 (\\x4 'a (\\x5 'b (eq['a] %x4 (%x2 %x5))))) (Quotient['a 'b] \
    (eq_onp['a] %x0) %x1 %x2 %x3)))))))))))));\n\
law typedef_quotient typedef_quotient;\n\
axiom typedef_bi_unique : (all[(fun 'a 'b)] (\\x0 (fun 'a 'b) (all[(fun 'b 'a)] (\\x1 (fun \
    'b 'a) (all[(fun 'a (fun 'b bool))] (\\x2 (fun 'a (fun 'b bool)) (imp (all['b] (\\x3 'b \
    (eq['b] (%x0 (%x1 %x3)) %x3))) (imp (eq[(fun 'a (fun 'b bool))] %x2 (\\x3 'a (\\x4 'b \
    (eq['a] %x3 (%x1 %x4))))) (bi_unique['a 'b] %x2)))))))));\n\
law typedef_bi_unique typedef_bi_unique;\n\
axiom typedef_domain : (all[(fun 'a bool)] (\\x0 (fun 'a bool) (all[(fun 'a 'b)] (\\x1 (fun \
    'a 'b) (all[(fun 'b 'a)] (\\x2 (fun 'b 'a) (all[(fun 'a (fun 'b bool))] (\\x3 (fun 'a (fun \
    'b bool)) (imp (all['b] (\\x4 'b (%x0 (%x2 %x4)))) (imp (all['b] (\\x4 'b (eq['b] (%x1 (%x2 \
    %x4)) %x4))) (imp (all['a] (\\x4 'a (imp (%x0 %x4) (eq['a] (%x2 (%x1 %x4)) %x4)))) (imp \
    (eq[(fun 'a (fun 'b bool))] %x3 (\\x4 'a (\\x5 'b (eq['a] %x4 (%x2 %x5))))) (eq[(fun 'a \
    bool)] (Domainp['a 'b] %x3) %x0)))))))))))));\n\
law typedef_domain typedef_domain;\n\
axiom class_nonempty : (all[(fun 'a (fun 'a bool))] (\\x0 (fun 'a (fun 'a bool)) (imp \
    (part_equivp['a] %x0) ((\\x1 (fun 'a bool) (ex['a] (\\x2 'a (and (%x0 %x2 %x2) (eq[(fun 'a \
    bool)] %x1 (%x0 %x2)))))) (%x0 (eps['a] (\\x1 'a (%x0 %x1 %x1))))))));\n\
law class_nonempty class_nonempty;\n\
axiom class_quotient : (all[(fun 'a (fun 'a bool))] (\\x0 (fun 'a (fun 'a bool)) (all[(fun \
    (fun 'a bool) 'b)] (\\x1 (fun (fun 'a bool) 'b) (all[(fun 'b (fun 'a bool))] (\\x2 (fun 'b \
    (fun 'a bool)) (all[(fun 'a 'b)] (\\x3 (fun 'a 'b) (all[(fun 'b 'a)] (\\x4 (fun 'b 'a) \
    (all[(fun 'a (fun 'b bool))] (\\x5 (fun 'a (fun 'b bool)) (imp (part_equivp['a] %x0) (imp \
    (all['b] (\\x6 'b ((\\x7 (fun 'a bool) (ex['a] (\\x8 'a (and (%x0 %x8 %x8) (eq[(fun 'a \
    bool)] %x7 (%x0 %x8)))))) (%x2 %x6)))) (imp (all['b] (\\x6 'b (eq['b] (%x1 (%x2 %x6)) %x6))) \
    (imp (all[(fun 'a bool)] (\\x6 (fun 'a bool) (imp ((\\x7 (fun 'a bool) (ex['a] (\\x8 'a (and \
    (%x0 %x8 %x8) (eq[(fun 'a bool)] %x7 (%x0 %x8)))))) %x6) (eq[(fun 'a bool)] (%x2 (%x1 %x6)) \
    %x6)))) (imp (eq[(fun 'a 'b)] %x3 (\\x6 'a (%x1 (%x0 %x6)))) (imp (eq[(fun 'b 'a)] %x4 (\\x6 \
    'b (eps['a] (%x2 %x6)))) (imp (eq[(fun 'a (fun 'b bool))] %x5 (\\x6 'a (\\x7 'b (and (%x0 \
    %x6 %x6) (eq['b] (%x3 %x6) %x7))))) (Quotient['a 'b] %x0 %x3 %x4 %x5))))))))))))))))))));\n\
law class_quotient class_quotient;\n\
axiom quotient_rep : (all[(fun 'a (fun 'a bool))] (\\x0 (fun 'a (fun 'a bool)) (all[(fun 'a \
    'b)] (\\x1 (fun 'a 'b) (all[(fun 'b 'a)] (\\x2 (fun 'b 'a) (all[(fun 'a (fun 'b bool))] \
    (\\x3 (fun 'a (fun 'b bool)) (imp (Quotient['a 'b] %x0 %x1 %x2 %x3) (all['b] (\\x4 'b (%x0 \
    (%x2 %x4) (%x2 %x4)))))))))))));\n\
law quotient_rep quotient_rep;\n\
axiom abs_eq_step : (all[(fun 'a (fun 'a bool))] (\\x0 (fun 'a (fun 'a bool)) (all[(fun 'a \
    'c)] (\\x1 (fun 'a 'c) (all[(fun 'c 'a)] (\\x2 (fun 'c 'a) (all[(fun 'a (fun 'c bool))] \
    (\\x3 (fun 'a (fun 'c bool)) (all[(fun 'b (fun 'b bool))] (\\x4 (fun 'b (fun 'b bool)) \
    (all[(fun 'b 'd)] (\\x5 (fun 'b 'd) (all[(fun 'd 'b)] (\\x6 (fun 'd 'b) (all[(fun 'b (fun 'd \
    bool))] (\\x7 (fun 'b (fun 'd bool)) (all[(fun 'a 'b)] (\\x8 (fun 'a 'b) (all['a] (\\x9 'a \
    (imp (Quotient['a 'c] %x0 %x1 %x2 %x3) (imp (Quotient['b 'd] %x4 %x5 %x6 %x7) (imp \
    (rel_fun['a 'a 'b 'b] %x0 %x4 %x8 %x8) (imp (%x0 %x9 %x9) (eq['d] (map_fun['c 'a 'b 'd] %x2 \
    %x5 %x8 (%x1 %x9)) (%x5 (%x8 %x9)))))))))))))))))))))))))));\n\
law abs_eq_step abs_eq_step;\n\
axiom typedef_rep_abs : (all[(fun 'a bool)] (\\x0 (fun 'a bool) (all[(fun 'a 'b)] (\\x1 (fun \
    'a 'b) (all[(fun 'b 'a)] (\\x2 (fun 'b 'a) (all[(fun 'a (fun 'b bool))] (\\x3 (fun 'a (fun \
    'b bool)) (all['a] (\\x4 'a (imp (Quotient['a 'b] (eq_onp['a] %x0) %x1 %x2 %x3) (imp \
    (eq_onp['a] %x0 %x4 %x4) (eq['a] (%x2 (%x1 %x4)) %x4)))))))))))));\n\
law typedef_rep_abs typedef_rep_abs;\n\
axiom map_fun_apply : (all[(fun 'c 'a)] (\\x0 (fun 'c 'a) (all[(fun 'b 'd)] (\\x1 (fun 'b \
    'd) (all[(fun 'a 'b)] (\\x2 (fun 'a 'b) (all['c] (\\x3 'c (eq['d] (map_fun['c 'a 'b 'd] %x0 \
    %x1 %x2 %x3) (%x1 (%x2 (%x0 %x3))))))))))));\n\
law map_fun_apply map_fun_apply;\n\
axiom id_apply : (all['a] (\\x0 'a (eq['a] (id['a] %x0) %x0)));\n\
law id_apply id_apply;\n\
axiom relcompp_intro : (all[(fun 'a (fun 'b bool))] (\\x0 (fun 'a (fun 'b bool)) (all[(fun \
    'b (fun 'c bool))] (\\x1 (fun 'b (fun 'c bool)) (all['a] (\\x2 'a (all['b] (\\x3 'b (all['c] \
    (\\x4 'c (imp (%x0 %x2 %x3) (imp (%x1 %x3 %x4) (relcompp['a 'b 'c] %x0 %x1 %x2 \
    %x4)))))))))))));\n\
law relcompp_intro relcompp_intro;\n\
axiom relcompp_eq_left : (all[(fun 'a (fun 'b bool))] (\\x0 (fun 'a (fun 'b bool)) (eq[(fun \
    'a (fun 'b bool))] (relcompp['a 'a 'b] eq['a] %x0) %x0)));\n\
law relcompp_eq_left relcompp_eq_left;\n\
axiom relcompp_eq_right : (all[(fun 'a (fun 'b bool))] (\\x0 (fun 'a (fun 'b bool)) (eq[(fun \
    'a (fun 'b bool))] (relcompp['a 'b 'b] %x0 eq['b]) %x0)));\n\
law relcompp_eq_right relcompp_eq_right;\n\
axiom relcompp_assoc : (all[(fun 'a (fun 'b bool))] (\\x0 (fun 'a (fun 'b bool)) (all[(fun \
    'b (fun 'c bool))] (\\x1 (fun 'b (fun 'c bool)) (all[(fun 'c (fun 'd bool))] (\\x2 (fun 'c \
    (fun 'd bool)) (eq[(fun 'a (fun 'd bool))] (relcompp['a 'c 'd] (relcompp['a 'b 'c] %x0 %x1) \
    %x2) (relcompp['a 'b 'd] %x0 (relcompp['b 'c 'd] %x1 %x2)))))))));\n\
law relcompp_assoc relcompp_assoc;\n\
axiom rel_fun_distr : (all[(fun 'a (fun 'b bool))] (\\x0 (fun 'a (fun 'b bool)) (all[(fun 'c \
    (fun 'd bool))] (\\x1 (fun 'c (fun 'd bool)) (all[(fun 'b (fun 'e bool))] (\\x2 (fun 'b (fun \
    'e bool)) (all[(fun 'd (fun 'k bool))] (\\x3 (fun 'd (fun 'k bool)) (all[(fun 'a 'c)] (\\x4 \
    (fun 'a 'c) (all[(fun 'e 'k)] (\\x5 (fun 'e 'k) (imp (relcompp[(fun 'a 'c) (fun 'b 'd) (fun \
    'e 'k)] (rel_fun['a 'b 'c 'd] %x0 %x1) (rel_fun['b 'e 'd 'k] %x2 %x3) %x4 %x5) (rel_fun['a \
    'e 'c 'k] (relcompp['a 'b 'e] %x0 %x2) (relcompp['c 'd 'k] %x1 %x3) %x4 %x5))))))))))))));\n\
law rel_fun_distr rel_fun_distr;\n\
axiom eq_transfer : (all[(fun 'a (fun 'b bool))] (\\x0 (fun 'a (fun 'b bool)) (imp \
    (bi_unique['a 'b] %x0) (rel_fun['a 'b (fun 'a bool) (fun 'b bool)] %x0 (rel_fun['a 'b bool \
    bool] %x0 eq[bool]) eq['a] eq['b]))));\n\
rule eq_transfer;\n\
axiom all_transfer : (all[(fun 'a (fun 'b bool))] (\\x0 (fun 'a (fun 'b bool)) (imp \
    (bi_total['a 'b] %x0) (rel_fun[(fun 'a bool) (fun 'b bool) bool bool] (rel_fun['a 'b bool \
    bool] %x0 eq[bool]) eq[bool] all['a] all['b]))));\n\
rule all_transfer;\n\
axiom ex_transfer : (all[(fun 'a (fun 'b bool))] (\\x0 (fun 'a (fun 'b bool)) (imp \
    (bi_total['a 'b] %x0) (rel_fun[(fun 'a bool) (fun 'b bool) bool bool] (rel_fun['a 'b bool \
    bool] %x0 eq[bool]) eq[bool] ex['a] ex['b]))));\n\
rule ex_transfer;\n\
axiom all_bounded : (all[(fun 'a (fun 'b bool))] (\\x0 (fun 'a (fun 'b bool)) (imp \
    (right_total['a 'b] %x0) (rel_fun[(fun 'a bool) (fun 'b bool) bool bool] (rel_fun['a 'b bool \
    bool] %x0 eq[bool]) eq[bool] (\\x1 (fun 'a bool) (all['a] (\\x2 'a (imp (Domainp['a 'b] %x0 \
    %x2) (%x1 %x2))))) all['b]))));\n\
axiom all_implies : (all[(fun 'a (fun 'b bool))] (\\x0 (fun 'a (fun 'b bool)) (imp \
    (right_total['a 'b] %x0) (rel_fun[(fun 'a bool) (fun 'b bool) bool bool] (rel_fun['a 'b bool \
    bool] %x0 eq[bool]) imp all['a] all['b]))));\n\
axiom fun_left_total : (all[(fun 'a (fun 'b bool))] (\\x0 (fun 'a (fun 'b bool)) (all[(fun \
    'c (fun 'd bool))] (\\x1 (fun 'c (fun 'd bool)) (imp (left_unique['a 'b] %x0) (imp \
    (left_total['c 'd] %x1) (left_total[(fun 'a 'c) (fun 'b 'd)] (rel_fun['a 'b 'c 'd] %x0 \
    %x1))))))));\n\
property fun_left_total;\n\
axiom fun_right_total : (all[(fun 'a (fun 'b bool))] (\\x0 (fun 'a (fun 'b bool)) (all[(fun \
    'c (fun 'd bool))] (\\x1 (fun 'c (fun 'd bool)) (imp (right_unique['a 'b] %x0) (imp \
    (right_total['c 'd] %x1) (right_total[(fun 'a 'c) (fun 'b 'd)] (rel_fun['a 'b 'c 'd] %x0 \
    %x1))))))));\n\
property fun_right_total;\n\
axiom fun_left_unique : (all[(fun 'a (fun 'b bool))] (\\x0 (fun 'a (fun 'b bool)) (all[(fun \
    'c (fun 'd bool))] (\\x1 (fun 'c (fun 'd bool)) (imp (left_total['a 'b] %x0) (imp \
    (left_unique['c 'd] %x1) (left_unique[(fun 'a 'c) (fun 'b 'd)] (rel_fun['a 'b 'c 'd] %x0 \
    %x1))))))));\n\
property fun_left_unique;\n\
axiom fun_right_unique : (all[(fun 'a (fun 'b bool))] (\\x0 (fun 'a (fun 'b bool)) (all[(fun \
    'c (fun 'd bool))] (\\x1 (fun 'c (fun 'd bool)) (imp (right_total['a 'b] %x0) (imp \
    (right_unique['c 'd] %x1) (right_unique[(fun 'a 'c) (fun 'b 'd)] (rel_fun['a 'b 'c 'd] %x0 \
    %x1))))))));\n\
property fun_right_unique;\n\
axiom fun_bi_total : (all[(fun 'a (fun 'b bool))] (\\x0 (fun 'a (fun 'b bool)) (all[(fun 'c \
    (fun 'd bool))] (\\x1 (fun 'c (fun 'd bool)) (imp (bi_unique['a 'b] %x0) (imp (bi_total['c \
    'd] %x1) (bi_total[(fun 'a 'c) (fun 'b 'd)] (rel_fun['a 'b 'c 'd] %x0 %x1))))))));\n\
property fun_bi_total;\n\
axiom fun_bi_unique : (all[(fun 'a (fun 'b bool))] (\\x0 (fun 'a (fun 'b bool)) (all[(fun 'c \
    (fun 'd bool))] (\\x1 (fun 'c (fun 'd bool)) (imp (bi_total['a 'b] %x0) (imp (bi_unique['c \
    'd] %x1) (bi_unique[(fun 'a 'c) (fun 'b 'd)] (rel_fun['a 'b 'c 'd] %x0 %x1))))))));\n\
property fun_bi_unique;\n\
";

/// The theory text of the definitions and the laws that transports stand on, as axioms, each with
/// its registration.
pub fn laws_text(alloc: Global) -> Result<Vec<u8>, Memory>
    ensures { IfOk result (λ bytes. bytes.items ≡ encode_utf8_all laws_text) }
{
    let mut text = Text::new(alloc);
    text.signs(LAWS)?;
    Ok(text.finish().into_bytes())
}
