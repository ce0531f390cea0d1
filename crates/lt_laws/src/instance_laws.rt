//! What each law gives at types and terms. Each function does nothing: its contract is the law.
ghost use Rattle.std.specs.Prelude.{◌≡◌, [], ◌∷◌, codes};
ghost use Rattle.lt_definitions.specs.Types.{TypeMap, bool};
ghost use Rattle.lt_nameless.specs.Nameless.{Nameless};
ghost use Rattle.lt_programs.specs.Programs.{theorem};
ghost use Rattle.lt_transport_definitions.specs.Notation.{◌⇒◌, ◌~◌};
ghost use Rattle.lt_transport_definitions.specs.Letters.{a, b, c, d, e, k};
ghost use Rattle.lt_laws.specs.Forms.{◌·◌, ◌⟶◌, bound, con, each, equal, lambda, put};
ghost use Rattle.lt_laws.specs.Instances.{law_at};

/// The laws of the function relator.
pub fn functions()
    ensures rel_fun_app { (m : TypeMap) (R S f g x y : Nameless) → law_at (codes "rel_fun_app") m
        (R ∷ S ∷ f ∷ g ∷ x ∷ y ∷ []) ≡ theorem (con m "rel_fun" (a ∷ c ∷ b ∷ d ∷ []) · R · S · f ·
        g ⟶ R · x · y ⟶ S · (f · x) · (g · y)) }
    ensures rel_fun_abs { (m : TypeMap) (R S f g : Nameless) → law_at (codes "rel_fun_abs") m (R ∷
        S ∷ f ∷ g ∷ []) ≡ theorem (each (put m a) (each (put m c) (R · bound 1 · bound 0 ⟶ S · (f ·
        bound 1) · (g · bound 0))) ⟶ con m "rel_fun" (a ∷ c ∷ b ∷ d ∷ []) · R · S · f · g) }
    ensures rel_fun_eq { (m : TypeMap) → law_at (codes "rel_fun_eq") m [] ≡ theorem (equal (put m
        ((a ⇒ b) ~ (a ⇒ b))) (con m "rel_fun" (a ∷ a ∷ b ∷ b ∷ []) · con m "eq" (a ∷ []) · con m
        "eq" (b ∷ [])) (con m "eq" ((a ⇒ b) ∷ []))) }
    ensures rel_fun_distr { (m : TypeMap) (R S U V f h : Nameless) → law_at (codes "rel_fun_distr")
        m (R ∷ S ∷ U ∷ V ∷ f ∷ h ∷ []) ≡ theorem (con m "relcompp" ((a ⇒ c) ∷ (b ⇒ d) ∷ (e ⇒ k) ∷
        []) · (con m "rel_fun" (a ∷ b ∷ c ∷ d ∷ []) · R · S) · (con m "rel_fun" (b ∷ e ∷ d ∷ k ∷
        []) · U · V) · f · h ⟶ con m "rel_fun" (a ∷ e ∷ c ∷ k ∷ []) · (con m "relcompp" (a ∷ b ∷ e
        ∷ []) · R · U) · (con m "relcompp" (c ∷ d ∷ k ∷ []) · S · V) · f · h) }
    ensures map_fun_apply { (m : TypeMap) (f g h x : Nameless) → law_at (codes "map_fun_apply") m
        (f ∷ g ∷ h ∷ x ∷ []) ≡ theorem (equal (put m d) (con m "map_fun" (c ∷ a ∷ b ∷ d ∷ []) · f ·
        g · h · x) (g · (h · (f · x)))) }
    ensures id_apply { (m : TypeMap) (x : Nameless) → law_at (codes "id_apply") m (x ∷ []) ≡
        theorem (equal (put m a) (con m "id" (a ∷ []) · x) x) }
{}

/// The properties of equality.
pub fn equalities()
    ensures left_total_eq { (m : TypeMap) → law_at (codes "left_total_eq") m [] ≡ theorem (con m
        "left_total" (a ∷ a ∷ []) · con m "eq" (a ∷ [])) }
    ensures right_total_eq { (m : TypeMap) → law_at (codes "right_total_eq") m [] ≡ theorem (con m
        "right_total" (a ∷ a ∷ []) · con m "eq" (a ∷ [])) }
    ensures left_unique_eq { (m : TypeMap) → law_at (codes "left_unique_eq") m [] ≡ theorem (con m
        "left_unique" (a ∷ a ∷ []) · con m "eq" (a ∷ [])) }
    ensures right_unique_eq { (m : TypeMap) → law_at (codes "right_unique_eq") m [] ≡ theorem (con
        m "right_unique" (a ∷ a ∷ []) · con m "eq" (a ∷ [])) }
    ensures bi_total_eq { (m : TypeMap) → law_at (codes "bi_total_eq") m [] ≡ theorem (con m
        "bi_total" (a ∷ a ∷ []) · con m "eq" (a ∷ [])) }
    ensures bi_unique_eq { (m : TypeMap) → law_at (codes "bi_unique_eq") m [] ≡ theorem (con m
        "bi_unique" (a ∷ a ∷ []) · con m "eq" (a ∷ [])) }
{}

/// The laws of composition.
pub fn compositions()
    ensures relcompp_intro { (m : TypeMap) (R S x y z : Nameless) → law_at (codes "relcompp_intro")
        m (R ∷ S ∷ x ∷ y ∷ z ∷ []) ≡ theorem (R · x · y ⟶ S · y · z ⟶ con m "relcompp" (a ∷ b ∷ c ∷
        []) · R · S · x · z) }
    ensures relcompp_eq_left { (m : TypeMap) (T : Nameless) → law_at (codes "relcompp_eq_left") m
        (T ∷ []) ≡ theorem (equal (put m (a ~ b)) (con m "relcompp" (a ∷ a ∷ b ∷ []) · con m "eq"
        (a ∷ []) · T) T) }
    ensures relcompp_eq_right { (m : TypeMap) (R : Nameless) → law_at (codes "relcompp_eq_right") m
        (R ∷ []) ≡ theorem (equal (put m (a ~ b)) (con m "relcompp" (a ∷ b ∷ b ∷ []) · R · con m
        "eq" (b ∷ [])) R) }
    ensures relcompp_assoc { (m : TypeMap) (R S T : Nameless) → law_at (codes "relcompp_assoc") m
        (R ∷ S ∷ T ∷ []) ≡ theorem (equal (put m (a ~ d)) (con m "relcompp" (a ∷ c ∷ d ∷ []) · (con
        m "relcompp" (a ∷ b ∷ c ∷ []) · R · S) · T) (con m "relcompp" (a ∷ b ∷ d ∷ []) · R · (con m
        "relcompp" (b ∷ c ∷ d ∷ []) · S · T))) }
{}

/// The laws of compound quotients.
pub fn compound_quotients()
    ensures id_quotient { (m : TypeMap) → law_at (codes "id_quotient") m [] ≡ theorem (con m
        "Quotient" (a ∷ a ∷ []) · con m "eq" (a ∷ []) · con m "id" (a ∷ []) · con m "id" (a ∷ []) ·
        con m "eq" (a ∷ [])) }
    ensures fun_quotient { (m : TypeMap) (R1 A1 B1 T1 R2 A2 B2 T2 : Nameless) → law_at (codes
        "fun_quotient") m (R1 ∷ A1 ∷ B1 ∷ T1 ∷ R2 ∷ A2 ∷ B2 ∷ T2 ∷ []) ≡ theorem (con m "Quotient"
        (a ∷ c ∷ []) · R1 · A1 · B1 · T1 ⟶ con m "Quotient" (b ∷ d ∷ []) · R2 · A2 · B2 · T2 ⟶ con
        m "Quotient" ((a ⇒ b) ∷ (c ⇒ d) ∷ []) · (con m "rel_fun" (a ∷ a ∷ b ∷ b ∷ []) · R1 · R2) ·
        (con m "map_fun" (c ∷ a ∷ b ∷ d ∷ []) · B1 · A2) · (con m "map_fun" (a ∷ c ∷ d ∷ b ∷ []) ·
        A1 · B2) · (con m "rel_fun" (a ∷ c ∷ b ∷ d ∷ []) · T1 · T2)) }
    ensures quotient_compose { (m : TypeMap) (R1 A1 B1 T1 R2 A2 B2 T2 : Nameless) → law_at (codes
        "quotient_compose") m (R1 ∷ A1 ∷ B1 ∷ T1 ∷ R2 ∷ A2 ∷ B2 ∷ T2 ∷ []) ≡ theorem (con m
        "Quotient" (a ∷ b ∷ []) · R1 · A1 · B1 · T1 ⟶ con m "Quotient" (b ∷ c ∷ []) · R2 · A2 · B2
        · T2 ⟶ con m "Quotient" (a ∷ c ∷ []) · (con m "relcompp" (a ∷ b ∷ a ∷ []) · T1 · (con m
        "relcompp" (b ∷ b ∷ a ∷ []) · R2 · (con m "conversep" (a ∷ b ∷ []) · T1))) · (con m "comp"
        (b ∷ c ∷ a ∷ []) · A2 · A1) · (con m "comp" (b ∷ a ∷ c ∷ []) · B1 · B2) · (con m "relcompp"
        (a ∷ b ∷ c ∷ []) · T1 · T2)) }
    ensures abs_eq_step { (m : TypeMap) (R1 A1 B1 T1 R2 A2 B2 T2 t x : Nameless) → law_at (codes
        "abs_eq_step") m (R1 ∷ A1 ∷ B1 ∷ T1 ∷ R2 ∷ A2 ∷ B2 ∷ T2 ∷ t ∷ x ∷ []) ≡ theorem (con m
        "Quotient" (a ∷ c ∷ []) · R1 · A1 · B1 · T1 ⟶ con m "Quotient" (b ∷ d ∷ []) · R2 · A2 · B2
        · T2 ⟶ con m "rel_fun" (a ∷ a ∷ b ∷ b ∷ []) · R1 · R2 · t · t ⟶ R1 · x · x ⟶ equal (put m
        d) (con m "map_fun" (c ∷ a ∷ b ∷ d ∷ []) · B1 · A2 · t · (A1 · x)) (A2 · (t · x))) }
{}

/// The laws of a quotient.
pub fn quotients()
    ensures quotient_lift { (m : TypeMap) (R A B T t c' : Nameless) → law_at (codes
        "quotient_lift") m (R ∷ A ∷ B ∷ T ∷ t ∷ c' ∷ []) ≡ theorem (con m "Quotient" (a ∷ b ∷ []) ·
        R · A · B · T ⟶ R · t · t ⟶ equal (put m b) c' (A · t) ⟶ T · t · c') }
    ensures quotient_right_total { (m : TypeMap) (R A B T : Nameless) → law_at (codes
        "quotient_right_total") m (R ∷ A ∷ B ∷ T ∷ []) ≡ theorem (con m "Quotient" (a ∷ b ∷ []) · R
        · A · B · T ⟶ con m "right_total" (a ∷ b ∷ []) · T) }
    ensures quotient_right_unique { (m : TypeMap) (R A B T : Nameless) → law_at (codes
        "quotient_right_unique") m (R ∷ A ∷ B ∷ T ∷ []) ≡ theorem (con m "Quotient" (a ∷ b ∷ []) ·
        R · A · B · T ⟶ con m "right_unique" (a ∷ b ∷ []) · T) }
    ensures quotient_rel { (m : TypeMap) (R A B T : Nameless) → law_at (codes "quotient_rel") m (R
        ∷ A ∷ B ∷ T ∷ []) ≡ theorem (con m "Quotient" (a ∷ b ∷ []) · R · A · B · T ⟶ con m
        "rel_fun" (a ∷ b ∷ (a ⇒ bool) ∷ (b ⇒ bool) ∷ []) · T · (con m "rel_fun" (a ∷ b ∷ bool ∷
        bool ∷ []) · T · con m "eq" (bool ∷ [])) · R · con m "eq" (b ∷ [])) }
    ensures quotient_domain { (m : TypeMap) (R A B T : Nameless) → law_at (codes "quotient_domain")
        m (R ∷ A ∷ B ∷ T ∷ []) ≡ theorem (con m "Quotient" (a ∷ b ∷ []) · R · A · B · T ⟶ equal
        (put m (a ⇒ bool)) (con m "Domainp" (a ∷ b ∷ []) · T) (lambda (put m a) (R · bound 0 ·
        bound 0))) }
    ensures quotient_rep { (m : TypeMap) (R A B T : Nameless) → law_at (codes "quotient_rep") m (R
        ∷ A ∷ B ∷ T ∷ []) ≡ theorem (con m "Quotient" (a ∷ b ∷ []) · R · A · B · T ⟶ each (put m b)
        (R · (B · bound 0) · (B · bound 0))) }
{}

/// The laws of a type definition.
pub fn typedefs()
    ensures typedef_quotient { (m : TypeMap) (P A B T : Nameless) → law_at (codes
        "typedef_quotient") m (P ∷ A ∷ B ∷ T ∷ []) ≡ theorem (each (put m b) (P · (B · bound 0)) ⟶
        each (put m b) (equal (put m b) (A · (B · bound 0)) (bound 0)) ⟶ each (put m a) (P · bound
        0 ⟶ equal (put m a) (B · (A · bound 0)) (bound 0)) ⟶ equal (put m (a ~ b)) T (lambda (put m
        a) (lambda (put m b) (equal (put m a) (bound 1) (B · bound 0)))) ⟶ con m "Quotient" (a ∷ b
        ∷ []) · (con m "eq_onp" (a ∷ []) · P) · A · B · T) }
    ensures typedef_bi_unique { (m : TypeMap) (A B T : Nameless) → law_at (codes
        "typedef_bi_unique") m (A ∷ B ∷ T ∷ []) ≡ theorem (each (put m b) (equal (put m b) (A · (B
        · bound 0)) (bound 0)) ⟶ equal (put m (a ~ b)) T (lambda (put m a) (lambda (put m b) (equal
        (put m a) (bound 1) (B · bound 0)))) ⟶ con m "bi_unique" (a ∷ b ∷ []) · T) }
    ensures typedef_domain { (m : TypeMap) (P A B T : Nameless) → law_at (codes "typedef_domain") m
        (P ∷ A ∷ B ∷ T ∷ []) ≡ theorem (each (put m b) (P · (B · bound 0)) ⟶ each (put m b) (equal
        (put m b) (A · (B · bound 0)) (bound 0)) ⟶ each (put m a) (P · bound 0 ⟶ equal (put m a) (B
        · (A · bound 0)) (bound 0)) ⟶ equal (put m (a ~ b)) T (lambda (put m a) (lambda (put m b)
        (equal (put m a) (bound 1) (B · bound 0)))) ⟶ equal (put m (a ⇒ bool)) (con m "Domainp" (a
        ∷ b ∷ []) · T) P) }
    ensures typedef_rep_abs { (m : TypeMap) (P A B T x : Nameless) → law_at (codes
        "typedef_rep_abs") m (P ∷ A ∷ B ∷ T ∷ x ∷ []) ≡ theorem (con m "Quotient" (a ∷ b ∷ []) ·
        (con m "eq_onp" (a ∷ []) · P) · A · B · T ⟶ con m "eq_onp" (a ∷ []) · P · x · x ⟶ equal
        (put m a) (B · (A · x)) x) }
{}

/// The laws of quotient types by classes.
pub fn classes()
    ensures class_nonempty { (m : TypeMap) (R : Nameless) → law_at (codes "class_nonempty") m (R ∷
        []) ≡ theorem (con m "part_equivp" (a ∷ []) · R ⟶ lambda (put m (a ⇒ bool)) (con m "ex" (a
        ∷ []) · lambda (put m a) (con m "and" [] · (R · bound 0 · bound 0) · equal (put m (a ⇒
        bool)) (bound 1) (R · bound 0))) · (R · (con m "eps" (a ∷ []) · lambda (put m a) (R · bound
        0 · bound 0)))) }
    ensures class_quotient { (m : TypeMap) (R K L A B T : Nameless) → law_at (codes
        "class_quotient") m (R ∷ K ∷ L ∷ A ∷ B ∷ T ∷ []) ≡ theorem (con m "part_equivp" (a ∷ []) ·
        R ⟶ each (put m b) (lambda (put m (a ⇒ bool)) (con m "ex" (a ∷ []) · lambda (put m a) (con
        m "and" [] · (R · bound 0 · bound 0) · equal (put m (a ⇒ bool)) (bound 1) (R · bound 0))) ·
        (L · bound 0)) ⟶ each (put m b) (equal (put m b) (K · (L · bound 0)) (bound 0)) ⟶ each (put
        m (a ⇒ bool)) (lambda (put m (a ⇒ bool)) (con m "ex" (a ∷ []) · lambda (put m a) (con m
        "and" [] · (R · bound 0 · bound 0) · equal (put m (a ⇒ bool)) (bound 1) (R · bound 0))) ·
        bound 0 ⟶ equal (put m (a ⇒ bool)) (L · (K · bound 0)) (bound 0)) ⟶ equal (put m (a ⇒ b)) A
        (lambda (put m a) (K · (R · bound 0))) ⟶ equal (put m (b ⇒ a)) B (lambda (put m b) (con m
        "eps" (a ∷ []) · (L · bound 0))) ⟶ equal (put m (a ~ b)) T (lambda (put m a) (lambda (put m
        b) (con m "and" [] · (R · bound 1 · bound 1) · equal (put m b) (A · bound 1) (bound 0)))) ⟶
        con m "Quotient" (a ∷ b ∷ []) · R · A · B · T) }
{}
