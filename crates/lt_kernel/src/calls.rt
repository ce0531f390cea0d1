//! A call for each rule of the kernel: `apply` of its line.
//!
//! Each names its reasons in their order. A rule with two lines looks for the first one first.
ghost use Rattle.std.specs.Prelude.{◌≡◌, ◌<◌, None};
ghost use Rattle.lt_definitions.specs.Typing.{type_fault};
ghost use Rattle.lt_nameless.specs.NamelessRules.{nameless_assume_gives, nameless_weaken_gives, nameless_refl_gives, nameless_sym_gives, nameless_trans_gives, nameless_cong_gives, nameless_abs_gives, nameless_beta_gives, nameless_eta_gives, nameless_eqmp_gives, nameless_impI_gives, nameless_mp_gives, nameless_allI_gives, nameless_allE_gives, nameless_iff_gives, nameless_inst_gives, nameless_tinst_gives, nameless_select_gives, nameless_ccontr_gives, nameless_thm_gives};
ghost use Rattle.lt_hol.specs.declared.line.Line.TheVariants as line;
ghost use Rattle.lt_store.specs.Typed.{IsTyped};
ghost use Rattle.lt_store.specs.Trees.{tree_at};
ghost use Rattle.lt_kernel.specs.State.{sequents, statements, Answers};
ghost use Rattle.lt_kernel.specs.Growing.{Carries};
ghost use Rattle.lt_kernel.specs.Reaching.{Reaches};

use crate::proof::Proof;
use crate::rule_fault::RuleFault;
use lt_hol::{Line, Name, Ty};
use lt_store::{Id, TermStore};
use std::alloc::Global;

impl<S: TermStore> Proof<S> {
    /// `p |- p`. `NotBool`.
    pub fn assume(&mut self, alloc: Global, p: Id) -> Result<usize, RuleFault>
        requires { IsTyped self.old.signature self.old.nodes p }
        ensures answers { Answers self.old self.new (line.Assume p) result
            (nameless_assume_gives self.old.signature (tree_at self.old.nodes p)) }
        ensures reaches { Reaches self.new result
            (nameless_assume_gives self.old.signature (tree_at self.old.nodes p)) }
        ensures carries { Carries self.old self.new }
    {
        self.apply(alloc, &Line::Assume(p))
    }

    /// From `H |- q`: `H, p |- q`. `MissingLine`, `NotBool`.
    pub fn weaken(&mut self, alloc: Global, p: Id, i: usize) -> Result<usize, RuleFault>
        requires { IsTyped self.old.signature self.old.nodes p }
        ensures answers { Answers self.old self.new (line.Weaken p i) result
            (nameless_weaken_gives self.old.signature (sequents self.old)
            (tree_at self.old.nodes p) i) }
        ensures reaches { Reaches self.new result
            (nameless_weaken_gives self.old.signature (sequents self.old)
            (tree_at self.old.nodes p) i) }
        ensures carries { Carries self.old self.new }
    {
        self.apply(alloc, &Line::Weaken(p, i))
    }

    /// `|- t = t`.
    pub fn refl(&mut self, alloc: Global, t: Id) -> Result<usize, RuleFault>
        requires { IsTyped self.old.signature self.old.nodes t }
        ensures answers { Answers self.old self.new (line.Refl t) result
            (nameless_refl_gives self.old.signature (tree_at self.old.nodes t)) }
        ensures reaches { Reaches self.new result
            (nameless_refl_gives self.old.signature (tree_at self.old.nodes t)) }
        ensures carries { Carries self.old self.new }
    {
        self.apply(alloc, &Line::Refl(t))
    }

    /// From `H |- s = t`: `H |- t = s`. `MissingLine`, `NotEquation`.
    pub fn sym(&mut self, alloc: Global, i: usize) -> Result<usize, RuleFault>
        ensures answers { Answers self.old self.new (line.Sym i) result
            (nameless_sym_gives (sequents self.old) i) }
        ensures reaches { Reaches self.new result (nameless_sym_gives (sequents self.old) i) }
        ensures carries { Carries self.old self.new }
    {
        self.apply(alloc, &Line::Sym(i))
    }

    /// From `H |- r = s` and `K |- s = t`: `H, K |- r = t`. `MissingLine`, `NotEquation`, `MiddleDiffers`.
    pub fn trans(&mut self, alloc: Global, i: usize, j: usize) -> Result<usize, RuleFault>
        ensures answers { Answers self.old self.new (line.Trans i j) result
            (nameless_trans_gives (sequents self.old) i j) }
        ensures reaches { Reaches self.new result (nameless_trans_gives (sequents self.old) i j) }
        ensures carries { Carries self.old self.new }
    {
        self.apply(alloc, &Line::Trans(i, j))
    }

    /// From `H |- f = g` and `K |- a = b`: `H, K |- f a = g b`. `MissingLine`, `NotEquation`, `TypeDiffers`.
    pub fn cong(&mut self, alloc: Global, i: usize, j: usize) -> Result<usize, RuleFault>
        ensures answers { Answers self.old self.new (line.Cong i j) result
            (nameless_cong_gives (sequents self.old) i j) }
        ensures reaches { Reaches self.new result (nameless_cong_gives (sequents self.old) i j) }
        ensures carries { Carries self.old self.new }
    {
        self.apply(alloc, &Line::Cong(i, j))
    }

    /// From `H |- s = t`: `H |- (\x. s) = (\x. t)`. `MissingLine`, `NotEquation`, `VariableInHypothesis`.
    pub fn abs(&mut self, alloc: Global, x: Name, ty: Ty, i: usize) -> Result<usize, RuleFault>
        requires { type_fault self.old.signature ty ≡ None }
        ensures answers { Answers self.old self.new (line.Abs x ty i) result
            (nameless_abs_gives (sequents self.old) x ty i) }
        ensures reaches { Reaches self.new result (nameless_abs_gives (sequents self.old) x ty i) }
        ensures carries { Carries self.old self.new }
    {
        self.apply(alloc, &Line::Abs(x, ty, i))
    }

    /// `|- t = b`, the body of a redex opened. `NotRedex`.
    pub fn beta(&mut self, alloc: Global, t: Id) -> Result<usize, RuleFault>
        requires { IsTyped self.old.signature self.old.nodes t }
        ensures answers { Answers self.old self.new (line.Beta t) result
            (nameless_beta_gives self.old.signature (tree_at self.old.nodes t)) }
        ensures reaches { Reaches self.new result
            (nameless_beta_gives self.old.signature (tree_at self.old.nodes t)) }
        ensures carries { Carries self.old self.new }
    {
        self.apply(alloc, &Line::Beta(t))
    }

    /// `|- t = f`, where `t` is `\x. f x`. `NotRedex`.
    pub fn eta(&mut self, alloc: Global, t: Id) -> Result<usize, RuleFault>
        requires { IsTyped self.old.signature self.old.nodes t }
        ensures answers { Answers self.old self.new (line.Eta t) result
            (nameless_eta_gives self.old.signature (tree_at self.old.nodes t)) }
        ensures reaches { Reaches self.new result
            (nameless_eta_gives self.old.signature (tree_at self.old.nodes t)) }
        ensures carries { Carries self.old self.new }
    {
        self.apply(alloc, &Line::Eta(t))
    }

    /// From `H |- p = q` and `K |- p`: `H, K |- q`. `MissingLine`, `NotEquation`, `MiddleDiffers`.
    pub fn eqmp(&mut self, alloc: Global, i: usize, j: usize) -> Result<usize, RuleFault>
        ensures answers { Answers self.old self.new (line.Eqmp i j) result
            (nameless_eqmp_gives (sequents self.old) i j) }
        ensures reaches { Reaches self.new result (nameless_eqmp_gives (sequents self.old) i j) }
        ensures carries { Carries self.old self.new }
    {
        self.apply(alloc, &Line::Eqmp(i, j))
    }

    /// From `H |- q`: `H` without `p |- p --> q`. `MissingLine`, `NotBool`.
    pub fn impI(&mut self, alloc: Global, p: Id, i: usize) -> Result<usize, RuleFault>
        requires { IsTyped self.old.signature self.old.nodes p }
        ensures answers { Answers self.old self.new (line.ImpI p i) result
            (nameless_impI_gives self.old.signature (sequents self.old)
            (tree_at self.old.nodes p) i) }
        ensures reaches { Reaches self.new result
            (nameless_impI_gives self.old.signature (sequents self.old)
            (tree_at self.old.nodes p) i) }
        ensures carries { Carries self.old self.new }
    {
        self.apply(alloc, &Line::ImpI(p, i))
    }

    /// From `H |- p --> q` and `K |- p`: `H, K |- q`. `MissingLine`, `NotImplication`, `MiddleDiffers`.
    pub fn mp(&mut self, alloc: Global, i: usize, j: usize) -> Result<usize, RuleFault>
        ensures answers { Answers self.old self.new (line.Mp i j) result
            (nameless_mp_gives (sequents self.old) i j) }
        ensures reaches { Reaches self.new result (nameless_mp_gives (sequents self.old) i j) }
        ensures carries { Carries self.old self.new }
    {
        self.apply(alloc, &Line::Mp(i, j))
    }

    /// From `H |- p`: `H |- all x. p`. `MissingLine`, `VariableInHypothesis`.
    pub fn allI(&mut self, alloc: Global, x: Name, ty: Ty, i: usize) -> Result<usize, RuleFault>
        requires { type_fault self.old.signature ty ≡ None }
        ensures answers { Answers self.old self.new (line.AllI x ty i) result
            (nameless_allI_gives (sequents self.old) x ty i) }
        ensures reaches { Reaches self.new result (nameless_allI_gives (sequents self.old) x ty i) }
        ensures carries { Carries self.old self.new }
    {
        self.apply(alloc, &Line::AllI(x, ty, i))
    }

    /// From `H |- all p`: `H |- p` opened by `t`, or `p t`. `MissingLine`, `NotForall`, `TypeDiffers`.
    pub fn allE(&mut self, alloc: Global, t: Id, i: usize) -> Result<usize, RuleFault>
        requires { IsTyped self.old.signature self.old.nodes t }
        ensures answers { Answers self.old self.new (line.AllE t i) result
            (nameless_allE_gives self.old.signature (sequents self.old)
            (tree_at self.old.nodes t) i) }
        ensures reaches { Reaches self.new result
            (nameless_allE_gives self.old.signature (sequents self.old)
            (tree_at self.old.nodes t) i) }
        ensures carries { Carries self.old self.new }
    {
        self.apply(alloc, &Line::AllE(t, i))
    }

    /// From `H |- p --> q` and `K |- q --> p`: `H, K |- p = q`. `MissingLine`, `NotImplication`, `MiddleDiffers`.
    pub fn iff(&mut self, alloc: Global, i: usize, j: usize) -> Result<usize, RuleFault>
        ensures answers { Answers self.old self.new (line.Iff i j) result
            (nameless_iff_gives (sequents self.old) i j) }
        ensures reaches { Reaches self.new result (nameless_iff_gives (sequents self.old) i j) }
        ensures carries { Carries self.old self.new }
    {
        self.apply(alloc, &Line::Iff(i, j))
    }

    /// From `H |- p`: the variable replaced by `t` in both. `MissingLine`, `TypeDiffers`.
    pub fn inst(
        &mut self,
        alloc: Global,
        x: Name,
        ty: Ty,
        t: Id,
        i: usize,
    ) -> Result<usize, RuleFault>
        requires ty { type_fault self.old.signature ty ≡ None }
        requires t { IsTyped self.old.signature self.old.nodes t }
        ensures answers { Answers self.old self.new (line.Inst x ty t i) result
            (nameless_inst_gives self.old.signature (sequents self.old) x ty
            (tree_at self.old.nodes t) i) }
        ensures reaches { Reaches self.new result
            (nameless_inst_gives self.old.signature (sequents self.old) x ty
            (tree_at self.old.nodes t) i) }
        ensures carries { Carries self.old self.new }
    {
        self.apply(alloc, &Line::Inst(x, ty, t, i))
    }

    /// From `H |- p`: the type variable replaced by the type in both. `MissingLine`.
    pub fn tinst(&mut self, alloc: Global, a: Name, ty: Ty, i: usize) -> Result<usize, RuleFault>
        requires { type_fault self.old.signature ty ≡ None }
        ensures answers { Answers self.old self.new (line.Tinst a ty i) result
            (nameless_tinst_gives (sequents self.old) a ty i) }
        ensures reaches { Reaches self.new result
            (nameless_tinst_gives (sequents self.old) a ty i) }
        ensures carries { Carries self.old self.new }
    {
        self.apply(alloc, &Line::Tinst(a, ty, i))
    }

    /// `|- all x. p x --> p (eps p)`. `TypeDiffers`.
    pub fn select(&mut self, alloc: Global, p: Id) -> Result<usize, RuleFault>
        requires { IsTyped self.old.signature self.old.nodes p }
        ensures answers { Answers self.old self.new (line.Select p) result
            (nameless_select_gives self.old.signature (tree_at self.old.nodes p)) }
        ensures reaches { Reaches self.new result
            (nameless_select_gives self.old.signature (tree_at self.old.nodes p)) }
        ensures carries { Carries self.old self.new }
    {
        self.apply(alloc, &Line::Select(p))
    }

    /// `|- ((p --> F) --> F) --> p`. `NotBool`.
    pub fn ccontr(&mut self, alloc: Global, p: Id) -> Result<usize, RuleFault>
        requires { IsTyped self.old.signature self.old.nodes p }
        ensures answers { Answers self.old self.new (line.Ccontr p) result
            (nameless_ccontr_gives self.old.signature (tree_at self.old.nodes p)) }
        ensures reaches { Reaches self.new result
            (nameless_ccontr_gives self.old.signature (tree_at self.old.nodes p)) }
        ensures carries { Carries self.old self.new }
    {
        self.apply(alloc, &Line::Ccontr(p))
    }

    /// `|-` the statement of the label. `UnknownLabel`.
    pub fn thm(&mut self, alloc: Global, label: Name) -> Result<usize, RuleFault>
        ensures answers { Answers self.old self.new (line.Thm label) result
            (nameless_thm_gives (statements self.old) label) }
        ensures reaches { Reaches self.new result (nameless_thm_gives (statements self.old) label) }
        ensures carries { Carries self.old self.new }
    {
        self.apply(alloc, &Line::Thm(label))
    }
}
