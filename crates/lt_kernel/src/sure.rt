//! Rules that are known to give a sequent, so that want of memory is their only refusal.
//!
//! A derivation whose rules can't be refused calls these: each of its exits is want of memory then.
ghost use Rattle.std.specs.Prelude.{◌≡◌, ◌<◌, None, true, is_ok, IfOk};
ghost use Rattle.lt_definitions.specs.Typing.{type_fault};
ghost use Rattle.lt_nameless.specs.NamelessRules.{nameless_assume_gives, nameless_weaken_gives, nameless_refl_gives, nameless_sym_gives, nameless_trans_gives, nameless_cong_gives, nameless_abs_gives, nameless_beta_gives, nameless_eta_gives, nameless_eqmp_gives, nameless_impI_gives, nameless_mp_gives, nameless_allI_gives, nameless_allE_gives, nameless_iff_gives, nameless_inst_gives, nameless_tinst_gives, nameless_select_gives, nameless_ccontr_gives, nameless_thm_gives};
ghost use Rattle.lt_store.specs.Typed.{IsTyped};
ghost use Rattle.lt_store.specs.Trees.{tree_at};
ghost use Rattle.lt_kernel.specs.State.{sequents, statements};
ghost use Rattle.lt_kernel.specs.Growing.{Carries};
ghost use Rattle.lt_kernel.specs.Reaching.{IsGiven};

use crate::proof::Proof;
use lt_hol::{Memory, Name, TryCopy, Ty};
use lt_store::{Id, TermStore};
use std::alloc::Global;

/// `p |- p`.
pub fn assume<S: TermStore>(alloc: Global, proof: &mut Proof<S>, p: Id) -> Result<usize, Memory>
    requires p { IsTyped proof.old.signature proof.old.nodes p }
    requires sure { is_ok (nameless_assume_gives proof.old.signature (tree_at proof.old.nodes p))
        ≡ true }
    ensures carries { Carries proof.old proof.new }
    ensures line { IfOk result
        (λ n. IsGiven proof.new n (nameless_assume_gives proof.old.signature
        (tree_at proof.old.nodes p))) }
{
    match proof.assume(alloc, p) {
        Ok(number) => Ok(number),
        Err(fault) => Err(fault.into_memory()),
    }
}

/// From `H |- q`: `H, p |- q`.
pub fn weaken<S: TermStore>(
    alloc: Global,
    proof: &mut Proof<S>,
    p: Id,
    i: usize,
) -> Result<usize, Memory>
    requires p { IsTyped proof.old.signature proof.old.nodes p }
    requires sure { is_ok
        (nameless_weaken_gives proof.old.signature (sequents proof.old)
        (tree_at proof.old.nodes p) i) ≡ true }
    ensures carries { Carries proof.old proof.new }
    ensures line { IfOk result
        (λ n. IsGiven proof.new n (nameless_weaken_gives proof.old.signature (sequents proof.old)
        (tree_at proof.old.nodes p) i)) }
{
    match proof.weaken(alloc, p, i) {
        Ok(number) => Ok(number),
        Err(fault) => Err(fault.into_memory()),
    }
}

/// `|- t = t`.
pub fn refl<S: TermStore>(alloc: Global, proof: &mut Proof<S>, t: Id) -> Result<usize, Memory>
    requires { IsTyped proof.old.signature proof.old.nodes t }
    ensures carries { Carries proof.old proof.new }
    ensures line { IfOk result
        (λ n. IsGiven proof.new n (nameless_refl_gives proof.old.signature
        (tree_at proof.old.nodes t))) }
{
    match proof.refl(alloc, t) {
        Ok(number) => Ok(number),
        Err(fault) => Err(fault.into_memory()),
    }
}

/// From `H |- s = t`: `H |- t = s`.
pub fn sym<S: TermStore>(alloc: Global, proof: &mut Proof<S>, i: usize) -> Result<usize, Memory>
    requires { is_ok (nameless_sym_gives (sequents proof.old) i) ≡ true }
    ensures carries { Carries proof.old proof.new }
    ensures line { IfOk result
        (λ n. IsGiven proof.new n (nameless_sym_gives (sequents proof.old) i)) }
{
    match proof.sym(alloc, i) {
        Ok(number) => Ok(number),
        Err(fault) => Err(fault.into_memory()),
    }
}

/// From `H |- r = s` and `K |- s = t`: `H, K |- r = t`.
pub fn trans<S: TermStore>(
    alloc: Global,
    proof: &mut Proof<S>,
    i: usize,
    j: usize,
) -> Result<usize, Memory>
    requires { is_ok (nameless_trans_gives (sequents proof.old) i j) ≡ true }
    ensures carries { Carries proof.old proof.new }
    ensures line { IfOk result
        (λ n. IsGiven proof.new n (nameless_trans_gives (sequents proof.old) i j)) }
{
    match proof.trans(alloc, i, j) {
        Ok(number) => Ok(number),
        Err(fault) => Err(fault.into_memory()),
    }
}

/// From `H |- f = g` and `K |- a = b`: `H, K |- f a = g b`.
pub fn cong<S: TermStore>(
    alloc: Global,
    proof: &mut Proof<S>,
    i: usize,
    j: usize,
) -> Result<usize, Memory>
    requires { is_ok (nameless_cong_gives (sequents proof.old) i j) ≡ true }
    ensures carries { Carries proof.old proof.new }
    ensures line { IfOk result
        (λ n. IsGiven proof.new n (nameless_cong_gives (sequents proof.old) i j)) }
{
    match proof.cong(alloc, i, j) {
        Ok(number) => Ok(number),
        Err(fault) => Err(fault.into_memory()),
    }
}

/// From `H |- s = t`: `H |- (\x. s) = (\x. t)`.
pub fn abs<S: TermStore>(
    alloc: Global,
    proof: &mut Proof<S>,
    x: &Name,
    ty: &Ty,
    i: usize,
) -> Result<usize, Memory>
    requires ty { type_fault proof.old.signature ty.now ≡ None }
    requires sure { is_ok (nameless_abs_gives (sequents proof.old) x.now ty.now i) ≡ true }
    ensures carries { Carries proof.old proof.new }
    ensures line { IfOk result
        (λ n. IsGiven proof.new n (nameless_abs_gives (sequents proof.old) x.now ty.now i)) }
{
    let x = x.copy(alloc)?;
    let ty = ty.copy(alloc)?;
    match proof.abs(alloc, x, ty, i) {
        Ok(number) => Ok(number),
        Err(fault) => Err(fault.into_memory()),
    }
}

/// `|- t = b`, the body of a redex opened.
pub fn beta<S: TermStore>(alloc: Global, proof: &mut Proof<S>, t: Id) -> Result<usize, Memory>
    requires t { IsTyped proof.old.signature proof.old.nodes t }
    requires sure { is_ok (nameless_beta_gives proof.old.signature (tree_at proof.old.nodes t))
        ≡ true }
    ensures carries { Carries proof.old proof.new }
    ensures line { IfOk result
        (λ n. IsGiven proof.new n (nameless_beta_gives proof.old.signature
        (tree_at proof.old.nodes t))) }
{
    match proof.beta(alloc, t) {
        Ok(number) => Ok(number),
        Err(fault) => Err(fault.into_memory()),
    }
}

/// `|- t = f`, where `t` is `\x. f x`.
pub fn eta<S: TermStore>(alloc: Global, proof: &mut Proof<S>, t: Id) -> Result<usize, Memory>
    requires t { IsTyped proof.old.signature proof.old.nodes t }
    requires sure { is_ok (nameless_eta_gives proof.old.signature (tree_at proof.old.nodes t))
        ≡ true }
    ensures carries { Carries proof.old proof.new }
    ensures line { IfOk result
        (λ n. IsGiven proof.new n (nameless_eta_gives proof.old.signature
        (tree_at proof.old.nodes t))) }
{
    match proof.eta(alloc, t) {
        Ok(number) => Ok(number),
        Err(fault) => Err(fault.into_memory()),
    }
}

/// From `H |- p = q` and `K |- p`: `H, K |- q`.
pub fn eqmp<S: TermStore>(
    alloc: Global,
    proof: &mut Proof<S>,
    i: usize,
    j: usize,
) -> Result<usize, Memory>
    requires { is_ok (nameless_eqmp_gives (sequents proof.old) i j) ≡ true }
    ensures carries { Carries proof.old proof.new }
    ensures line { IfOk result
        (λ n. IsGiven proof.new n (nameless_eqmp_gives (sequents proof.old) i j)) }
{
    match proof.eqmp(alloc, i, j) {
        Ok(number) => Ok(number),
        Err(fault) => Err(fault.into_memory()),
    }
}

/// From `H |- q`: `H` without `p |- p --> q`.
pub fn impI<S: TermStore>(
    alloc: Global,
    proof: &mut Proof<S>,
    p: Id,
    i: usize,
) -> Result<usize, Memory>
    requires p { IsTyped proof.old.signature proof.old.nodes p }
    requires sure { is_ok
        (nameless_impI_gives proof.old.signature (sequents proof.old) (tree_at proof.old.nodes p) i)
        ≡ true }
    ensures carries { Carries proof.old proof.new }
    ensures line { IfOk result
        (λ n. IsGiven proof.new n (nameless_impI_gives proof.old.signature (sequents proof.old)
        (tree_at proof.old.nodes p) i)) }
{
    match proof.impI(alloc, p, i) {
        Ok(number) => Ok(number),
        Err(fault) => Err(fault.into_memory()),
    }
}

/// From `H |- p --> q` and `K |- p`: `H, K |- q`.
pub fn mp<S: TermStore>(
    alloc: Global,
    proof: &mut Proof<S>,
    i: usize,
    j: usize,
) -> Result<usize, Memory>
    requires { is_ok (nameless_mp_gives (sequents proof.old) i j) ≡ true }
    ensures carries { Carries proof.old proof.new }
    ensures line { IfOk result
        (λ n. IsGiven proof.new n (nameless_mp_gives (sequents proof.old) i j)) }
{
    match proof.mp(alloc, i, j) {
        Ok(number) => Ok(number),
        Err(fault) => Err(fault.into_memory()),
    }
}

/// From `H |- p`: `H |- all x. p`.
pub fn allI<S: TermStore>(
    alloc: Global,
    proof: &mut Proof<S>,
    x: &Name,
    ty: &Ty,
    i: usize,
) -> Result<usize, Memory>
    requires ty { type_fault proof.old.signature ty.now ≡ None }
    requires sure { is_ok (nameless_allI_gives (sequents proof.old) x.now ty.now i) ≡ true }
    ensures carries { Carries proof.old proof.new }
    ensures line { IfOk result
        (λ n. IsGiven proof.new n (nameless_allI_gives (sequents proof.old) x.now ty.now i)) }
{
    let x = x.copy(alloc)?;
    let ty = ty.copy(alloc)?;
    match proof.allI(alloc, x, ty, i) {
        Ok(number) => Ok(number),
        Err(fault) => Err(fault.into_memory()),
    }
}

/// From `H |- all p`: `H |- p` opened by `t`, or `p t`.
pub fn allE<S: TermStore>(
    alloc: Global,
    proof: &mut Proof<S>,
    t: Id,
    i: usize,
) -> Result<usize, Memory>
    requires t { IsTyped proof.old.signature proof.old.nodes t }
    requires sure { is_ok
        (nameless_allE_gives proof.old.signature (sequents proof.old) (tree_at proof.old.nodes t) i)
        ≡ true }
    ensures carries { Carries proof.old proof.new }
    ensures line { IfOk result
        (λ n. IsGiven proof.new n (nameless_allE_gives proof.old.signature (sequents proof.old)
        (tree_at proof.old.nodes t) i)) }
{
    match proof.allE(alloc, t, i) {
        Ok(number) => Ok(number),
        Err(fault) => Err(fault.into_memory()),
    }
}

/// From `H |- p --> q` and `K |- q --> p`: `H, K |- p = q`.
pub fn iff<S: TermStore>(
    alloc: Global,
    proof: &mut Proof<S>,
    i: usize,
    j: usize,
) -> Result<usize, Memory>
    requires { is_ok (nameless_iff_gives (sequents proof.old) i j) ≡ true }
    ensures carries { Carries proof.old proof.new }
    ensures line { IfOk result
        (λ n. IsGiven proof.new n (nameless_iff_gives (sequents proof.old) i j)) }
{
    match proof.iff(alloc, i, j) {
        Ok(number) => Ok(number),
        Err(fault) => Err(fault.into_memory()),
    }
}

/// From `H |- p`: the variable replaced by `t` in both.
pub fn inst<S: TermStore>(
    alloc: Global,
    proof: &mut Proof<S>,
    x: &Name,
    ty: &Ty,
    t: Id,
    i: usize,
) -> Result<usize, Memory>
    requires ty { type_fault proof.old.signature ty.now ≡ None }
    requires t { IsTyped proof.old.signature proof.old.nodes t }
    requires sure { is_ok
        (nameless_inst_gives proof.old.signature (sequents proof.old) x.now ty.now
        (tree_at proof.old.nodes t) i) ≡ true }
    ensures carries { Carries proof.old proof.new }
    ensures line { IfOk result
        (λ n. IsGiven proof.new n (nameless_inst_gives proof.old.signature
        (sequents proof.old) x.now ty.now (tree_at proof.old.nodes t) i)) }
{
    let x = x.copy(alloc)?;
    let ty = ty.copy(alloc)?;
    match proof.inst(alloc, x, ty, t, i) {
        Ok(number) => Ok(number),
        Err(fault) => Err(fault.into_memory()),
    }
}

/// From `H |- p`: the type variable replaced by the type in both.
pub fn tinst<S: TermStore>(
    alloc: Global,
    proof: &mut Proof<S>,
    a: &Name,
    ty: &Ty,
    i: usize,
) -> Result<usize, Memory>
    requires ty { type_fault proof.old.signature ty.now ≡ None }
    requires sure { is_ok (nameless_tinst_gives (sequents proof.old) a.now ty.now i) ≡ true }
    ensures carries { Carries proof.old proof.new }
    ensures line { IfOk result
        (λ n. IsGiven proof.new n (nameless_tinst_gives (sequents proof.old) a.now ty.now i)) }
{
    let a = a.copy(alloc)?;
    let ty = ty.copy(alloc)?;
    match proof.tinst(alloc, a, ty, i) {
        Ok(number) => Ok(number),
        Err(fault) => Err(fault.into_memory()),
    }
}

/// `|- all x. p x --> p (eps p)`.
pub fn select<S: TermStore>(alloc: Global, proof: &mut Proof<S>, p: Id) -> Result<usize, Memory>
    requires p { IsTyped proof.old.signature proof.old.nodes p }
    requires sure { is_ok (nameless_select_gives proof.old.signature (tree_at proof.old.nodes p))
        ≡ true }
    ensures carries { Carries proof.old proof.new }
    ensures line { IfOk result
        (λ n. IsGiven proof.new n (nameless_select_gives proof.old.signature
        (tree_at proof.old.nodes p))) }
{
    match proof.select(alloc, p) {
        Ok(number) => Ok(number),
        Err(fault) => Err(fault.into_memory()),
    }
}

/// `|- ((p --> F) --> F) --> p`.
pub fn ccontr<S: TermStore>(alloc: Global, proof: &mut Proof<S>, p: Id) -> Result<usize, Memory>
    requires p { IsTyped proof.old.signature proof.old.nodes p }
    requires sure { is_ok (nameless_ccontr_gives proof.old.signature (tree_at proof.old.nodes p))
        ≡ true }
    ensures carries { Carries proof.old proof.new }
    ensures line { IfOk result
        (λ n. IsGiven proof.new n (nameless_ccontr_gives proof.old.signature
        (tree_at proof.old.nodes p))) }
{
    match proof.ccontr(alloc, p) {
        Ok(number) => Ok(number),
        Err(fault) => Err(fault.into_memory()),
    }
}

/// `|-` the statement of the label.
pub fn thm<S: TermStore>(alloc: Global, proof: &mut Proof<S>, label: &Name) -> Result<usize, Memory>
    requires { is_ok (nameless_thm_gives (statements proof.old) label.now) ≡ true }
    ensures carries { Carries proof.old proof.new }
    ensures line { IfOk result
        (λ n. IsGiven proof.new n (nameless_thm_gives (statements proof.old) label.now)) }
{
    let label = label.copy(alloc)?;
    match proof.thm(alloc, label) {
        Ok(number) => Ok(number),
        Err(fault) => Err(fault.into_memory()),
    }
}
